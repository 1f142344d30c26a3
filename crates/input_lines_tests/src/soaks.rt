//! The program of a soak, and its first inputs.

use input_lines::{print_entry, soak_entry, soak_program};
use std::alloc::Global;
use std::test::Fail;
use task_model::{Entry, OutOfMemory};

#[test]
fn program(rt: HostRuntime) -> Result<(), Fail> {
    let text = soak_program(rt.alloc())?;
    let text = text.as_str();
    assert!(rt;
        text.starts_with(
            "task cell(r : ref int, k : int) : int = share r >>? x . (r := x + k ; cell(r, k))\ntask main() : (((("
        )
    );
    assert!(rt;
        text.contains(" = new a = 0 in new b = 0 in cell(a, 1) <&> cell(b, 2) <&> cell(a, 3)")
    );
    assert!(rt; text.ends_with(" <&> cell(a, 31) <&> cell(b, 32)\n"));
    assert_eq!(rt; text.len(), 844);
    Ok(())
}

/// States of the generator, each before the next one and the input that it gives, as the rule computed by hand has them.
const INPUTS: &str = "3@2088359638719790806@1 .FFFFFFFFFFFFFFFFFFFFFFFFFFFFS next
2088359638719790806@5991960103029929709@1 .FFFFS left
13547870596056087544@6385483684110717927@1 .FFFFFFFFFFFFFFFFFFFFFS set 418
17628806926561717905@16723372171710603212@1 .FFFFFFFFFFFFFFS left
0@1442695040888963407@1 .S left
18446744073709551615@13525302890751722018@1 .FFFFFFFFFFFFFFFFFFFFFFFS next";

// The state behind this one, and the input that it gives.
fn told(alloc: Global, state: u64) -> Result<String, OutOfMemory> {
    let (reached, entry) = soak_entry(alloc, state)?;
    reached_text(alloc, reached, &entry)
}

fn reached_text(alloc: Global, reached: u64, entry: &Entry) -> Result<String, OutOfMemory> {
    let text = print_entry(alloc, entry)?;
    Ok(format!(in alloc; "{reached}@{}", text.as_str().trim_end())?)
}

fn put_all(found: &mut String, alloc: Global) -> Result<(), OutOfMemory> {
    for row in INPUTS.split('\n') {
        let (state, rest) = row.split_once('@').unwrap_or((row, ""));
        let told = told(alloc, state.parse::<u64>().unwrap_or(1))?;
        if told.as_str() != rest {
            write!(found, "{row}\nis {}\n", told.as_str())?;
        }
    }
    Ok(())
}

#[test]
fn inputs(rt: HostRuntime) -> Result<(), Fail> {
    let mut found = String::new(rt.alloc());
    put_all(&mut found, rt.alloc())?;
    assert!(rt; found.is_empty(), "{}", found.as_str());
    Ok(())
}
