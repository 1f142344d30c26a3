//! Programs of 200 levels and of one more, by each kind of nesting.

use super::{field, put_compared, put_fault};
use std::alloc::{AllocError, Global};
use std::test::Fail;

// How often a row nests in a program of 200 levels, which token is too deep where it nests once more, and behind `@` what stands in front,
// what opens a level, what stands inside, what closes a level, and what stands behind.
const TYPES: &str = "199 204@fun f() : @[@int@]@ = 1
199 204@fun f() : @(@int@, int)@ = 1
199 602@fun f() : @(int, @int@)@ = 1
199 205@fun f(x : ref @[@int@]@) : int = 1
198 206@fun f() : int = nil @[@int@]@
198 206@task f() : int = enter @[@int@]@";

const EXPRESSIONS: &str = "199 207@fun f() : int = @(@1@)@
199 605@fun f() : int = @(1, @1@)@
199 206@fun f() : int = @[@1@]@
199 407@fun f() : int = @f(@1@)@
199 206@fun f() : int = @not @x@@
199 406@fun f() : int = @1 + @1@@
199 406@fun f() : int = @1 * @1@@
199 406@fun f() : int = @1 && @1@@
199 406@fun f() : int = @1 || @1@@
199 406@fun f() : int = @1 :: @1@@
199 1002@fun f() : int = @let x = 1 in @1@@
199 1002@fun f() : int = @if true then 1 else @1@@
199 2395@fun f() : int = @case l of [] -> 1 | x :: y -> @1@@
198 406@fun f() : int = @(@1@)@ + 1
198 406@fun f() : int = @(@1@)@ :: 1
198 406@fun f() : int = @(@1@)@ == 1
198 208@fun f() : int = 1 + @(@1@)@";

const TASKS: &str = "198 206@task main() : int = @(@edit 1@)@
199 206@task main() : int = @(@share r@)@
198 207@task f() : int = edit @(@1@)@
198 407@task f() : int = g(@f(@1@)@)
199 606@task main() : int = @share r <&> @share r@@
199 606@task main() : int = @share r <|> @share r@@
199 606@task main() : int = @share r <?> @share r@@
199 1004@task main() : int = @share r >>= x . @share r@@
199 1004@task main() : int = @share r >>? x . @share r@@
199 1002@task main() : int = @let x = 1 in @share r@@
199 1002@task main() : int = @new r = 1 in @share r@@
199 804@task main() : int = @r := 1 ; @share r@@
199 1201@task main() : int = @if true then share r else @share r@@
199 2594@task main() : int = @case l of [] -> share r | x :: y -> @share r@@
198 407@task main() : int = @(@share r@)@ >>= x . share r";

// A text so many times.
fn many(alloc: Global, text: &str, times: usize) -> Result<String, AllocError> {
    let mut all = String::new(alloc);
    for _ in 0..times {
        all.push_str(text)?;
    }
    Ok(all)
}

// A source in which a row's levels nest so often.
fn source(alloc: Global, nesting: &str, times: usize) -> Result<String, AllocError> {
    let (front, rest) = field(nesting);
    let (open, rest) = field(rest);
    let (inside, rest) = field(rest);
    let (close, behind) = field(rest);
    let (opens, closes) = (many(alloc, open, times)?, many(alloc, close, times)?);
    format!(in alloc;
        "{front}{}{inside}{}{behind}",
        opens.as_str(),
        closes.as_str()
    )
}

// Puts what differs from a row.
fn put_row(found: &mut String, alloc: Global, row: &str) -> Result<(), AllocError> {
    let (counts, nesting) = field(row);
    let (most, token) = counts.split_once(' ').unwrap_or((counts, ""));
    let most = most.parse::<usize>().unwrap_or(0);
    let token = token.parse::<usize>().unwrap_or(0);
    let deep = source(alloc, nesting, most)?;
    put_compared(found, alloc, deep.as_str(), "read")?;
    let deeper = source(alloc, nesting, most.saturating_add(1))?;
    put_fault(found, alloc, deeper.as_str(), token, "TooNested")
}

fn put_all(found: &mut String, alloc: Global) -> Result<(), AllocError> {
    for rows in [TYPES, EXPRESSIONS, TASKS] {
        for row in rows.split('\n') {
            put_row(found, alloc, row)?;
        }
    }
    Ok(())
}

#[test]
fn levels(rt: HostRuntime) -> Result<(), Fail> {
    let mut found = String::new(rt.alloc());
    put_all(&mut found, rt.alloc())?;
    assert!(rt; found.is_empty(), "{}", found.as_str());
    Ok(())
}
