//! The places of nodes in pre-order, with the length of the text behind them: parentheses round a node don't count.

use std::test::Fail;
use task_reader::read_program;

const PLACES: &[(&str, &[u64])] = &[
    ("", &[0]),
    (
        "task f() : int = ((edit (1)) <&> (share r))",
        &[0, 18, 19, 25, 34, 43],
    ),
    (
        "fun f(x : int, r : ref int) : int = (x) + !r * (2)",
        &[0, 6, 15, 36, 37, 42, 42, 48, 50],
    ),
    (
        "task f() : int = (enter int) >>= x . (edit x <?> fail int)",
        &[0, 17, 18, 38, 38, 43, 49, 58],
    ),
];

#[test]
fn places(rt: HostRuntime) -> Result<(), Fail> {
    for (source, places) in PLACES {
        let read = read_program(rt.alloc(), source.as_bytes())?;
        assert_eq!(rt; read.places.as_slice(), *places, "{source}");
    }
    Ok(())
}
