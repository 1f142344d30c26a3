//! Each form beside each other as its part: the text that is printed is the one with the fewest parentheses.

use super::field;
use std::alloc::Global;
use std::test::Fail;
use task_model::OutOfMemory;
use task_reader::{ReadStop, print_program, read_program};

// The parts that are so loose: the first of these tables are tight, and stand anywhere without parentheses.
const EXPRESSIONS: [&str; 9] = [
    "1
\"\\\"\\\\\\n\\t\\r\\x01\\x7f\u{e9} #\"
true
false
( )
x
! r
f ( )
f ( 1 , x )
( 1 , x )
[ 1 , x ]
nil ( unit , [ text ] )",
    "- x
not x
fst x
snd x
len x",
    "x * x
x quot x
x rem x",
    "x + x
x - x
x ++ x",
    "x :: x",
    "x == x
x != x
x < x
x <= x
x > x
x >= x",
    "x && x",
    "x || x",
    "let x = 1 in x
if x then 1 else x
case x of [ ] -> 1 | y :: z -> x",
];

// What stands before and behind `@`, where parts so loose stand without parentheses.
const IN_FUNCTIONS: [&str; 9] = [
    "",
    "- @
not @
fst @
snd @
len @
x * @
x quot @
x rem @",
    "@ * x
@ quot x
@ rem x
x + @
x - @
x ++ @",
    "@ + x
@ - x
@ ++ x
@ :: x",
    "x :: @
@ == x
x == @
@ != x
x != @
@ < x
x < @
@ <= x
x <= @
@ > x
x > @
@ >= x
x >= @",
    "x && @",
    "@ && x
x || @",
    "@ || x",
    "@
f ( @ , x )
f ( x , @ )
( @ , x )
( x , @ )
[ @ , x ]
[ x , @ ]
let x = @ in x
let x = x in @
if @ then x else x
if x then @ else x
if x then x else @
case @ of [ ] -> x | y :: z -> x
case x of [ ] -> @ | y :: z -> x
case x of [ ] -> x | y :: z -> @",
];

const IN_TASKS: [&str; 9] = [
    "edit @
share r >>= x . edit @",
    "",
    "",
    "",
    "",
    "",
    "",
    "",
    "g ( @ )
g ( x , @ )
let x = @ in share r
if @ then share r else share r
case @ of [ ] -> share r | y :: z -> share r
new r = @ in share r
r := @ ; share r",
];

const TASKS: [&str; 4] = [
    "edit 1
enter int
share r
fail ( bool , [ int ] )
g ( )",
    "share r <&> fail int",
    "share r <|> fail int
share r <?> fail int",
    "share r >>= x . fail int
share r >>? x . fail int
let x = 1 in share r
if true then share r else fail int
case l of [ ] -> share r | x :: y -> fail int
new r = 1 in share r
r := 1 ; share r",
];

const OF_TASKS: [&str; 4] = [
    "edit 1 <&> @",
    "@ <&> edit 1
edit 1 <|> @
edit 1 <?> @",
    "@ <|> edit 1
@ <?> edit 1
@ >>= x . edit 1
@ >>? x . edit 1",
    "@
edit 1 >>= x . @
edit 1 >>? x . @
let x = 1 in @
if true then @ else edit 1
if true then edit 1 else @
case l of [ ] -> @ | x :: y -> edit 1
case l of [ ] -> edit 1 | x :: y -> @
new r = 1 in @
r := 1 ; @",
];

// What is printed for the program of a source.
fn printed(alloc: Global, source: &str) -> Result<String, OutOfMemory> {
    match read_program(alloc, source.as_bytes()) {
        Ok(read) => {
            let text = print_program(alloc, &read.program)?;
            Ok(String::from_str(alloc, text.as_str())?)
        }
        Err(ReadStop::Fault { .. }) => Ok(String::from_str(alloc, "not read")?),
        Err(ReadStop::Memory) => Err(OutOfMemory),
    }
}

// Puts a source and what is printed for it, where that isn't what is wanted.
fn put_printed(
    found: &mut String,
    alloc: Global,
    source: &str,
    wanted: &str,
) -> Result<(), OutOfMemory> {
    let printed = printed(alloc, source)?;
    if printed.as_str() != wanted {
        write!(found, "{source}\nis {}\n", printed.as_str())?;
    }
    Ok(())
}

// Puts what differs of a part that was written in parentheses: it keeps those that it needs.
fn put_part(
    found: &mut String,
    alloc: Global,
    head: &str,
    place: &str,
    part: &str,
    is_bare: bool,
) -> Result<(), OutOfMemory> {
    let (before, behind) = field(place);
    let grouped = format!(in alloc; "{head}{before}( {part} ){behind}\n")?;
    if !is_bare {
        return put_printed(found, alloc, grouped.as_str(), grouped.as_str());
    }
    let bare = format!(in alloc; "{head}{before}{part}{behind}\n")?;
    put_printed(found, alloc, grouped.as_str(), bare.as_str())?;
    put_printed(found, alloc, bare.as_str(), bare.as_str())
}

// The same of parts at a place, if it is one.
fn put_at(
    found: &mut String,
    alloc: Global,
    head: &str,
    place: &str,
    parts: &str,
    is_bare: bool,
) -> Result<(), OutOfMemory> {
    if place.is_empty() {
        return Ok(());
    }
    for part in parts.split('\n') {
        put_part(found, alloc, head, place, part, is_bare)?;
    }
    Ok(())
}

// The same of parts that are so loose, at all places behind a head.
fn put_parts(
    found: &mut String,
    alloc: Global,
    head: &str,
    places: &[&str],
    parts: &str,
    looseness: usize,
) -> Result<(), OutOfMemory> {
    for (loosest, rows) in places.iter().enumerate() {
        for place in rows.split('\n') {
            put_at(found, alloc, head, place, parts, looseness <= loosest)?;
        }
    }
    Ok(())
}

// The same of all parts, from the tightest ones to the loosest.
fn put_places(
    found: &mut String,
    alloc: Global,
    head: &str,
    places: &[&str],
    all: &[&str],
) -> Result<(), OutOfMemory> {
    for (looseness, parts) in all.iter().enumerate() {
        put_parts(found, alloc, head, places, parts, looseness)?;
    }
    Ok(())
}

const FUN: &str = "fun f ( ) : int = ";

const TASK: &str = "task f ( ) : int = ";

const WHOLE: &[(&str, &str)] = &[
    ("", ""),
    (
        "task main() : int = enter int >>? x. edit (x + 1)",
        "task main ( ) : int = enter int >>? x . edit ( x + 1 )\n",
    ),
    (
        "# a list\nfun f(a:unit,b:ref(bool,[text])):[int]=007::nil int task g():int=f()",
        "fun f ( a : unit , b : ref ( bool , [ text ] ) ) : [ int ] = 7 :: nil int\ntask g ( ) : int = f ( )\n",
    ),
];

fn put_all(found: &mut String, alloc: Global) -> Result<(), OutOfMemory> {
    put_places(found, alloc, FUN, &IN_FUNCTIONS, &EXPRESSIONS)?;
    put_places(found, alloc, TASK, &IN_TASKS, &EXPRESSIONS)?;
    put_places(found, alloc, TASK, &OF_TASKS, &TASKS)?;
    for (source, wanted) in WHOLE {
        put_printed(found, alloc, source, wanted)?;
    }
    Ok(())
}

#[test]
fn printed_again(rt: HostRuntime) -> Result<(), Fail> {
    let mut found = String::new(rt.alloc());
    put_all(&mut found, rt.alloc())?;
    assert!(rt; found.is_empty(), "{}", found.as_str());
    Ok(())
}
