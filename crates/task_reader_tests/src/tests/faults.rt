//! Where a text ends too early, and tokens in place of others.

use super::{FUNCTION, TASK, field, put_compared, put_fault, told};
use std::alloc::{AllocError, Global};
use std::test::Fail;
use task_syntax::{LexStop, lex};

// The front of each production of definitions and types, and behind `@` what may stand there.
const DEFINITIONS: &str = "fun@ f() : int = 1
fun f@() : int = 1
fun f(@) : int = 1
fun f()@ : int = 1
fun f() : int@ = 1
fun f() : int =@ 1
task@ f() : int = share r
task f() : int =@ share r
fun f(x :@ int) : int = 1
fun f(x : ref@ int) : int = 1
fun f(x : ref unit@) : int = 1
fun f(x : bool@) : int = 1
fun f(x : text,@ y : int) : int = 1
fun f() : (int@, int) = 1
fun f() : (int,@ int) = 1
fun f() : (int, int)@ = 1
fun f() : [@int] = 1
fun f() : [int]@ = 1";

// Each production of expressions, within parentheses.
const EXPRESSIONS: &str = "let x = 1 in@ 1
let x = 1 in 1@
if true then 1 else@ 1
if true then 1 else 1@
case l of [] -> 1 | x :: y ->@ 1
case l of [] -> 1 | x :: y -> 1@
1 ||@ 1
1 || 1@
1 &&@ 1
1 && 1@
1 ==@ 1
1 == 1@
1 !=@ 1
1 <@ 1
1 <=@ 1
1 >@ 1
1 >=@ 1
1 ::@ 1
1 :: 1@
1 +@ 1
1 + 1@
1 -@ 1
1 ++@ 1
1 *@ 1
1 * 1@
1 quot@ 1
1 rem@ 1
-@ 1
- 1@
not@ 1
fst@ 1
snd@ 1
len@ 1
1@
\"a\"@
true@
false@
()@
x@
!@r
!r@
f(@)
f()@
f(1,@ 1)
(1)@
(1,@ 1)
(1, 1)@
[@1]
[1, 1]@
nil@ int";

// Each production of tasks, within parentheses.
const TASKS: &str = "let x = 1 in@ share r
let x = 1 in share r@
if true then share r else@ share r
if true then share r else share r@
case l of [] -> share r | x :: y ->@ share r
case l of [] -> share r | x :: y -> share r@
new r = 1 in@ share r
new r = 1 in share r@
r := 1 ;@ share r
r := 1 ; share r@
share r >>=@ x . share r
share r >>= x . share r@
share r >>?@ x . share r
share r >>? x . share r@
share r <|>@ share r
share r <|> share r@
share r <?>@ share r
share r <?> share r@
share r <&>@ share r
share r <&> share r@
edit@ 1
edit 1@
enter@ int
enter int@
share@ r
share r@
fail@ int
fail int@
f(@)
f()@
f(1@)
(share r)@";

// How many tokens a source has.
fn token_count(alloc: Global, source: &str) -> Result<usize, AllocError> {
    match lex(alloc, source) {
        Ok(tokens) => Ok(tokens.list.as_slice().len()),
        Err(LexStop::Fault { .. }) => Ok(0),
        Err(LexStop::Memory) => Err(AllocError),
    }
}

// Puts what differs of a text that ends too early.
fn put_early(found: &mut String, alloc: Global, early: &str) -> Result<(), AllocError> {
    let many = token_count(alloc, early)?;
    let kind = format!(in alloc; "Unexpected {{ token: {many} }}")?;
    put_fault(found, alloc, early, many, kind.as_str())
}

// The same, and of it with what it wants.
fn put_cut(
    found: &mut String,
    alloc: Global,
    head: &str,
    row: &str,
    end: &str,
) -> Result<(), AllocError> {
    let (piece, rest) = field(row);
    let early = format!(in alloc; "{head}{piece}")?;
    put_early(found, alloc, early.as_str())?;
    let whole = format!(in alloc; "{head}{piece}{rest}{end}")?;
    put_compared(found, alloc, whole.as_str(), "read")
}

// Puts what differs of these rows behind a head, and before an end.
fn put_cuts(
    found: &mut String,
    alloc: Global,
    head: &str,
    rows: &str,
    end: &str,
) -> Result<(), AllocError> {
    for row in rows.split('\n') {
        put_cut(found, alloc, head, row, end)?;
    }
    Ok(())
}

// The same within a parenthesis that the head goes on with.
fn put_inside(found: &mut String, alloc: Global, head: &str, rows: &str) -> Result<(), AllocError> {
    let head = format!(in alloc; "{head}(")?;
    put_cuts(found, alloc, head.as_str(), rows, ")")
}

// A program with most of the forms, its tokens with a space between each two.
const PROGRAM: &str =
    "fun f ( x : int , r : ref [ text ] ) : ( int , bool ) = case l of [ ] -> ( 1 , true ) | y :: z -> ( len z , not false ) task main ( ) : int = new r = nil int in enter int >>= x . ( edit x <&> share r <?> fail int )";

// A token's number, what stands in its place, and the first faulty token, if there is one.
const REPLACED: &str = "0@let@0
3@)@6
9@(@13
12@,@12
15@[@17
20@==@20
24@(@24
28@-@29
29@+@
29@of@29
32@||@36
34@+@34
36@::@36
44@in@44
44@+@48
51@let@
52@(@52
54@edit@54
57@x@58
59@:=@59
60@1@60
61@in@61
63@enter@64
64@!@65
65@<?>@
65@*@65
67@task@67
68@;@68
70@[@71
71@]@71
71@fun@71
71@) +@72";

// The program with another word in place of a token.
fn replaced(alloc: Global, at: usize, word: &str) -> Result<String, AllocError> {
    let mut source = String::new(alloc);
    for (number, token) in PROGRAM.split(' ').enumerate() {
        source.push_str(if number == at { word } else { token })?;
        source.push(' ')?;
    }
    Ok(source)
}

// Puts what differs from a row.
fn put_replaced(found: &mut String, alloc: Global, row: &str) -> Result<(), AllocError> {
    let (at, rest) = field(row);
    let (word, fault) = field(rest);
    let source = replaced(alloc, at.parse::<usize>().unwrap_or(0), word)?;
    match fault.parse::<usize>() {
        Ok(token) => {
            let kind = format!(in alloc; "Unexpected {{ token: {token} }}")?;
            put_fault(found, alloc, source.as_str(), token, kind.as_str())
        }
        Err(_) => put_compared(found, alloc, source.as_str(), "read"),
    }
}

// The faults of a source before its grammar, by their bytes.
const SOURCES: &[(&[u8], &str)] = &[
    (b"\xff", "NotUtf8 at 0"),
    (b"# \xc3\xa9\xc3", "NotUtf8 at 4"),
    (b"task @", "Lex(BadChar) at 5"),
    (b"task \"\\q", "Lex(BadEscape) at 6"),
    (b") \"", "Lex(OpenText) at 2"),
    (b") 9223372036854775808", "Lex(WideNumber) at 2"),
];

fn put_source(
    found: &mut String,
    alloc: Global,
    source: &[u8],
    wanted: &str,
) -> Result<(), AllocError> {
    if told(alloc, source)?.as_str() != wanted {
        write!(found, "{wanted} is not told\n")?;
    }
    Ok(())
}

// Puts what differs where a text ends too early, where a token stands in place of another, and of sources that have no tokens.
fn put_all(found: &mut String, alloc: Global) -> Result<(), AllocError> {
    put_cuts(found, alloc, "", DEFINITIONS, "")?;
    put_inside(found, alloc, FUNCTION, EXPRESSIONS)?;
    put_inside(found, alloc, TASK, TASKS)?;
    for row in REPLACED.split('\n') {
        put_replaced(found, alloc, row)?;
    }
    for (source, wanted) in SOURCES {
        put_source(found, alloc, source, wanted)?;
    }
    Ok(())
}

#[test]
fn first_faults(rt: HostRuntime) -> Result<(), Fail> {
    let mut found = String::new(rt.alloc());
    put_all(&mut found, rt.alloc())?;
    assert!(rt; found.is_empty(), "{}", found.as_str());
    Ok(())
}
