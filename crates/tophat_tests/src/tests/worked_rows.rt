//! Programs with their scripts, and what the whole command writes.

/// Commands of every kind, in blocks as `Block` (block.rt) has them.
pub(super) const WORKED_ROWS: &str = r#"task main() : int = enter int >>? x . edit (x + 1)
= 0
> 1 . set 4
taken 1
> 1 . next
taken 2
> 1 show
version 2 seat 1
. edit int 5

$ check p.th
same program
= 0
task main ( ) : int = enter int >>? x . edit ( x + 1 )

task main() : int = enter int >>? x . if x > 3 then edit x else fail int
= 0
> 1 . set 2
taken 1
> 1 . next
not offered
> 1 show
version 1 seat 1
. step
. edit int 2

task main() : int = enter int >>= x . if x > 3 then edit x else fail int
= 0
> 1 . set 2
taken 1
> 1 show
version 1 seat 1
. then
. edit int 2
> 1 . set 5
taken 2
> 1 show
version 2 seat 1
. edit int 5

task main() : (int, int) = new r = 1 in share r <&> share r
= 0
> 1 .F set 9
taken 1
> 2 show
version 1 seat 2
. and
.F share int 9
.S share int 9

task main() : int = edit 1 <?> fail int
= 0
> 1 show
version 0 seat 1
. pick left
> 1 . right
not offered
> 1 . left
taken 1
> 1 show
version 1 seat 1
. edit int 1

task main() : int = enter int <|> enter int
= 0
> 1 .S set 3
taken 1
> 1 .S set 4
not offered
> 1 . set 4
taken 2
> 1 show
version 2 seat 1
. edit int 4

task main() : int = (enter int >>? x . edit x) >>? y . edit (y * 2)
= 0
> 1 . set 3
taken 1
> 1 . next
taken 2
> 1 . next
taken 3
> 1 show
version 3 seat 1
. edit int 6

task a() : int = edit 1 >>= x . b()
task b() : int = edit 2 >>= x . a()
task main() : int = a()
= 4 tophat: opening over budget

task t() : int = t()
task main() : int = t()
= 1 tophat: p.th: byte 17: Unguarded

task main() : int = edit (9223372036854775807 + 1)
= 0
> 1 show
version 0 seat 1
. edit int 9223372036854775807

task main() : int = enter int
= 3 tophat: line 2 column 10
> 1 . set true
not offered
> 1 . set 4x

task main() : text = edit "<b>&\""
= 0
> 1 show
version 0 seat 1
. edit text "<b>&\""

task main() : (int, int) = edit 1 <&> enter int
= 0
> 1 .S set 4
taken 1
> 1 show
version 1 seat 1
. and
.F edit int 1
.S edit int 4

$ check p.th
# a message board
task post(log : ref [text]) : [text] = enter text >>? m . (log := m :: !log ; post(log))
task main() : ([text], [text]) = new log = nil text in post(log) <&> share log
= 0
task post ( log : ref [ text ] ) : [ text ] = enter text >>? m . log := m :: ! log ; post ( log )
task main ( ) : ( [ text ] , [ text ] ) = new log = nil text in post ( log ) <&> share log

same program
= 0
> 1 .F set "hello"
taken 1
> 1 .F next
taken 2
> 2 .F set "hi"
taken 3
> 2 .F next
taken 4
> 1 show
version 4 seat 1
. and
.F step
.F enter text
.S share [text] ["hi", "hello"]

task main() : int = main() <?> main()
= 0
> 1 show
version 0 seat 1
. pick left? right?
> 1 . left
over budget

$ run none.th
= 7 tophat: none.th: no such file

$ check none.th
= 7 tophat: none.th: no such file

$ run -
= 7 tophat: -: no such file

$ run -- -p
= 7 tophat: -p: no such file

$ run help
= 7 tophat: help: no such file

$ check -- --budget=4
= 7 tophat: --budget=4: no such file

task main() : int = edit (1 + true)
= 1 tophat: p.th: byte 30: Mismatch want int got bool

$ check p.th
same program
= 1 tophat: p.th: byte 30: Mismatch want int got bool

task main() : (int, [text]) = enter (int, [text])
= 0
> 1 . set ( 1,["a", "b"] )
taken 1
> 1 show
version 1 seat 1
. edit (int, [text]) (1, ["a", "b"])

$ run p.th
= 1 tophat: p.th: byte 0: NoMain
"#;

/// A program that goes on for ever.
pub(super) const MILLION: &str = r#"$ run p.th --budget 1000000
task a() : int = edit 1 >>= x . b()
task b() : int = edit 2 >>= x . a()
task main() : int = a()
= 4 tophat: opening over budget
"#;

/// Texts that are joined and cut.
pub(super) const LONG_TEXTS: &str =
    r#"task main() : (int, int) = let all = "{40001 a}" ++ "{20000 é}" in edit (len all, len (all ++ "bb"))
= 0
> 1 show
version 0 seat 1
. edit (int, int) (52768, 52769)
"#;

/// Generated inputs.
pub(super) const SOAKS: &str = r#"$ soak 1 3
= 0
soak inputs 1 taken 1 refused 0 over 0 nodes 95 a 0 b 4

$ soak 01 00003
= 0
soak inputs 1 taken 1 refused 0 over 0 nodes 95 a 0 b 4

$ soak 2 3
= 0
soak inputs 2 taken 1 refused 1 over 0 nodes 95 a 0 b 4

$ soak -- 1 0
= 0
soak inputs 1 taken 0 refused 1 over 0 nodes 95 a 0 b 0

$ soak 1 18446744073709551615
= 0
soak inputs 1 taken 1 refused 0 over 0 nodes 95 a 9 b 0

$ soak 1000 42
= 0
soak inputs 1000 taken 678 refused 322 over 0 nodes 95 a 395 b 177
"#;

/// Words that `run` may have, on one program.
pub(super) const WORDS: &str = r#"$ run --budget=4 p.th
task loop() : int = edit 1 >>= x . loop()
task main() : int = loop()
= 0

$ run --budget 3 p.th
same program
= 4 tophat: opening over budget

$ run p.th --budget=00000000000000000003
same program
= 4 tophat: opening over budget

$ run --budget=3 -- p.th
same program
= 4 tophat: opening over budget

$ run -- p.th
same program
= 0

$ check -- p.th
task main() : int = edit 5
= 0
task main ( ) : int = edit 5
"#;

/// Words outside the grammar, a row a line.
pub(super) const WRONG_WORDS: &str = "run
run -p
run p.th q
run p.th --budget
run p.th --budget 0
run p.th --budget 1000001
run p.th --budget 000000000000000000004
run p.th --budget -4
run p.th --budget=
run p.th --budget=four
run p.th --budget=+4
run p.th --budget -
run p.th --budget 4 --budget 4
run p.th --budget 4 --budget=4
run -- p.th --budget=4
run p.th -- q
run p.th --seats 2
run --budget 4
run -b 4 p.th
run --help
run p.th --help
run -h
run --version
--help
--version
help
--
p.th
Run p.th
check
check p.th q
check p.th --budget 4
check --help
soak
soak 1
soak 0 3
soak 100001 3
soak 1 18446744073709551616
soak 000000000000000000001 3
soak 1 3 4
bound
bound p.th q.th
bound p.th --budget 4
soak one 3
soak 1 -3
soak +1 3
drill
drill 2
drill 0 3
drill 65 3
drill 2 0
drill 2 10001
drill 2 100 7
drill two 100
drill 2 100 --budget 4
serve
serve -p
serve p.th q
serve --budget 4
serve p.th --budget 0
serve p.th --budget 1000001
serve p.th --seats 0
serve p.th --seats 65
serve p.th --workers 0
serve p.th --workers 33
serve p.th --port 0
serve p.th --port 65536
serve p.th --connections 0
serve p.th --connections 1000001
serve p.th --budget 4 --budget 4
serve p.th --seats 4 --seats=4
serve p.th --workers=4 --workers 4
serve p.th --port=4 --port=4
serve p.th --connections 4 --seats 4 --connections 4
serve p.th --port
serve p.th --port=
serve p.th --port -
serve p.th --port +80
serve p.th --port eighty
serve p.th --places 4
serve -- p.th --seats=4
serve --help";

/// Words that ask for a drill, a row a line, and behind ` = ` the number of seats and that of the acts of each.
pub(super) const DRILL_WORDS: &str = "drill 1 1 = 1 1
drill 64 10000 = 64 10000
drill 0002 100 = 2 100
drill -- 2 100 = 2 100";

/// Words that ask to serve, a row a line, and behind ` = ` the file and the numbers: the budget, the seats, the workers, the port and the
/// connections.
pub(super) const SERVED_WORDS: &str = "serve p.th = p.th 10000 8 4 8080 1000000
serve -- -p = -p 10000 8 4 8080 1000000
serve p.th --budget 1 = p.th 1 8 4 8080 1000000
serve p.th --budget=1000000 = p.th 1000000 8 4 8080 1000000
serve --seats 1 p.th = p.th 10000 1 4 8080 1000000
serve p.th --seats=64 = p.th 10000 64 4 8080 1000000
serve p.th --workers 1 = p.th 10000 8 1 8080 1000000
serve p.th --workers=32 = p.th 10000 8 32 8080 1000000
serve p.th --port 1 = p.th 10000 8 4 1 1000000
serve p.th --port=65535 = p.th 10000 8 4 65535 1000000
serve p.th --connections 1 = p.th 10000 8 4 8080 1
serve p.th --connections=1000000 = p.th 10000 8 4 8080 1000000
serve --connections 5 --port=0004 --workers 3 --seats=2 --budget 1 -- p.th = p.th 1 2 3 4 5";

/// Walks over lists of 1,000 elements, and exactly the units that they take (docs/LANGUAGE.md, "Lists"): one that looks for what isn't
/// there, and one that finds the last element and takes it out.
pub(super) const LONG_WALKS: &str = r#"$ run p.th --budget 2003
task find(wanted : int, rest : [int]) : bool =
  case rest of [] -> edit false
  | head :: tail -> if head == wanted then edit true else (edit () >>= u . find(wanted, tail))
task main() : bool = find(0, [{999 @, }1000])
= 0
> 1 show
version 0 seat 1
. edit bool false

$ run p.th --budget 2002
same program
= 4 tophat: opening over budget

$ run p.th --budget 5999
task find(wanted : int, rest : [int]) : bool =
  case rest of [] -> edit false
  | head :: tail -> if head == wanted then edit true else (edit () >>= u . find(wanted, tail))
task behind(passed : [int], rest : [int]) : [int] =
  case passed of [] -> edit rest
  | head :: tail -> edit () >>= u . behind(tail, head :: rest)
task without(wanted : int, rest : [int], passed : [int]) : [int] =
  case rest of [] -> behind(passed, nil int)
  | head :: tail -> if head == wanted then behind(passed, tail) else (edit () >>= u . without(wanted, tail, head :: passed))
task main() : (int, bool) =
  let all = [{999 @, }1000] in
  find(1000, all) >>= there . (without(1000, all, nil int) >>= rest . edit (len rest, there))
= 0
> 1 show
version 0 seat 1
. edit (int, bool) (999, true)

$ run p.th --budget 5998
same program
= 4 tophat: opening over budget
"#;
