//! Programs that are refused, and lines that are bad.

/// Programs with the first fault of their text or of their types, in blocks as `Block` (block.rt) has them.
pub(super) const REFUSALS: &str = r#"task start() : int = edit 1
= 1 tophat: p.th: byte 27: NoMain

fun main() : int = 1
= 1 tophat: p.th: byte 20: NoMain

# a comment
= 1 tophat: p.th: byte 11: NoMain

task main() : int = (edit -5)
= 1 tophat: p.th: byte 26: Unexpected token 9

task main() : int = edit 1 +
= 1 tophat: p.th: byte 27: Unexpected token 9

task main() : int = edit
= 1 tophat: p.th: byte 24: Unexpected token 8

task main() : int = edit 9223372036854775808
= 1 tophat: p.th: byte 25: WideNumber

task main() : int = edit "\q"
= 1 tophat: p.th: byte 26: BadEscape

task main() : text = edit "a
= 1 tophat: p.th: byte 26: OpenText

task main() : text = edit "{65537 a}"
= 1 tophat: p.th: byte 26: LongText

task _main() : int = edit 1
= 1 tophat: p.th: byte 5: BadChar

task main() : (int, int) = edit 1
= 1 tophat: p.th: byte 27: Mismatch want (int, int) got int

task main() : (int, int) = edit 1 <&> edit "a"
= 1 tophat: p.th: byte 27: Mismatch want (int, int) got (int, text)

task main(x : int) : int = edit x
= 1 tophat: p.th: byte 0: Arity want 0 got 1

fun f() : int = f()
task main() : int = enter int
= 1 tophat: p.th: byte 16: LaterCall

task main() : int = t()
task t() : int = enter int
= 1 tophat: p.th: byte 20: Unguarded

task main() : int = share r
= 1 tophat: p.th: byte 20: UnknownName

task main() : int = enter int
task main() : int = enter int
= 1 tophat: p.th: byte 30: Duplicate

task main() : int = edit (fst 1)
= 1 tophat: p.th: byte 30: NotPair

task main() : int = edit (len 1)
= 1 tophat: p.th: byte 30: NotList

task main() : int = new r = 1 in edit r
= 1 tophat: p.th: byte 38: RefInValue

task main() : int = let r = 1 in share r
= 1 tophat: p.th: byte 33: NotRef

fun f({200 p@ : int, }q : int) : int = 1
task main() : int = edit 1
= 1 tophat: p.th: byte 2298: TooManyNames

fun f(x : {64 [}int{64 ]}) : int = 1
task main() : int = edit 1
= 1 tophat: p.th: byte 6: BigType
"#;

/// Lines outside the grammar, a row a line: the column, and the line.
pub(super) const BAD_LINES: &str = "1 x
1  # a
1 01 show
1 0 show
2 65 show
2 1
3 1  show
7 1 showx
3 1 F next
4 1 .
5 1 .FX set 1
6 1 .F  set 1
6 1 . lift
9 1 . nextx
8 1 . set
10 1 . set - 5
10 1 . set 4x
11 1 . set 4 x
12 1 . set [1,]
12 1 . set tru
11 1 . set \"a
28 1 .F set 9223372036854775808";
