//! What programs do: steps, choices, stores and branches.

/// Programs with transcripts, in blocks as `Block` (block.rt) has them.
pub(super) const PROGRAMS: &str =
    r#"task main() : int = (edit 1 <&> edit 2) >>? p . edit (fst p + snd p)
= 0
> 1 show
version 0 seat 1
. step next
. and
.F edit int 1
.S edit int 2
> 1 .F next
not offered
> 1 . next
taken 1
> 1 show
version 1 seat 1
. edit int 3

task main() : int = let x = 1 in (enter int >>? y . let z = x in edit (y - z))
= 0
> 1 . set 5
taken 1
> 1 . next
taken 2
> 1 show
version 2 seat 1
. edit int 4

task main() : int = fail int <?> edit 1
= 0
> 1 show
version 0 seat 1
. pick right
> 1 . left
not offered
> 1 . next
not offered
> 1 . right
taken 1
> 1 show
version 1 seat 1
. edit int 1

task main() : int = edit 1 <|> edit 2
= 0
> 1 show
version 0 seat 1
. edit int 1

task main() : int = (enter int <|> edit 2) >>? x . edit (x + 1)
= 0
> 1 show
version 0 seat 1
. step next
. edit int 2
> 1 . next
taken 1
> 1 show
version 1 seat 1
. edit int 3

task main() : (int, int) = new r = 7 in (enter int >>? x . (r := x ; if x > 0 then edit x else fail int)) <&> share r
= 0
> 1 .F set 0
taken 1
> 1 .F next
not offered
> 1 show
version 1 seat 1
. and
.F step
.F edit int 0
.S share int 7
> 1 .F set 3
taken 2
> 1 .F next
taken 3
> 1 show
version 3 seat 1
. and
.F edit int 3
.S share int 3

task main() : (int, int) = new r = 7 in (edit 0 >>= x . (r := x ; if x > 0 then edit x else fail int)) <&> share r
= 0
> 1 show
version 0 seat 1
. and
.F then
.F edit int 0
.S share int 7
> 1 .F set 3
taken 1
> 1 show
version 1 seat 1
. and
.F edit int 3
.S share int 3

task main() : (int, int) = (new a = 1 in share a) <&> (new b = 2 in share b)
= 0
> 1 show
version 0 seat 1
. and
.F share int 1
.S share int 2

task main() : (int, int) = (edit 0 >>= x . new a = 1 in share a) <&> (edit 0 >>= x . new b = 2 in share b)
= 0
> 1 show
version 0 seat 1
. and
.F share int 1
.S share int 2

task main() : int = (new a = 1 in share a >>? x . edit x) <|> (new b = 2 in share b >>? x . edit x)
= 0
> 1 show
version 0 seat 1
. or
.F step next
.F share int 1
.S step next
.S share int 2

task main() : int = (edit 0 >>= x . new a = 1 in share a >>? y . edit y) <|> (edit 0 >>= x . new b = 2 in share b >>? y . edit y)
= 0
> 1 show
version 0 seat 1
. or
.F step next
.F share int 1
.S step next
.S share int 2

task main() : (int, int) = new r = 1 in new s = 2 in (r := !s + 1 ; share r <&> share s)
= 0
> 1 show
version 0 seat 1
. and
.F share int 3
.S share int 2

task both(x : ref int, y : ref int, z : int) : (int, int) = y := z + 9 ; share x <&> share y task main() : (int, int) = new x = 1 in new y = 2 in both(y, x, !y - !x)
= 0
> 1 show
version 0 seat 1
. and
.F share int 2
.S share int 10

task main() : int = new r = 0 in (enter int >>? x . ((r := 1 ; fail int) <?> (if !r == 0 then edit 5 else fail int)))
= 0
> 1 . set 2
taken 1
> 1 . next
taken 2
> 1 show
version 2 seat 1
. pick right
> 1 . right
taken 3
> 1 show
version 3 seat 1
. edit int 5

task post(log : ref [text]) : int = enter text >>? m . (log := m :: !log ; post(log)) task main() : (int, [text]) = new log = nil text in post(log) <&> share log
= 0
> 1 .F set "hello"
taken 1
> 1 .F next
taken 2
> 1 .F set "hi"
taken 3
> 1 .F next
taken 4
> 1 show
version 4 seat 1
. and
.F step
.F enter text
.S share [text] ["hi", "hello"]

task main() : int = enter int
= 0
> 1 . set "a"
not offered
> 1 . set true
not offered
> 1 . set ()
not offered
> 1 . set [1]
not offered
> 1 . set (1, 1)
not offered
> 1 .F set 1
not offered
> 1 show
version 0 seat 1
. enter int
> 1 . set -9223372036854775808
taken 1
> 1 show
version 1 seat 1
. edit int -9223372036854775808

task main() : [(int, text)] = enter [(int, text)]
= 0
> 1 . set [(1, "a"), (2, 3)]
not offered
> 1 . set [1]
not offered
> 1 . set []
taken 1
> 1 . set [(1, "a"), (2, "")]
taken 2
> 1 . set (1, "a")
not offered
> 1 show
version 2 seat 1
. edit [(int, text)] [(1, "a"), (2, "")]

task main() : (bool, int) = edit true <&> (new r = 1 in share r)
= 0
> 1 .F set 1
not offered
> 1 .S set true
not offered
> 1 .S set 2
taken 1
> 1 .F set false
taken 2
> 1 show
version 2 seat 1
. and
.F edit bool false
.S share int 2

task main() : (int, int) = enter int >>? x . (fail int <&> fail int)
= 0
> 1 . set 4
taken 1
> 1 show
version 1 seat 1
. step
. edit int 4
> 1 . next
not offered

task main() : int = enter int >>? x . (fail int <|> fail int)
= 0
> 1 . set 4
taken 1
> 1 show
version 1 seat 1
. step
. edit int 4
> 1 . next
not offered

task main() : int = enter int >>? x . (fail int >>= y . edit y)
= 0
> 1 . set 4
taken 1
> 1 show
version 1 seat 1
. step
. edit int 4
> 1 . next
not offered

task main() : int = enter int >>? x . (fail int >>? y . edit y)
= 0
> 1 . set 4
taken 1
> 1 show
version 1 seat 1
. step
. edit int 4
> 1 . next
not offered

task main() : int = enter int >>? x . (fail int <?> fail int)
= 0
> 1 . set 4
taken 1
> 1 show
version 1 seat 1
. step
. edit int 4
> 1 . next
not offered

task main() : (int, int) = enter int >>? x . (fail int <&> edit x)
= 0
> 1 . set 4
taken 1
> 1 . next
taken 2
> 1 show
version 2 seat 1
. and
.F fail
.S edit int 4

task main() : int = enter int >>? x . (enter int <|> fail int)
= 0
> 1 . set 4
taken 1
> 1 . next
taken 2
> 1 show
version 2 seat 1
. or
.F enter int
.S fail

task main() : int = enter int >>= x . (fail int <?> fail int)
= 0
> 1 . set 4
taken 1
> 1 show
version 1 seat 1
. then
. edit int 4

task t() : bool = edit false task main() : ((text, (int, bool)), bool) = ((edit 1 >>= x . edit "a") <&> (edit 2 <&> edit true)) <&> t()
= 0
> 1 show
version 0 seat 1
. and
.F and
.FF edit text "a"
.FS and
.FSF edit int 2
.FSS edit bool true
.S edit bool false

task main() : (text, bool) = edit 1 >>? x . (edit "a" <&> edit true)
= 0
> 1 . set 3
taken 1
> 1 . next
taken 2
> 1 show
version 2 seat 1
. and
.F edit text "a"
.S edit bool true

task main() : bool = enter bool >>? b . if b then edit 1 >>? x . edit true else edit "a" >>? y . edit false
= 0
> 1 . set true
taken 1
> 1 . next
taken 2
> 1 show
version 2 seat 1
. step next
. edit int 1
> 1 . next
taken 3
> 1 show
version 3 seat 1
. edit bool true

same program
= 0
> 1 . set false
taken 1
> 1 . next
taken 2
> 1 show
version 2 seat 1
. step next
. edit text "a"
> 1 . next
taken 3
> 1 show
version 3 seat 1
. edit bool false

task main() : bool = enter [text] >>? l . case l of [] -> edit 1 >>? x . edit true | h :: t -> edit h >>? y . edit (len t == 2)
= 0
> 1 . set []
taken 1
> 1 . next
taken 2
> 1 show
version 2 seat 1
. step next
. edit int 1
> 1 . next
taken 3
> 1 show
version 3 seat 1
. edit bool true

same program
= 0
> 1 . set ["a", "b"]
taken 1
> 1 . next
taken 2
> 1 show
version 2 seat 1
. step next
. edit text "a"
> 1 . next
taken 3
> 1 show
version 3 seat 1
. edit bool false

task main() : bool = (edit 1 >>? x . edit true) <?> (edit "a" >>? y . edit false)
= 0
> 1 show
version 0 seat 1
. pick left right
> 1 . right
taken 1
> 1 show
version 1 seat 1
. step next
. edit text "a"
> 1 . next
taken 2
> 1 show
version 2 seat 1
. edit bool false

same program
= 0
> 1 . left
taken 1
> 1 show
version 1 seat 1
. step next
. edit int 1
> 1 . next
taken 2
> 1 show
version 2 seat 1
. edit bool true

task main() : text = (edit 1 >>? x . edit "a") <|> (edit true >>? y . edit "b")
= 0
> 1 show
version 0 seat 1
. or
.F step next
.F edit int 1
.S step next
.S edit bool true
> 1 .S next
taken 1
> 1 show
version 1 seat 1
. edit text "b"

task main() : bool = edit 1 >>= x . edit "a" >>= y . edit true
= 0
> 1 show
version 0 seat 1
. edit bool true

task main() : (int, int) = let x = 1 in (let x = 2 in edit x) <&> edit x
= 0
> 1 show
version 0 seat 1
. and
.F edit int 2
.S edit int 1

fun minus(a : ref int, b : ref int) : int = !a - !b task main() : int = new a = 1 in new b = 3 in edit minus(b, a)
= 0
> 1 show
version 0 seat 1
. edit int 2

task main() : (int, int) = fail int <&> (fail int >>= x . edit x)
= 0
> 1 show
version 0 seat 1
. and
.F fail
.S then
.S fail

task main() : int = edit 5
= 0
> 1 . set 5
taken 1
> 1 show
version 1 seat 1
. edit int 5

task main() : (bool, int) = (enter bool >>= x . if x then edit true else fail bool) <&> (fail int <|> enter int)
= 0
> 1 .F set false
taken 1
> 1 show
version 1 seat 1
. and
.F then
.F edit bool false
.S or
.SF fail
.SS enter int
"#;
