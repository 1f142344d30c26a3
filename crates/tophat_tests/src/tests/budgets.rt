//! Units, heights and signs.

/// Programs within the budgets that the words name, in blocks as `Block` (block.rt) has them.
pub(super) const BUDGETS: &str = r#"$ run p.th --budget 2
task main() : int = enter int >>? x . edit (x + 1)
= 0

$ run p.th --budget 1
same program
= 4 tophat: opening over budget

$ run p.th --budget 4
task main() : int = edit 1 >>= x . edit 2 >>= y . edit 3
= 0
> 1 show
version 0 seat 1
. edit int 3

$ run p.th --budget 3
same program
= 4 tophat: opening over budget

$ run p.th --budget 5
task main() : bool = edit 1 >>= x . t("a") task t(s : text) : bool = edit s >>= y . edit true
= 0
> 1 show
version 0 seat 1
. edit bool true

$ run p.th --budget 4
same program
= 4 tophat: opening over budget

$ run p.th --budget 2
task main() : int = enter int >>= x . if x > 0 then edit x else fail int
= 0
> 1 . set 0
taken 1
> 1 . set 1
taken 2
> 1 show
version 2 seat 1
. edit int 1

$ run p.th --budget 3
fun more(x : int) : int = x + 1 task add(x : int) : int = edit more(x) task main() : int = enter int >>? x . add(x)
= 0
> 1 . set 4
taken 1
> 1 . next
over budget
> 1 show
version 1 seat 1
. step next
. edit int 4

$ run p.th --budget 4
same program
= 0
> 1 . set 4
taken 1
> 1 . next
taken 2
> 1 show
version 2 seat 1
. edit int 5

$ run p.th --budget 2
task t() : int = edit 1 task no() : int = fail int task main() : int = t() <?> no()
= 0
> 1 show
version 0 seat 1
. pick left
> 1 . left
over budget
> 1 . right
not offered

$ run p.th --budget 3
same program
= 0
> 1 . left
taken 1

$ run p.th --budget 2
task t() : int = edit 1 task no() : int = fail int task main() : int = no() <?> t()
= 0
> 1 show
version 0 seat 1
. pick right

$ run p.th --budget 2
task t() : int = edit 1 task main() : int = enter int >>? x . t()
= 0
> 1 show
version 0 seat 1
. step
. enter int
> 1 . set 4
taken 1
> 1 show
version 1 seat 1
. step next
. edit int 4

$ run p.th --budget 2
task no() : int = fail int task main() : int = enter int >>? x . no()
= 0
> 1 . set 4
taken 1
> 1 show
version 1 seat 1
. step
. edit int 4
> 1 . next
not offered

$ run p.th --budget 3
task t() : int = edit 1 task main() : int = enter int >>? x . (t() <?> t())
= 0
> 1 . set 4
taken 1
> 1 show
version 1 seat 1
. step next
. edit int 4

$ run p.th --budget 2
same program
= 0
> 1 . set 4
taken 1
> 1 show
version 1 seat 1
. step next?
. edit int 4

$ run p.th --budget 5
task no() : int = fail int task main() : int = enter int >>? x . (no() <?> no())
= 0
> 1 . set 4
taken 1
> 1 show
version 1 seat 1
. step
. edit int 4

$ run p.th --budget 4
same program
= 0
> 1 . set 4
taken 1
> 1 show
version 1 seat 1
. step next?
. edit int 4

task main() : (int, bool) = (edit 1 >>? x . edit x) <&> ((edit true <?> fail bool) <|> enter bool)
= 0
> 1 show
version 0 seat 1
. and
.F step next
.F edit int 1
.S or
.SF pick left
.SS enter bool

$ run p.th --budget 2
task t() : int = edit 2 task main() : (int, int) = (edit 1 >>? x . t()) <&> (t() <?> fail int)
= 0
> 1 show
version 0 seat 1
. and
.F step next
.F edit int 1
.S pick left

task main() : text = (enter text >>? x . edit x) >>= y . (new r = [1] in share r) >>? z . edit y
= 0
> 1 . set "a"
taken 1
> 1 show
version 1 seat 1
. then
. step next
. edit text "a"
> 1 . next
taken 2
> 1 show
version 2 seat 1
. step next
. share [int] [1]

task main() : int = fail int
= 0
> 1 . next
not offered
> 1 . set 1
not offered
> 1 show
version 0 seat 1
. fail
"#;

/// The same, of heights of 1,000 and of one more.
pub(super) const HEIGHTS: &str = r#"$ run p.th --budget 998
task t0() : int = edit 1 {995 task t@() : int = t$() } task main() : int = t995()
= 0
> 1 show
version 0 seat 1
. edit int 1

$ run p.th --budget 997
same program
= 4 tophat: opening over budget

$ run p.th --budget 1000000
task t0() : int = edit 1 {996 task t@() : int = t$() } task main() : int = t996()
= 4 tophat: opening over budget

$ run p.th --budget 127
fun f0() : int = 1 {124 fun f@() : int = let a = 1 in if true then case nil int of [] -> 0 + -fst (f$(), 0) | x :: y -> 0 else 0 } task main() : int = edit (let a = 1 in let a = 2 in let a = 3 in f124())
= 0
> 1 show
version 0 seat 1
. edit int 1

$ run p.th --budget 126
same program
= 4 tophat: opening over budget

$ run p.th --budget 1000000
fun f0() : int = 1 {124 fun f@() : int = let a = 1 in if true then case nil int of [] -> 0 + -fst (f$(), 0) | x :: y -> 0 else 0 } task main() : int = edit (let a = 1 in let a = 2 in let a = 3 in let a = 4 in f124())
= 4 tophat: opening over budget
"#;
