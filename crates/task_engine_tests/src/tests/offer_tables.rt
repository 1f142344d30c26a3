//! Programs with budgets, and the offers of their openings.

pub(super) const OFFERS: &str = r#"task main() : int = main() <?> main()
10000@. left?, . right?
1@. left?, . right?

task main() : (int, (bool, text)) = new r = "a" in edit 1 <&> (enter bool <&> share r)
10000@.F set int, .SF set bool, .SS set text
1@.F set int, .SF set bool, .SS set text

task main() : unit = edit ()
10000@. set unit

task main() : ([int], (int, text)) = (enter [int] <|> enter [int]) <&> enter (int, text)
10000@.FF set [int], .FS set [int], .S set (int, text)

task main() : int = fail int
10000@

task main() : int = edit 2 >>? x . if x > 3 then edit x else fail int
10000@. set int

task main() : int = edit 5 >>? x . if x > 3 then edit x else fail int
10000@. next, . set int

task main() : int = enter int >>? x . edit x
10000@. set int

task main() : int = (enter int >>? x . edit x) >>= y . edit y
10000@. set int

task main() : int = (edit 1 >>? x . edit x) >>? y . edit y
10000@. next, . set int

task main() : int = (edit 1 <&> edit 2) >>? p . edit (fst p)
10000@. next, .F set int, .S set int

task main() : int = ((edit 1 >>? x . edit x) <&> (edit 2 <?> edit 3)) >>? p . edit (fst p)
10000@.F next, .F set int, .S left, .S right

task main() : int = ((edit 1 <?> fail int) <|> enter int) >>? x . edit x
10000@.F left, .S set int

task main() : int = ((fail int <?> edit 1) <|> (edit 2 >>? x . fail int)) >>? x . edit x
10000@.F right, .S set int

task main() : (int, int) = ((edit 1 >>? x . fail int) <&> (edit 2 >>? x . edit x)) >>? p . edit p
10000@.F set int, .S next, .S set int

task main() : (int, (int, int)) = (enter int <|> enter int) <&> ((edit 1 <?> edit 2) <&> (enter int >>= x . fail int))
10000@.FF set int, .FS set int, .SF left, .SF right, .SS set int

task main() : int = fail int <?> fail int
10000@

task t() : int = edit 1 task main() : int = edit 4 >>? x . (t() <?> t())
3@. next, . set int
2@. next?, . set int

task no() : int = fail int task main() : int = edit 4 >>? x . (no() <?> no())
5@. set int
4@. next?, . set int

task t() : int = edit 1 task no() : int = fail int task main() : int = t() <?> no()
2@. left
1@. left?, . right?

task t() : int = edit 1 task u() : int = t() task main() : int = t() <?> u()
3@. left, . right
2@. left, . right?
1@. left?, . right?

task a() : int = edit 1 >>= x . b() task b() : int = edit 2 >>= x . a() task main() : int = edit 0 >>? x . a()
10000@. next?, . set int

task main() : (int, int) = new r = 7 in (edit 0 >>? x . (r := x ; if !r > 0 then edit x else fail int)) <&> (edit 1 >>? x . (r := !r + 1 ; if !r > 7 then edit x else fail int))
10000@.F set int, .S next, .S set int"#;
