//! Small programs, with what becomes of inputs at each kind of node, and with exact units.

/// Each act at each kind of node, with turns left over and with turns missing.
pub(super) const ACTS: &str = r#"10000@task main() : int = edit 7
@2@edit int 7 []
1 . next@@not offered
1 . left@@not offered
1 . right@@not offered
1 . set true@@not offered
1 .F set 8@@not offered
1 .S set 8@@not offered
1 .F next@@not offered
1 .S left@@not offered
1 . set 8@@taken 1@edit int 8 []
64 . set 7@@taken 2@edit int 7 []
64 . set 7@@taken 3@edit int 7 []

10000@task main() : int = enter int
@2@enter int []
1 . next@@not offered
1 . left@@not offered
1 . right@@not offered
1 . set "a"@@not offered
1 .F set 8@@not offered
1 .SS set 8@@not offered
1 .F right@@not offered
1 . set 8@@taken 1@edit int 8 []

10000@task main() : int = new r = 7 in share r
@2@share int #0 [7]
1 . next@@not offered
1 . left@@not offered
1 . right@@not offered
1 . set [1]@@not offered
1 .F set 8@@not offered
1 .S next@@not offered
2 . set 8@@taken 1@share int #0 [8]
1 . set 9@@taken 2@share int #0 [9]

10000@task main() : int = fail int
@2@fail []
1 . set 1@@not offered
1 . next@@not offered
1 . left@@not offered
1 . right@@not offered
1 .F set 1@@not offered
1 .S next@@not offered

10000@task main() : int = enter int >>= x . if x > 3 then edit x else fail int
@2@(enter int >>= 0()) []
1 . next@@not offered
1 . left@@not offered
1 . right@@not offered
1 . set ()@@not offered
1 .F set 1@@not offered
1 .S next@@not offered
1 . set 2@@taken 1@(edit int 2 >>= 0()) []
1 . next@@not offered
1 . set 5@@taken 2@edit int 5 []

10000@task main() : int = (enter int <&> enter int) >>= p . fail int
@2@((enter int <&> enter int) >>= 0()) []
1 . set 1@@not offered
1 .FF set 1@@not offered
1 .F next@@not offered
1 .S left@@not offered
1 .S set 1@@taken 1@((enter int <&> edit int 1) >>= 0()) []
1 .F set 2@@taken 2@((edit int 2 <&> edit int 1) >>= 0()) []

10000@task main() : int = enter int >>? x . if x > 3 then edit (x + 1) else fail int
@2@(enter int >>? 0()) []
1 . next@@not offered
1 . left@@not offered
1 . right@@not offered
1 . set true@@not offered
1 .F set 1@@not offered
1 . set 2@@taken 1@(edit int 2 >>? 0()) []
1 . next@@not offered
1 . set 4@@taken 2@(edit int 4 >>? 0()) []
1 .F next@@not offered
1 .S next@@not offered
1 . left@@not offered
1 . next@@taken 3@edit int 5 []

10000@task main() : int = (edit 1 <&> edit 2) >>? p . edit (fst p + snd p)
@2@((edit int 1 <&> edit int 2) >>? 0()) []
1 .F next@@not offered
1 .S next@@not offered
1 . set 3@@not offered
1 .FS set 3@@not offered
1 .F set 3@@taken 1@((edit int 3 <&> edit int 2) >>? 0()) []
1 . next@@taken 2@edit int 5 []

10000@task main() : int = ((edit 1 >>? x . edit (x + 1)) <&> enter int) >>? p . edit (fst p)
@2@(((edit int 1 >>? 0()) <&> enter int) >>? 1()) []
1 . next@@not offered
1 .S next@@not offered
1 .FF next@@not offered
1 .F next@@taken 1@((edit int 2 <&> enter int) >>? 1()) []
1 . next@@not offered
1 .S set 9@@taken 2@((edit int 2 <&> edit int 9) >>? 1()) []
1 .S next@@not offered
1 . next@@taken 3@edit int 2 []

10000@task main() : int = (enter int >>? x . edit x) >>? y . edit (y * 2)
@2@((enter int >>? 0()) >>? 1()) []
1 . next@@not offered
1 .F set 3@@not offered
1 . set 3@@taken 1@((edit int 3 >>? 0()) >>? 1()) []
1 . next@@taken 2@(edit int 3 >>? 1()) []
1 . next@@taken 3@edit int 6 []
1 . next@@not offered

10000@task main() : int = (edit 1 >>? x . enter int) >>= y . edit (y * 2)
@2@((edit int 1 >>? 0()) >>= 1()) []
1 .F next@@not offered
1 . next@@taken 1@(enter int >>= 1()) []
1 . next@@not offered
1 . set 4@@taken 2@edit int 8 []

10000@task main() : (int, bool) = enter int <&> enter bool
@2@(enter int <&> enter bool) []
1 . set 1@@not offered
1 . set (1, true)@@not offered
1 . next@@not offered
1 . left@@not offered
1 . right@@not offered
1 .F left@@not offered
1 .F set true@@not offered
1 .S set 1@@not offered
1 .FF set 1@@not offered
1 .SF set true@@not offered
1 .S set true@@taken 1@(enter int <&> edit bool true) []
1 .F set 1@@taken 2@(edit int 1 <&> edit bool true) []

10000@task main() : int = enter int <|> enter int
@2@(enter int <|> enter int) []
1 . set 1@@not offered
1 . next@@not offered
1 . left@@not offered
1 . right@@not offered
1 .S next@@not offered
1 .F set true@@not offered
1 .SS set 1@@not offered
1 .S set 3@@taken 1@edit int 3 []
1 .S set 4@@not offered
1 .F set 4@@not offered
1 . set 4@@taken 2@edit int 4 []

10000@task main() : int = (enter int >>? x . edit x) <|> (enter int >>? y . edit (y + 1))
@2@((enter int >>? 0()) <|> (enter int >>? 1())) []
1 .S set 4@@taken 1@((enter int >>? 0()) <|> (edit int 4 >>? 1())) []
1 . next@@not offered
1 .F next@@not offered
1 .SS next@@not offered
1 .S next@@taken 2@edit int 5 []

10000@task main() : int = edit 1 <?> edit 2
@2@(0() <?> 1()) []
1 . set 1@@not offered
1 . next@@not offered
1 .F left@@not offered
1 .S right@@not offered
1 .F set 1@@not offered
1 . right@@taken 1@edit int 2 []
1 . left@@not offered

10000@task main() : int = edit 1 <?> fail int
@2@(0() <?> 1()) []
1 . right@@not offered
1 . left@@taken 1@edit int 1 []

10000@task main() : int = ((edit 1 <?> fail int) <|> enter int) >>? x . edit (x * 10)
@2@(((0() <?> 1()) <|> enter int) >>? 2()) []
1 . left@@not offered
1 . next@@not offered
1 .S left@@not offered
1 .F right@@not offered
1 .F set 1@@not offered
1 .FF left@@not offered
1 .F next@@not offered
1 .F left@@taken 1@(edit int 1 >>? 2()) []
1 . next@@taken 2@edit int 10 []

10000@task main() : int = ((fail int <?> (edit 3 <?> edit 4)) <|> fail int) >>? x . edit (x * 10)
@2@(((0() <?> 1()) <|> fail) >>? 4()) []
1 .F left@@not offered
1 .F right@@taken 1@(((2() <?> 3()) <|> fail) >>? 4()) []
1 .FF right@@not offered
1 . right@@not offered
1 .F right@@taken 2@(edit int 4 >>? 4()) []

10000@task main() : (int, int) = new r = 0 in share r <&> (share r >>= x . if x > 3 then (r := x * 2 ; edit x) else fail int)
@2@(share int #0 <&> (share int #0 >>= 0(#0))) [0]
1 .S set 3@@taken 1@(share int #0 <&> (share int #0 >>= 0(#0))) [3]
1 .SF set 4@@not offered
1 . set 4@@not offered
2 .F set 4@@taken 2@(share int #0 <&> edit int 4) [8]

10000@task main() : int = new r = 0 in enter int >>? x . (r := x ; (if !r > 3 then edit 1 else fail int) <?> fail int)
@2@(enter int >>? 0(#0)) [0]
1 . set 3@@taken 1@(edit int 3 >>? 0(#0)) [0]
1 . next@@not offered
1 . set 5@@taken 2@(edit int 5 >>? 0(#0)) [0]
1 . next@@taken 3@(1(#0 5) <?> 2(#0 5)) [5]

10000@task main() : int = new r = 0 in enter int >>= x . (r := x ; (if !r > 3 then edit 1 else fail int) <?> fail int)
@2@(enter int >>= 0(#0)) [0]
1 . set 3@@taken 1@(edit int 3 >>= 0(#0)) [0]
1 . set 5@@taken 2@(1(#0 5) <?> 2(#0 5)) [5]

10000@task main() : (int, int) = new r = 0 in ((enter int >>= x . (r := x ; enter int)) >>? y . edit y) <&> share r
@2@(((enter int >>= 0(#0)) >>? 1(#0)) <&> share int #0) [0]
1 .F set 5@@taken 1@((enter int >>? 1(#0)) <&> share int #0) [5]

10000@task main() : (int, int) = new r = 0 in ((r := 7 ; enter int) >>= x . edit x) <&> share r
@2@((enter int >>= 0(#0)) <&> share int #0) [7]

10000@task main() : int = main() <?> main()
@2@(0() <?> 1()) []
1 . left@@over
1 . right@@over
1 . next@@not offered
1 .F left@@not offered

10000@task a() : int = edit 1 >>= x . b() task b() : int = edit 2 >>= x . a() task main() : int = a()
@@opening over"#;

/// Openings and inputs with all the units that they take.
pub(super) const UNITS: &str = r#"10000@task main() : int = new r = 7 in edit !r
@2@edit int 7 [7]

10000@fun times(r : ref int, n : int) : int = !r * n task main() : int = new r = 7 in edit times(r, 6)
@3@edit int 42 [7]

10000@task main() : int = edit 1 >>= x . edit 2 >>= y . edit 3
@4@edit int 3 []

10000@task loop() : int = edit 1 >>= x . loop() task main() : int = loop()
@4@(edit int 1 >>= 0()) []

10000@fun more(x : int) : int = x + 1 task add(x : int) : int = edit more(x) task main() : int = enter int >>? x . add(x)
@2@(enter int >>? 0()) []
1 . set 4@@taken 1@(edit int 4 >>? 0()) []
1 . next@4@taken 2@edit int 5 []

10000@task t() : int = edit 1 task no() : int = fail int task main() : int = t() <?> no()
@2@(0() <?> 1()) []
1 . right@@not offered
1 . left@3@taken 1@edit int 1 []

10000@task none() : int = fail int task no() : int = none() task main() : int = enter int >>? x . no()
@2@(enter int >>? 0()) []
1 . set 4@@taken 1@(edit int 4 >>? 0()) []
1 . next@3@not offered

10000@task t(x : int) : int = edit x task main() : int = enter int >>= x . t(x)
@2@(enter int >>= 0()) []
1 . set 5@3@taken 1@edit int 5 []

10000@task t(x : int) : int = edit x task main() : int = (enter int >>= x . t(x)) <|> enter int
@2@((enter int >>= 0()) <|> enter int) []
1 .F set 7@3@taken 1@edit int 7 []

10000@task t(x : int) : int = edit x task main() : (int, int) = (enter int >>= x . t(x)) <&> (enter int >>= y . t(y))
@2@((enter int >>= 0()) <&> (enter int >>= 1())) []
1 .F set 1@3@taken 1@(edit int 1 <&> (enter int >>= 1())) []
1 .S set 2@3@taken 2@(edit int 1 <&> edit int 2) []

10000@task t() : int = edit 1 task main() : int = (t() <?> t()) >>? x . edit (x + 1)
@2@((0() <?> 1()) >>? 2()) []
1 . left@3@taken 1@(edit int 1 >>? 2()) []

10000@fun inc(n : int) : int = n + 1 task main() : int = new r = 0 in enter int >>? x . (r := inc(inc(x)) ; share r)
@2@(enter int >>? 0(#0)) [0]
1 . set 5@@taken 1@(edit int 5 >>? 0(#0)) [0]
1 . next@4@taken 2@share int #0 [7]

10000@task no() : int = fail int task t() : int = edit 1 task main() : int = enter int >>? x . (no() <?> t())
@2@(enter int >>? 0()) []
1 . set 4@@taken 1@(edit int 4 >>? 0()) []
1 . next@6@taken 2@(1(4) <?> 2(4)) []

10000@task no() : int = fail int task main() : int = enter int >>? x . (no() <?> no())
@2@(enter int >>? 0()) []
1 . set 4@@taken 1@(edit int 4 >>? 0()) []
1 . next@5@not offered

10000@task main() : int = enter int >>= x . edit (x + 1) >>= y . edit (y * 2) >>= z . edit z
@2@(enter int >>= 0()) []
1 . set 3@4@taken 1@edit int 8 []

10000@fun add(m : text, l : [text]) : [text] = m :: l task post(log : ref [text]) : [text] = enter text >>? m . (log := add(m, !log) ; post(log)) task main() : ([text], [text]) = new log = nil text in post(log) <&> share log
@3@((enter text >>? 0(#0)) <&> share [text] #0) [[]]
1 .F set "hello"@@taken 1@((edit text "hello" >>? 0(#0)) <&> share [text] #0) [[]]
1 .F next@4@taken 2@((enter text >>? 0(#0)) <&> share [text] #0) [["hello"]]

10000@task t(x : int) : int = edit x task main() : (int, int) = new r = 0 in share r <&> (share r >>= x . if x > 3 then t(x) else fail int)
@2@(share int #0 <&> (share int #0 >>= 0(#0))) [0]
1 .F set 5@3@taken 1@(share int #0 <&> edit int 5) [5]

10000@task down(r : ref int, n : int) : int = if n < 1 then edit 0 else (r := n ; edit n >>= m . down(r, m - 1)) task main() : (int, int) = new r = 9 in (enter int >>? n . down(r, n)) <&> share r
@2@((enter int >>? 1(#0)) <&> share int #0) [9]
1 .F set 3@@taken 1@((edit int 3 >>? 1(#0)) <&> share int #0) [9]
1 .F next@9@taken 2@(edit int 0 <&> share int #0) [1]

3@task main() : int = enter int >>? x . (main() <?> main())
@2@(enter int >>? 0()) []
1 . set 1@@taken 1@(edit int 1 >>? 0()) []
1 . next@@over
1 . set 2@@taken 2@(edit int 2 >>? 0()) []"#;

/// Trees and paths as deep as the greatest height allows, and one deeper.
pub(super) const DEEP: &str =
    r#"10000@task b() : int = edit 1 >>? x . (enter int{148  <|> enter int}) task t1() : int = b(){170  <|> enter int} task t2() : int = t1(){170  <|> enter int} task t3() : int = t2(){170  <|> enter int} task t4() : int = t3(){170  <|> enter int} task main() : int = t4(){170  <|> enter int}
@@{850 (}(edit int 1 >>? 0()){850  <|> enter int)} []
1 .{849 F} next@@not offered
1 .{850 F}S next@@not offered
1 .{850 F} next@@taken 1@{998 (}enter int{998  <|> enter int)} []
1 .{997 F} set 5@@not offered
1 .{999 F} set 5@@not offered
1 .{998 F} next@@not offered
1 .{998 F} set true@@not offered
1 .{998 F} set 5@@taken 2@edit int 5 []

10000@task b() : int = edit 1 >>? x . (enter int{148  <|> enter int}) task t1() : int = b(){170  <|> enter int} task t2() : int = t1(){170  <|> enter int} task t3() : int = t2(){170  <|> enter int} task t4() : int = t3(){170  <|> enter int} task main() : int = t4(){170  <|> enter int}
@@{850 (}(edit int 1 >>? 0()){850  <|> enter int)} []
1 .{850 F} next@@taken 1@{998 (}enter int{998  <|> enter int)} []
1 .{997 F}S set 6@@taken 2@edit int 6 []

10000@task b() : int = edit 1 >>? x . (enter int{149  <|> enter int}) task t1() : int = b(){170  <|> enter int} task t2() : int = t1(){170  <|> enter int} task t3() : int = t2(){170  <|> enter int} task t4() : int = t3(){170  <|> enter int} task main() : int = t4(){170  <|> enter int}
@@{850 (}(edit int 1 >>? 0()){850  <|> enter int)} []
1 .{850 F} next@@over"#;
