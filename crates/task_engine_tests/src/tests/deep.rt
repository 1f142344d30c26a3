//! Derivations as high as they may be, and one lower and one higher: by calls, by every form of a task, by strides, by failing, by what is
//! normalised in tests, and by trials within trials.

pub(super) const DEEP: &str =
    r#"task f0() : int = edit 1 {995 task f@() : int = f$() }task main() : int = f995()
evaluate main(): 997 999 => edit int 1 []

task f0() : int = edit 1 {996 task f@() : int = f$() }task main() : int = f996()
evaluate main(): 998 1000 => edit int 1 []

task f0() : int = edit 1 {997 task f@() : int = f$() }task main() : int = f997()
evaluate main(): 5000 1000 => over

task f0() : int = fail int {166 task f@() : int = new q = 1 in q := 2 ; let x = !q in case [x] of [] -> fail int | h :: t -> if h > 1 then f$() else fail int }task main() : int = f166()
evaluate main(): 168 999 => fail [{165 2 }2]
clear
normalise main(): 169 1000 => fail [{165 2 }2]

task f0() : int = edit 1 {166 task f@() : int = new q = 1 in q := 2 ; let x = !q in case [x] of [] -> fail int | h :: t -> if h > 1 then f$() else fail int }task main() : int = f166()
evaluate main(): 168 1000 => edit int 1 [{165 2 }2]
clear
normalise main(): 5000 1000 => over

task f0() : int = let a = 1 in let b = 2 in let c = 3 in edit c {165 task f@() : int = new q = 1 in q := 2 ; let x = !q in case [x] of [] -> fail int | h :: t -> if h > 1 then f$() else fail int }task f(n : int) : int = if n < 1 then f165() else if n < 2 then f165() else if n < 3 then f165() else if n < 4 then f165() else f165() task main() : int = enter int >>? n . f(n)
normalise main(): 2 4 => (enter int >>? 0()) []
next 0: 168 => yes (enter int >>? 0()) []
next 1: 168 => yes (enter int >>? 0()) []
next 2: 5000 => over
apply 0: 167 998 => edit int 3 [{164 2 }2]
clear
normalise main()
apply 1: 167 999 => edit int 3 [{164 2 }2]
clear
normalise main()
apply 2: 167 1000 => edit int 3 [{164 2 }2]
clear
normalise main()
apply 3: 5000 1000 => over

task f0() : int = edit 1 {332 task f@() : int = (f$() >>? x . edit x) <|> enter int }task main() : int = f332()
evaluate main(): 334 1000 => {332 ((}edit int 1{332  >>? $()) <|> enter int)} []

task t(n : int) : int = if n < 1 then edit 1 else (t(n - 1) <?> fail int) task main() : int = enter int >>= n . t(n)
normalise main(): 2 4 => (enter int >>= 2()) []
apply 994: 1 4 => (0(994) <?> 1(994)) []
failing: 1988 999 => fine (0(994) <?> 1(994)) []
clear
normalise main()
apply 995: 1 4 => (0(995) <?> 1(995)) []
failing: 1990 1000 => fine (0(995) <?> 1(995)) []
left: 1990 => yes (0(995) <?> 1(995)) []
clear
normalise main()
apply 996: 1 4 => (0(996) <?> 1(996)) []
failing: 5000 1000 => over
left: 1992 => yes (0(996) <?> 1(996)) []
clear
normalise main()
apply 997: 1 4 => (0(997) <?> 1(997)) []
left: 5000 => over

task t(r : ref int, n : int) : int = if n < 1 then edit 1 else ((r := !r + 1 ; t(r, n - 1)) <?> fail int) task main() : int = new r = 7 in enter int >>= n . t(r, n)
normalise main(): 2 5 => (enter int >>= 2(#0)) [7]
begin
apply 994: 1 4 => (0(#0 994) <?> 1(#0 994)) [7] [7]
begin
failing: 1988 1000 => fine (0(#0 994) <?> 1(#0 994)) [7] [7] [7]

task t(r : ref int, n : int) : int = if n < 1 then edit 1 else (edit n >>= x . (r := !r + 1 ; new q = x in (t(r, x - 1) <?> fail int) <|> edit 1)) task main() : int = new r = 7 in enter int >>= n . t(r, n)
normalise main(): 2 5 => (enter int >>= 3(#0)) [7]
begin
apply 249: 1 5 => (edit int 249 >>= 0(#0 249)) [7] [7]
begin
stride: 994 1000 => ((1(#0 249 249 #1) <?> 2(#0 249 249 #1)) <|> edit int 1) [8 249] [7] [7]
stride: 0 2 => edit int 1 [8 249] [7] [7]

task a() : int = enter int{144  <|> enter int} task t0(n : int) : int = edit n >>= x . if x < 1 then a() else if x < 2 then a() else if x < 3 then a() else if x < 4 then a() else a() task t1(n : int) : int = t0(n){170  <|> enter int} task t2(n : int) : int = t1(n){170  <|> enter int} task t3(n : int) : int = t2(n){170  <|> enter int} task t4(n : int) : int = t3(n){170  <|> enter int} task t5(n : int) : int = t4(n){170  <|> enter int} task main() : int = enter int >>= n . t5(n)
normalise main(): 2 4 => (enter int >>= 1()) []
apply 0: 6 859 => {850 (}(edit int 0 >>= 0(0)){850  <|> enter int)} []
stride: 1 998 => {994 (}enter int{994  <|> enter int)} []
clear
normalise main()
apply 0
settle: 3 999 => {994 (}enter int{994  <|> enter int)} []
clear
normalise main()
apply 1
stride: 1 999 => {994 (}enter int{994  <|> enter int)} []
clear
normalise main()
apply 1
settle: 3 1000 => {994 (}enter int{994  <|> enter int)} []
clear
normalise main()
apply 2
stride: 1 1000 => {994 (}enter int{994  <|> enter int)} []
clear
normalise main()
apply 2
settle: 5000 1000 => over
clear
normalise main()
apply 3
stride: 5000 1000 => over

task a() : int = enter int{147  <|> enter int} task t0() : int = edit 1 >>= x . a() task t1() : int = t0(){170  <|> enter int} task t2() : int = t1(){170  <|> enter int} task t3() : int = t2(){170  <|> enter int} task t4() : int = t3(){170  <|> enter int} task t5() : int = t4(){170  <|> enter int} task main() : int = t5()
evaluate main(): 7 860 => {850 (}(edit int 1 >>= 0()){850  <|> enter int)} []
stride: 1 1000 => {997 (}enter int{997  <|> enter int)} []
settle: 1 999 => {997 (}enter int{997  <|> enter int)} []"#;
