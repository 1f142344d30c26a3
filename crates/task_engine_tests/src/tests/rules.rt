//! Single rules: the order of parts, trials that are undone, settling, values, types of nodes, and layers that stand.

pub(super) const RULES: &str =
    r#"task main() : (int, int) = new r = 0 in (r := !r + 1 ; edit !r) <&> (r := !r * 10 ; edit !r)
evaluate main(): 1 6 => (edit int 1 <&> edit int 10) [10]

task main() : int = new r = 0 in (r := !r + 1 ; edit !r) <|> (r := !r * 10 ; edit !r)
evaluate main(): 1 6 => (edit int 1 <|> edit int 10) [10]
stride: 0 2 => edit int 1 [10]

task main() : (int, int) = new r = 0 in (edit 1 >>= x . (r := !r + 1 ; edit !r)) <&> (edit 2 >>= y . (r := !r * 10 ; edit !r))
evaluate main(): 1 6 => ((edit int 1 >>= 0(#0)) <&> (edit int 2 >>= 1(#0))) [0]
stride: 0 5 => (edit int 1 <&> edit int 10) [10]

task main() : int = new r = 0 in (edit 1 >>= x . (r := 5 ; enter int)) <|> (edit 2 >>= y . (r := !r + 1 ; edit !r))
evaluate main(): 1 6 => ((edit int 1 >>= 0(#0)) <|> (edit int 2 >>= 1(#0))) [0]
stride: 0 5 => edit int 6 [6]

task main() : int = new r = 0 in (edit 1 >>= x . (r := 5 ; edit x)) <|> (edit 2 >>= y . (r := !r + 1 ; edit !r))
evaluate main(): 1 6 => ((edit int 1 >>= 0(#0)) <|> (edit int 2 >>= 1(#0))) [0]
stride: 0 5 => edit int 1 [5]

task main() : int = (edit 1 >>= x . new q = x in share q) <|> enter int
evaluate main(): 1 5 => ((edit int 1 >>= 0()) <|> enter int) []
stride: 0 4 => share int #0 [1]

task main() : int = enter int <|> (edit 1 >>= x . new q = x in share q)
evaluate main(): 1 5 => (enter int <|> (edit int 1 >>= 0())) []
stride: 0 4 => share int #0 [1]

task main() : int = (edit 1 >>= x . new q = x in share q) >>= y . edit (y + 1)
evaluate main(): 1 5 => ((edit int 1 >>= 0()) >>= 1()) []
stride: 0 4 => edit int 2 [1]

task main() : int = new r = 7 in edit 1 >>= x . (r := 8 ; new q = 9 in fail int)
evaluate main(): 1 5 => (edit int 1 >>= 0(#0)) [7]
stride: 0 4 => (edit int 1 >>= 0(#0)) [7]
begin
stride: 0 4 => (edit int 1 >>= 0(#0)) [7] [7]
begin
settle: 1 5 => (edit int 1 >>= 0(#0)) [7] [7] [7]
next 2: 1 => no (edit int 1 >>= 0(#0)) [7] [7] [7]
apply 2: 0 3 => fail [8 9] [7] [7]

fun two() : int = 2 task main() : int = new r = 7 in edit 1 >>= x . (r := 8 ; new q = two() in r := two() ; fail int)
begin
evaluate main(): 1 5 => (edit int 1 >>= 0(#0)) [7] []
begin
begin
stride: 2 6 => (edit int 1 >>= 0(#0)) [7] [7] [7] []
settle: 3 7 => (edit int 1 >>= 0(#0)) [7] [7] [7] []
next 2: 3 => no (edit int 1 >>= 0(#0)) [7] [7] [7] []
apply 2: 2 5 => fail [2 2] [7] [7] []

task main() : int = new r = 7 in enter int >>? x . (r := x ; (edit 1 >>= y . (r := !r + 1 ; new q = 1 in fail int)))
normalise main(): 2 5 => (enter int >>? 0(#0)) [7]
next 5: 1 => yes (enter int >>? 0(#0)) [7]
apply 5: 0 4 => (edit int 1 >>= 1(#0 5)) [5]
begin
stride: 0 4 => (edit int 1 >>= 1(#0 5)) [5] [5]

task main() : int = new r = 7 in edit 1 >>= x . (r := 8 ; (r := 9 ; fail int) <?> (new q = 3 in r := 10 ; fail int))
evaluate main(): 1 5 => (edit int 1 >>= 0(#0)) [7]
stride: 2 6 => (edit int 1 >>= 0(#0)) [7]
apply 1: 0 2 => (1(#0 1) <?> 2(#0 1)) [8]
begin
failing: 2 5 => failing (1(#0 1) <?> 2(#0 1)) [8] [8]
left: 1 => no (1(#0 1) <?> 2(#0 1)) [8] [8]
right: 1 => no (1(#0 1) <?> 2(#0 1)) [8] [8]

task main() : int = new r = 7 in edit 1 >>= x . (r := 8 ; (r := 9 ; fail int) <?> (new q = 3 in r := 10 ; edit 1))
evaluate main(): 1 5 => (edit int 1 >>= 0(#0)) [7]
stride: 2 7 => (1(#0 1) <?> 2(#0 1)) [8]
begin
failing: 2 6 => fine (1(#0 1) <?> 2(#0 1)) [8] [8]
begin
right: 1 => yes (1(#0 1) <?> 2(#0 1)) [8] [8] [8]

task main() : int = new r = 1 in edit 1 >>= x . (r := 2 ; edit 2 >>= y . (r := 3 ; new q = 4 in edit 3 >>= z . (r := 5 ; fail int)))
evaluate main(): 1 5 => (edit int 1 >>= 0(#0)) [1]
begin
stride: 0 5 => (edit int 2 >>= 1(#0 1)) [2] [1]
begin
stride: 0 6 => (edit int 3 >>= 2(#0 1 2 #1)) [3 4] [2] [1]
begin
stride: 0 3 => (edit int 3 >>= 2(#0 1 2 #1)) [3 4] [3 4] [2] [1]
settle: 1 4 => (edit int 3 >>= 2(#0 1 2 #1)) [3 4] [3 4] [2] [1]
keep
settle: 1 4 => (edit int 3 >>= 2(#0 1 2 #1)) [3 4] [2] [1]
keep
failing: 0 2 => fine (edit int 3 >>= 2(#0 1 2 #1)) [3 4] [1]
next 0: 1 => no (edit int 3 >>= 2(#0 1 2 #1)) [3 4] [1]

task main() : int = new r = 1 in edit 1 >>= x . (r := 2 ; (edit 2 >>= y . (r := 3 ; new q = 4 in fail int)) <?> fail int)
evaluate main(): 1 5 => (edit int 1 >>= 0(#0)) [1]
begin
begin
stride: 1 7 => (1(#0 1) <?> 3(#0 1)) [2] [1] [1]
begin
failing: 1 6 => fine (1(#0 1) <?> 3(#0 1)) [2] [2] [1] [1]
left: 1 => yes (1(#0 1) <?> 3(#0 1)) [2] [2] [1] [1]
settle: 1 2 => (1(#0 1) <?> 3(#0 1)) [2] [2] [1] [1]

task main() : int = new r = 1 in ((edit 1 >>= x . (r := 5 ; new q = 6 in fail int)) <|> edit 2) >>= y . (r := !r + 1 ; edit y)
evaluate main(): 1 7 => (((edit int 1 >>= 0(#0)) <|> edit int 2) >>= 1(#0)) [1]
stride: 0 6 => edit int 2 [2]

task main() : int = new r = 1 in edit 1 >>= x . (r := 2 ; edit x)
begin
begin
evaluate main(): 1 5 => (edit int 1 >>= 0(#0)) [1] [] []
stride: 0 4 => edit int 1 [2] [] []
clear
begin
begin
normalise main(): 3 6 => edit int 1 [2] [] []

task count(r : ref int) : int = edit 1 >>= x . (r := !r + 1 ; if !r < 3 then count(r) else edit 9) task main() : int = new r = 0 in count(r)
normalise main(): 8 8 => edit int 9 [3]
clear
evaluate main(): 2 6 => (edit int 1 >>= 0(#0)) [0]
begin
stride: 1 7 => (edit int 1 >>= 0(#0)) [1] [0]
settle: 4 8 => edit int 9 [3] [0]

task spin(r : ref int) : int = edit 1 >>= x . (r := 5 ; spin(r)) task main() : int = new r = 5 in spin(r)
normalise main(): 4 7 => (edit int 1 >>= 0(#0)) [5]

task spin(r : ref int) : int = edit 1 >>= x . (r := 5 ; spin(r)) task main() : int = new r = 0 in spin(r)
normalise main(): 6 7 => (edit int 1 >>= 0(#0)) [5]

task grow() : int = edit 1 >>= x . new q = x in grow() task main() : int = grow()
normalise main(): 300 1000 => over
clear
evaluate main(): 2 5 => (edit int 1 >>= 0()) []
stride: 1 6 => (edit int 1 >>= 0()) [1]
stride: 1 6 => (edit int 1 >>= 0()) [1 1]

task a() : text = edit "a" <|> (edit 1 >>= x . edit "b") task main() : (int, text) = edit 1 <&> a()
evaluate main(): 2 7 => (edit int 1 <&> (edit text "a" <|> (edit int 1 >>= 0()))) []
stride: 0 3 => (edit int 1 <&> edit text "a") []

task main() : (int, (bool, text)) = (edit 1 >>= x . edit 2) <&> ((edit true >>= y . edit false) <&> (edit "a" >>= z . edit "b"))
evaluate main(): 1 6 => ((edit int 1 >>= 0()) <&> ((edit bool true >>= 1()) <&> (edit text "a" >>= 2()))) []
stride: 0 5 => (edit int 2 <&> (edit bool false <&> edit text "b")) []

task main() : int = let x = 1 + 1 in if x > 1 then (case [x] of [] -> fail int | h :: t -> edit (h + len t)) else fail int
evaluate main(): 1 8 => edit int 2 []

task main() : int = fail int <|> fail int
normalise main(): 2 4 => (fail <|> fail) []
failing: 0 2 => failing (fail <|> fail) []

task main() : int = fail int <|> enter int
normalise main(): 2 4 => (fail <|> enter int) []
failing: 0 2 => fine (fail <|> enter int) []

task main() : int = enter int <|> (edit 1 <?> fail int)
evaluate main(): 1 3 => (enter int <|> (0() <?> 1())) []
failing: 0 2 => fine (enter int <|> (0() <?> 1())) []

task main() : int = fail int <|> (edit 1 <?> fail int)
evaluate main(): 1 3 => (fail <|> (0() <?> 1())) []
failing: 1 5 => fine (fail <|> (0() <?> 1())) []

task main() : (int, int) = fail int <&> (fail int <?> fail int)
evaluate main(): 1 3 => (fail <&> (0() <?> 1())) []
failing: 2 4 => failing (fail <&> (0() <?> 1())) []

task main() : (int, int) = fail int <&> enter int
evaluate main(): 1 3 => (fail <&> enter int) []
failing: 0 2 => fine (fail <&> enter int) []

task main() : int = fail int >>? x . edit x
evaluate main(): 1 3 => (fail >>? 0()) []
failing: 0 2 => failing (fail >>? 0()) []

task main() : int = edit 1 >>= x . (fail int >>= y . edit y)
evaluate main(): 1 4 => (edit int 1 >>= 0()) []
stride: 0 3 => (edit int 1 >>= 0()) []

task main() : int = edit 1 >>= x . (edit 2 >>= y . fail int)
evaluate main(): 1 4 => (edit int 1 >>= 0()) []
stride: 0 4 => (edit int 2 >>= 1(1)) []
next 0: 1 => no (edit int 2 >>= 1(1)) []

task loop() : int = edit 1 >>= x . loop() task main() : int = edit 3 <?> loop()
normalise main(): 2 3 => (1() <?> 2()) []
failing: 1 4 => fine (1() <?> 2()) []
left: 1 => yes (1() <?> 2()) []
right: 3 => yes (1() <?> 2()) []"#;
