//! What expressions give, form by form and at their edges.

/// The functions that the expressions call.
pub const FUNCTIONS: &str = "\
fun id(x : int) : int = x
fun minus(x : int, y : int) : int = x - y
fun second(x : int, y : int) : int = y
fun yes() : bool = true
fun least() : int = -9223372036854775807 - 1
fun twice(t : text) : text = t ++ t
fun more(t : text) : text = t ++ t ++ \"a\"
fun almost() : text = twice({15 more(}\"\"{15 )})
fun full() : text = {16 more(}\"\"{16 )}
";

/// Each line has the units that an expression takes, its type, the expression, and the value that it gives.
pub const EXPRESSIONS: &str = r#"0 unit: () => ()
0 bool: true => true
0 bool: false => false
0 int: 12 => 12
0 text: "a b" => "a b"
0 (int, text): (1, "a") => (1, "a")
0 int: fst (1, 2) => 1
0 int: snd (1, 2) => 2
0 int: fst snd (1, (2, 3)) => 2
0 [int]: [7] => [7]
0 [bool]: [true, false] => [true, false]
0 [int]: nil int => []
0 [int]: 1 :: nil int => [1]
0 [int]: 1 :: 2 :: [3] => [1, 2, 3]
0 int: 1 + 2 => 3
0 int: 9223372036854775806 + 1 => 9223372036854775807
0 int: 9223372036854775807 + 1 => 9223372036854775807
0 int: -9223372036854775807 + -1 => -9223372036854775808
0 int: -9223372036854775807 + -2 => -9223372036854775808
0 int: 5 - 8 => -3
0 int: 9223372036854775807 - -1 => 9223372036854775807
0 int: -9223372036854775807 - 1 => -9223372036854775808
0 int: -9223372036854775807 - 2 => -9223372036854775808
1 int: 0 - least() => 9223372036854775807
0 int: -5 => -5
0 int: - -5 => 5
0 int: -0 => 0
0 int: -9223372036854775807 => -9223372036854775807
1 int: -least() => 9223372036854775807
0 int: -6 * 7 => -42
0 int: 4611686018427387904 * 2 => 9223372036854775807
0 int: 4611686018427387904 * -2 => -9223372036854775808
0 int: 4611686018427387905 * -2 => -9223372036854775808
0 int: 3037000500 * 3037000500 => 9223372036854775807
1 int: least() * -1 => 9223372036854775807
2 int: least() * least() => 9223372036854775807
0 int: 7 quot 2 => 3
0 int: -7 quot 2 => -3
0 int: 7 quot -2 => -3
0 int: -7 quot -2 => 3
0 int: 7 quot 0 => 0
0 int: 0 quot 7 => 0
1 int: least() quot -1 => 9223372036854775807
1 int: least() quot 1 => -9223372036854775808
1 int: least() quot 0 => 0
0 int: 7 rem 2 => 1
0 int: -7 rem 2 => -1
0 int: 7 rem -2 => 1
0 int: -7 rem -2 => -1
0 int: 7 rem 0 => 0
1 int: least() rem -1 => 0
1 int: least() rem 0 => 0
1 int: least() rem 10 => -8
0 text: "a" ++ "b" => "ab"
0 text: "" ++ "" => ""
0 text: "é" ++ "€" ++ "😀" => "é€😀"
0 int: len "" => 0
0 int: len ("{40001 a}" ++ "{20000 é}") => 52768
0 int: len "é€😀" => 3
17 int: len almost() => 65534
17 int: len full() => 65535
17 int: len (full() ++ "b") => 65536
17 int: len (full() ++ "bc") => 65536
17 int: len (full() ++ "é") => 65535
17 int: len (full() ++ "éb") => 65535
34 bool: full() ++ "éb" == full() => true
34 bool: full() ++ "bc" == full() ++ "b" => true
34 bool: full() ++ "b" == full() ++ "c" => false
17 int: len (almost() ++ "é") => 65535
17 int: len (almost() ++ "éb") => 65535
34 bool: almost() ++ "é" == almost() => false
34 bool: almost() ++ "éb" == almost() ++ "é" => true
17 int: len ("é" ++ full()) => 65535
34 bool: "é" ++ full() == "é" ++ almost() => true
0 int: len nil int => 0
0 int: len [5, 6] => 2
0 int: len [{1023 $, }1023] => 1024
0 int: len [{1024 $, }1024] => 1024
0 bool: [{1024 $, }1024] == [{1023 $, }1023] => true
1 bool: [{1024 $, }id(7)] == [{1023 $, }1023] => true
0 bool: [{1023 $, }1023] == [{1022 $, }1022] => false
0 int: len (5 :: [{1022 $, }1022]) => 1024
0 bool: 5 :: [{1022 $, }1022] == [5, {1022 $, }1022] => true
0 int: len (5 :: [{1023 $, }1023]) => 1024
0 bool: 5 :: [{1023 $, }1023] == [5, {1022 $, }1022] => true
0 bool: () == () => true
0 bool: true == false => false
0 bool: "a" == "a" => true
0 bool: "a" == "A" => false
0 bool: "a" == "ab" => false
0 bool: [1, 2] == [1, 2] => true
0 bool: [1, 2] == [2, 1] => false
0 bool: [1] == [1, 1] => false
0 bool: nil int == [1] => false
0 bool: (1, [(true, "x"), (false, "")]) == (1, [(true, "x"), (false, "")]) => true
0 bool: (1, [(true, "x"), (false, "")]) == (1, [(true, "x"), (true, "")]) => false
0 bool: ((1, 2), 3) == ((1, 2), 4) => false
0 bool: 1 != 1 => false
0 bool: (1, [2]) != (1, [3]) => true
0 bool: 1 < 2 => true
0 bool: 2 < 2 => false
0 bool: -1 < 1 => true
0 bool: 2 <= 2 => true
0 bool: 3 <= 2 => false
0 bool: 2 > 2 => false
0 bool: 3 > 2 => true
0 bool: 2 >= 2 => true
0 bool: 1 >= 2 => false
1 bool: least() < 9223372036854775807 => true
0 bool: not true => false
0 bool: not false => true
0 bool: false && yes() => false
1 bool: true && yes() => true
0 bool: true && false => false
2 bool: yes() && yes() => true
0 bool: true || yes() => true
1 bool: false || yes() => true
0 bool: false || false => false
1 bool: yes() || yes() => true
0 int: let x = 1 in x => 1
0 (int, int): let x = 1 in let y = 2 in (x, y) => (1, 2)
0 int: let x = 1 in let x = x + 1 in x => 2
0 int: let x = 1 in (let x = 2 in x) + x => 3
0 int: if true then 1 else id(2) => 1
0 int: if false then id(1) else 2 => 2
2 int: if yes() then id(1) else 2 => 1
0 int: case nil int of [] -> 1 | x :: y -> id(2) => 1
0 [int]: case [1, 2, 3] of [] -> id(0) :: nil int | x :: y -> x + 10 :: y => [11, 2, 3]
0 [int]: case [1] of [] -> nil int | x :: y -> y => []
0 (int, [int]): let x = 7 in case [1, 2] of [] -> (0, nil int) | x :: y -> (x, y) => (1, [2])
0 (int, [int]): let y = [7] in case [1, 2] of [] -> (0, y) | x :: y -> (x, y) => (1, [2])
0 int: let x = 7 in case nil int of [] -> x | x :: y -> 0 => 7
0 int: let x = 7 in (case [1] of [] -> 0 | x :: y -> x) + x => 8
0 int: case [[5, 2], [3]] of [] -> 0 | x :: y -> case x of [] -> 1 | x :: z -> x + len y => 6
1 int: id(5) => 5
1 int: minus(5, 3) => 2
2 int: second(1, id(2)) => 2
3 int: id(id(id(5))) => 5
1 int: let y = 9 in id(4) => 4
1 int: let y = 9 in second(y, 4) + y => 13
"#;
