//! Each form of expressions: as it should be, and each way to have it wrong.

/// Each form, and each way to have one of its parts wrong.
pub(crate) const FORMS: &str = r#"ok; unit; ()
ok; bool; true
ok; int; 1
ok; text; "a"
ok; [int]; nil int
Mismatch want int got bool; int; @true
Mismatch want [int] got [bool]; [int]; @nil bool
ok; int; n
Mismatch want int got bool; int; @b
UnknownName; int; @x
RefInValue; int; @r
UnknownName; int; @f
UnknownName; int; @y
ok; int; !r
ok; text; !s
Mismatch want int got text; int; @!s
UnknownName; int; @!x
NotRef; int; @!n
ok; (int, bool); (1, true)
Mismatch want (int, int) got (int, bool); (int, int); @(1, true)
UnknownName; (int, int); (@x, 1)
UnknownName; (int, int); (1, @x)
ok; bool; g(1, r)
Mismatch want int got bool; int; @g(1, r)
UnknownName; bool; @h(1, r)
UnknownName; bool; @k(1, r)
UnknownName; bool; @n(1, r)
Arity want 2 got 0; bool; @g()
Arity want 2 got 1; bool; @g(1)
Arity want 2 got 3; bool; @g(1, r, r)
Mismatch want int got bool; bool; g(@true, r)
RefInValue; bool; g(@r, r)
UnknownName; bool; g(@x, r)
Mismatch want int got bool; bool; g(1 + @true, r)
NotRef; bool; g(1, @n)
NotRef; bool; g(1, @b)
UnknownName; bool; g(1, @x)
Mismatch want int got text; bool; g(1, @s)
NotRef; bool; g(1, @1)
NotRef; bool; g(1, @!r)
ok; bool; g(1, (r))
Mismatch want int got bool; bool; g(1, 1 + @true)
LaterCall; bool; @f(n, b, t, l, p, r, s)
LaterCall; int; @y()
ok; [int]; [1, 2, n]
ok; [[int]]; [l, [1], nil int]
Mismatch want int got bool; [int]; [1, @true, x]
UnknownName; [int]; [@x, true]
Mismatch want [bool] got [int]; [bool]; @[1, 2]
RefInValue; [int]; [1, @r]
ok; int; -n
Mismatch want int got bool; int; -@b
RefInValue; int; -@r
Mismatch want bool got int; bool; @-n
ok; bool; not b
Mismatch want bool got int; bool; not @n
Mismatch want int got bool; int; @not b
ok; int; fst p
ok; bool; snd p
Mismatch want bool got int; bool; @fst p
Mismatch want int got bool; int; @snd p
NotPair; int; fst @n
NotPair; int; snd @l
UnknownName; int; fst @p2
ok; int; len l
ok; int; len t
Mismatch want text got int; text; @len t
NotList; int; len @n
NotList; int; len @p
UnknownName; int; len @x
ok; int; n + 1
ok; int; n - 1
ok; int; n * 1
ok; int; n quot 1
ok; int; n rem 1
Mismatch want int got bool; int; @b + x
Mismatch want int got bool; int; 1 + @b
Mismatch want int got text; int; @t - x
Mismatch want int got text; int; 1 - @t
Mismatch want int got [int]; int; @l * x
Mismatch want int got [int]; int; 1 * @l
Mismatch want int got bool; int; @b quot x
Mismatch want int got bool; int; 1 quot @b
Mismatch want int got bool; int; @b rem x
Mismatch want int got bool; int; 1 rem @b
RefInValue; int; @r + 1
UnknownName; int; @x + true
Mismatch want bool got int; bool; @n + 1
Mismatch want int got bool; int; @b + 1 + x
Mismatch want int got bool; int; 1 + 2 + @b
ok; text; t ++ "a"
Mismatch want text got int; text; @n ++ x
Mismatch want text got int; text; t ++ @n
Mismatch want int got text; int; @t ++ t
ok; [int]; n :: l
ok; [int]; 1 :: 2 :: nil int
NotList; [int]; n :: @n
NotList; [int]; n :: @t
Mismatch want [bool] got [int]; [bool]; b :: @l
UnknownName; [int]; @x :: 1
Mismatch want [bool] got [int]; [bool]; @n :: l
ok; bool; n == 1
ok; bool; p == (1, b)
ok; bool; l != [1]
Mismatch want int got bool; bool; n == @b
Mismatch want int got text; bool; n != @t
RefInValue; bool; n == @r
Mismatch want int got bool; int; @n == 1
ok; bool; n < 1
ok; bool; n <= 1
ok; bool; n > 1
ok; bool; n >= 1
Mismatch want int got bool; bool; @b < x
Mismatch want int got bool; bool; 1 < @b
Mismatch want int got bool; bool; @b <= x
Mismatch want int got bool; bool; 1 <= @b
Mismatch want int got bool; bool; @b > x
Mismatch want int got bool; bool; 1 > @b
Mismatch want int got bool; bool; @b >= x
Mismatch want int got text; bool; 1 >= @t
ok; bool; b && n == 1
ok; bool; b || n == 1
Mismatch want bool got int; bool; @n && x
Mismatch want bool got int; bool; b && @n
Mismatch want bool got int; bool; @n || x
Mismatch want bool got int; bool; b || @n
RefInValue; bool; @r || b
Mismatch want int got bool; int; @b || b
ok; bool; let x = n in x == 1
ok; bool; let n = b in n
ok; int; let n = b in let n = 1 in n
Mismatch want int got bool; bool; let x = b in @x + 1 == 2
UnknownName; int; let x = @x in 1
RefInValue; int; let x = @r in 1
Mismatch want int got bool; int; @let x = n in b
UnknownName; int; (let x = n in x) + @x
NotRef; int; let r = n in @!r
ok; int; if b then 1 else 2
Mismatch want bool got int; int; if @n then x else 2
Mismatch want int got bool; int; if b then 1 else @b
UnknownName; int; if b then @x else true
Mismatch want int got bool; int; @if b then b else b
RefInValue; int; if @r then 1 else 2
ok; int; case l of [] -> 0 | h :: q -> h + len q
NotList; int; case @n of [] -> x | h :: q -> h
NotList; int; case @t of [] -> 0 | h :: q -> h
Mismatch want int got [int]; int; case l of [] -> 0 | h :: q -> @q
UnknownName; int; case l of [] -> @h | h :: q -> h
UnknownName; int; case @x of [] -> 0 | h :: q -> h
RefInValue; int; case @r of [] -> 0 | h :: q -> h
Mismatch want bool got int; bool; @case l of [] -> 0 | h :: q -> h
Duplicate; int; @case l of [] -> 0 | h :: h -> h
ok; int; case l of [] -> 0 | n :: b -> n + len b
UnknownName; int; (case l of [] -> 0 | h :: q -> h) + @h
ok; [int]; case l of [] -> l | h :: q -> q"#;

/// Faults at later nodes: behind parts of several nodes, in the order of the parts, and types that are too large.
pub(crate) const LATER_NODES: &str = r#"LaterCall; int; @f(x, b, t, l, p, r, s)
Arity want 2 got 1; bool; @g(x)
UnknownName; (int, int); (@x, r)
UnknownName; (int, int); (n + 1, @x)
Mismatch want int got bool; [int]; [1, n + 1, @b]
UnknownName; [int]; [n + 1, n * 2, 3, @x]
UnknownName; int; snd @x
UnknownName; bool; not @x
UnknownName; int; -@x
UnknownName; int; if n == 1 then @x else 2
Mismatch want int got bool; int; if n == 1 then n + 1 else @b
UnknownName; int; if n == 1 then n + 1 else @x
Mismatch want int got bool; int; if n == 1 then n + n else 1 + @b
UnknownName; int; if @x then r else s
UnknownName; int; if b then @x else r
UnknownName; int; let x = n + 1 in @y
UnknownName; int; let x = @y in z
UnknownName; int; case n :: l of [] -> @x | h :: q -> h
Mismatch want int got [int]; int; case n :: l of [] -> n + 1 | h :: q -> @q
UnknownName; int; case n :: l of [] -> n + 1 | h :: q -> @x
UnknownName; int; case l of [] -> @x | h :: q -> r
Mismatch want int got bool; int; case l of [] -> n + 1 | h :: q -> 1 + @b
Mismatch want int got bool; int; case l of [] -> 1 + @b | h :: q -> h
NotRef; bool; g(n + 1, @n)
UnknownName; bool; g(n + n, @x)
UnknownName; bool; n + 1 == @x
Mismatch want (int, int) got bool; bool; (n, 1) == @b
BigType; int; @nil {63 [}int{63 ]}
BigType; bool; g(@nil {63 [}int{63 ]}, r)
BigType; bool; g(1, @nil {63 [}int{63 ]})
BigType; int; fst (@nil {63 [}int{63 ]}, 1)
BigType; int; fst (n + 1, @nil {63 [}int{63 ]})
BigType; int; -@nil {63 [}int{63 ]}
BigType; bool; not @nil {63 [}int{63 ]}
BigType; int; if @nil {63 [}int{63 ]} then 1 else 2
BigType; int; if n == 1 then @nil {63 [}int{63 ]} else 2
BigType; int; if n == 1 then n + 1 else @nil {63 [}int{63 ]}
BigType; [int]; [1, n + 1, @nil {63 [}int{63 ]}]
BigType; int; len (let x = 1 in @nil {63 [}int{63 ]})
BigType; int; len (if b then @nil {63 [}int{63 ]} else l)
BigType; int; case @nil {63 [}int{63 ]} of [] -> 1 | h :: q -> 2
BigType; int; case l of [] -> @nil {63 [}int{63 ]} | h :: q -> 2
BigType; int; case n :: l of [] -> n + 1 | h :: q -> @nil {63 [}int{63 ]}
BigType; int; snd @nil {63 [}int{63 ]}
BigType; int; snd @(1, nil {61 [}int{61 ]})
BigType; int; fst @nil {63 [}int{63 ]}
BigType; bool; 1 == (n, @nil {63 [}int{63 ]})
BigType; bool; 1 + (@nil {63 [}int{63 ]} + 1) == 2
Mismatch want int got bool; int; if b then n + 1 else 1 + @b
Mismatch want int got bool; int; if b then n + 1 else @b
Mismatch want int got [int]; int; case l of [] -> n + 1 | h :: q -> @q
Mismatch want int got bool; int; @let b = 1 in g(b, r)
Mismatch want int got bool; int; case l of [] -> n | l :: n -> @b
NotList; int; case @n of [] -> 1 | n :: l -> n
ok; [int]; case l of [] -> l | n :: q -> n :: l"#;
