//! Each form of tasks: as it should be, and each way to have it wrong.

/// Each form, and each way to have one of its parts wrong.
pub(crate) const FORMS: &str = r#"ok; int; edit n
ok; bool; edit (g(1, r))
ok; int; edit (y())
UnknownName; int; edit @x
RefInValue; int; edit @r
Mismatch want int got bool; int; @edit b
UnknownName; int; edit @f
UnknownName; bool; edit (@k(1, r))
ok; [int]; enter [int]
Mismatch want int got bool; int; @enter bool
ok; int; fail int
Mismatch want int got bool; int; @fail bool
ok; text; share s
Mismatch want int got text; int; @share s
NotRef; int; @share n
UnknownName; int; @share x
ok; bool; k(1, r)
Mismatch want int got bool; int; @k(1, r)
UnknownName; bool; @h(1, r)
UnknownName; bool; @g(1, r)
Arity want 2 got 1; bool; @k(1)
Arity want 2 got 3; bool; @k(1, r, r)
Mismatch want int got bool; bool; k(@b, r)
RefInValue; bool; k(@r, r)
NotRef; bool; k(1, @n)
Mismatch want int got text; bool; k(1, @s)
UnknownName; bool; k(1, @x)
UnknownName; bool; k(1, [@x])
NotRef; bool; k(1, @!r)
ok; bool; k(y(), r)
Unguarded; bool; @f(n, b, t, l, p, r, s)
Unguarded; int; @z()
ok; int; enter int >>= x . z()
ok; int; enter int >>? x . z()
ok; int; z() <?> z()
Unguarded; int; @z() >>= x . z()
Unguarded; (int, int); enter int <&> @z()
ok; int; enter unit >>? x . f(n, b, t, l, p, r, s)
ok; int; enter int >>= x . edit (x + n)
ok; int; enter int >>? x . edit (x + n)
Mismatch want int got bool; int; enter bool >>= x . edit (@x + 1)
Mismatch want int got bool; int; enter bool >>? x . edit (@x + 1)
UnknownName; int; edit @x >>= x . edit 1
Mismatch want bool got int; bool; @enter int >>= x . edit 1
UnknownName; int; (enter int >>= x . edit x) <|> edit @x
ok; int; new q = 1 in enter int >>? q . edit q
ok; (int, bool); enter int <&> enter bool
Mismatch want int got (int, bool); int; @enter int <&> enter bool
UnknownName; (int, bool); edit @x <&> edit r
RefInValue; (int, bool); edit n <&> edit @r
ok; ((int, bool), int); edit n <&> edit b <&> edit n
ok; int; enter int <|> edit 1
Mismatch want int got bool; int; enter int <|> @enter bool
Mismatch want bool got int; bool; @enter int <|> edit 1
ok; int; enter int <?> edit 1
Mismatch want int got bool; int; enter int <?> @enter bool
Mismatch want bool got int; bool; @enter int <?> edit 1
UnknownName; int; edit @x <?> edit r
ok; int; let x = n in edit x
RefInValue; int; let x = @r in edit x
Mismatch want int got bool; int; @let x = n in edit b
NotRef; int; let r = n in @share r
ok; int; if b then edit 1 else enter int
Mismatch want bool got int; int; if @n then edit x else enter int
Mismatch want int got bool; int; if b then edit 1 else @enter bool
Unguarded; int; if b then @z() else enter int
ok; int; case l of [] -> enter int | h :: q -> edit (h + len q)
NotList; int; case @n of [] -> enter int | h :: q -> edit h
Mismatch want int got [int]; int; case l of [] -> enter int | h :: q -> @edit q
Duplicate; int; @case l of [] -> enter int | h :: h -> edit h
UnknownName; int; case l of [] -> edit @h | h :: q -> edit h
ok; int; new q = n in share q
UnknownName; int; new q = @x in share q
RefInValue; int; new q = @r in share q
RefInValue; int; new q = n in edit @q
RefInValue; bool; new q = n in k(@q, q)
ok; bool; new q = n in k(n, q)
Mismatch want bool got int; bool; @new q = n in share q
ok; int; r := 2 ; share r
NotRef; int; @n := x ; share r
UnknownName; int; @x := 2 ; share r
Mismatch want int got bool; int; r := @b ; share n
RefInValue; int; r := @s ; share n
Mismatch want int got bool; int; @r := 2 ; edit b"#;

/// Faults at later nodes: behind parts of several nodes, in the order of the parts, and types that are too large.
pub(crate) const LATER_NODES: &str = r#"Unguarded; int; @f(x, b, t, l, p, r, s)
Arity want 2 got 1; bool; @k(x)
UnknownName; bool; k(n + 1, @x)
UnknownName; int; edit (n + 1) >>= x . edit @z
Mismatch want int got bool; int; edit (n + 1) >>= x . edit (1 + @b)
UnknownName; (int, int); edit (n + 1) <&> edit @x
UnknownName; int; edit (n + 1) <|> edit @x
Mismatch want int got bool; int; edit (n + 1) <|> @edit b
UnknownName; int; edit (n + 1) <?> edit @x
Mismatch want int got bool; int; edit (n + 1) <?> @edit b
UnknownName; int; edit @x <|> edit r
UnknownName; int; let x = n + 1 in edit @z
UnknownName; int; let x = @y in edit z
UnknownName; int; new x = n + 1 in edit @z
UnknownName; int; new x = @y in edit z
UnknownName; int; r := n + 1 ; edit @z
NotList; int; r := 1 ; edit (len @n)
UnknownName; int; if n == 1 then edit @x else edit r
UnknownName; int; if n == 1 then edit n else edit @x
Mismatch want int got bool; int; if n == 1 then edit (n + 1) else edit (1 + @b)
Mismatch want int got bool; int; if n == 1 then edit (n + 1) else @edit b
UnknownName; int; if @x then edit y else edit z
UnknownName; int; case @x of [] -> edit y | h :: q -> edit z
NotList; int; case @t of [] -> enter int | h :: q -> enter int
Mismatch want int got bool; int; case 1 + @b of [] -> enter int | h :: q -> enter int
Mismatch want int got bool; int; case n :: l of [] -> edit (1 + @b) | h :: q -> edit h
UnknownName; int; case n :: l of [] -> edit (n + 1) | h :: q -> edit @x
Mismatch want int got [int]; int; case n :: l of [] -> edit (n + 1) | h :: q -> @edit q
UnknownName; int; case l of [] -> edit @x | h :: q -> edit r
Mismatch want int got bool; int; if b then edit (n + 1) else edit (1 + @b)
Mismatch want int got bool; int; if n == 1 then edit n else edit (1 + @b)
ok; int; let x = y() in edit x
ok; int; new x = y() in share x
ok; int; r := y() ; share r
ok; int; if y() == 1 then enter int else enter int
ok; int; case [y()] of [] -> enter int | h :: q -> enter int
Unguarded; int; new x = 1 in @z()
Unguarded; int; let x = 1 in @z()
Unguarded; int; r := 1 ; @z()
Unguarded; int; enter int <|> @z()
Unguarded; int; @z() <|> enter int
Unguarded; (int, int); @z() <&> enter int
Unguarded; int; case l of [] -> @z() | h :: q -> enter int
Unguarded; int; case l of [] -> enter int | h :: q -> @z()
Unguarded; int; if b then enter int else @z()
BigType; int; @enter {64 [}int{64 ]}
BigType; (int, int); enter int <&> @enter {64 [}int{64 ]}
BigType; (int, int); @enter {64 [}int{64 ]} <&> edit x
BigType; int; enter int <|> @enter {64 [}int{64 ]}
BigType; int; enter int <?> @enter {64 [}int{64 ]}
BigType; int; @enter {64 [}int{64 ]} <?> edit x
BigType; int; enter int >>= x . @enter {64 [}int{64 ]}
BigType; int; let x = n + 1 in @enter {64 [}int{64 ]}
BigType; int; new x = n + 1 in @enter {64 [}int{64 ]}
BigType; int; r := n + 1 ; @enter {64 [}int{64 ]}
BigType; int; r := @nil {63 [}int{63 ]} ; share r
BigType; int; if @nil {63 [}int{63 ]} then enter int else edit x
BigType; int; if n == 1 then @enter {64 [}int{64 ]} else edit x
BigType; int; if n == 1 then edit (n + 1) else @enter {64 [}int{64 ]}
BigType; int; case l of [] -> @enter {64 [}int{64 ]} | h :: q -> edit x
BigType; int; case n :: l of [] -> edit (n + 1) | h :: q -> @enter {64 [}int{64 ]}
BigType; int; case @nil {63 [}int{63 ]} of [] -> edit x | h :: q -> edit x
BigType; int; let x = @nil {63 [}int{63 ]} in edit y
BigType; int; edit @nil {63 [}int{63 ]}
BigType; bool; k(@nil {63 [}int{63 ]}, r)
BigType; bool; k(1, @nil {63 [}int{63 ]})
ok; int; new n = n in share n
RefInValue; bool; new n = b in k(@n, r)
ok; [int]; case l of [] -> edit l | n :: q -> edit (n :: l)
RefInValue; int; new b = 1 in case @b of [] -> enter int | h :: q -> enter int"#;
