//! Whole programs: definitions, which of two faults goes first, 200 names in scope and 201, types of 64 symbols and of 65.

/// Definitions: those of one name, those that come later, and `main`.
pub(crate) const DEFINITIONS: &str = r#"ok
task main() : int = enter int

NoMain
@

NoMain
fun f() : int = 1@

NoMain
fun main() : int = 1@

NoMain
fun main(a : int) : int = 1@

Mismatch want int got bool
fun f() : int = @true

Arity want 0 got 1
@task main(a : int) : int = enter int

Duplicate
fun main() : int = 1
@task main() : int = enter int

Duplicate
task main() : int = enter int
@fun main() : int = 1

Duplicate
fun f() : int = 1
@task f() : int = enter int
task main() : int = f()

Duplicate
task f() : int = enter int
@fun f() : int = 1
task main() : int = f()

Duplicate
fun f(a : int, b : int, @a : bool) : int = 1

Duplicate
task f(a : int, @a : ref int) : int = enter int

Duplicate
fun f() : int = 1
@fun f(a : int, a : int) : int = 1

Duplicate
task main(a : int, @a : int) : int = enter int

Arity want 0 got 1
@task main(a : int) : int = enter bool

UnknownName
fun f() : int = @x
fun g() : int = true

Mismatch want int got bool
fun f() : int = 1
fun g() : int = @true
fun f() : int = 1

Duplicate
task main() : int = enter int
@task main() : int = f()

ok
fun f() : int = 1
fun g() : int = f()
task main() : int = edit (g())

LaterCall
fun f() : int = @g()
fun g() : int = f()
task main() : int = edit (g())

LaterCall
fun f() : int = @f()

Unguarded
task f() : int = @f()

Unguarded
task main() : int = @main()

ok
task main() : int = enter unit >>? x . main()

ok
task f() : int = enter int
task main() : (int, int) = f() <&> f()

Arity want 0 got 1
fun f(a : int) : int = a + 1
@task main(a : int) : int = enter int

BigType
fun f(a : int) : int = a + 1
@fun g(b : int) : {64 [}int{64 ]} = x

Duplicate
task f() : int = edit (1 + 2) >>= x . edit (x + 1)
@task f() : int = enter int

Duplicate
task f() : int = edit (1 + 2) >>= x . edit (x + 1)
task g(a : int, @a : int) : int = enter int

NoMain
fun f() : int = 1
task g() : int = enter int@

Mismatch want (int, bool) got (int, int)
fun f(a : (int, bool)) : int = 1
fun g(a : (int, int)) : int = f(@a)"#;

/// Which of two faults of a node goes first: the rule on calls, the number of arguments, what is bound, and then part for part.
pub(crate) const ORDER: &str = r#"LaterCall
fun f() : int = @f(1)

Unguarded
task f() : int = @f(1)

UnknownName
fun f() : int = @g(x)

Arity want 0 got 1
fun g() : int = 1
fun f() : int = @g(x)

Arity want 0 got 1
task g() : int = enter int
task f() : int = @g(x)

UnknownName
task g() : int = enter int
fun f() : int = @g(x)

Duplicate
fun f() : int = @case x of [] -> 0 | h :: h -> 1

Duplicate
task f() : int = @case x of [] -> enter int | h :: h -> enter int

Mismatch want int got bool
fun f() : int = @true + x

Mismatch want int got bool
fun f() : int = (1 + @true) + x

Mismatch want bool got int
fun f() : int = if @1 then x else y

NotList
fun f() : int = case @1 of [] -> x | h :: t -> y

UnknownName
fun f() : int = case nil int of [] -> @x | h :: t -> true

Mismatch want bool got int
fun f() : int = case nil int of [] -> true | h :: t -> @h

Mismatch want int got bool
fun f(a : ref int) : int = 1
fun g() : int = f(1 + @true)

NotRef
fun f(a : ref int, b : int) : int = 1
fun g() : int = f(@1, x)

Mismatch want int got bool
fun f(a : int, b : ref int) : int = 1
fun g() : int = f(@true, x)

UnknownName
task f() : int = @a := x ; enter int

NotRef
task f(a : int) : int = @a := x ; enter int

Mismatch want int got bool
task f(a : ref int) : int = a := @true ; edit x

UnknownName
task f() : int = edit @x >>= y . edit z

Mismatch want bool got int
task f() : int = edit true <|> @edit 1 <|> edit x"#;

/// So many names in scope.
pub(crate) const SCOPES: &str = r#"ok
fun f(p0 : int{199 , p@ : int}) : int = 1
task main() : int = enter int

TooManyNames
fun f(p0 : int{199 , p@ : int}, @q : int) : int = 1

Duplicate
fun f(p0 : int{199 , p@ : int}, @p0 : int) : int = 1

TooManyNames
fun f(p0 : int{199 , p@ : int}, @q : int, p0 : int) : int = 1

ok
fun f(p0 : int{198 , p@ : int}) : int = let x = 1 in x
task main() : int = enter int

TooManyNames
fun f(p0 : int{199 , p@ : int}) : int = @let x = 1 in x

TooManyNames
fun f(p0 : int{199 , p@ : int}) : int = @let p0 = 1 in p0

TooManyNames
fun f(p0 : int{198 , p@ : int}) : int = let x = 1 in @let y = x in y

ok
fun f(p0 : int{198 , p@ : int}) : int = (let x = 1 in x) + (let y = 1 in y)
task main() : int = enter int

TooManyNames
fun f(p0 : int{199 , p@ : int}) : int = @let x = y in z

ok
fun f(p0 : int{197 , p@ : int}) : int = case nil int of [] -> 0 | h :: t -> h
task main() : int = enter int

TooManyNames
fun f(p0 : int{198 , p@ : int}) : int = @case nil int of [] -> 0 | h :: t -> h

TooManyNames
fun f(p0 : int{198 , p@ : int}) : int = @case x of [] -> 0 | h :: t -> h

Duplicate
fun f(p0 : int{198 , p@ : int}) : int = @case x of [] -> 0 | h :: h -> h

TooManyNames
fun f(p0 : int{199 , p@ : int}) : int = @case nil int of [] -> 0 | p0 :: p1 -> p0

TooManyNames
fun f(p0 : int{197 , p@ : int}) : int = case nil int of [] -> 0 | h :: t -> @let x = 1 in x

ok
fun f(p0 : int{199 , p@ : int}) : int = p199 + p0
task main() : int = enter int

UnknownName
fun f(p0 : int{199 , p@ : int}) : int = @p200

ok
task f(p0 : int{198 , p@ : int}) : int = enter int >>= x . edit x
task main() : int = enter int

TooManyNames
task f(p0 : int{199 , p@ : int}) : int = @enter int >>= x . edit x

TooManyNames
task f(p0 : int{199 , p@ : int}) : int = @edit x >>? x . edit y

ok
task f(p0 : int{198 , p@ : int}) : int = new r = 1 in share r
task main() : int = enter int

TooManyNames
task f(p0 : int{199 , p@ : int}) : int = @new r = 1 in share r

ok
task f(p0 : int{198 , p@ : int}) : int = let x = 1 in edit x
task main() : int = enter int

TooManyNames
task f(p0 : int{199 , p@ : int}) : int = @let x = 1 in edit x

ok
task f(p0 : int{197 , p@ : int}) : int = case nil int of [] -> enter int | h :: t -> edit h
task main() : int = enter int

TooManyNames
task f(p0 : int{198 , p@ : int}) : int = @case nil int of [] -> enter int | h :: t -> edit h

TooManyNames
task f(p0 : int{198 , p@ : int}) : int = new r = 1 in @enter int >>= x . edit x

TooManyNames
task f(p0 : int{199 , p@ : int}) : int = @let x = y in edit z

TooManyNames
task f(p0 : int{199 , p@ : int}) : int = @new x = y in edit z

TooManyNames
task f(p0 : int{198 , p@ : int}) : int = @case x of [] -> edit y | h :: t -> edit z

Duplicate
task f(p0 : int{198 , p@ : int}) : int = @case x of [] -> edit y | h :: h -> edit z"#;

/// Types of so many symbols.
pub(crate) const SYMBOLS: &str = r#"ok
fun f(a : {63 [}int{63 ]}) : int = 1
task main() : int = enter int

BigType
fun f(@a : {64 [}int{64 ]}) : int = 1

ok
fun f(a : ref {63 [}int{63 ]}) : int = 1
task main() : int = enter int

BigType
fun f(@a : ref {64 [}int{64 ]}) : int = 1

Duplicate
fun f(a : int, @a : {64 [}int{64 ]}) : int = 1

UnknownName
fun f() : {63 [}int{63 ]} = @x

BigType
@fun f() : {64 [}int{64 ]} = x

BigType
@task main(a : int) : {64 [}int{64 ]} = enter int

Duplicate
fun f(a : int, @a : int) : {64 [}int{64 ]} = 1

ok
fun f() : int = len (nil {62 [}int{62 ]})
task main() : int = enter int

BigType
fun f() : int = len (@nil {63 [}int{63 ]})

BigType
fun f() : int = len [@nil {63 [}int{63 ]}]

BigType
fun f() : int = len @[nil {62 [}int{62 ]}]

BigType
fun f() : bool = nil int == @nil {63 [}int{63 ]}

BigType
fun f() : int = 1 + @nil {63 [}int{63 ]}

ok
fun f() : int = fst (1, nil {60 [}int{60 ]})
task main() : int = enter int

BigType
fun f() : int = fst @(1, nil {61 [}int{61 ]})

BigType
fun f() : int = let x = @nil {63 [}int{63 ]} in y

ok
task f() : int = enter {63 [}int{63 ]} >>= x . enter int
task main() : int = enter int

BigType
task f() : int = @enter {64 [}int{64 ]} >>= x . enter int

BigType
task f() : int = @fail {64 [}int{64 ]} <|> edit x

ok
task f() : int = enter int <&> enter {61 [}int{61 ]} >>= x . enter int
task main() : int = enter int

BigType
task f() : int = @enter int <&> enter {62 [}int{62 ]} >>= x . enter int

BigType
task f() : int = new r = @nil {63 [}int{63 ]} in enter int

BigType
task f() : int = edit (len (@g()))
fun g() : {64 [}int{64 ]} = x

ok
fun f(a : {63 [}unit{63 ]}) : int = 1
task main() : int = enter int

ok
fun f(a : {63 [}bool{63 ]}) : int = 1
task main() : int = enter int

ok
fun f(a : {63 [}text{63 ]}) : int = 1
task main() : int = enter int

BigType
fun f(@a : {64 [}unit{64 ]}) : int = 1

BigType
fun f(@a : {64 [}bool{64 ]}) : int = 1

BigType
fun f(@a : {64 [}text{64 ]}) : int = 1

ok
fun f(a : {31 (int, }[int]{31 )}) : int = 1
task main() : int = enter int

BigType
fun f(@a : {32 (unit, }int{32 )}) : int = 1

ok
fun f(a : {31 (}[text]{31 , bool)}) : int = 1
task main() : int = enter int

BigType
fun f(@a : {32 (}int{32 , text)}) : int = 1"#;
