//! Nested calls, up to the height that a derivation may have and above it.

/// Each line has the units that the function `it` takes, the program's definitions, and the value, or `none` where the height is above 1,000.
pub const HEIGHTS: &str = "\
998: fun f0() : int = 1 {997 fun f@() : int = f$() }fun it() : int = f997() => 1
999: fun f0() : int = 1 {998 fun f@() : int = f$() }fun it() : int = f998() => 1
1000: fun f0() : int = 1 {999 fun f@() : int = f$() }fun it() : int = f999() => none
1000: fun f0() : int = 1 {998 fun f@() : int = f$() }fun g(n : int) : int = n fun it() : int = g(f998()) => none
999: fun f0() : int = 1 {997 fun f@() : int = f$() }fun g(n : int) : int = n fun it() : int = g(f997()) => 1
";
