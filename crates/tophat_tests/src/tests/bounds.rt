//! What programs cost at most.

/// Programs with their bounds, in blocks as `Block` (block.rt) has them: a message board, with that bound as its budget, too; the least program;
/// two tasks that come back to each other by user steps; a task that leads to one that comes back; recursive calls that stand in the way; numbers
/// above a million; a refusal; and a file that can't be read and a write that fails.
pub(super) const BOUNDS: &str = r#"$ bound p.th
task post(log : ref [text]) : [text] = enter text >>? m . (log := m :: !log; post(log))
task main() : ([text], [text]) = new log = nil text in post(log) <&> share log
= 0
units 3 height 7

$ run p.th --budget 3
same program
= 0
> 1 .F set "hello"
taken 1
> 1 .F next
taken 2
> 2 .F set "hi"
taken 3
> 2 .F next
taken 4
> 1 show
version 4 seat 1
. and
.F step
.F enter text
.S share [text] ["hi", "hello"]

$ bound p.th
task main() : int = edit 1
= 0
units 2 height 4

$ bound p.th
task a(x : int) : int = edit x >>? y . b(y)
task b(x : int) : int = edit x >>? y . if y > 0 then a(y) else let z = y in b(z)
task main() : int = a(0)
= 0
units 3 height 7

$ bound p.th
task a(x : int) : int = edit x >>? y . a(y)
task b(x : int) : int = edit x >>= y . a(y)
task main() : int = b(1)
= 0
units 6 height 6

$ bound p.th
task loop() : int = edit 1 >>= x . loop()
task main() : int = loop()
= 0
no bound

$ bound p.th
task main() : int = main() <?> main()
= 0
no bound

$ bound p.th
task clerk() : int = edit 1 >>? x . done()
task done() : int = clerk()
task main() : int = done()
= 0
no bound

$ bound p.th
task a(x : int) : (int, int) = edit x >>? y . (edit y <&> (a(y) >>? z . edit 1))
task main() : (int, int) = a(0)
= 0
no bound

$ bound p.th
fun f0(x : int) : int = x
fun f1(x : int) : int = f0(f0(f0(f0(f0(f0(f0(f0(x))))))))
fun f2(x : int) : int = f1(f1(f1(f1(f1(f1(f1(f1(x))))))))
fun f3(x : int) : int = f2(f2(f2(f2(f2(f2(f2(f2(x))))))))
fun f4(x : int) : int = f3(f3(f3(f3(f3(f3(f3(f3(x))))))))
fun f5(x : int) : int = f4(f4(f4(f4(f4(f4(f4(f4(x))))))))
fun f6(x : int) : int = f5(f5(f5(f5(f5(f5(f5(f5(x))))))))
fun f7(x : int) : int = f6(f6(f6(f6(f6(f6(f6(f6(x))))))))
task main() : int = edit f7(1)
= 0
units 1000001 height 61

$ bound p.th
task main() : int = edit true
= 1 tophat: p.th: byte 20: Mismatch want int got bool

$ bound p.th
! 1 0 0 0
task main() : int = edit 1
= 5 tophat: read fault

$ bound p.th
! 0 1 1 0
same program
= 6 tophat: write fault"#;
