//! Scripts, faults of files, sources and sinks, and what is as long or as deep as it may be, in blocks as `Block` (block.rt) has them.

pub(super) const SCRIPTS: &str = "task main() : (int, int) = edit 1 <&> enter int
= 0

same program
= 0
> 1 .F set 7
taken 1
> 1 . set 1
not offered
> # as before
> 1 . next
not offered
> 2 show\\
version 1 seat 2
. and
.F edit int 7
.S enter int

same program
= 0
> \n> 64 .F set -9223372036854775808`
taken 1
> `
> 1 .S set 0007
taken 2
> 64 show
version 2 seat 64
. and
.F edit int -9223372036854775808
.S edit int 7

same program
= 3 tophat: line 2 column 2
> 1 .F set 1
taken 1
> 65 show
> 1 show

same program
= 3 tophat: line 1 column 8
> 1 show`x
> 1 show\\";

/// In pieces of ten bytes. A fault of the error sink changes no status. `check` asks for the file as `run` does, and `soak` for none; neither
/// reads the input. What was read before a fault is answered.
pub(super) const FAULTS: &str = "! 1 0 0 0
task main() : (int, int) = edit 1 <&> enter int
= 5 tophat: read fault
> 1 show
> x\\

! 0 1 0 0
same program
= 5 tophat: read fault
> 1 show
> x\\

! 0 2 0 0
same program
= 5 tophat: read fault
> 1 show
version 0 seat 1
. and
.F edit int 1
.S enter int
> x\\

! 0 0 1 0
same program
= 6 tophat: write fault
> 1 show
> x\\

! 0 0 2 0
same program
= 6 tophat: write fault
> 1 show
version 0 \\
> x\\

! 0 0 0 1
same program
= 3
> 1 show
version 0 seat 1
. and
.F edit int 1
.S enter int
> x\\

! 0 0 0 2
same program
= 3 tophat: li\\
> 1 show
version 0 seat 1
. and
.F edit int 1
.S enter int
> x\\

! 0 2 0 0
task main() : int = enter int >>? x . edit (x + 1)
= 5 tophat: read fault
> 1 . set 4
taken 1
> 1 show\\

$ check p.th
! 0 1 1 0
same program
= 6 tophat: write fault

$ soak 1 3
! 0 1 1 0
same program
= 6 tophat: write fault

$ check p.th
! 1 0 0 0
same program
= 5 tophat: read fault";

/// Files and lines at their limits and a byte longer. An edit and its number are two levels, and each pair of parentheses is one.
pub(super) const LIMITS: &str = "{1048529  }task main() : (int, int) = edit 1 <&> enter int
= 0

{1048530  }task main() : (int, int) = edit 1 <&> enter int
= 7 tophat: p.th: too long

task main() : (int, int) = edit 1 <&> enter int
= 0
> 1 .F set {1048566 0}7
taken 1

same program
= 3 tophat: line 1 column 1048577
> 1 .F set {1048567 0}7

task main() : int = {198 (}edit 5{198 )}
= 0
> 1 show
version 0 seat 1
. edit int 5

task main() : int = {199 (}edit 5{199 )}
= 1 tophat: p.th: byte 219: TooNested";
