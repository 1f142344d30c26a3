//! Worked programs, from their openings on.

pub(super) const WORKED: &str = r#"task main() : int = edit 1 >>= x . edit 2 >>= y . edit 3
normalise: 3 5 => edit int 3 []
normalise main(): 4 5 => edit int 3 []
evaluate: 0 3 => (edit int 1 >>= 0()) []
failing: 0 2 => fine (edit int 1 >>= 0()) []
next 4: 2 => yes (edit int 1 >>= 0()) []
settle: 3 5 => edit int 3 []
evaluate main(): 1 4 => (edit int 1 >>= 0()) []
stride: 0 4 => (edit int 2 >>= 1(1)) []
stride: 0 3 => edit int 3 []
stride: 0 1 => edit int 3 []
settle: 1 2 => edit int 3 []

task main() : int = edit 1 >>= x . edit 2 >>= y . edit (1 + (2 * (3 - y)))
normalise: 3 7 => edit int 3 []
normalise main(): 4 7 => edit int 3 []

task main() : int = case nil int of [] -> (edit 1 >>= x . edit 2) | h :: t -> edit h
evaluate: 0 4 => (edit int 1 >>= 0()) []
evaluate main(): 1 5 => (edit int 1 >>= 0()) []

task loop() : int = edit 1 >>= x . loop() task main() : int = loop()
normalise main(): 4 6 => (edit int 1 >>= 0()) []
normalise: 2 6 => (edit int 1 >>= 0()) []
evaluate main(): 2 5 => (edit int 1 >>= 0()) []
stride: 1 5 => (edit int 1 >>= 0()) []
settle: 2 6 => (edit int 1 >>= 0()) []
next 9: 3 => yes (edit int 1 >>= 0()) []
apply 9: 1 4 => (edit int 1 >>= 0()) []"#;
