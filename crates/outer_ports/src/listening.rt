/// The answer to a call for a gate: one that listens, or a fault, or want of memory.
#[derive(Drop)]
pub enum Listening<G> {
    Gate(G),
    Failed,
    Memory,
}
