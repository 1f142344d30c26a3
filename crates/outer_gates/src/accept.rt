/// The answer of a gate: a link with which nothing was done, or that no link is left, or a fault.
#[derive(Drop)]
pub enum Accept<L> {
    Link(L),
    Closed,
    Failed,
}
