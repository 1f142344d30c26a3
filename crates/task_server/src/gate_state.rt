/// What a gate has answered: no fault yet, and not that it is closed; or that no link is left; or a fault.
#[derive(Clone, Copy, Debug, PartialEq, Eq)]
pub enum GateState {
    Open,
    Closed,
    Failed,
}
