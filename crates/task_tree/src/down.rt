/// One step down in a tree: into the left part of a step, or into a part of a pair or an internal choice. An address is a
/// list of these.
#[derive(Clone, Copy, Debug, PartialEq, Eq)]
pub enum Down {
    Step,
    First,
    Second,
}
