use task_model::Face;

/// What a query asks for: a page in a face, and the version that it has to have at least, if one is named.
#[derive(Clone, Copy, Debug, PartialEq, Eq)]
pub struct PageQuery {
    pub face: Face,
    pub at_least: Option<u64>,
}
