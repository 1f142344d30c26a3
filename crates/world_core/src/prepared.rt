use live_tree::LiveTree;
use task_model::Item;

/// An entry that may be taken, and the tree that it leads to, with its table.
#[derive(Drop)]
pub(crate) struct Prepared {
    pub(crate) item: Item,
    pub(crate) live: LiveTree,
}
