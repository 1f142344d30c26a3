use task_model::Tree;

/// A tree that settled, and whether it is known that nothing fires in it.
#[derive(Drop)]
pub struct Settled {
    pub tree: Tree,
    pub quiet: bool,
}
