use task_model::Tree;

/// The tree that an input leads to, whether it is known to differ from the one before along the input's path alone, and whether it is known
/// that nothing fires in it.
#[derive(Drop)]
pub struct Led {
    pub tree: Tree,
    pub along_path: bool,
    pub quiet: bool,
}
