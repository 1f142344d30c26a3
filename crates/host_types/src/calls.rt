ghost use Rattle.std.specs.Prelude.{◌≡◌};
ghost use Rattle.task_model.specs.Checking.Names as scopes;

use crate::definitions::Definitions;

/// The definitions, of which those before a number may be called, or every one.
#[derive(Clone, Copy)]
pub(crate) struct Calls<'p> {
    pub(crate) definitions: &'p Definitions<'p>,
    pub(crate) below: Option<usize>,
}

/// What a call wants a name to be.
#[derive(Clone, Copy)]
pub(crate) enum Callee {
    Function,
    Task,
}

/// Whether the definition of this number may be called.
pub(crate) fn is_open(below: Option<usize>, index: usize) -> bool
    ensures { result ≡ scopes.is_open below index }
{
    match below {
        None => true,
        Some(n) => index < n,
    }
}
