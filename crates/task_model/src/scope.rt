ghost use Rattle.std.specs.Prelude.{◌≡◌, [], ◌∷◌, ◌++◌, IfOk};
ghost use Rattle.task_model.specs.Terms.Scope.{scope_names};

use crate::memory::{OutOfMemory, share, shared};
use crate::row::Row;
use crate::text::{TaskText, copy_text};
use crate::value_copies::copy_texts;
use std::alloc::Global;
use std::sync::Arc;

/// The names in scope at a place of a program, outermost first: those of a definition's parameters, and those that
/// are bound inside it. It shares the names further out with the places around.
#[derive(Drop)]
pub enum Scope {
    Parameters(Arc<Row<TaskText>>),
    Inner { outer: Arc<Scope>, name: TaskText },
}

impl Scope {
    /// The scope of these names alone, outermost first.
    pub fn of(alloc: Global, names: Row<TaskText>) -> Result<Scope, OutOfMemory>
        ensures { IfOk result (λ scope. scope_names scope ≡ names.list) }
    {
        Ok(Scope::Parameters(shared(alloc, names)?))
    }

    /// The scope of no names.
    pub fn empty(alloc: Global) -> Result<Scope, OutOfMemory>
        ensures { IfOk result (λ scope. scope_names scope ≡ []) }
    {
        Scope::of(alloc, Row::new(alloc))
    }

    /// The scope with one more name inside it.
    pub fn inside(&self, alloc: Global, name: TaskText) -> Result<Scope, OutOfMemory>
        ensures { IfOk result (λ scope. scope_names scope ≡ scope_names self.now ++ name ∷ []) }
    {
        let outer = shared(alloc, copy_scope(self)?)?;
        Ok(Scope::Inner { outer, name })
    }

    /// The names, outermost first. Their texts are shared.
    pub fn names(&self, alloc: Global) -> Result<Row<TaskText>, OutOfMemory>
        ensures { IfOk result (λ names. names.list ≡ scope_names self.now) }
    {
        match self {
            Scope::Parameters(names) => copy_texts(alloc, names.as_slice()),
            Scope::Inner { outer, name } => {
                let mut names = outer.names(alloc)?;
                names.push(copy_text(name)?)?;
                Ok(names)
            }
        }
    }
}

/// The same scope, in the same memory.
pub fn copy_scope(scope: &Scope) -> Result<Scope, OutOfMemory>
    ensures { IfOk result (λ copy. scope_names copy ≡ scope_names scope.now) }
{
    match scope {
        Scope::Parameters(names) => Ok(Scope::Parameters(share(names)?)),
        Scope::Inner { outer, name } => {
            let outer = share(outer)?;
            let name = copy_text(name)?;
            Ok(Scope::Inner { outer, name })
        }
    }
}
