ghost use Rattle.std.specs.Prelude.{◌≡◌, ◌≤◌, ◌++◌, [], ◌∷◌, length, nat_le, map};
ghost use Rattle.std.specs.Option.{option_map};
ghost use Rattle.task_model.specs.Terms.Program.{kind_term};
ghost use Rattle.task_model.specs.Checking.Names.{kind_in};
ghost use Rattle.host_types.specs.Seen.{scope_term};

use task_model::{Kind, TaskText};

/// The names in scope, from the innermost one.
#[derive(Clone, Copy)]
pub(crate) enum Names<'s> {
    Empty,
    Named {
        outer: &'s Names<'s>,
        name: &'s TaskText,
        kind: &'s Kind,
    },
}

impl<'s> Names<'s> {
    /// The names with one more.
    pub(crate) fn with(&'s self, name: &'s TaskText, kind: &'s Kind) -> Names<'s>
        ensures { scope_term result ≡ scope_term self.now ++ record { name = name.now; kind = kind_term kind.now } ∷ [] }
    {
        Names::Named {
            outer: self,
            name,
            kind,
        }
    }
}

/// What a name stands for, the innermost one of its spelling.
pub(crate) fn found<'s>(scope: &Names<'s>, name: &TaskText) -> Option<&'s Kind>
    ensures { kind_in (scope_term scope.now) name.now ≡ option_map (λ k. kind_term k.now) result }
{
    match scope {
        Names::Empty => None,
        Names::Named {
            outer,
            name: own,
            kind,
        } => {
            if own.is(name) {
                Some(*kind)
            } else {
                found(outer, name)
            }
        }
    }
}

/// Whether at most so many names are in scope.
pub(crate) fn has_at_most(scope: &Names, most: usize) -> bool
    ensures { result ≡ nat_le (length (scope_term scope.now)) most }
{
    match scope {
        Names::Empty => true,
        Names::Named { outer, .. } => most > 0 && has_at_most(outer, most - 1),
    }
}
