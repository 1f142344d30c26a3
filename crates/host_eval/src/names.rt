ghost use Rattle.std.specs.Prelude.{◌≡◌, length, map};
ghost use Rattle.std.specs.Option.{option_map};
ghost use Rattle.task_model.specs.Terms.Env.{slot_term};
ghost use Rattle.task_model.specs.Terms.Program.{param_term};
ghost use Rattle.task_model.specs.Running.Checked.{found, param_names, slot_of};
ghost use Rattle.task_model.specs.Terms.Scope.{scope_names};
ghost use Rattle.task_model.specs.Running.Rules as rules;
ghost use Rattle.host_eval.specs.NamesTerm.{names_in, slots_in, names_term, IsPaired};

use crate::named::Named;
use task_model::{Param, Scope, Slot, TaskText};

/// Names with their slots, from the innermost one.
#[derive(Clone, Copy)]
pub enum Links<'e> {
    /// The parameters of a definition, with a slot for each.
    Parameters {
        params: &'e [Param],
        slots: &'e [Slot],
    },
    /// The names in scope at a place of a program, with a slot for each.
    Scope {
        scope: &'e Scope,
        slots: &'e [Slot],
    },
    /// One name more, inside the others.
    Bound {
        outer: &'e Links<'e>,
        name: &'e TaskText,
        slot: &'e Slot,
    },
}

/// An environment: names with their slots, and the number of `edit` and `share` nodes of the program that stand
/// before the task which is evaluated. Nothing of it is owned.
#[derive(Clone, Copy)]
pub struct Names<'e> {
    pub links: Links<'e>,
    pub first: u64,
}

impl<'e> Names<'e> {
    /// Parameters with a slot for each, in order.
    pub fn of_params(params: &'e [Param], slots: &'e [Slot], first: u64) -> Names<'e>
        ensures { names_term result ≡ record {
          names = param_names (map param_term params.now);
          slots = map slot_term slots.now;
          first =
              first;
        } }
    {
        let links = Links::Parameters { params, slots };
        Names { links, first }
    }

    /// The names in scope at a place of a program with a slot for each, outermost first.
    pub fn of_scope(scope: &'e Scope, slots: &'e [Slot], first: u64) -> Names<'e>
        ensures { names_term result ≡ record { names = scope_names scope.now; slots = map slot_term slots.now; first = first } }
    {
        let links = Links::Scope { scope, slots };
        Names { links, first }
    }

    /// The environment with one name more.
    pub fn with(&'e self, name: &'e TaskText, slot: &'e Slot) -> Names<'e>
        ensures { names_term result ≡ rules.bound (names_term self.now) name.now (slot_term slot.now) }
    {
        let links = Links::Bound {
            outer: &self.links,
            name,
            slot,
        };
        Names {
            links,
            first: self.first,
        }
    }

    /// The innermost slot of a name.
    pub fn slot(&self, name: &TaskText) -> Option<&'e Slot>
        requires paired { IsPaired (names_term self.now) }
        ensures { slot_of (names_term self.now) name.now ≡ option_map (λ s. slot_term s.now) result }
    {
        found_in(&self.links, name)
    }
}

fn found_in<'e>(links: &Links<'e>, name: &TaskText) -> Option<&'e Slot>
    requires paired { length (names_in links.now) ≡ length (slots_in links.now) }
    ensures { found (names_in links.now) (slots_in links.now) name.now ≡ option_map (λ s. slot_term s.now) result }
{
    match links {
        Links::Parameters { params, slots } => found_at(params, slots, name),
        Links::Scope { scope, slots } => found_in_scope(scope, slots, name),
        Links::Bound {
            outer,
            name: own,
            slot,
        } => {
            if own.is(name) {
                Some(*slot)
            } else {
                found_in(outer, name)
            }
        }
    }
}

fn found_in_scope<'e>(scope: &Scope, slots: &'e [Slot], name: &TaskText) -> Option<&'e Slot>
    requires paired { length (scope_names scope.now) ≡ length slots.now }
    ensures { found (scope_names scope.now) (map slot_term slots.now) name.now ≡ option_map (λ s. slot_term s.now) result }
{
    match scope {
        Scope::Parameters(names) => found_at(names.as_slice(), slots, name),
        Scope::Inner { outer, name: own } => {
            let last = slots.len() - 1;
            if own.is(name) {
                Some(&slots[last])
            } else {
                found_in_scope(outer, &slots[..last], name)
            }
        }
    }
}

// The last slot of that name.
fn found_at<'e, N: Named>(names: &[N], slots: &'e [Slot], name: &TaskText) -> Option<&'e Slot>
    requires paired { length names.now ≡ length slots.now }
    ensures { found (map N.spelling names.now) (map slot_term slots.now) name.now ≡ option_map (λ s. slot_term s.now) result }
{
    let mut end = names.len();
    while end > 0 {
        end -= 1;
        if names[end].is_named(name) {
            return Some(&slots[end]);
        }
    }
    None
}
