ghost use Rattle.std.specs.Prelude.{◌≡◌, map, MatchOption};
ghost use Rattle.std.specs.Option.{option_map};
ghost use Rattle.std.specs.Str.{bytes_eq};
ghost use Rattle.indexmap.specs.IndexMap.{get_by};
ghost use Rattle.task_model.specs.Terms.Text.{Text};
ghost use Rattle.task_model.specs.Terms.Program.{def_term};
ghost use Rattle.task_model.specs.Checking.Names.{first_named};

use indexmap::IndexMap;
use std::alloc::{AllocError, Global};
use task_model::{Def, TaskText};

/// A definition and its number.
#[derive(Clone, Copy)]
pub(crate) struct Found<'p> {
    pub(crate) index: usize,
    pub(crate) def: &'p Def,
}

/// The definitions of a program, and by each name the number of the first one that has it.
#[derive(Drop)]
pub(crate) struct Definitions<'p> {
    pub(crate) defs: &'p [Def],
    numbers: IndexMap<&'p str, usize>,
    pub ghost numbered: { (f : Text) → get_by (λ k. bytes_eq f k.now) numbers ≡ option_map
        (λ d. d.index) (first_named 0 (map def_term defs.now) f) },
}

impl<'p> Definitions<'p> {
    ghost use Rattle.std.specs.Prelude.{◌≡◌, IfOk};
    ghost use Rattle.std.specs.Option.{option_map};
    ghost use Rattle.host_types.specs.Seen.{found_term};
    ghost use Rattle.task_model.specs.Terms.Program.{def_term};
    ghost use Rattle.task_model.specs.Terms.Program.{main_name};
    ghost use Rattle.task_model.specs.Checking.Names.{first_named};

    pub(crate) fn new(alloc: Global, defs: &'p [Def]) -> Result<Definitions<'p>, AllocError>
        ensures { IfOk result (λ d. d.defs.now ≡ defs.now) }
    {
        let mut numbers = IndexMap::new(alloc);
        let mut left = defs.len();
        while left > 0 {
            left -= 1;
            numbers.insert(defs[left].name.as_str(), left)?;
        }
        Ok(Definitions { defs, numbers })
    }

    /// The first definition of a name.
    pub(crate) fn named(&self, name: &TaskText) -> Option<Found<'p>>
        ensures { first_named 0 (map def_term self.now.defs.now) name.now ≡ option_map found_term result }
    {
        self.first(name.as_str())
    }

    /// The first definition that is named `main`.
    pub(crate) fn main(&self) -> Option<Found<'p>>
        ensures { first_named 0 (map def_term self.now.defs.now) main_name ≡ option_map found_term result }
    {
        self.first("main")
    }

    fn first(&self, name: &str) -> Option<Found<'p>>
        ensures { first_named 0 (map def_term self.now.defs.now) name.now ≡ option_map found_term result }
    {
        let index = *self.numbers.get(name)?;
        match self.defs.get(index) {
            Some(def) => Some(Found { index, def }),
            None => None,
        }
    }
}
