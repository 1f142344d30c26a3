ghost use Rattle.std.specs.Prelude.{◌≡◌, map, IfOk};
ghost use Rattle.std.specs.Option.{option_map};
ghost use Rattle.task_model.specs.Terms.Host.{host_term};
ghost use Rattle.task_model.specs.Terms.Program.{param_term, def_term};
ghost use Rattle.task_model.specs.Checking.Names.{first_named};
ghost use Rattle.host_eval.specs.Numbered.{numbered_term, AreNumbers};
ghost use Rattle.host_eval.specs.ValueWords.{function_in, function_term};

use std::alloc::Global;
use std::collections::HashMap;
use std::marker::Model;
use task_model::{Checked, Def, DefBody, Host, OutOfMemory, Param, TaskText};

/// A definition and its number.
#[derive(Clone, Copy)]
pub struct Found<'d> {
    pub number: usize,
    pub def: &'d Def,
}

/// An accepted program, each of whose definitions is found by its name in one step.
#[derive(Drop)]
pub struct Definitions {
    checked: Checked,
    numbers: HashMap<String, usize>,
}

impl Model for Definitions {
    ghost use Rattle.std.specs.Prelude.{map};
    ghost use Rattle.task_model.specs.Running.Checked.{SeenChecked};
    ghost use Rattle.task_model.specs.Terms.Program.{def_term};
    ghost use Rattle.task_model.specs.contracts.checked.Checked as checkeds;
    ghost use Rattle.host_eval.specs.Numbered.{AreNumbers};

    ghost Value = { SeenChecked };

    ghost coded = { checkeds.the_row.coded };

    ghost view = { λ d. d.checked };

    ghost invariant = { λ d. AreNumbers d.numbers (map def_term d.checked.program.defs.list) };
}

impl Definitions {
    /// The table of names is made in one walk of the definitions.
    pub fn new(alloc: Global, checked: Checked) -> Result<Definitions, OutOfMemory>
        ensures { IfOk result (λ d. d ≡ checked) }
    {
        let numbers = numbers_of(alloc, checked.program().defs.as_slice())?;
        Ok(Definitions { checked, numbers })
    }

    /// The program, with its types.
    pub fn checked(&self) -> &Checked
        ensures { result.now ≡ self.now }
    {
        &self.checked
    }

    /// The first definition of a name, which is the one that a call means (docs/RULES.md, "Programs").
    pub fn first(&self, name: &TaskText) -> Option<Found<'_>>
        ensures { first_named 0 (map def_term self.now.program.defs.list) name.now ≡ option_map numbered_term result }
    {
        let number = *self.numbers.get(name.as_str())?;
        match self.checked.program().defs.as_slice().get(number) {
            Some(def) => Some(Found { number, def }),
            None => unreachable!(),
        }
    }

    /// The parameters and the body of the function of a name, where its first definition is one.
    pub fn function(&self, name: &TaskText) -> Option<(&[Param], &Host)>
        ensures { function_in (map def_term self.now.program.defs.list) name.now
            ≡ option_map (λ f. function_term (map param_term f.0.now) (host_term f.1.now)) result }
    {
        let found = self.first(name)?;
        match &found.def.what {
            DefBody::Fun(body) => Some((found.def.params.as_slice(), body)),
            DefBody::Task(_) => None,
        }
    }
}

// By each name the number of the first definition that has it: later ones are entered before it.
fn numbers_of(alloc: Global, defs: &[Def]) -> Result<HashMap<String, usize>, OutOfMemory>
    ensures { IfOk result (λ numbers. AreNumbers numbers (map def_term defs.now)) }
{
    let mut numbers = HashMap::new(alloc);
    let mut left = defs.len();
    while left > 0 {
        left -= 1;
        let name = String::from_str(alloc, defs[left].name.as_str())?;
        numbers.insert(name, left)?;
    }
    Ok(numbers)
}
