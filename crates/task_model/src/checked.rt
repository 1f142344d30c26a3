ghost use Rattle.std.specs.Prelude.{◌≡◌, IfOk};
ghost use Rattle.std.specs.Arc.{arc_value};
ghost use Rattle.task_model.specs.Running.Checked.{SeenChecked, checked_term};
ghost use Rattle.task_model.specs.Checking.Accepted.{IsAccepted};

use crate::basic::Basic;
use crate::memory::{OutOfMemory, share};
use crate::program::Program;
use crate::row::Row;
use std::marker::Model;
use std::sync::Arc;

/// An accepted program, with the types of its `edit` and `share` nodes in pre-order (docs/RULES.md, "Programs").
#[derive(Drop)]
pub struct Checked {
    program: Arc<Program>,
    types: Row<Basic>,
}

impl Model for Checked {
    ghost use Rattle.std.specs.Arc.{arc_value};
    ghost use Rattle.std.specs.Coded.{codes};
    ghost use Rattle.task_model.specs.contracts.basic.Basic as basics;
    ghost use Rattle.task_model.specs.contracts.program.Program as programs;
    ghost use Rattle.task_model.specs.Running.Checked.{SeenChecked, checked_term};
    ghost use Rattle.task_model.specs.Checking.Accepted.{IsAccepted};

    ghost Value = { SeenChecked };

    ghost coded = { Prim.hlevel (codes, basics.the_row.coded, programs.the_row.coded) };

    ghost view = { λ c. record { program = arc_value c.program; types = c.types.list } };

    ghost invariant = { λ c. IsAccepted (checked_term (record { program = arc_value c.program; types = c.types.list })) };
}

impl Checked {
    /// Takes no memory.
    pub fn of(program: Arc<Program>, types: Row<Basic>) -> Checked
        requires { IsAccepted (checked_term (record { program = arc_value program; types = types.list })) }
        ensures { result ≡ record { program = arc_value program; types = types.list } }
    {
        Checked { program, types }
    }

    /// The program, which is written and accepted.
    pub fn program(&self) -> &Program
        ensures program { result.now ≡ self.now.program }
        ensures accepted { IsAccepted (checked_term self.now) }
    {
        &self.program
    }

    /// One more owner of the program. It takes no memory.
    pub fn share_program(&self) -> Result<Arc<Program>, OutOfMemory>
        ensures { IfOk result (λ p. arc_value p ≡ self.now.program) }
    {
        share(&self.program)
    }

    /// The types of its nodes, by the nodes' numbers.
    pub fn types(&self) -> &[Basic]
        ensures { result.now ≡ self.now.types }
    {
        self.types.as_slice()
    }
}
