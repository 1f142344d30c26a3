ghost use Rattle.std.specs.Prelude.{◌≡◌, IfOk, IfSome, IsSome, Some, slice_get};
ghost use Rattle.std.specs.Option.{option_map};
ghost use Rattle.task_model.specs.Terms.Basic.{basic_term};
ghost use Rattle.task_model.specs.Terms.Task.{body_term, task_term};
ghost use Rattle.task_model.specs.Terms.Program.{program_term};
ghost use Rattle.task_model.specs.Running.Checked as checked;
ghost use Rattle.task_model.specs.Running.Checked.{checked_term};
ghost use Rattle.task_evaluation.specs.Called.{seen_callee};
ghost use Rattle.task_evaluation.specs.FirstParts.{parts_at, what_parts};

use crate::callee::Callee;
use crate::counts::number_at;
use crate::first_part::FirstPart;
use crate::parts::{body_parts, definition_parts, task_parts};
use crate::tables::{counts_of, definitions_of, starts_of};
use host_eval::Definitions;
use std::alloc::Global;
use std::marker::Model;
use task_model::{Basic, Body, Checked, DefBody, OutOfMemory, Row, Task, TaskText, copy_basic};

/// An accepted program whose definitions are found by their names, with where its `edit` and `share` nodes stand: how many each body
/// has, how many stand before each definition and each body, and how many each first part in them has.
#[derive(Drop)]
pub struct Engine {
    alloc: Global,
    definitions: Definitions,
    nodes: Vec<u64>,
    firsts: Row<u64>,
    starts: Row<u64>,
    definition_parts: Row<Row<FirstPart>>,
    body_parts: Row<Row<FirstPart>>,
}

impl Model for Engine {
    ghost use Rattle.std.specs.Prelude.{◌≡◌};
    ghost use Rattle.task_model.specs.Running.Checked.{SeenChecked, counts_of};
    ghost use Rattle.task_model.specs.Terms.Program.{program_term, def_term};
    ghost use Rattle.host_eval.specs.contracts.definitions.Definitions as held;
    ghost use Rattle.task_evaluation.specs.Tables.{AreTables, lists};

    ghost Value = { SeenChecked };

    ghost coded = { held.the_row.coded };

    ghost view = { λ e. e.definitions };

    ghost invariant = { λ e. AreTables (program_term e.definitions.program) e.nodes.items e.firsts.list e.starts.list
        (lists e.definition_parts.list) (lists e.body_parts.list) };
}

impl Engine {
    /// The tables are made in one walk of the program each.
    pub fn new(alloc: Global, checked: Checked) -> Result<Engine, OutOfMemory>
        ensures { IfOk result (λ e. e ≡ checked) }
    {
        let definitions = Definitions::new(alloc, checked)?;
        let program = definitions.checked().program();
        let nodes = counts_of(alloc, program.bodies.as_slice())?;
        let firsts = definitions_of(alloc, nodes.as_slice(), program.defs.as_slice())?;
        let starts = starts_of(alloc, program)?;
        let definition_parts = definition_parts(alloc, nodes.as_slice(), program.defs.as_slice())?;
        let body_parts = body_parts(alloc, nodes.as_slice(), program.bodies.as_slice())?;
        Ok(Engine {
            alloc,
            definitions,
            nodes,
            firsts,
            starts,
            definition_parts,
            body_parts,
        })
    }

    /// The program, with its types.
    pub fn checked(&self) -> &Checked
        ensures { result.now ≡ self.now }
    {
        self.definitions.checked()
    }

    /// The program with its definitions by their names.
    pub(crate) fn definitions(&self) -> &Definitions
        ensures { result.now ≡ self.now }
    {
        &self.definitions
    }

    /// Where its tables are, and where trees and values that it makes are put.
    pub fn alloc(&self) -> Global {
        self.alloc
    }

    /// The first parts in a task that may stand anywhere.
    pub fn parts_of(&self, t: &Task) -> Result<Row<FirstPart>, OutOfMemory>
        ensures { IfOk result (λ parts. parts.list ≡ parts_at self.now (task_term t.now)) }
    {
        task_parts(self.alloc, self.nodes.as_slice(), t)
    }

    /// The first parts in a body of the program.
    pub fn parts_of_body(&self, body: u32) -> &[FirstPart]
        requires { IsSome (slice_get (checked_term self.now).program.bodies body) }
        ensures { IfSome (slice_get (checked_term self.now).program.bodies body) (λ own. result.now ≡ parts_at self.now own.task) }
    {
        match self.body_parts.as_slice().get(body as usize) {
            Some(parts) => parts.as_slice(),
            None => unreachable!(),
        }
    }

    // The first parts in a definition of the program.
    fn parts_of_definition(&self, number: usize) -> &[FirstPart]
        requires { IsSome (slice_get (checked_term self.now).program.defs number) }
        ensures { IfSome (slice_get (checked_term self.now).program.defs number)
            (λ def. result.now ≡ what_parts (checked.counts_of (checked_term self.now).program) def.what) }
    {
        match self.definition_parts.as_slice().get(number) {
            Some(parts) => parts.as_slice(),
            None => unreachable!(),
        }
    }

    /// A body of the program.
    pub fn body(&self, body: u32) -> &Body
        requires { IsSome (slice_get (checked_term self.now).program.bodies body) }
        ensures { slice_get (checked_term self.now).program.bodies body ≡ Some (body_term result.now) }
    {
        match self
            .checked()
            .program()
            .bodies
            .as_slice()
            .get(body as usize)
        {
            Some(own) => own,
            None => unreachable!(),
        }
    }

    /// How many `edit` and `share` nodes stand before a body.
    pub fn body_first(&self, body: u32) -> u64
        requires { IsSome (slice_get (checked_term self.now).program.bodies body) }
        ensures { result ≡ checked.body_first (program_term self.now.program) body }
    {
        // The program of a checked one is written, so the table has an entry for each body.
        let _accepted = self.definitions.checked().program();
        number_at(self.starts.as_slice(), body as usize)
    }

    /// The type of a node.
    pub(crate) fn node_type(&self, node: u64) -> Result<Basic, OutOfMemory>
        requires { IsSome (slice_get (checked_term self.now).types node) }
        ensures { IfOk result (λ b. slice_get (checked_term self.now).types node ≡ Some (basic_term b)) }
    {
        match self.checked().types().get(node as usize) {
            Some(b) => copy_basic(b),
            None => unreachable!(),
        }
    }

    /// The task that a call names.
    pub(crate) fn task_named(&self, name: &TaskText) -> Callee<'_>
        requires { IsSome (checked.task_named (program_term self.now.program) name.now) }
        ensures named { checked.task_named (program_term self.now.program) name.now ≡ Some (seen_callee result) }
        ensures parts { result.parts.now ≡ parts_at self.now (task_term result.task.now) }
    {
        match self.called(name) {
            Some(callee) => callee,
            None => unreachable!(),
        }
    }

    // The task of a name, where the first definition of that name is one.
    fn called(&self, name: &TaskText) -> Option<Callee<'_>>
        ensures named { checked.task_named (program_term self.now.program) name.now ≡ option_map seen_callee result }
        ensures parts { IfSome result (λ callee. callee.parts.now ≡ parts_at self.now (task_term callee.task.now)) }
    {
        let found = self.definitions.first(name)?;
        match &found.def.what {
            DefBody::Fun(_) => None,
            DefBody::Task(task) => Some(Callee {
                params: found.def.params.as_slice(),
                task,
                first: number_at(self.firsts.as_slice(), found.number),
                parts: self.parts_of_definition(found.number),
            }),
        }
    }
}

/// The name that a step's body binds.
pub fn binder_of(own: &Body) -> &TaskText
    requires { IsSome (body_term own.now).binder }
    ensures { (body_term own.now).binder ≡ Some result.now }
{
    match &own.binder {
        Some(name) => name,
        None => unreachable!(),
    }
}
