ghost use Rattle.std.specs.Prelude.{◌≡◌, ℕ, ◌+◌, ◌++◌, length, map, IfOk, OnOk};
ghost use Rattle.task_model.specs.Terms.Task.{body_term};
ghost use Rattle.task_model.specs.Terms.Program.{def_body_term, def_term, program_term, ProgramTerm};
ghost use Rattle.task_model.specs.Checking.Placed as placed;
ghost use Rattle.task_model.specs.Running.Checked as checked;
ghost use Rattle.task_evaluation.specs.Tables.{definition_firsts};

use crate::counts::{added, nodes_in};
use crate::walk::walk;
use std::alloc::Global;
use task_model::{Body, Def, DefBody, LaterBodies, OutOfMemory, Program, Row};

/// How many nodes each body has. A body's number is below the numbers of those inside it.
pub(crate) fn counts_of(alloc: Global, bodies: &[Body]) -> Result<Vec<u64>, OutOfMemory>
    ensures { IfOk result (λ r. r.items ≡ checked.counts_from 0 (map body_term bodies.now)) }
{
    let mut counts = zeros(alloc, bodies.len())?;
    let mut at = bodies.len();
    while at > 0 {
        at -= 1;
        let own = nodes_in(&counts[at + 1..], at + 1, &bodies[at].task)?;
        counts[at] = own;
    }
    Ok(counts)
}

fn zeros(alloc: Global, count: usize) -> Result<Vec<u64>, OutOfMemory>
    ensures { IfOk result (λ r. length r.items ≡ count) }
{
    let mut zeros = Vec::new(alloc);
    let mut i = 0;
    while i < count {
        zeros.push(0)?;
        i += 1;
    }
    Ok(zeros)
}

fn what_nodes(counts: &[u64], what: &DefBody) -> Result<u64, OutOfMemory>
    ensures { IfOk result (λ n. (p : ProgramTerm) → counts.now ≡ checked.counts_of p → n ≡ checked.what_nodes p (def_body_term what.now)) }
{
    match what {
        DefBody::Fun(_) => Ok(0),
        DefBody::Task(t) => nodes_in(counts, 0, t),
    }
}

/// How many nodes stand before each definition, where these are the counts of the bodies.
pub(crate) fn definitions_of(
    alloc: Global,
    counts: &[u64],
    defs: &[Def],
) -> Result<Row<u64>, OutOfMemory>
    ensures { IfOk result
        (λ r. (p : ProgramTerm) → counts.now ≡ checked.counts_of p → r.list ≡ definition_firsts p 0 (map def_term defs.now)) }
{
    let mut firsts = Row::new(alloc);
    let mut first = 0;
    let mut rest = defs;
    while let [def, more @ ..] = rest {
        firsts.push(first)?;
        first = added(first, what_nodes(counts, &def.what)?)?;
        rest = more;
    }
    Ok(firsts)
}

// The bodies of a definition.
fn walk_what(
    program: &Program,
    what: &DefBody,
    first: u64,
    starts: &mut Row<u64>,
) -> Result<u64, OutOfMemory>
    ensures next { IfOk result (λ n. n ≡ first + placed.what_edits (program_term program.now) (def_body_term what.now)) }
    ensures starts { OnOk result
        (starts.new.list ≡ starts.old.list ++ placed.what_firsts (program_term program.now) first (def_body_term what.now)) }
{
    match what {
        DefBody::Fun(_) => Ok(first),
        DefBody::Task(t) => {
            let later = LaterBodies {
                first: 0,
                bodies: program.bodies.as_slice(),
            };
            walk(&later, t, first, starts)
        }
    }
}

/// How many nodes stand before each body.
pub(crate) fn starts_of(alloc: Global, program: &Program) -> Result<Row<u64>, OutOfMemory>
    ensures { IfOk result (λ r. r.list ≡ placed.firsts_of (program_term program.now)) }
{
    let mut starts = Row::new(alloc);
    let mut first = 0;
    let mut rest = program.defs.as_slice();
    while let [def, more @ ..] = rest {
        first = walk_what(program, &def.what, first, &mut starts)?;
        rest = more;
    }
    Ok(starts)
}
