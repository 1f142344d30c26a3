ghost use Rattle.std.specs.Prelude.{◌≡◌, ◌++◌, length, map, None, MatchResult, IfOk, IfErr};
ghost use Rattle.task_model.specs.Terms.Basic.{basic_term};
ghost use Rattle.task_model.specs.Terms.Program.{kind_term, param_term, def_term, def_body_term, program_term, main_name};
ghost use Rattle.task_model.specs.Checking.Names.{basic_of, first_named};
ghost use Rattle.task_model.specs.Checking.TaskDemands as demands;
ghost use Rattle.task_model.specs.Running.Checked.{checked_term};
ghost use Rattle.task_model.specs.Checking.TaskDemands.{fault_of};
ghost use Rattle.task_model.specs.Syntax.Written.{IsWritten};
ghost use Rattle.task_model.specs.Checking.Accepted.{IsAccepted};
ghost use Rattle.host_types.specs.CheckWords.{seen_program, new_parameter, IsFirstTypeFault, IsChecked, ChecksBody, ChecksParameters, ChecksDefinition};
ghost use Rattle.task_model.specs.Checking.TypeFault.{IsMet};
ghost use Rattle.host_types.specs.Answer.{IsStop};
ghost use Rattle.host_types.specs.Seen.{scope_term};

use crate::calls::Calls;
use crate::compare::sized;
use crate::definitions::Definitions;
use crate::expressions::wanted;
use crate::fault::{CheckStop, next};
use crate::lookups::{arity, fault, room_for_name};
use crate::names::{Names, found};
use crate::tasks::wanted_task;
use std::alloc::Global;
use task_model::{
    Basic, Body, Checked, Def, DefBody, Kind, LaterBodies, Param, Program, Row, TaskText, TypeKind,
    shared,
};

/// The definition of this number is the first one of its name.
fn new_name(
    definitions: &Definitions,
    number: usize,
    node: u64,
    name: &TaskText,
) -> Result<(), CheckStop>
    ensures { MatchResult result
        (λ _. IsMet (demands.new_name node number (first_named 0 (map def_term definitions.now.defs.now) name.now)))
        (IsStop (demands.new_name node number (first_named 0 (map def_term definitions.now.defs.now) name.now))) }
{
    match definitions.named(name) {
        None => Ok(()),
        Some(first) => {
            if first.index == number {
                Ok(())
            } else {
                fault(node, TypeKind::Duplicate)
            }
        }
    }
}

fn basic_in(kind: &Kind) -> &Basic
    ensures { basic_term result.now ≡ basic_of (kind_term kind.now) }
{
    match kind {
        Kind::Plain(basic) => basic,
        Kind::Ref(basic) => basic,
    }
}

/// The parameter has a name of its own, a place in scope, and a type of at most 64 symbols.
fn parameter(scope: &Names, node: u64, param: &Param) -> Result<(), CheckStop>
    ensures { MatchResult result
        (λ _. IsMet (new_parameter (scope_term scope.now) node (param_term param.now)))
        (IsStop (new_parameter (scope_term scope.now) node (param_term param.now))) }
{
    if found(scope, &param.name).is_some() {
        return fault(node, TypeKind::Duplicate);
    }
    room_for_name(scope, node)?;
    sized(node, basic_in(&param.kind))
}

/// A task `main` has no parameters.
fn main_parameters(node: u64, def: &Def) -> Result<(), CheckStop>
    ensures { MatchResult result
        (λ _. IsMet (demands.main_parameters node def.now.name (length (map param_term def.now.params.list)) (def_body_term def.now.what)))
        (IsStop (demands.main_parameters node def.now.name (length (map param_term def.now.params.list)) (def_body_term def.now.what))) }
{
    match &def.what {
        DefBody::Fun(_) => Ok(()),
        DefBody::Task(_) => {
            let params = def.params.as_slice().len();
            if def.name.as_str() == "main" && params != 0 {
                fault(node, arity(0, params))
            } else {
                Ok(())
            }
        }
    }
}

// The body of a definition, of the written type: the number of the node behind it.
fn body(
    alloc: Global,
    definitions: &Definitions,
    bodies: &[Body],
    number: usize,
    scope: &Names,
    node: u64,
    def: &Def,
    types: &mut Row<Basic>,
) -> Result<u64, CheckStop>
    ensures { ChecksBody (seen_program definitions.now bodies.now) number (scope_term scope.now) node (basic_term def.now.result)
        (def_body_term def.now.what)
        (map basic_term types.old.list) (map basic_term types.new.list) result }
{
    let calls = Calls {
        definitions,
        below: Some(number),
    };
    match &def.what {
        DefBody::Fun(e) => wanted(alloc, &calls, scope, node, e, &def.result),
        DefBody::Task(t) => {
            let later = LaterBodies { first: 0, bodies };
            wanted_task(alloc, &calls, &later, scope, node, t, &def.result, types)
        }
    }
}

// A definition, from these parameters on: the number of the node behind it.
fn from_parameters(
    alloc: Global,
    definitions: &Definitions,
    bodies: &[Body],
    number: usize,
    scope: &Names,
    first: u64,
    node: u64,
    params: &[Param],
    def: &Def,
    types: &mut Row<Basic>,
) -> Result<u64, CheckStop>
    ensures { ChecksParameters (seen_program definitions.now bodies.now) number first (def_term def.now) (scope_term scope.now) node
        (map param_term params.now)
        (map basic_term types.old.list) (map basic_term types.new.list) result }
{
    match params {
        [] => {
            sized(first, &def.result)?;
            main_parameters(first, def)?;
            body(alloc, definitions, bodies, number, scope, node, def, types)
        }
        [param, others @ ..] => {
            parameter(scope, node, param)?;
            let behind = next(node)?;
            let within = (&*scope).with(&param.name, &param.kind);
            from_parameters(
                alloc,
                definitions,
                bodies,
                number,
                &within,
                first,
                behind,
                others,
                def,
                types,
            )
        }
    }
}

// A definition: the number of the node behind it.
fn definition(
    alloc: Global,
    definitions: &Definitions,
    bodies: &[Body],
    number: usize,
    node: u64,
    def: &Def,
    types: &mut Row<Basic>,
) -> Result<u64, CheckStop>
    ensures { ChecksDefinition (seen_program definitions.now bodies.now) number node (def_term def.now) (map basic_term types.old.list)
        (map basic_term types.new.list) result }
{
    new_name(definitions, number, node, &def.name)?;
    let behind = next(node)?;
    from_parameters(
        alloc,
        definitions,
        bodies,
        number,
        &Names::Empty,
        node,
        behind,
        def.params.as_slice(),
        def,
        types,
    )
}

// There is a task `main`.
fn has_main(definitions: &Definitions, node: u64) -> Result<(), CheckStop>
    ensures { MatchResult result
        (λ _. IsMet (demands.main_kind node (first_named 0 (map def_term definitions.now.defs.now) main_name)))
        (IsStop (demands.main_kind node (first_named 0 (map def_term definitions.now.defs.now) main_name))) }
{
    match definitions.main() {
        None => fault(node, TypeKind::NoMain),
        Some(first) => match &first.def.what {
            DefBody::Fun(_) => fault(node, TypeKind::NoMain),
            DefBody::Task(_) => Ok(()),
        },
    }
}

fn all_definitions(
    alloc: Global,
    definitions: &Definitions,
    bodies: &[Body],
    types: &mut Row<Basic>,
) -> Result<(), CheckStop>
    ensures { MatchResult result
        (λ _. IsChecked (demands.demands_of (seen_program definitions.now bodies.now))
        (map basic_term types.old.list ++ demands.types_of (seen_program definitions.now bodies.now)) (map basic_term types.new.list))
        (IsStop (demands.demands_of (seen_program definitions.now bodies.now))) }
{
    let mut node = 0;
    for (number, def) in definitions.defs.iter().enumerate() {
        node = definition(alloc, definitions, bodies, number, node, def, types)?;
    }
    has_main(definitions, node)
}

// The types of the `edit` and `share` nodes of a program, where every demand is met.
fn types_of(alloc: Global, program: &Program) -> Result<Row<Basic>, CheckStop>
    requires { IsWritten (program_term program.now) }
    ensures { MatchResult result
        (λ r. IsAccepted (record { program = program_term program.now; types = map basic_term r.list }))
        (IsFirstTypeFault (program_term program.now)) }
{
    let definitions = Definitions::new(alloc, program.defs.as_slice())?;
    let mut types = Row::new(alloc);
    all_definitions(alloc, &definitions, program.bodies.as_slice(), &mut types)?;
    Ok(types)
}

/// The program with the types of its `edit` and `share` nodes, where it is accepted, or the node and kind of the first demand that isn't
/// met (docs/LANGUAGE.md, "Faults of types"). For `NoMain` the node is the number of all nodes. The program is consumed.
pub fn check(alloc: Global, program: Program) -> Result<Checked, CheckStop>
    requires { IsWritten (program_term program) }
    ensures program { IfOk result (λ c. c.program ≡ program) }
    ensures accepted { IfOk result (λ c. IsAccepted (checked_term c)) }
    ensures fault { IfErr result (IsFirstTypeFault (program_term program)) }
    ensures only { fault_of (program_term program) ≡ None → IfErr result (λ e. e ≡ CheckStop.Memory) }
{
    let types = types_of(alloc, &program)?;
    Ok(Checked::of(shared(alloc, program)?, types))
}
