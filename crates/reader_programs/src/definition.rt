ghost use Rattle.std.specs.Prelude.{◌≡◌, ◌+◌, ◌<◌, ◌≤◌, ◌^◌, ℕ, ◌∷◌, length, map, IfOk, IfErr};
ghost use Rattle.exact_reading.specs.Reading.{seen};
ghost use Rattle.task_model.specs.declared.keyword.Keyword.TheVariants as words;
ghost use Rattle.task_model.specs.Syntax.Lexemes as terms;
ghost use Rattle.task_model.specs.Syntax.Grammar as grammar;
ghost use Rattle.reader_grammar.specs.Languages.{Reads};
ghost use Rattle.reader_grammar.specs.Parts.{lexemes, measured, shown_host, parts_term};
ghost use Rattle.reader_programs.specs.Definitions.{shown_meaning, shown_definition, shown_parameters};
ghost use Rattle.reader_tasks.specs.Tasks.{shown_task, parsed_task};
ghost use Rattle.task_model.specs.Terms.Program.{def_body_term};
ghost use Rattle.reader_programs.specs.DefinitionKeywords.{word_of};

use crate::definition_words::DefinitionWord;
use crate::parameters::{Parameters, enclosed_parameters};
use exact_reading::ParseStop;
use reader_expressions::expression;
use reader_grammar::{
    Measured, Parsed, Parts, PositionedToken, basic, expect_name, expect_symbol, joined, name_text,
};
use reader_task_forms::task;
use reader_tasks::parameter_scope;
use std::alloc::Global;
use std::collections::VecDeque;
use task_model::{Body, Def, DefBody, Host, Symbol, Task};

/// A definition that was read, the places of its nodes in pre-order, and its bodies in the order in which their texts begin.
#[derive(Drop)]
pub(crate) struct ReadDefinition {
    pub(crate) def: Def,
    pub(crate) places: VecDeque<u64>,
    pub(crate) bodies: VecDeque<Body>,
}

impl ReadDefinition {
    ghost use Rattle.reader_programs.specs.Definitions.{definition_of, function_definition, task_definition};

    /// The definition whose word stands here, of what stands in its body.
    fn of(
        alloc: Global,
        place: u64,
        name: &str,
        parameters: Parameters,
        result_type: Measured,
        body: (DefBody, Parts),
    ) -> Result<ReadDefinition, ParseStop>
        ensures shown { IfOk result (λ r. shown_definition r ≡ definition_of place name.now (shown_parameters parameters)
            (measured result_type) (def_body_term body.0) (parts_term body.1)) }
        ensures memory { IfErr result (λ e. e ≡ ParseStop.Memory) }
    {
        let name = name_text(alloc, name)?;
        let (what, parts) = body;
        let mut places = parameters.places;
        places.push_front(place)?;
        let places = joined(places, parts.places)?;
        Ok(ReadDefinition {
            def: Def {
                name,
                params: parameters.list,
                result: result_type.basic,
                what,
            },
            places,
            bodies: parts.bodies,
        })
    }

    /// The definition of a function.
    fn of_function(
        alloc: Global,
        place: u64,
        name: &str,
        parameters: Parameters,
        result_type: Measured,
        body: Parsed<Host>,
    ) -> Result<ReadDefinition, ParseStop>
        ensures shown { IfOk result (λ r. shown_definition r ≡ function_definition place name.now (shown_parameters parameters)
            (measured result_type) (shown_host body)) }
        ensures memory { IfErr result (λ e. e ≡ ParseStop.Memory) }
    {
        let (body, parts) = body.into_parts();
        let body = (DefBody::Fun(body), parts);
        ReadDefinition::of(alloc, place, name, parameters, result_type, body)
    }

    /// The definition of a task.
    fn of_task(
        alloc: Global,
        place: u64,
        name: &str,
        parameters: Parameters,
        result_type: Measured,
        body: Parsed<Task>,
    ) -> Result<ReadDefinition, ParseStop>
        ensures shown { IfOk result (λ r. shown_definition r ≡ task_definition place name.now (shown_parameters parameters)
            (measured result_type) (parsed_task body)) }
        ensures memory { IfErr result (λ e. e ≡ ParseStop.Memory) }
    {
        let (body, parts) = body.into_parts();
        let body = (DefBody::Task(body), parts);
        ReadDefinition::of(alloc, place, name, parameters, result_type, body)
    }
}

/// What stands behind `fun`.
fn function<'t>(
    alloc: Global,
    room: usize,
    place: u64,
    tokens: &'t [PositionedToken<'t>],
) -> Result<(ReadDefinition, &'t [PositionedToken<'t>]), ParseStop>
    requires { 1 ≤ room }
    ensures { (next : ℕ) → Reads grammar.definition (shown_meaning next) room (terms.keyword words.Fun place ∷ lexemes tokens.now)
        (seen (λ r. (shown_definition r.0, lexemes r.1.now)) result) }
{
    let (name, _, rest) = expect_name(tokens)?;
    let (parameters, rest) = enclosed_parameters(alloc, room, rest)?;
    let (_, rest) = expect_symbol(rest, Symbol::Colon)?;
    let (result, rest) = basic(alloc, room, rest)?;
    let (_, rest) = expect_symbol(rest, Symbol::Define)?;
    let (body, rest) = expression(alloc, room, rest)?;
    let read = ReadDefinition::of_function(alloc, place, name, parameters, result, body)?;
    Ok((read, rest))
}

/// The body of a task with these parameters.
fn body_of_task<'t>(
    alloc: Global,
    room: usize,
    parameters: &Parameters,
    next: u32,
    tokens: &'t [PositionedToken<'t>],
) -> Result<(Parsed<Task>, &'t [PositionedToken<'t>]), ParseStop>
    requires { next + length (lexemes tokens.now) < 2 ^ 32 }
    ensures { Reads grammar.task (shown_task (map (λ q. q.name) parameters.now.list.list) next) room (lexemes tokens.now)
        (seen (λ r. (parsed_task r.0, lexemes r.1.now)) result) }
{
    let scope = parameter_scope(alloc, parameters.list.as_slice())?;
    task(alloc, room, &scope, next, tokens)
}

/// What stands behind `task`.
fn task_definition<'t>(
    alloc: Global,
    room: usize,
    next: u32,
    place: u64,
    tokens: &'t [PositionedToken<'t>],
) -> Result<(ReadDefinition, &'t [PositionedToken<'t>]), ParseStop>
    requires room { 1 ≤ room }
    requires numbers { next + length (lexemes tokens.now) < 2 ^ 32 }
    ensures { Reads grammar.definition (shown_meaning next) room (terms.keyword words.Task place ∷ lexemes tokens.now)
        (seen (λ r. (shown_definition r.0, lexemes r.1.now)) result) }
{
    let (name, _, rest) = expect_name(tokens)?;
    let (parameters, rest) = enclosed_parameters(alloc, room, rest)?;
    let (_, rest) = expect_symbol(rest, Symbol::Colon)?;
    let (result, rest) = basic(alloc, room, rest)?;
    let (_, rest) = expect_symbol(rest, Symbol::Define)?;
    let (body, rest) = body_of_task(alloc, room, &parameters, next, rest)?;
    let read = ReadDefinition::of_task(alloc, place, name, parameters, result, body)?;
    Ok((read, rest))
}

/// What stands behind the word of a definition.
pub(crate) fn definition<'t>(
    alloc: Global,
    room: usize,
    next: u32,
    word: DefinitionWord,
    place: u64,
    tokens: &'t [PositionedToken<'t>],
) -> Result<(ReadDefinition, &'t [PositionedToken<'t>]), ParseStop>
    requires room { 1 ≤ room }
    requires numbers { next + length (lexemes tokens.now) < 2 ^ 32 }
    ensures { Reads grammar.definition (shown_meaning next) room (terms.keyword (word_of word) place ∷ lexemes tokens.now)
        (seen (λ r. (shown_definition r.0, lexemes r.1.now)) result) }
{
    match word {
        DefinitionWord::Function => function(alloc, room, place, tokens),
        DefinitionWord::Task => task_definition(alloc, room, next, place, tokens),
    }
}
