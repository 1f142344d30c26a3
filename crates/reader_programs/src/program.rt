ghost use Rattle.std.specs.Prelude.{◌≡◌, ◌<◌, ◌≤◌, ◌^◌, [], length, IfOk, IfErr};
ghost use Rattle.exact_reading.specs.Reading.{seen};
ghost use Rattle.task_model.specs.Syntax.Grammar as grammar;
ghost use Rattle.reader_grammar.specs.Languages.{Reads};
ghost use Rattle.reader_grammar.specs.Parts.{lexemes};
ghost use Rattle.reader_programs.specs.Definitions.{shown_definition, shown_program, shown_definitions, more_shown};

use crate::definition::{ReadDefinition, definition};
use crate::definition_words::definition_word;
use exact_reading::ParseStop;
use reader_grammar::PositionedToken;
use std::alloc::Global;
use task_model::{Body, Def, Row};

/// Definitions that were read, the places of their nodes in pre-order, and their bodies in the order in which their texts begin.
#[derive(Drop)]
pub(crate) struct Definitions {
    pub(crate) defs: Row<Def>,
    pub(crate) places: Vec<u64>,
    pub(crate) bodies: Vec<Body>,
}

impl Definitions {
    /// No definitions.
    fn none(alloc: Global) -> Definitions
        ensures { shown_definitions result ≡ record { defs = []; places = []; bodies = [] } }
    {
        Definitions {
            defs: Row::new(alloc),
            places: Vec::new(alloc),
            bodies: Vec::new(alloc),
        }
    }

    /// The number behind the bodies of these definitions.
    fn number_behind(&self) -> u32
        requires { length (shown_definitions self.now).bodies < 2 ^ 32 }
        ensures { result ≡ length (shown_definitions self.now).bodies }
    {
        self.bodies.len() as u32
    }

    /// These definitions, and one more behind them.
    fn and(self, definition: ReadDefinition) -> Result<Definitions, ParseStop>
        ensures shown { IfOk result (λ r. shown_definitions r ≡ more_shown (shown_definitions self) (shown_definition definition)) }
        ensures memory { IfErr result (λ e. e ≡ ParseStop.Memory) }
    {
        let mut places = self.places;
        let mut other_places = Vec::from(definition.places);
        places.append(&mut other_places)?;
        let mut bodies = self.bodies;
        let mut other_bodies = Vec::from(definition.bodies);
        bodies.append(&mut other_bodies)?;
        let mut defs = self.defs;
        if defs.push(definition.def).is_err() {
            return Err(ParseStop::Memory);
        }
        Ok(Definitions {
            defs,
            places,
            bodies,
        })
    }
}

/// No definitions yet, and all tokens before them.
fn nothing_read<'t>(
    alloc: Global,
    tokens: &'t [PositionedToken<'t>],
) -> (Definitions, &'t [PositionedToken<'t>])
    ensures none { shown_definitions result.0 ≡ record { defs = []; places = []; bodies = [] } }
    ensures rest { result.1.now ≡ tokens.now }
{
    (Definitions::none(alloc), tokens)
}

/// The definitions of a program.
pub(crate) fn program<'t>(
    alloc: Global,
    room: usize,
    tokens: &'t [PositionedToken<'t>],
) -> Result<(Definitions, &'t [PositionedToken<'t>]), ParseStop>
    requires room { 1 ≤ room }
    requires numbers { length (lexemes tokens.now) < 2 ^ 32 }
    ensures { Reads grammar.program shown_program room (lexemes tokens.now) (seen (λ r. (shown_definitions r.0, lexemes r.1.now)) result) }
{
    let (mut all, mut rest) = nothing_read(alloc, tokens);
    while let Some((word, place, after)) = definition_word(rest) {
        let next = all.number_behind();
        let (one, after) = definition(alloc, room, next, word, place, after)?;
        all = all.and(one)?;
        rest = after;
    }
    Ok((all, rest))
}
