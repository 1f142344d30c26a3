ghost use Rattle.std.specs.Prelude.{◌≡◌, ◌+◌, ◌≤◌, [], ◌∷◌, ◌++◌, ℕ, List, length, IfOk, IfErr, MatchResult};
ghost use Rattle.task_model.specs.Terms.Program.{ProgramTerm, program_term};
ghost use Rattle.task_model.specs.Terms.Token.{TokenTerm, HasTokens};
ghost use Rattle.task_syntax.specs.Tokens.{AreTokens, AreSpans};
ghost use Rattle.task_model.specs.Syntax.ProgramText.{IsProgramText};
ghost use Rattle.exact_reading.specs.Reading.{IsWithinLevels};
ghost use Rattle.exact_reading.specs.Whole.{IsFirstFault};
ghost use Rattle.reader_grammar.specs.Faults.{IsProgram, IsReadStop, numbered_place};
ghost use Rattle.task_model.specs.Syntax.Lexemes.{token_terms};
ghost use Rattle.reader_grammar.specs.Parts.{lexemes};
ghost use Rattle.reader_programs.specs.Definitions.{shown_definitions};

use crate::program::{Definitions, program};
use crate::tokens::lexemes_of;
use exact_reading::{FaultKind, ParseStop};
use reader_grammar::PositionedToken;
use std::alloc::Global;
use std::str;
use task_model::{PROGRAM_BYTE_LIMIT, PROGRAM_LEVEL_LIMIT, Program, Row};
use task_syntax::{LexStop, ReadKind, ReadStop, Tokens, lex};

/// A program, and the places of its nodes in pre-order, with the length of its source behind them.
#[derive(Drop)]
pub struct Read {
    pub program: Program,
    pub places: Row<u64>,
}

/// The program of these definitions, and its places, with this one behind them.
fn read_of(all: Definitions, end: u64) -> Result<Read, ReadStop>
    ensures program { IfOk result (λ r. program_term r.program ≡ record
        { defs = (shown_definitions all).defs; bodies = (shown_definitions all).bodies }) }
    ensures places { IfOk result (λ r. r.places.list ≡ (shown_definitions all).places ++ end ∷ []) }
    ensures memory { IfErr result (λ e. e ≡ ReadStop.Memory) }
{
    let mut places = Row::of_vec(all.places);
    if places.push(end).is_err() {
        return Err(ReadStop::Memory);
    }
    let program = Program {
        defs: all.defs,
        bodies: Row::of_vec(all.bodies),
    };
    Ok(Read { program, places })
}

/// The place of a token by its number, or the end of the source.
fn place_at(source: &str, tokens: &[PositionedToken<'_>], token: usize) -> u64
    ensures { result ≡ numbered_place (token_terms (lexemes tokens.now)) token (length source.now) }
{
    if token < tokens.len() {
        tokens[token].from
    } else {
        source.len() as u64
    }
}

/// The first fault of these tokens, which is of this kind and leaves so many of them.
fn fault_of(source: &str, tokens: &[PositionedToken<'_>], kind: FaultKind, left: usize) -> ReadStop
    requires short { length source.now ≤ 1048576 }
    requires has { HasTokens source.now (token_terms (lexemes tokens.now)) }
    requires first { (token : ℕ) × (token + left ≡ length tokens.now) × IsFirstFault IsProgram (IsWithinLevels 200)
        (token_terms (lexemes tokens.now)) kind token }
    ensures { IsReadStop source.now result }
{
    let token = tokens.len() - left;
    let place = place_at(source, tokens, token);
    let kind = match kind {
        FaultKind::Unexpected => ReadKind::Unexpected {
            token: token as u64,
        },
        FaultKind::TooNested => ReadKind::TooNested,
    };
    ReadStop::Fault { place, kind }
}

/// The program of these tokens, or their first fault.
fn read_tokens(
    alloc: Global,
    source: &str,
    tokens: &[PositionedToken<'_>],
) -> Result<Read, ReadStop>
    requires short { length source.now ≤ 1048576 }
    requires has { HasTokens source.now (token_terms (lexemes tokens.now)) }
    ensures found { IfOk result (λ r. IsProgramText source.now (program_term r.program) r.places.list) }
    ensures only { IfOk result (λ r. (p : ProgramTerm) (places : List ℕ) → IsProgramText source.now p places →
        (p ≡ program_term r.program) × (places ≡ r.places.list)) }
    ensures fault { IfErr result (IsReadStop source.now) }
{
    match program(alloc, PROGRAM_LEVEL_LIMIT, tokens) {
        Ok((all, rest)) => {
            if rest.is_empty() {
                return read_of(all, source.len() as u64);
            }
            Err(fault_of(source, tokens, FaultKind::Unexpected, rest.len()))
        }
        Err(ParseStop::Fault { kind, left }) => Err(fault_of(source, tokens, kind, left)),
        Err(ParseStop::Memory) => Err(ReadStop::Memory),
    }
}

/// The text of these bytes, if they are few enough and in UTF-8.
fn source_of(bytes: &[u8]) -> Result<&str, ReadStop>
    ensures short { IfOk result (λ source. length source.now ≤ 1048576) }
    ensures same { IfOk result (λ source. source.now ≡ bytes.now) }
    ensures fault { IfErr result (IsReadStop bytes.now) }
{
    if bytes.len() > PROGRAM_BYTE_LIMIT {
        return Err(ReadStop::Fault {
            place: PROGRAM_BYTE_LIMIT as u64,
            kind: ReadKind::TooLong,
        });
    }
    match str::from_utf8(bytes) {
        Ok(source) => Ok(source),
        Err(error) => Err(ReadStop::Fault {
            place: error.valid_up_to() as u64,
            kind: ReadKind::NotUtf8,
        }),
    }
}

/// The tokens of a source, or the fault of the first that is none.
fn tokens_of(alloc: Global, source: &str) -> Result<Tokens, ReadStop>
    requires short { length source.now ≤ 1048576 }
    ensures tokens { IfOk result (λ r. (ts : List TokenTerm) × HasTokens source.now ts × AreTokens source.now r.list.list ts) }
    ensures spans { IfOk result (λ r. AreSpans 0 r.list.list (length source.now)) }
    ensures fault { IfErr result (IsReadStop source.now) }
{
    match lex(alloc, source) {
        Ok(tokens) => Ok(tokens),
        Err(LexStop::Fault { place, kind }) => Err(ReadStop::Fault {
            place,
            kind: ReadKind::Lex(kind),
        }),
        Err(LexStop::Memory) => Err(ReadStop::Memory),
    }
}

/// The program of a source, or its first fault.
fn read_source(alloc: Global, source: &str) -> Result<Read, ReadStop>
    requires short { length source.now ≤ 1048576 }
    ensures found { IfOk result (λ r. IsProgramText source.now (program_term r.program) r.places.list) }
    ensures only { IfOk result (λ r. (p : ProgramTerm) (places : List ℕ) → IsProgramText source.now p places →
        (p ≡ program_term r.program) × (places ≡ r.places.list)) }
    ensures fault { IfErr result (IsReadStop source.now) }
{
    let tokens = tokens_of(alloc, source)?;
    match lexemes_of(alloc, source, tokens.list.as_slice()) {
        Ok(lexemes) => read_tokens(alloc, source, lexemes.as_slice()),
        Err(_) => Err(ReadStop::Memory),
    }
}

/// The one program that these bytes are, with the places of its nodes, or their first fault.
pub fn read_program(alloc: Global, bytes: &[u8]) -> Result<Read, ReadStop>
    ensures found { IfOk result (λ r. IsProgramText bytes.now (program_term r.program) r.places.list) }
    ensures only { (p : ProgramTerm) (places : List ℕ) → IsProgramText bytes.now p places
        → MatchResult result (λ r. (p ≡ program_term r.program) × (places ≡ r.places.list)) (λ e. e ≡ ReadStop.Memory) }
    ensures fault { IfErr result (IsReadStop bytes.now) }
{
    let source = source_of(bytes)?;
    read_source(alloc, source)
}
