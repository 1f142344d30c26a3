ghost use Rattle.std.specs.Prelude.{◌≡◌, ℕ, List, IfOk, IfErr, MatchResult};
ghost use Rattle.task_model.specs.Terms.Program.{ProgramTerm, program_term};
ghost use Rattle.task_model.specs.Syntax.ProgramText.{IsProgramText};
ghost use Rattle.reader_grammar.specs.Faults.{IsReadStop};
ghost use Rattle.task_model.specs.Syntax.Written.{IsWritten};

use reader_programs::Read;
use std::alloc::Global;
use task_syntax::ReadStop;

/// The one program that these bytes are, with the byte places of its nodes, or their first fault. The printed text of a program that was
/// read reads to it again.
pub fn read_program(alloc: Global, bytes: &[u8]) -> Result<Read, ReadStop>
    ensures found { IfOk result (λ r. IsProgramText bytes.now (program_term r.program) r.places.list) }
    ensures only { (p : ProgramTerm) (places : List ℕ) → IsProgramText bytes.now p places
        → MatchResult result (λ r. (p ≡ program_term r.program) × (places ≡ r.places.list)) (λ e. e ≡ ReadStop.Memory) }
    ensures written { IfOk result (λ r. IsWritten (program_term r.program)) }
    ensures fault { IfErr result (IsReadStop bytes.now) }
{
    reader_programs::read_program(alloc, bytes)
}
