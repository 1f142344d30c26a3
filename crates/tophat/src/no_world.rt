ghost use Rattle.std.specs.Prelude.{◌≡◌, ◌≤◌, ◌++◌, codes};
ghost use Rattle.outer_io.specs.Causes.{Rose};
ghost use Rattle.outer_io.specs.Sink.{Wrote};
ghost use Rattle.tophat.specs.Ending.{opening_status, opening_text, refusal_text};
ghost use Rattle.tophat.specs.declared.no_world.NoWorld.TheVariants as reasons;
ghost use Rattle.tophat.specs.declared.no_world.NoWorld.TheVariants.{Memory};

use crate::refusal::Refusal;
use itoa::Buffer;
use outer_io::{Sink, Written, write_all, write_four};
use task_model::OutOfMemory;

/// Why the bytes of a program have no world.
#[derive(Drop)]
pub enum NoWorld {
    /// The program is refused, at this byte of its file.
    Refused { place: u64, refusal: Refusal },
    /// The opening has no state within the budget.
    OverBudget,
    /// Memory ran out.
    Memory,
}

impl From<OutOfMemory> for NoWorld {
    ghost from_gives = { λ _ why. why ≡ Memory };

    fn from(_: OutOfMemory) -> NoWorld {
        NoWorld::Memory
    }
}

impl NoWorld {
    /// The status of a command whose program has no world (docs/FORMATS.md, "Statuses").
    pub fn status(&self) -> u8
        ensures { result ≡ opening_status self.now }
    {
        match self {
            NoWorld::Refused { .. } => 1,
            NoWorld::OverBudget => 4,
            NoWorld::Memory => 8,
        }
    }

    /// Writes why the program in the file of this name has no world. It takes no memory.
    pub fn tell<E: Sink>(&self, err: &mut E, name: &[u8]) -> Written
        ensures text { Wrote (E.taken err.old) (E.taken err.new) (opening_text name.now self.now) result }
        ensures count { E.faults err.old ≤ E.faults err.new }
        ensures failed { result ≡ Written.Failed → Rose (E.faults err.old) (E.faults err.new) }
    {
        match self {
            NoWorld::Refused { place, refusal } => write_refusal(err, name, *place, refusal),
            NoWorld::OverBudget => write_all(err, b"tophat: opening over budget\n"),
            NoWorld::Memory => write_all(err, b"tophat: out of memory\n"),
        }
    }
}

// Writes why and where the program in this file is refused.
fn write_refusal<E: Sink>(err: &mut E, name: &[u8], place: u64, refusal: &Refusal) -> Written
    ensures text { Wrote (E.taken err.old) (E.taken err.new) (opening_text name.now (reasons.Refused place refusal.now)) result }
    ensures count { E.faults err.old ≤ E.faults err.new }
    ensures failed { result ≡ Written.Failed → Rose (E.faults err.old) (E.faults err.new) }
{
    let mut places = Buffer::new();
    let place = places.format(place).as_bytes();
    match write_four(err, b"tophat: ", name, b": byte ", place) {
        Written::Whole => write_cause(err, refusal),
        Written::Failed => Written::Failed,
    }
}

// Writes what is wrong with a program, and an LF.
fn write_cause<E: Sink>(err: &mut E, refusal: &Refusal) -> Written
    ensures text { Wrote (E.taken err.old) (E.taken err.new) (codes ": " ++ refusal_text refusal.now ++ codes "\n") result }
    ensures count { E.faults err.old ≤ E.faults err.new }
    ensures failed { result ≡ Written.Failed → Rose (E.faults err.old) (E.faults err.new) }
{
    match write_all(err, b": ") {
        Written::Whole => write_line(err, refusal),
        Written::Failed => Written::Failed,
    }
}

fn write_line<E: Sink>(err: &mut E, refusal: &Refusal) -> Written
    ensures text { Wrote (E.taken err.old) (E.taken err.new) (refusal_text refusal.now ++ codes "\n") result }
    ensures count { E.faults err.old ≤ E.faults err.new }
    ensures failed { result ≡ Written.Failed → Rose (E.faults err.old) (E.faults err.new) }
{
    match refusal.write(err) {
        Written::Whole => write_all(err, b"\n"),
        Written::Failed => Written::Failed,
    }
}
