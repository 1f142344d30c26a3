ghost use Rattle.std.specs.Prelude.{◌≤◌, ◌↔◌, IsTrue};
ghost use Rattle.literal_text.specs.LiteralReading.{want_of, fewest, fewest_levels};
ghost use Rattle.task_model.specs.Terms.Basic.{basic_term};

use task_model::Basic;

/// What is read: any literal, or one of a type.
#[derive(Clone, Copy)]
pub(crate) enum Wanted<'a> {
    Any,
    Of(&'a Basic),
}

/// Whether a literal of this kind can have so few levels.
pub(crate) fn fits(wanted: Wanted, room: usize) -> bool
    ensures { IsTrue result ↔ (fewest (want_of wanted.entry) ≤ room) }
{
    match wanted {
        Wanted::Any => room >= 1,
        Wanted::Of(b) => has_room(b, room),
    }
}

fn has_room(b: &Basic, room: usize) -> bool
    ensures { IsTrue result ↔ (fewest_levels (basic_term b.now) ≤ room) }
{
    if room == 0 {
        return false;
    }
    match b {
        Basic::Pair(first, second) => has_room(first, room - 1) && has_room(second, room - 1),
        _ => true,
    }
}
