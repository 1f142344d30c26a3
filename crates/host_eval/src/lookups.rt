ghost use Rattle.std.specs.Prelude.{◌≡◌, ◌<◌, map, length, IfOk, IsSome, Some, slice_get};
ghost use Rattle.task_model.specs.Terms.Value.{value_term};
ghost use Rattle.task_model.specs.Terms.Env.{slot_term};
ghost use Rattle.task_model.specs.Terms.Host.{host_term};
ghost use Rattle.task_model.specs.Terms.Program.{param_term, def_term};
ghost use Rattle.task_model.specs.Running.Checked.{slot_of};
ghost use Rattle.host_eval.specs.NamesTerm.{IsPaired, names_term};
ghost use Rattle.host_eval.specs.ValueWords as words;

use crate::definitions::Definitions;
use crate::names::Names;
use task_model::{Host, OutOfMemory, Param, Reads, Slot, TaskText, Value, copy_value};

fn slot_named<'e>(names: &Names<'e>, name: &TaskText) -> &'e Slot
    requires paired { IsPaired (names_term names.now) }
    requires named { IsSome (slot_of (names_term names.now) name.now) }
    ensures { slot_of (names_term names.now) name.now ≡ Some (slot_term result.now) }
{
    match names.slot(name) {
        Some(slot) => slot,
        None => unreachable!(),
    }
}

/// The value that a name stands for.
pub(crate) fn value_named(names: &Names, name: &TaskText) -> Result<Value, OutOfMemory>
    requires paired { IsPaired (names_term names.now) }
    requires named { IsSome (words.value_named (names_term names.now) name.now) }
    ensures { IfOk result (λ v. words.value_named (names_term names.now) name.now ≡ Some (value_term v)) }
{
    value_in(slot_named(names, name))
}

fn value_in(slot: &Slot) -> Result<Value, OutOfMemory>
    requires fits { IsSome (words.value_in (slot_term slot.now)) }
    ensures { IfOk result (λ v. words.value_in (slot_term slot.now) ≡ Some (value_term v)) }
{
    match slot {
        Slot::Plain(v) => copy_value(v),
        Slot::Place(_) => unreachable!(),
    }
}

/// The place that a name stands for.
pub fn place_named(names: &Names, name: &TaskText) -> u64
    requires paired { IsPaired (names_term names.now) }
    requires named { IsSome (words.place_named (names_term names.now) name.now) }
    ensures { words.place_named (names_term names.now) name.now ≡ Some result }
{
    place_in(slot_named(names, name))
}

fn place_in(slot: &Slot) -> u64
    requires fits { IsSome (words.place_in (slot_term slot.now)) }
    ensures { words.place_in (slot_term slot.now) ≡ Some result }
{
    match slot {
        Slot::Plain(_) => unreachable!(),
        Slot::Place(place) => *place,
    }
}

/// The value at the place that a name stands for.
pub(crate) fn value_read<R: Reads>(
    names: &Names,
    name: &TaskText,
    reads: &R,
) -> Result<Value, OutOfMemory>
    requires paired { IsPaired (names_term names.now) }
    requires known { IsSome (words.value_read (names_term names.now) name.now (R.values reads.now)) }
    ensures { IfOk result (λ v. words.value_read (names_term names.now) name.now (R.values reads.now) ≡ Some (value_term v)) }
{
    let place = place_named(names, name);
    copy_value(reads.at(place))
}

/// The place of a bare name.
pub(crate) fn place_slot(names: &Names, arg: &Host) -> Slot
    requires paired { IsPaired (names_term names.now) }
    requires known { IsSome (words.place_argument (names_term names.now) (host_term arg.now)) }
    ensures { words.place_argument (names_term names.now) (host_term arg.now) ≡ Some (slot_term result) }
{
    match arg {
        Host::Name(name) => Slot::Place(place_named(names, name)),
        _ => unreachable!(),
    }
}

/// The parameters and the body of the function that a call names.
pub(crate) fn callee<'a>(definitions: &'a Definitions, name: &TaskText) -> (&'a [Param], &'a Host)
    requires known { IsSome (words.function_in (map def_term definitions.now.program.defs.list) name.now) }
    ensures { words.function_in (map def_term definitions.now.program.defs.list) name.now
        ≡ Some (words.function_term (map param_term result.0.now) (host_term result.1.now)) }
{
    match definitions.function(name) {
        Some(callee) => callee,
        None => unreachable!(),
    }
}

/// The truth of a bool.
pub fn truth(v: &Value) -> bool
    requires fits { IsSome (words.truth_of (value_term v.now)) }
    ensures { words.truth_of (value_term v.now) ≡ Some result }
{
    match v {
        Value::Bool(b) => *b,
        _ => unreachable!(),
    }
}
