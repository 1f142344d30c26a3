//! Calls on a bench, and what they answer in words.
use super::showing::{layers_text, state_text};
use literal_text::read_any;
use std::alloc::Global;
use std::sync::ledger::Ledger;
use task_model::{OutOfMemory, Purse, Sign, Steps, Stop, Value};
use testing_engine::Bench;

/// What a call answers: a word, the state behind it with the layers, and what is left of the purse.
#[derive(Drop)]
pub(super) struct Answer {
    pub word: &'static str,
    pub state: String,
    pub layers: String,
    pub units: u32,
    pub height: u32,
}

impl Answer {
    /// Whether units are left, or another height than there was.
    pub(super) fn leaves(&self, height: u32) -> bool {
        self.units > 0 || self.height != height
    }

    /// The word and the state with the layers, and what is wrong.
    pub(super) fn text(
        &self,
        alloc: Global,
        has_more: bool,
        fewer: &str,
        lower: &str,
    ) -> Result<String, OutOfMemory> {
        let mut text = String::from_str(alloc, self.word)?;
        text.push_str(self.state.as_str())?;
        text.push_str(self.layers.as_str())?;
        if has_more {
            text.push_str(", with more left")?;
        }
        text.push_str(fewer)?;
        text.push_str(lower)?;
        Ok(text)
    }
}

// A purse of so many units that has so much height left.
fn purse_of(units: u32, height: u32) -> Purse {
    let mut purse = Purse::new(units);
    for _ in height..purse.height_left() {
        if purse.enter().is_err() {
            return purse;
        }
    }
    purse
}

fn led(answer: Option<Result<(), Stop>>) -> Result<&'static str, OutOfMemory> {
    match answer {
        Some(Ok(())) => Ok(""),
        Some(Err(Stop::Over)) => Ok("over"),
        Some(Err(Stop::Memory)) => Err(OutOfMemory),
        None => Ok("nothing"),
    }
}

fn told(answer: Option<Result<bool, Stop>>) -> Result<&'static str, OutOfMemory> {
    match answer {
        Some(Ok(true)) => Ok("failing "),
        Some(Ok(false)) => Ok("fine "),
        Some(Err(Stop::Over)) => Ok("over"),
        Some(Err(Stop::Memory)) => Err(OutOfMemory),
        None => Ok("nothing"),
    }
}

fn signed(answer: Option<Result<Sign, OutOfMemory>>) -> Result<&'static str, OutOfMemory> {
    match answer {
        Some(Ok(Sign::Yes)) => Ok("yes "),
        Some(Ok(Sign::No)) => Ok("no "),
        Some(Ok(Sign::Over)) => Ok("over"),
        Some(Err(OutOfMemory)) => Err(OutOfMemory),
        None => Ok("nothing"),
    }
}

fn value(alloc: Global, literal: &str) -> Result<Value, OutOfMemory> {
    match read_any(alloc, literal.as_bytes()) {
        Ok(v) => Ok(v),
        Err(_) => Err(OutOfMemory),
    }
}

// A test with a budget.
fn tested<L: Ledger>(
    alloc: Global,
    bench: &mut Bench,
    call: &str,
    budget: u32,
    steps: &mut Steps<L>,
) -> Result<&'static str, OutOfMemory> {
    match call.split_once(' ') {
        Some((_, literal)) => {
            let v = value(alloc, literal)?;
            signed(bench.test_next(&v, budget, steps))
        }
        None => signed(bench.test_side(call == "left", budget, steps)),
    }
}

// A call with a purse, as it is written.
fn called(
    alloc: Global,
    bench: &mut Bench,
    call: &str,
    purse: &mut Purse,
) -> Result<&'static str, OutOfMemory> {
    match call {
        "evaluate main()" => led(bench.start_main(false, purse)),
        "normalise main()" => led(bench.start_main(true, purse)),
        "evaluate" => led(bench.start_first(false, purse)),
        "normalise" => led(bench.start_first(true, purse)),
        "stride" => led(bench.stride(purse)),
        "settle" => led(bench.settle(purse)),
        "failing" => told(bench.failing(purse)),
        _ => match call.split_once(' ') {
            Some(("apply", literal)) => {
                let v = value(alloc, literal)?;
                led(bench.apply(&v, purse))
            }
            _ => Ok("nothing"),
        },
    }
}

/// Whether a call is a test, with a budget of its own.
pub(super) fn is_test(call: &str) -> bool {
    call.starts_with("next ") || call == "left" || call == "right"
}

/// Does a call with so many units and so much height. A test has its whole height.
pub(super) fn answered<L: Ledger>(
    alloc: Global,
    bench: &mut Bench,
    call: &str,
    units: u32,
    height: u32,
    steps: &mut Steps<L>,
) -> Result<Answer, OutOfMemory> {
    let mut purse = purse_of(units, height);
    let word = if is_test(call) {
        tested(alloc, bench, call, units, steps)?
    } else {
        called(alloc, bench, call, &mut purse)?
    };
    let state = state_text(alloc, bench)?;
    let layers = layers_text(alloc, bench)?;
    Ok(Answer {
        word,
        state,
        layers,
        units: purse.units_left(),
        height: purse.height_left(),
    })
}

/// Does a call or a change of layers, with as much work as there may be.
pub(super) fn done(alloc: Global, bench: &mut Bench, line: &str) -> Result<(), OutOfMemory> {
    match line {
        "begin" => bench.begin()?,
        "keep" => bench.keep(),
        "drop" => bench.drop_layer(),
        _ => {
            let (call, _) = line.split_once(": ").unwrap_or((line, ""));
            if !is_test(call) && call != "failing" {
                called(alloc, bench, call, &mut Purse::new(10_000))?;
            }
        }
    }
    Ok(())
}
