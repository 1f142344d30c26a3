//! Tables of programs and of calls on them, each with its exact units and height.
//!
//! Each block of lines begins with a program. Each further line is a change of layers, or a call with the units and the height that it
//! takes, the word that it answers, if any, the tree behind it, and the store's values with its layers, the newest first. A call stands
//! behind the lines above it. It is tried with just that work, and with a unit and a rule less, where it has to be over; one that answers
//! `over` with that work alone. A test takes units alone. Behind `clear` the bench is as it was new.

use answering::{Answer, answered, done, is_test};
use showing::{layers_text, state_text};
use std::alloc::Global;
use std::process::Abort;
use std::sync::ledger::Ledger;
use std::test::Fail;
use std::thread;
use task_model::{OutOfMemory, Steps};
use testing_engine::Bench;
use testing_programs::{BlockTest, accepted, is_right, repeated, table_differences};

mod answering;
mod deep;
mod offer_tables;
mod offering;
mod rules;
mod showing;
mod worked;

// The bench behind these lines.
fn replay(alloc: Global, bench: &mut Bench, lines: &str) -> Result<(), OutOfMemory> {
    bench.clear();
    for line in lines.split('\n') {
        done(alloc, bench, line)?;
    }
    Ok(())
}

/// A call behind these lines.
#[derive(Clone, Copy)]
struct Case<'c> {
    alloc: Global,
    lines: &'c str,
    call: &'c str,
}

impl Case<'_> {
    fn answer<L: Ledger>(
        &self,
        bench: &mut Bench,
        units: u32,
        height: u32,
        steps: &mut Steps<L>,
    ) -> Result<Answer, OutOfMemory> {
        replay(self.alloc, bench, self.lines)?;
        answered(self.alloc, bench, self.call, units, height, steps)
    }

    // What is wrong with an answer of less work: it has to be over, with the layers that stood, and where the store has to stay
    // with the values, too.
    fn wrong(&self, bench: &mut Bench, answer: &Answer) -> Result<&'static str, OutOfMemory> {
        replay(self.alloc, bench, self.lines)?;
        let state = state_text(self.alloc, bench)?;
        let layers = layers_text(self.alloc, bench)?;
        let stays = is_test(self.call) || self.call == "failing";
        if answer.word != "over" {
            return Ok(", and with less, too");
        }
        if answer.layers.as_str() != layers.as_str() {
            return Ok(", and with less other layers");
        }
        if stays && answer.state.as_str() != state.as_str() {
            return Ok(", and with less another state");
        }
        Ok("")
    }

    // What is wrong with so much work.
    fn wrong_at<L: Ledger>(
        &self,
        bench: &mut Bench,
        units: u32,
        height: u32,
        steps: &mut Steps<L>,
    ) -> Result<&'static str, OutOfMemory> {
        let answer = self.answer(bench, units, height, steps)?;
        self.wrong(bench, &answer)
    }

    // How it is wrong with a unit less, if there is one.
    fn wrong_with_fewer<L: Ledger>(
        &self,
        bench: &mut Bench,
        units: u32,
        height: u32,
        steps: &mut Steps<L>,
    ) -> Result<&'static str, OutOfMemory> {
        match units.checked_sub(1) {
            Some(fewer) => self.wrong_at(bench, fewer, height, steps),
            None => Ok(""),
        }
    }

    // And with a rule less, if there is one. A test has its whole height.
    fn wrong_with_lower<L: Ledger>(
        &self,
        bench: &mut Bench,
        units: u32,
        height: u32,
        steps: &mut Steps<L>,
    ) -> Result<&'static str, OutOfMemory> {
        match height.checked_sub(1) {
            Some(lower) if !is_test(self.call) => self.wrong_at(bench, units, lower, steps),
            _ => Ok(""),
        }
    }

    // The text of an answer, and how the call is wrong with less.
    fn answer_text<L: Ledger>(
        &self,
        bench: &mut Bench,
        answer: &Answer,
        units: u32,
        height: u32,
        steps: &mut Steps<L>,
    ) -> Result<String, OutOfMemory> {
        if answer.word == "over" {
            let wrong = self.wrong(bench, answer)?;
            return Ok(format!(in self.alloc; "over{wrong}")?);
        }
        let fewer = self.wrong_with_fewer(bench, units, height, steps)?;
        let lower = self.wrong_with_lower(bench, units, height, steps)?;
        answer.text(
            self.alloc,
            !is_test(self.call) && answer.leaves(height),
            fewer,
            lower,
        )
    }

    // What the call answers with so many units and so much height, and how it is wrong with less.
    fn told<L: Ledger>(
        &self,
        bench: &mut Bench,
        units: u32,
        height: u32,
        steps: &mut Steps<L>,
    ) -> Result<String, OutOfMemory> {
        let answer = self.answer(bench, units, height, steps)?;
        self.answer_text(bench, &answer, units, height, steps)
    }
}

/// A line with a call, the units and the height that it takes, and what it answers.
#[derive(Clone, Copy)]
struct Row<'r> {
    line: &'r str,
    call: &'r str,
    units: u32,
    height: u32,
    wanted: &'r str,
}

impl<'r> Row<'r> {
    // None where the line changes layers.
    fn of(line: &'r str) -> Option<Row<'r>> {
        let (call, rest) = line.split_once(": ")?;
        let (work, wanted) = rest.split_once(" => ").unwrap_or((rest, ""));
        let (units, height) = work.split_once(' ').unwrap_or((work, "1000"));
        Some(Row {
            line,
            call,
            units: units.parse::<u32>().unwrap_or(0),
            height: height.parse::<u32>().unwrap_or(0),
            wanted,
        })
    }
}

// The lines with the last one and what was told of it, where something else was wanted.
fn compared(
    alloc: Global,
    lines: (&str, &str),
    told: &str,
    wanted: &str,
) -> Result<String, OutOfMemory> {
    if told == wanted {
        return Ok(String::new(alloc));
    }
    let (above, line) = lines;
    Ok(format!(in alloc; "\n{above}{line}\n{told}\n")?)
}

// The lines and what the call of a row answers behind them, where it should answer something else.
fn difference<L: Ledger>(
    alloc: Global,
    bench: &mut Bench,
    lines: &str,
    row: Row,
    steps: &mut Steps<L>,
) -> Result<String, OutOfMemory> {
    let case = Case {
        alloc,
        lines,
        call: row.call,
    };
    let told = case.told(bench, row.units, row.height, steps)?;
    let wanted = repeated(alloc, row.wanted)?;
    compared(alloc, (lines, row.line), told.as_str(), wanted.as_str())
}

/// The lines of a program that were tried, and what is wrong with them.
#[derive(Drop)]
struct Tried {
    alloc: Global,
    lines: String,
    wrong: String,
}

impl Tried {
    // The line stands above the next ones. Behind `clear` none does.
    fn keep(&mut self, line: &str) -> Result<(), OutOfMemory> {
        if line == "clear" {
            self.lines.clear();
            return Ok(());
        }
        self.lines.push_str(line)?;
        self.lines.push('\n')?;
        Ok(())
    }

    fn add<L: Ledger>(
        &mut self,
        bench: &mut Bench,
        row: Row,
        steps: &mut Steps<L>,
    ) -> Result<(), OutOfMemory> {
        let wrong = difference(self.alloc, bench, self.lines.as_str(), row, steps)?;
        self.wrong.push_str(wrong.as_str())?;
        Ok(())
    }

    fn add_line<L: Ledger>(
        &mut self,
        bench: &mut Bench,
        line: &str,
        steps: &mut Steps<L>,
    ) -> Result<(), OutOfMemory> {
        if let Some(row) = Row::of(line) {
            self.add(bench, row, steps)?;
        }
        self.keep(line)
    }
}

// What is wrong with the calls of a program.
fn calls_differences<L: Ledger>(
    alloc: Global,
    bench: &mut Bench,
    calls: &str,
    steps: &mut Steps<L>,
) -> Result<String, OutOfMemory> {
    let mut tried = Tried {
        alloc,
        lines: String::new(alloc),
        wrong: String::new(alloc),
    };
    for line in calls.split('\n') {
        tried.add_line(bench, line, steps)?;
    }
    Ok(tried.wrong)
}

/// A program, and the calls on it.
struct Programs;

impl BlockTest for Programs {
    fn block_differences<L: Ledger>(
        &self,
        alloc: Global,
        text: &str,
        steps: &mut Steps<L>,
    ) -> Result<String, OutOfMemory> {
        let (program, calls) = text.split_once('\n').unwrap_or((text, ""));
        let source = repeated(alloc, program)?;
        let mut bench = Bench::new(alloc, accepted(alloc, source.as_str())?)?;
        calls_differences(alloc, &mut bench, calls, steps)
    }
}

/// A program, and the offers of its opening within budgets.
struct Openings;

impl BlockTest for Openings {
    fn block_differences<L: Ledger>(
        &self,
        alloc: Global,
        text: &str,
        steps: &mut Steps<L>,
    ) -> Result<String, OutOfMemory> {
        offering::differences(alloc, text, steps)
    }
}

#[test]
fn worked_offers(rt: HostRuntime) -> Result<(), Fail> {
    let found = table_differences(rt.alloc(), offer_tables::OFFERS, &Openings)?;
    assert!(rt; found.is_empty(), "{}", found.as_str());
    Ok(())
}

fn assert_right(rt: &(impl Abort + AllocGlobal), table: &str) -> Result<(), OutOfMemory> {
    let found = table_differences(rt.alloc(), table, &Programs)?;
    assert!(rt; found.is_empty(), "{}", found.as_str());
    Ok(())
}

#[test]
fn worked_programs(rt: HostRuntime) -> Result<(), Fail> {
    Ok(assert_right(&rt, worked::WORKED)?)
}

#[test]
fn single_rules(rt: HostRuntime) -> Result<(), Fail> {
    Ok(assert_right(&rt, rules::RULES)?)
}

#[test]
fn deep_programs(rt: HostRuntime) -> Result<(), Fail> {
    Ok(assert_right(&rt, deep::DEEP)?)
}

#[test]
fn deep_programs_on_another_thread(rt: HostRuntime) -> Result<(), Fail> {
    let alloc = rt.alloc();
    let other = thread::spawn(&rt, move || is_right(alloc, deep::DEEP, &Programs))?;
    assert!(rt; other.join(&rt));
    Ok(())
}
