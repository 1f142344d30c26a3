ghost use Rattle.std.specs.Prelude.{◌≡◌, Err, IfOk, IsNone};
ghost use Rattle.task_model.specs.Terms.Input.{EntryTerm, entry_term};
ghost use Rattle.task_model.specs.Running.State.{IsSeat, version_of};
ghost use Rattle.world_core.specs.World.{WorldTerm, world_term, Replies};
ghost use Rattle.input_lines.specs.ScriptLines.{HasSeat, gives, shows, line_term};
ghost use Rattle.world_answers.specs.LineAnswers.{Answers};
ghost use Rattle.world_answers.specs.declared.line_form.LineForm.TheVariants as forms;

use crate::answer_texts::{not_offered_line, over_budget_line, page_line, taken_line};
use crate::line_form::LineForm;
use crate::rhythm::Rhythm;
use input_lines::Line;
use std::alloc::Global;
use std::sync::ledger::Ledger;
use task_model::{ActStop, Entry, Face, OutOfMemory, Row, Steps};
use world_core::{Taken, World};

/// A world that answers lines of one form. Nothing is prepared in it.
#[derive(Drop)]
pub struct Answering<L: Ledger> {
    form: LineForm,
    world: World,
    steps: Steps<L>,
    rhythm: Rhythm,
    ghost rest: { IsNone world.next },
}

impl<L: Ledger> Answering<L> {
    /// A world in which nothing is prepared, and the form of the lines.
    pub fn new(form: LineForm, world: World, steps: Steps<L>) -> Answering<L>
        requires { IsNone world.next }
        ensures form { result.form ≡ form }
        ensures world { result.world ≡ world }
    {
        Answering {
            form,
            world,
            steps,
            rhythm: Rhythm::new(),
        }
    }

    /// The form of the lines.
    pub fn form(&self) -> LineForm
        ensures { result ≡ self.now.form }
    {
        self.form
    }

    /// The world, back.
    pub fn into_world(self) -> World
        ensures world { result ≡ self.world }
        ensures rest { IsNone result.next }
    {
        self.world
    }

    /// Does what a line asks for: its answer (docs/FORMATS.md, "Answers" and "JSON").
    pub fn answer(&mut self, alloc: Global, line: Line) -> Result<Row<u8>, OutOfMemory>
        requires { HasSeat (line_term line) }
        ensures form { self.new.form ≡ self.old.form }
        ensures answers { IfOk result (λ text. Answers self.old.form (world_term self.old.world) (line_term line) text.list
            (world_term self.new.world)) }
    {
        match line {
            Line::Blank => Ok(Row::new(alloc)),
            Line::Show { seat } => self.show(alloc, seat),
            Line::Act(entry) => self.give(alloc, entry),
        }
    }

    // The page for a seat.
    fn show(&mut self, alloc: Global, seat: u8) -> Result<Row<u8>, OutOfMemory>
        requires { IsSeat seat }
        ensures form { self.new.form ≡ self.old.form }
        ensures answers { IfOk result (λ text. Answers self.old.form (world_term self.old.world) (shows seat) text.list
            (world_term self.new.world)) }
    {
        match self.form {
            LineForm::Script => self.show_text(alloc, seat),
            LineForm::Json => self.show_json(alloc, seat),
        }
    }

    fn show_text(&mut self, alloc: Global, seat: u8) -> Result<Row<u8>, OutOfMemory>
        requires { IsSeat seat }
        ensures form { self.new.form ≡ self.old.form }
        ensures answers { IfOk result (λ text. Answers forms.Script (world_term self.old.world) (shows seat) text.list
            (world_term self.new.world)) }
    {
        let page = self.world.page(alloc, Face::Text, seat, &mut self.steps)?;
        self.rhythm.show();
        Ok(page.into_bytes())
    }

    fn show_json(&mut self, alloc: Global, seat: u8) -> Result<Row<u8>, OutOfMemory>
        requires { IsSeat seat }
        ensures form { self.new.form ≡ self.old.form }
        ensures answers { IfOk result (λ text. Answers forms.Json (world_term self.old.world) (shows seat) text.list
            (world_term self.new.world)) }
    {
        let version = self.world.version();
        let widgets = self.world.widgets(alloc, &mut self.steps)?;
        self.rhythm.show();
        page_line(alloc, version, seat, widgets)
    }

    // Gives an input to the world, and answers what became of it.
    fn give(&mut self, alloc: Global, entry: Entry) -> Result<Row<u8>, OutOfMemory>
        requires { IsSeat entry.seat }
        ensures form { self.new.form ≡ self.old.form }
        ensures answers { IfOk result (λ text. Answers self.old.form (world_term self.old.world) (gives (entry_term entry)) text.list
            (world_term self.new.world)) }
    {
        let reply = self.handle(alloc, entry);
        reply_text(alloc, self.form, reply, self.world.version())
    }

    // Gives an input to the world. Behind a page the state that it leads to is drawn with it.
    fn handle(&mut self, alloc: Global, entry: Entry) -> Result<Taken, ActStop>
        requires { IsSeat entry.seat }
        ensures form { self.new.form ≡ self.old.form }
        ensures replies { Replies (world_term self.old.world) (entry_term entry) (world_term self.new.world) result }
    {
        if !self.rhythm.draws() {
            return self.world.handle(entry.seat, entry.input);
        }
        let taken = self
            .world
            .handle_and_draw(alloc, entry.seat, entry.input, &mut self.steps)?;
        self.rhythm.count();
        Ok(taken)
    }
}

// The answer to an input that the world replied to, and that left it at this version.
fn reply_text(
    alloc: Global,
    form: LineForm,
    reply: Result<Taken, ActStop>,
    version: u64,
) -> Result<Row<u8>, OutOfMemory>
    ensures { (w : WorldTerm) (e : EntryTerm) (new : WorldTerm) → Replies w e new reply → version ≡ version_of new.history
        → IfOk result (λ text. Answers form w (gives e) text.list new) }
{
    match reply {
        Ok(taken) => taken_line(alloc, form, taken.version),
        Err(stop) => refused_text(alloc, form, stop, version),
    }
}

// The answer to an input that the world refused at this version.
fn refused_text(
    alloc: Global,
    form: LineForm,
    stop: ActStop,
    version: u64,
) -> Result<Row<u8>, OutOfMemory>
    ensures { (w : WorldTerm) (e : EntryTerm) (new : WorldTerm) → Replies w e new (Err stop) → version ≡ version_of new.history
        → IfOk result (λ text. Answers form w (gives e) text.list new) }
{
    match stop {
        ActStop::NotOffered => not_offered_line(alloc, form, version),
        ActStop::Over => over_budget_line(alloc, form, version),
        ActStop::Memory => Err(OutOfMemory),
    }
}
