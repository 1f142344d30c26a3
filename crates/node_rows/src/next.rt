ghost use Rattle.std.specs.Prelude.{◌≡◌, ◌+◌, ◌-◌, ◌<◌, ◌≤◌, length, IfOk, OnOk};
ghost use Rattle.task_model.specs.Showing.Widget.{shape_term};
ghost use Rattle.node_rows.specs.Rows.{no_rows, row_at, rows_append, rows_closed, rows_part};

use crate::rows::NodeRows;
use std::alloc::Global;
use std::marker::Model;
use std::sync::ledger::Ledger;
use task_model::{OutOfMemory, Shape, Steps};

/// Rows that are drawn one by one, or taken over from older ones, part by part. Contracts see both.
///
/// Fragments of parts that follow each other are taken over at once, so that their chunks are shared whole.
#[derive(Drop)]
pub struct NextRows<'r> {
    older: &'r NodeRows,
    // All signs and sizes, and the fragments in front of the last ones.
    rows: NodeRows,
    // The last fragments: the older ones from a number on, up to another one.
    from: usize,
    to: usize,
}

impl<'r> Model for NextRows<'r> {
    ghost use Rattle.std.specs.Prelude.{◌-◌, ◌≤◌, length};
    ghost use Rattle.node_rows.specs.Rows.{NextRowsTerm, fragments_taken};

    ghost Value = { NextRowsTerm };

    ghost view = { λ n. record { older = n.older.now; rows = fragments_taken n.rows n.from (n.to - n.from) n.older.now } };

    ghost invariant = { λ n. (n.from ≤ n.to) × (n.to ≤ length n.older.now.fragments) };
}

impl<'r> NextRows<'r> {
    /// No rows beside these, and room for the signs and sizes of so many.
    pub fn beside(
        alloc: Global,
        older: &'r NodeRows,
        room: usize,
    ) -> Result<NextRows<'r>, OutOfMemory>
        ensures older { IfOk result (λ next. next.older ≡ older.now) }
        ensures rows { IfOk result (λ next. next.rows ≡ no_rows) }
    {
        let mut rows = NodeRows::new(alloc);
        rows.reserve(room)?;
        Ok(NextRows {
            older,
            rows,
            from: 0,
            to: 0,
        })
    }

    /// The older rows.
    pub fn older(&self) -> &NodeRows
        ensures { result.now ≡ self.now.older }
    {
        self.older
    }

    /// How many rows there are.
    pub fn len(&self) -> usize
        ensures { result ≡ length self.now.rows.sizes }
    {
        self.rows.len()
    }

    /// Draws the widget of a shape at a path, which is given as it is printed, and puts its row behind the others: its node has no parts as yet.
    /// It counts one step.
    pub fn draw<L: Ledger>(
        &mut self,
        alloc: Global,
        path: &str,
        shape: &Shape,
        steps: &mut Steps<L>,
    ) -> Result<(), OutOfMemory>
        ensures older { self.new.older ≡ self.old.older }
        ensures row { OnOk result (self.new.rows ≡ rows_append self.old.rows (row_at path.now (shape_term shape.now))) }
        ensures steps { OnOk result (steps.new ≡ steps.old + 1) }
    {
        self.rows.take_fragments(self.older, self.from, self.to)?;
        self.to = self.from;
        self.rows.draw(alloc, path, shape, steps)
    }

    /// The part of the node of this number is all from there on.
    pub fn close(&mut self, number: usize)
        requires { number < length self.old.rows.sizes }
        ensures older { self.new.older ≡ self.old.older }
        ensures rows { self.new.rows ≡ rows_closed number self.old.rows }
    {
        self.rows.close(number);
    }

    /// Puts the older rows from a number on, up to another one, behind these: nothing is drawn.
    pub fn take_over(&mut self, from: usize, to: usize) -> Result<(), OutOfMemory>
        requires order { from ≤ to }
        requires signs { to ≤ length self.old.older.signs }
        requires sizes { to ≤ length self.old.older.sizes }
        requires fragments { to ≤ length self.old.older.fragments }
        ensures older { self.new.older ≡ self.old.older }
        ensures rows { OnOk result (self.new.rows ≡ rows_append self.old.rows (rows_part from (to - from) self.old.older)) }
    {
        self.rows.take_signs(self.older, from, to)?;
        if from == self.to {
            self.to = to;
            return Ok(());
        }
        self.rows.take_fragments(self.older, self.from, self.to)?;
        self.from = from;
        self.to = to;
        Ok(())
    }

    /// All rows.
    pub fn finish(self) -> Result<NodeRows, OutOfMemory>
        ensures { IfOk result (λ rows. rows ≡ self.entry.rows) }
    {
        let NextRows {
            older,
            mut rows,
            from,
            to,
        } = self;
        rows.take_fragments(older, from, to)?;
        Ok(rows)
    }
}
