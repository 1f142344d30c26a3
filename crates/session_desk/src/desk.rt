ghost use Rattle.std.specs.Prelude.{◌≡◌, ◌≤◌, ◌<◌, ℕ, Err, IfOk, OnErr};
ghost use Rattle.outer_io.specs.Causes.{Rose, next_count};
ghost use Rattle.task_model.specs.Terms.Input.{input_term};
ghost use Rattle.task_model.specs.Running.Outcome.{not_offered, over_budget};
ghost use Rattle.task_model.specs.Running.State.{version_of};
ghost use Rattle.task_model.specs.declared.stops.ActStop.TheVariants.{NotOffered, Over};
ghost use Rattle.session_desk.specs.declared.page_stop.PageStop.TheVariants.{Ahead};
ghost use Rattle.session_desk.specs.declared.view_stop.ViewStop.TheVariants.{NoEntry};
ghost use Rattle.session_desk.specs.Desks.{DeskTerm, IsTakenBy, KeepsEntries, ShowsPage};
ghost use Rattle.session_desk.specs.Outcomes.{HasOutcome};

use crate::page_stop::PageStop;
use crate::view_stop::ViewStop;
use html_pages::Page;
use std::alloc::Global;
use std::sync::Wait;
use task_model::{ActStop, Face, Input};

/// A seat at a world, by what a connection may do there (docs/RULES.md, "Desks"). Contracts see the history that it
/// has seen: it is legal after each call, and only grows.
pub trait Desk {
    // Its seat, what it has seen, its own entries, and its counts.
    ghost at: { Self → DeskTerm };

    /// The seat, 1 to 64.
    fn seat(&self) -> u8
        ensures { result ≡ (at self.now).seat };

    /// The number of entries in the history that it has seen.
    fn seen(&self) -> u64
        ensures { result ≡ version_of (at self.now).seen };

    /// The newest page, without a wait. `NoEntry` comes only where the count of refused entries rose.
    fn page(&mut self, alloc: Global, face: Face) -> Result<Page, ViewStop>
        ensures asked { KeepsEntries (at self.old) (at self.new) (at self.old).page_at_calls }
        ensures ok { IfOk result (λ page. ShowsPage face (at self.new).seen (at self.new).seat page) }
        ensures no_entry { result ≡ Err NoEntry → Rose (at self.old).refusals (at self.new).refusals };

    /// A page of at least this version. `Ahead` comes exactly where the history that is then seen has fewer entries.
    fn page_at<R: Wait>(
        &mut self,
        rt: &R,
        alloc: Global,
        face: Face,
        at_least: u64,
    ) -> Result<Page, PageStop>
        ensures asked { KeepsEntries (at self.old) (at self.new) (next_count (at self.old).page_at_calls) }
        ensures ok { IfOk result (λ page. ShowsPage face (at self.new).seen (at self.new).seat page × (at_least ≤ page.version)) }
        ensures ahead { (have : ℕ) → result ≡ Err (Ahead have) → (have ≡ version_of (at self.new).seen) × (have < at_least) };

    /// Gives an input. Where it is taken the history that is then seen ends with it, and this is its version. Else its
    /// outcome there is as is said, or memory ran out, and the own entries stay.
    fn act<R: Wait>(&mut self, rt: &R, alloc: Global, input: Input) -> Result<u64, ActStop>
        ensures ok { IfOk result (λ version. IsTakenBy (at self.old) (at self.new) (input_term input) version) }
        ensures not_offered { result ≡ Err NotOffered → HasOutcome (at self.new).seen (input_term input) not_offered }
        ensures over { result ≡ Err Over → HasOutcome (at self.new).seen (input_term input) over_budget }
        ensures refused { OnErr result (KeepsEntries (at self.old) (at self.new) (at self.old).page_at_calls) };
}
