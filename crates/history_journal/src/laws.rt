ghost use Rattle.std.specs.Prelude.{ℕ, List};
ghost use Rattle.task_model.specs.Terms.Item.{ItemTerm};
ghost use Rattle.task_model.specs.Running.State.{IsLegal};
ghost use Rattle.journal_bytes.specs.HistoryRecords.{IsJournalOf};
ghost use Rattle.history_journal.specs.Restarting.{IsBadJournal};

/// Bytes that are a journal of a legal history have no bad place.
pub fn one_end()
    ensures { (bytes : List ℕ) (h : List ItemTerm) (place : ℕ) → IsJournalOf bytes h → IsLegal h → IsBadJournal bytes place → ⊥ }
{}
