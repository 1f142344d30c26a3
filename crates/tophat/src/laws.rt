ghost use Rattle.std.specs.Prelude.{◌≡◌, ◌⊎◌, ◌++◌, ℕ, List, [], ◌∷◌, Option, Some};
ghost use Rattle.task_model.specs.Terms.Text.{Text};
ghost use Rattle.task_model.specs.Terms.Tree.{State};
ghost use Rattle.task_model.specs.Running.Checked.{CheckedTerm};
ghost use Rattle.task_model.specs.Checking.Accepted.{typed_program};
ghost use Rattle.task_model.specs.Terms.Program.{ProgramTerm};
ghost use Rattle.task_model.specs.Syntax.Printed.{program_text};
ghost use Rattle.task_model.specs.Terms.Item.{ItemTerm, opened};
ghost use Rattle.task_model.specs.Running.State.{IsLegal, IsPage};
ghost use Rattle.task_model.specs.declared.widget.Face.TheVariants as faces;
ghost use Rattle.command_words.specs.Commands.{CommandTerm, run};
ghost use Rattle.tophat.specs.Ending.{status_of};
ghost use Rattle.tophat.specs.Verdict.{Verdict, IsVerdict, IsVerdictOf, accepted};
ghost use Rattle.tophat.specs.Top.{Limits, NeedsMore, Report, Reports, ReportsLines, limits, runs, source_of, world_at};
ghost use Rattle.tophat.specs.Worked.{IfSilent};
ghost use Rattle.tophat.specs.Promise.{IsCutShort, Promised};
ghost use Rattle.tophat.specs.Complete.{AnswersAll, IsRunnable, ReportsAll, lines_of};
ghost use Rattle.history_lines.specs.AskAgain.{AskAgain};
ghost use Rattle.tophat.specs.Replay.{IsReplayable, replay_script, replayed};
ghost use Rattle.world_answers.specs.declared.line_form.LineForm.{LineForm};
ghost use Rattle.tophat.specs.SameHistory.{AskFor, LinesLeadTo};
ghost use Rattle.world_core.specs.World.{WorldTerm};
ghost use Rattle.input_lines.specs.ScriptLines.{LineTerm};
ghost use Rattle.line_frame.specs.declared.finish.Finish.{Finish};
ghost use Rattle.line_frame.specs.declared.finish.Finish.TheVariants as finishes;
ghost use Rattle.tophat.specs.declared.ending.CommandEnding.{CommandEnding};
ghost use Rattle.tophat.specs.declared.ending.CommandEnding.TheVariants as endings;
ghost use Rattle.tophat.specs.declared.no_world.NoWorld.TheVariants as reasons;
ghost use Rattle.tophat.specs.declared.refusal.Refusal.{Refusal};

/// A plain command has exactly one report on a file, a verdict on its source and a script, and there is one on each first part of a script.
/// Of a command that needs more nothing is reported.
pub fn one_report()
    ensures some { (l : Limits) (command : Option CommandTerm) (file : Option Text) (verdict : Verdict) (script : Text) →
        (NeedsMore command → ⊥) → (report : Report) × Reports l command file verdict script report }
    ensures one { (l : Limits) (command : Option CommandTerm) (file : Option Text) (verdict : Verdict) (script : Text) (one other : Report)
        →
        Reports l command file verdict script one → Reports l command file verdict script other → one ≡ other }
    ensures nothing { (l : Limits) (command : Option CommandTerm) (file : Option Text) (verdict : Verdict) (script : Text) (report : Report)
        → NeedsMore command → Reports l command file verdict script report → ⊥ }
    ensures lines { (l : Limits) (command : Option CommandTerm) (file : Option Text) (verdict : Verdict) (lines : List Text)
        (finish : Finish) → (NeedsMore command → ⊥) → (report : Report) × ReportsLines l command file verdict lines finish report }
{}

/// Where a file has an accepted program whose opening has a state, and the script and each of its lines are within their limits and in the
/// form, a run of lines of that form is reported to answer every line and to end with the script.
pub fn all_lines_are_answered()
    ensures { (form : LineForm) (name : Text) (budget : ℕ) (bytes script : Text) (c : CheckedTerm) (s : State) (report : Report) →
        IsRunnable form limits budget bytes script c s → Reports limits (Some (runs form name budget)) (Some bytes) (accepted c) script report →
        ReportsAll form (world_at c budget s) (lines_of script) report }
{}

/// Lines that are answered lead to a world. What they ask for leads to one world alone, with one history, in each form: script lines and
/// JSON that ask for the same inputs give the same history.
pub fn forms_lead_alike()
    ensures lead { (form : LineForm) (w : WorldTerm) (lines : List Text) (text : Text) → AnswersAll form w lines text
        → (asked : List LineTerm) × (v : WorldTerm) × AskFor form lines asked × LinesLeadTo form w asked v }
    ensures alike { (one other : LineForm) (w v : WorldTerm) (asked : List LineTerm) → LinesLeadTo one w asked v → LinesLeadTo other w asked v }
    ensures same { (one other : LineForm) (w v u : WorldTerm) (asked : List LineTerm) → LinesLeadTo one w asked v → LinesLeadTo other w asked u
        → v ≡ u }
{}

/// The printed lines of a legal history ask for its entries, and its printed program is accepted again. The run of that program within the
/// history's budget, on those lines and then the line that asks for a seat's page, is reported to take every entry again, and to show
/// that seat's page of the history.
pub fn histories_are_replayed()
    ensures entries { (p : ProgramTerm) (budget : ℕ) (items : List ItemTerm) → IsLegal (opened p budget ∷ items) → AskAgain items }
    ensures program { (p : ProgramTerm) (budget : ℕ) (items : List ItemTerm) (seat : ℕ) → IsReplayable limits p budget items seat →
        IsVerdict (program_text p) (accepted (typed_program p)) }
    ensures report { (name : Text) (p : ProgramTerm) (budget : ℕ) (items : List ItemTerm) (seat : ℕ) (page : Text) →
        IsReplayable limits p budget items seat → IsPage faces.Text (opened p budget ∷ items) seat page →
        Reports limits (Some (run name budget)) (Some (program_text p)) (accepted (typed_program p)) (replay_script items seat)
        (replayed items page) }
{}

/// Where the objects tell their bytes and the status is none of 5, 6 and 8, it is the reported one, and all that is reported was written.
pub fn all_was_written()
    ensures { (l : Limits) (command : Option CommandTerm) (file : Option Text) (script before : Text) (now : Option Text) (status : ℕ) →
        Promised l command (Some file) (Some script) (Some before) now status → (IsCutShort status → ⊥) → (verdict : Verdict) →
        IsVerdictOf (source_of command file) verdict → (report : Report) → Reports l command file verdict script report →
        (status ≡ status_of report.ending) × (now ≡ Some (before ++ report.output)) }
{}

/// The ends of each status (docs/FORMATS.md, "Statuses"), and where no output is reported: at all ends but those of scripts and of written
/// texts.
pub fn statuses_tell_ends()
    ensures zero { (ending : CommandEnding) → status_of ending ≡ 0 → (ending ≡ endings.Ran finishes.Done) ⊎ (ending ≡ endings.Wrote) }
    ensures one { (ending : CommandEnding) → status_of ending ≡ 1 → (place : ℕ) × (refusal : Refusal)
        × (ending ≡ endings.Unopened (reasons.Refused place refusal)) }
    ensures two { (ending : CommandEnding) → status_of ending ≡ 2 → ending ≡ endings.Usage }
    ensures three { (ending : CommandEnding) → status_of ending ≡ 3 → (line : ℕ) × (column : ℕ)
        × (ending ≡ endings.Ran (finishes.Bad line column)) }
    ensures four { (ending : CommandEnding) → status_of ending ≡ 4 → ending ≡ endings.Unopened reasons.OverBudget }
    ensures five { (ending : CommandEnding) → status_of ending ≡ 5 → (ending ≡ endings.FileFault) ⊎ (ending ≡ endings.Ran finishes.ReadFault) }
    ensures six { (ending : CommandEnding) → status_of ending ≡ 6 → (ending ≡ endings.Ran finishes.WriteFault) ⊎ (ending ≡ endings.WriteFault) }
    ensures seven { (ending : CommandEnding) → status_of ending ≡ 7 → (ending ≡ endings.Absent) ⊎ ((ending ≡ endings.FileTooLong)
        ⊎ (ending ≡ endings.Ran finishes.InputTooLong)) }
    ensures eight { (ending : CommandEnding) → status_of ending ≡ 8 → (ending ≡ endings.Unopened reasons.Memory)
        ⊎ (ending ≡ endings.Ran finishes.Memory) }
    ensures nine { (ending : CommandEnding) → status_of ending ≡ 9 → ending ≡ endings.GateFault }
    ensures silent { (l : Limits) (command : Option CommandTerm) (file : Option Text) (verdict : Verdict) (script : Text) (report : Report)
        → Reports l command file verdict script report → IfSilent report.ending (report.output ≡ []) }
{}
