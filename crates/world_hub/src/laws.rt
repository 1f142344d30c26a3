ghost use Rattle.std.specs.Prelude.{◌≡◌, ◌+◌, ◌++◌, ℕ, List, map, slice_get, Some};
ghost use Rattle.task_model.specs.Terms.Text.{Text};
ghost use Rattle.task_model.specs.Terms.Input.{EntryTerm};
ghost use Rattle.task_model.specs.Terms.Item.{took};
ghost use Rattle.input_lines.specs.ScriptLines.{LineTerm};
ghost use Rattle.world_core.specs.World.{WorldTerm};
ghost use Rattle.world_answers.specs.LineAnswers.{AnswersInTurn};
ghost use Rattle.world_answers.specs.declared.line_form.LineForm.TheVariants as forms;
ghost use Rattle.hub_lines.specs.OwnLines.{AddressedTerm, own_lines, own_texts};
ghost use Rattle.world_hub.specs.Hubs.{AreHubTexts};
ghost use Rattle.world_hub.specs.Histories.{AreSomeOf};

/// What is shown of a world, and what becomes of it, depends on the world and on its own lines alone: in two hubs that have it at the same
/// place, over lists of lines that agree in its own, the same texts stand at these.
pub fn own_lines_decide()
    ensures { (place : ℕ) (w : WorldTerm) (worlds others : List WorldTerm) (lines more : List AddressedTerm) (texts answers : List Text)
        (after later : List WorldTerm) → AreHubTexts worlds lines texts after → AreHubTexts others more answers later
        → slice_get worlds place ≡ Some w → slice_get others place ≡ Some w
        → own_lines (place + 1) lines ≡ own_lines (place + 1) more
        → (own_texts (place + 1) lines texts ≡ own_texts (place + 1) more answers) × (slice_get after place ≡ slice_get later place) }
{}

/// A world's history grows by the entries of its own lines that were taken, in order.
pub fn own_histories()
    ensures { (w next : WorldTerm) (lines : List LineTerm) (texts : List Text) → AnswersInTurn forms.Script w lines texts next
        → (entries : List EntryTerm) × AreSomeOf lines entries × (next.history ≡ w.history ++ map took entries) }
{}
