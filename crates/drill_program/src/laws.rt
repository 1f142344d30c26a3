ghost use Rattle.std.specs.Prelude.{◌≡◌, ℤ, pos, List, ◌∷◌};
ghost use Rattle.task_model.specs.Terms.Tree.{State};
ghost use Rattle.task_model.specs.Terms.Item.{ItemTerm, opened};
ghost use Rattle.task_model.specs.Checking.Accepted.{typed_program};
ghost use Rattle.task_model.specs.Running.Outcome.{Outcome, taken, IsOutcome};
ghost use Rattle.task_model.specs.Running.State.{IsOpening, IsState};
ghost use Rattle.drill_program.specs.Drill.{drill_program, drill_budget, drill_state, set_input};

/// The program of a drill opens, and its one location holds 0. Whatever was taken since, the location holds an int, and the tree is an
/// editor of it; there each input that sets an int is taken, and then the location holds that. So none is ever not offered or over the
/// budget.
pub fn drill_inputs_are_taken()
    ensures opens { IsOpening (typed_program drill_program) drill_budget (drill_state (pos 0)) }
    ensures states { (items : List ItemTerm) (s : State) → IsState (opened drill_program drill_budget ∷ items) s →
        (i : ℤ) × (s ≡ drill_state i) }
    ensures taken { (items : List ItemTerm) (s : State) (i : ℤ) (o : Outcome) → IsState (opened drill_program drill_budget ∷ items) s →
        IsOutcome (typed_program drill_program) drill_budget s (set_input i) o → o ≡ taken (drill_state i) }
{}
