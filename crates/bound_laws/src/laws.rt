ghost use Rattle.std.specs.Prelude.{ℕ, ◌≤◌, Some};
ghost use Rattle.task_model.specs.Terms.Program.{ProgramTerm};
ghost use Rattle.task_model.specs.Running.State.{IsBudget};
ghost use Rattle.task_model.specs.Checking.Accepted.{IsAccepted, typed_program};
ghost use Rattle.stride_bound.specs.declared.bounds.Bound.{Bound};
ghost use Rattle.stride_bound.specs.Bounds.{IsBound};
ghost use Rattle.bound_laws.specs.Promises.{NothingCostsMore, IsAlwaysWithin};

/// Where an accepted program has a bound, nothing that it is asked for costs more: neither its opening nor, at the state of any history,
/// an input, settling or the test of an offer.
pub fn nothing_costs_more()
    ensures { (p : ProgramTerm) (b : Bound) → IsAccepted (typed_program p) → IsBound p (Some b) → NothingCostsMore p b }
{}

/// Where its bound is within a budget and at most 1,000 high, an accepted program opens within that budget, and at no history any outcome
/// or offer is over it, nor does a widget say so of a test.
pub fn bounds_hold()
    ensures { (p : ProgramTerm) (b : Bound) (budget : ℕ) → IsAccepted (typed_program p) → IsBound p (Some b) → IsBudget budget →
        b.units ≤ budget → b.height ≤ 1000 → IsAlwaysWithin p budget }
{}
