ghost use Rattle.std.specs.Prelude.{◌≡◌, Option};
ghost use Rattle.task_model.specs.Terms.Program.{ProgramTerm};
ghost use Rattle.stride_bound.specs.declared.bounds.Bound.{Bound};
ghost use Rattle.stride_bound.specs.Bounds.{IsBound};

/// Each program has one bound, or has none; never both.
pub fn one_bound()
    ensures exists { (p : ProgramTerm) → (found : Option Bound) × IsBound p found }
    ensures only { (p : ProgramTerm) (found other : Option Bound) → IsBound p found → IsBound p other → found ≡ other }
{}
