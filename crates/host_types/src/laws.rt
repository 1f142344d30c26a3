ghost use Rattle.std.specs.Prelude.{◌≡◌, ℕ, List, [], ◌∷◌, length, None, Some};
ghost use Rattle.task_model.specs.Terms.Basic.{BasicTerm, bool_type, int_type, text_type, list_type};
ghost use Rattle.task_model.specs.Terms.Host.{HostTerm};
ghost use Rattle.task_model.specs.Terms.Program.{ParamTerm, DefTerm};
ghost use Rattle.task_model.specs.Checking.Names.{CallsTerm};
ghost use Rattle.task_model.specs.Checking.TypeFault.{IsMet, mismatch, unguarded, no_main};
ghost use Rattle.task_model.specs.Checking.TypeOf.{type_of, task_type, listed_types};
ghost use Rattle.task_model.specs.Checking.Demands.{all_demands};
ghost use Rattle.task_model.specs.Checking.Typing.{HasType};
ghost use Rattle.task_model.specs.Checking.Limits.{IsSmall, IsWithin};
ghost use Rattle.task_model.specs.Checking.FullTask.{FullTask};
ghost use Rattle.task_model.specs.Checking.TaskDemands.{task_demands, fault_of, types_of};
ghost use Rattle.host_types.specs.Examples.{wrong_sum, endless, no_program, board};
ghost use Rattle.task_model.specs.Checking.Placed.{edit_nodes};
ghost use Rattle.task_model.specs.Checking.TaskTyping.{HasTask, IsTaskWithin};

/// Where every demand of an expression is met, it has its type within the limits.
pub fn met_is_typed()
    ensures typed { (k : CallsTerm) (s : List ParamTerm) (n : ℕ) (e : HostTerm) →
        IsMet (all_demands k s n e) → HasType k s e (type_of k.defs s e) }
    ensures within { (k : CallsTerm) (s : List ParamTerm) (n : ℕ) (e : HostTerm) →
        IsMet (all_demands k s n e) → IsWithin k s e × IsSmall (type_of k.defs s e) }
{}

/// An expression that has a type within the limits meets every demand, and the type is its own.
pub fn typed_is_met()
    ensures { (k : CallsTerm) (s : List ParamTerm) (n : ℕ) (e : HostTerm) (b : BasicTerm) →
        HasType k s e b → IsWithin k s e → IsSmall b → IsMet (all_demands k s n e) × (b ≡ type_of k.defs s e) }
{}

/// Where every demand of a task is met, it has its type, and its parts are within the limits.
pub fn met_task_is_typed()
    ensures typed { (k : CallsTerm) (s : List ParamTerm) (n : ℕ) (t : FullTask) →
        IsMet (task_demands k s n t) → HasTask k s t (task_type k.defs s t) }
    ensures within { (k : CallsTerm) (s : List ParamTerm) (n : ℕ) (t : FullTask) → IsMet (task_demands k s n t) → IsTaskWithin k s t }
{}

/// A task that has a type within the limits meets every demand, and the type is its own.
pub fn typed_task_is_met()
    ensures { (k : CallsTerm) (s : List ParamTerm) (n : ℕ) (t : FullTask) (b : BasicTerm) →
        HasTask k s t b → IsTaskWithin k s t → IsMet (task_demands k s n t) × (b ≡ task_type k.defs s t) }
{}

/// One type is listed for each `edit` and `share` node of a task, those of its bodies among them.
pub fn types_are_counted()
    ensures { (defs : List DefTerm) (s : List ParamTerm) (t : FullTask) → length (listed_types defs s t) ≡ edit_nodes t }
{}

/// First faults and listed types by example.
pub fn examples()
    ensures wrong_sum { fault_of wrong_sum ≡ Some (record { node = 4; kind = mismatch int_type bool_type }) }
    ensures endless { fault_of endless ≡ Some (record { node = 1; kind = unguarded }) }
    ensures no_program { fault_of no_program ≡ Some (record { node = 0; kind = no_main }) }
    ensures board { (fault_of board ≡ None) × (types_of board ≡ list_type text_type ∷ []) }
{}
