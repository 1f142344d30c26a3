ghost use Rattle.std.specs.Prelude.{◌≡◌, ℕ, Bool, true, List, [], ◌∷◌, ◌++◌, Option, None, Some};
ghost use Rattle.task_model.specs.Terms.Basic.{BasicTerm};
ghost use Rattle.task_model.specs.Terms.Value.{ValueTerm, value_has};
ghost use Rattle.task_model.specs.Terms.Env.{EnvTerm, plain_slot, empty_env};
ghost use Rattle.task_model.specs.Terms.Host.{HostTerm};
ghost use Rattle.task_model.specs.Terms.Task.{TaskTerm, call_task};
ghost use Rattle.task_model.specs.Terms.Tree.{LaterTerm, TreeTerm, State};
ghost use Rattle.task_model.specs.Terms.Program.{ParamTerm, ProgramTerm, main_name};
ghost use Rattle.task_model.specs.Terms.Input.{InputTerm};
ghost use Rattle.task_model.specs.Terms.Item.{ItemTerm, opened};
ghost use Rattle.task_model.specs.Running.Checked.{CheckedTerm};
ghost use Rattle.task_model.specs.Checking.Names.{CallsTerm};
ghost use Rattle.task_model.specs.Checking.FullTask.{FullTask};
ghost use Rattle.task_model.specs.Checking.TypeOf.{type_of, task_type};
ghost use Rattle.task_model.specs.Checking.Typing.{HasType};
ghost use Rattle.task_model.specs.Checking.TaskTyping.{HasTask};
ghost use Rattle.task_model.specs.Running.Plan.{Judgement, give, gives_value};
ghost use Rattle.task_model.specs.Running.Rules.{value_of, applied, tested, side, trial, rule_of};
ghost use Rattle.task_model.specs.Running.Judgements.{Gives, Evaluates, Applies, Side, Trial, Strides, Settles, Normal};
ghost use Rattle.task_model.specs.Running.Handling.{Handles, Interacts, handles, interacts};
ghost use Rattle.task_model.specs.Running.State.{IsOpening, IsState};
ghost use Rattle.task_model.specs.Checking.Accepted.{IsAccepted, typed_program};
ghost use Rattle.task_model.specs.Checking.ProgramParts.{expression_part, task_part, IsPart};
ghost use Rattle.task_model.specs.Checking.Fits.{StoreHas, EnvHas, any_call, LaterHas, TreeHas, StateHas, Fits};
ghost use Rattle.task_laws.specs.TreePlaces.{HasPlaces};
ghost use Rattle.typing_laws.specs.Assumed.{task_in_place, Typing, Grows, Kept, ExpressionFits, EvaluationFits, main_type};
ghost use Rattle.typing_laws.specs.ProgramFacts.{ProgramFacts};
ghost use Rattle.typing_laws.specs.Well.{MayAsk, Well};

/// Of an accepted program each value that an expression gives has its type, and what a task, a body, a tree or an input leads to has
/// the type that it had, over a list of the places' types that only grows at its end.
pub fn types_are_kept()
    ensures values { (c : CheckedTerm) (i : Typing) (e : HostTerm) (env : EnvTerm) (σ : List ValueTerm) → IsAccepted c →
        ExpressionFits c i e env σ →
        (v : ValueTerm) (n h : ℕ) → Gives c e env σ v n h → value_has v i.type ≡ true }
    ensures tasks { (c : CheckedTerm) (i : Typing) (t : TaskTerm) (env : EnvTerm) (σ : List ValueTerm) → IsAccepted c →
        EvaluationFits c i t env σ →
        (s : State) (n h : ℕ) → Evaluates c t env σ s n h → Kept c i s }
    ensures conts { (c : CheckedTerm) (i : Typing) (k : LaterTerm) (a : BasicTerm) (v : ValueTerm) (σ : List ValueTerm) → IsAccepted c →
        LaterHas c i.places k (Some a) i.type → value_has v a ≡ true → StoreHas σ i.places →
        (s : State) (n h : ℕ) → Applies c k v σ s n h → Kept c i s }
    ensures trials { (c : CheckedTerm) (i : Typing) (k : LaterTerm) (a : BasicTerm) (v : ValueTerm) (σ : List ValueTerm) → IsAccepted c →
        LaterHas c i.places k (Some a) i.type → value_has v a ≡ true → StoreHas σ i.places →
        (s : State) (failing : Bool) (n h : ℕ) → Trial c k v σ (s, failing) n h → Kept c i s }
    ensures sides { (c : CheckedTerm) (i : Typing) (k : LaterTerm) (σ : List ValueTerm) → IsAccepted c →
        LaterHas c i.places k None i.type → StoreHas σ i.places →
        (s : State) (failing : Bool) (n h : ℕ) → Side c k σ (s, failing) n h → Kept c i s }
    ensures strides { (c : CheckedTerm) (i : Typing) (s : State) → IsAccepted c → StateHas c i.places s i.type →
        (t : State) (n h : ℕ) → Strides c s t n h → Kept c i t }
    ensures settling { (c : CheckedTerm) (i : Typing) (s : State) → IsAccepted c → StateHas c i.places s i.type →
        (t : State) (n h : ℕ) → Settles c s t n h → Kept c i t }
    ensures normalising { (c : CheckedTerm) (i : Typing) (t : TaskTerm) (env : EnvTerm) (σ : List ValueTerm) → IsAccepted c →
        EvaluationFits c i t env σ →
        (s : State) (n h : ℕ) → Normal c t env σ s n h → Kept c i s }
    ensures handling { (c : CheckedTerm) (i : Typing) (s : State) (input : InputTerm) → IsAccepted c → StateHas c i.places s i.type →
        (t : State) (n h : ℕ) → Handles c s input t n h → Kept c i t }
    ensures interacting { (c : CheckedTerm) (i : Typing) (s : State) (input : InputTerm) → IsAccepted c → StateHas c i.places s i.type →
        (t : State) (n h : ℕ) → Interacts c s input (Some t) n h → Kept c i t }
{}

/// Where all fits an accepted program no plan gets stuck: no name is missing, and no value of another type, no unknown place and no
/// missing body is met.
pub fn typed_plans_go_on()
    ensures judgements { (c : CheckedTerm) (q : Judgement) → IsAccepted c → MayAsk c q → Well c (rule_of c q) }
    ensures conts { (c : CheckedTerm) (Σ : List BasicTerm) (k : LaterTerm) (a b : BasicTerm) (v : ValueTerm) (σ : List ValueTerm) →
        IsAccepted c →
        LaterHas c Σ k (Some a) b → value_has v a ≡ true → StoreHas σ Σ → Well c (applied c k v σ give) }
    ensures trials { (c : CheckedTerm) (Σ : List BasicTerm) (k : LaterTerm) (a b : BasicTerm) (v : ValueTerm) (σ : List ValueTerm) →
        IsAccepted c →
        LaterHas c Σ k (Some a) b → value_has v a ≡ true → StoreHas σ Σ →
        Well {A = State × Bool} c (tested c k.body (k.slots ++ plain_slot v ∷ []) σ (λ s failing. give (s, failing))) }
    ensures sides { (c : CheckedTerm) (Σ : List BasicTerm) (k : LaterTerm) (b : BasicTerm) (σ : List ValueTerm) → IsAccepted c →
        LaterHas c Σ k None b → StoreHas σ Σ → Well {A = State × Bool} c (tested c k.body k.slots σ (λ s failing. give (s, failing))) }
    ensures next_tests { (c : CheckedTerm) (Σ : List BasicTerm) (k : LaterTerm) (a b : BasicTerm) (v : ValueTerm) (σ : List ValueTerm) →
        IsAccepted c →
        LaterHas c Σ k (Some a) b → value_has v a ≡ true → StoreHas σ Σ → Well c (trial c k v σ) }
    ensures side_tests { (c : CheckedTerm) (Σ : List BasicTerm) (k : LaterTerm) (b : BasicTerm) (σ : List ValueTerm) → IsAccepted c →
        LaterHas c Σ k None b → StoreHas σ Σ → Well c (side c k σ) }
    ensures handling { (c : CheckedTerm) (Σ : List BasicTerm) (s : State) (b : BasicTerm) (input : InputTerm) → IsAccepted c →
        StateHas c Σ s b →
        Well c (handles c s input) }
    ensures interacting { (c : CheckedTerm) (Σ : List BasicTerm) (s : State) (b : BasicTerm) (input : InputTerm) → IsAccepted c →
        StateHas c Σ s b →
        Well c (interacts c s input) }
{}

/// A part of an accepted program is typed in its scope there, whatever reaches it. So an expression that is one may be evaluated in each
/// environment and over each store that fit that scope.
pub fn parts_are_typed()
    ensures tasks { (c : CheckedTerm) (s : List ParamTerm) (t : TaskTerm) → IsAccepted c → IsPart c.program s (task_part t) →
        (b : BasicTerm) × HasTask (any_call c.program) s (task_in_place c.program t) b }
    ensures expressions { (c : CheckedTerm) (s : List ParamTerm) (e : HostTerm) → IsAccepted c → IsPart c.program s (expression_part e) →
        (Σ : List BasicTerm) (env : EnvTerm) (σ : List ValueTerm) → EnvHas Σ env s → StoreHas σ Σ → MayAsk c (gives_value e env σ) }
{}

/// Where a tree has a value, it has the tree's type.
pub fn tree_values_have_the_type()
    ensures { (c : CheckedTerm) (Σ : List BasicTerm) (s : State) (b : BasicTerm) (v : ValueTerm) → StateHas c Σ s b →
        value_of s.tree s.store ≡ Some v → value_has v b ≡ true }
{}

/// The store of a state that fits a program has each place of its tree.
pub fn fitting_trees_have_their_places()
    ensures { (c : CheckedTerm) (s : State) → Fits c s → HasPlaces s.store s.tree }
{}

/// What fits over a list of the places' types fits over one that it has grown to: the list of a fitting store serves all that fitted
/// before.
pub fn grown_lists_serve()
    ensures names { (Σ Σ' : List BasicTerm) (env : EnvTerm) (s : List ParamTerm) → Grows Σ Σ' → EnvHas Σ env s → EnvHas Σ' env s }
    ensures conts { (c : CheckedTerm) (Σ Σ' : List BasicTerm) (k : LaterTerm) (a : Option BasicTerm) (b : BasicTerm) → Grows Σ Σ' →
        LaterHas c Σ k a b → LaterHas c Σ' k a b }
    ensures trees { (c : CheckedTerm) (Σ Σ' : List BasicTerm) (t : TreeTerm) (b : BasicTerm) → Grows Σ Σ' → TreeHas c Σ t b →
        TreeHas c Σ' t b }
{}

/// An expression and a task have one type alone in a scope, whatever their size.
pub fn types_are_unique()
    ensures expressions { (k : CallsTerm) (s : List ParamTerm) (e : HostTerm) (b : BasicTerm) → HasType k s e b → b ≡ type_of k.defs s e }
    ensures tasks { (k : CallsTerm) (s : List ParamTerm) (t : FullTask) (b : BasicTerm) → HasTask k s t b → b ≡ task_type k.defs s t }
{}

/// The functions, tasks and bodies of an accepted program are found by their names and numbers, are typed, and stand where the rules
/// read them.
pub fn definitions_and_bodies_stand()
    ensures { (c : CheckedTerm) → IsAccepted c → ProgramFacts c }
{}

/// `main()` of an accepted program may be evaluated over the empty store, and the opening that it leads to has the type of `main`.
pub fn opening_fits()
    ensures main { (c : CheckedTerm) → IsAccepted c →
        EvaluationFits c (record { places = []; type = main_type c.program }) (call_task main_name []) empty_env [] }
    ensures opening { (c : CheckedTerm) (budget : ℕ) (s : State) → IsAccepted c → IsOpening c budget s →
        (Σ : List BasicTerm) × StateHas c Σ s (main_type c.program) }
{}

/// The state of a history fits its program and has the type of `main`.
pub fn histories_fit()
    ensures { (p : ProgramTerm) (budget : ℕ) (items : List ItemTerm) (t : State) → IsState (opened p budget ∷ items) t →
        (Σ : List BasicTerm) × StateHas (typed_program p) Σ t (main_type p) }
{}
