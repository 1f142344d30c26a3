ghost use Rattle.std.specs.Prelude.{◌≡◌, ◌↔◌, ℕ, List, Some};
ghost use Rattle.task_model.specs.Terms.Value.{ValueTerm};
ghost use Rattle.task_model.specs.Terms.Tree.{TreeTerm, State, at};
ghost use Rattle.task_model.specs.Running.Checked.{CheckedTerm};
ghost use Rattle.task_model.specs.Running.Rules.{value_of};
ghost use Rattle.task_model.specs.Running.Offer.{OfferTerm, AreOffers};
ghost use Rattle.task_model.specs.Running.Address.{Address};
ghost use Rattle.task_model.specs.Showing.Widget.{WidgetTerm, AreWidgets};
ghost use Rattle.kept_nodes.specs.Kept.{addresses, IsKeptNode, IsRedrawn};
ghost use Rattle.kept_nodes.specs.KeptMarks.{untold, TellsKept};
ghost use Rattle.kept_nodes.specs.declared.marks.Marks.{Marks};

use task_laws::foot_alone_decides;

/// A node that is kept has the same value, the same offers and the same widgets as before: so its signs and its fragment are the same.
pub fn kept_nodes_look_alike()
    ensures value { (a : Address) (s s' : State) (k : IsKeptNode a s s') → value_of k.node s.store ≡ value_of k.node s'.store }
    ensures offers { (c : CheckedTerm) (budget : ℕ) (a : Address) (s s' : State) (k : IsKeptNode a s s') (os : List OfferTerm) →
        AreOffers c budget k.node s.store os ↔ AreOffers c budget k.node s'.store os }
    ensures widgets { (c : CheckedTerm) (budget : ℕ) (a : Address) (s s' : State) (k : IsKeptNode a s s') (ws : List WidgetTerm) →
        AreWidgets c budget k.node s.store ws ↔ AreWidgets c budget k.node s'.store ws }
{
    foot_alone_decides();
}

/// So many nodes of a state aren't kept as are told by marks that tell of each one whether it is.
pub fn marks_count()
    ensures { (t u : TreeTerm) (σ τ : List ValueTerm) (m : Marks) → TellsKept σ τ (Some t) u m →
        (n : ℕ) → IsRedrawn (at t σ) (at u τ) n ↔ (n ≡ untold m (addresses u)) }
{}
