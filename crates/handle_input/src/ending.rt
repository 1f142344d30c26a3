ghost use Rattle.std.specs.Prelude.{◌≡◌, ◌<◌, ◌∷◌, List, length, OnErr, OnOk};
ghost use Rattle.task_model.specs.declared.value.Value as values;
ghost use Rattle.handle_input.specs.Answers.{plan_answer};

use shared_store::Store;
use task_model::{ActStop, Stop, Value};

/// The end of an input's layer: it is kept where the input was taken, and else what was written is undone.
pub(crate) fn ended<T: Drop>(
    answer: Result<Option<T>, Stop>,
    store: &mut Store<Value>,
) -> Result<T, ActStop>
    requires { 0 < length store.old.layers }
    ensures answer { plan_answer result ≡ answer }
    ensures layers { (σ : List values.Value) (below : List (List values.Value)) → store.old.layers ≡ σ ∷ below → store.new.layers ≡ below }
    ensures kept { OnOk result (store.new.list ≡ store.old.list) }
    ensures undone { (σ : List values.Value) (below : List (List values.Value)) → store.old.layers ≡ σ ∷ below
        → OnErr result (store.new.list ≡ σ) }
{
    match answer {
        Ok(Some(t)) => {
            store.keep();
            Ok(t)
        }
        Ok(None) => {
            store.drop_layer();
            Err(ActStop::NotOffered)
        }
        Err(Stop::Over) => {
            store.drop_layer();
            Err(ActStop::Over)
        }
        Err(Stop::Memory) => {
            store.drop_layer();
            Err(ActStop::Memory)
        }
    }
}
