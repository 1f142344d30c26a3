ghost use Rattle.std.specs.Prelude.{map};
ghost use Rattle.task_model.specs.Terms.Value.{value_term};

use crate::store::Store;
use task_model::{Reads, Value};

impl Reads for Store<Value> {
    ghost values = { λ s. map value_term s.list };

    fn at(&self, place: u64) -> &Value {
        &self.as_slice()[place as usize]
    }

    fn count(&self) -> u64 {
        self.as_slice().len() as u64
    }
}
