ghost use Rattle.std.specs.Prelude.{◌≡◌, ◌<◌, List, length, Some, slice_get};
ghost use Rattle.task_model.specs.Terms.Value.{ValueTerm, value_term};

use crate::value::Value;

/// The values of a store, by their places.
pub trait Reads {
    // The values, in the order of their places.
    ghost values: { Self → List ValueTerm };

    fn at(&self, place: u64) -> &Value
        requires { place < length (values self.now) }
        ensures { slice_get (values self.now) place ≡ Some (value_term result.now) };

    fn count(&self) -> u64
        ensures { result ≡ length (values self.now) };
}
