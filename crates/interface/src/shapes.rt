ghost use Rattle.std.specs.Prelude.{◌≡◌, IfOk};
ghost use Rattle.task_model.specs.Terms.Basic.{basic_term};
ghost use Rattle.task_model.specs.Terms.Value.{value_term};
ghost use Rattle.task_model.specs.Showing.Widget as model;
ghost use Rattle.task_model.specs.Showing.Widget.{shape_term};

use task_model::{Basic, OutOfMemory, Reads, Shape, Value, copy_basic, copy_value};

/// An editor with its value.
pub fn edit_shape(b: &Basic, v: &Value) -> Result<Shape, OutOfMemory>
    ensures { IfOk result (λ s. shape_term s ≡ model.edit_shape (basic_term b.now) (value_term v.now)) }
{
    let b = copy_basic(b)?;
    Ok(Shape::Edit(b, copy_value(v)?))
}

/// A shared editor with the store's value, or with unit where there is no such place.
pub fn share_shape<R: Reads>(b: &Basic, place: u64, reads: &R) -> Result<Shape, OutOfMemory>
    ensures { IfOk result (λ s. shape_term s ≡ model.share_shape (basic_term b.now) (model.stored (R.values reads.now) place)) }
{
    let b = copy_basic(b)?;
    if place < reads.count() {
        Ok(Shape::Share(b, copy_value(reads.at(place))?))
    } else {
        Ok(Shape::Share(b, Value::Unit))
    }
}
