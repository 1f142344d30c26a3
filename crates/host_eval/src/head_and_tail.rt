ghost use Rattle.std.specs.Prelude.{◌≡◌, map, IfOk, IsSome, Some};
ghost use Rattle.std.specs.Option.{option_map};
ghost use Rattle.task_model.specs.Terms.Elements.{elements_in};
ghost use Rattle.task_model.specs.Terms.Value.{list_value, as_values, value_term};
ghost use Rattle.host_eval.specs.ValueWords as words;
ghost use Rattle.host_eval.specs.HeadAndTail.{head_and_tail};

use task_model::{Elements, OutOfMemory, Value, copy_value};

/// The first element of a list, and the list of the others.
#[derive(Drop)]
pub struct HeadAndTail {
    pub head: Value,
    pub tail: Value,
}

impl HeadAndTail {
    /// The parts of a list, or none where it is empty. They stand in the list's memory.
    pub fn of(list: &Value) -> Result<Option<HeadAndTail>, OutOfMemory>
        requires fits { IsSome (words.list_parts (value_term list.now)) }
        ensures { IfOk result (λ o. words.list_parts (value_term list.now) ≡ Some (option_map head_and_tail o)) }
    {
        match list {
            Value::List(items) => Ok(HeadAndTail::of_elements(items)?),
            _ => unreachable!(),
        }
    }

    fn of_elements(items: &Elements<Value>) -> Result<Option<HeadAndTail>, OutOfMemory>
        ensures { IfOk result (λ o. words.list_parts (list_value (as_values (map value_term (elements_in items.now))))
            ≡ Some (option_map head_and_tail o)) }
    {
        let [first, ..] = items.as_slice() else {
            return Ok(None);
        };
        let head = copy_value(first)?;
        let tail = Value::List(items.rest()?);
        Ok(Some(HeadAndTail { head, tail }))
    }
}
