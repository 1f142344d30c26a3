ghost use Rattle.std.specs.Prelude.{◌≡◌, drop, IfOk};
ghost use Rattle.task_model.specs.Terms.Elements.{elements_in};

use crate::memory::{OutOfMemory, share, shared};
use crate::row::Row;
use std::alloc::Global;
use std::sync::Arc;

/// The elements of a list: a row's items from a place on. Its copies and its rests share that row.
#[derive(Drop)]
pub struct Elements<T> {
    block: Arc<Row<T>>,
    from: usize,
}

impl<T> Elements<T> {
    /// The elements, in order.
    pub fn as_slice(&self) -> &[T]
        ensures { result.now ≡ elements_in self.now }
    {
        let items = self.block.as_slice();
        if self.from > items.len() {
            return &[];
        }
        &items[self.from..]
    }

    /// All elements but the first, in the same memory.
    pub fn rest(&self) -> Result<Elements<T>, OutOfMemory>
        ensures { IfOk result (λ rest. elements_in rest ≡ drop 1 (elements_in self.now)) }
    {
        let block = share(&self.block)?;
        if self.from < self.block.as_slice().len() {
            let from = self.from + 1;
            return Ok(Elements { block, from });
        }
        Ok(Elements {
            block,
            from: self.from,
        })
    }

    /// Equal elements, in the same memory.
    pub fn copy(&self) -> Result<Elements<T>, OutOfMemory>
        ensures { IfOk result (λ copy. elements_in copy ≡ elements_in self.now) }
    {
        let block = share(&self.block)?;
        Ok(Elements {
            block,
            from: self.from,
        })
    }
}

impl<T: Drop> Elements<T> {
    /// The items of a row as elements.
    pub fn of(alloc: Global, row: Row<T>) -> Result<Elements<T>, OutOfMemory>
        ensures { IfOk result (λ all. elements_in all ≡ row.list) }
    {
        Ok(Elements {
            block: shared(alloc, row)?,
            from: 0,
        })
    }
}
