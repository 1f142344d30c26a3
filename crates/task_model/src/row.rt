ghost use Rattle.std.specs.Prelude.{◌≡◌, [], ◌∷◌, ◌++◌, ◌+◌, ◌-◌, ◌<◌, ◌≤◌, ℕ, length, take, IsOk, OnOk, OnErr};
ghost use Rattle.std.specs.Borrow.{sem};
ghost use Rattle.task_model.specs.Terms.Loans.{LendsItems};

use crate::OutOfMemory;
use std::alloc::Global;
use std::marker::Model;

/// A vector that contracts see as its list and the number of items that it takes with no new memory.
#[derive(Drop)]
pub struct Row<T> {
    items: Vec<T>,
    spare: usize,
}

impl<T> Model for Row<T> {
    ghost use Rattle.std.specs.Prelude.{◌+◌, ◌≤◌, vec_len, vec_capacity};
    ghost use Rattle.task_model.specs.Terms.Rowed.{Rowed, rowed_code};

    ghost Value = { Rowed T };

    ghost coded = { rowed_code T.code };

    ghost view = { λ r. record { list = r.items.items; spare = r.spare } };

    ghost invariant = { λ r. vec_len r.items + r.spare ≤ vec_capacity r.items };
}

impl<T> Row<T> {
    /// A row of nothing. It takes no memory.
    pub fn new(alloc: Global) -> Row<T>
        ensures list { result.list ≡ [] }
        ensures spare { result.spare ≡ 0 }
    {
        Row {
            items: Vec::new(alloc),
            spare: 0,
        }
    }

    /// The items of a vector, in its memory.
    pub fn of_vec(items: Vec<T>) -> Row<T>
        ensures list { result.list ≡ items.items }
        ensures spare { result.spare ≡ 0 }
    {
        Row { items, spare: 0 }
    }

    /// The items, in order.
    pub fn as_slice(&self) -> &[T]
        ensures { result.now ≡ self.now.list }
    {
        self.items.as_slice()
    }

    /// The items, to be changed in place.
    pub fn as_mut_slice(&mut self) -> &mut [T]
        ensures* writes_back { sem 𝓛 (LendsItems T.row self.entry result) }
        ensures value { result.now ≡ self.old.list }
    {
        self.items.as_mut_slice()
    }

    /// Makes room for so many more items. It fails only where memory runs out, and leaves the items as they are.
    pub fn reserve(&mut self, more: usize) -> Result<(), OutOfMemory>
        ensures list { self.new.list ≡ self.old.list }
        ensures ok { OnOk result (more ≤ self.new.spare) }
        ensures err { OnErr result (self.new.spare ≡ self.old.spare) }
    {
        if more <= self.spare {
            return Ok(());
        }
        self.items.reserve(more)?;
        self.spare = more;
        Ok(())
    }
}

impl<T: Drop> Row<T> {
    /// Drops all items but the first so many.
    pub fn truncate(&mut self, most: usize)
        ensures { self.new.list ≡ take most self.old.list }
    {
        self.items.truncate(most);
    }

    /// Puts an item behind the others. It fails only where memory runs out, and changes nothing then.
    pub fn push(&mut self, item: T) -> Result<(), OutOfMemory>
        ensures room { 0 < self.old.spare → IsOk result }
        ensures ok { OnOk result (self.new.list ≡ self.old.list ++ item ∷ []) }
        ensures spare { OnOk result (self.new.spare ≡ self.old.spare - 1) }
        ensures err { OnErr result (self.new ≡ self.old) }
    {
        self.items.push(item)?;
        if self.spare > 0 {
            self.spare -= 1;
        }
        Ok(())
    }
}

impl Row<u8> {
    /// Puts these bytes behind the others. It fails only where memory runs out, and changes nothing then.
    pub fn extend(&mut self, bytes: &[u8]) -> Result<(), OutOfMemory>
        ensures ok { OnOk result (self.new.list ≡ self.old.list ++ bytes.now) }
        ensures err { OnErr result (self.new.list ≡ self.old.list) }
    {
        self.spare = 0;
        self.items.extend_from_slice(bytes)?;
        Ok(())
    }
}
