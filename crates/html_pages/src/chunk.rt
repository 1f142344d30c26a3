ghost use Rattle.std.specs.Prelude.{◌≡◌, ◌++◌, IfOk, OnOk, length};

use crate::fragment::Fragment;
use std::alloc::Global;
use std::marker::Model;
use std::sync::Arc;
use task_model::{OutOfMemory, share, shared};

/// Fragments in order, in one block of memory that its copies share. Contracts see their list.
#[derive(Drop)]
pub struct Chunk {
    fragments: Arc<Vec<Fragment>>,
    // How many there are: a walk over chunks looks into no block.
    count: usize,
}

impl Model for Chunk {
    ghost use Rattle.std.specs.Arc.{arc_value};
    ghost use Rattle.std.specs.Prelude.{◌≡◌, List, length, vec_items};
    ghost use Rattle.html_pages.specs.Fragments.{FragmentTerm};

    ghost Value = { List FragmentTerm };

    ghost view = { λ c. vec_items (arc_value c.fragments) };

    ghost invariant = { λ c. c.count ≡ length (vec_items (arc_value c.fragments)) };
}

impl Chunk {
    /// These fragments and those behind them, each in the memory that it has.
    pub fn of(alloc: Global, first: &[Fragment], second: &[Fragment]) -> Result<Chunk, OutOfMemory>
        ensures { IfOk result (λ chunk. chunk ≡ first.now ++ second.now) }
    {
        let size = first.len().saturating_add(second.len());
        let mut fragments = Vec::with_capacity(alloc, size)?;
        push_copies(&mut fragments, first)?;
        push_copies(&mut fragments, second)?;
        let count = fragments.len();
        Ok(Chunk {
            fragments: shared(alloc, fragments)?,
            count,
        })
    }

    /// The same fragments, in the same memory. It takes none.
    pub fn copy(&self) -> Result<Chunk, OutOfMemory>
        ensures { IfOk result (λ copy. copy ≡ self.now) }
    {
        Ok(Chunk {
            fragments: share(&self.fragments)?,
            count: self.count,
        })
    }

    /// The fragments.
    pub fn as_slice(&self) -> &[Fragment]
        ensures { result.now ≡ self.now }
    {
        self.fragments.as_slice()
    }

    /// How many there are.
    pub fn len(&self) -> usize
        ensures { result ≡ length self.now }
    {
        self.count
    }
}

fn push_copies(list: &mut Vec<Fragment>, fragments: &[Fragment]) -> Result<(), OutOfMemory>
    ensures { OnOk result (list.new.items ≡ list.old.items ++ fragments.now) }
{
    for fragment in fragments {
        list.push(fragment.copy()?)?;
    }
    Ok(())
}
