ghost use Rattle.std.specs.Prelude.{◌≡◌, ◌+◌, ◌≤◌, [], ◌∷◌, ◌++◌, drop, length, take, IfOk, OnErr, OnOk};
ghost use Rattle.html_pages.specs.Fragments.{chunks_list};

use crate::chunk::Chunk;
use crate::chunks::{CHUNK, Chunks};
use crate::fragment::Fragment;
use std::alloc::Global;
use std::marker::Model;
use task_model::OutOfMemory;

/// Fragments in order, in chunks that copies and later lists share. Contracts see their list.
#[derive(Drop)]
pub struct Fragments {
    alloc: Global,
    // The shared chunks.
    chunks: Chunks,
    // The fragments behind them, at most `CHUNK`, which no other list shares as a chunk.
    last: Vec<Fragment>,
    // How many fragments there are in all.
    count: usize,
}

impl Model for Fragments {
    ghost use Rattle.std.specs.Prelude.{◌≡◌, ◌++◌, List, length};
    ghost use Rattle.html_pages.specs.Fragments.{FragmentTerm};

    ghost Value = { List FragmentTerm };

    ghost view = { λ f. f.chunks ++ f.last.items };

    ghost invariant = { λ f. f.count ≡ length (f.chunks ++ f.last.items) };
}

impl Fragments {
    /// No fragments, in no memory.
    pub fn new(alloc: Global) -> Fragments
        ensures { result ≡ [] }
    {
        Fragments {
            alloc,
            chunks: Chunks::new(alloc),
            last: Vec::new(alloc),
            count: 0,
        }
    }

    /// Puts a fragment behind the others. It fails only where memory runs out, and changes nothing then.
    pub fn push(&mut self, fragment: Fragment) -> Result<(), OutOfMemory>
        ensures ok { OnOk result (self.new ≡ self.old ++ fragment ∷ []) }
        ensures err { OnErr result (self.new ≡ self.old) }
    {
        let Some(count) = self.count.checked_add(1) else {
            return Err(OutOfMemory);
        };
        if self.last.len() >= CHUNK {
            seal(self.alloc, &mut self.chunks, &mut self.last)?;
        }
        self.last.push(fragment)?;
        self.count = count;
        Ok(())
    }

    /// The same fragments, in the same memory besides that of the list.
    pub fn copy(&self, alloc: Global) -> Result<Fragments, OutOfMemory>
        ensures { IfOk result (λ copy. copy ≡ self.now) }
    {
        let mut copy = Fragments::new(alloc);
        copy.take_over(self, 0, self.len())?;
        Ok(copy)
    }

    /// Puts so many fragments of another list, from a number on, behind the others, in the same memory besides that of the list.
    pub fn take_over(
        &mut self,
        others: &Fragments,
        from: usize,
        count: usize,
    ) -> Result<(), OutOfMemory>
        requires { from + count ≤ length others.now }
        ensures { OnOk result (self.new ≡ self.old ++ take count (drop from others.now)) }
    {
        if count == 0 {
            return Ok(());
        }
        let (chunks, before) = others.chunks.chunks_from(from);
        let last = others.last.as_slice();
        let mut skip = before;
        let mut left = count;
        for chunk in chunks {
            if left == 0 {
                return Ok(());
            }
            let at = skip.min(chunk.len());
            let many = left.min(chunk.len() - at);
            self.take_part(chunk, at, many)?;
            skip -= at;
            left -= many;
        }
        self.push_copies(&last[skip..skip + left])
    }

    /// How many there are.
    pub fn len(&self) -> usize
        ensures { result ≡ length self.now }
    {
        self.count
    }

    // The chunks, and the fragments behind them.
    pub(crate) fn parts(&self) -> (&[Chunk], &[Fragment])
        ensures { chunks_list result.0.now ++ result.1.now ≡ self.now }
    {
        (self.chunks.as_slice(), self.last.as_slice())
    }

    // Puts so many fragments of a chunk, from a number on, behind the others. A whole chunk is shared, and one of which none is taken isn't looked into.
    fn take_part(&mut self, chunk: &Chunk, from: usize, count: usize) -> Result<(), OutOfMemory>
        requires { from + count ≤ length chunk.now }
        ensures { OnOk result (self.new ≡ self.old ++ take count (drop from chunk.now)) }
    {
        if count == 0 {
            return Ok(());
        }
        if count < chunk.len() {
            return self.push_copies(&chunk.as_slice()[from..from + count]);
        }
        self.share_chunk(chunk)
    }

    // Puts the fragments of a chunk behind the others, as a chunk that is shared.
    fn share_chunk(&mut self, chunk: &Chunk) -> Result<(), OutOfMemory>
        ensures { OnOk result (self.new ≡ self.old ++ chunk.now) }
    {
        let Some(count) = self.count.checked_add(chunk.len()) else {
            return Err(OutOfMemory);
        };
        seal(self.alloc, &mut self.chunks, &mut self.last)?;
        self.chunks.push(self.alloc, chunk.copy()?)?;
        self.count = count;
        Ok(())
    }

    // Puts fragments behind the others, each in the memory that it has.
    fn push_copies(&mut self, fragments: &[Fragment]) -> Result<(), OutOfMemory>
        ensures { OnOk result (self.new ≡ self.old ++ fragments.now) }
    {
        for fragment in fragments {
            self.push(fragment.copy()?)?;
        }
        Ok(())
    }
}

// Makes a chunk of the last fragments. It fails only where memory runs out, and changes nothing then.
fn seal(alloc: Global, chunks: &mut Chunks, last: &mut Vec<Fragment>) -> Result<(), OutOfMemory>
    ensures chunks { OnOk result (chunks.new ≡ chunks.old ++ last.old.items) }
    ensures last { OnOk result (last.new.items ≡ []) }
    ensures err_chunks { OnErr result (chunks.new ≡ chunks.old) }
    ensures err_last { OnErr result (last.new.items ≡ last.old.items) }
{
    if last.is_empty() {
        return Ok(());
    }
    let chunk = Chunk::of(alloc, last.as_slice(), &[])?;
    chunks.push(alloc, chunk)?;
    last.truncate(0);
    Ok(())
}
