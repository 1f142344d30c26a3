ghost use Rattle.std.specs.Prelude.{◌≡◌, ◌-◌, ◌≤◌, [], ◌∷◌, ◌++◌, drop, length, OnErr, OnOk};
ghost use Rattle.html_pages.specs.Fragments.{chunks_list, chunk_starts};

use crate::chunk::Chunk;
use std::alloc::Global;
use std::marker::Model;
use task_model::OutOfMemory;

// A chunk has at most so many fragments.
pub(crate) const CHUNK: usize = 64;

/// Chunks in order, two neighbours of which have more than `CHUNK` fragments together. Contracts see the fragments of all.
#[derive(Drop)]
pub struct Chunks {
    list: Vec<Chunk>,
    // How many fragments stand before each chunk.
    starts: Vec<usize>,
    // How many there are in all.
    count: usize,
}

impl Model for Chunks {
    ghost use Rattle.std.specs.Prelude.{◌≡◌, List, length};
    ghost use Rattle.html_pages.specs.Fragments.{FragmentTerm, chunks_list, chunk_starts};

    ghost Value = { List FragmentTerm };

    ghost view = { λ c. chunks_list c.list.items };

    ghost invariant = { λ c. (c.count ≡ length (chunks_list c.list.items)) × (c.starts.items ≡ chunk_starts 0 c.list.items) };
}

impl Chunks {
    /// No chunks, in no memory.
    pub fn new(alloc: Global) -> Chunks
        ensures { result ≡ [] }
    {
        Chunks {
            list: Vec::new(alloc),
            starts: Vec::new(alloc),
            count: 0,
        }
    }

    /// Puts a chunk behind the others; it and the one before become one where a chunk can hold both. It fails only where memory runs out,
    /// and changes nothing then.
    pub fn push(&mut self, alloc: Global, chunk: Chunk) -> Result<(), OutOfMemory>
        ensures ok { OnOk result (self.new ≡ self.old ++ chunk) }
        ensures err { OnErr result (self.new ≡ self.old) }
    {
        let Some(count) = self.count.checked_add(chunk.len()) else {
            return Err(OutOfMemory);
        };
        put(alloc, &mut self.list, &mut self.starts, chunk, self.count)?;
        self.count = count;
        Ok(())
    }

    /// The chunks from the one on that has the fragment of this number, and how many of their fragments stand before it.
    pub fn chunks_from(&self, number: usize) -> (&[Chunk], usize)
        ensures before { result.1 ≤ number }
        ensures within { number - result.1 ≤ length self.now }
        ensures rest { chunks_list result.0.now ≡ drop (number - result.1) self.now }
    {
        let mut start = 0;
        let mut low = 0;
        let mut high = self.list.len();
        while high - low > 1 {
            let middle = low + (high - low) / 2;
            let before = self.starts[middle];
            if before <= number {
                low = middle;
                start = before;
            } else {
                high = middle;
            }
        }
        (&self.list[low..], number - start)
    }

    /// The chunks.
    pub fn as_slice(&self) -> &[Chunk]
        ensures { chunks_list result.now ≡ self.now }
    {
        self.list.as_slice()
    }
}

// Puts a chunk behind the others, before which so many fragments stand; or makes one of it and the last one. It fails only where memory runs
// out, and changes nothing then.
fn put(
    alloc: Global,
    list: &mut Vec<Chunk>,
    starts: &mut Vec<usize>,
    chunk: Chunk,
    start: usize,
) -> Result<(), OutOfMemory>
    requires starts { starts.old.items ≡ chunk_starts 0 list.old.items }
    requires start { start ≡ length (chunks_list list.old.items) }
    ensures list { OnOk result (chunks_list list.new.items ≡ chunks_list list.old.items ++ chunk) }
    ensures starts { OnOk result (starts.new.items ≡ chunk_starts 0 list.new.items) }
    ensures err_list { OnErr result (list.new.items ≡ list.old.items) }
    ensures err_starts { OnErr result (starts.new.items ≡ starts.old.items) }
{
    let many = list.len();
    if many > 0 && list[many - 1].len().saturating_add(chunk.len()) <= CHUNK {
        let both = Chunk::of(alloc, list[many - 1].as_slice(), chunk.as_slice())?;
        list[many - 1] = both;
        return Ok(());
    }
    append(list, starts, chunk, start)?;
    Ok(())
}

// Puts a chunk behind the others, before which so many fragments stand. It fails only where memory runs out, and changes nothing then.
fn append(
    list: &mut Vec<Chunk>,
    starts: &mut Vec<usize>,
    chunk: Chunk,
    start: usize,
) -> Result<(), OutOfMemory>
    ensures list { OnOk result (list.new.items ≡ list.old.items ++ chunk ∷ []) }
    ensures starts { OnOk result (starts.new.items ≡ starts.old.items ++ start ∷ []) }
    ensures err_list { OnErr result (list.new.items ≡ list.old.items) }
    ensures err_starts { OnErr result (starts.new.items ≡ starts.old.items) }
{
    starts.push(start)?;
    if list.push(chunk).is_err() {
        starts.pop();
        return Err(OutOfMemory);
    }
    Ok(())
}
