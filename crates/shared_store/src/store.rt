ghost use Rattle.std.specs.Prelude.{ℕ, ◌≡◌, ◌<◌, ◌≤◌, ◌-◌, [], ◌∷◌, ◌++◌, length, take, drop, reverse, map, slice_get, slice_set, slice_index_or, Some, OnOk, OnErr, vec_len};
ghost use Rattle.shared_store.specs.Layered.{Layered, layered_code};
ghost use Rattle.shared_store.specs.Log.{rewound, earlier, IsStack};

use std::alloc::Global;
use std::marker::Model;
use std::mem;
use task_model::OutOfMemory;

/// A value that was overwritten, and its place.
#[derive(Drop)]
pub struct Overwritten<T> {
    pub place: usize,
    pub value: T,
}

/// What was done since a layer began: how many values there were, and those of them that were overwritten, oldest first. With these put
/// back, the last one first, the first values are the layer's list.
#[derive(Drop)]
pub struct Changes<'s, T> {
    pub count: u64,
    pub overwritten: &'s [Overwritten<T>],
}

/// Where a layer began: how many values there were, and how many entries the log had.
#[derive(Clone, Copy, Drop)]
struct Mark {
    count: usize,
    log: usize,
}

/// A list of values with the earlier lists that stand as layers, the newest first.
///
/// Values that a layer has and that are overwritten stand in a log, oldest first, so a layer costs what is written while it stands.
#[derive(Drop)]
pub struct Store<T> {
    values: Vec<T>,
    log: Vec<Overwritten<T>>,
    marks: Vec<Mark>,
}

impl<T> Model for Store<T> {
    ghost Value = { Layered T };

    ghost coded = { layered_code T.code };

    ghost view = { λ s. record { list = s.values.items; layers = reverse (map (earlier s.values.items s.log.items) s.marks.items) } };

    ghost invariant = { λ s. IsStack s.marks.items (length s.values.items) (length s.log.items) };
}

impl<T> Store<T> {
    /// No values and no layer, in no memory.
    pub fn new(alloc: Global) -> Store<T>
        ensures list { result.list ≡ [] }
        ensures layers { result.layers ≡ [] }
    {
        Store {
            values: Vec::new(alloc),
            log: Vec::new(alloc),
            marks: Vec::new(alloc),
        }
    }

    /// The values, by their places.
    pub fn as_slice(&self) -> &[T]
        ensures { result.now ≡ self.now.list }
    {
        self.values.as_slice()
    }

    /// What was done since the newest layer began.
    pub fn changes(&self) -> Changes<'_, T>
        requires { 0 < length self.now.layers }
        ensures undone { slice_get self.now.layers 0 ≡ Some (take result.count (rewound result.overwritten.now self.now.list)) }
        ensures grown { result.count ≤ length self.now.list }
    {
        let mark = newest(self.marks.as_slice());
        Changes {
            count: mark.count as u64,
            overwritten: behind(self.log.as_slice(), mark.log),
        }
    }

    /// How many layers stand.
    pub fn layers(&self) -> u64
        ensures { result ≡ length self.now.layers }
    {
        self.marks.len() as u64
    }
}

impl<T: Drop> Store<T> {
    /// The present list becomes the newest layer.
    pub fn begin(&mut self) -> Result<(), OutOfMemory>
        ensures list { self.new.list ≡ self.old.list }
        ensures ok { OnOk result (self.new.layers ≡ self.old.list ∷ self.old.layers) }
        ensures err { OnErr result (self.new.layers ≡ self.old.layers) }
    {
        let mark = Mark {
            count: self.values.len(),
            log: self.log.len(),
        };
        self.marks.push(mark)?;
        Ok(())
    }

    /// The newest layer is given up, and the values stay. It takes no memory.
    pub fn keep(&mut self)
        requires { 0 < length self.old.layers }
        ensures list { self.new.list ≡ self.old.list }
        ensures layers { self.new.layers ≡ drop 1 self.old.layers }
    {
        let _layer = self.marks.pop();
        forget(self.marks.as_slice(), &mut self.log);
    }

    /// The newest layer's list comes back. It takes no memory.
    pub fn drop_layer(&mut self)
        requires { 0 < length self.old.layers }
        ensures { self.old.layers ≡ self.new.list ∷ self.new.layers }
    {
        if let Some(mark) = self.marks.pop() {
            rewind(&mut self.values, &mut self.log, mark.log);
            self.values.truncate(mark.count);
        }
    }

    /// Writes a value at a place. A refusal changes nothing.
    pub fn set(&mut self, place: u64, value: T) -> Result<(), OutOfMemory>
        requires { place < length self.old.list }
        ensures ok { OnOk result (self.new.list ≡ slice_set self.old.list place value) }
        ensures layers { self.new.layers ≡ self.old.layers }
        ensures err { OnErr result (self.new.list ≡ self.old.list) }
    {
        let place = place as usize;
        if place >= counted(self.marks.as_slice()) {
            self.values[place] = value;
            return Ok(());
        }
        overwrite(&mut self.values, &mut self.log, place, value)
    }

    /// Adds a value at the end, and tells its place. A refusal changes nothing.
    pub fn grow(&mut self, value: T) -> Result<u64, OutOfMemory>
        ensures ok { OnOk result (self.new.list ≡ self.old.list ++ value ∷ []) }
        ensures place { OnOk result (result ≡ Ok (length self.old.list)) }
        ensures layers { self.new.layers ≡ self.old.layers }
        ensures err { OnErr result (self.new.list ≡ self.old.list) }
    {
        let place = self.values.len();
        self.values.push(value)?;
        Ok(place as u64)
    }
}

// The last mark.
fn newest(marks: &[Mark]) -> Mark
    requires { 0 < length marks.now }
    ensures { slice_get marks.now (length marks.now - 1) ≡ Some result }
{
    marks[marks.len() - 1]
}

// The entries of a log from this one on.
fn behind<T>(log: &[Overwritten<T>], from: usize) -> &[Overwritten<T>]
    requires { from ≤ length log.now }
    ensures { result.now ≡ drop from log.now }
{
    &log[from..]
}

// A number that no mark's count is above: a place from here on is of no layer.
fn counted(marks: &[Mark]) -> usize
    ensures { (count log : ℕ) → IsStack marks.now count log → IsStack marks.now result log }
{
    match marks.last() {
        Some(mark) => mark.count,
        None => 0,
    }
}

// Where no layer stands, nothing of the log is needed.
fn forget<T: Drop>(marks: &[Mark], log: &mut Vec<Overwritten<T>>)
    ensures { 0 < length marks.now → log.new.items ≡ log.old.items }
{
    if marks.is_empty() {
        log.truncate(0);
    }
}

// Writes a value, and notes in the log what was there.
fn overwrite<T: Drop>(
    values: &mut Vec<T>,
    log: &mut Vec<Overwritten<T>>,
    place: usize,
    value: T,
) -> Result<(), OutOfMemory>
    requires { place < vec_len values.old }
    ensures ok { OnOk result (values.new.items ≡ slice_set values.old.items place value) }
    ensures logged { OnOk result (log.new.items ≡ log.old.items ++
        (record { place = place; value = slice_index_or values.old.items place value }) ∷ []) }
    ensures err { OnErr result (values.new.items ≡ values.old.items) }
    ensures unlogged { OnErr result (log.new.items ≡ log.old.items) }
{
    log.try_reserve(1)?;
    let before = mem::replace(&mut values[place], value);
    if log
        .push(Overwritten {
            place,
            value: before,
        })
        .is_err()
    {
        unreachable!()
    }
    Ok(())
}

// Puts back one value, where its place is still there.
fn put_back<T: Drop>(values: &mut Vec<T>, entry: Overwritten<T>)
    ensures { values.new.items ≡ slice_set values.old.items entry.place entry.value }
{
    if entry.place < values.len() {
        values[entry.place] = entry.value;
    }
}

// Puts back what the log has from this entry on, the last one first.
fn rewind<T: Drop>(values: &mut Vec<T>, log: &mut Vec<Overwritten<T>>, from: usize)
    ensures values { values.new.items ≡ rewound (drop from log.old.items) values.old.items }
    ensures log { log.new.items ≡ take from log.old.items }
{
    while log.len() > from {
        match log.pop() {
            Some(entry) => put_back(values, entry),
            None => return,
        }
    }
}
