ghost use Rattle.std.specs.Prelude.{◌≡◌, ◌<◌, ◌≤◌, ◌+◌, length, take, drop, Some};
ghost use Rattle.outer_io.specs.Links.{nothing_beside};
ghost use Rattle.outer_io.specs.Source.{Gave, GaveAtMost};

use crate::source::{Got, Source};
use task_model::Row;

/// Bytes in memory that come in pieces, and never fail.
#[derive(Drop)]
pub struct PlainSource {
    bytes: Row<u8>,
    at: usize,
    piece: usize,
    ghost gives_some: { 0 < piece },
    ghost in_range: { at ≤ length bytes.list },
}

impl PlainSource {
    /// A read gives at most `piece` bytes.
    pub fn new(bytes: Row<u8>, piece: usize) -> PlainSource
        requires { 0 < piece }
        ensures left { ⟦<PlainSource as Source>⟧.left result ≡ Some bytes.list }
        ensures piece { result.piece ≡ piece }
    {
        PlainSource {
            bytes,
            at: 0,
            piece,
        }
    }

    /// How many of its bytes were given.
    pub(crate) fn at(&self) -> usize
        ensures { result ≡ self.now.at }
    {
        self.at
    }
}

impl Source for PlainSource {
    ghost use Rattle.outer_io.specs.PlainSource.{left_of};

    ghost left = { λ s. Some (left_of s) };

    ghost faults = { λ _. 0 };

    ghost beside = { λ _. nothing_beside };

    fn read(&mut self, room: &mut [u8]) -> Got
        requires { 0 < length room.old }
        ensures bytes { Gave (Some (left_of self.old)) (Some (left_of self.new)) room.new result }
        ensures told { result ≡ Got.Failed → ⊥ }
        ensures at_most { GaveAtMost self.old.piece result }
        ensures kept { self.new.bytes ≡ self.old.bytes }
    {
        let count = copy_next(self.bytes.as_slice(), self.at, self.piece, room);
        if count == 0 {
            return Got::End;
        }
        self.at += count;
        Got::Took(count)
    }
}

// Copies the next bytes to the front of `room`, at most a piece, and says how many.
fn copy_next(bytes: &[u8], at: usize, piece: usize, room: &mut [u8]) -> usize
    requires positive { 0 < piece }
    requires in_range { at ≤ length bytes.now }
    requires has_room { 0 < length room.old }
    ensures copied { take result room.new ≡ take result (drop at bytes.now) }
    ensures fits { result ≤ length room.new }
    ensures at_most { result ≤ piece }
    ensures there { at + result ≤ length bytes.now }
    ensures none { result ≡ 0 → at ≡ length bytes.now }
{
    let count = piece.min(room.len()).min(bytes.len() - at);
    room[..count].copy_from_slice(&bytes[at..at + count]);
    count
}
