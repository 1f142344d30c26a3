ghost use Rattle.std.specs.Prelude.{◌≡◌, ◌≤◌, ◌+◌, ◌++◌, [], length, decimal};

use arrayvec::ArrayVec;
use itoa::Buffer;
use std::marker::Model;

/// The bytes that a head may have, and a short body behind it.
const BYTE_LIMIT: usize = 320;

/// Room for the head of a reply and for a short body behind it, which takes no memory. Contracts see it as the bytes in it.
#[derive(Drop)]
pub struct ReplyRoom {
    bytes: ArrayVec<u8, BYTE_LIMIT>,
}

impl Model for ReplyRoom {
    ghost use Rattle.std.specs.Prelude.{List, ℕ};

    ghost Value = { List ℕ };

    ghost view = { λ room. room.bytes.items };
}

impl ReplyRoom {
    /// Room with nothing in it (docs/FORMATS.md, "Replies").
    pub fn new() -> ReplyRoom
        ensures { result ≡ [] }
    {
        ReplyRoom {
            bytes: ArrayVec::new(),
        }
    }

    /// What was written into it (docs/FORMATS.md, "Replies").
    pub fn bytes(&self) -> &[u8]
        ensures { result.now ≡ self.now }
    {
        self.bytes.as_slice()
    }

    /// Takes out all.
    pub(crate) fn clear(&mut self)
        ensures { self.new ≡ [] }
    {
        self.bytes.clear();
    }

    /// Appends these bytes.
    pub(crate) fn push(&mut self, bytes: &[u8])
        requires { length self.old + length bytes.now ≤ 320 }
        ensures { self.new ≡ self.old ++ bytes.now }
    {
        if self.bytes.try_extend_from_slice(bytes).is_err() {
            unreachable!();
        }
    }

    /// Appends a number.
    pub(crate) fn push_number(&mut self, number: u64)
        requires { length self.old + 20 ≤ 320 }
        ensures text { self.new ≡ self.old ++ decimal number }
        ensures length { length self.new ≤ length self.old + 20 }
    {
        let mut digits = Buffer::new();
        self.push(digits.format(number).as_bytes());
    }
}
