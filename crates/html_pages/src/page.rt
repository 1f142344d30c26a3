ghost use Rattle.std.specs.Prelude.{◌≡◌, ◌≤◌, ◌++◌, IfOk, IsOk, drop, length, vec_len};

use crate::headed::Headed;
use std::alloc::Global;
use std::marker::Model;
use task_model::{OutOfMemory, Row};

/// A page: the version that it shows, and its text, behind room for a head in the same memory.
#[derive(Drop)]
pub struct Page {
    pub(crate) version: u64,
    // How many bytes of room there are.
    pub(crate) room: usize,
    // The room, and the text behind it.
    pub(crate) padded: String,
}

impl Model for Page {
    ghost use Rattle.std.specs.Prelude.{drop, string_bytes};
    ghost use Rattle.std.specs.Str.{IsCharBoundary};
    ghost use Rattle.html_pages.specs.Fragments.{PageTerm};

    ghost Value = { PageTerm };

    ghost view = { λ p. record { version = p.version; text = drop p.room (string_bytes p.padded); room = p.room } };

    ghost invariant = { λ p. IsCharBoundary (string_bytes p.padded) p.room };
}

impl Page {
    /// The number of inputs in the history that the page shows.
    pub fn version(&self) -> u64
        ensures { result ≡ self.now.version }
    {
        self.version
    }

    /// The page's bytes, which are UTF-8.
    pub fn text(&self) -> &str
        ensures { result.now ≡ self.now.text }
    {
        &self.padded.as_str()[self.room..]
    }

    /// The bytes of its text, in its memory. With no room in front none of them moves.
    pub fn into_bytes(self) -> Row<u8>
        ensures { result.list ≡ self.text }
    {
        let Page {
            version: _,
            room,
            padded,
        } = self;
        Row::of_vec(behind_room(padded.into_bytes(), room))
    }

    /// A head with the text behind it (docs/FORMATS.md, "Replies"). Where the room in front is enough for the head it is written there, and
    /// takes no memory; else both are copied to memory of their own.
    pub fn behind(self, alloc: Global, head: &[u8]) -> Result<Headed, OutOfMemory>
        ensures bytes { IfOk result (λ headed. headed ≡ head.now ++ self.text) }
        ensures room { length head.now ≤ self.room → IsOk result }
    {
        if head.len() > self.room {
            return Headed::copied(alloc, head, self.text().as_bytes());
        }
        let Page {
            version: _,
            room,
            padded,
        } = self;
        Ok(Headed::in_room(padded.into_bytes(), room, head))
    }
}

// What stands behind the room, in the same memory.
fn behind_room(mut bytes: Vec<u8>, room: usize) -> Vec<u8>
    requires { room ≤ vec_len bytes }
    ensures { result.items ≡ drop room bytes.items }
{
    if room > 0 {
        let left = bytes.len() - room;
        bytes.copy_within(room.., 0);
        bytes.truncate(left);
    }
    bytes
}
