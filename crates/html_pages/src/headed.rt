ghost use Rattle.std.specs.Prelude.{◌≡◌, ◌≤◌, ◌++◌, IfOk, drop, length, vec_len};

use std::alloc::Global;
use std::marker::Model;
use task_model::OutOfMemory;

/// A head, and the text of a page behind it. Contracts see the bytes of both.
#[derive(Drop)]
pub struct Headed {
    // The bytes from a number on.
    bytes: Vec<u8>,
    from: usize,
}

impl Model for Headed {
    ghost use Rattle.std.specs.Prelude.{◌≤◌, List, ℕ, drop, vec_len};

    ghost Value = { List ℕ };

    ghost view = { λ h. drop h.from h.bytes.items };

    ghost invariant = { λ h. h.from ≤ vec_len h.bytes };
}

impl Headed {
    /// The bytes of the head, and those of the text (docs/FORMATS.md, "Replies").
    pub fn as_slice(&self) -> &[u8]
        ensures { result.now ≡ self.now }
    {
        &self.bytes.as_slice()[self.from..]
    }

    /// The head at the end of the room that stands in front of a text. It takes no memory.
    pub(crate) fn in_room(mut bytes: Vec<u8>, room: usize, head: &[u8]) -> Headed
        requires room { room ≤ vec_len bytes }
        requires fits { length head.now ≤ room }
        ensures { result ≡ head.now ++ drop room bytes.items }
    {
        let from = room - head.len();
        bytes.as_mut_slice()[from..room].copy_from_slice(head);
        Headed { bytes, from }
    }

    /// Copies of a head and a text.
    pub(crate) fn copied(alloc: Global, head: &[u8], text: &[u8]) -> Result<Headed, OutOfMemory>
        ensures { IfOk result (λ headed. headed ≡ head.now ++ text.now) }
    {
        let mut bytes = Vec::with_capacity(alloc, head.len() + text.len())?;
        bytes.extend_from_slice(head)?;
        bytes.extend_from_slice(text)?;
        Ok(Headed { bytes, from: 0 })
    }
}
