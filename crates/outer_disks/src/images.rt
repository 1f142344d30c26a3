ghost use Rattle.std.specs.Prelude.{◌≡◌, ◌≤◌, length, IfOk, replicate};
ghost use Rattle.outer_disks.specs.Writing.{IsWithPiece};

use crate::mem_disk::copied;
use std::alloc::Global;
use task_model::{OutOfMemory, Row};

/// What reads give, and what a crash may leave in its place: all writes since the last sync dropped, or their ranges filled with 01.
#[derive(Drop)]
pub(crate) struct Images {
    pub(crate) bytes: Row<u8>,
    pub(crate) dropped: Row<u8>,
    pub(crate) filled: Row<u8>,
    ghost level: { length filled.list ≡ length bytes.list },
}

impl Images {
    /// Three times the same bytes.
    pub(crate) fn of_sure(alloc: Global, bytes: &[u8]) -> Result<Images, OutOfMemory>
        ensures { IfOk result (λ i. (i.bytes.list ≡ bytes.now) × (i.dropped.list ≡ bytes.now) × (i.filled.list ≡ bytes.now)) }
    {
        Ok(Images {
            bytes: copied(alloc, bytes)?,
            dropped: copied(alloc, bytes)?,
            filled: copied(alloc, bytes)?,
        })
    }

    /// The same images, in memory of their own.
    pub(crate) fn copies(&self, alloc: Global) -> Result<Images, OutOfMemory>
        ensures { IfOk result (λ i. (i.bytes.list ≡ self.now.bytes.list) × (i.dropped.list ≡ self.now.dropped.list)
            × (i.filled.list ≡ self.now.filled.list)) }
    {
        Ok(Images {
            bytes: copied(alloc, self.bytes.as_slice())?,
            dropped: copied(alloc, self.dropped.as_slice())?,
            filled: copied(alloc, self.filled.as_slice())?,
        })
    }

    /// What a write of a piece at an offset makes of them.
    #[tactic(auto, using(crate::proofs::Torn::same_length))]
    pub(crate) fn written(
        &self,
        alloc: Global,
        at: usize,
        piece: &[u8],
    ) -> Result<Images, OutOfMemory>
        requires { at ≤ length self.now.bytes.list }
        ensures bytes { IfOk result (λ i. IsWithPiece self.now.bytes.list at piece.now i.bytes.list) }
        ensures dropped { IfOk result (λ i. i.dropped.list ≡ self.now.dropped.list) }
        ensures filled { IfOk result (λ i. IsWithPiece self.now.filled.list at (replicate (length piece.now) 1) i.filled.list) }
    {
        let mut ones = Vec::new(alloc);
        ones.resize(piece.len(), 1)?;
        Ok(Images {
            bytes: with_piece(alloc, self.bytes.as_slice(), at, piece)?,
            dropped: copied(alloc, self.dropped.as_slice())?,
            filled: with_piece(alloc, self.filled.as_slice(), at, &ones)?,
        })
    }
}

// These bytes with a piece at an offset.
fn with_piece(alloc: Global, bytes: &[u8], at: usize, piece: &[u8]) -> Result<Row<u8>, OutOfMemory>
    requires { at ≤ length bytes.now }
    ensures { IfOk result (λ row. IsWithPiece bytes.now at piece.now row.list) }
{
    let mut next = Vec::from_slice(alloc, &bytes[..at])?;
    next.extend_from_slice(piece)?;
    if piece.len() < bytes.len() - at {
        next.extend_from_slice(&bytes[at + piece.len()..])?;
    }
    Ok(Row::of_vec(next))
}
