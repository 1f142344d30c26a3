ghost use Rattle.std.specs.Prelude.{◌≡◌, ◌++◌, ◌∷◌, [], IfOk, length};
ghost use Rattle.journal_bytes.specs.Records.{FitsRecord, record_bytes, open_records};

use std::alloc::{AllocError, Global};

/// What is written behind a closed gate: the record, and a closed gate.
pub fn behind_gate(alloc: Global, entry: &[u8]) -> Result<Vec<u8>, AllocError>
    requires { FitsRecord entry.now }
    ensures { IfOk result (λ v. v.items ≡ record_bytes entry.now ++ 0 ∷ []) }
{
    let count = entry.len() as u32;
    let mut piece = Vec::from_slice(alloc, &count.to_be_bytes())?;
    piece.extend_from_slice(entry)?;
    piece.push(0)?;
    Ok(piece)
}

/// A journal of one record: an open gate, the record, and a closed gate.
pub fn whole_journal(alloc: Global, entry: &[u8]) -> Result<Vec<u8>, AllocError>
    requires { FitsRecord entry.now }
    ensures { IfOk result (λ v. v.items ≡ open_records (entry.now ∷ []) ++ 0 ∷ []) }
{
    let mut piece = Vec::from_slice(alloc, &[1])?;
    let behind = behind_gate(alloc, entry)?;
    piece.extend_from_slice(&behind)?;
    Ok(piece)
}
