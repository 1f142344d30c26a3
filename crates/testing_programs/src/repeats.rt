//! Texts with pieces that stand in them many times.

use std::alloc::{AllocError, Global};

/// The text in which `{N PIECE}` stands for N times the piece, in which `@` is its number from 1 on, and `$` the one before.
pub fn repeated(alloc: Global, text: &str) -> Result<String, AllocError> {
    let mut whole = String::new(alloc);
    for part in text.split('{') {
        match part.split_once('}') {
            Some((piece, behind)) => {
                push_pieces(alloc, &mut whole, piece)?;
                whole.push_str(behind)?;
            }
            None => whole.push_str(part)?,
        }
    }
    Ok(whole)
}

fn push_pieces(alloc: Global, whole: &mut String, piece: &str) -> Result<(), AllocError> {
    let Some((count, piece)) = piece.split_once(' ') else {
        return Ok(());
    };
    for number in 0..count.parse::<u32>().unwrap_or(0) {
        push_piece(alloc, whole, piece, number)?;
    }
    Ok(())
}

fn push_piece(
    alloc: Global,
    whole: &mut String,
    piece: &str,
    number: u32,
) -> Result<(), AllocError> {
    for c in piece.chars() {
        match c {
            '@' => whole.push_str(format!(in alloc; "{}", number.saturating_add(1))?.as_str())?,
            '$' => whole.push_str(format!(in alloc; "{number}")?.as_str())?,
            _ => whole.push(c)?,
        }
    }
    Ok(())
}
