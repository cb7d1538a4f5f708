//! Texts out of pieces.
ghost use Rattle.std.specs.Prelude.{◌≡◌, ◌++◌, ◌^◌, ◌-◌, length, min, IfOk};
ghost use Rattle.std.specs.List.{flat_map};

use std::alloc::{AllocError, Global};

/// How many bytes pieces have together; the largest number where they are more than that.
fn room_of(pieces: &[&[u8]]) -> usize
    ensures { result ≡ min (length (flat_map (λ piece. piece.now) pieces.now)) (2 ^ 64 - 1) }
{
    let mut room = 0usize;
    for piece in pieces {
        room = room.saturating_add(piece.len());
    }
    room
}

/// Pieces, one behind the other.
pub fn joined(alloc: Global, pieces: &[&[u8]]) -> Result<Vec<u8>, AllocError>
    ensures { IfOk result (λ text. text.items ≡ flat_map (λ piece. piece.now) pieces.now) }
{
    let mut text = Vec::with_capacity(alloc, room_of(pieces))?;
    for piece in pieces {
        text.extend_from_slice(piece)?;
    }
    Ok(text)
}

/// Two texts, one behind the other.
pub fn two_joined<'a>(alloc: Global, front: &'a [u8], end: &'a [u8]) -> Result<Vec<u8>, AllocError>
    ensures { IfOk result (λ text. text.items ≡ front.now ++ end.now) }
{
    joined(alloc, &[front, end])
}
