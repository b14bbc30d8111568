//! Bytes that are copied between rooms.

ghost use Rattle.std.specs.Prelude.{◌≡◌, ◌<◌, ◌≤◌, ◌-◌, ◌++◌, length, take, drop, min, vec_len, OnOk, OnErr};

use crate::record::ROOM;
use std::alloc::AllocError;

/// Copies bytes from a place on to the front of a room, as many as there is room for. Returns how
/// many.
pub(crate) fn copy_rest(room: &mut [u8], bytes: &[u8], at: usize) -> usize
    requires { at ≤ length bytes.now }
    ensures count { result ≡ min (length bytes.now - at) (length room.old) }
    ensures len { length room.new ≡ length room.old }
    ensures bytes { take result room.new ≡ take result (drop at bytes.now) }
    ensures end { result ≡ 0 → 0 < length room.old → length bytes.now ≤ at }
{
    copy_front(room, &bytes[at..])
}

/// Copies the first bytes, as many as there is room for. Returns how many.
pub(crate) fn copy_front(room: &mut [u8], bytes: &[u8]) -> usize
    ensures count { result ≡ min (length bytes.now) (length room.old) }
    ensures len { length room.new ≡ length room.old }
    ensures bytes { take result room.new ≡ take result bytes.now }
    ensures end { result ≡ 0 → 0 < length room.old → length bytes.now ≡ 0 }
{
    let count = bytes.len().min(room.len());
    room[..count].copy_from_slice(&bytes[..count]);
    count
}

/// Copies the first bytes of a piece, so many, to the front of a room.
pub(crate) fn copy_piece(room: &mut [u8], piece: &[u8; ROOM], count: usize)
    requires room { count ≤ length room.old }
    requires fits { count ≤ 16384 }
    ensures len { length room.new ≡ length room.old }
    ensures bytes { take count room.new ≡ take count piece.now }
{
    room[..count].copy_from_slice(&piece[..count]);
}

/// Appends the first bytes of a piece, so many. If memory runs out, nothing is appended.
pub(crate) fn append(held: &mut Vec<u8>, piece: &[u8; ROOM], count: usize) -> Result<(), AllocError>
    requires { count ≤ 16384 }
    ensures ok { OnOk result (held.new.items ≡ held.old.items ++ take count piece.now) }
    ensures err { OnErr result (held.new.items ≡ held.old.items) }
    ensures len { vec_len held.old ≤ vec_len held.new }
{
    held.extend_from_slice(&piece[..count])?;
    Ok(())
}
