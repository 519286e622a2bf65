//! Files that a crash may leave.
ghost use Rattle.std.specs.Prelude.{◌≡◌, ◌+◌, ◌≤◌, length, OnOk};
ghost use Rattle.wm_station.specs.History.{History, now, Leaves, Torn};
ghost use Rattle.wm_station.specs.Replay.{after};

use crate::Call;
use crate::recording::put;
use std::alloc::{AllocError, Global};

/// What a crash leaves of a write that no sync followed.
#[derive(Clone, Copy, Debug, PartialEq, Eq)]
pub enum Tear {
    Whole,
    Lost,
    /// The first half of its bytes.
    Front,
    /// What is behind its first half.
    Back,
    /// As many bytes of this value.
    Filled(u8),
}

// Goes on over a call: `image` is what a read gives, `left` what a crash leaves.
pub(crate) fn step(
    alloc: Global,
    call: &Call,
    tear: Tear,
    image: &mut Vec<u8>,
    left: &mut Vec<u8>,
) -> Result<(), AllocError>
    ensures image { OnOk result ((h : History) → now h ≡ image.old.items → now (after h call.now) ≡ image.new.items) }
    ensures left { OnOk result ((h : History) → now h ≡ image.old.items → Leaves h left.old.items → Leaves (after h call.now) left.new.items) }
{
    match call {
        Call::Write { at, len, bytes } => {
            tear_into(alloc, left, *at, *len, bytes, tear)?;
            put(image, *at as usize, bytes)
        }
        Call::Sync => {
            left.clear();
            left.extend_from_slice(image)
        }
        Call::Say { .. } => Ok(()),
    }
}

// Brings what the crash leaves of these bytes to its place in a range of `len` bytes from `at` on.
fn tear_into(
    alloc: Global,
    left: &mut Vec<u8>,
    at: u64,
    len: u64,
    bytes: &[u8],
    tear: Tear,
) -> Result<(), AllocError>
    ensures { OnOk result (Torn at len left.old.items left.new.items) }
{
    let size = bytes.len().min(len as usize);
    let half = size / 2;
    match tear {
        Tear::Whole => put_within(left, at, len, 0, &bytes[..size]),
        Tear::Lost => put_within(left, at, len, 0, &[]),
        Tear::Front => put_within(left, at, len, 0, &bytes[..half]),
        Tear::Back => put_within(left, at, len, half as u64, &bytes[half..size]),
        Tear::Filled(byte) => {
            let other = vec![in alloc; byte; size]?;
            put_within(left, at, len, 0, &other)
        }
    }
}

// Writes the bytes into a range, from `skip` bytes after its start.
fn put_within(
    left: &mut Vec<u8>,
    at: u64,
    len: u64,
    skip: u64,
    bytes: &[u8],
) -> Result<(), AllocError>
    requires { skip + length bytes.now ≤ len }
    ensures { OnOk result (Torn at len left.old.items left.new.items) }
{
    if at > u64::MAX - skip {
        return Err(AllocError);
    }
    put(left, (at + skip) as usize, bytes)
}
