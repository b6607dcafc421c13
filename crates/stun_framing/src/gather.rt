//! The bytes of one message, gathered in a buffer.

ghost use Rattle.std.specs.Prelude.{◌≡◌, ◌+◌, ◌<◌, ◌≤◌, ◌++◌, length, take, drop, min, true, false, MatchOption, MatchResult};
ghost use Rattle.stun_framing.specs.Framing.{room_of};
ghost use Rattle.stun_framing.specs.Gathering.{wanted_for, IsGathered, HoldsStart, HoldsFirst, Refuses};
ghost use Rattle.stun_framing.specs.Streams.{can_resume};

use crate::error::StreamFault;
use crate::fault::{START, stream_fault, wanted_length};
use crate::stream_kind::StreamKind;
use stun_base::MessageHeader;

/// What a buffer holds of a message: how many bytes, and how many are wanted. Until its first four
/// are there, these are four, and then as many as they state.
#[derive(Clone, Copy, Debug)]
pub(crate) struct Gathered {
    pub(crate) held: usize,
    pub(crate) wanted: usize,
}

/// Nothing of a message.
pub(crate) const NOTHING: Gathered = Gathered {
    held: 0,
    wanted: START,
};

/// What a buffer holds of a message whose first `held` bytes it begins with, unless no message
/// begins so for which there is room, or they are all of it.
pub(crate) fn held_part(carries: StreamKind, buffer: &[u8], held: usize) -> Option<Gathered>
    ensures { MatchOption result (can_resume carries buffer.now held ≡ false)
        (λ gathered. (can_resume carries buffer.now held ≡ true)
        × (gathered ≡ record { held = held; wanted = wanted_for (take held buffer.now) })) }
{
    if buffer.len() < MessageHeader::LENGTH || buffer.len() < held {
        return None;
    }
    let Ok(wanted) = wanted_length(carries, buffer.len(), &buffer[..held]) else {
        return None;
    };
    if wanted <= held {
        return None;
    }
    Some(Gathered { held, wanted })
}

/// Copies `bytes` to the place after the first `held` bytes of `buffer`.
fn copy_behind(buffer: &mut [u8], held: usize, bytes: &[u8])
    requires { held + length bytes.now ≤ length buffer.old }
    ensures { buffer.new
        ≡ take held buffer.old ++ bytes.now ++ drop (held + length bytes.now) buffer.old }
{
    buffer[held..held + bytes.len()].copy_from_slice(bytes);
}

/// Copies the first bytes of `piece` after `held` bytes of `buffer`, until `wanted` are there.
/// Returns how many are.
fn fill(buffer: &mut [u8], held: usize, wanted: usize, piece: &[u8]) -> usize
    requires held { held ≤ wanted }
    requires room { wanted ≤ length buffer.old }
    ensures count { result ≡ min wanted (held + length piece.now) }
    ensures bytes { take result buffer.new ≡ take wanted (take held buffer.old ++ piece.now) }
    ensures stays { take held buffer.new ≡ take held buffer.old }
{
    let count = (wanted - held).min(piece.len());
    copy_behind(buffer, held, &piece[..count]);
    held + count
}

/// Copies what belongs to the first four bytes, and looks at them as far as they are there then.
///
/// # Errors
///
/// As for [`gather`].
fn gather_start(
    carries: StreamKind,
    buffer: &mut [u8],
    held: usize,
    piece: &[u8],
) -> Result<Gathered, StreamFault>
    requires held { held < 4 }
    requires room { 4 ≤ length buffer.old }
    ensures stays { take held buffer.new ≡ take held buffer.old }
    ensures start { MatchResult result
        (λ gathered. HoldsStart (take held buffer.old ++ piece.now) gathered buffer.new)
        (λ fault. Refuses carries held piece.now fault buffer.old buffer.new) }
{
    let room = buffer.len();
    let start = fill(buffer, held, START, piece);
    match wanted_length(carries, room, &buffer[..start]) {
        Ok(wanted) => Ok(Gathered {
            held: start,
            wanted,
        }),
        Err(fault) => Err(fault),
    }
}

/// Copies what belongs to a message of which it is known how many bytes are wanted, unless `piece`
/// is empty, after the bytes that are gathered of it.
///
/// # Errors
///
/// As for [`gather`].
fn gather_rest(
    carries: StreamKind,
    buffer: &mut [u8],
    gathered: Gathered,
    piece: &[u8],
) -> Result<Gathered, StreamFault>
    requires held { gathered.held ≤ gathered.wanted }
    requires fits { gathered.wanted ≤ length buffer.old }
    requires wanted { gathered.wanted ≡ wanted_for (take gathered.held buffer.old ++ piece.now) }
    ensures { MatchResult result
        (λ new. HoldsFirst carries (take gathered.held buffer.old ++ piece.now) new buffer.new)
        (λ fault. Refuses carries gathered.held piece.now fault buffer.old buffer.new) }
{
    let room = buffer.len();
    let now = fill(buffer, gathered.held, gathered.wanted, piece);
    match stream_fault(carries, room, &buffer[..now]) {
        Some(fault) => Err(fault),
        None => Ok(Gathered {
            held: now,
            wanted: gathered.wanted,
        }),
    }
}

/// Copies what belongs to the message after the bytes that are gathered of it.
///
/// # Errors
///
/// Why no message for which there is room begins with the bytes that are gathered and `piece`. The
/// bytes that are gathered stay.
pub(crate) fn gather(
    carries: StreamKind,
    buffer: &mut [u8],
    gathered: Gathered,
    piece: &[u8],
) -> Result<Gathered, StreamFault>
    requires bound { gathered.held < gathered.wanted }
    requires gathered { IsGathered (room_of carries (length buffer.old)) (take gathered.held buffer.old)
        gathered.wanted }
    ensures { MatchResult result
        (λ new. HoldsFirst carries (take gathered.held buffer.old ++ piece.now) new buffer.new)
        (λ fault. Refuses carries gathered.held piece.now fault buffer.old buffer.new) }
{
    if gathered.held >= START {
        return gather_rest(carries, buffer, gathered, piece);
    }
    let start = match gather_start(carries, buffer, gathered.held, piece) {
        Ok(start) => start,
        Err(fault) => return Err(fault),
    };
    let behind = &piece[start.held - gathered.held..];
    gather_rest(carries, buffer, start, behind)
}
