//! Whether bytes are a message.

ghost use Rattle.std.specs.Prelude.{◌≡◌, MatchResult, None, Some, IfOk};
ghost use Rattle.stun_grammar.specs.Parsing.{body_fault, parse_fault};
ghost use Rattle.stun_grammar.specs.Showing.{frame_fault};
ghost use Rattle.stun_types.specs.Endings.{IsOrdinaryTo};
ghost use Rattle.stun_types.specs.Offsets.{OffsetsOf};

use crate::message::{MessageHeader, StunParseError};
use crate::reading::endings::{Seen, type_number};
use crate::reading::fingerprint::check_scanned;
use crate::reading::frame::check_frame;
use crate::reading::offsets::IntegrityOffsets;
use stun_attributes::attribute_at;
use stun_grammar::attribute_types::is_ending;

/// Checks the attributes of a message from `start` on, after ordinary ones: ending types, each at
/// most once, and a FINGERPRINT that is right. Returns the offsets of the integrity attributes that
/// are shown.
#[inline(never)]
fn check_endings(bytes: &[u8], start: usize) -> Result<IntegrityOffsets, StunParseError>
    requires frame { frame_fault bytes.now ≡ None }
    requires ordinary { IsOrdinaryTo bytes.now start }
    ensures fault { MatchResult result
        (λ _. body_fault bytes.now ≡ None)
        (λ e. body_fault bytes.now ≡ Some e) }
    ensures offsets { IfOk result (λ offsets. OffsetsOf offsets bytes.now) }
{
    let mut seen = Seen::none();
    let mut offsets = IntegrityOffsets::none();
    let mut last = 0;
    let mut offset = start;
    'walk: while let Some((attribute, behind)) = attribute_at(bytes, offset)? {
        let atype = type_number(&attribute);
        if !seen.admits(atype) {
            return Ok(offsets);
        }
        check_scanned(bytes, offset, &attribute)?;
        last = offsets.scan(last, atype, offset);
        offset = behind;
    }
    Ok(offsets)
}

/// Checks that `bytes` are a message: a header, as many bytes after it as its length field states,
/// and attributes up to the end of the slice (RFC 8489, sections 5, 6.3 and 14). Returns the
/// offsets of the integrity attributes that are shown. It walks the attributes once, and reads
/// the bytes before a FINGERPRINT again for their checksum. It takes no memory and copies nothing.
///
/// # Errors
///
/// The first violation, as [`Message::from_bytes`](crate::message::Message::from_bytes) lists them.
#[inline(always)]
pub fn check_message(bytes: &[u8]) -> Result<IntegrityOffsets, StunParseError>
    ensures fault { MatchResult result
        (λ _. parse_fault bytes.now ≡ None)
        (λ e. parse_fault bytes.now ≡ Some e) }
    ensures offsets { IfOk result (λ offsets. OffsetsOf offsets bytes.now) }
{
    check_frame(bytes)?;
    let mut offset = MessageHeader::LENGTH;
    'walk: while let Some((attribute, behind)) = attribute_at(bytes, offset)? {
        if is_ending(type_number(&attribute)) {
            return check_endings(bytes, offset);
        }
        offset = behind;
    }
    Ok(IntegrityOffsets::none())
}
