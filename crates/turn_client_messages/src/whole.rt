//! The head of a Send indication with DONT-FRAGMENT (RFC 8656, sections 11.1 and 18.9).

ghost use Rattle.std.specs.Prelude.{◌≡◌, ◌+◌, ◌-◌, ◌≤◌, ◌++◌, [], ◌∷◌, length, take, drop, MatchResult, None, Some};
ghost use Rattle.stun_grammar.specs.Numbers.{be16};
ghost use Rattle.turn_client_messages.specs.Heads.{Surrounds, whole_head_fault, whole_indication};

use std::net::SocketAddr;
use stun_types::message::{StunWriteError, TransactionId};
use turn_attrs::{Head, write_send_head};

/// The room for a head without DONT-FRAGMENT.
const PLAIN: usize = 48;

/// DONT-FRAGMENT, which has no value.
const MARK: [u8; 4] = [0x00, 0x1A, 0x00, 0x00];

/// Copies bytes to a place.
fn put(message: &mut [u8], at: usize, bytes: &[u8])
    requires { at + length bytes.now ≤ length message.old }
    ensures { message.new
        ≡ take at message.old ++ bytes.now ++ drop (at + length bytes.now) message.old }
{
    message[at..at + bytes.len()].copy_from_slice(bytes);
}

/// Copies the head of a Send indication to the end of a slice, with another length field, and with
/// DONT-FRAGMENT after the header.
fn put_marked(plain: &[u8], field: u16, before: &mut [u8])
    requires header { 20 ≤ length plain.now }
    requires room { length plain.now + 4 ≤ length before.old }
    ensures { before.new ≡ take (length before.old - (length plain.now + 4)) before.old
        ++ ((((take 2 plain.now ++ be16 field) ++ take 16 (drop 4 plain.now))
        ++ (0 ∷ 0x1A ∷ 0 ∷ 0 ∷ [])) ++ drop 20 plain.now) }
{
    let from = before.len() - (plain.len() + 4);
    put(before, from, &plain[..2]);
    put(before, from + 2, &field.to_be_bytes());
    put(before, from + 4, &plain[4..20]);
    put(before, from + 20, &MARK);
    put(before, from + 24, &plain[20..]);
}

/// Writes the head of a Send indication with DONT-FRAGMENT at the end of `before`.
pub(crate) fn write_whole_head(
    id: TransactionId,
    peer: SocketAddr,
    data_length: usize,
    greatest: usize,
    before: &mut [u8],
) -> Result<Head, StunWriteError>
    ensures { MatchResult result
        (λ head. (whole_head_fault peer data_length greatest (length before.old) ≡ None)
        × Surrounds data_length (whole_indication id peer) before.old before.new head)
        (λ e. (whole_head_fault peer data_length greatest (length before.old) ≡ Some e)
        × (before.new ≡ before.old)) }
{
    let mut plain = [0; PLAIN];
    let most = greatest.min(65_555).saturating_sub(4);
    let head = write_send_head(id, peer, data_length, most, &mut plain)?;
    let own = head.length + 4;
    if before.len() < own {
        return Err(StunWriteError::TooSmall {
            expected: own,
            actual: before.len(),
        });
    }
    let field = (own + data_length + head.padding - 20) as u16;
    put_marked(&plain[PLAIN - head.length..], field, before);
    Ok(Head {
        length: own,
        padding: head.padding,
    })
}
