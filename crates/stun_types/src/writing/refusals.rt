//! Why an attribute can't be added.

ghost use Rattle.std.specs.Prelude.{◌≡◌, ◌+◌, ◌^◌, ◌<◌, ◌≤◌, ℕ, List, [], ◌∷◌, length, OnOk, MatchResult, None, Some};
ghost use Rattle.std.specs.Option.{option_map, option_or};
ghost use Rattle.stun_grammar.specs.AttributeTypes.{MESSAGE_INTEGRITY as MI, MESSAGE_INTEGRITY_SHA256 as SHA256, FINGERPRINT as FP};
ghost use Rattle.stun_grammar.specs.Steps.{barring_types};
ghost use Rattle.stun_grammar.specs.Writing.{greatest_length};
ghost use Rattle.stun_grammar.specs.Adding.{first_of, numbers, Fits, exists_refusal, order_refusal, room_refusal};
ghost use Rattle.stun_types.specs.Additions.{step_of};

use crate::attribute::AttributeType;
use crate::message::{IntegrityAlgorithm, StunWriteError};
use crate::writing::MessageWrite;
use stun_grammar::attribute_types::{FINGERPRINT, MESSAGE_INTEGRITY, MESSAGE_INTEGRITY_SHA256};

/// A header, and as many bytes as its length field can state: what `TooLarge` reports. No message that
/// is written is so long, since attributes end at multiples of 4: the greatest length is
/// [`GREATEST_MESSAGE`](stun_base::GREATEST_MESSAGE).
const GREATEST_STATED: usize = 65555;

/// What kind of attribute is added. One check serves all adds: the kind decides which written types
/// bar the addition, and which error reports that.
#[derive(Clone, Copy)]
pub(crate) enum Addition {
    /// An attribute of an ordinary type.
    Ordinary,
    /// The integrity attribute of an algorithm.
    Integrity(IntegrityAlgorithm),
    /// A FINGERPRINT.
    Fingerprint,
}

/// The types that end a message, in the order of their attributes.
#[inline(always)]
pub(crate) fn ending_types() -> [AttributeType; 3]
    ensures { numbers result ≡ MI ∷ SHA256 ∷ FP ∷ [] }
{
    [
        AttributeType(MESSAGE_INTEGRITY),
        AttributeType(MESSAGE_INTEGRITY_SHA256),
        AttributeType(FINGERPRINT),
    ]
}

/// Those of them that bar an addition. A caller makes the array, so that the compiler knows it.
#[inline(always)]
pub(crate) fn barring(addition: Addition, ending: &[AttributeType; 3]) -> &[AttributeType]
    requires { numbers ending.now ≡ MI ∷ SHA256 ∷ FP ∷ [] }
    ensures { numbers result.now ≡ barring_types (step_of addition) }
{
    match addition {
        Addition::Ordinary | Addition::Integrity(IntegrityAlgorithm::Sha1) => ending,
        Addition::Integrity(IntegrityAlgorithm::Sha256) => &ending[1..],
        Addition::Fingerprint => &ending[2..],
    }
}

/// The first written type that blocks an addition.
#[inline(always)]
fn found_before<W: MessageWrite>(write: &W, addition: Addition) -> Option<AttributeType>
    ensures { option_map (λ found. found.0) result
        ≡ first_of (barring_types (step_of addition)) (W.state write.now).types }
{
    let ending = ending_types();
    write.has_any_attribute(barring(addition, &ending))
}

/// The error that reports a written type which blocks an addition.
fn exists(addition: Addition, found: AttributeType) -> StunWriteError
    ensures { result ≡ exists_refusal (step_of addition) found.0 }
{
    match addition {
        Addition::Ordinary if found.0 == FINGERPRINT => StunWriteError::FingerprintExists,
        Addition::Ordinary => StunWriteError::MessageIntegrityExists,
        Addition::Integrity(_) if found.0 == FINGERPRINT => StunWriteError::FingerprintExists,
        Addition::Integrity(_) | Addition::Fingerprint => StunWriteError::AttributeExists(found),
    }
}

/// Checks that no type was found that blocks an addition.
#[tactic(auto, unfolding(stun_grammar::specs::Adding::order_refusal))]
pub(crate) fn check_order(
    found: Option<AttributeType>,
    addition: Addition,
) -> Result<(), StunWriteError>
    ensures { (types : List ℕ)
        → option_map (λ type. type.0) found ≡ first_of (barring_types (step_of addition)) types
        → MatchResult result (λ _. order_refusal (step_of addition) types ≡ None)
        (λ e. order_refusal (step_of addition) types ≡ Some e) }
{
    match found {
        None => Ok(()),
        Some(found) => Err(exists(addition, found)),
    }
}

/// Checks that of `len` bytes twenty are written, and that with `added` bytes more the message is no
/// longer than the writer takes, nor than a message may be.
#[tactic(auto, unfolding(stun_grammar::specs::Adding::room_refusal))]
pub(crate) fn check_room(
    len: usize,
    greatest: Option<usize>,
    added: usize,
) -> Result<(), StunWriteError>
    requires bound { len < 2 ^ 63 }
    requires added { added ≤ 65540 }
    ensures answer { MatchResult result
        (λ _. room_refusal len greatest (len + added) ≡ None)
        (λ e. room_refusal len greatest (len + added) ≡ Some e) }
    ensures header { OnOk result (20 ≤ len) }
    ensures room { OnOk result (Fits greatest (len + added)) }
    ensures fits { OnOk result (len + added ≤ greatest_length) }
{
    if len < 20 {
        return Err(StunWriteError::TooSmall {
            expected: 20,
            actual: len,
        });
    }
    let grown_length = len + added;
    if let Some(most) = greatest
        && most < grown_length
    {
        return Err(StunWriteError::TooSmall {
            expected: grown_length,
            actual: most,
        });
    }
    if grown_length > GREATEST_STATED {
        return Err(StunWriteError::TooLarge {
            expected: GREATEST_STATED,
            actual: grown_length,
        });
    }
    Ok(())
}

/// Checks that an attribute may be added that takes `added` bytes with its header and padding: the
/// order first, and then the room.
#[inline(always)]
pub(crate) fn check_add<W: MessageWrite>(
    write: &W,
    addition: Addition,
    added: usize,
) -> Result<(), StunWriteError>
    requires { added ≤ 65540 }
    ensures answer { MatchResult result
        (λ _. option_or (order_refusal (step_of addition) (W.state write.now).types)
        (room_refusal (length (W.state write.now).bytes) (W.state write.now).greatest
        (length (W.state write.now).bytes + added)) ≡ None)
        (λ e. option_or (order_refusal (step_of addition) (W.state write.now).types)
        (room_refusal (length (W.state write.now).bytes) (W.state write.now).greatest
        (length (W.state write.now).bytes + added)) ≡ Some e) }
    ensures header { OnOk result (20 ≤ length (W.state write.now).bytes) }
    ensures room { OnOk result
        (Fits (W.state write.now).greatest (length (W.state write.now).bytes + added)) }
    ensures fits { OnOk result (length (W.state write.now).bytes + added ≤ greatest_length) }
{
    check_order(found_before(write, addition), addition)?;
    check_room(write.len(), write.max_size(), added)
}
