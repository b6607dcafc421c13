ghost use Rattle.std.specs.Prelude.{◌≡◌, ◌+◌, ◌^◌, ◌<◌, ◌≤◌, length, drop, MatchResult, MatchOption, Some, None};
ghost use Rattle.stun_grammar.specs.Numbers.{padded_length};
ghost use Rattle.stun_grammar.specs.Chains.{first_attribute, fault};
ghost use Rattle.stun_attributes.specs.Raw.{Finds};

use crate::wire::RawAttribute;
use stun_base::{AttributeHeader, AttributeType, StunParseError, number_at, pad_attribute_len};

/// Why an attribute is refused whose header is at `offset` in a message of `actual` bytes, and
/// whose value of `length` bytes is cut off, or else the padding of that value.
#[cold]
#[inline(never)]
fn cut_off(offset: usize, length: usize, actual: usize) -> StunParseError
    requires within { offset < 2 ^ 63 }
    requires short { length < 2 ^ 16 }
    ensures value { actual < offset + 4 + length
        → result ≡ StunParseError.Truncated (offset + 4 + length) actual }
    ensures padding { offset + 4 + length ≤ actual
        → result ≡ StunParseError.Truncated (offset + 4 + padded_length length) actual }
{
    let value_end = offset + 4 + length;
    if actual < value_end {
        return StunParseError::Truncated {
            expected: value_end,
            actual,
        };
    }
    StunParseError::Truncated {
        expected: offset + 4 + pad_attribute_len(length),
        actual,
    }
}

/// Reads the attribute whose header is at `offset` in a message: the attribute, which borrows its
/// value, and the offset after its padding. `None` if the message ends at `offset`.
///
/// # Requires
///
/// `offset` is at most `bytes.len()`.
///
/// # Errors
///
/// `Truncated { expected, actual }` if the header, the value or the padding is cut off:
/// `expected` is the offset at which it would end, and `actual` the length of the message. If
/// the header is cut off, both are 4 more than that.
pub fn attribute_at<'a>(
    bytes: &'a [u8],
    offset: usize,
) -> Result<Option<(RawAttribute<'a>, usize)>, StunParseError>
    requires { offset ≤ length bytes.now }
    ensures { MatchResult result
        (λ found. MatchOption found
        ((first_attribute (drop offset bytes.now) ≡ None)
        × (fault offset (drop offset bytes.now) ≡ None))
        (λ x. (x.1 ≤ length bytes.now) × Finds x.0 x.1 offset bytes.now))
        (λ e. (first_attribute (drop offset bytes.now) ≡ None)
        × (fault offset (drop offset bytes.now) ≡ Some e)) }
{
    let rest = &bytes[offset..];
    if offset == bytes.len() {
        return Ok(None);
    }
    if rest.len() < 4 {
        return Err(StunParseError::Truncated {
            expected: offset + 8,
            actual: bytes.len() + 4,
        });
    }
    let stated = number_at(rest, 2);
    let length = stated as usize;
    let padded = pad_attribute_len(4 + length);
    if rest.len() < padded {
        return Err(cut_off(offset, length, bytes.len()));
    }
    let header = AttributeHeader {
        atype: AttributeType(number_at(rest, 0)),
        length: stated,
    };
    let attribute = RawAttribute::borrowed(header, &rest[4..4 + length]);
    Ok(Some((attribute, offset + padded)))
}
