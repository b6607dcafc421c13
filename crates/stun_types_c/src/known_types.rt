//! The types that an implementation of RFC 8489 understands.

ghost use Rattle.std.specs.Prelude.{◌≡◌, length};
ghost use Rattle.stun_text.specs.Slices.{laid_over};
ghost use Rattle.stun_transactions.specs.Responses.{own_types};

use stun_types::attribute::KNOWN;

/// The types of RFC 8489 that must be understood, as many as there is room for. Returns how many
/// there are.
#[unsafe(no_mangle)]
pub extern "C" fn stun_types_known_types(types: &mut [u16]) -> usize
    ensures count { result ≡ length own_types }
    ensures types { types.new ≡ laid_over own_types types.old }
{
    for i in 0..types.len().min(KNOWN.len()) {
        types[i] = KNOWN[i].0;
    }
    KNOWN.len()
}
