//! The attributes that end a message, and their order.

ghost use Rattle.std.specs.Prelude.{◌≡◌, ℕ, List, [], ◌∷◌, ◌++◌, true, not, ◌||◌};
ghost use Rattle.stun_grammar.specs.ShownOrder.{in_order};
ghost use Rattle.stun_grammar.specs.ScannedOrder.{in_any_order};
ghost use Rattle.stun_attributes.specs.Raw.{raw_type};

use crate::attribute::RawAttribute;
use stun_grammar::attribute_types::{FINGERPRINT, MESSAGE_INTEGRITY, MESSAGE_INTEGRITY_SHA256};

/// The number of an attribute's type.
pub(crate) fn type_number(attribute: &RawAttribute<'_>) -> u16
    ensures { result ≡ raw_type attribute.now }
{
    attribute.header().get_type().value()
}

/// Whether an attribute of type `atype` is shown after one of type `last`.
pub(crate) fn follows(last: u16, atype: u16) -> bool
    ensures { result ≡ in_order (last ∷ (atype ∷ [])) }
{
    if last == FINGERPRINT {
        false
    } else if last == MESSAGE_INTEGRITY_SHA256 {
        atype == FINGERPRINT
    } else if last == MESSAGE_INTEGRITY {
        atype == FINGERPRINT || atype == MESSAGE_INTEGRITY_SHA256
    } else {
        true
    }
}

/// The ending types that a scan has met.
#[derive(Clone, Copy, Drop)]
pub(crate) struct Seen {
    integrity: bool,
    sha256: bool,
    fingerprint: bool,
}

impl Seen {
    ghost use Rattle.stun_types.specs.Endings.{Tracks};

    /// The state before the first attribute.
    pub(crate) fn none() -> Seen
        ensures { Tracks result [] }
    {
        Seen {
            integrity: false,
            sha256: false,
            fingerprint: false,
        }
    }

    /// Whether no ending type was met.
    fn is_empty(&self) -> bool
        ensures { result ≡ not (self.now.integrity || (self.now.sha256 || self.now.fingerprint)) }
    {
        !self.integrity && !self.sha256 && !self.fingerprint
    }

    /// Records the type of the next attribute, and returns whether it keeps the order: ordinary
    /// types first, and then ending types, each at most once.
    pub(crate) fn admits(&mut self, atype: u16) -> bool
        ensures { (types : List ℕ) → Tracks self.old types → in_any_order types ≡ true
            → (result ≡ in_any_order (types ++ atype ∷ []))
            × Tracks self.new (types ++ atype ∷ []) }
    {
        if atype == MESSAGE_INTEGRITY {
            let fresh = !self.integrity;
            self.integrity = true;
            fresh
        } else if atype == MESSAGE_INTEGRITY_SHA256 {
            let fresh = !self.sha256;
            self.sha256 = true;
            fresh
        } else if atype == FINGERPRINT {
            let fresh = !self.fingerprint;
            self.fingerprint = true;
            fresh
        } else {
            self.is_empty()
        }
    }
}
