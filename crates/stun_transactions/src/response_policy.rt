//! What a STUN usage specifies.

ghost use Rattle.std.specs.Prelude.{◌≡◌};
ghost use Rattle.stun_types.specs.Message.{message_bytes};
ghost use Rattle.stun_transactions.specs.Usages.{lacks_fingerprint};

use stun_types::attribute::{AttributeStaticType, Fingerprint};
use stun_types::message::Message;

/// The requirements of a STUN usage on the responses that a client takes: those of ICE's checks, of
/// TURN, or of NAT discovery.
///
/// `ResponsePolicy::default()` is for a usage that specifies nothing: a MESSAGE-INTEGRITY-SHA256 must have
/// 32 bytes, and FINGERPRINT isn't required.
///
/// # Examples
///
/// ```
/// use stun_transactions::ResponsePolicy;
///
/// let ice = ResponsePolicy { fingerprint: true, ..ResponsePolicy::default() };
/// assert_eq!(rt; ice.min_hmac_length, 32);
/// ```
#[derive(Clone, Copy, Debug, PartialEq, Eq)]
pub struct ResponsePolicy {
    /// The least length of the HMAC in a MESSAGE-INTEGRITY-SHA256, in bytes. A usage may say 16,
    /// 20, 24 or 28; otherwise it is 32 (section 14.6).
    pub min_hmac_length: usize,
    /// Whether the usage sends FINGERPRINT, as ICE does: a response without one is discarded
    /// (sections 6.3 and 7).
    pub fingerprint: bool,
}

impl Default for ResponsePolicy {
    ghost use Rattle.std.specs.Prelude.{◌≡◌, false};

    ghost is_default = { λ usage. (usage.min_hmac_length ≡ 32) × (usage.fingerprint ≡ false) };

    fn default() -> Self {
        ResponsePolicy {
            min_hmac_length: 32,
            fingerprint: false,
        }
    }
}

impl ResponsePolicy {
    ghost use Rattle.std.specs.Prelude.{◌≡◌};
    ghost use Rattle.stun_types.specs.Message.{message_bytes};
    ghost use Rattle.stun_transactions.specs.Usages.{lacks_fingerprint};

    /// Whether the usage sends FINGERPRINT, and a message shows none.
    pub(crate) fn lacks_fingerprint(self, message: &Message<'_>) -> bool
        ensures { result ≡ lacks_fingerprint self (message_bytes message.now) }
    {
        self.fingerprint && !message.has_attribute(Fingerprint::TYPE)
    }
}
