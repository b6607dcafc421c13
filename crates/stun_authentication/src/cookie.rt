//! The beginning of a nonce that has the security features of its server (RFC 8489, sections 9.2
//! and 18.1).

ghost use Rattle.std.specs.Prelude.{◌≡◌};
ghost use Rattle.stun_authentication.specs.Cookies.{security_features, cookie};

use crate::base64::six_bits;

/// The security features that a server states at the beginning of its nonces (RFC 8489,
/// section 18.1).
#[derive(Clone, Copy, Debug, Default, PartialEq, Eq)]
pub struct SecurityFeatures {
    /// Whether the server sends PASSWORD-ALGORITHMS, the list of its password algorithms, with the
    /// nonce. Bit 0, the most significant one.
    pub password_algorithms: bool,
    /// Whether the server knows its users by USERHASH too. Bit 1.
    pub username_anonymity: bool,
}

/// Returns the nonce cookie of a server with these features, the thirteen bytes with which its
/// nonces begin: `obMatJos2`, and 24 bits in base64, of which bits 2 to 23 are 0 (RFC 8489, section
/// 9.2).
///
/// # Examples
///
/// ```
/// use stun_authentication::{SecurityFeatures, nonce_cookie};
///
/// // The nonces of section 20 of RFC 8656 begin with it: of the 24 bits the first one is set.
/// let features = SecurityFeatures { password_algorithms: true, username_anonymity: false };
/// assert_eq!(rt; nonce_cookie(features), "obMatJos2gAAA");
/// ```
pub fn nonce_cookie(features: SecurityFeatures) -> &'static str
    ensures { result.now ≡ cookie features }
{
    match (features.password_algorithms, features.username_anonymity) {
        (false, false) => "obMatJos2AAAA",
        (true, false) => "obMatJos2gAAA",
        (false, true) => "obMatJos2QAAA",
        (true, true) => "obMatJos2wAAA",
    }
}

/// Returns the security features of a nonce, or `None` if it doesn't begin with a nonce cookie:
/// `obMatJos2`, and four characters of base64, which spell 24 bits (RFC 8489, section 9.2). Bits 2
/// to 23 may be anything.
///
/// # Examples
///
/// ```
/// use stun_authentication::{SecurityFeatures, security_features};
///
/// // The nonce of section 20 of RFC 8656, and that of section 2.4 of RFC 5769.
/// let features = SecurityFeatures { password_algorithms: true, username_anonymity: false };
/// assert_eq!(rt; security_features(b"obMatJos2gAAAadl7W7PeDU4hKE72jda"), Some(features));
/// assert_eq!(rt; security_features(b"f//499k954d6OL34oL9FSTvy64sA"), None);
/// ```
#[tactic(auto, unfolding(crate::specs::Cookies::security_features))]
pub fn security_features(nonce: &[u8]) -> Option<SecurityFeatures>
    ensures { result ≡ security_features nonce.now }
{
    if nonce.len() < 13 || !nonce.starts_with(b"obMatJos2") {
        return None;
    }
    let first = six_bits(nonce[9])?;
    six_bits(nonce[10])?;
    six_bits(nonce[11])?;
    six_bits(nonce[12])?;
    Some(SecurityFeatures {
        password_algorithms: first & 0x20 != 0,
        username_anonymity: first & 0x10 != 0,
    })
}
