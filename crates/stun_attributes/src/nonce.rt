ghost use Rattle.std.specs.Prelude.{◌≡◌};
ghost use Rattle.stun_attributes.specs.Texts.{text_bytes};

use crate::TextAttribute;
use stun_grammar::attribute_types;
use stun_values::NONCE_MAX;

/// NONCE (0x0015): a text that a server has a client repeat, at most 763 bytes of UTF-8 (RFC 8489,
/// section 14.10). What it begins with, as a nonce cookie (section 9.2), is not looked at.
///
/// # Examples
///
/// ```
/// use stun_types::attribute::Nonce;
///
/// let nonce = Nonce::new(alloc, "obMatJos2AAABf//499k954d6OL34oL9FSTvy64sA")?;
/// assert_eq!(rt; nonce.nonce().len(), 41);
/// ```
pub type Nonce = TextAttribute<{ attribute_types::NONCE }, { NONCE_MAX }>;

impl Nonce {
    /// The text of the NONCE.
    pub fn nonce(&self) -> &str
        ensures { result.now ≡ text_bytes self.now }
    {
        self.text()
    }
}
