ghost use Rattle.std.specs.Prelude.{◌≡◌};
ghost use Rattle.stun_attributes.specs.Texts.{text_bytes};

use crate::TextAttribute;
use stun_grammar::attribute_types;
use stun_values::SOFTWARE_MAX;

/// SOFTWARE (0x8022): a description of the software that sent the message, at most 763 bytes of
/// UTF-8 (RFC 8489, section 14.14).
///
/// # Examples
///
/// ```
/// use stun_types::attribute::Software;
///
/// let software = Software::new(alloc, "my client 1.0")?;
/// assert_eq!(rt; software.software(), "my client 1.0");
/// let text = format!(in alloc; "{software}")?;
/// assert_eq!(rt; text.as_str(), "32802(0x8022: SOFTWARE): 'my client 1.0'");
/// ```
pub type Software = TextAttribute<{ attribute_types::SOFTWARE }, { SOFTWARE_MAX }>;

impl Software {
    /// The text of the SOFTWARE.
    pub fn software(&self) -> &str
        ensures { result.now ≡ text_bytes self.now }
    {
        self.text()
    }
}
