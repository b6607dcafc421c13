ghost use Rattle.std.specs.Prelude.{◌≡◌};
ghost use Rattle.stun_attributes.specs.Texts.{text_bytes};

use crate::TextAttribute;
use stun_grammar::attribute_types;
use stun_values::USERNAME_MAX;

/// USERNAME (0x0006): the name of the user of a credential, at most 513 bytes of UTF-8, both when
/// it is made and when it is read. RFC 8489 (section 14.3) has a sender write at most 508 and a
/// reader accept 763. It is used as it is: no function applies SASLprep or the OpaqueString profile
/// to it.
///
/// # Examples
///
/// ```
/// use stun_types::attribute::Username;
///
/// let username = Username::new(alloc, "alice")?;
/// assert_eq!(rt; username.username(), "alice");
/// assert!(rt; Username::new(alloc, &format!(in alloc; "{:514}", "a")?).is_err());
/// ```
pub type Username = TextAttribute<{ attribute_types::USERNAME }, { USERNAME_MAX }>;

impl Username {
    /// The text of the USERNAME.
    pub fn username(&self) -> &str
        ensures { result.now ≡ text_bytes self.now }
    {
        self.text()
    }
}
