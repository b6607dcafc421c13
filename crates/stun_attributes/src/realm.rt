ghost use Rattle.std.specs.Prelude.{◌≡◌};
ghost use Rattle.stun_attributes.specs.Texts.{text_bytes};

use crate::TextAttribute;
use stun_grammar::attribute_types;
use stun_values::REALM_MAX;

/// REALM (0x0014): the realm of a long-term credential, at most 763 bytes of UTF-8 (RFC 8489,
/// section 14.9). It is used as it is: no function applies SASLprep or the OpaqueString profile to
/// it, and it has no quotation marks unless the text has them.
///
/// # Examples
///
/// ```
/// use stun_types::attribute::Realm;
///
/// let realm = Realm::new(alloc, "example.org")?;
/// assert_eq!(rt; realm.realm(), "example.org");
/// ```
pub type Realm = TextAttribute<{ attribute_types::REALM }, { REALM_MAX }>;

impl Realm {
    /// The text of the REALM.
    pub fn realm(&self) -> &str
        ensures { result.now ≡ text_bytes self.now }
    {
        self.text()
    }
}
