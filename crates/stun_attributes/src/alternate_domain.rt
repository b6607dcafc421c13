ghost use Rattle.std.specs.Prelude.{◌≡◌};
ghost use Rattle.stun_attributes.specs.Texts.{text_bytes};

use crate::TextAttribute;
use stun_grammar::attribute_types;
use stun_values::ALTERNATE_DOMAIN_MAX;

/// ALTERNATE-DOMAIN (0x8003): the domain name of the server in an ALTERNATE-SERVER, at most 65535
/// bytes of UTF-8, as many as a value may have (RFC 8489, section 14.16). That it is a domain name
/// is not tested.
///
/// # Examples
///
/// ```
/// use stun_types::attribute::AlternateDomain;
///
/// let domain = AlternateDomain::new(alloc, "stun.example.net")?;
/// assert_eq!(rt; domain.domain(), "stun.example.net");
/// ```
pub type AlternateDomain = TextAttribute<
    { attribute_types::ALTERNATE_DOMAIN },
    { ALTERNATE_DOMAIN_MAX },
>;

impl AlternateDomain {
    /// The domain name of the ALTERNATE-DOMAIN.
    pub fn domain(&self) -> &str
        ensures { result.now ≡ text_bytes self.now }
    {
        self.text()
    }
}
