//! The numbers of the attribute types (RFC 8489, section 18.3).

ghost use Rattle.std.specs.Prelude.{◌≡◌};
ghost use Rattle.stun_grammar.specs.AttributeTypes.{is_ending};

/// MAPPED-ADDRESS.
pub const MAPPED_ADDRESS: u16 = 0x0001;

/// USERNAME.
pub const USERNAME: u16 = 0x0006;

/// MESSAGE-INTEGRITY.
pub const MESSAGE_INTEGRITY: u16 = 0x0008;

/// ERROR-CODE.
pub const ERROR_CODE: u16 = 0x0009;

/// UNKNOWN-ATTRIBUTES.
pub const UNKNOWN_ATTRIBUTES: u16 = 0x000A;

/// REALM.
pub const REALM: u16 = 0x0014;

/// NONCE.
pub const NONCE: u16 = 0x0015;

/// MESSAGE-INTEGRITY-SHA256.
pub const MESSAGE_INTEGRITY_SHA256: u16 = 0x001C;

/// PASSWORD-ALGORITHM.
pub const PASSWORD_ALGORITHM: u16 = 0x001D;

/// USERHASH.
pub const USERHASH: u16 = 0x001E;

/// XOR-MAPPED-ADDRESS.
pub const XOR_MAPPED_ADDRESS: u16 = 0x0020;

/// PASSWORD-ALGORITHMS.
pub const PASSWORD_ALGORITHMS: u16 = 0x8002;

/// ALTERNATE-DOMAIN.
pub const ALTERNATE_DOMAIN: u16 = 0x8003;

/// SOFTWARE.
pub const SOFTWARE: u16 = 0x8022;

/// ALTERNATE-SERVER.
pub const ALTERNATE_SERVER: u16 = 0x8023;

/// FINGERPRINT.
pub const FINGERPRINT: u16 = 0x8028;

/// Whether the type is one of the three that follow all others: MESSAGE-INTEGRITY,
/// MESSAGE-INTEGRITY-SHA256 and FINGERPRINT.
pub fn is_ending(atype: u16) -> bool
    ensures { result ≡ is_ending atype }
{
    atype == MESSAGE_INTEGRITY || atype == MESSAGE_INTEGRITY_SHA256 || atype == FINGERPRINT
}
