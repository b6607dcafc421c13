ghost use Rattle.std.specs.Prelude.{◌≡◌};
ghost use Rattle.stun_attributes.specs.Userhash.{hash_bytes};

use crate::wire::{Attribute, BorrowValue, EncodeValue, ReadValue, TypedAttribute, copy_to_start};
use sha2::{Digest, Sha256};
use std::alloc::Global;
use std::fmt;
use stun_base::StunParseError;
use stun_grammar::attribute_types;
use stun_text::{PrintText, TextSink};
use stun_values::{check_hash_length, print_hex};

/// USERHASH (0x001E): the SHA-256 of `username:realm`, 32 bytes, which is sent instead of the
/// username (RFC 8489, section 14.4).
#[derive(Debug, Clone, PartialEq, Eq, Drop)]
pub struct Userhash {
    hash: [u8; 32],
}

impl Userhash {
    ghost use Rattle.stun_attributes.specs.Userhash.{user_hash};

    /// A USERHASH with the hash `hash`.
    ///
    /// # Examples
    ///
    /// ```
    /// use stun_types::attribute::Userhash;
    ///
    /// let userhash = Userhash::new(Userhash::compute("alice", "example.org"));
    /// assert_eq!(rt; &userhash.hash()[..4], [0x43, 0x5B, 0x79, 0x33].as_slice());
    /// ```
    pub fn new(hash: [u8; 32]) -> Self
        ensures { hash_bytes result ≡ hash }
    {
        Userhash { hash }
    }

    /// The hash that the USERHASH holds.
    pub fn hash(&self) -> &[u8; 32]
        ensures { result.now ≡ hash_bytes self.now }
    {
        &self.hash
    }

    /// The hash of a username and a realm: the SHA-256 of the username, a colon and the realm,
    /// which are used as they are (no SASLprep, no OpaqueString). It takes no memory.
    ///
    /// # Examples
    ///
    /// ```
    /// use stun_types::attribute::Userhash;
    ///
    /// // the SHA-256 of `alice:example.org`
    /// let hash = Userhash::compute("alice", "example.org");
    /// assert_eq!(rt; &hash[..4], [0x43, 0x5B, 0x79, 0x33].as_slice());
    /// ```
    pub fn compute(user: &str, realm: &str) -> [u8; 32]
        ensures { result ≡ user_hash user.now realm.now }
    {
        let mut hasher = Sha256::new();
        hasher.update(user.as_bytes());
        hasher.update(b":".as_slice());
        hasher.update(realm.as_bytes());
        hasher.finalize()
    }
}

impl TypedAttribute for Userhash {
    ghost use Rattle.stun_grammar.specs.AttributeTypes.{USERHASH};

    ghost NUMBER = { USERHASH };

    const NUMBER: u16 = attribute_types::USERHASH;
}

impl EncodeValue for Userhash {
    ghost use Rattle.std.specs.Prelude.{true};
    ghost use Rattle.stun_attributes.specs.Userhash.{hash_bytes};

    ghost bytes = { hash_bytes };

    ghost is_held = { λ _. true };

    fn value_length(&self) -> u16 {
        32
    }

    fn write_value(&self, dest: &mut [u8]) {
        copy_to_start(self.hash(), dest);
    }

    fn held_bytes(&self) -> Option<&[u8]> {
        Some(self.hash())
    }
}

impl BorrowValue for Userhash {
    fn value_bytes(&self) -> &[u8] {
        self.hash()
    }
}

/// Reading takes no memory.
///
/// # Errors
///
/// `Truncated { expected: 32, actual }` if the value has fewer than 32 bytes, and
/// `TooLarge { expected: 32, actual }` if it has more.
impl ReadValue for Userhash {
    ghost use Rattle.stun_attributes.specs.Userhash.{ReadsUserhash};

    ghost reads_value = { ReadsUserhash };

    fn read_value(_alloc: Global, value: &[u8]) -> Result<Self, StunParseError> {
        check_hash_length(value.len())?;
        let mut hash = [0; 32];
        hash.copy_from_slice(value);
        Ok(Userhash { hash })
    }
}

impl PrintText for Userhash {
    ghost use Rattle.stun_grammar.specs.AttributeTypes.{USERHASH};
    ghost use Rattle.stun_grammar.specs.Names.{hex_text};

    ghost text = { λ attribute. hex_text USERHASH (hash_bytes attribute) };

    fn print<S: TextSink>(&self, sink: &mut S) -> Result<(), S::Error> {
        print_hex(sink, self.get_type(), self.hash())
    }
}

/// The type and the hash in hexadecimal, two digits for each byte, in lower case:
/// `30(0x1e: USERHASH): 0x00010203` and so on.
impl fmt::Display for Userhash {
    ghost use Rattle.std.specs.Prelude.{Some};
    ghost use Rattle.stun_grammar.specs.AttributeTypes.{USERHASH};
    ghost use Rattle.stun_grammar.specs.Names.{hex_text};

    ghost output = { λ attribute. Some (hex_text USERHASH (hash_bytes attribute)) };

    fn fmt<W: fmt::Write>(&self, f: &mut fmt::Formatter<W>) -> fmt::Result {
        self.print(f)
    }
}
