//! Laws of the attributes that protect a message, and of USERHASH. Each function does nothing: its
//! contract is the law. The value of an attribute is read as the same attribute;
//! `integrity_types_are_read_back` says so of the type and the value together, for `from_raw_ref`
//! and `from_raw` of each of the four types.

ghost use Rattle.std.specs.Prelude.{◌≡◌, ◌≤◌, ◌%◌, Result, IsOkAnd, length};
ghost use Rattle.stun_grammar.specs.declared.error.StunParseError.{StunParseError};
ghost use Rattle.stun_grammar.specs.Numbers.{IsBytes};
ghost use Rattle.stun_attributes.specs.declared.integrity.fingerprint.Fingerprint.{Fingerprint};
ghost use Rattle.stun_attributes.specs.declared.integrity.message_integrity.MessageIntegrity.{MessageIntegrity};
ghost use Rattle.stun_attributes.specs.declared.integrity.message_integrity_sha256.MessageIntegritySha256.{MessageIntegritySha256};
ghost use Rattle.stun_attributes.specs.declared.integrity.userhash.Userhash.{Userhash};
ghost use Rattle.stun_attributes.specs.Integrity.{checksum_bytes, sha1_hmac, sha256_hmac, ReadsFingerprint, ReadsIntegrity, ReadsIntegritySha256};
ghost use Rattle.stun_values.specs.FingerprintValues.{masked_bytes};
ghost use Rattle.stun_attributes.specs.Userhash.{hash_bytes, ReadsUserhash};
ghost use Rattle.stun_attributes.specs.ReadBack.{IsReadBack};

use crate::integrity::{Fingerprint, MessageIntegrity, MessageIntegritySha256, Userhash};
use crate::wire::{Attribute, AttributeFromRaw};

/// A MESSAGE-INTEGRITY, of 20 bytes, is read back.
pub fn integrity_is_read_back()
    ensures { (attribute : MessageIntegrity) (result : Result MessageIntegrity StunParseError)
        → length (sha1_hmac attribute) ≡ 20
        → ReadsIntegrity (sha1_hmac attribute) result
        → IsOkAnd result (λ read. sha1_hmac read ≡ sha1_hmac attribute) }
{}

/// A MESSAGE-INTEGRITY-SHA256, of 16 to 32 bytes, a multiple of 4, is read back.
pub fn integrity_sha256_is_read_back()
    ensures { (attribute : MessageIntegritySha256)
        (result : Result MessageIntegritySha256 StunParseError)
        → 16 ≤ length (sha256_hmac attribute) → length (sha256_hmac attribute) ≤ 32
        → length (sha256_hmac attribute) % 4 ≡ 0
        → ReadsIntegritySha256 (sha256_hmac attribute) result
        → IsOkAnd result (λ read. sha256_hmac read ≡ sha256_hmac attribute) }
{}

/// A FINGERPRINT, of four bytes, is read back: the two XORs cancel out.
pub fn fingerprint_is_read_back()
    ensures { (attribute : Fingerprint) (result : Result Fingerprint StunParseError)
        → length (checksum_bytes attribute) ≡ 4 → IsBytes (checksum_bytes attribute)
        → ReadsFingerprint (masked_bytes (checksum_bytes attribute)) result
        → IsOkAnd result (λ read. checksum_bytes read ≡ checksum_bytes attribute) }
{}

/// A USERHASH, of 32 bytes, is read back.
pub fn userhash_is_read_back()
    ensures { (attribute : Userhash) (result : Result Userhash StunParseError)
        → length (hash_bytes attribute) ≡ 32
        → ReadsUserhash (hash_bytes attribute) result
        → IsOkAnd result (λ read. hash_bytes read ≡ hash_bytes attribute) }
{}

/// Each of the four types is read back: whatever `from_raw_ref` and `from_raw` may return
/// (`reads_ref` and `reads` of [`AttributeFromRaw`]) for the type and the value of an attribute,
/// which are what is written of it, is `Ok` of an attribute that holds the same. The lengths, and
/// that a checksum is bytes, hold of every value of the Rust types.
pub fn integrity_types_are_read_back<'a>()
    ensures message_integrity { (attribute : MessageIntegrity) →
        length (sha1_hmac attribute) ≡ 20 → IsReadBack
        ⟦<MessageIntegrity as Attribute>⟧.atype ⟦<MessageIntegrity as Attribute>⟧.value
        ⟦<MessageIntegrity as AttributeFromRaw<'a>>⟧.reads_ref
        ⟦<MessageIntegrity as AttributeFromRaw<'a>>⟧.reads attribute
        (λ read. sha1_hmac read ≡ sha1_hmac attribute) }
    ensures message_integrity_sha256 { (attribute : MessageIntegritySha256) →
        16 ≤ length (sha256_hmac attribute) → length (sha256_hmac attribute) ≤ 32
        → length (sha256_hmac attribute) % 4 ≡ 0 → IsReadBack
        ⟦<MessageIntegritySha256 as Attribute>⟧.atype ⟦<MessageIntegritySha256 as Attribute>⟧.value
        ⟦<MessageIntegritySha256 as AttributeFromRaw<'a>>⟧.reads_ref
        ⟦<MessageIntegritySha256 as AttributeFromRaw<'a>>⟧.reads attribute
        (λ read. sha256_hmac read ≡ sha256_hmac attribute) }
    ensures fingerprint { (attribute : Fingerprint) →
        length (checksum_bytes attribute) ≡ 4 → IsBytes (checksum_bytes attribute) → IsReadBack
        ⟦<Fingerprint as Attribute>⟧.atype ⟦<Fingerprint as Attribute>⟧.value
        ⟦<Fingerprint as AttributeFromRaw<'a>>⟧.reads_ref
        ⟦<Fingerprint as AttributeFromRaw<'a>>⟧.reads attribute
        (λ read. checksum_bytes read ≡ checksum_bytes attribute) }
    ensures userhash { (attribute : Userhash) →
        length (hash_bytes attribute) ≡ 32 → IsReadBack
        ⟦<Userhash as Attribute>⟧.atype ⟦<Userhash as Attribute>⟧.value
        ⟦<Userhash as AttributeFromRaw<'a>>⟧.reads_ref
        ⟦<Userhash as AttributeFromRaw<'a>>⟧.reads attribute
        (λ read. hash_bytes read ≡ hash_bytes attribute) }
{}
