//! By which rule each typed attribute is read. The function does nothing: its contract is the law.

ghost use Rattle.stun_grammar.specs.AttributeTypes.{ALTERNATE_DOMAIN, ALTERNATE_SERVER, ERROR_CODE, FINGERPRINT, MESSAGE_INTEGRITY, MESSAGE_INTEGRITY_SHA256, NONCE, PASSWORD_ALGORITHM, PASSWORD_ALGORITHMS, REALM, SOFTWARE, UNKNOWN_ATTRIBUTES, USERHASH, USERNAME, XOR_MAPPED_ADDRESS};
ghost use Rattle.stun_values.specs.TextValues.{text_max, username_max};
ghost use Rattle.stun_attributes.specs.AddressAttributes.{ReadsAddress};
ghost use Rattle.stun_attributes.specs.Kinds.{addr_of, xored_of};
ghost use Rattle.stun_attributes.specs.ErrorCodes.{ReadsError};
ghost use Rattle.stun_attributes.specs.PasswordAlgorithms.{ReadsAlgorithm, ReadsAlgorithms};
ghost use Rattle.stun_attributes.specs.Texts.{ReadsText};
ghost use Rattle.stun_attributes.specs.Unknown.{ReadsTypes};
ghost use Rattle.stun_attributes.specs.Integrity.{ReadsFingerprint, ReadsIntegrity, ReadsIntegritySha256};
ghost use Rattle.stun_attributes.specs.Userhash.{ReadsUserhash};
ghost use Rattle.stun_types.specs.ReadTypes.{IsReadBy};

use crate::attribute::{
    AlternateDomain, AlternateServer, AttributeFromRaw, ErrorCode, Fingerprint, MessageIntegrity,
    MessageIntegritySha256, Nonce, PasswordAlgorithm, PasswordAlgorithms, Realm, Software,
    UnknownAttributes, Userhash, Username, XorMappedAddress,
};

/// Each of the fifteen types is read under its own number (RFC 8489, section 18.3), by the rule of
/// its own value: whatever `from_raw_ref` and `from_raw` may return (`reads_ref` and `reads` of
/// [`AttributeFromRaw`]). A text has its own greatest length.
pub fn types_are_read<'a>()
    ensures username { IsReadBy USERNAME (ReadsText username_max)
        ⟦<Username as AttributeFromRaw<'a>>⟧.reads_ref
        ⟦<Username as AttributeFromRaw<'a>>⟧.reads }
    ensures realm { IsReadBy REALM (ReadsText text_max)
        ⟦<Realm as AttributeFromRaw<'a>>⟧.reads_ref
        ⟦<Realm as AttributeFromRaw<'a>>⟧.reads }
    ensures nonce { IsReadBy NONCE (ReadsText text_max)
        ⟦<Nonce as AttributeFromRaw<'a>>⟧.reads_ref
        ⟦<Nonce as AttributeFromRaw<'a>>⟧.reads }
    ensures software { IsReadBy SOFTWARE (ReadsText text_max)
        ⟦<Software as AttributeFromRaw<'a>>⟧.reads_ref
        ⟦<Software as AttributeFromRaw<'a>>⟧.reads }
    ensures alternate_domain { IsReadBy ALTERNATE_DOMAIN (ReadsText 65535)
        ⟦<AlternateDomain as AttributeFromRaw<'a>>⟧.reads_ref
        ⟦<AlternateDomain as AttributeFromRaw<'a>>⟧.reads }
    ensures alternate_server { IsReadBy ALTERNATE_SERVER (ReadsAddress addr_of)
        ⟦<AlternateServer as AttributeFromRaw<'a>>⟧.reads_ref
        ⟦<AlternateServer as AttributeFromRaw<'a>>⟧.reads }
    // the address as it is written, which is XORed
    ensures xor_mapped_address { IsReadBy XOR_MAPPED_ADDRESS (ReadsAddress xored_of)
        ⟦<XorMappedAddress as AttributeFromRaw<'a>>⟧.reads_ref
        ⟦<XorMappedAddress as AttributeFromRaw<'a>>⟧.reads }
    ensures error_code { IsReadBy ERROR_CODE ReadsError
        ⟦<ErrorCode as AttributeFromRaw<'a>>⟧.reads_ref
        ⟦<ErrorCode as AttributeFromRaw<'a>>⟧.reads }
    ensures unknown_attributes { IsReadBy UNKNOWN_ATTRIBUTES ReadsTypes
        ⟦<UnknownAttributes as AttributeFromRaw<'a>>⟧.reads_ref
        ⟦<UnknownAttributes as AttributeFromRaw<'a>>⟧.reads }
    ensures password_algorithm { IsReadBy PASSWORD_ALGORITHM ReadsAlgorithm
        ⟦<PasswordAlgorithm as AttributeFromRaw<'a>>⟧.reads_ref
        ⟦<PasswordAlgorithm as AttributeFromRaw<'a>>⟧.reads }
    ensures password_algorithms { IsReadBy PASSWORD_ALGORITHMS ReadsAlgorithms
        ⟦<PasswordAlgorithms as AttributeFromRaw<'a>>⟧.reads_ref
        ⟦<PasswordAlgorithms as AttributeFromRaw<'a>>⟧.reads }
    ensures message_integrity { IsReadBy MESSAGE_INTEGRITY ReadsIntegrity
        ⟦<MessageIntegrity as AttributeFromRaw<'a>>⟧.reads_ref
        ⟦<MessageIntegrity as AttributeFromRaw<'a>>⟧.reads }
    ensures message_integrity_sha256 { IsReadBy MESSAGE_INTEGRITY_SHA256 ReadsIntegritySha256
        ⟦<MessageIntegritySha256 as AttributeFromRaw<'a>>⟧.reads_ref
        ⟦<MessageIntegritySha256 as AttributeFromRaw<'a>>⟧.reads }
    ensures fingerprint { IsReadBy FINGERPRINT ReadsFingerprint
        ⟦<Fingerprint as AttributeFromRaw<'a>>⟧.reads_ref
        ⟦<Fingerprint as AttributeFromRaw<'a>>⟧.reads }
    ensures userhash { IsReadBy USERHASH ReadsUserhash
        ⟦<Userhash as AttributeFromRaw<'a>>⟧.reads_ref
        ⟦<Userhash as AttributeFromRaw<'a>>⟧.reads }
{}
