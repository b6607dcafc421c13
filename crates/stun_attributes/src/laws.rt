//! Laws of the values. Each function does nothing: its contract is the law. The value of an
//! attribute is read as the same attribute; `attribute_types_are_read_back` says so of the type and
//! the value together, for `from_raw_ref` and `from_raw` of each of the types.

ghost use Rattle.std.specs.Prelude.{◌≡◌, ◌<◌, ℕ, Result, IsOkAnd, MatchResult, length};
ghost use Rattle.std.specs.declared.net.socket_addr.SocketAddr.{SocketAddr};
ghost use Rattle.stun_grammar.specs.AttributeTypes.{USERNAME, REALM, NONCE, SOFTWARE, ALTERNATE_DOMAIN};
ghost use Rattle.stun_grammar.specs.declared.error.StunParseError.{StunParseError};
ghost use Rattle.stun_grammar.specs.declared.error.StunParseError.TheVariants.{OutOfMemory};
ghost use Rattle.stun_attributes.specs.ReadBack.{HasOneReadingInMemory, IsReadBack, IsReadBackInMemory};
ghost use Rattle.stun_values.specs.Addresses.{IsInRange, IsPlain, IsXored};
ghost use Rattle.stun_values.specs.Algorithms.{algorithm_encoding, algorithms_encoding};
ghost use Rattle.stun_values.specs.ErrorValues.{error_value};
ghost use Rattle.stun_values.specs.TextValues.{text_max, username_max};
ghost use Rattle.stun_values.specs.TypeLists.{types_encoding, AreTypes};
ghost use Rattle.stun_attributes.specs.declared.alternate_server.AlternateServerKind.{AlternateServerKind};
ghost use Rattle.stun_attributes.specs.declared.error_code.ErrorCode.{ErrorCode};
ghost use Rattle.stun_attributes.specs.declared.password_algorithm.PasswordAlgorithm.{PasswordAlgorithm};
ghost use Rattle.stun_attributes.specs.declared.password_algorithms.PasswordAlgorithms.{PasswordAlgorithms};
ghost use Rattle.stun_attributes.specs.declared.text.TextAttribute.{TextAttribute};
ghost use Rattle.stun_attributes.specs.declared.unknown_attributes.UnknownAttributes.{UnknownAttributes};
ghost use Rattle.stun_attributes.specs.declared.xor_mapped_address.XorMappedAddressKind.{XorMappedAddressKind};
ghost use Rattle.stun_attributes.specs.declared.kinds.address.AddressAttribute.{AddressAttribute};
ghost use Rattle.stun_attributes.specs.declared.kinds.xored.XorAddressAttribute.{XorAddressAttribute};
ghost use Rattle.stun_attributes.specs.Kinds.{addr_of, xored_of};
ghost use Rattle.stun_attributes.specs.ErrorCodes.{error_code, error_reason, IsError, ReadsError};
ghost use Rattle.stun_attributes.specs.PasswordAlgorithms.{ReadsAlgorithm, ReadsAlgorithms, held_algorithm, held_algorithms};
ghost use Rattle.stun_attributes.specs.Texts.{text_bytes};
ghost use Rattle.stun_attributes.specs.Unknown.{ReadsTypes, listed};

use crate::wire::{Attribute, AttributeFromRaw, EncodeValue, ReadValue};
use crate::{
    AlternateDomain, AlternateServer, ErrorCode, Nonce, PasswordAlgorithm, PasswordAlgorithms,
    Realm, Software, TextAttribute, UnknownAttributes, Username, XorMappedAddress,
};

/// A text has one reading, unless out of memory.
#[tactic(auto, using(crate::proofs::TextsLemmas::read_back))]
pub fn text_is_read_back<const TYPE: u16, const MAX: u16>()
    ensures { (text : TextAttribute TYPE MAX) → HasOneReadingInMemory
        ⟦<TextAttribute<TYPE, MAX> as EncodeValue>⟧.bytes
        ⟦<TextAttribute<TYPE, MAX> as ReadValue>⟧.reads_value text
        (λ read. text_bytes read ≡ text_bytes text) }
{}

/// An address without flow info and scope ID that is XORed twice under one transaction ID is
/// unchanged.
pub fn xor_twice()
    ensures { (id : ℕ) (addr x y : SocketAddr) → IsPlain addr → IsInRange addr
        → IsXored id addr x → IsXored id x y → y ≡ addr }
{}

/// An ERROR-CODE is read back, unless out of memory.
#[tactic(auto, using(crate::proofs::ReadBackLemmas::error_back))]
pub fn error_is_read_back()
    ensures { (attribute : ErrorCode) (result : Result ErrorCode StunParseError)
        → ReadsError (error_value (error_code attribute) (error_reason attribute)) result
        → MatchResult result (IsError (error_code attribute) (error_reason attribute))
        (λ e. e ≡ OutOfMemory) }
{}

/// An UNKNOWN-ATTRIBUTES is read back, unless out of memory.
#[tactic(auto, using(crate::proofs::ReadBackLemmas::types_back))]
pub fn types_are_read_back()
    ensures { (attribute : UnknownAttributes) (result : Result UnknownAttributes StunParseError)
        → AreTypes (listed attribute) → ReadsTypes (types_encoding (listed attribute)) result
        → MatchResult result (λ read. AreTypes (listed read) → listed read ≡ listed attribute)
        (λ e. e ≡ OutOfMemory) }
{}

/// A PASSWORD-ALGORITHM is read back.
#[tactic(auto, using(crate::proofs::ReadBackLemmas::algorithm_back))]
pub fn algorithm_is_read_back()
    ensures { (attribute : PasswordAlgorithm) (result : Result PasswordAlgorithm StunParseError)
        → ReadsAlgorithm (algorithm_encoding (held_algorithm attribute)) result
        → IsOkAnd result (λ read. held_algorithm read ≡ held_algorithm attribute) }
{}

/// A PASSWORD-ALGORITHMS that isn't empty is read back, unless out of memory.
#[tactic(auto, using(crate::proofs::ReadBackLemmas::algorithms_back))]
pub fn algorithms_are_read_back()
    ensures { (attribute : PasswordAlgorithms) (result : Result PasswordAlgorithms StunParseError)
        → 0 < length (held_algorithms attribute)
        → ReadsAlgorithms (algorithms_encoding (held_algorithms attribute)) result
        → MatchResult result (λ read. held_algorithms read ≡ held_algorithms attribute)
        (λ e. e ≡ OutOfMemory) }
{}

/// Each of the types is read back: whatever `from_raw_ref` and `from_raw` may return (`reads_ref` and
/// `reads` of [`AttributeFromRaw`]) for the type and the value of an attribute, which are what is
/// written of it, is `Ok` of an attribute that holds the same; or `OutOfMemory`, but only for a type
/// that keeps its value in memory of its own. There are two exceptions: flow info and scope ID of an
/// ALTERNATE-SERVER are not written, and an empty PASSWORD-ALGORITHMS, which can be written, is
/// refused. `IsInRange` and `AreTypes` hold of every value of the Rust types.
pub fn attribute_types_are_read_back<'a>()
    ensures username { (attribute : TextAttribute USERNAME username_max) → IsReadBackInMemory
        ⟦<Username as Attribute>⟧.atype ⟦<Username as Attribute>⟧.value
        ⟦<Username as AttributeFromRaw<'a>>⟧.reads_ref
        ⟦<Username as AttributeFromRaw<'a>>⟧.reads attribute
        (λ read. text_bytes read ≡ text_bytes attribute) }
    ensures realm { (attribute : TextAttribute REALM text_max) → IsReadBackInMemory
        ⟦<Realm as Attribute>⟧.atype ⟦<Realm as Attribute>⟧.value
        ⟦<Realm as AttributeFromRaw<'a>>⟧.reads_ref
        ⟦<Realm as AttributeFromRaw<'a>>⟧.reads attribute
        (λ read. text_bytes read ≡ text_bytes attribute) }
    ensures nonce { (attribute : TextAttribute NONCE text_max) → IsReadBackInMemory
        ⟦<Nonce as Attribute>⟧.atype ⟦<Nonce as Attribute>⟧.value
        ⟦<Nonce as AttributeFromRaw<'a>>⟧.reads_ref
        ⟦<Nonce as AttributeFromRaw<'a>>⟧.reads attribute
        (λ read. text_bytes read ≡ text_bytes attribute) }
    ensures software { (attribute : TextAttribute SOFTWARE text_max) → IsReadBackInMemory
        ⟦<Software as Attribute>⟧.atype ⟦<Software as Attribute>⟧.value
        ⟦<Software as AttributeFromRaw<'a>>⟧.reads_ref
        ⟦<Software as AttributeFromRaw<'a>>⟧.reads attribute
        (λ read. text_bytes read ≡ text_bytes attribute) }
    ensures alternate_domain { (attribute : TextAttribute ALTERNATE_DOMAIN 65535) → IsReadBackInMemory
        ⟦<AlternateDomain as Attribute>⟧.atype ⟦<AlternateDomain as Attribute>⟧.value
        ⟦<AlternateDomain as AttributeFromRaw<'a>>⟧.reads_ref
        ⟦<AlternateDomain as AttributeFromRaw<'a>>⟧.reads attribute
        (λ read. text_bytes read ≡ text_bytes attribute) }
    // an address without flow info and scope ID
    ensures alternate_server { (attribute : AddressAttribute AlternateServerKind)
        → IsPlain (addr_of attribute)
        → IsInRange (addr_of attribute) → IsReadBack
        ⟦<AlternateServer as Attribute>⟧.atype ⟦<AlternateServer as Attribute>⟧.value
        ⟦<AlternateServer as AttributeFromRaw<'a>>⟧.reads_ref
        ⟦<AlternateServer as AttributeFromRaw<'a>>⟧.reads attribute
        (λ read. IsInRange (addr_of read) → addr_of read ≡ addr_of attribute) }
    ensures xor_mapped_address { (attribute : XorAddressAttribute XorMappedAddressKind) →
        IsInRange (xored_of attribute) → IsReadBack
        ⟦<XorMappedAddress as Attribute>⟧.atype ⟦<XorMappedAddress as Attribute>⟧.value
        ⟦<XorMappedAddress as AttributeFromRaw<'a>>⟧.reads_ref
        ⟦<XorMappedAddress as AttributeFromRaw<'a>>⟧.reads attribute
        (λ read. IsInRange (xored_of read)
        → xored_of read ≡ xored_of attribute) }
    ensures error_code { (attribute : ErrorCode) → IsReadBackInMemory
        ⟦<ErrorCode as Attribute>⟧.atype ⟦<ErrorCode as Attribute>⟧.value
        ⟦<ErrorCode as AttributeFromRaw<'a>>⟧.reads_ref
        ⟦<ErrorCode as AttributeFromRaw<'a>>⟧.reads attribute
        (IsError (error_code attribute) (error_reason attribute)) }
    ensures unknown_attributes { (attribute : UnknownAttributes) → AreTypes (listed attribute) →
        IsReadBackInMemory
        ⟦<UnknownAttributes as Attribute>⟧.atype ⟦<UnknownAttributes as Attribute>⟧.value
        ⟦<UnknownAttributes as AttributeFromRaw<'a>>⟧.reads_ref
        ⟦<UnknownAttributes as AttributeFromRaw<'a>>⟧.reads attribute
        (λ read. AreTypes (listed read) → listed read ≡ listed attribute) }
    ensures password_algorithm { (attribute : PasswordAlgorithm) → IsReadBack
        ⟦<PasswordAlgorithm as Attribute>⟧.atype ⟦<PasswordAlgorithm as Attribute>⟧.value
        ⟦<PasswordAlgorithm as AttributeFromRaw<'a>>⟧.reads_ref
        ⟦<PasswordAlgorithm as AttributeFromRaw<'a>>⟧.reads attribute
        (λ read. held_algorithm read ≡ held_algorithm attribute) }
    // at least one algorithm
    ensures password_algorithms { (attribute : PasswordAlgorithms) →
        0 < length (held_algorithms attribute) → IsReadBackInMemory
        ⟦<PasswordAlgorithms as Attribute>⟧.atype ⟦<PasswordAlgorithms as Attribute>⟧.value
        ⟦<PasswordAlgorithms as AttributeFromRaw<'a>>⟧.reads_ref
        ⟦<PasswordAlgorithms as AttributeFromRaw<'a>>⟧.reads attribute
        (λ read. held_algorithms read ≡ held_algorithms attribute) }
{}
