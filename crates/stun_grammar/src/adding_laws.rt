//! The laws of appending an attribute. Each function does nothing: its contract is the law.

ghost use Rattle.std.specs.Prelude.{◌≡◌, ℕ, ◌^◌, ◌<◌, List, [], ◌∷◌, ◌++◌, length};
ghost use Rattle.stun_grammar.specs.declared.integrity_algorithm.IntegrityAlgorithm.{IntegrityAlgorithm};
ghost use Rattle.stun_grammar.specs.Attributes.{Attribute, canonical, encoding};
ghost use Rattle.stun_grammar.specs.Hmac.{hmac, digest_length};
ghost use Rattle.stun_grammar.specs.Fingerprints.{fingerprint_value};
ghost use Rattle.stun_grammar.specs.Writing.{message_encoding};
ghost use Rattle.stun_grammar.specs.Steps.{Step, sign, finger, appended_by, value_length};
ghost use Rattle.stun_grammar.specs.Adding.{appended};

/// The encoding of a message with an attribute appended is the encoding of the message whose list
/// of attributes has that attribute added at its end.
#[tactic(auto, using(crate::proofs::AddingLemmas::message_more))]
pub fn message_grows()
    ensures { (type id : ℕ) (attributes : List Attribute) (atype : ℕ) (value : List ℕ)
        → atype < 2 ^ 16 → length value < 2 ^ 16
        → appended (message_encoding type id attributes) atype value
        ≡ message_encoding type id (attributes ++ canonical atype value ∷ []) }
{}

/// An HMAC has 20 bytes with SHA-1 and 32 with SHA-256, whatever the key and the text (RFC 2104).
pub fn hmac_has_length()
    ensures { (algorithm : IntegrityAlgorithm) (key text : List ℕ)
        → length (hmac algorithm key text) ≡ digest_length algorithm }
{}

/// The value of a FINGERPRINT has four bytes (RFC 8489, section 14.7).
#[tactic(auto, using(crate::proofs::AddingLemmas::fingerprint_length))]
pub fn fingerprint_has_length()
    ensures { (d : List ℕ) (offset : ℕ) → length (fingerprint_value d offset) ≡ 4 }
{}

/// The length of a step's attribute in bytes: its value has `value_length` bytes, and its encoding
/// 24 bytes as a MESSAGE-INTEGRITY, 36 as a MESSAGE-INTEGRITY-SHA256 and 8 as a FINGERPRINT, each
/// with its header (RFC 8489, sections 14.5 to 14.7).
pub fn step_has_length()
    ensures value { (step : Step) (message : List ℕ)
        → length (appended_by step message).value ≡ value_length step }
    ensures sha1 { (key message : List ℕ)
        → length (encoding (appended_by (sign IntegrityAlgorithm.Sha1 key) message)) ≡ 24 }
    ensures sha256 { (key message : List ℕ)
        → length (encoding (appended_by (sign IntegrityAlgorithm.Sha256 key) message)) ≡ 36 }
    ensures fingerprint { (message : List ℕ)
        → length (encoding (appended_by finger message)) ≡ 8 }
{}
