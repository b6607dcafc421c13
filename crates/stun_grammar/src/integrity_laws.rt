//! The laws of what an integrity attribute authenticates, and of signed messages. Each function
//! does nothing: its contract is the law.
//!
//! `Validates made_for key d c algorithm` says that validation of the bytes `d` returns
//! `algorithm`, and that the attribute that was checked covers the bytes `c`. `key` gives each
//! algorithm its key, and `made_for` is the algorithm that the key was made for, if it was made for
//! one.

ghost use Rattle.std.specs.Prelude.{◌≡◌, ℕ, ◌+◌, ◌^◌, ◌<◌, ◌↔◌, ◌⊎◌, Bool, true, false, ◌==◌, List, [], ◌∷◌, ◌++◌, length, find, Option, Some, None, IfSome, Ok};
ghost use Rattle.std.specs.List.{AllByRecursion, list_any};
ghost use Rattle.stun_grammar.specs.Numbers.{padded_length, IsBytes};
ghost use Rattle.stun_grammar.specs.Attributes.{Attribute, types};
ghost use Rattle.stun_grammar.specs.Chains.{placed};
ghost use Rattle.stun_grammar.specs.AttributeTypes.{FINGERPRINT};
ghost use Rattle.stun_grammar.specs.Parsing.{parse_fault};
ghost use Rattle.stun_grammar.specs.Showing.{shown};
ghost use Rattle.stun_grammar.specs.Fingerprints.{first_fingerprint_fault};
ghost use Rattle.stun_grammar.specs.Verdicts.{type_of_algorithm, is_checked_type, last_shown, verdict, verdict_by, GivesHmac, Validates};
ghost use Rattle.stun_grammar.specs.Hmac.{hmac};
ghost use Rattle.stun_grammar.specs.Authentic.{IsLocal, content, content_through, shows_fingerprint, authentic, authentic_fingerprint, authentic_shown};
ghost use Rattle.stun_grammar.specs.Carrying.{Carries, CarriesPrefix};
ghost use Rattle.stun_grammar.specs.Writing.{message_encoding, IsWritable};
ghost use Rattle.stun_grammar.specs.Steps.{Step, sign, sign_given, with_step, IsEncodable, IsOrdinaryStep, value_length, is_signing, integrity_value, SignsAs};
ghost use Rattle.stun_grammar.specs.Sending.{Sent, body, sent_encoding, written_by, MayFollow, IsEncodableSent, IsAccepted};
ghost use Rattle.stun_grammar.specs.Origin.{Signature, signed, signed_from, reported, IsUnsigned, ComesFrom};
ghost use Rattle.stun_grammar.specs.declared.integrity_algorithm.IntegrityAlgorithm.{IntegrityAlgorithm};

/// The content of a message that validates is determined by the covered bytes, the key and the
/// algorithm: its type, its transaction ID and all attributes shown, except whether a FINGERPRINT
/// is among them.
pub fn integrity_is_local()
    // type, transaction ID and all attributes shown but a FINGERPRINT
    ensures reported { (key : IntegrityAlgorithm → List ℕ) (d c : List ℕ) (a : IntegrityAlgorithm)
        → IsBytes d → Validates None key d c a → content d ≡ authentic c (key a) a }
    // the same from the verdict alone: if it is Ok, some bytes were covered
    ensures verdict { (key : IntegrityAlgorithm → List ℕ) (d : List ℕ) (a : IntegrityAlgorithm)
        → IsBytes d → verdict (is_checked_type None) key d ≡ Ok a → IsLocal d (key a) a }
    // a FINGERPRINT that is shown
    ensures fingerprint { (key : IntegrityAlgorithm → List ℕ) (d c : List ℕ)
        (a : IntegrityAlgorithm)
        → IsBytes d → parse_fault d ≡ None → Validates None key d c a
        → IfSome (find (λ x. x.type == FINGERPRINT) (shown d))
        (λ x. x ≡ authentic_fingerprint c (key a) a) }
    // all attributes shown, given whether a FINGERPRINT is among them
    ensures whole { (key : IntegrityAlgorithm → List ℕ) (d c : List ℕ) (a : IntegrityAlgorithm)
        → IsBytes d → parse_fault d ≡ None → Validates None key d c a
        → shown d ≡ authentic_shown c (key a) a (shows_fingerprint d) }
    // so two messages with the same covered bytes have the same content
    ensures same { (key : IntegrityAlgorithm → List ℕ) (d e c : List ℕ) (a : IntegrityAlgorithm)
        → IsBytes d → IsBytes e
        → Validates None key d c a → Validates None key e c a → content d ≡ content e }
    ensures same_shown { (key : IntegrityAlgorithm → List ℕ) (d e c : List ℕ)
        (a : IntegrityAlgorithm)
        → IsBytes d → IsBytes e → parse_fault d ≡ None → parse_fault e ≡ None
        → Validates None key d c a → Validates None key e c a
        → shows_fingerprint d ≡ shows_fingerprint e → shown d ≡ shown e }
{}

/// A message that parses validates with given covered bytes exactly if it carries those bytes and
/// their HMAC. Only what follows the integrity attribute that was checked, and the length field,
/// can be changed.
pub fn integrity_is_exact()
    ensures { (key : IntegrityAlgorithm → List ℕ) (d c : List ℕ) (a : IntegrityAlgorithm)
        → IsBytes d → parse_fault d ≡ None
        → Validates None key d c a ↔ Carries d c (key a) a }
{}

/// The same for validation with a key, of the attributes shown up to and including the one that was
/// checked. With a key that has no algorithm, that is the last integrity attribute.
pub fn integrity_is_local_with_key()
    // type, transaction ID and the attributes shown through the one that was checked
    ensures reported { (made_for : Option IntegrityAlgorithm) (key : IntegrityAlgorithm → List ℕ)
        (d c : List ℕ) (a : IntegrityAlgorithm)
        → IsBytes d → Validates made_for key d c a
        → content_through (is_checked_type made_for) d ≡ authentic c (key a) a }
    // a FINGERPRINT, if no integrity attribute is shown after the one that was checked
    ensures fingerprint { (made_for : Option IntegrityAlgorithm) (key : IntegrityAlgorithm → List ℕ)
        (d c : List ℕ) (a : IntegrityAlgorithm)
        → IsBytes d → parse_fault d ≡ None
        → last_shown (is_checked_type None) d ≡ last_shown (is_checked_type made_for) d
        → Validates made_for key d c a
        → IfSome (find (λ x. x.type == FINGERPRINT) (shown d))
        (λ x. x ≡ authentic_fingerprint c (key a) a) }
    // so two messages with the same covered bytes have the same content
    ensures same { (made_for : Option IntegrityAlgorithm) (key : IntegrityAlgorithm → List ℕ)
        (d e c : List ℕ) (a : IntegrityAlgorithm)
        → IsBytes d → IsBytes e
        → Validates made_for key d c a → Validates made_for key e c a
        → content_through (is_checked_type made_for) d
        ≡ content_through (is_checked_type made_for) e }
{}

/// A key that was made for one algorithm validates with that algorithm only, and validates exactly
/// the messages that carry covered bytes and their HMAC, whatever follows.
pub fn integrity_is_exact_with_key()
    ensures own { (made_for a : IntegrityAlgorithm) (key : IntegrityAlgorithm → List ℕ)
        (d c : List ℕ)
        → IsBytes d → Validates (Some made_for) key d c a → a ≡ made_for }
    ensures exact { (key : IntegrityAlgorithm → List ℕ) (d c : List ℕ) (a : IntegrityAlgorithm)
        → IsBytes d → parse_fault d ≡ None
        → Validates (Some a) key d c a ↔ CarriesPrefix d c (key a) a }
{}

/// Whatever messages were sent: either no sender signed the covered bytes with that key and
/// algorithm, or the content is that of one of the messages, through an integrity attribute that
/// signs those bytes. That nobody but a sender can sign is not claimed.
pub fn integrity_has_origin()
    ensures origin { (key : IntegrityAlgorithm → List ℕ) (d c : List ℕ) (a : IntegrityAlgorithm)
        (sent : List Sent)
        → IsBytes d → AllByRecursion IsEncodableSent sent → Validates None key d c a
        → IsUnsigned sent (key a) a c ⊎ ComesFrom sent (key a) a c (content d) }
    // after validation with a key: the content through the attribute that was checked
    ensures with_key { (made_for : Option IntegrityAlgorithm) (key : IntegrityAlgorithm → List ℕ)
        (d c : List ℕ) (a : IntegrityAlgorithm) (sent : List Sent)
        → IsBytes d → AllByRecursion IsEncodableSent sent → Validates made_for key d c a
        → IsUnsigned sent (key a) a c
        ⊎ ComesFrom sent (key a) a c (content_through (is_checked_type made_for) d) }
    // every signature over the covered bytes gives this content
    ensures each { (key : IntegrityAlgorithm → List ℕ) (d c : List ℕ) (a : IntegrityAlgorithm)
        (sender : Sent)
        → IsBytes d → IsEncodableSent sender → Validates None key d c a
        → AllByRecursion (λ s. s.covered ≡ c → content d ≡ reported sender s.through)
        (signed sender (key a) a) }
{}

/// The verdict by a key is that by the HMACs under it, and of the HMACs only that of the covered
/// bytes matters. So every law of the verdict by a key holds of the verdict by an HMAC that somebody
/// else computed with that key.
pub fn verdict_is_by_hmacs()
    ensures keyed { (wanted : ℕ → Bool) (key : IntegrityAlgorithm → List ℕ) (d : List ℕ)
        → verdict wanted key d ≡ verdict_by wanted (λ a c. hmac a (key a) c) d }
    ensures given { (wanted : ℕ → Bool) (key : IntegrityAlgorithm → List ℕ)
        (given : IntegrityAlgorithm → List ℕ → List ℕ) (d : List ℕ)
        → GivesHmac wanted key given d → verdict_by wanted given d ≡ verdict wanted key d }
{}

/// A header alone is a message that may be written, and so is such a message with one more accepted
/// step: it parses, and it is shown as it was written.
pub fn step_is_written()
    ensures header { (type id : ℕ) → type < 2 ^ 14 → id < 2 ^ 96 → IsWritable type id [] }
    ensures step { (type id : ℕ) (before : List Attribute) (step : Step)
        → IsEncodable step → IsOrdinaryStep step
        → IsWritable type id before → MayFollow type id before step
        → IsWritable type id (with_step type id before step) }
    ensures size { (type id : ℕ) (before : List Attribute) (step : Step) → IsEncodable step
        → length (message_encoding type id (with_step type id before step))
        ≡ length (message_encoding type id before) + (4 + padded_length (value_length step)) }
    // a message that a step signed validates if no wanted integrity attribute follows the
    // signature
    ensures signed { (type id : ℕ) (before behind : List Attribute) (a : IntegrityAlgorithm)
        (key : IntegrityAlgorithm → List ℕ) (wanted : ℕ → Bool)
        → let message = with_step type id before (sign a (key a)) ++ behind in
        IsWritable type id message → wanted (type_of_algorithm a) ≡ true
        → list_any wanted (types behind) ≡ false
        → verdict wanted key (message_encoding type id message) ≡ Ok a }
{}

/// A step that is given the HMAC under a key of what it covers signs as one with that key: it appends
/// the same attribute, and counts among what was signed with the key.
pub fn given_hmac_signs()
    ensures appends { (a : IntegrityAlgorithm) (key message given : List ℕ)
        → given ≡ integrity_value message key a → SignsAs (sign_given a given) message a key }
    ensures counts { (type id : ℕ) (before : List Attribute) (steps : List Step)
        (a : IntegrityAlgorithm) (key given : List ℕ)
        → given ≡ integrity_value (message_encoding type id before) key a
        → signed_from type id before (sign_given a given ∷ steps) key a
        ≡ signed_from type id before (sign a key ∷ steps) key a }
{}

/// What accepted steps write parses, is shown as it was written, and validates.
pub fn steps_are_read_back()
    ensures writable { (sent : Sent) → IsAccepted sent → IsWritable sent.type sent.id (body sent) }
    ensures parses { (sent : Sent) → IsAccepted sent → parse_fault (sent_encoding sent) ≡ None }
    ensures shows { (sent : Sent) → IsAccepted sent
        → shown (sent_encoding sent) ≡ placed 20 (body sent) }
    ensures fingerprint { (sent : Sent) → IsAccepted sent
        → first_fingerprint_fault (sent_encoding sent) (placed 20 (body sent)) ≡ None }
    // with the key of the last step that signs
    ensures last { (sent : Sent) (before behind : List Step) (step : Step) (a : IntegrityAlgorithm)
        (key : IntegrityAlgorithm → List ℕ)
        → IsAccepted sent → sent.steps ≡ before ++ step ∷ behind
        → SignsAs step (written_by sent.type sent.id before) a (key a)
        → list_any is_signing behind ≡ false
        → verdict (is_checked_type None) key (sent_encoding sent) ≡ Ok a }
    // with a key that was made for the algorithm of any step that signs
    ensures own { (sent : Sent) (before behind : List Step) (step : Step) (a : IntegrityAlgorithm)
        (key : IntegrityAlgorithm → List ℕ)
        → IsAccepted sent → sent.steps ≡ before ++ step ∷ behind
        → SignsAs step (written_by sent.type sent.id before) a (key a)
        → verdict (is_checked_type (Some a)) key (sent_encoding sent) ≡ Ok a }
{}
