//! The laws of the grammar. Each function does nothing: its contract is the law.

ghost use Rattle.std.specs.Prelude.{◌≡◌, ℕ, ◌<◌, ◌≤◌, ◌+◌, ◌^◌, ◌↔◌, List, [], ◌∷◌, ◌++◌, Bool, true, false, length, take, drop, IsTrue, IfSome, None, Some};
ghost use Rattle.std.specs.List.{AllByRecursion};
ghost use Rattle.stun_grammar.specs.Numbers.{be16, padded_length, IsBytes};
ghost use Rattle.stun_grammar.specs.Headers.{Begins, begins, type_field, length_field, id_field};
ghost use Rattle.stun_grammar.specs.Attributes.{Attribute, IsAttribute, canonical, encoding, encodings, types};
ghost use Rattle.stun_grammar.specs.Chains.{IsChain, first_attribute, chain, rest, placed};
ghost use Rattle.stun_grammar.specs.AttributeTypes.{FINGERPRINT};
ghost use Rattle.stun_grammar.specs.ScannedOrder.{has, in_any_order, IsInAnyOrder};
ghost use Rattle.stun_grammar.specs.ShownOrder.{in_order, IsInOrder};
ghost use Rattle.stun_grammar.specs.Prefixes.{longest_prefix, IsLongestPrefix};
ghost use Rattle.stun_grammar.specs.Parsing.{parse_fault, IsRefusal};
ghost use Rattle.stun_grammar.specs.Showing.{frame_fault, shown};
ghost use Rattle.stun_grammar.specs.Fingerprints.{fingerprint_value, first_fingerprint_fault};
ghost use Rattle.stun_grammar.specs.Writing.{greatest_length, message_encoding, IsWritable};

/// Bytes are in exactly one way the encodings of attributes, followed by a rest with which no
/// attribute begins.
pub fn one_chain()
    ensures there { (b : List ℕ) → IsBytes b → IsChain b (chain b) (rest b) }
    ensures only { (b : List ℕ) (attributes : List Attribute) (r : List ℕ)
        → IsBytes b → IsChain b attributes r → (attributes ≡ chain b) × (r ≡ rest b) }
{}

/// The attributes that bytes begin with do not depend on what follows them.
pub fn prefix_of_chain()
    ensures attributes { (attributes : List Attribute) (more : List ℕ)
        → AllByRecursion IsAttribute attributes
        → chain (encodings attributes ++ more) ≡ attributes ++ chain more }
    ensures rest { (attributes : List Attribute) (more : List ℕ)
        → AllByRecursion IsAttribute attributes
        → rest (encodings attributes ++ more) ≡ rest more }
{}

/// The encoding of an attribute is read as that attribute, whatever follows it; and bytes from
/// which an attribute is read begin with its encoding.
pub fn encoding_is_read_back()
    ensures read { (a : Attribute) (more : List ℕ)
        → IsAttribute a → first_attribute (encoding a ++ more) ≡ Some a }
    ensures spelled { (a : Attribute) (b : List ℕ) → IsBytes b → first_attribute b ≡ Some a
        → IsAttribute a × ((more : List ℕ) × (b ≡ encoding a ++ more)) }
{}

/// `in_order` passes exactly the types that are in the order in which attributes are shown.
pub fn one_order()
    ensures { (types : List ℕ) → (in_order types ≡ true) ↔ IsInOrder types }
{}

/// `in_any_order` passes exactly the types that are in an order in which attributes are scanned.
pub fn one_any_order()
    ensures { (types : List ℕ) → (in_any_order types ≡ true) ↔ IsInAnyOrder types }
{}

/// A list of attributes has exactly one longest prefix that passes a test, if the empty list passes
/// it.
pub fn one_longest_prefix()
    ensures there { (passes : List Attribute → Bool) (xs : List Attribute)
        → IsTrue (passes []) → IsLongestPrefix passes xs (longest_prefix passes xs) }
    ensures only { (passes : List Attribute → Bool) (xs prefix : List Attribute)
        → IsTrue (passes []) → IsLongestPrefix passes xs prefix
        → prefix ≡ longest_prefix passes xs }
{}

/// Some bytes that follow make bytes a header exactly if these pass the test `begins`.
#[tactic(auto, using(crate::proofs::HeadersLemmas::begins_some, crate::proofs::HeadersLemmas::begins_from))]
pub fn incomplete_header()
    ensures { (b : List ℕ) → (begins b ≡ true) ↔ Begins b }
{}

/// A message that parses has as many bytes as its header states, at most 65555; and as many bytes
/// as a whole header states, of which the first twenty are that header, are not refused by their
/// length.
pub fn length_is_stated()
    ensures parsed { (d : List ℕ) → parse_fault d ≡ None → length d ≡ 20 + length_field d }
    ensures greatest { (d : List ℕ) → IsBytes d → parse_fault d ≡ None
        → length d ≤ greatest_length }
    ensures whole { (prefix d : List ℕ) → Begins prefix → 20 ≤ length prefix
        → take 20 d ≡ take 20 prefix → length d ≡ 20 + length_field prefix → frame_fault d ≡ None }
{}

/// Parsing returns four errors only: `NotStun`, `Truncated`, `TooLarge` and `FingerprintMismatch`.
#[tactic(auto, using(crate::proofs::ParsingLemmas::parse_tells))]
pub fn refusals_of_parsing()
    ensures { (d : List ℕ) → IfSome (parse_fault d) IsRefusal }
{}

/// An attribute as it is written is an attribute, and its encoding has four bytes and the padded
/// length of its value.
pub fn canonical_is_attribute()
    ensures attribute { (type : ℕ) (value : List ℕ)
        → type < 2 ^ 16 → length value < 2 ^ 16 → IsAttribute (canonical type value) }
    ensures size { (type : ℕ) (value : List ℕ) → type < 2 ^ 16 → length value < 2 ^ 16
        → length (encoding (canonical type value)) ≡ 4 + padded_length (length value) }
{}

/// A message that may be written parses, and is read as it was written: its fields, and its
/// attributes, each at its offset.
pub fn written_is_read_back()
    ensures parses { (type id : ℕ) (attributes : List Attribute) → IsWritable type id attributes
        → parse_fault (message_encoding type id attributes) ≡ None }
    ensures shows { (type id : ℕ) (attributes : List Attribute) → IsWritable type id attributes
        → shown (message_encoding type id attributes) ≡ placed 20 attributes }
    // the fields of the header
    ensures kind { (type id : ℕ) (attributes : List Attribute) → IsWritable type id attributes
        → type_field (message_encoding type id attributes) ≡ type }
    ensures field { (type id : ℕ) (attributes : List Attribute) → IsWritable type id attributes
        → length_field (message_encoding type id attributes) ≡ length (encodings attributes) }
    ensures id { (type id : ℕ) (attributes : List Attribute) → IsWritable type id attributes
        → id_field (message_encoding type id attributes) ≡ id }
{}

/// One more attribute changes the length field, and appends the encoding of that attribute.
pub fn encoding_grows()
    ensures size { (type id : ℕ) (attributes : List Attribute)
        → length (message_encoding type id attributes) ≡ 20 + length (encodings attributes) }
    ensures text { (type id : ℕ) (attributes : List Attribute) (a : Attribute)
        → let old = message_encoding type id attributes in
        message_encoding type id (attributes ++ a ∷ [])
        ≡ take 2 old ++ (be16 (length (encodings attributes) + length (encoding a))
        ++ (drop 4 old ++ encoding a)) }
{}

/// A FINGERPRINT that was computed over the message before it is right, whatever follows it.
#[tactic(auto, using(crate::proofs::WritingLemmas::right_where_computed))]
pub fn right_fingerprint()
    ensures { (type id : ℕ) (before behind : List Attribute)
        → has FINGERPRINT (types before) ≡ false
        → (let a = canonical FINGERPRINT (fingerprint_value (message_encoding type id before)
        (length (message_encoding type id before))) in
        first_fingerprint_fault (message_encoding type id (before ++ a ∷ behind))
        (placed 20 (before ++ a ∷ behind)) ≡ None) }
{}

/// If the encoding of one attribute begins that of another, the two attributes are equal: they
/// have the same type, the same value and the same padding.
#[tactic(auto, using(crate::proofs::AttributesLemmas::no_encoding_begins))]
pub fn one_spelling()
    ensures { (a b : Attribute) (more : List ℕ)
        → IsAttribute a → IsAttribute b → encoding b ≡ encoding a ++ more → a ≡ b }
{}
