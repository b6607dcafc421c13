//! The laws of looking up an attribute by its type, and of reading one at its offset. Each function
//! does nothing: its contract is the law.

ghost use Rattle.std.specs.Prelude.{◌≡◌, ◌==◌, ◌≤◌, ℕ, ◌+◌, Bool, List, ◌∷◌, ◌++◌, false, length, drop, slice_range, count_by, IfSome, IsSomeAnd, None, Some, is_some};
ghost use Rattle.std.specs.List.{list_any};
ghost use Rattle.std.specs.Option.{option_or};
ghost use Rattle.stun_grammar.specs.declared.integrity_algorithm.IntegrityAlgorithm.TheVariants.{Sha1, Sha256};
ghost use Rattle.stun_grammar.specs.Attributes.{Attribute, encodings, types};
ghost use Rattle.stun_grammar.specs.Chains.{Shown, chain, first_attribute, placed, rest};
ghost use Rattle.stun_grammar.specs.ScannedOrder.{has};
ghost use Rattle.stun_grammar.specs.Showing.{shown};
ghost use Rattle.stun_grammar.specs.Verdicts.{is_checked_type, last_shown};
ghost use Rattle.stun_grammar.specs.Writing.{message_encoding, IsWritable};
ghost use Rattle.stun_types.specs.LookingUp.{nth};

/// An attribute that is shown after k others with its type is `nth d type k`, with its value and
/// the offset of its header in bytes.
pub fn shown_is_found()
    ensures found { (d : List ℕ) (before behind : List Attribute) (a : Attribute)
        → shown d ≡ placed 20 (before ++ a ∷ behind)
        → nth d a.type (count_by (λ t. t == a.type) (types before))
        ≡ Some (record {
          offset = 20 + length (encodings before);
          type = a.type;
          value = a.value;
        }) }
    // the first of its type
    ensures first { (d : List ℕ) (before behind : List Attribute) (a : Attribute)
        → shown d ≡ placed 20 (before ++ a ∷ behind) → has a.type (types before) ≡ false
        → nth d a.type 0 ≡ Some (record {
          offset = 20 + length (encodings before);
          type = a.type;
          value = a.value;
        }) }
    // there are no more than are shown
    ensures missing { (d : List ℕ) (wanted n : ℕ) (attributes : List Attribute)
        → shown d ≡ placed 20 attributes → count_by (λ t. t == wanted) (types attributes) ≤ n
        → nth d wanted n ≡ None }
    // the only attribute of its type in a message that may be written: its header is where the
    // message before it ends
    ensures written { (type id : ℕ) (before behind : List Attribute) (a : Attribute)
        → IsWritable type id (before ++ a ∷ behind)
        → has a.type (types before) ≡ false → has a.type (types behind) ≡ false
        → (nth (message_encoding type id (before ++ a ∷ behind)) a.type 0
        ≡ Some (record {
          offset = length (message_encoding type id before);
          type = a.type;
          value = a.value;
        }))
        × (nth (message_encoding type id (before ++ a ∷ behind)) a.type 1 ≡ None) }
{}

/// A look-up by a type finds an attribute with that type; and the first is found exactly if an
/// attribute of the type is shown.
pub fn found_has_its_type()
    ensures same { (d : List ℕ) (type n : ℕ) → IfSome (nth d type n) (λ a. a.type ≡ type) }
    ensures any { (d : List ℕ) (type : ℕ)
        → is_some (nth d type 0) ≡ list_any (λ a. a.type == type) (shown d) }
{}

/// The value that a look-up finds in bytes is the part of them that follows the four bytes of the
/// attribute's header.
pub fn found_is_there(bytes: &[u8])
    ensures { (type n : ℕ) → IfSome (nth bytes.now type n)
        (λ a. (a.offset + 4 + length a.value ≤ length bytes.now)
        × (slice_range bytes.now (a.offset + 4) (a.offset + 4 + length a.value) ≡ a.value)) }
{}

/// A walk from the offset of a chain's member is the part of the whole walk that begins there.
pub fn walks_from_there()
    ensures walk { (d : List ℕ) (offset : ℕ) (before behind : List Attribute)
        → chain (drop 20 d) ≡ before ++ behind → offset ≡ 20 + length (encodings before)
        → (chain (drop offset d) ≡ behind) × (rest (drop offset d) ≡ rest (drop 20 d)) }
    // so an attribute that is shown is the first one that is read from its offset on
    ensures read { (wanted : ℕ → Bool) (d : List ℕ) (x : Shown) → last_shown wanted d ≡ Some x
        → IsSomeAnd (first_attribute (drop x.offset d))
        (λ a. (a.type ≡ x.type) × (a.value ≡ x.value)) }
    // of the two integrity attributes the last is MESSAGE-INTEGRITY-SHA256, if it is shown
    ensures last { (d : List ℕ)
        → last_shown (is_checked_type None) d
        ≡ option_or (last_shown (is_checked_type (Some Sha256)) d)
        (last_shown (is_checked_type (Some Sha1)) d) }
    // and no more than one of each is shown: the last is the first
    ensures once { (d : List ℕ)
        → (nth d 0x0008 0 ≡ last_shown (is_checked_type (Some Sha1)) d)
        × (nth d 0x001C 0 ≡ last_shown (is_checked_type (Some Sha256)) d) }
{}
