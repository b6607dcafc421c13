//! Laws of reading back: what adding an attribute writes, looking it up by its type reads. Each
//! function does nothing: its contract is the law.

ghost use Rattle.std.specs.Prelude.{◌≡◌, ◌<◌, ◌^◌, ℕ, false, List, [], ◌∷◌, ◌++◌, length, None, Result, Ok, IsOk};
ghost use Rattle.stun_grammar.specs.declared.error.StunParseError.{StunParseError};
ghost use Rattle.stun_grammar.specs.declared.error.StunWriteError.{StunWriteError};
ghost use Rattle.stun_grammar.specs.Adding.{add_refusal, IsAddAnswer};
ghost use Rattle.stun_grammar.specs.Attributes.{Attribute, canonical, types};
ghost use Rattle.stun_grammar.specs.AttributeTypes.{IsOrdinary};
ghost use Rattle.stun_grammar.specs.Parsing.{parse_fault};
ghost use Rattle.stun_grammar.specs.ScannedOrder.{has};
ghost use Rattle.stun_grammar.specs.Steps.{add};
ghost use Rattle.stun_types.specs.Writers.{Writer, Adds, Allocates, IsBegun};
ghost use Rattle.stun_attributes.specs.ReadBack.{HasOneReading};
ghost use Rattle.stun_types.specs.LookingUp.{nth, IsRead};
ghost use Rattle.stun_types.specs.ReadingBack.{Holds, ShowsFirst};

use crate::attribute::{
    Attribute, AttributeFromRaw, AttributeStaticType, ReadValue, TypedAttribute,
};
use crate::reading::shown_is_found;

/// What a writer holds after `builder` and after each accepted `add_attribute` parses, and shows
/// each attribute that was added. The premises are what the contracts of these calls state.
pub fn added_is_shown()
    // a message that was begun
    ensures begun { (old new : Writer) (type id : ℕ) → IsBegun old new type id
        → Holds new type id [] }
    // one more attribute, whose add returned `Ok`
    ensures added { (result : Result Unit StunWriteError) (old new : Writer) (type id : ℕ)
        (before : List Attribute) (atype : ℕ) (value : List ℕ)
        → Holds old type id before
        → IsOrdinary atype → atype < 2 ^ 16 → length value < 2 ^ 16
        → IsAddAnswer (add_refusal (add atype value) old.types (length old.bytes) old.greatest)
        (Allocates old (length value)) result
        → Adds result old new atype value → IsOk result
        → Holds new type id (before ++ canonical atype value ∷ []) }
    // what is held parses, and shows an attribute with no other of its type before it
    ensures shown { (w : Writer) (type id : ℕ) (before behind : List Attribute) (atype : ℕ)
        (value : List ℕ)
        → Holds w type id (before ++ canonical atype value ∷ behind)
        → has atype (types before) ≡ false
        → (parse_fault w.bytes ≡ None) × ShowsFirst atype value w.bytes }
{}

/// An attribute that a message shows first of its type is what `Message::attribute` reads, at any
/// lifetime of the message: its result is one that reading that type and that value may return.
pub fn shown_is_read_back<'a, A: AttributeFromRaw<'a> + AttributeStaticType>()
    ensures { (d : List ℕ) (attribute : A) (result : Result A StunParseError)
        → ShowsFirst A.TYPE.0 (⟦<A as Attribute>⟧.value attribute) d
        → IsRead A.TYPE A.reads (nth d A.TYPE.0 0) result
        → A.reads (⟦<A as Attribute>⟧.atype attribute) (⟦<A as Attribute>⟧.value attribute) result }
{
    shown_is_found();
}

/// A [`TypedAttribute`], one of a user's own too, that a message shows first of its type is read as
/// [`shown_is_read_back`] says: the result is one that reading its value may return. If the value
/// has one reading (`HasOneReading`), which the laws of each kind say, the result is `Ok` of that
/// attribute.
pub fn typed_is_read_back<'a, A: TypedAttribute + ReadValue>()
    ensures reads { (d : List ℕ) (attribute : A) (result : Result A StunParseError)
        → ShowsFirst A.NUMBER (A.bytes attribute) d
        → IsRead ⟦<A as AttributeStaticType>⟧.TYPE ⟦<A as AttributeFromRaw<'a>>⟧.reads
        (nth d A.NUMBER 0) result
        → A.reads_value (A.bytes attribute) result }
    ensures same { (d : List ℕ) (attribute : A) (result : Result A StunParseError)
        → HasOneReading A.bytes A.reads_value attribute (λ read. read ≡ attribute)
        → ShowsFirst A.NUMBER (A.bytes attribute) d
        → IsRead ⟦<A as AttributeStaticType>⟧.TYPE ⟦<A as AttributeFromRaw<'a>>⟧.reads
        (nth d A.NUMBER 0) result
        → result ≡ Ok attribute }
{
    shown_is_found();
}
