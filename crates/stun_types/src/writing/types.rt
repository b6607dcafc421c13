//! The types of the attributes that a writer has written.

ghost use Rattle.std.specs.Prelude.{◌≡◌, ◌≤◌, [], ◌∷◌, ◌++◌, IsOk, IfErr, OnOk, OnErr};
ghost use Rattle.std.specs.List.{list_all};
ghost use Rattle.std.specs.Option.{option_map};
ghost use Rattle.smallvec.specs.SmallVec.{HasRoomFor};
ghost use Rattle.stun_grammar.specs.AttributeTypes.{is_ending};
ghost use Rattle.stun_grammar.specs.ScannedOrder.{has};
ghost use Rattle.stun_grammar.specs.Adding.{numbers, first_of};

use crate::attribute::AttributeType;
use crate::message::StunWriteError;
use crate::writing::{first_among, is_among};
use smallvec::SmallVec;
use std::alloc::Global;
use std::fmt;
use std::marker::Model;
use stun_grammar::attribute_types::is_ending;

/// The types of the attributes written, in order. While no ending type is written, an add takes
/// constant time.
///
/// In contracts it is the list of the types and how many of them need no allocation. The types of
/// sixteen attributes need no memory.
#[derive(Drop)]
pub struct WrittenTypes {
    types: SmallVec<AttributeType, 16>,
    has_ending: bool,
}

impl Model for WrittenTypes {
    ghost use Rattle.std.specs.Prelude.{◌≡◌};
    ghost use Rattle.std.specs.List.{list_any};
    ghost use Rattle.smallvec.specs.SmallVec.{SmallVec as Types};
    ghost use Rattle.stun_grammar.specs.declared.attribute_type.AttributeType.{AttributeType};
    ghost use Rattle.stun_grammar.specs.AttributeTypes.{is_ending};
    ghost use Rattle.stun_grammar.specs.Adding.{numbers};

    ghost Value = { Types AttributeType };

    ghost view = { λ written. written.types };

    ghost invariant = { λ written.
        written.has_ending ≡ list_any is_ending (numbers written.types.items) };
}

/// Whether all of the types are ending ones.
pub(crate) fn all_end(types: &[AttributeType]) -> bool
    ensures { result ≡ list_all (λ atype. is_ending atype.0) types.now }
{
    types.iter().all(|atype| is_ending(atype.0))
}

impl WrittenTypes {
    /// No types; sixteen are ready. It takes no memory.
    pub(crate) fn new(alloc: Global) -> Self
        ensures items { result.items ≡ [] }
        ensures capacity { result.capacity ≡ 16 }
    {
        WrittenTypes {
            types: SmallVec::new(alloc),
            has_ending: false,
        }
    }

    /// Makes room for one more type.
    ///
    /// # Errors
    ///
    /// Only `OutOfMemory`, and only if there is no room; nothing changes then.
    #[inline(always)]
    pub(crate) fn reserve_one(&mut self) -> Result<(), StunWriteError>
        ensures items { self.new.items ≡ self.old.items }
        ensures ok { OnOk result (HasRoomFor self.new 1) }
        ensures capacity { self.old.capacity ≤ self.new.capacity }
        ensures succeeds { HasRoomFor self.old 1 → IsOk result }
        ensures same { OnErr result (self.new ≡ self.old) }
        ensures err { IfErr result (λ e. e ≡ StunWriteError.OutOfMemory) }
    {
        if self.types.len() < self.types.capacity() {
            return Ok(());
        }
        self.types.reserve(1).map_err(StunWriteError::from)
    }

    /// Appends a type, for which there is room.
    pub(crate) fn push_reserved(&mut self, atype: AttributeType)
        requires { HasRoomFor self.old 1 }
        ensures items { self.new.items ≡ self.old.items ++ atype ∷ [] }
        ensures capacity { self.new.capacity ≡ self.old.capacity }
    {
        self.has_ending |= is_ending(atype.0);
        self.types.push_reserved(atype);
    }

    /// Drops all types.
    pub(crate) fn clear(&mut self)
        ensures items { self.new.items ≡ [] }
        ensures capacity { self.new.capacity ≡ self.old.capacity }
    {
        self.types.clear();
        self.has_ending = false;
    }

    /// Whether the type is one of the written ones.
    pub(crate) fn has(&self, atype: AttributeType) -> bool
        ensures { result ≡ has atype.0 (numbers self.now.items) }
    {
        is_among(&self.types, atype)
    }

    /// The first of the written types that is one of those asked for, or `None`.
    pub(crate) fn first_of(&self, asked: &[AttributeType]) -> Option<AttributeType>
        ensures { option_map (λ found. found.0) result
            ≡ first_of (numbers asked.now) (numbers self.now.items) }
    {
        if !self.has_ending && all_end(asked) {
            return None;
        }
        first_among(&self.types, asked)
    }
}

/// The types alone.
impl fmt::Debug for WrittenTypes {
    fn fmt<W: fmt::Write>(&self, f: &mut fmt::Formatter<W>) -> fmt::Result {
        f.debug_list().entries(self.types.as_slice()).finish()
    }
}
