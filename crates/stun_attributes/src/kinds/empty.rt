use crate::kinds::AttributeKind;
use crate::wire::{BorrowValue, EncodeValue, ReadValue, TypedAttribute};
use std::alloc::Global;
use std::fmt;
use std::marker::PhantomData;
use stun_base::StunParseError;
use stun_text::{PrintText, TextSink};
use stun_values::check_length;

/// An attribute whose value has no bytes.
///
/// Reading refuses a value of any as `TooLarge { expected: 0, actual }`. It takes no memory, and
/// neither does `to_raw`.
///
/// # Examples
///
/// ```
/// use ice_attrs::UseCandidate;
/// use stun_types::prelude::*;
///
/// // `UseCandidate` is an `EmptyAttribute<UseCandidateKind>`
/// let nominates = UseCandidate::new();
/// assert_eq!(rt; nominates.length(), 0);
/// assert_eq!(rt; format!(in alloc; "{nominates}")?.as_str(), "USE-CANDIDATE");
/// ```
#[derive_where(Clone, Copy, Debug, PartialEq, Eq)]
pub struct EmptyAttribute<K> {
    #[derive_where(skip)]
    kind: PhantomData<K>,
}

impl<K> EmptyAttribute<K> {
    /// An attribute of the kind `K`, whose value has no bytes.
    pub fn new() -> Self {
        EmptyAttribute { kind: PhantomData }
    }
}

impl<K: AttributeKind> TypedAttribute for EmptyAttribute<K> {
    ghost NUMBER = { K.NUMBER };

    const NUMBER: u16 = K::NUMBER;
}

impl<K> EncodeValue for EmptyAttribute<K> {
    ghost use Rattle.std.specs.Prelude.{[], true};

    ghost bytes = { λ _. [] };

    ghost is_held = { λ _. true };

    fn value_length(&self) -> u16 {
        0
    }

    fn write_value(&self, _dest: &mut [u8]) {}

    fn held_bytes(&self) -> Option<&[u8]> {
        Some(&[])
    }
}

impl<K: AttributeKind> BorrowValue for EmptyAttribute<K> {
    fn value_bytes(&self) -> &[u8] {
        &[]
    }
}

/// [`EmptyAttribute`] says what reading refuses.
impl<K> ReadValue for EmptyAttribute<K> {
    ghost use Rattle.stun_attributes.specs.Kinds.{ReadsEmpty};

    ghost reads_value = { ReadsEmpty };

    fn read_value(_alloc: Global, value: &[u8]) -> Result<Self, StunParseError> {
        check_length(value, 0)?;
        Ok(EmptyAttribute::new())
    }
}

impl<K: AttributeKind> PrintText for EmptyAttribute<K> {
    ghost text = { λ _. K.NAME };

    fn print<S: TextSink>(&self, sink: &mut S) -> Result<(), S::Error> {
        sink.put(K::name())
    }
}

/// The name: `USE-CANDIDATE`.
impl<K: AttributeKind> fmt::Display for EmptyAttribute<K> {
    ghost use Rattle.std.specs.Prelude.{Some};

    ghost output = { λ _. Some K.NAME };

    fn fmt<W: fmt::Write>(&self, f: &mut fmt::Formatter<W>) -> fmt::Result {
        self.print(f)
    }
}
