//! A writer into a vector.

ghost use Rattle.std.specs.Prelude.{◌≡◌, ◌-◌, ◌≤◌, ◌++◌, [], IsOk, OnOk, OnErr, replicate, vec_len, vec_capacity};

use crate::attribute::{AttributeType, AttributeWrite};
use crate::message::StunWriteError;
use crate::writing::append::{append_sized, write_at};
use crate::writing::{MessageWrite, WrittenTypes, append_value};
use std::alloc::{AllocError, Global};
use stun_base::pad_attribute_len;

/// Writes a message (RFC 8489, section 5) into a vector, which grows as needed. The types of
/// sixteen attributes need no memory; those of more are kept in memory of the same allocator. A
/// writer that is dropped without [`MessageWrite::finish`] drops what was written.
///
/// # Examples
///
/// ```
/// use stun_types::message::{
///     BINDING, Message, MessageClass, MessageType, MessageWriteVec, TransactionId,
/// };
/// use stun_types::prelude::*;
///
/// let mtype = MessageType::from_class_method(MessageClass::Indication, BINDING);
/// let write = MessageWriteVec::with_capacity(alloc, 20)?;
/// let message = Message::builder(mtype, TransactionId::from(1000), write)?;
/// assert_eq!(rt; message.finish().len(), 20);
/// ```
#[derive(Debug, Drop)]
pub struct MessageWriteVec {
    output: Vec<u8>,
    attributes: WrittenTypes,
    ghost no_types: { output.items ≡ [] → attributes.items ≡ [] },
}

/// How many zeros are appended at once, if there is room for them.
const ZEROS: usize = 32;

/// Appends zeros, so that there are `longer` bytes. Few ones are appended as [`ZEROS`], a count
/// that the compiler knows, of which the rest is cut off: that saves a call, which costs more.
#[inline(always)]
fn lengthen(bytes: &mut Vec<u8>, longer: usize) -> Result<(), AllocError>
    requires { vec_len bytes.old ≤ longer }
    ensures items { OnOk result
        (bytes.new.items ≡ bytes.old.items ++ replicate (longer - vec_len bytes.old) 0) }
    ensures same { OnErr result (bytes.new.items ≡ bytes.old.items) }
    ensures capacity { vec_capacity bytes.old ≤ vec_capacity bytes.new }
    ensures succeeds { longer ≤ vec_capacity bytes.old → IsOk result }
{
    let len = bytes.len();
    if bytes.capacity() - len < ZEROS || longer - len > ZEROS {
        return bytes.resize(longer, 0);
    }
    bytes.resize(len + ZEROS, 0)?;
    bytes.truncate(longer);
    Ok(())
}

impl MessageWriteVec {
    ghost use Rattle.std.specs.Prelude.{◌≡◌, [], IfOk, IfErr};

    /// A writer into a new vector, with nothing written. It takes no memory: sixteen attributes and
    /// no bytes are ready.
    pub fn new(alloc: Global) -> Self
        ensures empty { (⟦<MessageWriteVec as MessageWrite>⟧.state result).bytes ≡ [] }
        ensures ready_bytes { (⟦<MessageWriteVec as MessageWrite>⟧.state result).ready_bytes ≡ 0 }
        ensures ready_types { (⟦<MessageWriteVec as MessageWrite>⟧.state result).ready_types ≡ 16 }
    {
        MessageWriteVec {
            output: Vec::new(alloc),
            attributes: WrittenTypes::new(alloc),
        }
    }

    /// A writer into a new vector, with nothing written, and with `capacity` bytes and sixteen
    /// attributes ready. The bytes are kept in memory that `alloc` gives.
    ///
    /// # Errors
    ///
    /// Only `OutOfMemory`.
    ///
    /// # Examples
    ///
    /// ```
    /// use stun_types::message::MessageWriteVec;
    /// use stun_types::prelude::*;
    ///
    /// let write = MessageWriteVec::with_capacity(alloc, 1500)?;
    /// assert_eq!(rt; (write.len(), write.max_size()), (0, None));
    /// ```
    pub fn with_capacity(alloc: Global, capacity: usize) -> Result<Self, StunWriteError>
        ensures empty { IfOk result
            (λ write. (⟦<MessageWriteVec as MessageWrite>⟧.state write).bytes ≡ []) }
        ensures ready_bytes { IfOk result
            (λ write. (⟦<MessageWriteVec as MessageWrite>⟧.state write).ready_bytes ≡ capacity) }
        ensures ready_types { IfOk result
            (λ write. (⟦<MessageWriteVec as MessageWrite>⟧.state write).ready_types ≡ 16) }
        ensures err { IfErr result (λ e. e ≡ StunWriteError.OutOfMemory) }
    {
        let output = Vec::with_capacity(alloc, capacity)?;
        Ok(MessageWriteVec {
            output,
            attributes: WrittenTypes::new(alloc),
        })
    }
}

impl MessageWrite for MessageWriteVec {
    ghost use Rattle.std.specs.Prelude.{◌≡◌, ◌-◌, ℕ, List, [], None, length, vec_len, vec_capacity};
    ghost use Rattle.std.specs.Borrow.{sem};
    ghost use Rattle.smallvec.specs.SmallVec.{small_vec_len};
    ghost use Rattle.stun_types.specs.Writers.{with_bytes};
    ghost use Rattle.stun_types.specs.Lending.{overwritten, LendsBytes};
    ghost use Rattle.stun_grammar.specs.Adding.{numbers};

    type Output = Vec<u8>;

    ghost state = { λ write. record {
      bytes = write.output.items;
      types = numbers write.attributes.items;
      greatest = None;
      rest = [];
      ready_bytes = vec_capacity write.output - vec_len write.output;
      ready_types = write.attributes.capacity - small_vec_len write.attributes;
      slice_name = 0;
    } };

    ghost finishes_with = { λ write output. output.items ≡ write.output.items };

    /// `None`: the vector grows.
    fn max_size(&self) -> Option<usize> {
        None
    }

    fn data(&self) -> &[u8] {
        &self.output
    }

    /// The bytes written, mutable. Afterwards only the bytes have changed, and there are as many of
    /// them.
    fn mut_data(&mut self) -> &mut [u8]
        ensures* writes_back { sem 𝓛 (LendsBytes self.entry result) }
        ensures value { result.now
            ≡ (⟦<MessageWriteVec as MessageWrite>⟧.state self.old).bytes }
        ensures stays { (given : List ℕ)
            → length given ≡ length (⟦<MessageWriteVec as MessageWrite>⟧.state self.old).bytes
            → ⟦<MessageWriteVec as MessageWrite>⟧.state (overwritten self.old given)
            ≡ with_bytes (⟦<MessageWriteVec as MessageWrite>⟧.state self.old) given }
    {
        self.output.as_mut_slice()
    }

    fn len(&self) -> usize {
        self.output.len()
    }

    fn has_attribute(&self, atype: AttributeType) -> bool {
        self.attributes.has(atype)
    }

    fn has_any_attribute(&self, asked: &[AttributeType]) -> Option<AttributeType> {
        self.attributes.first_of(asked)
    }

    #[inline(always)]
    fn push_data(&mut self, more: &[u8]) -> Result<(), StunWriteError> {
        if more.len() > ZEROS {
            return self
                .output
                .extend_from_slice(more)
                .map_err(StunWriteError::from);
        }
        let len = self.output.len();
        lengthen(&mut self.output, len + more.len())?;
        write_at(&mut self.output, len, more);
        Ok(())
    }

    #[tactic(auto, using(stun_grammar::proofs::AddingLemmas::appended_length))]
    #[inline(always)]
    fn push_attribute_unchecked(
        &mut self,
        attribute: &dyn AttributeWrite,
    ) -> Result<(), StunWriteError> {
        let len = self.output.len();
        let grown_length = len + attribute.padded_len();
        self.attributes.reserve_one()?;
        lengthen(&mut self.output, grown_length)?;
        append_sized(attribute, len, grown_length, &mut self.output);
        self.attributes.push_reserved(attribute.get_type());
        Ok(())
    }

    #[tactic(auto, using(stun_grammar::proofs::AddingLemmas::appended_length))]
    fn push_value_unchecked(
        &mut self,
        atype: AttributeType,
        more: &[u8],
    ) -> Result<(), StunWriteError> {
        let len = self.output.len();
        let grown_length = len + 4 + pad_attribute_len(more.len());
        self.attributes.reserve_one()?;
        lengthen(&mut self.output, grown_length)?;
        append_value(atype, more, len, &mut self.output);
        self.attributes.push_reserved(atype);
        Ok(())
    }

    /// Returns the bytes written.
    fn finish(self) -> Vec<u8> {
        let MessageWriteVec { output, attributes } = self;
        drop(attributes);
        output
    }
}
