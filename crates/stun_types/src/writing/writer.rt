//! What a message is written to.

ghost use Rattle.std.specs.Prelude.{◌≡◌, ◌+◌, ◌^◌, ◌<◌, ◌≤◌, [], length};
ghost use Rattle.std.specs.Option.{option_map};
ghost use Rattle.stun_grammar.specs.ScannedOrder.{has};
ghost use Rattle.stun_grammar.specs.Adding.{numbers, first_of, Fits};
ghost use Rattle.stun_types.specs.Writers.{Writer, HasRoomFor, Extends, Pushes, PushesAttribute};

use crate::attribute::{AttributeType, AttributeWrite};
use crate::message::StunWriteError;

/// A destination of messages: a writer of a header and attributes (RFC 8489, sections 5 and 14).
/// `MessageWriteVec` writes to a vector, `MessageWriteMutSlice` to a borrowed slice, and a type of
/// your own may implement it too.
///
/// Each push appends all that it is given or, if an allocation failed, leaves the bytes and the
/// attributes as they were. The ready room is the bytes and the attributes that the writer surely
/// still takes: a push that needs no more than that succeeds.
///
/// In contracts, `state` is what there is to know of a writer:
///
/// - `bytes`: the bytes written;
/// - `types`: the types of the attributes among them, in order;
/// - `greatest`: the most bytes that the writer takes, if it has such a bound;
/// - `rest`: the bytes that follow those written, in a slice;
/// - `ready_bytes` and `ready_types`: the ready room, which may grow even if a push fails;
/// - `slice_name`: the name of the slice that it borrows, or 0.
///
/// `finishes_with` relates a writer to what its [`MessageWrite::finish`] returns.
///
/// # Examples
///
/// ```
/// use stun_types::message::MessageWriteMutSlice;
/// use stun_types::prelude::*;
///
/// let mut slice = [0; 64];
/// let mut write = MessageWriteMutSlice::new(alloc, &mut slice);
/// assert_eq!(rt; write.max_size(), Some(64));
/// write.push_data(b"\x00\x01\x00\x00\x21\x12\xA4\x42abcdefghijkl")?;
/// assert_eq!(rt; write.len(), 20);
/// assert_eq!(rt; write.finish(), 20);
/// ```
pub trait MessageWrite {
    /// The result of [`MessageWrite::finish`]: what was written, or how much.
    type Output;

    ghost state: { Self → Writer };

    ghost finishes_with: { Self → Self.Output → Type 0 };

    /// The greatest number of bytes that the writer takes, or `None` if it has no such bound.
    fn max_size(&self) -> Option<usize>
        ensures { result ≡ (state self.now).greatest };

    /// The bytes written so far. If there are none, there are no attributes either.
    fn data(&self) -> &[u8]
        ensures value { result.now ≡ (state self.now).bytes }
        ensures no_types { (state self.now).bytes ≡ [] → (state self.now).types ≡ [] };

    /// The bytes written so far, mutable. It is up to the caller that they stay a message. Nothing
    /// but the bytes may change by it; of `MessageWriteVec` the contract says so.
    fn mut_data(&mut self) -> &mut [u8]
        ensures { result.now ≡ (state self.old).bytes };

    /// The number of bytes written so far.
    fn len(&self) -> usize
        ensures value { result ≡ length (state self.now).bytes }
        ensures bound { result < 2 ^ 63 };

    /// Whether an attribute of the type `atype` is written.
    fn has_attribute(&self, atype: AttributeType) -> bool
        ensures { result ≡ has atype.0 (state self.now).types };

    /// The first of the written types that is one of those in `asked`, or `None`.
    ///
    /// # Examples
    ///
    /// ```
    /// use stun_types::attribute::{Software, Username};
    /// use stun_types::message::{
    ///     BINDING, Message, MessageClass, MessageType, MessageWriteVec, TransactionId,
    /// };
    /// use stun_types::prelude::*;
    ///
    /// let mtype = MessageType::from_class_method(MessageClass::Request, BINDING);
    /// let write = MessageWriteVec::new(alloc);
    /// let mut message = Message::builder(mtype, TransactionId::from(1000), write)?;
    /// message.add_attribute(&Software::new(alloc, "STUN")?)?;
    /// assert!(rt; message.has_attribute(Software::TYPE));
    /// let first = message.has_any_attribute(&[Username::TYPE, Software::TYPE]);
    /// assert_eq!(rt; first, Some(Software::TYPE));
    /// ```
    fn has_any_attribute(&self, asked: &[AttributeType]) -> Option<AttributeType>
        ensures { option_map (λ found. found.0) result
            ≡ first_of (numbers asked.now) (state self.now).types };

    /// Appends bytes to those written.
    ///
    /// # Requires
    ///
    /// There is room for them: [`MessageWrite::len`] and `more.len()` are together at most
    /// [`MessageWrite::max_size`], if that is a number.
    ///
    /// # Errors
    ///
    /// Only `OutOfMemory`, and only if they are more than the ready room; nothing is appended
    /// then.
    fn push_data(&mut self, more: &[u8]) -> Result<(), StunWriteError>
        requires { Fits (state self.old).greatest
            (length (state self.old).bytes + length more.now) }
        ensures { Pushes result (state self.old) (state self.new) (length more.now) 0
            (Extends (state self.old) (state self.new) more.now) };

    /// Appends an attribute to what is written: its type, length, value and zero padding (RFC 8489,
    /// section 14), and sets the length field of the header to count them (section 5).
    ///
    /// # Requires
    ///
    /// [`MessageWrite::len`] is at least 20, and together with the attribute's `padded_len` at most
    /// 65555 and at most [`MessageWrite::max_size`], if that is a number.
    ///
    /// # Errors
    ///
    /// Only `OutOfMemory`, and only if the attribute needs more than the ready room; the bytes
    /// and the attributes are as they were then, and the ready room may have grown.
    fn push_attribute_unchecked(
        &mut self,
        attribute: &dyn AttributeWrite,
    ) -> Result<(), StunWriteError>
        requires { HasRoomFor (state self.old) (length (value attribute.now)) }
        ensures { PushesAttribute result (state self.old) (state self.new)
            (atype attribute.now) (value attribute.now) };

    /// Appends an attribute, of which a type and a value are given, as
    /// [`MessageWrite::push_attribute_unchecked`] does.
    ///
    /// # Requires
    ///
    /// `more.len()` is at most 65535. [`MessageWrite::len`] is at least 20, and with 4 bytes more
    /// and those of the padded value (`pad_attribute_len(more.len())`) at most 65555 and at most
    /// [`MessageWrite::max_size`], if that is a number.
    ///
    /// # Errors
    ///
    /// As for [`MessageWrite::push_attribute_unchecked`].
    fn push_value_unchecked(
        &mut self,
        atype: AttributeType,
        more: &[u8],
    ) -> Result<(), StunWriteError>
        requires value { length more.now ≤ 65535 }
        requires room { HasRoomFor (state self.old) (length more.now) }
        ensures { PushesAttribute result (state self.old) (state self.new) atype.0 more.now };

    /// Ends the writing, and returns what was written or how much.
    fn finish(self) -> Self::Output
        ensures { finishes_with self result };
}
