//! A writer into a borrowed slice.

use crate::attribute::{AttributeType, AttributeWrite};
use crate::message::{StunParseError, StunWriteError};
use crate::writing::append::{append_sized, write_at};
use crate::writing::listed::Listed;
use crate::writing::{MessageWrite, ResumePoint, WrittenTypes, append_value};
use std::alloc::Global;
use stun_base::pad_attribute_len;

/// Writes a message (RFC 8489, section 5) into a borrowed slice, from its first byte on, or resumes
/// one that is there ([`MessageWriteMutSlice::resume`]). What follows the bytes written stays as it
/// was.
///
/// Each call writes straight into the slice. A writer that is dropped without
/// [`MessageWrite::finish`] leaves there what was written so far, followed by what was there
/// before.
///
/// The bytes never need memory. The types of sixteen attributes that it adds don't either; those of
/// more are kept in memory that the `alloc` of [`MessageWriteMutSlice::new`] or
/// [`MessageWriteMutSlice::resume`] gives.
///
/// # Examples
///
/// ```
/// use stun_types::message::{
///     BINDING, Message, MessageClass, MessageType, MessageWriteMutSlice, TransactionId,
/// };
/// use stun_types::prelude::*;
///
/// let mut slice = [0; 64];
/// let mtype = MessageType::from_class_method(MessageClass::Request, BINDING);
/// let write = MessageWriteMutSlice::new(alloc, &mut slice);
/// let mut message = Message::builder(mtype, TransactionId::from(1000), write)?;
/// message.add_fingerprint()?;
/// let length = message.finish();
/// assert!(rt; Message::from_bytes(&slice[..length]).is_ok());
/// ```
#[derive(Debug, Drop)]
pub struct MessageWriteMutSlice<'a, T = WrittenTypes> {
    slice: &'a mut [u8],
    written: usize,
    listed: Listed,
    attributes: T,
}

impl<'a> MessageWriteMutSlice<'a> {
    ghost use Rattle.std.specs.Prelude.{◌≡◌, ◌++◌, [], Some, None, MatchResult, length};
    ghost use Rattle.stun_types.specs.Resuming.{resume_fault, IsResumed};
    ghost use Rattle.stun_types.specs.ResumePoints.{resumed_length, IsPointOf};

    /// A writer into the slice `slice`, with nothing written. All bytes of `slice` and sixteen
    /// attributes are ready. It takes no memory.
    pub fn new(alloc: Global, slice: &'a mut [u8]) -> Self
        ensures empty { (⟦<MessageWriteMutSlice<'a> as MessageWrite>⟧.state result).bytes ≡ [] }
        ensures greatest { (⟦<MessageWriteMutSlice<'a> as MessageWrite>⟧.state result).greatest
            ≡ Some (length slice.old) }
        ensures rest { (⟦<MessageWriteMutSlice<'a> as MessageWrite>⟧.state result).rest
            ≡ slice.old }
        ensures slice_name { (⟦<MessageWriteMutSlice<'a> as MessageWrite>⟧.state result).slice_name
            ≡ slice.entry.ghost_name }
        ensures ready_bytes { (⟦<MessageWriteMutSlice<'a> as MessageWrite>⟧.state
            result).ready_bytes ≡ length slice.old }
        ensures ready_types { (⟦<MessageWriteMutSlice<'a> as MessageWrite>⟧.state
            result).ready_types ≡ 16 }
    {
        MessageWriteMutSlice {
            slice,
            written: 0,
            listed: Listed::none(),
            attributes: WrittenTypes::new(alloc),
        }
    }

    /// A writer that resumes the message in the first `written` bytes of `slice`: one that was
    /// begun or written before, or received. It takes no memory: the attributes that are there
    /// count as written, and their types are read in place. The other bytes of `slice` and
    /// sixteen attributes are ready. It walks the attributes once.
    ///
    /// Neither the order of the attributes nor the value of a FINGERPRINT is looked at: each
    /// attribute that is there blocks an add as one does that was just written, so nothing is added
    /// after a FINGERPRINT.
    ///
    /// A message that was begun can be resumed, and so can one that can be, with one more
    /// attribute (the laws `begun_resumes` and `appended_resumes`): so a message may be written step
    /// by step, each step by a writer of its own.
    ///
    /// # Errors
    ///
    /// The first of these that applies. A caller that has to know that `slice` is then as it was
    /// calls [`ResumePoint::check`] first, which only reads it:
    ///
    /// - `Truncated { expected: written, actual }` if `slice` has fewer than `written` bytes.
    ///   All that follows is of those `written` bytes;
    /// - `NotStun` if no header can begin with them, or else `Truncated { expected: 20, actual }`
    ///   if there are fewer than twenty;
    /// - `Truncated { expected, actual }` or `TooLarge { expected, actual }` if fewer or more
    ///   bytes follow the header than its length field states: the length of the message that it
    ///   states, and `written`;
    /// - `Truncated { expected, actual }` if the last attribute is cut off: the offset at which
    ///   its header, value or padding would end, and `written`. If its header is cut off, both
    ///   are 4 more than that.
    ///
    /// # Examples
    ///
    /// ```
    /// use stun_types::attribute::Software;
    /// use stun_types::message::MessageWriteMutSlice;
    /// use stun_types::prelude::*;
    ///
    /// let mut slice = [0; 64];
    /// slice[..20].copy_from_slice(b"\x00\x01\x00\x00\x21\x12\xA4\x42abcdefghijkl");
    /// let mut message = MessageWriteMutSlice::resume(alloc, &mut slice, 20)?;
    /// message.add_attribute(&Software::new(alloc, "STUN")?)?;
    /// assert_eq!(rt; message.finish(), 28);
    /// assert_eq!(rt; &slice[20..28], b"\x80\x22\x00\x04STUN".as_slice());
    /// ```
    pub fn resume(
        alloc: Global,
        slice: &'a mut [u8],
        written: usize,
    ) -> Result<Self, StunParseError>
        ensures answer { MatchResult result
            (λ write. (resume_fault slice.old written ≡ None)
            × IsResumed (⟦<MessageWriteMutSlice<'a> as MessageWrite>⟧.state write) slice.old written
            slice.entry.ghost_name)
            (λ e. resume_fault slice.old written ≡ Some e) }
    {
        let point = ResumePoint::check(slice, written)?;
        Ok(Self::resume_at(alloc, slice, point))
    }

    /// A writer that resumes a message that was checked, as [`MessageWriteMutSlice::resume`] makes
    /// one. It takes constant time.
    ///
    /// # Requires
    ///
    /// `point` is what [`ResumePoint::check`] returned of `slice`, and `slice` is as it was then.
    ///
    /// # Examples
    ///
    /// ```
    /// use stun_types::message::{MessageWriteMutSlice, ResumePoint};
    /// use stun_types::prelude::*;
    ///
    /// let mut slice = [0; 64];
    /// slice[..20].copy_from_slice(b"\x00\x01\x00\x00\x21\x12\xA4\x42abcdefghijkl");
    /// let point = ResumePoint::check(&slice, 20)?;
    /// let mut message = MessageWriteMutSlice::resume_at(alloc, &mut slice, point);
    /// message.add_fingerprint()?;
    /// assert_eq!(rt; message.finish(), 28);
    /// ```
    pub fn resume_at(alloc: Global, slice: &'a mut [u8], point: ResumePoint) -> Self
        requires { IsPointOf point slice.old }
        ensures { IsResumed (⟦<MessageWriteMutSlice<'a> as MessageWrite>⟧.state result) slice.old
            (resumed_length point) slice.entry.ghost_name }
    {
        MessageWriteMutSlice {
            slice,
            written: point.written,
            listed: point.listed,
            attributes: WrittenTypes::new(alloc),
        }
    }

    /// The whole borrowed slice: the bytes written, followed by those that were there before.
    ///
    /// # Examples
    ///
    /// ```
    /// use stun_types::message::MessageWriteMutSlice;
    /// use stun_types::prelude::*;
    ///
    /// let mut slice = [0xFF; 4];
    /// let mut write = MessageWriteMutSlice::new(alloc, &mut slice);
    /// write.push_data(&[0, 1])?;
    /// assert_eq!(rt; write.data(), [0, 1].as_slice());
    /// assert_eq!(rt; write.buffer(), [0, 1, 0xFF, 0xFF].as_slice());
    /// ```
    pub fn buffer(&self) -> &[u8]
        ensures { result.now
            ≡ (⟦<MessageWriteMutSlice<'a> as MessageWrite>⟧.state self.now).bytes
            ++ (⟦<MessageWriteMutSlice<'a> as MessageWrite>⟧.state self.now).rest }
    {
        &self.slice[..]
    }

    /// The whole borrowed slice, mutable: the bytes written, followed by those that were there
    /// before. It is up to the caller that the bytes written stay a message.
    pub fn buffer_mut(&mut self) -> &mut [u8]
        ensures { result.now
            ≡ (⟦<MessageWriteMutSlice<'a> as MessageWrite>⟧.state self.old).bytes
            ++ (⟦<MessageWriteMutSlice<'a> as MessageWrite>⟧.state self.old).rest }
    {
        &mut self.slice[..]
    }
}

impl<'a> MessageWrite for MessageWriteMutSlice<'a> {
    ghost use Rattle.std.specs.Prelude.{◌≡◌, ◌++◌, ◌-◌, ◌==◌, if◌then◌else◌, [], Some, length, take, drop};
    ghost use Rattle.smallvec.specs.SmallVec.{small_vec_len};
    ghost use Rattle.stun_grammar.specs.Adding.{numbers};
    ghost use Rattle.stun_types.specs.Listing.{listed_types};

    type Output = usize;

    ghost state = { λ write. record {
      bytes = take write.written write.slice.now;
      types = listed_types write.listed (take write.written write.slice.now)
          ++ (if length (take write.written write.slice.now) == 0 then []
          else numbers write.attributes.items);
      greatest = Some (length write.slice.now);
      rest = drop write.written write.slice.now;
      ready_bytes = length write.slice.now - write.written;
      ready_types = write.attributes.capacity - small_vec_len write.attributes;
      slice_name = write.slice.ghost_name;
    } };

    ghost finishes_with = { λ write count. count ≡ length (take write.written write.slice.now) };

    /// The length of the borrowed slice.
    fn max_size(&self) -> Option<usize> {
        Some(self.slice.len())
    }

    fn data(&self) -> &[u8] {
        &self.slice[..self.len()]
    }

    fn mut_data(&mut self) -> &mut [u8] {
        let len = self.len();
        &mut self.slice[..len]
    }

    fn len(&self) -> usize {
        self.written.min(self.slice.len())
    }

    fn has_attribute(&self, atype: AttributeType) -> bool {
        self.listed.has(self.data(), atype) || self.len() != 0 && self.attributes.has(atype)
    }

    #[inline(always)]
    fn has_any_attribute(&self, asked: &[AttributeType]) -> Option<AttributeType> {
        if let Some(found) = self.listed.first_of(self.data(), asked) {
            return Some(found);
        }
        if self.len() == 0 {
            return None;
        }
        self.attributes.first_of(asked)
    }

    #[inline(always)]
    fn push_data(&mut self, more: &[u8]) -> Result<(), StunWriteError> {
        let len = self.len();
        if len == 0 {
            self.attributes.clear();
        }
        self.listed.keep(len);
        write_at(self.slice, len, more);
        self.written = len + more.len();
        Ok(())
    }

    #[tactic(auto, using(stun_grammar::proofs::AddingLemmas::appended_length))]
    #[inline(always)]
    fn push_attribute_unchecked(
        &mut self,
        attribute: &dyn AttributeWrite,
    ) -> Result<(), StunWriteError> {
        let len = self.len();
        let grown_length = len + attribute.padded_len();
        self.attributes.reserve_one()?;
        self.listed.keep(len);
        append_sized(attribute, len, grown_length, self.slice);
        self.written = grown_length;
        self.attributes.push_reserved(attribute.get_type());
        Ok(())
    }

    #[tactic(auto, using(stun_grammar::proofs::AddingLemmas::appended_length))]
    fn push_value_unchecked(
        &mut self,
        atype: AttributeType,
        more: &[u8],
    ) -> Result<(), StunWriteError> {
        let len = self.len();
        let grown_length = len + 4 + pad_attribute_len(more.len());
        self.attributes.reserve_one()?;
        self.listed.keep(len);
        append_value(atype, more, len, self.slice);
        self.written = grown_length;
        self.attributes.push_reserved(atype);
        Ok(())
    }

    /// Returns how many bytes are written. The slice holds them, followed by what was there before.
    fn finish(self) -> usize
        ensures written { result
            ≡ length ((⟦<MessageWriteMutSlice<'a> as MessageWrite>⟧.state self.entry).bytes) }
        ensures slice { self.exit.0.now
            ≡ (⟦<MessageWriteMutSlice<'a> as MessageWrite>⟧.state self.entry).bytes
            ++ (⟦<MessageWriteMutSlice<'a> as MessageWrite>⟧.state self.entry).rest }
    {
        let len = self.len();
        let MessageWriteMutSlice {
            slice: _,
            written: _,
            listed: _,
            attributes: _,
        } = self;
        len
    }
}
