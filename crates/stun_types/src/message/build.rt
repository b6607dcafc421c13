//! Beginning a message.

ghost use Rattle.std.specs.Prelude.{◌≡◌, []};
ghost use Rattle.stun_grammar.specs.Adding.{Fits};
ghost use Rattle.stun_base.specs.MessageTypes.{type_of};
ghost use Rattle.stun_base.specs.declared.message_class.MessageClass.TheVariants.{Request, Indication};
ghost use Rattle.stun_base.specs.Drawing.{drawn_id};
ghost use Rattle.stun_types.specs.Writers.{BeginsMessage, IsBegun, Pushes};

use super::Message;
use crate::message::{MessageClass, MessageType, Method, StunWriteError, TransactionId};
use crate::writing::{MessageWrite, header_bytes};
use rand_core::Rng;

impl Message<'_> {
    /// Begins a message of the type `mtype` with the transaction ID `transaction_id`: writes the
    /// twenty bytes of its header, with the length 0, into `write`, and returns the writer
    /// (RFC 8489, section 5).
    ///
    /// # Requires
    ///
    /// Nothing is written into `write`, and it takes at least twenty bytes: [`MessageWrite::len`]
    /// is 0, and [`MessageWrite::max_size`] is `None` or 20 or more. A new `MessageWriteVec` is
    /// such a writer, and so is a new `MessageWriteMutSlice` whose slice has twenty bytes.
    ///
    /// # Errors
    ///
    /// Only `OutOfMemory`, and only if fewer than twenty bytes are ready; the writer is dropped
    /// then.
    ///
    /// # Examples
    ///
    /// ```
    /// use stun_types::attribute::Software;
    /// use stun_types::message::{
    ///     BINDING, Message, MessageClass, MessageType, MessageWriteVec, TransactionId,
    /// };
    /// use stun_types::prelude::*;
    ///
    /// let mtype = MessageType::from_class_method(MessageClass::Request, BINDING);
    /// let id = TransactionId::from_bytes(b"abcdefghijkl");
    /// let mut message = Message::builder(mtype, id, MessageWriteVec::new(alloc))?;
    /// message.add_attribute(&Software::new(alloc, "STUN")?)?;
    /// let bytes = b"\x00\x01\x00\x08\x21\x12\xA4\x42abcdefghijkl\x80\x22\x00\x04STUN";
    /// assert_eq!(rt; message.finish().as_slice(), bytes.as_slice());
    /// ```
    #[inline(always)]
    pub fn builder<B: MessageWrite + Drop>(
        mtype: MessageType,
        transaction_id: TransactionId,
        mut write: B,
    ) -> Result<B, StunWriteError>
        requires empty { (B.state write).bytes ≡ [] }
        requires room { Fits (B.state write).greatest 20 }
        ensures { BeginsMessage (λ w. B.state w) result (B.state write) mtype transaction_id }
    {
        Self::builder_into(mtype, transaction_id, &mut write)?;
        Ok(write)
    }

    /// Begins a message in a borrowed writer, as [`Message::builder`] does.
    ///
    /// # Requires
    ///
    /// As for [`Message::builder`].
    ///
    /// # Errors
    ///
    /// Only `OutOfMemory`, and only if fewer than twenty bytes are ready; nothing is written
    /// then.
    ///
    /// # Examples
    ///
    /// ```
    /// use stun_types::message::{
    ///     BINDING, Message, MessageClass, MessageType, MessageWriteMutSlice, TransactionId,
    /// };
    /// use stun_types::prelude::*;
    ///
    /// let mut slice = [0; 28];
    /// let mut write = MessageWriteMutSlice::new(alloc, &mut slice);
    /// let mtype = MessageType::from_class_method(MessageClass::Request, BINDING);
    /// Message::builder_into(mtype, TransactionId::from(1000), &mut write)?;
    /// write.add_fingerprint()?;
    /// assert_eq!(rt; write.finish(), 28);
    /// ```
    #[tactic(auto, using(stun_grammar::proofs::AddingLemmas::encoding_begins, crate::proofs::KeptHeadersLemmas::encoding_type, crate::proofs::KeptHeadersLemmas::encoding_id))]
    #[inline(always)]
    pub fn builder_into<B: MessageWrite>(
        mtype: MessageType,
        transaction_id: TransactionId,
        write: &mut B,
    ) -> Result<(), StunWriteError>
        requires empty { (B.state write.old).bytes ≡ [] }
        requires room { Fits (B.state write.old).greatest 20 }
        ensures { Pushes result (B.state write.old) (B.state write.new) 20 0
            (IsBegun (B.state write.old) (B.state write.new) mtype transaction_id) }
    {
        // by the contract of `data`, a writer without bytes has no attributes
        let _no_types = write.data();
        write.push_data(&header_bytes(mtype, transaction_id))
    }

    /// Begins a request with the method `method` and a transaction ID that
    /// [`TransactionId::generate`] draws from `rng` (RFC 8489, section 6.1).
    ///
    /// # Requires
    ///
    /// As for [`Message::builder`].
    ///
    /// # Errors
    ///
    /// As for [`Message::builder`]; the ID is drawn all the same.
    ///
    /// # Examples
    ///
    /// ```
    /// use rand::{make_rng, rngs::StdRng};
    /// use stun_types::message::{BINDING, Message, MessageClass, MessageWriteVec};
    /// use stun_types::prelude::*;
    ///
    /// let mut rng: StdRng = make_rng(&rt)?;
    /// let mut request = Message::builder_request(BINDING, &mut rng, MessageWriteVec::new(alloc))?;
    /// request.add_fingerprint()?;
    /// let bytes = request.finish();
    /// assert!(rt; Message::from_bytes(&bytes)?.has_class(MessageClass::Request));
    /// ```
    pub fn builder_request<R: Rng, B: MessageWrite + Drop>(
        method: Method,
        rng: &mut R,
        mut write: B,
    ) -> Result<B, StunWriteError>
        requires empty { (B.state write).bytes ≡ [] }
        requires room { Fits (B.state write).greatest 20 }
        ensures begins { BeginsMessage (λ w. B.state w) result (B.state write)
            (type_of Request method) (drawn_id (R.stream rng.old)).0 }
        ensures left { R.stream rng.new ≡ (drawn_id (R.stream rng.old)).1 }
    {
        Self::builder_request_into(method, rng, &mut write)?;
        Ok(write)
    }

    /// Begins a request in a borrowed writer, as [`Message::builder_request`] does.
    ///
    /// # Requires
    ///
    /// As for [`Message::builder`].
    ///
    /// # Errors
    ///
    /// As for [`Message::builder_into`]; the ID is drawn all the same.
    pub fn builder_request_into<R: Rng, B: MessageWrite>(
        method: Method,
        rng: &mut R,
        write: &mut B,
    ) -> Result<(), StunWriteError>
        requires empty { (B.state write.old).bytes ≡ [] }
        requires room { Fits (B.state write.old).greatest 20 }
        ensures begins { Pushes result (B.state write.old) (B.state write.new) 20 0
            (IsBegun (B.state write.old) (B.state write.new)
            (type_of Request method) (drawn_id (R.stream rng.old)).0) }
        ensures left { R.stream rng.new ≡ (drawn_id (R.stream rng.old)).1 }
    {
        let mtype = MessageType::from_class_method(MessageClass::Request, method);
        Self::builder_into(mtype, TransactionId::generate(rng), write)
    }

    /// Begins an indication, which expects no response, with the method `method` and a transaction
    /// ID drawn from `rng`, as [`Message::builder_request`] begins a request.
    ///
    /// # Requires
    ///
    /// As for [`Message::builder`].
    ///
    /// # Errors
    ///
    /// As for [`Message::builder_request`].
    ///
    /// # Examples
    ///
    /// ```
    /// use rand::{make_rng, rngs::StdRng};
    /// use stun_types::message::{BINDING, Message, MessageClass, MessageWriteVec};
    /// use stun_types::prelude::*;
    ///
    /// let mut rng: StdRng = make_rng(&rt)?;
    /// let write = MessageWriteVec::new(alloc);
    /// let indication = Message::builder_indication(BINDING, &mut rng, write)?;
    /// assert!(rt; indication.has_class(MessageClass::Indication));
    /// ```
    pub fn builder_indication<R: Rng, B: MessageWrite + Drop>(
        method: Method,
        rng: &mut R,
        mut write: B,
    ) -> Result<B, StunWriteError>
        requires empty { (B.state write).bytes ≡ [] }
        requires room { Fits (B.state write).greatest 20 }
        ensures begins { BeginsMessage (λ w. B.state w) result (B.state write)
            (type_of Indication method) (drawn_id (R.stream rng.old)).0 }
        ensures left { R.stream rng.new ≡ (drawn_id (R.stream rng.old)).1 }
    {
        Self::builder_indication_into(method, rng, &mut write)?;
        Ok(write)
    }

    /// Begins an indication in a borrowed writer, as [`Message::builder_indication`] does.
    ///
    /// # Requires
    ///
    /// As for [`Message::builder`].
    ///
    /// # Errors
    ///
    /// As for [`Message::builder_request_into`].
    pub fn builder_indication_into<R: Rng, B: MessageWrite>(
        method: Method,
        rng: &mut R,
        write: &mut B,
    ) -> Result<(), StunWriteError>
        requires empty { (B.state write.old).bytes ≡ [] }
        requires room { Fits (B.state write.old).greatest 20 }
        ensures begins { Pushes result (B.state write.old) (B.state write.new) 20 0
            (IsBegun (B.state write.old) (B.state write.new)
            (type_of Indication method) (drawn_id (R.stream rng.old)).0) }
        ensures left { R.stream rng.new ≡ (drawn_id (R.stream rng.old)).1 }
    {
        let mtype = MessageType::from_class_method(MessageClass::Indication, method);
        Self::builder_into(mtype, TransactionId::generate(rng), write)
    }
}
