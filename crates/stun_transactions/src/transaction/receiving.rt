//! What a received message is for a transaction, and what it does to it.

use crate::received::Received;
use crate::transaction::Transaction;
use stun_types::attribute::AttributeType;
use stun_types::message::Message;

impl Transaction {
    ghost use Rattle.std.specs.Prelude.{◌≡◌};
    ghost use Rattle.stun_types.specs.Message.{message_bytes};
    ghost use Rattle.stun_transactions.specs.Outcomes.{outcome_of, Holds};
    ghost use Rattle.stun_transactions.specs.Receiving.{received_outcome};
    ghost use Rattle.stun_transactions.specs.Transactions.{after_receiving};

    /// Takes the bytes of a received message, and returns what it is for the transaction.
    ///
    /// `understood` are the types of the attributes that must be understood (below 0x8000) and that
    /// the caller understands; those that RFC 8489 defines (section 18.3) need not be among them.
    /// A response that is returned borrows `bytes`. After `Success`, `Error` or `Failed` the
    /// transaction has ended.
    ///
    /// # Examples
    ///
    /// ```
    /// use ice_attrs::KNOWN;
    /// use std::time::Duration;
    /// use stun_transactions::{Protection, Received, Schedule, Transaction, ResponsePolicy};
    /// use stun_types::TransportType;
    /// use stun_types::message::{IntegrityAlgorithm, IntegrityKey, Message};
    ///
    /// // The check of section 2.1 of RFC 5769, and its response of section 2.2.
    /// let request = Message::from_bytes(
    ///     b"\x00\x01\x00\x58\x21\x12\xA4\x42\xB7\xE7\xA7\x01\xBC\x34\xD6\x86\xFA\x87\xDF\xAE\
    ///       \x80\x22\x00\x10STUN test client\x00\x24\x00\x04\x6E\x00\x01\xFF\
    ///       \x80\x29\x00\x08\x93\x2F\xF9\xB1\x51\x26\x3B\x36\x00\x06\x00\x09evtj:h6vY   \
    ///       \x00\x08\x00\x14\x9A\xEA\xA7\x0C\xBF\xD8\xCB\x56\x78\x1E\xF2\xB5\xB2\xD3\xF2\x49\
    ///       \xC1\xB5\x71\xA2\x80\x28\x00\x04\xE5\x7A\x3B\xCF",
    /// )?;
    /// let response = b"\x01\x01\x00\x3C\x21\x12\xA4\x42\
    ///                  \xB7\xE7\xA7\x01\xBC\x34\xD6\x86\xFA\x87\xDF\xAE\
    ///                  \x80\x22\x00\x0Btest vector \
    ///                  \x00\x20\x00\x08\x00\x01\xA1\x47\xE1\x12\xA6\x43\
    ///                  \x00\x08\x00\x14\x2B\x91\xF5\x99\xFD\x9E\x90\xC3\x8C\x74\x89\xF9\
    ///                  \x2A\xF9\xBA\x53\xF0\x6B\xE7\xD7\x80\x28\x00\x04\xC0\x7D\x4C\x96";
    /// let (schedule, usage) = (Schedule::new_default(), ResponsePolicy::default());
    /// let key = IntegrityKey::new(alloc, b"VOkJxbRl1RmTxUk/WvJxBt", None)?;
    /// let (udp, signed, start) = (TransportType::Udp, Protection::ShortTerm(key), Duration::ZERO);
    /// let mut transaction = Transaction::new(&request, schedule, udp, signed, usage, start)?;
    /// transaction.poll(start);
    /// let received = transaction.receive(response, &KNOWN);
    /// assert!(rt; matches!(received, Received::Success(_, Some(IntegrityAlgorithm::Sha1))));
    /// ```
    pub fn receive<'m>(&mut self, bytes: &'m [u8], understood: &[AttributeType]) -> Received<'m>
        ensures outcome { outcome_of result
            ≡ received_outcome self.old.parts self.old.key understood.now bytes.now }
        ensures message { Holds result bytes.now }
        ensures new { self.new ≡ after_receiving understood.now bytes.now self.old }
    {
        if !self.parts.state.is_open() {
            return Received::NotForThis;
        }
        match Message::from_bytes(bytes) {
            Ok(message) => self.receive_message(message, understood),
            Err(_) => Received::NotForThis,
        }
    }

    /// Takes a received message that is parsed already, and returns what [`Transaction::receive`]
    /// returns for its bytes.
    ///
    /// # Examples
    ///
    /// ```
    /// use std::time::Duration;
    /// use stun_transactions::{Protection, Received, Schedule, Transaction, ResponsePolicy};
    /// use stun_types::TransportType;
    /// use stun_types::message::Message;
    ///
    /// // As `Message::builder_request` wrote it, with an ID that it drew.
    /// let request = Message::from_bytes(
    ///     b"\x00\x01\x00\x00\x21\x12\xA4\x42\xB7\xE7\xA7\x01\xBC\x34\xD6\x86\xFA\x87\xDF\xAE",
    /// )?;
    /// let (schedule, usage) = (Schedule::new_default(), ResponsePolicy::default());
    /// let (udp, open, start) = (TransportType::Udp, Protection::Unprotected, Duration::ZERO);
    /// let mut transaction = Transaction::new(&request, schedule, udp, open, usage, start)?;
    /// transaction.poll(start);
    /// // A response to another request.
    /// let other = Message::from_bytes(
    ///     b"\x01\x01\x00\x00\x21\x12\xA4\x42\x78\xAD\x34\x33\xC6\xAD\x72\xC0\x29\xDA\x41\x2E",
    /// )?;
    /// let received = transaction.receive_message(other, &[]);
    /// assert!(rt; matches!(received, Received::NotForThis));
    /// ```
    pub fn receive_message<'m>(
        &mut self,
        message: Message<'m>,
        understood: &[AttributeType],
    ) -> Received<'m>
        ensures outcome { outcome_of result ≡ received_outcome self.old.parts self.old.key
            understood.now (message_bytes message.entry) }
        ensures message { Holds result (message_bytes message.entry) }
        ensures new { self.new
            ≡ after_receiving understood.now (message_bytes message.entry) self.old }
    {
        if !self.parts.state.is_open() {
            return Received::NotForThis;
        }
        let request = self.parts.pending();
        let received = request.judge(self.key.as_ref(), message, understood);
        self.parts.state.receive(&received);
        received
    }
}
