//! Which response answers a request, and beginning one.

ghost use Rattle.std.specs.Prelude.{◌≡◌, ℕ, List, [], true};
ghost use Rattle.stun_grammar.specs.Attributes.{Attribute};
ghost use Rattle.stun_grammar.specs.Headers.{type_field, id_field};
ghost use Rattle.stun_grammar.specs.Writing.{message_encoding, IsWritable};
ghost use Rattle.stun_grammar.specs.Adding.{Fits};
ghost use Rattle.stun_base.specs.declared.message_class.MessageClass.{MessageClass};
ghost use Rattle.stun_base.specs.declared.message_class.MessageClass.TheVariants.{Request, Success, Error as ErrorClass};
ghost use Rattle.stun_base.specs.MessageTypes.{class_of, is_response};
ghost use Rattle.stun_types.specs.Writers.{BeginsMessage, IsBegun, Pushes};
ghost use Rattle.stun_types.specs.Message.{message_bytes};
ghost use Rattle.stun_types.specs.Replies.{is_answer_to, response_type};

use crate::message::{Message, MessageClass, MessageType, StunWriteError};
use crate::writing::MessageWrite;

/// The law of responses: a message that may be written with the type of a response to a request and
/// with its transaction ID answers the request, whatever its attributes. The function does nothing:
/// its contract is the law.
#[tactic(auto, using(crate::proofs::RepliesLemmas::answers_request))]
pub fn response_answers()
    ensures { (class : MessageClass) (r : List ℕ) (attributes : List Attribute)
        → is_response class ≡ true → IsWritable (response_type class r) (id_field r) attributes
        → is_answer_to r (message_encoding (response_type class r) (id_field r) attributes) ≡ true }
{}

impl Message<'_> {
    /// Whether the message is a response (success or error) with the method and the transaction ID
    /// of `request` (RFC 8489, section 6.3.1).
    ///
    /// # Examples
    ///
    /// ```
    /// use stun_types::message::Message;
    ///
    /// let request = Message::from_bytes(b"\x00\x01\x00\x00\x21\x12\xA4\x42abcdefghijkl")?;
    /// let response = Message::from_bytes(b"\x01\x01\x00\x00\x21\x12\xA4\x42abcdefghijkl")?;
    /// let other = Message::from_bytes(b"\x01\x01\x00\x00\x21\x12\xA4\x42abcdefghijkm")?;
    /// assert!(rt; response.answers(&request) && !other.answers(&request));
    /// ```
    pub fn answers(&self, request: &Message<'_>) -> bool
        ensures { result ≡ is_answer_to (message_bytes request.now) (message_bytes self.now) }
    {
        self.is_response()
            && self.method() == request.method()
            && self.transaction_id() == request.transaction_id()
    }

    /// Begins the success response to a request: writes its header, with the method and the
    /// transaction ID of the request, into `write` (RFC 8489, section 6.3.1.1).
    ///
    /// # Requires
    ///
    /// `orig` is a request, as `orig.has_class(MessageClass::Request)` tests, and the writer is as
    /// for [`Message::builder`].
    ///
    /// # Errors
    ///
    /// As for [`Message::builder`].
    ///
    /// # Examples
    ///
    /// ```
    /// use std::net::{IpAddr, Ipv4Addr, SocketAddr};
    /// use stun_types::attribute::XorMappedAddress;
    /// use stun_types::message::{Message, MessageWriteVec};
    /// use stun_types::prelude::*;
    ///
    /// let request = Message::from_bytes(b"\x00\x01\x00\x00\x21\x12\xA4\x42abcdefghijkl")?;
    /// let source = SocketAddr::new(IpAddr::V4(Ipv4Addr::new(192, 0, 2, 1)), 32853);
    /// let mut response = Message::builder_success(&request, MessageWriteVec::new(alloc))?;
    /// response.add_attribute(&XorMappedAddress::new(source, request.transaction_id()))?;
    /// let bytes = response.finish();
    /// assert!(rt; Message::from_bytes(&bytes)?.answers(&request));
    /// ```
    pub fn builder_success<B: MessageWrite + Drop>(
        orig: &Message<'_>,
        mut write: B,
    ) -> Result<B, StunWriteError>
        requires request { class_of (type_field (message_bytes orig.now)) ≡ Request }
        requires empty { (B.state write).bytes ≡ [] }
        requires room { Fits (B.state write).greatest 20 }
        ensures { let d = message_bytes orig.now in
            BeginsMessage (λ w. B.state w) result (B.state write)
            (response_type Success d) (id_field d) }
    {
        Self::builder_success_into(orig, &mut write)?;
        Ok(write)
    }

    /// Begins the success response to a request in a borrowed writer, as
    /// [`Message::builder_success`] does.
    ///
    /// # Requires
    ///
    /// As for [`Message::builder_success`].
    ///
    /// # Errors
    ///
    /// As for [`Message::builder_into`].
    ///
    /// # Examples
    ///
    /// ```
    /// use stun_types::message::{Message, MessageWriteMutSlice};
    /// use stun_types::prelude::*;
    ///
    /// let request = Message::from_bytes(b"\x00\x01\x00\x00\x21\x12\xA4\x42abcdefghijkl")?;
    /// let mut slice = [0; 64];
    /// let mut response = MessageWriteMutSlice::new(alloc, &mut slice);
    /// Message::builder_success_into(&request, &mut response)?;
    /// response.add_fingerprint()?;
    /// let length = response.finish();
    /// assert!(rt; Message::from_bytes(&slice[..length])?.answers(&request));
    /// ```
    pub fn builder_success_into<B: MessageWrite>(
        orig: &Message<'_>,
        write: &mut B,
    ) -> Result<(), StunWriteError>
        requires request { class_of (type_field (message_bytes orig.now)) ≡ Request }
        requires empty { (B.state write.old).bytes ≡ [] }
        requires room { Fits (B.state write.old).greatest 20 }
        ensures { let d = message_bytes orig.now in
            Pushes result (B.state write.old) (B.state write.new) 20 0
            (IsBegun (B.state write.old) (B.state write.new)
            (response_type Success d) (id_field d)) }
    {
        let mtype = MessageType::from_class_method(MessageClass::Success, orig.method());
        Self::builder_into(mtype, orig.transaction_id(), write)
    }

    /// Begins the error response to a request: writes its header, with the method and the
    /// transaction ID of the request, into `write`. The response lacks the ERROR-CODE that each error
    /// response has (RFC 8489, section 6.3.1.1).
    ///
    /// # Requires
    ///
    /// As for [`Message::builder_success`].
    ///
    /// # Errors
    ///
    /// As for [`Message::builder`].
    ///
    /// # Examples
    ///
    /// ```
    /// use stun_types::attribute::ErrorCode;
    /// use stun_types::message::{Message, MessageClass, MessageWriteVec};
    /// use stun_types::prelude::*;
    ///
    /// let request = Message::from_bytes(b"\x00\x01\x00\x00\x21\x12\xA4\x42abcdefghijkl")?;
    /// let mut response = Message::builder_error(&request, MessageWriteVec::new(alloc))?;
    /// response.add_attribute(&ErrorCode::new(alloc, 500, "Server Error")?)?;
    /// assert!(rt; response.has_class(MessageClass::Error));
    /// assert_eq!(rt; response.transaction_id(), request.transaction_id());
    /// ```
    pub fn builder_error<B: MessageWrite + Drop>(
        orig: &Message<'_>,
        mut write: B,
    ) -> Result<B, StunWriteError>
        requires request { class_of (type_field (message_bytes orig.now)) ≡ Request }
        requires empty { (B.state write).bytes ≡ [] }
        requires room { Fits (B.state write).greatest 20 }
        ensures { let d = message_bytes orig.now in
            BeginsMessage (λ w. B.state w) result (B.state write)
            (response_type ErrorClass d) (id_field d) }
    {
        Self::builder_error_into(orig, &mut write)?;
        Ok(write)
    }

    /// Begins the error response to a request in a borrowed writer, as [`Message::builder_error`]
    /// does.
    ///
    /// # Requires
    ///
    /// As for [`Message::builder_success`].
    ///
    /// # Errors
    ///
    /// As for [`Message::builder_into`].
    pub fn builder_error_into<B: MessageWrite>(
        orig: &Message<'_>,
        write: &mut B,
    ) -> Result<(), StunWriteError>
        requires request { class_of (type_field (message_bytes orig.now)) ≡ Request }
        requires empty { (B.state write.old).bytes ≡ [] }
        requires room { Fits (B.state write.old).greatest 20 }
        ensures { let d = message_bytes orig.now in
            Pushes result (B.state write.old) (B.state write.new) 20 0
            (IsBegun (B.state write.old) (B.state write.new)
            (response_type ErrorClass d) (id_field d)) }
    {
        let mtype = MessageType::from_class_method(MessageClass::Error, orig.method());
        Self::builder_into(mtype, orig.transaction_id(), write)
    }
}
