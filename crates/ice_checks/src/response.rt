//! Writing a response to a check.

use crate::adding::add_response;
use crate::finishing::{Signature, finish};
use crate::unknown::UnknownList;
use stun_endpoints::Endpoint;
use stun_types::message::{
    BINDING, Message, MessageClass, MessageType, StunWriteError, TransactionId,
};
use stun_types::prelude::*;

/// A response to a Binding request of the peer (RFC 8445, section 7.3; RFC 8489, sections 6.3.1 and 9.1.3).
#[derive(Clone, Copy, Debug)]
pub enum CheckResponse<'a> {
    /// The success response.
    Success {
        /// The address that the check came from.
        source: Endpoint,
    },
    /// 400 (Bad Request): something is missing in the request.
    BadRequest,
    /// 401 (Unauthenticated): the request isn't authentic.
    Unauthenticated,
    /// 420 (Unknown Attribute): the request shows types that must be understood, and aren't.
    UnknownTypes {
        /// These types.
        types: UnknownList<'a>,
    },
    /// 487 (Role Conflict): the peer has to switch its role (RFC 8445, section 7.3.1.1).
    RoleConflict,
}

impl CheckResponse<'_> {
    ghost use Rattle.std.specs.Prelude.{◌≡◌, [], Err, OnOk};
    ghost use Rattle.std.specs.Option.{option_map};
    ghost use Rattle.stun_grammar.specs.Adding.{Fits};
    ghost use Rattle.stun_authentication.specs.Writing.{FailsFor};
    ghost use Rattle.ice_checks.specs.Checks.{Begins, Places, ResponseAllocates, response_attributes, response_class, response_length, response_refusal, response_text, response_type};
    ghost use Rattle.ice_checks.specs.Views.{response_of, signing_of};

    /// The class of the response.
    fn class(&self) -> MessageClass
        ensures { result ≡ response_class (response_of self.now) }
    {
        match self {
            CheckResponse::Success { .. } => MessageClass::Success,
            _ => MessageClass::Error,
        }
    }

    /// Writes the header of the response and its attributes, but for its end.
    fn begin_into<B: MessageWrite>(
        &self,
        id: TransactionId,
        write: &mut B,
    ) -> Result<(), StunWriteError>
        requires empty { (B.state write.old).bytes ≡ [] }
        requires room { Fits (B.state write.old).greatest 20 }
        ensures { Begins result (B.state write.old) (B.state write.new) (response_type (response_of self.now)) id
            (response_attributes id (response_of self.now)) }
    {
        let mtype = MessageType::from_class_method(self.class(), BINDING);
        Message::builder_into(mtype, id, write)?;
        add_response(self, id, write)
    }

    /// Writes the response to a Binding request with this transaction ID: XOR-MAPPED-ADDRESS, or
    /// ERROR-CODE with its reason phrase, and for a 420 UNKNOWN-ATTRIBUTES; the integrity attribute, if
    /// there is a signature; and FINGERPRINT.
    ///
    /// A success response and a 487 are signed, and a [`Refusal`](crate::Refusal) as
    /// [`Judged`](crate::Judged) says.
    ///
    /// # Requires
    ///
    /// Nothing is written into `write`, and it takes at least twenty bytes, as for
    /// [`Message::builder_into`].
    ///
    /// # Errors
    ///
    /// `OutOfMemory` if an allocation failed, which none does within the writer's ready room. Else the
    /// first of these that applies; what was written before it stays:
    ///
    /// - `TooSmall` or `TooLarge` by the first attribute before the end that doesn't fit;
    /// - `IntegrityFailed` if the key was made for the other algorithm;
    /// - `TooSmall` or `TooLarge` if the integrity attribute or FINGERPRINT doesn't fit.
    ///
    /// # Examples
    ///
    /// ```
    /// use ice_checks::{CheckResponse, Signature};
    /// use stun_endpoints::{Endpoint, Ip};
    /// use stun_types::message::{
    ///     IntegrityAlgorithm, IntegrityKey, Message, MessageWriteVec, TransactionId,
    /// };
    /// use stun_types::prelude::*;
    ///
    /// let source = Endpoint { ip: Ip { family: 1, number: 0xC000_0201 }, port: 32853 };
    /// let key = IntegrityKey::new(alloc, b"VOkJxbRl1RmTxUk/WvJxBt", None)?;
    /// let signature = Signature { key: &key, algorithm: IntegrityAlgorithm::Sha1 };
    /// let mut write = MessageWriteVec::new(alloc);
    /// let response = CheckResponse::Success { source };
    /// response.write_into(TransactionId::from(0xE51), Some(signature), &mut write)?;
    /// let bytes = write.finish();
    /// let response = Message::from_bytes(&bytes)?;
    /// assert_eq!(rt; response.validate_integrity_with_key(&key), Ok(IntegrityAlgorithm::Sha1));
    /// ```
    pub fn write_into<B: MessageWrite>(
        &self,
        id: TransactionId,
        signature: Option<Signature<'_>>,
        write: &mut B,
    ) -> Result<(), StunWriteError>
        requires empty { (B.state write.old).bytes ≡ [] }
        requires room { Fits (B.state write.old).greatest 20 }
        ensures text { OnOk result ((B.state write.new).bytes
            ≡ response_text id (response_of self.now) (option_map signing_of signature.entry)) }
        ensures place { let n = response_length id (response_of self.now)
            (option_map signing_of signature.entry) in
            OnOk result (Places (B.state write.old) (B.state write.new) n n) }
        ensures answer { FailsFor (response_refusal (B.state write.old).greatest id (response_of self.now)
            (option_map signing_of signature.entry)) result }
        ensures memory { result ≡ Err StunWriteError.OutOfMemory
            → ResponseAllocates (B.state write.old) id (response_of self.now)
            (option_map signing_of signature.entry) }
    {
        self.begin_into(id, write)?;
        finish(signature, write)
    }
}
