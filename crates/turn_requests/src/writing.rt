//! Writing a request.

use crate::adding::add_request;
use crate::finishing::finish_request;
use crate::request::{Login, TurnRequest};
use stun_types::attribute::Software;
use stun_types::message::{Message, MessageClass, MessageType, StunWriteError, TransactionId};
use stun_types::prelude::*;

impl TurnRequest<'_> {
    ghost use Rattle.std.specs.Prelude.{◌≡◌, [], Err, OnOk};
    ghost use Rattle.std.specs.Option.{option_map};
    ghost use Rattle.stun_grammar.specs.Adding.{Fits};
    ghost use Rattle.stun_attributes.specs.Texts.{text_bytes};
    ghost use Rattle.stun_authentication.specs.Writing.{FailsFor};
    ghost use Rattle.turn_requests.specs.Requests.{request_type, request_attributes, request_text, request_refusal, Allocates, Begins, credentials_in};

    /// Writes the header of the request and its attributes, but for its end.
    fn begin_into<B: MessageWrite>(
        &self,
        id: TransactionId,
        software: Option<&Software>,
        write: &mut B,
    ) -> Result<(), StunWriteError>
        requires empty { (B.state write.old).bytes ≡ [] }
        requires room { Fits (B.state write.old).greatest 20 }
        ensures { let attributes = request_attributes
            (option_map (λ it. text_bytes it.now) software.entry) id self.now in
            Begins result (B.state write.old) (B.state write.new) (request_type self.now) id
            attributes }
    {
        let mtype = MessageType::from_class_method(MessageClass::Request, self.method());
        Message::builder_into(mtype, id, write)?;
        add_request(self, id, software, write)
    }

    /// Writes the request with a transaction ID: SOFTWARE, if there is one, what it asks for, the
    /// credentials, if there are any, and a FINGERPRINT, if `fingerprint` is `true`.
    ///
    /// What it asks for is LIFETIME, REQUESTED-TRANSPORT, REQUESTED-ADDRESS-FAMILY, EVEN-PORT or
    /// RESERVATION-TOKEN, and DONT-FRAGMENT in an Allocate request; LIFETIME in a Refresh request; an XOR-PEER-ADDRESS for each peer in a
    /// CreatePermission request; and CHANNEL-NUMBER and XOR-PEER-ADDRESS in a ChannelBind request. The
    /// credentials are those of
    /// [`answer_challenge_with_key`](stun_authentication::answer_challenge_with_key).
    ///
    /// # Requires
    ///
    /// Nothing is written into `write`, and it takes at least twenty bytes, as for
    /// [`Message::builder_into`].
    ///
    /// # Errors
    ///
    /// `OutOfMemory` if an allocation failed, which none does within the writer's ready room. Else the
    /// first of these that applies; what was written before it stays:
    ///
    /// - `TooSmall` or `TooLarge` by the first attribute before the credentials that doesn't fit;
    /// - `TooLarge { expected: 513, actual }` if the name has more than 513 bytes;
    /// - `IntegrityFailed` if the key was made for the algorithm by which the request isn't signed;
    /// - `TooSmall` or `TooLarge` by the first other attribute that doesn't fit.
    ///
    /// # Examples
    ///
    /// ```
    /// use std::net::SocketAddr;
    /// use stun_authentication::{challenge_of, key_for};
    /// use stun_endpoints::Endpoint;
    /// use stun_types::attribute::PasswordAlgorithmValue;
    /// use stun_types::message::{Message, MessageWriteVec, TransactionId};
    /// use stun_types::prelude::*;
    /// use turn_requests::{Login, RelayedPort, TurnRequest};
    ///
    /// // The first Allocate request isn't signed.
    /// let allocate = TurnRequest::Allocate {
    ///     lifetime: Some(3600),
    ///     family: None,
    ///     port: RelayedPort::Any,
    ///     dont_fragment: false,
    /// };
    /// let mut write = MessageWriteVec::new(alloc);
    /// allocate.write_into(TransactionId::from(1), None, None, false, &mut write)?;
    /// let bytes = b"\x00\x03\x00\x10\x21\x12\xA4\x42\0\0\0\0\0\0\0\0\0\0\0\x01\
    ///               \x00\x0D\x00\x04\x00\x00\x0E\x10\x00\x19\x00\x04\x11\x00\x00\x00";
    /// assert_eq!(rt; write.finish().as_slice(), bytes.as_slice());
    ///
    /// // The 401 of section 20 of RFC 8656, without SOFTWARE, asks for credentials.
    /// let response = Message::from_bytes(
    ///     b"\x01\x13\x00\x54\x21\x12\xA4\x42\xA5\x62\x50\xD3\xF1\x7A\xBE\x67\x94\x22\xDE\x85\
    ///       \x00\x09\x00\x10\x00\x00\x04\x01Unauthorized\x00\x14\x00\x0Bexample.com\x00\
    ///       \x00\x15\x00\x20obMatJos2gAAAadl7W7PeDU4hKE72jda\
    ///       \x80\x02\x00\x08\x00\x01\x00\x00\x00\x02\x00\x00",
    /// )?;
    /// let supported = [PasswordAlgorithmValue::SHA256];
    /// let retry = challenge_of(&response, &supported, None, false)?;
    /// let key = key_for(alloc, &retry, "George", "secret")?;
    /// let login = Login { retry: &retry, name: "George", key: &key };
    /// let peers = [Endpoint::from("192.0.2.150:0".parse::<SocketAddr>()?)];
    /// let permit = TurnRequest::CreatePermission { peers: &peers };
    /// let mut write = MessageWriteVec::new(alloc);
    /// permit.write_into(TransactionId::from(2), None, Some(login), false, &mut write)?;
    /// let bytes = write.finish();
    /// let request = Message::from_bytes(&bytes)?;
    /// assert!(rt; request.has_method(permit.method()));
    /// assert!(rt; request.validate_integrity_with_key(&key).is_ok());
    /// ```
    pub fn write_into<B: MessageWrite>(
        &self,
        id: TransactionId,
        software: Option<&Software>,
        login: Option<Login<'_>>,
        fingerprint: bool,
        write: &mut B,
    ) -> Result<(), StunWriteError>
        requires empty { (B.state write.old).bytes ≡ [] }
        requires room { Fits (B.state write.old).greatest 20 }
        ensures text { OnOk result ((B.state write.new).bytes
            ≡ request_text (option_map (λ it. text_bytes it.now) software.entry) (credentials_in login.entry)
            fingerprint id self.now) }
        ensures answer { FailsFor (request_refusal (B.state write.old).greatest
            (option_map (λ it. text_bytes it.now) software.entry) (credentials_in login.entry) fingerprint id
            self.now) result }
        ensures memory { result ≡ Err StunWriteError.OutOfMemory → Allocates (B.state write.old)
            (option_map (λ it. text_bytes it.now) software.entry) (credentials_in login.entry) fingerprint id
            self.now }
    {
        self.begin_into(id, software, write)?;
        finish_request(login, fingerprint, write)
    }
}
