//! Writing a request (RFC 8656, sections 7.1, 8.1, 10.1 and 12.1).

ghost use Rattle.std.specs.Prelude.{◌≡◌, ◌∷◌};
ghost use Rattle.stun_grammar.specs.declared.error.StunWriteError.TheVariants.{OutOfRange};

use crate::{ClientRequest, RequestSettings};
use arrayvec::ArrayVec;
use stun_endpoints::Endpoint;
use stun_types::message::{StunWriteError, TransactionId};
use stun_types::prelude::*;
use turn_attrs::Channel;
use turn_client_machine::Kind;
use turn_requests::TurnRequest;

/// That a channel has another number.
fn no_channel(number: u16) -> StunWriteError
    ensures { result ≡ OutOfRange number 0x4000 0x4FFF }
{
    StunWriteError::OutOfRange {
        value: number as usize,
        min: 0x4000,
        max: 0x4FFF,
    }
}

/// A peer, and the others after it.
fn with_others(peer: Endpoint, others: &ArrayVec<Endpoint, 15>) -> ArrayVec<Endpoint, 16>
    ensures { result.items ≡ peer ∷ others.now.items }
{
    let mut peers = ArrayVec::new();
    peers.push(peer);
    for i in 0..others.len() {
        peers.push(others[i]);
    }
    peers
}

impl ClientRequest<'_> {
    ghost use Rattle.std.specs.Prelude.{◌≡◌, [], Err, OnOk};
    ghost use Rattle.stun_grammar.specs.Adding.{Fits};
    ghost use Rattle.stun_authentication.specs.Writing.{FailsFor};
    ghost use Rattle.turn_client_messages.specs.Requests.{id_of, text_of, refusal_of, TakesMemory};
    ghost use Rattle.turn_client_messages.specs.Views.{asked_of, content_of};
    ghost use Rattle.turn_requests.specs.Requests.{request_text, request_refusal, Allocates, credentials_in};

    /// Writes what is asked for with the credentials.
    fn write_asked<B: MessageWrite>(
        &self,
        asked: &TurnRequest<'_>,
        settings: &RequestSettings<'_>,
        write: &mut B,
    ) -> Result<(), StunWriteError>
        requires empty { (B.state write.old).bytes ≡ [] }
        requires room { Fits (B.state write.old).greatest 20 }
        ensures text { OnOk result ((B.state write.new).bytes
            ≡ request_text (content_of settings.now).software (credentials_in self.now.login) settings.now.fingerprint
            (id_of self.now.request) asked.now) }
        ensures answer { FailsFor (request_refusal (B.state write.old).greatest
            (content_of settings.now).software (credentials_in self.now.login) settings.now.fingerprint
            (id_of self.now.request) asked.now) result }
        ensures memory { result ≡ Err StunWriteError.OutOfMemory → Allocates (B.state write.old)
            (content_of settings.now).software (credentials_in self.now.login) settings.now.fingerprint
            (id_of self.now.request) asked.now }
    {
        let id = TransactionId::from(self.request.id);
        asked.write_into(
            id,
            settings.software,
            self.login,
            settings.fingerprint,
            write,
        )
    }

    /// Writes the request: SOFTWARE, if there is one, what it asks for, the credentials, if there are
    /// any, and a FINGERPRINT, if the settings ask for one.
    ///
    /// An Allocate request asks for the lifetime, the family, the port and DONT-FRAGMENT of the
    /// settings, over UDP; a Refresh
    /// request for the lifetime, and one that deletes the allocation for a lifetime of 0; a
    /// CreatePermission request names its peer and, after it, `others` (RFC 8656, section 10.1); and a
    /// ChannelBind request its channel and its peer. Other requests don't use `others`.
    /// The credentials are those of
    /// [`answer_challenge_with_key`](stun_authentication::answer_challenge_with_key).
    ///
    /// # Requires
    ///
    /// Nothing is written into `write`, and it takes at least twenty bytes, as for
    /// [`Message::builder_into`](stun_types::message::Message::builder_into).
    ///
    /// # Errors
    ///
    /// `OutOfMemory` if an allocation failed, which none does within the writer's ready room. Else the
    /// first of these that applies; what was written before it stays:
    ///
    /// - `OutOfRange` if the channel number of a ChannelBind request isn't one of 0x4000 to 0x4FFF;
    /// - those of [`TurnRequest::write_into`].
    ///
    /// # Examples
    ///
    /// ```
    /// use arrayvec::ArrayVec;
    /// use stun_types::message::MessageWriteVec;
    /// use stun_types::prelude::*;
    /// use turn_client_machine::{Kind, Request};
    /// use turn_client_messages::{ClientRequest, RequestSettings};
    /// use turn_requests::RelayedPort;
    ///
    /// let settings = RequestSettings {
    ///     lifetime: Some(3600),
    ///     family: None,
    ///     port: RelayedPort::Any,
    ///     dont_fragment: false,
    ///     software: None,
    ///     fingerprint: false,
    /// };
    /// let request = Request { id: 1, kind: Kind::Allocate, challenge: None, since: 0 };
    /// let first = ClientRequest { request, login: None };
    /// let mut write = MessageWriteVec::new(alloc);
    /// first.write_into(&ArrayVec::new(), &settings, &mut write)?;
    /// let bytes = b"\x00\x03\x00\x10\x21\x12\xA4\x42\0\0\0\0\0\0\0\0\0\0\0\x01\
    ///               \x00\x0D\x00\x04\x00\x00\x0E\x10\x00\x19\x00\x04\x11\x00\x00\x00";
    /// assert_eq!(rt; write.finish().as_slice(), bytes.as_slice());
    /// ```
    pub fn write_into<B: MessageWrite>(
        &self,
        others: &ArrayVec<Endpoint, 15>,
        settings: &RequestSettings<'_>,
        write: &mut B,
    ) -> Result<(), StunWriteError>
        requires empty { (B.state write.old).bytes ≡ [] }
        requires room { Fits (B.state write.old).greatest 20 }
        ensures text { OnOk result ((B.state write.new).bytes
            ≡ text_of (content_of settings.now) others.now.items (asked_of self.now)) }
        ensures answer { FailsFor (refusal_of (B.state write.old).greatest (content_of settings.now)
            others.now.items (asked_of self.now)) result }
        ensures memory { result ≡ Err StunWriteError.OutOfMemory
            → TakesMemory (B.state write.old) (content_of settings.now) others.now.items (asked_of self.now) }
    {
        let lifetime = settings.lifetime;
        match self.request.kind {
            Kind::Allocate => {
                let asked = TurnRequest::Allocate {
                    lifetime,
                    family: settings.family,
                    port: settings.port,
                    dont_fragment: settings.dont_fragment,
                };
                self.write_asked(&asked, settings, write)
            }
            Kind::Refresh => self.write_asked(&TurnRequest::Refresh { lifetime }, settings, write),
            Kind::Delete => {
                let lifetime = Some(0);
                self.write_asked(&TurnRequest::Refresh { lifetime }, settings, write)
            }
            Kind::Permit(peer) => {
                let peers = with_others(peer, others);
                let peers = peers.as_slice();
                self.write_asked(&TurnRequest::CreatePermission { peers }, settings, write)
            }
            Kind::Bind { number, peer } => match Channel::new(number) {
                Some(channel) => {
                    self.write_asked(&TurnRequest::ChannelBind { channel, peer }, settings, write)
                }
                None => Err(no_channel(number)),
            },
        }
    }
}
