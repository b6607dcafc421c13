//! What a datagram is to a client (RFC 8656, section 12; RFC 8489, section 6.3).

ghost use Rattle.std.specs.Prelude.{◌≡◌};
ghost use Rattle.std.specs.Option.{option_map};
ghost use Rattle.stun_types.specs.Message.{message_bytes};
ghost use Rattle.turn_client_messages.specs.Judging.{responded, message, judge, response_id};
ghost use Rattle.turn_client_messages.specs.Reporting.{judged_of};
ghost use Rattle.turn_client_messages.specs.Views.{asked_of, dealing_of};

use crate::channels::judge_channel_data;
use crate::indication::judge_indication;
use crate::responding::judge_response;
use crate::{ClientRequest, Judged, Session};
use stun_types::message::{Message, MessageClass, MessageHeader};
use turn_attrs::ChannelRange;

/// What a datagram is that doesn't begin with the number of a channel.
fn judge_message<'d>(
    session: &Session<'_>,
    request: Option<ClientRequest<'_>>,
    datagram: &'d [u8],
) -> Judged<'d>
    ensures { judged_of result ≡ message (dealing_of session.now) (option_map asked_of request.entry) datagram.now }
{
    let Ok(message) = Message::from_bytes(datagram) else {
        return Judged::Stray;
    };
    match message.class() {
        MessageClass::Request => Judged::Stray,
        MessageClass::Indication => judge_indication(&message),
        MessageClass::Success | MessageClass::Error => judge_response(session, request, &message),
    }
}

/// Returns the transaction ID of a response, by which the caller looks up the request that it
/// answers, for [`judge`]; `None` for anything else. It reads the header alone.
///
/// # Examples
///
/// ```
/// use turn_client_messages::response_id;
///
/// let success = b"\x01\x08\x00\x00\x21\x12\xA4\x42\0\0\0\0\0\0\0\0\0\0\0\x07";
/// assert_eq!(rt; response_id(success), Some(7));
/// // The request itself.
/// let request = b"\x00\x08\x00\x00\x21\x12\xA4\x42\0\0\0\0\0\0\0\0\0\0\0\x07";
/// assert_eq!(rt; response_id(request), None);
/// ```
pub fn response_id(datagram: &[u8]) -> Option<u128>
    ensures { result ≡ response_id datagram.now }
{
    let header = MessageHeader::from_bytes(datagram).ok()?;
    if header.get_type().is_response() {
        Some(header.transaction_id().value())
    } else {
        None
    }
}

/// Returns what a datagram from the server is: a response to `request`, a peer's data, or a stray.
/// It takes no memory.
///
/// `request` is the one that awaits a response with the datagram's transaction ID ([`response_id`]),
/// with the credentials that it was signed by; `None` if there is none. The first of these applies:
///
/// - A datagram whose first byte is one of 0x40 to 0x4F is [`Judged::ChannelData`] if it is a whole
///   ChannelData message. In a datagram of UDP up to three bytes may follow it; one of a stream ends
///   with its padding (RFC 8656, sections 12.5 and 12.6).
/// - A Data indication is [`Judged::PeerData`] if it shows XOR-PEER-ADDRESS and DATA, no ICMP, and no
///   type below 0x8000 but those of [`UNDERSTOOD`](crate::UNDERSTOOD) (section 11.4).
/// - A response with the method and the transaction ID of the request is [`Judged::Response`]:
///   - [`Answer::Violated`](turn_client_machine::Answer::Violated) if the request was signed, and the
///     integrity of the response is wrong or missing, unless it is a 401 or 438 (RFC 8489, section
///     9.2.5);
///   - `Refused(0)` if it shows a type below 0x8000 that isn't understood, if it is an error
///     response without a code, or a success response without an attribute that it needs: an
///     Allocate response needs XOR-RELAYED-ADDRESS, XOR-MAPPED-ADDRESS and LIFETIME, and a Refresh
///     response LIFETIME;
///   - `Redirected` if it is a 300 with an ALTERNATE-SERVER of the server's family (section 10);
///   - `Refused` with the code if it is another error response, or a 401 or 438 that can't be
///     answered ([`challenge_of`](stun_authentication::challenge_of) says why);
///   - `Opened`, `Extended` or `Done` if it is a success response.
/// - A 401 or 438 that can be answered is [`Judged::Challenge`].
/// - Anything else is [`Judged::Stray`]: also a response that is discarded, since its nonce promises
///   a list of password algorithms that it lacks, or it is a 400 that isn't signed (section 9.2.5).
///
/// # Examples
///
/// ```
/// use std::net::SocketAddr;
/// use stun_endpoints::Endpoint;
/// use stun_types::TransportType;
/// use stun_types::attribute::PasswordAlgorithmValue;
/// use turn_client_machine::{Kind, Request};
/// use turn_client_messages::{ClientRequest, Judged, Session, judge};
///
/// let session = Session {
///     server: Endpoint::from("192.0.2.1:3478".parse::<SocketAddr>()?),
///     transport: TransportType::Udp,
///     algorithms: &[PasswordAlgorithmValue::SHA256],
///     had_algorithms: false,
/// };
/// // The 401 of section 20 of RFC 8656, without SOFTWARE, to the first Allocate request.
/// let id = 0xA562_50D3_F17A_BE67_9422_DE85;
/// let request = Request { id, kind: Kind::Allocate, challenge: None, since: 0 };
/// let response =
///     b"\x01\x13\x00\x54\x21\x12\xA4\x42\xA5\x62\x50\xD3\xF1\x7A\xBE\x67\x94\x22\xDE\x85\
///       \x00\x09\x00\x10\x00\x00\x04\x01Unauthorized\x00\x14\x00\x0Bexample.com\x00\
///       \x00\x15\x00\x20obMatJos2gAAAadl7W7PeDU4hKE72jda\
///       \x80\x02\x00\x08\x00\x01\x00\x00\x00\x02\x00\x00";
/// let first = ClientRequest { request, login: None };
/// let Judged::Challenge { code, retry, .. } = judge(&session, Some(first), response) else {
///     return Err("no challenge".into());
/// };
/// assert_eq!(rt; code, 401);
/// assert_eq!(rt; retry.challenge.realm(), "example.com");
/// // Data on the channel 0x4001, with or without a request that is waited for.
/// let judged = judge(&session, None, b"\x40\x01\x00\x05hello");
/// let Judged::ChannelData { channel, data } = judged else {
///     return Err("no data".into());
/// };
/// assert!(rt; channel == 0x4001 && data == b"hello".as_slice());
/// ```
pub fn judge<'d>(
    session: &Session<'_>,
    request: Option<ClientRequest<'_>>,
    datagram: &'d [u8],
) -> Judged<'d>
    ensures { judged_of result ≡ judge (dealing_of session.now) (option_map asked_of request.entry) datagram.now }
{
    let Some(first) = datagram.first() else {
        return Judged::Stray;
    };
    if ChannelRange::Rfc8656.begins_with(*first) {
        return judge_channel_data(datagram, session.transport);
    }
    judge_message(session, request, datagram)
}
