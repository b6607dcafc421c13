//! Writing a check.

ghost use Rattle.std.specs.Prelude.{◌≡◌, ◌≤◌, [], Err, OnOk, length};
ghost use Rattle.std.specs.Option.{option_map};
ghost use Rattle.stun_grammar.specs.Adding.{Fits};
ghost use Rattle.stun_attributes.specs.Texts.{text_bytes};
ghost use Rattle.stun_authentication.specs.Writing.{FailsFor};
ghost use Rattle.ice_attrs.specs.CheckUsernames.{ufrag_text};
ghost use Rattle.ice_checks.specs.Checks.{Begins, CheckAllocates, Places, check_attributes, check_length, check_refusal, check_text, check_type, id_of};
ghost use Rattle.ice_checks.specs.Sessions.{username_of};
ghost use Rattle.ice_checks.specs.Views.{login_of};

use crate::adding::add_check;
use crate::finishing::{Signature, finish};
use crate::session::Credentials;
use arrayvec::ArrayString;
use ice_attrs::Ufrag;
use ice_machine::Request;
use stun_types::attribute::Software;
use stun_types::message::{
    BINDING, IntegrityAlgorithm, Message, MessageClass, MessageType, StunWriteError, TransactionId,
};
use stun_types::prelude::*;

/// The length of the longest USERNAME: two fragments of 256 bytes, and a colon.
const LONGEST: usize = 513;

/// The USERNAME of a check.
fn username_of(receiver: Ufrag<'_>, sender: Ufrag<'_>) -> ArrayString<LONGEST>
    ensures { result.bytes ≡ username_of (ufrag_text receiver.entry) (ufrag_text sender.entry) }
{
    let mut username = ArrayString::new();
    username.push_str(receiver.text());
    username.push_str(":");
    username.push_str(sender.text());
    username
}

/// Writes the header of a check and its attributes, but for its end.
fn begin<B: MessageWrite>(
    request: &Request,
    username: &str,
    software: Option<&Software>,
    write: &mut B,
) -> Result<(), StunWriteError>
    requires short { length username.now ≤ 513 }
    requires empty { (B.state write.old).bytes ≡ [] }
    requires room { Fits (B.state write.old).greatest 20 }
    ensures { Begins result (B.state write.old) (B.state write.new) check_type (id_of request.now)
        (check_attributes (option_map (λ it. text_bytes it.now) software.entry) username.now request.now) }
{
    let mtype = MessageType::from_class_method(MessageClass::Request, BINDING);
    Message::builder_into(mtype, TransactionId::from(request.id), write)?;
    add_check(request, username, software, write)
}

/// Writes a connectivity check, a Binding request (RFC 8445, sections 7.1 and 7.2.2): SOFTWARE, if there is
/// one; USERNAME, the fragment of the peer, a colon, and `own`, the fragment of this agent; PRIORITY;
/// USE-CANDIDATE if it nominates its pair; ICE-CONTROLLING or ICE-CONTROLLED; MESSAGE-INTEGRITY by the peer's
/// password; and FINGERPRINT.
///
/// The transaction ID is the low 96 bits of `request.id`. `base`, `to` and `sent` aren't written.
///
/// # Requires
///
/// Nothing is written into `write`, and it takes at least twenty bytes, as for
/// [`Message::builder_into`].
///
/// # Errors
///
/// `OutOfMemory` if an allocation failed, which none does within the writer's ready room. Else the
/// first of these that applies; what was written before it stays:
///
/// - `TooSmall` or `TooLarge` by the first attribute before MESSAGE-INTEGRITY that doesn't fit;
/// - `IntegrityFailed` if the key was made for SHA-256;
/// - `TooSmall` or `TooLarge` if MESSAGE-INTEGRITY or FINGERPRINT doesn't fit.
///
/// # Examples
///
/// ```
/// use ice_attrs::Ufrag;
/// use ice_checks::{Credentials, write_check};
/// use ice_machine::{Request, Role};
/// use stun_endpoints::{Endpoint, Ip};
/// use stun_types::message::{IntegrityKey, MessageWriteVec};
/// use stun_types::prelude::*;
///
/// // As `AgentState::poll` of `ice_agent_state` returns it.
/// let request = Request {
///     id: 0xE51,
///     base: 1,
///     to: Endpoint { ip: Ip { family: 1, number: 0xC000_0201 }, port: 32853 },
///     role: Role::Controlling,
///     tiebreaker: 0x932F_F9B1_5126_3B36,
///     nominates: true,
///     priority: 1_862_270_975,
///     sent: 0,
/// };
/// let (own, peer) = (Ufrag::new("h6vY").ok_or("no fragment")?, Ufrag::new("evtj").ok_or("no fragment")?);
/// let key = IntegrityKey::new(alloc, b"VOkJxbRl1RmTxUk/WvJxBt", None)?;
/// let mut write = MessageWriteVec::new(alloc);
/// write_check(&request, own, &Credentials { fragment: peer, key: &key }, None, &mut write)?;
/// let bytes = b"\x00\x01\x00\x48\x21\x12\xA4\x42\0\0\0\0\0\0\0\0\0\0\x0E\x51\
///               \x00\x06\x00\x09evtj:h6vY\0\0\0\x00\x24\x00\x04\x6E\xFF\xFF\xFF\x00\x25\x00\x00\
///               \x80\x2A\x00\x08\x93\x2F\xF9\xB1\x51\x26\x3B\x36\
///               \x00\x08\x00\x14\x79\x13\x93\x25\xF8\x04\xCD\x87\x81\x69\x1E\x50\x01\x8F\xF3\x50\
///               \xDB\xEB\xE2\xA0\x80\x28\x00\x04\xC6\x21\xAD\xC9";
/// assert_eq!(rt; write.finish().as_slice(), bytes.as_slice());
/// ```
pub fn write_check<B: MessageWrite>(
    request: &Request,
    own: Ufrag<'_>,
    peer: &Credentials<'_>,
    software: Option<&Software>,
    write: &mut B,
) -> Result<(), StunWriteError>
    requires empty { (B.state write.old).bytes ≡ [] }
    requires room { Fits (B.state write.old).greatest 20 }
    ensures text { OnOk result ((B.state write.new).bytes
        ≡ check_text (login_of peer.now) (ufrag_text own.entry) (option_map (λ it. text_bytes it.now) software.entry) request.now) }
    ensures place { let n = check_length (login_of peer.now) (ufrag_text own.entry)
        (option_map (λ it. text_bytes it.now) software.entry) request.now in
        OnOk result (Places (B.state write.old) (B.state write.new) n n) }
    ensures answer { FailsFor (check_refusal (B.state write.old).greatest (login_of peer.now) (ufrag_text own.entry)
        (option_map (λ it. text_bytes it.now) software.entry) request.now) result }
    ensures memory { result ≡ Err StunWriteError.OutOfMemory → CheckAllocates (B.state write.old)
        (login_of peer.now) (ufrag_text own.entry) (option_map (λ it. text_bytes it.now) software.entry) request.now }
{
    let username = username_of(peer.fragment, own);
    begin(request, username.as_str(), software, write)?;
    let signature = Signature {
        key: peer.key,
        algorithm: IntegrityAlgorithm::Sha1,
    };
    finish(Some(signature), write)
}
