//! What a client's datagram is: the data of a Send indication or of a ChannelData message, or a
//! request, which is authenticated (RFC 8656, sections 5 and 12; RFC 8489, section 9.2.4).

ghost use Rattle.std.specs.Prelude.{◌≡◌, ◌&&◌, ℕ, true, false, not, is_some, take, List, Option, IfOk, IsOk};
ghost use Rattle.std.specs.List.{list_all};
ghost use Rattle.stun_grammar.specs.Parsing.{parse_fault};
ghost use Rattle.stun_base.specs.MessageTypes.{class_of, method_of};
ghost use Rattle.stun_base.specs.declared.message_class.MessageClass.TheVariants.{Request};
ghost use Rattle.stun_grammar.specs.Headers.{type_field};
ghost use Rattle.stun_grammar.specs.declared.integrity_algorithm.IntegrityAlgorithm.{IntegrityAlgorithm};
ghost use Rattle.stun_values.specs.declared.algorithm.PasswordAlgorithmValue.{PasswordAlgorithmValue};
ghost use Rattle.stun_types.specs.Message.{message_bytes};
ghost use Rattle.stun_authentication.specs.Answers.{Decision, Tells as Decides};
ghost use Rattle.stun_authentication.specs.Identities.{Who, who};
ghost use Rattle.stun_authentication.specs.LongTerm.{needs_key as needs_key_by};
ghost use Rattle.stun_authentication.specs.Lookups.{Known, UserKey};
ghost use Rattle.stun_framing.specs.Channels.{begins_number};
ghost use Rattle.turn_server.specs.ChannelMessages.{last_channel, range_to};
ghost use Rattle.stun_attributes.specs.Texts.{text_bytes};
ghost use Rattle.turn_server.specs.Access.{nonces_at};
ghost use Rattle.turn_server.specs.Judging.{Site as Judging, channel_message, indicated, accepted_as, decided_as, requested, message, request_needs_key, message_needs_key, needs_key, judge};
ghost use Rattle.turn_server.specs.Reporting.{Signs, Tells};
ghost use Rattle.turn_server.specs.Sites.{site_of};
ghost use Rattle.stun_endpoints.specs.declared.endpoints.Endpoint.{Endpoint};

use crate::accounts::user_of;
use crate::comprehended::is_comprehended;
use crate::indication::{keeps_whole, read_send};
use crate::judged::{Asking, Judged};
use crate::request::asks_table;
use crate::{Access, Site, Span};
use std::alloc::{AllocError, Global};
use stun_authentication::{
    Accepted, Authentication, LongTermKeys, authenticate_long_term, needs_key as needs_key_by,
};
use stun_endpoints::Endpoint;
use stun_types::message::{BINDING, Message, MessageClass, MessageHeader, Method};
use turn_attrs::methods::SEND;
use turn_attrs::{ChannelData, ChannelRange};

/// Which numbers channels have.
fn range_of(old_channels: bool) -> ChannelRange
    ensures { result ≡ range_to (last_channel old_channels) }
{
    if old_channels {
        ChannelRange::Rfc5766
    } else {
        ChannelRange::Rfc8656
    }
}

/// What comes of a datagram that begins as a ChannelData message.
#[tactic(auto, using(crate::proofs::ChannelsLemmas::sent_on_channel, crate::proofs::ChannelsLemmas::is_cut))]
fn judge_channel_message<'d>(datagram: &'d [u8], range: ChannelRange) -> Judged<'d>
    requires { list_all (begins_number range) (take 1 datagram.now) ≡ true }
    ensures { (site : Judging) → Tells site datagram.now (channel_message datagram.now) result }
{
    match ChannelData::from_prefix_in(datagram, range) {
        Ok(message) => Judged::SentOn {
            channel: message.channel().number(),
            data: Span {
                at: 4,
                length: message.data().len(),
            },
        },
        Err(_) => Judged::Dropped,
    }
}

/// What comes of an indication.
fn judge_indication<'d>(message: &Message<'d>, sets_df: bool) -> Judged<'d>
    ensures { (site : Judging) → let d = message_bytes message.now in
        Tells site d (indicated sets_df (method_of (type_field d)) d) result }
{
    if !message.has_method(SEND) {
        return Judged::Dropped;
    }
    match read_send(message, sets_df) {
        Some((peer, data)) => Judged::Sent {
            peer,
            dont_fragment: keeps_whole(message, sets_df),
            data,
        },
        None => Judged::Dropped,
    }
}

/// What comes of a request that was accepted.
fn judge_accepted<'d>(
    request: &Message<'d>,
    sets_df: bool,
    access: &Access,
    accepted: Accepted<'d>,
) -> Judged<'d>
    requires { class_of (type_field (message_bytes request.now)) ≡ Request }
    ensures { (site : Judging) (user : Who) (key : UserKey) (algorithm : IntegrityAlgorithm)
        → site.realm ≡ text_bytes access.now.realm
        → who accepted.entry.user ≡ user → Signs key algorithm accepted.entry
        → let d = message_bytes request.now in
        Tells site d (accepted_as sets_df site (method_of (type_field d)) d user key algorithm) result }
{
    if !is_comprehended(request, sets_df) {
        return Judged::Unknown(Asking { message: *request }, accepted);
    }
    Judged::Asked {
        request: Asking { message: *request },
        user: user_of(accepted.user, access.realm.realm()),
        accepted,
    }
}

/// What comes of a request, by what its authentication decided.
fn judge_decided<'d>(
    request: &Message<'d>,
    sets_df: bool,
    access: &Access,
    authentication: Authentication<'d>,
) -> Judged<'d>
    requires { class_of (type_field (message_bytes request.now)) ≡ Request }
    ensures { (site : Judging) (decision : Decision)
        → site.realm ≡ text_bytes access.now.realm → Decides decision authentication.entry
        → let d = message_bytes request.now in
        Tells site d (decided_as sets_df site (method_of (type_field d)) d decision) result }
{
    match authentication {
        Authentication::Accepted(accepted) => judge_accepted(request, sets_df, access, accepted),
        Authentication::Refused(refusal) => Judged::Refused(Asking { message: *request }, refusal),
        Authentication::Discarded | Authentication::NotARequest => Judged::Dropped,
    }
}

/// What comes of a request.
///
/// # Errors
///
/// Only if an allocation failed, while `keys` looked for the key.
fn judge_request<'d, K: LongTermKeys>(
    alloc: Global,
    now: u64,
    client: Endpoint,
    request: &Message<'d>,
    sets_df: bool,
    site: &Site<'_>,
    keys: &K,
) -> Result<Judged<'d>, AllocError>
    requires { class_of (type_field (message_bytes request.now)) ≡ Request }
    ensures judged { let d = message_bytes request.now in
        let site = site_of site.now.access.now site.now.sockets (K.key_of keys.now) client now in
        IfOk result (Tells site d (requested sets_df site (method_of (type_field d)) d)) }
    ensures memory { let d = message_bytes request.now in
        request_needs_key site.now.access.now.policy (nonces_at client now site.now.access.now)
        (method_of (type_field d)) d ≡ false → IsOk result }
{
    if request.has_method(BINDING) {
        return Ok(Judged::Binding(Asking { message: *request }));
    }
    if !asks_table(request.method()) {
        return Ok(Judged::Dropped);
    }
    let access = site.access;
    let nonces = access.nonces_of(now, client);
    let authentication = authenticate_long_term(
        alloc,
        request,
        access.realm.realm(),
        access.policy,
        &nonces,
        keys,
    )?;
    Ok(judge_decided(request, sets_df, access, authentication))
}

/// What comes of a datagram that doesn't begin as a ChannelData message.
///
/// # Errors
///
/// Only if an allocation failed, while `keys` looked for the key.
fn judge_message<'d, K: LongTermKeys>(
    alloc: Global,
    now: u64,
    client: Endpoint,
    datagram: &'d [u8],
    sets_df: bool,
    site: &Site<'_>,
    keys: &K,
) -> Result<Judged<'d>, AllocError>
    ensures judged { let site = site_of site.now.access.now site.now.sockets (K.key_of keys.now) client now in
        IfOk result (Tells site datagram.now (message sets_df site datagram.now)) }
    ensures memory { message_needs_key site.now.access.now.policy
        (nonces_at client now site.now.access.now) datagram.now ≡ false → IsOk result }
{
    let Ok(message) = Message::from_bytes(datagram) else {
        return Ok(Judged::Dropped);
    };
    match message.class() {
        MessageClass::Request => judge_request(alloc, now, client, &message, sets_df, site, keys),
        MessageClass::Indication => Ok(judge_indication(&message, sets_df)),
        MessageClass::Success | MessageClass::Error => Ok(Judged::Dropped),
    }
}

/// Whether it depends on the key of its user what comes of a request for the allocations.
fn request_needs_key(now: u64, client: Endpoint, datagram: &[u8], access: &Access) -> bool
    ensures { result ≡ (not (is_some (parse_fault datagram.now))
        && needs_key_by access.now.policy (nonces_at client now access.now) datagram.now) }
{
    let nonces = access.nonces_of(now, client);
    match Message::from_bytes(datagram) {
        Ok(message) => needs_key_by(&message, access.policy, &nonces),
        Err(_) => false,
    }
}

/// Whether it depends on the key of its user what comes of a message. It reads no more than the header of
/// what is no request to the table.
#[tactic(auto, using(crate::proofs::JudgingLemmas::no_header))]
fn message_needs_key(now: u64, client: Endpoint, datagram: &[u8], access: &Access) -> bool
    ensures { result
        ≡ message_needs_key access.now.policy (nonces_at client now access.now) datagram.now }
{
    let Ok(header) = MessageHeader::from_bytes(datagram) else {
        return false;
    };
    let mtype = header.get_type();
    match mtype.class() {
        MessageClass::Request => {
            asks_table(mtype.method()) && request_needs_key(now, client, datagram, access)
        }
        MessageClass::Indication | MessageClass::Success | MessageClass::Error => false,
    }
}

/// Returns whether it depends on the key of its user what comes of a datagram, as [`judge`] says: it is
/// a request for the allocations, and its long-term credentials are looked at
/// (`stun_authentication::needs_key`). It reads no more than the header of anything else.
#[tactic(auto, using(crate::proofs::JudgingLemmas::needs_as_message))]
pub(crate) fn needs_key(
    now: u64,
    client: Endpoint,
    datagram: &[u8],
    old_channels: bool,
    access: &Access,
) -> bool
    ensures { result ≡ needs_key (last_channel old_channels) access.now.policy
        (nonces_at client now access.now) datagram.now }
{
    let Some(first) = datagram.first() else {
        return false;
    };
    !range_of(old_channels).begins_with(*first) && message_needs_key(now, client, datagram, access)
}

/// Judges a client's datagram: drops it, finds its data, or authenticates its request, as
/// [`TurnServer::on_client_datagram`](crate::TurnServer::on_client_datagram) says.
///
/// # Errors
///
/// Only if an allocation failed, while `keys` looked for the key: nothing else takes memory.
pub(crate) fn judge<'d, K: LongTermKeys>(
    alloc: Global,
    now: u64,
    client: Endpoint,
    datagram: &'d [u8],
    old_channels: bool,
    sets_df: bool,
    site: &Site<'_>,
    keys: &K,
) -> Result<Judged<'d>, AllocError>
    ensures judged { let site = site_of site.now.access.now site.now.sockets (K.key_of keys.now) client now in
        IfOk result (Tells site datagram.now (judge (last_channel old_channels) sets_df site datagram.now)) }
    ensures memory { needs_key (last_channel old_channels) site.now.access.now.policy
        (nonces_at client now site.now.access.now) datagram.now ≡ false → IsOk result }
{
    let Some(first) = datagram.first() else {
        return Ok(Judged::Dropped);
    };
    let range = range_of(old_channels);
    if range.begins_with(*first) {
        return Ok(judge_channel_message(datagram, range));
    }
    judge_message(alloc, now, client, datagram, sets_df, site, keys)
}
