//! The exchange, step by step: what the client and the peer send, and what they receive.

use crate::relay::{HEAD, Relay, Sending};
use anyhow::{Context, Result};
use std::alloc::Global;
use std::net::SocketAddr;
use stun_authentication::{Retry, answer_challenge, challenge_of};
use stun_types::attribute::PasswordAlgorithmValue;
use stun_types::message::{
    Message, MessageClass, MessageType, MessageWriteVec, StunWriteError, TransactionId,
};
use stun_types::prelude::*;
use turn_attrs::{
    Channel, ChannelData, ChannelNumber, Lifetime, PeerData, RequestedTransport, XorPeerAddress,
    methods,
};

/// The address at which the server listens.
pub const SERVER: &str = "203.0.113.1:3478";

/// The client's user.
pub const USER: &str = "alice";

/// The user's password.
pub const PASSWORD: &str = "wonderland";

/// The address of the server's relay socket. The program names that socket 7.
const RELAYED: &str = "203.0.113.1:50000";

/// The client.
const CLIENT: &str = "192.0.2.1:32853";

/// The peer.
const PEER: &str = "198.51.100.7:4000";

/// A second after the clock began.
const NOW: u64 = 1_000_000_000;

/// The server, and a line for each datagram so far.
#[derive(Drop)]
pub struct Walk<'a> {
    alloc: Global,
    relay: Relay<'a, u32>,
    client: SocketAddr,
    peer: SocketAddr,
    pub lines: String,
}

/// Adds a line.
fn say(lines: &mut String, from: &str, to: &str, bytes: &[u8]) -> Result<()> {
    write!(lines, "{from} > {to} ")?;
    for byte in bytes {
        write!(lines, "{byte:02x}")?;
    }
    writeln!(lines)?;
    Ok(())
}

/// An Allocate request: signed, once the client was challenged.
fn allocate_request(
    alloc: Global,
    id: u128,
    retry: Option<&Retry<'_>>,
) -> Result<Vec<u8>, StunWriteError> {
    let mtype = MessageType::from_class_method(MessageClass::Request, methods::ALLOCATE);
    let (id, vector) = (TransactionId::from(id), MessageWriteVec::new(alloc));
    let mut request = Message::builder(mtype, id, vector)?;
    request.add_attribute(&RequestedTransport::new(17))?;
    if let Some(retry) = retry {
        answer_challenge(alloc, retry, USER, PASSWORD, false, &mut request)?;
    }
    Ok(request.finish())
}

/// A CreatePermission request for a peer.
fn permission_request(
    alloc: Global,
    id: u128,
    peer: SocketAddr,
    retry: &Retry<'_>,
) -> Result<Vec<u8>, StunWriteError> {
    let mtype = MessageType::from_class_method(MessageClass::Request, methods::CREATE_PERMISSION);
    let (id, vector) = (TransactionId::from(id), MessageWriteVec::new(alloc));
    let mut request = Message::builder(mtype, id, vector)?;
    request.add_attribute(&XorPeerAddress::new(peer, id))?;
    answer_challenge(alloc, retry, USER, PASSWORD, false, &mut request)?;
    Ok(request.finish())
}

/// A ChannelBind request for a peer.
fn bind_request(
    alloc: Global,
    id: u128,
    channel: Channel,
    peer: SocketAddr,
    retry: &Retry<'_>,
) -> Result<Vec<u8>, StunWriteError> {
    let mtype = MessageType::from_class_method(MessageClass::Request, methods::CHANNEL_BIND);
    let (id, vector) = (TransactionId::from(id), MessageWriteVec::new(alloc));
    let mut request = Message::builder(mtype, id, vector)?;
    request.add_attribute(&ChannelNumber::new(channel))?;
    request.add_attribute(&XorPeerAddress::new(peer, id))?;
    answer_challenge(alloc, retry, USER, PASSWORD, false, &mut request)?;
    Ok(request.finish())
}

/// A Refresh request that deletes the allocation.
fn delete_request(alloc: Global, id: u128, retry: &Retry<'_>) -> Result<Vec<u8>, StunWriteError> {
    let mtype = MessageType::from_class_method(MessageClass::Request, methods::REFRESH);
    let (id, vector) = (TransactionId::from(id), MessageWriteVec::new(alloc));
    let mut request = Message::builder(mtype, id, vector)?;
    request.add_attribute(&Lifetime::new(0))?;
    answer_challenge(alloc, retry, USER, PASSWORD, false, &mut request)?;
    Ok(request.finish())
}

/// A Send indication with data for a peer.
fn send_indication(
    alloc: Global,
    id: u128,
    peer: SocketAddr,
    bytes: &[u8],
) -> Result<Vec<u8>, StunWriteError> {
    let mtype = MessageType::from_class_method(MessageClass::Indication, methods::SEND);
    let (id, vector) = (TransactionId::from(id), MessageWriteVec::new(alloc));
    let mut indication = Message::builder(mtype, id, vector)?;
    indication.add_attribute(&XorPeerAddress::new(peer, id))?;
    indication.add_attribute(&PeerData::new(bytes)?)?;
    Ok(indication.finish())
}

/// Writes ChannelData to the start of a slice, and returns how many bytes it has.
fn put_channel_data(channel: Channel, bytes: &[u8], to: &mut [u8]) -> Option<usize> {
    match ChannelData::new(channel, bytes) {
        Ok(data) => data.write_into(to).ok(),
        Err(_) => None,
    }
}

impl<'a> Walk<'a> {
    /// Begins, with a socket that is ready.
    pub fn begin(alloc: Global, mut relay: Relay<'a, u32>) -> Result<Self> {
        if relay.wants_socket() {
            relay.offer(RELAYED.parse()?, 7);
        }
        Ok(Walk {
            alloc,
            relay,
            client: CLIENT.parse()?,
            peer: PEER.parse()?,
            lines: String::new(alloc),
        })
    }

    /// The client sends a datagram. Returns the response, which is empty if there is none.
    fn send(&mut self, datagram: &[u8]) -> Result<Vec<u8>> {
        let lines = &mut self.lines;
        say(lines, CLIENT, SERVER, datagram)?;
        let mut buffer = [0; 1500];
        match self
            .relay
            .from_client(self.alloc, NOW, self.client, datagram, &mut buffer)?
        {
            Sending::Nothing => Ok(Vec::new(self.alloc)),
            Sending::ToClient(reply) => {
                say(lines, SERVER, CLIENT, reply)?;
                Ok(Vec::from_slice(self.alloc, reply)?)
            }
            Sending::ToPeer { socket, peer, data } => {
                let from = format!(in self.alloc; "socket {socket}")?;
                let to = format!(in self.alloc; "{peer}")?;
                say(lines, &from, &to, data)?;
                Ok(Vec::new(self.alloc))
            }
        }
    }

    /// The client sends a request, which succeeds.
    fn ask(&mut self, request: &[u8]) -> Result<()> {
        let reply = self.send(request)?;
        let response = Message::from_bytes(&reply)?;
        let succeeds = response.has_class(MessageClass::Success);
        succeeds.then_some(()).context("the request is refused")
    }

    /// The peer sends data to the relay socket of the allocation.
    fn arrive(&mut self, bytes: &[u8], id: u128) -> Result<()> {
        let (number, socket) = self
            .relay
            .sockets()
            .iter()
            .next()
            .context("there is no allocation")?;
        let (number, socket) = (*number, format!(in self.alloc; "socket {socket}")?);
        say(&mut self.lines, PEER, &socket, bytes)?;
        let mut buffer = [0; 1500];
        let end = HEAD.checked_add(bytes.len()).context("too much data")?;
        let room = buffer.get_mut(HEAD..end).context("too much data")?;
        room.copy_from_slice(bytes);
        let (id, length) = (TransactionId::from(id), bytes.len());
        let sent = self
            .relay
            .from_peer(NOW, number, self.peer, id, &mut buffer, length);
        let (client, bytes) = sent.context("the data is dropped")?;
        let to = format!(in self.alloc; "{client}")?;
        say(&mut self.lines, SERVER, &to, bytes)
    }

    /// The client asks for an allocation, is challenged, and asks again. Returns what the server asks
    /// for.
    pub fn allocate(&mut self) -> Result<Retry<'static>> {
        let first = allocate_request(self.alloc, 1, None)?;
        let reply = self.send(&first)?;
        let refused = Message::from_bytes(&reply)?;
        let known = [PasswordAlgorithmValue::SHA256, PasswordAlgorithmValue::MD5];
        let asked = challenge_of(&refused, &known, None, false);
        let retry = asked.ok().context("no challenge")?.into_owned(self.alloc)?;
        let second = allocate_request(self.alloc, 2, Some(&retry))?;
        self.ask(&second)?;
        Ok(retry)
    }

    /// The client permits the peer, and there is data both ways in indications.
    pub fn permit(&mut self, retry: &Retry<'_>) -> Result<()> {
        let request = permission_request(self.alloc, 3, self.peer, retry)?;
        self.ask(&request)?;
        let indication = send_indication(self.alloc, 4, self.peer, b"to the peer")?;
        let _none = self.send(&indication)?;
        self.arrive(b"to the client", 5)
    }

    /// The client binds a channel to the peer, and there is data both ways on it.
    pub fn bind(&mut self, retry: &Retry<'_>) -> Result<()> {
        let channel = Channel::new(0x4001).context("no channel")?;
        let request = bind_request(self.alloc, 6, channel, self.peer, retry)?;
        self.ask(&request)?;
        let mut message = [0; 64];
        let length = put_channel_data(channel, b"to the peer", &mut message);
        let message = message.get(..length.context("too much data")?);
        let _none = self.send(message.context("too much data")?)?;
        self.arrive(b"to the client", 7)
    }

    /// The client deletes the allocation, and the server closes its socket.
    pub fn end(&mut self, retry: &Retry<'_>) -> Result<()> {
        let request = delete_request(self.alloc, 8, retry)?;
        self.ask(&request)?;
        self.relay.poll(NOW);
        let (closed, left) = (self.relay.closed(), self.relay.sockets().len());
        writeln!(self.lines, "closed: {closed}, left: {left}")?;
        Ok(())
    }
}
