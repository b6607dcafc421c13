//! What goes to the server.

ghost use Rattle.std.specs.Prelude.{◌≡◌, ℕ, List, length, if◌then◌else◌};
ghost use Rattle.turn_attrs.specs.Channels.{channel_of};
ghost use Rattle.turn_client_machine.specs.Events.{polls, sends};
ghost use Rattle.turn_client_state.specs.States.{asking_with, data_by, output_at};
ghost use Rattle.turn_client.specs.Clients.{passes};
ghost use Rattle.turn_client.specs.Sending.{request_refusal, request_text, greatest_of, IsCarried, IsWritten, Polls, Sends, SendsOn, SendsWhole};

use crate::client::{TurnClient, content, transport};
use std::alloc::Global;
use stun_endpoints::Endpoint;
use stun_types::message::{GREATEST_MESSAGE, MessageWriteVec, StunWriteError, TransactionId};
use stun_types::prelude::*;
use turn_attrs::{Channel, Head};
use turn_client_messages::{Carrier, write_head};
use turn_client_state::{Asking, Settings, Way};

/// The length of the longest message that the transport to the server takes.
fn greatest(settings: &Settings) -> usize
    ensures { result ≡ greatest_of settings.now.is_reliable settings.now.server }
{
    if settings.is_reliable {
        return GREATEST_MESSAGE;
    }
    if settings.server.ip.family == 1 {
        65_507
    } else {
        65_527
    }
}

impl TurnClient {
    /// Writes a request at the start of a slice.
    fn write(
        &self,
        alloc: Global,
        asking: &Asking,
        out: &mut [u8],
    ) -> Result<Option<usize>, StunWriteError>
        ensures { IsWritten (request_refusal self.now asking.now.request asking.now.others.items)
            (request_text self.now asking.now.request asking.now.others.items) out.old out.new result }
    {
        let mut write = MessageWriteVec::new(alloc);
        let settings = content(&self.settings, &self.account);
        let request = self.signed(asking.request);
        request.write_into(&asking.others, &settings, &mut write)?;
        let message = write.finish();
        if out.len() < message.len() {
            return Err(StunWriteError::TooSmall {
                expected: message.len(),
                actual: out.len(),
            });
        }
        out[..message.len()].copy_from_slice(&message);
        Ok(Some(message.len()))
    }

    /// The request that is to be sent now.
    fn request(&mut self, now: u64, id: TransactionId) -> Option<Asking>
        ensures state { self.new ≡ passes now id polls self.old }
        ensures request { output_at now id polls self.old.held ≡ asking_with result }
    {
        self.state.poll(now, id.value())
    }

    /// How data goes to a peer now.
    fn way(&mut self, now: u64, peer: Endpoint) -> Option<Way>
        ensures state { (bytes : List ℕ) → self.new ≡ passes now 0 (sends peer bytes) self.old }
        ensures data { (bytes : List ℕ) → output_at now 0 (sends peer bytes) self.old.held
            ≡ data_by peer bytes result }
    {
        self.state.send(now, peer)
    }

    /// Writes what goes before data, by a message that carries it.
    fn carry(
        &self,
        carrier: Carrier,
        length: usize,
        head: &mut [u8],
    ) -> Result<Option<Head>, StunWriteError>
        ensures { IsCarried self.now carrier length head.old head.new result }
    {
        let transport = transport(&self.settings);
        match write_head(transport, carrier, length, greatest(&self.settings), head) {
            Ok(head) => Ok(Some(head)),
            Err(error) => Err(error),
        }
    }

    /// The same by the channel with a number.
    fn carry_on(
        &self,
        number: u16,
        length: usize,
        head: &mut [u8],
    ) -> Result<Option<Head>, StunWriteError>
        ensures { SendsOn self.now number (channel_of number) length head.old head.new result }
    {
        match Channel::new(number) {
            Some(channel) => self.carry(Carrier::Channel(channel), length, head),
            None => Err(StunWriteError::OutOfRange {
                value: number as usize,
                min: 0x4000,
                max: 0x4FFF,
            }),
        }
    }

    /// Writes the request that is to be sent now, at the start of `out`, and returns its length; `None`
    /// if there is none. `id` is its transaction ID if it is a new one: a random number that no other
    /// call has. Call it until it returns `None` and [`TurnClient::next_wake`] is later than `now`.
    ///
    /// # Errors
    ///
    /// The request counts as sent, and lost, and `out` stays as it was:
    ///
    /// - `OutOfMemory` if an allocation failed;
    /// - `TooLarge { expected: 513, actual }` if the user's name has more than 513 bytes;
    /// - `TooLarge` if the server's list of password algorithms makes it longer than a message can be;
    /// - `TooSmall { expected, actual }` if the request has `expected` bytes, more than `out`: the account,
    ///   the server's realm, nonce and password algorithms, and the peers that it names decide how many.
    pub fn poll(
        &mut self,
        alloc: Global,
        now: u64,
        id: TransactionId,
        out: &mut [u8],
    ) -> Result<Option<usize>, StunWriteError>
        ensures state { self.new ≡ passes now id polls self.old }
        ensures bytes { Polls self.old (output_at now id polls self.old.held) out.old out.new result }
    {
        match self.request(now, id) {
            Some(asking) => self.write(alloc, &asking, out),
            None => Ok(None),
        }
    }

    /// Writes what goes before `length` bytes of data to a peer, at the end of `head`, if the data may be
    /// sent now: the allocation, and a permission for the peer's IP address, are granted and haven't
    /// expired. As many zeros as the `padding` of the result follow the data. It is `None` if the data
    /// must not be sent. `id` is the transaction ID of a Send indication: a random number.
    ///
    /// Four bytes go before data on a channel, else 36 for a peer with an IPv4 address and 48 with
    /// IPv6 (RFC 8656, sections 11.1 and 12.5).
    ///
    /// # Errors
    ///
    /// `head` stays as it was:
    ///
    /// - `TooLarge` if `length` is above 65535, or the message longer than the transport takes: 65507 bytes
    ///   over UDP and IPv4, 65527 over UDP and IPv6, 65552 over TCP;
    /// - `TooSmall` if `head` has fewer bytes than go before the data.
    pub fn send(
        &mut self,
        now: u64,
        peer: Endpoint,
        length: usize,
        id: TransactionId,
        head: &mut [u8],
    ) -> Result<Option<Head>, StunWriteError>
        ensures state { (bytes : List ℕ) → self.new ≡ passes now 0 (sends peer bytes) self.old }
        ensures head { (bytes : List ℕ) → Sends self.old id length
            (output_at now 0 (sends peer bytes) self.old.held) head.old head.new result }
    {
        match self.way(now, peer) {
            Some(Way::Channel(number)) => self.carry_on(number, length, head),
            Some(Way::Indication) => self.carry(Carrier::Indication { id, peer }, length, head),
            None => Ok(None),
        }
    }

    /// Writes the same for data that the server sends to the peer with the DF bit set (RFC 8656, sections
    /// 11.1 and 18.9): in a Send indication with DONT-FRAGMENT, also to a peer with a channel. If a packet is
    /// too long for a hop, [`TurnClient::on_datagram`] may return the ICMP error of it
    /// ([`Received::Failed`](crate::Received)).
    ///
    /// The settings have to ask for DONT-FRAGMENT ([`Account::dont_fragment`](crate::Account)): a server
    /// that can't set the bit drops such indications. 40 bytes go before the data for a peer with an IPv4
    /// address, and 52 with IPv6.
    ///
    /// # Errors
    ///
    /// Those of [`TurnClient::send`]; in a `TooLarge` both numbers are without the four bytes of
    /// DONT-FRAGMENT.
    pub fn send_whole(
        &mut self,
        now: u64,
        peer: Endpoint,
        length: usize,
        id: TransactionId,
        head: &mut [u8],
    ) -> Result<Option<Head>, StunWriteError>
        ensures state { (bytes : List ℕ) → self.new ≡ passes now 0 (sends peer bytes) self.old }
        ensures head { (bytes : List ℕ) → SendsWhole self.old id peer length
            (output_at now 0 (sends peer bytes) self.old.held) head.old head.new result }
    {
        match self.way(now, peer) {
            Some(_) => self.carry(Carrier::Whole { id, peer }, length, head),
            None => Ok(None),
        }
    }
}
