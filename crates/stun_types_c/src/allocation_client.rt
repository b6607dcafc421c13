//! What a TURN client is asked for, what it receives, and what it sends.

ghost use Rattle.std.specs.Prelude.{◌≡◌, ◌+◌, ℕ, true, false, List, length, slice_range, Some};
ghost use Rattle.stun_endpoints.specs.declared.endpoints.Endpoint.{Endpoint};
ghost use Rattle.turn_client_machine.specs.Events.{allocates, binds, closes, drops, permits, polls, sends, shows};
ghost use Rattle.turn_client_state.specs.States.{output_at};
ghost use Rattle.turn_client_state.specs.Waking.{wake};
ghost use Rattle.turn_client.specs.Clients.{Client, passes};
ghost use Rattle.turn_client.specs.Receiving.{event_at};
ghost use Rattle.stun_types_c.specs.AllocationCalls.{DataLeft, HeadLeft, IsFailed, IsHeadInC, IsPlaced, IsReceived, IsWritten, PollLeft, PollsClient, ReceivesFrom, SendsBy, SendsTo, SentAs, TakesDatagram, Wants, WantsIn, WritesInC, bind_result, data_place, event_named, head_in_c, name_result, no_data, no_head, permit_result, token_in_c, value_place, wake_shown, with_client};
ghost use Rattle.stun_types_c.specs.AllocationHandles.{held_client};

use crate::address::Address;
use crate::allocation_core::AllocationCore;
use crate::allocation_handle::CAllocation;
use crate::allocation_settings::endpoint_in;
use crate::attribute::{ShownAttribute, first_shown};
use crate::call_result::{CResult, plain, write_result};
use crate::codes;
use crate::handle::{put, take};
use crate::reading::Id;
use crate::turn_addresses::{NOWHERE, address_of};
use crate::turn_ending::shown_due;
use std::alloc::Global;
use stun_endpoints::Endpoint;
use stun_types::message::{StunWriteError, TransactionId};
use turn_attrs::attribute_types::DATA;
use turn_attrs::{ChannelRange, Head};
use turn_client::{NameError, PeerData, PeerError, Received, TurnClient};

/// What a client received: data of a peer, an ICMP error, or the token of a reservation.
#[repr(C)]
#[derive(Clone, Copy, Drop)]
pub struct CAllocationData {
    /// The offset of the data in the datagram.
    pub at: usize,
    /// How many bytes it has.
    pub length: usize,
    /// The peer.
    pub peer: Address,
    /// 1: there is data; 2: an ICMP error; 3: a token.
    pub shown: u32,
    /// The token of the reservation.
    pub token: u64,
    /// The data of the ICMP message.
    pub icmp_data: u32,
    /// Its type.
    pub icmp_type: u8,
    /// Its code.
    pub icmp_code: u8,
    /// 0.
    pub reserved: u16,
}

/// What is around data for a peer.
#[repr(C)]
#[derive(Clone, Copy, Drop)]
pub struct CAllocationHead {
    /// How many bytes come before the data.
    pub length: usize,
    /// How many zeros follow it.
    pub padding: usize,
    /// 1: the data is sent; 0: it must not be.
    pub sends: u32,
    /// 0.
    pub reserved: u32,
}

/// No data.
const NO_DATA: CAllocationData = CAllocationData {
    at: 0,
    length: 0,
    peer: NOWHERE,
    shown: 0,
    token: 0,
    icmp_data: 0,
    icmp_type: 0,
    icmp_code: 0,
    reserved: 0,
};

/// Nothing is sent.
const NO_HEAD: CAllocationHead = CAllocationHead {
    length: 0,
    padding: 0,
    sends: 0,
    reserved: 0,
};

/// What naming a peer returns.
fn name_result(named: Result<(), NameError>) -> CResult
    ensures { result ≡ name_result named }
{
    match named {
        Ok(()) => plain(codes::OK),
        Err(NameError::Full) => plain(codes::FULL),
        Err(NameError::OtherFamily) => plain(codes::OTHER_FAMILY),
    }
}

/// Asks for an allocation.
fn allocate(core: &mut AllocationCore, now: u64)
    ensures { core.new ≡ with_client (passes now 0 allocates core.old.client) core.old }
{
    core.client.allocate(now);
}

/// Asks for a permission.
fn permit(core: &mut AllocationCore, now: u64, peer: Endpoint) -> CResult
    ensures result { result ≡ permit_result now peer core.old.client }
    ensures state { core.new ≡ with_client (passes now 0 (permits peer) core.old.client) core.old }
{
    name_result(core.client.permit(now, peer))
}

/// Asks for a channel.
fn bind(core: &mut AllocationCore, now: u64, peer: Endpoint) -> CResult
    ensures result { result ≡ bind_result now peer core.old.client }
    ensures state { core.new ≡ with_client (passes now 0 (binds peer) core.old.client) core.old }
{
    name_result(core.client.bind(now, peer))
}

/// Drops a peer.
fn drop_peer(core: &mut AllocationCore, now: u64, peer: Endpoint)
    ensures { core.new ≡ with_client (passes now 0 (drops peer) core.old.client) core.old }
{
    core.client.drop_peer(now, peer);
}

/// Asks for the end.
fn close(core: &mut AllocationCore, now: u64)
    ensures { core.new ≡ with_client (passes now 0 closes core.old.client) core.old }
{
    core.client.close(now);
}

/// Asks for what the wish with this number is for.
fn wish(core: &mut AllocationCore, now: u64, wish: u32, peer: Option<Endpoint>) -> CResult
    ensures { WantsIn core.old now (event_named wish peer) result (Some core.old) (Some core.new) }
{
    match (wish, peer) {
        (1, _) => {
            allocate(core, now);
            plain(codes::OK)
        }
        (2, Some(peer)) => permit(core, now, peer),
        (3, Some(peer)) => bind(core, now, peer),
        (4, _) => {
            close(core, now);
            plain(codes::OK)
        }
        (5, Some(peer)) => {
            drop_peer(core, now, peer);
            plain(codes::OK)
        }
        _ => plain(codes::BAD_ARGUMENT),
    }
}

/// Asks for an allocation, a permission, a channel, or the end, or drops a peer.
#[unsafe(no_mangle)]
pub extern "C" fn stun_types_allocation_want(
    alloc: Global,
    client: &mut CAllocation,
    now: u64,
    wanted: u32,
    peer: &Address,
) -> CResult
    ensures { Wants now wanted peer.now result (held_client client.old) (held_client client.new) }
{
    let Some(mut core) = take(client, alloc) else {
        return plain(codes::BAD_ARGUMENT);
    };
    let result = wish(&mut core, now, wanted, endpoint_in(peer));
    put(client, core);
    result
}

/// The offset of the value of an attribute, if there is one.
fn value_place(found: Option<ShownAttribute>) -> usize
    ensures { result ≡ value_place found }
{
    match found {
        Some(found) => found.value_at,
        None => 0,
    }
}

/// The place of the data in a ChannelData message or a Data indication.
fn data_place(datagram: &[u8]) -> usize
    ensures { result ≡ data_place datagram.now }
{
    match datagram {
        [] => 0,
        [first, ..] => {
            if ChannelRange::Rfc8656.begins_with(*first) {
                return 4;
            }
            value_place(first_shown(datagram, DATA))
        }
    }
}

/// The data that a client shows is at its place. The function does nothing: its contract is the law.
fn data_is_at_its_place(datagram: &[u8])
    ensures { (client : Client) (now : ℕ) (from : Endpoint) (peer : Endpoint) (bytes : List ℕ)
        → output_at now 0 (event_at client from datagram.now) client.held ≡ shows peer bytes
        → let at = data_place datagram.now in
        slice_range datagram.now at (at + length bytes) ≡ bytes }
{}

/// Data, in C's form.
fn data_in_c(datagram: &[u8], shown: PeerData<'_>) -> CAllocationData
    ensures { IsPlaced shown.entry.peer shown.entry.data.now datagram.now result }
{
    CAllocationData {
        at: data_place(datagram),
        length: shown.data.len(),
        peer: address_of(shown.peer),
        shown: 1,
        token: 0,
        icmp_data: 0,
        icmp_type: 0,
        icmp_code: 0,
        reserved: 0,
    }
}

/// An ICMP error, in C's form.
fn error_in_c(failed: PeerError) -> CAllocationData
    ensures { IsFailed failed result }
{
    CAllocationData {
        at: 0,
        length: 0,
        peer: address_of(failed.peer),
        shown: 2,
        token: 0,
        icmp_data: failed.error.data,
        icmp_type: failed.error.icmp_type,
        icmp_code: failed.error.code,
        reserved: 0,
    }
}

/// A token, in C's form.
fn token_in_c(token: u64) -> CAllocationData
    ensures { result ≡ token_in_c token }
{
    CAllocationData {
        at: 0,
        length: 0,
        peer: NOWHERE,
        shown: 3,
        token,
        icmp_data: 0,
        icmp_type: 0,
        icmp_code: 0,
        reserved: 0,
    }
}

/// What was received, in C's form.
fn received_in_c(datagram: &[u8], received: Option<Received<'_>>) -> CAllocationData
    ensures { IsReceived received.entry datagram.now result }
{
    match received {
        Some(Received::Data(shown)) => data_in_c(datagram, shown),
        Some(Received::Failed(failed)) => error_in_c(failed),
        Some(Received::Reservation(token)) => token_in_c(token),
        None => NO_DATA,
    }
}

/// Takes a datagram.
fn receive(
    alloc: Global,
    core: &mut AllocationCore,
    now: u64,
    from: Endpoint,
    datagram: &[u8],
    out: &mut CAllocationData,
) -> CResult
    ensures { ReceivesFrom core.old now from datagram.now result
        (record { core = Some core.old; shown = out.old })
        (record { core = Some core.new; shown = out.new }) }
{
    data_is_at_its_place(datagram);
    match core.client.on_datagram(alloc, now, from, datagram) {
        Ok(received) => {
            *out = received_in_c(datagram, received);
            plain(codes::OK)
        }
        Err(error) => write_result(error),
    }
}

/// Takes a datagram that has arrived from an address.
#[unsafe(no_mangle)]
pub extern "C" fn stun_types_allocation_datagram(
    alloc: Global,
    client: &mut CAllocation,
    now: u64,
    from: &Address,
    datagram: &[u8],
    out: &mut CAllocationData,
) -> CResult
    ensures { TakesDatagram now from.now datagram.now result
        (record { core = held_client client.old; shown = no_data })
        (record { core = held_client client.new; shown = out.new }) }
{
    *out = NO_DATA;
    let Some(from) = endpoint_in(from) else {
        return plain(codes::BAD_ARGUMENT);
    };
    let Some(mut core) = take(client, alloc) else {
        return plain(codes::BAD_ARGUMENT);
    };
    let result = receive(alloc, &mut core, now, from, datagram, out);
    put(client, core);
    result
}

/// The moment of the next poll, at most the greatest number, which also says that there is none.
fn wake_of(core: &AllocationCore) -> u64
    ensures { result ≡ wake_shown (wake core.now.client.held.state) }
{
    match core.client.next_wake() {
        Some(wake) => shown_due(wake),
        None => u64::MAX,
    }
}

/// A request that is written, in C's form.
fn request_in_c(written: Result<Option<usize>, StunWriteError>, length: &mut usize) -> CResult
    ensures { IsWritten written result length.new }
{
    match written {
        Ok(written) => {
            *length = written.unwrap_or(0);
            plain(codes::OK)
        }
        Err(error) => {
            *length = 0;
            write_result(error)
        }
    }
}

/// Writes the request that is to be sent now.
fn poll(
    alloc: Global,
    core: &mut AllocationCore,
    now: u64,
    id: TransactionId,
    out: &mut [u8],
    length: &mut usize,
) -> CResult
    ensures state { core.new ≡ with_client (passes now id polls core.old.client) core.old }
    ensures writes { WritesInC core.old now id result out.old out.new length.new }
{
    let written = core.client.poll(alloc, now, id, out);
    request_in_c(written, length)
}

/// Writes the request that is to be sent now, and reports the moment of the next poll.
#[unsafe(no_mangle)]
pub extern "C" fn stun_types_allocation_poll(
    alloc: Global,
    client: &mut CAllocation,
    now: u64,
    id: &Id,
    out: &mut [u8],
    length: &mut usize,
    wake: &mut u64,
) -> CResult
    ensures { PollsClient now id.now result
        (record { core = held_client client.old; slice = out.old; count = length.old; wake = wake.old })
        (record { core = held_client client.new; slice = out.new; count = length.new; wake = wake.new }) }
{
    let Some(mut core) = take(client, alloc) else {
        return plain(codes::BAD_ARGUMENT);
    };
    let id = TransactionId::from_bytes(&id.bytes);
    let result = poll(alloc, &mut core, now, id, out, length);
    *wake = wake_of(&core);
    put(client, core);
    result
}

/// What is around data, in C's form.
fn head_in_c(head: Option<Head>) -> CAllocationHead
    ensures { result ≡ head_in_c head }
{
    match head {
        Some(head) => CAllocationHead {
            length: head.length,
            padding: head.padding,
            sends: 1,
            reserved: 0,
        },
        None => NO_HEAD,
    }
}

/// What is written before data, in C's form.
fn written_in_c(
    written: Result<Option<Head>, StunWriteError>,
    around: &mut CAllocationHead,
) -> CResult
    ensures { IsHeadInC written result around.new }
{
    match written {
        Ok(head) => {
            *around = head_in_c(head);
            plain(codes::OK)
        }
        Err(error) => {
            *around = NO_HEAD;
            write_result(error)
        }
    }
}

/// What `TurnClient` writes before data, with DONT-FRAGMENT or without it.
fn head_of(
    client: &mut TurnClient,
    whole: bool,
    now: u64,
    peer: Endpoint,
    data_length: usize,
    id: TransactionId,
    head: &mut [u8],
) -> Result<Option<Head>, StunWriteError>
    ensures state { (bytes : List ℕ) → client.new ≡ passes now 0 (sends peer bytes) client.old }
    ensures head { (bytes : List ℕ) → SentAs whole client.old id data_length peer
        (output_at now 0 (sends peer bytes) client.old.held) head.old head.new result }
{
    if whole {
        return client.send_whole(now, peer, data_length, id, head);
    }
    client.send(now, peer, data_length, id, head)
}

/// Writes what comes before data for a peer.
fn send(
    core: &mut AllocationCore,
    whole: bool,
    now: u64,
    peer: Endpoint,
    data_length: usize,
    id: TransactionId,
    head: &mut [u8],
    around: &mut CAllocationHead,
) -> CResult
    ensures { SendsBy whole core.old now id data_length peer result head.old head.new around.new core.new }
{
    let written = head_of(&mut core.client, whole, now, peer, data_length, id, head);
    written_in_c(written, around)
}

/// Writes what comes before data for a peer, if the data may be sent.
fn send_to(
    alloc: Global,
    client: &mut CAllocation,
    whole: bool,
    now: u64,
    data_length: usize,
    peer: &Address,
    id: &Id,
    head: &mut [u8],
    around: &mut CAllocationHead,
) -> CResult
    ensures { SendsTo whole now data_length peer.now id.now result
        (record { core = held_client client.old; slice = head.old; around = no_head })
        (record { core = held_client client.new; slice = head.new; around = around.new }) }
{
    *around = NO_HEAD;
    let Some(peer) = endpoint_in(peer) else {
        return plain(codes::BAD_ARGUMENT);
    };
    let Some(mut core) = take(client, alloc) else {
        return plain(codes::BAD_ARGUMENT);
    };
    let id = TransactionId::from_bytes(&id.bytes);
    let result = send(&mut core, whole, now, peer, data_length, id, head, around);
    put(client, core);
    result
}

/// Writes what comes before data for a peer, if the data may be sent.
#[unsafe(no_mangle)]
pub extern "C" fn stun_types_allocation_send(
    alloc: Global,
    client: &mut CAllocation,
    now: u64,
    data_length: usize,
    peer: &Address,
    id: &Id,
    head: &mut [u8],
    around: &mut CAllocationHead,
) -> CResult
    ensures { SendsTo false now data_length peer.now id.now result
        (record { core = held_client client.old; slice = head.old; around = no_head })
        (record { core = held_client client.new; slice = head.new; around = around.new }) }
{
    send_to(
        alloc,
        client,
        false,
        now,
        data_length,
        peer,
        id,
        head,
        around,
    )
}

/// Writes what comes before data for a peer that is sent with the DF bit set, if the data may be sent.
#[unsafe(no_mangle)]
pub extern "C" fn stun_types_allocation_send_whole(
    alloc: Global,
    client: &mut CAllocation,
    now: u64,
    data_length: usize,
    peer: &Address,
    id: &Id,
    head: &mut [u8],
    around: &mut CAllocationHead,
) -> CResult
    ensures { SendsTo true now data_length peer.now id.now result
        (record { core = held_client client.old; slice = head.old; around = no_head })
        (record { core = held_client client.new; slice = head.new; around = around.new }) }
{
    send_to(
        alloc,
        client,
        true,
        now,
        data_length,
        peer,
        id,
        head,
        around,
    )
}
