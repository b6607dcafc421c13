//! The core of a TURN server's loop over UDP: what a datagram has the program send, and the relay
//! sockets, which are the program's own, of a type `S`.

use std::alloc::{AllocError, Global};
use std::collections::BTreeMap;
use std::net::SocketAddr;
use stun_authentication::Logins;
use stun_endpoints::{Endpoint, FiveTuple};
use stun_types::message::{LongTermCredentials, StunWriteError, TransactionId};
use turn_allocations::Limits;
use turn_peers::Peers;
use turn_server::{Access, Action, Opened, Ready, Site, Sockets, TurnServer};

/// How many bytes a buffer has before the data of a peer: room for the longest head.
pub const HEAD: usize = 48;

/// What the program sends.
#[derive(Debug, Drop)]
pub enum Sending<'a, S> {
    Nothing,
    /// These bytes to the client, from the socket that its datagram came to.
    ToClient(&'a [u8]),
    /// The data to the peer, from this relay socket.
    ToPeer {
        socket: &'a S,
        peer: SocketAddr,
        data: &'a [u8],
    },
}

/// A server and its relay sockets.
#[derive(Drop)]
pub struct Relay<'a, S: Drop> {
    server: TurnServer<16, 16>,
    own: SocketAddr,
    access: &'a Access,
    users: &'a [LongTermCredentials],
    peers: Peers<'a>,
    ready: Option<(SocketAddr, S)>,
    sockets: BTreeMap<u64, S>,
    closed: usize,
}

impl<'a, S: Drop> Relay<'a, S> {
    /// A server at its own address, with no allocation and no socket. `seed` is random.
    pub fn new(
        alloc: Global,
        seed: [u64; 2],
        own: SocketAddr,
        access: &'a Access,
        users: &'a [LongTermCredentials],
        peers: Peers<'a>,
    ) -> Result<Self, AllocError> {
        Ok(Relay {
            server: TurnServer::new(alloc, Limits::default(), seed)?,
            own,
            access,
            users,
            peers,
            ready: None,
            sockets: BTreeMap::new(alloc),
            closed: 0,
        })
    }

    /// Whether no socket is ready for the next Allocate request, which gets a 508 then.
    pub fn wants_socket(&self) -> bool {
        self.ready.is_none()
    }

    /// Has a socket ready. `address` is the one that peers send to.
    pub fn offer(&mut self, address: SocketAddr, socket: S) {
        self.ready = Some((address, socket));
    }

    /// The sockets of allocations, each by its number. The program waits for datagrams at each.
    pub fn sockets(&self) -> &BTreeMap<u64, S> {
        &self.sockets
    }

    /// The socket that is ready, as the server takes it. It is offered for an even port too if it has
    /// one. No pair is: a request that reserves a port gets a 508.
    fn site(&self) -> Site<'a> {
        let any = self
            .ready
            .as_ref()
            .map(|(address, _)| Endpoint::from(*address));
        let even = any.filter(|address| address.port % 2 == 0);
        Site {
            access: self.access,
            sockets: Sockets {
                ipv4: Ready {
                    any,
                    even,
                    pair: None,
                },
                ipv6: Ready {
                    any: None,
                    even: None,
                    pair: None,
                },
                token: 0,
            },
        }
    }

    /// Keeps the socket that was ready by the number that the server named.
    fn keep(&mut self, opened: Opened) -> Result<(), AllocError> {
        if let Some((_, socket)) = self.ready.take() {
            let _none = self
                .sockets
                .insert(opened.number, socket)
                .map_err(AllocError::from)?;
        }
        Ok(())
    }

    /// What a client's datagram has the program send. `now` counts nanoseconds, and a response is
    /// written into `buffer`.
    pub fn from_client<'d>(
        &'d mut self,
        alloc: Global,
        now: u64,
        client: SocketAddr,
        datagram: &'d [u8],
        buffer: &'d mut [u8],
    ) -> Result<Sending<'d, S>, StunWriteError> {
        let from = FiveTuple {
            client: Endpoint::from(client),
            server: Endpoint::from(self.own),
            transport: 17,
        };
        let site = self.site();
        let keys = Logins::new(self.users);
        let action = self.server.on_client_datagram(
            alloc,
            now,
            &from,
            datagram,
            &site,
            &keys,
            &self.peers,
            buffer,
        )?;
        self.close();
        match action {
            Action::Dropped => Ok(Sending::Nothing),
            Action::Response(response) => {
                // First the socket, since the allocation is there even if no response was written.
                if let Some(opened) = response.opened.ipv4 {
                    self.keep(opened)?;
                }
                let written = response.written?;
                match buffer.get(..written) {
                    Some(bytes) => Ok(Sending::ToClient(bytes)),
                    None => Ok(Sending::Nothing),
                }
            }
            Action::ToPeer {
                number,
                peer,
                data,
                ..
            } => {
                match (self.sockets.get(&number), data.of(datagram)) {
                    (Some(socket), Some(data)) => Ok(Sending::ToPeer {
                        socket,
                        peer: SocketAddr::from(peer),
                        data,
                    }),
                    _ => Ok(Sending::Nothing),
                }
            }
        }
    }

    /// The client that gets a peer's data, and the bytes to send. The data came to the socket of this
    /// number: it is in `buffer` after [`HEAD`] bytes, and has `length`. `id` is random. `None` if the
    /// data is dropped.
    pub fn from_peer<'b>(
        &mut self,
        now: u64,
        number: u64,
        peer: SocketAddr,
        id: TransactionId,
        buffer: &'b mut [u8],
        length: usize,
    ) -> Option<(SocketAddr, &'b [u8])> {
        let (before, after) = buffer.split_at_mut_checked(HEAD)?;
        let peer = Endpoint::from(peer);
        let delivered = self
            .server
            .on_peer_datagram(now, number, peer, length, id, &self.peers, before);
        self.close();
        let delivery = delivered?;
        let end = length.checked_add(usize::from(delivery.padding))?;
        after.get_mut(length..end)?.fill(0);
        let start = HEAD.checked_sub(usize::from(delivery.head_length))?;
        let bytes = buffer.get(start..HEAD.checked_add(end)?)?;
        Some((SocketAddr::from(delivery.to.client), bytes))
    }

    /// Closes the sockets that the server's last call ended, by dropping them.
    fn close(&mut self) {
        for number in self.server.ended() {
            let closed = self.sockets.remove(number);
            self.closed = self.closed.saturating_add(usize::from(closed.is_some()));
        }
    }

    /// How many sockets have been closed.
    pub fn closed(&self) -> usize {
        self.closed
    }

    /// Ends what has expired, and closes its sockets: call it once a second.
    pub fn poll(&mut self, now: u64) {
        self.server.poll(now);
        self.close();
    }
}
