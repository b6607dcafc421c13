//! What a datagram is to a client.

use stun_authentication::Retry;
use stun_endpoints::Endpoint;
use turn_client_machine::Answer;

/// What a datagram from the server is. It borrows from the datagram.
#[derive(Debug, Drop)]
pub enum Judged<'d> {
    /// A response to the request that is waited for.
    Response {
        /// The transaction ID.
        id: u128,
        /// Whether an integrity attribute authenticates it, or nothing has to: a 401 or 438 that
        /// can't be answered counts, signed or not.
        is_authentic: bool,
        /// What it answers; never [`Answer::Challenged`].
        answer: Answer,
    },
    /// A 401 or 438 that says how the request is sent again. For the machine it is
    /// [`Answer::Challenged`] with a number of the caller's choice. Copy it with
    /// [`Retry::into_owned`], and make the key with [`key_for`](stun_authentication::key_for).
    Challenge {
        /// The transaction ID.
        id: u128,
        /// Whether an integrity attribute authenticates it.
        is_authentic: bool,
        /// The code: 401 or 438.
        code: u16,
        /// What the next request has to carry.
        retry: Retry<'d>,
    },
    /// The data of a peer, in a Data indication.
    PeerData {
        /// The peer.
        peer: Endpoint,
        /// The data.
        data: &'d [u8],
    },
    /// The data of a peer, in a ChannelData message.
    ChannelData {
        /// The number of the channel.
        channel: u16,
        /// The data.
        data: &'d [u8],
    },
    /// Anything else.
    Stray,
}
