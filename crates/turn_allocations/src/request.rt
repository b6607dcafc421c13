//! Authenticated requests.

use crate::answer::Refusal;
use crate::families::Families;
use stun_endpoints::Endpoint;

/// Whether an Allocate request asks for a relayed address of a family, and the socket that the caller has
/// ready for it.
///
/// A request with REQUESTED-ADDRESS-FAMILY asks for that family, one with ADDITIONAL-ADDRESS-FAMILY for both,
/// and any other for IPv4 (RFC 8656, section 7.2).
#[derive(Clone, Copy, Debug, PartialEq, Eq)]
pub enum Want {
    /// The request doesn't ask for one.
    No,
    /// The request asks for one, and no socket is ready: it can't get one, with 508 as the reason if the
    /// server relays the family.
    Unready,
    /// The request asks for one, and a socket with this relayed transport address is ready. The family
    /// of the address is not checked.
    Ready(Endpoint),
}

/// An authenticated request of a user, with the values of its attributes. Peers are borrowed for the call.
///
/// What the bytes alone decide is up to the caller. It also answers with the codes that [`Refusal`] doesn't
/// have, such as 401, 420 and 438.
#[derive(Clone, Copy)]
pub enum Request<'a> {
    /// Allocate (RFC 8656, section 7.2): its transaction ID, LIFETIME in seconds if it has one, and the
    /// relayed addresses that it asks for.
    Allocate {
        id: u128,
        lifetime: Option<u32>,
        wants: Families<Want>,
    },
    /// An Allocate request that its bytes or its client's address make unfit: refused with this, or with 437
    /// if the client has an allocation.
    ///
    /// The caller decides this: 400 if the request is malformed, 442 if REQUESTED-TRANSPORT isn't UDP, and
    /// 403 if the client's address is one of Teredo or 6to4 (section 21.4).
    UnfitAllocate(Refusal),
    /// Refresh (section 8.2): REQUESTED-ADDRESS-FAMILY, 1 for IPv4 and 2 for IPv6, and LIFETIME in seconds,
    /// if it has them. Without a family it refreshes all of the client's relayed addresses.
    Refresh {
        family: Option<u8>,
        lifetime: Option<u32>,
    },
    /// CreatePermission (section 10.2): each XOR-PEER-ADDRESS, whose port is ignored. More than 64 are
    /// refused with 508. A request without one is malformed: pass [`Request::Unfit`], since an empty slice
    /// isn't refused with 400.
    CreatePermission(&'a [Endpoint]),
    /// ChannelBind (section 12.2): CHANNEL-NUMBER and XOR-PEER-ADDRESS.
    ChannelBind {
        number: u16,
        peer: Endpoint,
    },
    /// A request other than Allocate that its bytes alone make unfit: refused with this, or with 437 if the
    /// client has no allocation, or 441 if it is another user's.
    Unfit(Refusal),
}
