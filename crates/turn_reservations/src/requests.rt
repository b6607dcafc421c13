//! Allocate requests that reserve a port or claim one.

ghost use Rattle.std.specs.Prelude.{◌≡◌, ℕ, Bool, true, [], ◌∷◌, ◌==◌, ◌||◌};
ghost use Rattle.turn_allocations.specs.declared.families.Families.{Families};
ghost use Rattle.turn_allocations.specs.Requests.{wants_of};
ghost use Rattle.turn_reservations.specs.Held.{family_number};
ghost use Rattle.turn_reservations.specs.Requests.{want_in};

use stun_endpoints::Endpoint;
use turn_allocations::{Answer, Families, Want};

/// The address family of a relayed address.
#[derive(Clone, Copy, Debug, PartialEq, Eq)]
pub enum Family {
    /// IPv4.
    Ipv4,
    /// IPv6.
    Ipv6,
}

/// An Allocate request that has EVEN-PORT with the R bit 1, and the two sockets that the caller has ready for
/// it.
#[derive(Clone, Copy, Debug, PartialEq, Eq)]
pub struct Reserve {
    /// Its transaction ID.
    pub id: u128,
    /// LIFETIME in seconds, if it has one.
    pub lifetime: Option<u32>,
    /// The family of its REQUESTED-ADDRESS-FAMILY, or IPv4.
    pub family: Family,
    /// The relayed transport address of the first socket, whose port is even; `None` if there is none.
    pub address: Option<Endpoint>,
    /// The relayed transport address of the socket to be reserved: the same IP address and the next higher
    /// port. `None` if there is none.
    pub next: Option<Endpoint>,
    /// The RESERVATION-TOKEN, if the port is reserved: 64 random bits that nobody can guess, and that no
    /// reservation has.
    pub token: u64,
}

/// An Allocate request that has RESERVATION-TOKEN.
#[derive(Clone, Copy, Debug, PartialEq, Eq)]
pub struct Claim {
    /// Its transaction ID.
    pub id: u128,
    /// LIFETIME in seconds, if it has one.
    pub lifetime: Option<u32>,
    /// The RESERVATION-TOKEN.
    pub token: u64,
}

/// The response to a request that reserves.
#[derive(Clone, Copy, Debug, PartialEq, Eq)]
pub struct Reply {
    /// The answer to the Allocate request.
    pub answer: Answer,
    /// The RESERVATION-TOKEN of a success response, if what the request reserved is still reserved.
    pub token: Option<u64>,
}

/// The family with a number, 1 or 2.
pub(crate) fn family_of(number: u8) -> Family
    requires { ((number == 1) || (number == 2)) ≡ true }
    ensures { family_number result ≡ number }
{
    if number == 1 {
        Family::Ipv4
    } else {
        Family::Ipv6
    }
}

/// Asks for a relayed address of one family, with this socket.
pub(crate) fn wants_in(family: Family, address: Option<Endpoint>) -> Families<Want>
    ensures { (is_open : Bool) (numbers : Families ℕ) → wants_of is_open numbers result
        ≡ want_in is_open numbers (family_number family) address ∷ [] }
{
    let ready = match address {
        Some(address) => Want::Ready(address),
        None => Want::Unready,
    };
    match family {
        Family::Ipv4 => Families {
            ipv4: ready,
            ipv6: Want::No,
        },
        Family::Ipv6 => Families {
            ipv4: Want::No,
            ipv6: ready,
        },
    }
}
