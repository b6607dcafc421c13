//! Allocate requests: what their bytes alone refuse, and what they ask for (RFC 8656, section 7.2).

ghost use Rattle.std.specs.Prelude.{◌≡◌, ℕ, true, false, None, Some, MatchResult};
ghost use Rattle.stun_types.specs.Message.{message_bytes};
ghost use Rattle.stun_endpoints.specs.declared.endpoints.FiveTuple.{FiveTuple};
ghost use Rattle.turn_machine.specs.Reserving.{OuterState};
ghost use Rattle.turn_allocations.specs.Answers.{code_of};
ghost use Rattle.turn_allocations.specs.Requests.{numbers_in};
ghost use Rattle.turn_allocations.specs.declared.answer.Answer.{Answer};
ghost use Rattle.turn_allocations.specs.declared.answer.Refusal.TheVariants.{BadRequest};
ghost use Rattle.turn_server.specs.Allocating.{transport_fault, has_malformed, options_of, ready_for, allocate_fault, allocate_of};
ghost use Rattle.turn_server.specs.Wanted.{token_of, outer_of};
ghost use Rattle.turn_server.specs.Wishes.{wished, claim_in};

use crate::values::{byte_in, long_in, number_in};
use crate::wish::Wish;
use crate::{Ready, Sockets};
use stun_endpoints::Ip;
use stun_types::message::Message;
use turn_allocations::{Families, Refusal, Request, Want};
use turn_attrs::attribute_types::{
    ADDITIONAL_ADDRESS_FAMILY, EVEN_PORT, LIFETIME, REQUESTED_ADDRESS_FAMILY, REQUESTED_TRANSPORT,
    RESERVATION_TOKEN,
};
use turn_peers::is_tunnelled;
use turn_reservations::{Claim, Family, Reserve};

/// The number of UDP as a protocol.
const UDP: u8 = 17;

/// What a request may wish: a lifetime in seconds; both address families, 1 or 2; whether an even
/// port, and if it is true the next one too; and the token of a reservation.
#[derive(Clone, Copy)]
struct Options {
    lifetime: Option<u32>,
    family: Option<u8>,
    even: Option<bool>,
    token: Option<u64>,
    additional: Option<u8>,
}

/// Tests that REQUESTED-TRANSPORT is there, and is UDP.
///
/// # Errors
///
/// `BadRequest` or `UnsupportedTransportProtocol`.
fn check_transport(request: &Message<'_>) -> Result<(), Refusal>
    ensures { MatchResult result (λ _. transport_fault (message_bytes request.now) ≡ None)
        (λ refusal. transport_fault (message_bytes request.now) ≡ Some (code_of refusal)) }
{
    match byte_in(request, REQUESTED_TRANSPORT, 4)? {
        Some(UDP) => Ok(()),
        Some(_) => Err(Refusal::UnsupportedTransportProtocol),
        None => Err(Refusal::BadRequest),
    }
}

/// What a request wishes.
///
/// # Errors
///
/// `BadRequest` if an attribute is malformed.
fn read_options(request: &Message<'_>) -> Result<Options, Refusal>
    ensures { let d = message_bytes request.now in
        MatchResult result
        (λ options. (has_malformed d ≡ false) × (options ≡ options_of d))
        (λ refusal. (has_malformed d ≡ true) × (refusal ≡ BadRequest)) }
{
    let lifetime = number_in(request, LIFETIME)?;
    let family = byte_in(request, REQUESTED_ADDRESS_FAMILY, 4)?;
    let even = byte_in(request, EVEN_PORT, 1)?;
    let token = long_in(request, RESERVATION_TOKEN)?;
    let additional = byte_in(request, ADDITIONAL_ADDRESS_FAMILY, 4)?;
    Ok(Options {
        lifetime,
        family,
        even: even.map(|byte| byte >= 128),
        token,
        additional,
    })
}

/// What a request asks for of a family, with an even port or without, of which these are ready.
fn ready_for(even: Option<bool>, ready: Ready) -> Want
    ensures { result ≡ ready_for even ready }
{
    let address = match even {
        None => ready.any,
        Some(_) => ready.even,
    };
    match address {
        Some(address) => Want::Ready(address),
        None => Want::Unready,
    }
}

impl Options {
    ghost use Rattle.std.specs.Prelude.{◌≡◌, ℕ, None, Some, MatchResult};
    ghost use Rattle.stun_endpoints.specs.declared.endpoints.FiveTuple.{FiveTuple};
    ghost use Rattle.turn_machine.specs.Reserving.{OuterState};
    ghost use Rattle.turn_allocations.specs.Answers.{code_of};
    ghost use Rattle.turn_allocations.specs.Requests.{numbers_in};
    ghost use Rattle.turn_allocations.specs.declared.answer.Answer.{Answer};
    ghost use Rattle.turn_server.specs.Allocating.{conflict, is_wanted, options_fault, want_of, wants_for, family_of, reserve_for, wanted_for};
    ghost use Rattle.turn_server.specs.Wanted.{token_of, outer_of};
    ghost use Rattle.turn_server.specs.Wishes.{wished, claim_in};

    /// Whether the wishes don't go together.
    fn conflict(&self) -> bool
        ensures { result ≡ conflict self.now }
    {
        let other = self.even.is_some() || self.family.is_some() || self.additional.is_some();
        let reserves = self.even == Some(true);
        (self.token.is_some() && other)
            || (self.additional.is_some() && (self.family.is_some() || reserves))
            || self.additional.unwrap_or(2) != 2
    }

    /// Tests that the wishes go together, and that the family is IPv4 or IPv6.
    ///
    /// # Errors
    ///
    /// `BadRequest` or `AddressFamilyNotSupported`.
    fn check(&self) -> Result<(), Refusal>
        ensures { MatchResult result (λ _. options_fault self.now ≡ None)
            (λ refusal. options_fault self.now ≡ Some (code_of refusal)) }
    {
        if self.conflict() {
            return Err(Refusal::BadRequest);
        }
        match self.family.unwrap_or(1) {
            1 | 2 => Ok(()),
            _ => Err(Refusal::AddressFamilyNotSupported),
        }
    }

    /// Whether a request with these wishes asks for a family.
    fn is_wanted(&self, family: u8) -> bool
        ensures { result ≡ is_wanted self.now family }
    {
        self.additional.is_some() || self.family.unwrap_or(1) == family
    }

    /// What a request with these wishes asks for of a family, of which these are ready.
    fn want_of(&self, ready: Ready, family: u8) -> Want
        ensures { result ≡ want_of self.now ready family }
    {
        if self.is_wanted(family) {
            ready_for(self.even, ready)
        } else {
            Want::No
        }
    }

    /// What a request with these wishes asks for.
    fn wants(&self, sockets: &Sockets) -> Families<Want>
        ensures { result ≡ wants_for sockets.now self.now }
    {
        Families {
            ipv4: self.want_of(sockets.ipv4, 1),
            ipv6: self.want_of(sockets.ipv6, 2),
        }
    }

    /// The family of the relayed address.
    fn family_of(&self) -> Family
        ensures { result ≡ family_of self.now }
    {
        match self.family {
            Some(2) => Family::Ipv6,
            _ => Family::Ipv4,
        }
    }

    /// What a request with these wishes reserves.
    fn reserve(&self, id: u128, sockets: &Sockets) -> Reserve
        ensures { result ≡ reserve_for sockets.now id self.now }
    {
        let family = self.family_of();
        let ready = match family {
            Family::Ipv4 => sockets.ipv4,
            Family::Ipv6 => sockets.ipv6,
        };
        Reserve {
            id,
            lifetime: self.lifetime,
            family,
            address: ready.pair.map(|pair| pair.even),
            next: ready.pair.map(|pair| pair.next),
            token: sockets.token,
        }
    }

    /// What a request with these wishes is.
    fn wish(&self, id: u128, sockets: &Sockets) -> Wish
        ensures outer { (tuple : FiveTuple) (user : ℕ) (h : OuterState) (answer : Answer)
            → wished tuple user h answer result
            ≡ outer_of tuple user h (numbers_in answer) (wanted_for sockets.now id self.now) }
        ensures token { claim_in result ≡ token_of (wanted_for sockets.now id self.now) }
    {
        if let Some(token) = self.token {
            return Wish::Claims(Claim {
                id,
                lifetime: self.lifetime,
                token,
            });
        }
        if self.even == Some(true) {
            return Wish::Reserves(self.reserve(id, sockets));
        }
        Wish::Asks(Request::Allocate {
            id,
            lifetime: self.lifetime,
            wants: self.wants(sockets),
        })
    }
}

/// What an Allocate request of a client wishes.
///
/// # Errors
///
/// Why its client's address or its bytes refuse it.
fn read_wishes(request: &Message<'_>, client: Ip) -> Result<Options, Refusal>
    ensures { let d = message_bytes request.now in
        MatchResult result
        (λ options. (allocate_fault client d ≡ None) × (options ≡ options_of d))
        (λ refusal. allocate_fault client d ≡ Some (code_of refusal)) }
{
    if is_tunnelled(client) {
        return Err(Refusal::Forbidden);
    }
    check_transport(request)?;
    let options = read_options(request)?;
    options.check()?;
    Ok(options)
}

/// What an Allocate request of a client asks for.
pub(crate) fn read_allocate(request: &Message<'_>, client: Ip, sockets: &Sockets) -> Wish
    ensures outer { (tuple : FiveTuple) (user : ℕ) (h : OuterState) (answer : Answer)
        → wished tuple user h answer result ≡ outer_of tuple user h (numbers_in answer)
        (allocate_of client sockets.now (message_bytes request.now)) }
    ensures token { claim_in result
        ≡ token_of (allocate_of client sockets.now (message_bytes request.now)) }
{
    match read_wishes(request, client) {
        Ok(options) => options.wish(u128::from(request.transaction_id()), sockets),
        Err(refusal) => Wish::Asks(Request::UnfitAllocate(refusal)),
    }
}
