//! A TURN server by RFC 8656 as a machine without code, and fourteen laws that are proved of it. They say
//! what must never happen, and what must. A law is the contract of a function with an empty body. Only
//! [`allocation_lifetime`] and [`refresh_lifetime`] compute something: the lifetimes that the machine grants.
//!
//! # The machine
//!
//! `step` (`specs/Steps.antt`) takes the setup, the rules in force, a state, a moment and an event. It
//! returns the next state, one output, and the numbers of the sockets that the caller is to close.
//!
//! - The state (`Relays`) has the relayed addresses that are live, with their permissions and channels. An
//!   allocation is the one or two relayed addresses of a 5-tuple. What has expired ends before an event
//!   counts, and its number is reported at that event.
//! - An event (`Events`) is an authentic request of a user; a Send indication, ChannelData, a peer's datagram
//!   or an ICMP packet; the end of a relayed address or of all that a user has, by the caller; or time.
//! - The rows of `Rows` decide why a request is refused, in order, and `Data` what is relayed.
//! - `Reserving` is a layer above for EVEN-PORT with its R bit and RESERVATION-TOKEN. `Flows` says which
//!   channels may be relayed without asking the machine, and until when.
//!
//! It follows RFC 8656, sections 5, 6, 7.2, 8.2, 9, 10.2, 11.2, 11.3, 11.5, 12.2, 12.6 and 12.7: one and two
//! address families, requests that come again, quotas, and the codes 400, 403, 437, 440, 441, 442, 443, 486
//! and 508.
//!
//! # What it is not
//!
//! It reads no bytes, checks no credentials, and opens no sockets. A request that its bytes make unfit is an
//! event with its code (400, 442, or 508 for a CreatePermission request of more than 64 peers); 401, 420 and
//! 438 are decided before. TTL, DSCP and ECN (13 to 16), the code 300 and anonymous users are not part of it.
//! The caller offers the sockets, gives no transport address to two of them at once, and closes what is
//! reported. That a second of the caller's clock is a second, that an indication comes from the client whose
//! address it has (21.1.4), and who knows a key, no law can say.
//!
//! # Choices where the RFC leaves one
//!
//! - Room and quota count relayed addresses. So a dual allocation counts as two, and with one place left it
//!   is met in part, with ADDRESS-ERROR-CODE. 440 precedes 486, and 486 precedes 508.
//! - A request that comes again is recognised by its user, 5-tuple and transaction ID. It opens nothing.
//! - The rules are asked at each datagram too, and not only at requests.
//! - ChannelData to a peer needs its channel, and data from a peer a permission. A channel lasts 600 seconds
//!   and its permission 300, so a client that refreshes only the channel stops receiving after 300 seconds.
//!   With `channel_permits`, which departs from the RFC, the permission of a ChannelBind request lasts 600
//!   seconds too, unless a CreatePermission request for the same IP address sets it to 300.
//! - A token serves only the user that reserved it. A user has at most as many reservations as its quota, and
//!   all users together have at most `most_reservations`. A request beyond either bound, or with the token of
//!   another reservation, is refused with 508.
//! - Numbers of sockets only grow, so that a late datagram never reaches another client.
//!
//! # The words of the laws
//!
//! The laws speak of requests, responses and moments in words of their own, which compare by equality. Of the
//! machine's words they use those that a law determines: `at` and `over_at` (`places_are_for_the_live`),
//! `seconds`, `granted_for`, `refreshed_for` and `bound_for` (`fit_is_granted`), `permissions_after` and
//! `with_channel` (`refusals_are_exact`), `flow_of` (`flows_are_right`). `wrong-definitions.txt` has wrong
//! machines, each with the law that refuses it.
#![tactic(auto)]

mod grants;
mod laws;
mod lifetimes;

pub use grants::{Channel, Permission};
pub use laws::{
    bound_channels_are_used, clients_are_apart, fit_is_granted, flows_are_right,
    places_are_for_the_live, quotas_protect, refusals_are_exact, relaying_is_warranted,
    reservations_are_kept, sessions_go_so, strangers_get_little, table_is_bounded,
    tests_are_equality, what_is_permitted_works,
};
pub use lifetimes::{DEFAULT_LIFETIME, allocation_lifetime, refresh_lifetime};
