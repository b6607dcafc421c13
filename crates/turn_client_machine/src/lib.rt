//! A TURN client by RFC 8656 as a machine without code, and twenty-seven laws that are proved
//! of it, eight of them joined with the server's machine, `turn_machine`. They say what must never
//! happen, and what must. A law is the contract of a function with an empty body.
//!
//! # The machine
//!
//! `step` (`specs/Steps.antt`) takes the setup, a state, a moment, a random number and an event.
//! It returns the next state and one output.
//!
//! - A client (`Clients`) is one allocation at one server, on one 5-tuple. It begins and ends
//!   once, with a reason. After a 437 or a 300 the user makes another client (`Attempts`).
//! - An event (`Events`) is a wish of the user; a response to a request; a Data indication; a
//!   ChannelData message; any other datagram; or time. The output is a request, data to a peer,
//!   data shown to the user, or nothing. Requests go out at polls alone.
//! - A task (`Tasks`) is something that the server must grant again and again: the allocation,
//!   and for each peer a permission or a channel. By its form at most one request is under way
//!   for each.
//! - A response grants from when its request was first sent (`Responses`): the server handled it
//!   no earlier, so the client's reckoning never ends later than the server's, whichever copy was
//!   answered.
//!
//! It follows RFC 8656, sections 7.1, 7.3, 7.4, 8.1, 8.3, 9, 10.1, 10.3, 11.1, 11.4, 12.1, 12.3
//! and 12.5 to 12.7, and RFC 8489, sections 6.2.1, 6.2.2, 9.2.5 and 10.
//!
//! # What it is not
//!
//! It reads no bytes, checks no integrity, and opens no sockets: which event a datagram is, was
//! decided before. EVEN-PORT, RESERVATION-TOKEN, two address families, DONT-FRAGMENT and ICMP
//! (11.5) are not part of it. That a second of the caller's clock is a second, that transaction
//! IDs can't be guessed, and who knows the key, no law can say. Data isn't signed (21.1.4):
//! whoever can send from the server's address can show data to the user.
//!
//! # Choices that the RFC leaves open
//!
//! - What isn't granted 20 seconds before it expires is given up, so no data is sent on what the
//!   server may have dropped. A channel isn't used in its last 20 seconds.
//! - What is granted is renewed a minute before it expires, or after half of its lifetime if that
//!   is later. A lifetime of less than 80 seconds is of no use: the client deletes the
//!   allocation.
//! - A 401 to a signed request ends the allocation, or the peer (7.4), and so does a 438 that can't
//!   be answered. Other unsigned errors count for nothing.
//! - After any other refused ChannelBind the client asks for a permission instead. 12.3
//!   recommends to delete the allocation; but its channel numbers are never used for another peer,
//!   so client and server can't disagree.
//! - ChannelData that comes before the response to its ChannelBind request is shown, if the
//!   server permits the peer's IP address (12).
//! - Data from any port of a permitted IP address is shown, and data to one is sent (9): ICE
//!   needs both.
//! - A CreatePermission request takes along further peers whose permission is due within 30 seconds
//!   (10.1), up to a setting; one such request is under way at a time. It is sent once. If no response
//!   comes by the first wait, or if it is refused, the client asks for each of its peers alone: an
//!   error response doesn't say which of them is the reason. A CreatePermission request for one peer,
//!   as every other request, is sent again by the waits of RFC 8489.
//! - A peer that the user drops keeps its place, so that its channel number rests. If a channel was
//!   wanted, no other peer takes the place for 900 seconds: a channel lasts for 600, and its number
//!   may go to another peer 300 seconds later (12). If the user asks for the peer again, it has the
//!   same number, and asks for a channel again if it did.
//! - To drop a peer drops the permission that others of its IP address rely on, if they were only
//!   permitted: the user asks for them again.
//!
//! # The words of the laws
//!
//! `will_reach` and `goes_on` speak of a `punctual` client (`Reach`): nothing has been due for
//! longer than `late`. `wrong-definitions.txt` has wrong machines, each with the law that refuses
//! it.
#![tactic(auto)]

mod laws;
mod peers;
mod phases;
mod requests;
mod tasks;

pub use laws::{
    attempts_are_few, client_and_server_meet, client_is_bounded, data_crosses, data_is_warranted,
    ends_for_a_reason, fit_is_heard, goes_on, granted_lasts, kept_alive, numbers_rest,
    peers_are_dropped, peers_are_named, peers_share_requests, peers_stay, polls_come_to_an_end,
    premises_can_be_met, renewals_are_rare, requests_are_identified, server_agrees, server_keeps,
    stays_punctual, strangers_change_nothing, turns_are_used, useless_is_deleted,
    violations_are_noted, will_reach,
};
pub use peers::Peer;
pub use phases::{End, Phase};
pub use requests::{Answer, Kind, Request};
pub use tasks::{Pending, Task};
