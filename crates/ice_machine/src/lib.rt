//! An ICE agent by RFC 8445 as a machine without code, with consent (RFC 7675) and trickle (RFC 8838), and
//! seventeen laws that are proved of it. They say what must never happen, and what must. A law is the contract
//! of a function with an empty body.
//!
//! # The machine
//!
//! `step` (`specs/Steps.antt`) takes the setup, a state, a moment, a random number and an event. It returns
//! the next state and at most one output.
//!
//! - The state (`specs/Agents.antt`) has the role and the tiebreaker, the bases, the peer's candidates, the
//!   pairs, and the requests that a response is waited for.
//! - An event (`specs/Events.antt`) is a candidate of either side; the peer's credentials; the end of
//!   candidates; an authentic check or response; any other datagram; the user's data; or time.
//! - `specs/Checks.antt` says which pair a request is sent on, when one may be sent.
//! - The random number of a step is the transaction ID of its request, or the tiebreaker after error 487.
//!
//! It follows RFC 8445, sections 6.1, 7.2, 7.3, 8.1, 11 and 14. The agent nominates regularly. As the
//! controlled agent it also serves a peer that nominates many pairs. The peer may be a lite agent (2.5).
//!
//! # What it is not
//!
//! It reads no bytes, checks no credentials, and opens no sockets. It gathers no candidates: a
//! server-reflexive one is for the peer alone, since its base sends the checks (6.1.2.4). A relayed candidate
//! is a base, and the caller wraps what it sends for the TURN server. A mapped address that is no candidate
//! yet makes no local peer-reflexive candidate (7.2.5.3.1): the valid pair is the pair that the check was sent
//! on. A restart (9) is a second agent. Who knows a password, and whether a second of the caller's clock is a
//! second, no law can say.
//!
//! # Choices where the RFC leaves one, and differences
//!
//! - Each request is a transaction of its own, and nothing is retransmitted. A response counts for 30 seconds,
//!   also after a later request on the pair.
//! - All requests are at least Ta apart: first checks, further ones, nominations and consent checks. The RFC
//!   paces new transactions only (14.2).
//! - The timeout is a setting, at least 500 ms, and doubles. It isn't computed from the number of pairs (14.3).
//! - Triggered checks go by priority, and not in the order in which they were triggered (6.1.4.2).
//! - There is one list of pairs. A frozen pair goes once no pair of its foundation is waiting or in progress,
//!   instead of the initial states of 6.1.2.6.
//! - A frozen pair that may go is as urgent as a waiting one. In the RFC it goes once none waits (6.1.4.2).
//! - If the list of pairs is full, a further one isn't added. The RFC removes pairs of the lowest priority
//!   (6.1.2.5).
//! - A candidate that a check discovers is paired, and isn't kept as a remote candidate. If it is signalled
//!   later, its pair keeps the priority that the check had.
//! - After error 487 the role is the opposite of the one in the request, so that a second 487 changes nothing.
//!   A valid pair stays valid, and is checked again (7.2.5.1 sets it to Waiting).
//! - When the role changes, nominations end, and another pair of a component may be nominated then (8.1.1 forbids
//!   it).
//! - After an error response to a nominating request the pair stays valid, and the request is sent again. The RFC
//!   removes the pair from the valid list (7.2.5.3.4).
//! - A response from another address fails its pair only if that is in progress (7.2.5.2.1).
//! - Pairs of equal priority go by their place in the list, and not by component ID (6.1.4.2).
//! - A pair that the peer has nominated and that fails is a failed pair. The RFC sets the checklist to Failed
//!   (7.3.1.5).
//! - A controlling agent picks the valid pair of the greatest priority of a component, as soon as none of a
//!   greater priority may still succeed, or `patience` after the first valid one succeeded. If error 487 has
//!   triggered a check on a valid pair by then, that pair is picked, even if another is better. Once a pair is
//!   nominated, no other pair of its component is, also after its consent has expired (8.1.1). A picked pair
//!   that is lost before that gives way.
//! - Once a pair is nominated, checks on the other pairs of its component go on. The RFC removes these (8.1.2).
//! - The request that follows a nomination comes after RTO. All requests on a nominated pair have USE-CANDIDATE.
//! - Every valid pair is kept alive by consent checks. Those of one component that isn't selected aren't freed
//!   (8.3).
//! - Data goes to the selected pair only. 12.1 lets an agent send on any valid pair before.
//! - Data from an address that no authentic message has come from is dropped. 12.2 has agents prepared for data on
//!   any candidate.
//! - There is no wait of three seconds before candidates are freed (8.3), and no indications as keepalives
//!   (11), which consent checks replace.
//!
//! # The words of the laws
//!
//! The laws of sending speak of datagrams and moments, in words of their own (`specs/Warrants.antt`,
//! `specs/Silence.antt`). The others use the machine's words where a law determines them.
//! `wrong-definitions.txt` has wrong machines, each with the law that refuses it. RFC 7675 and RFC 8838 are
//! cited from memory.
#![tactic(auto)]

mod candidates;
mod laws;
mod messages;
mod pairs;
mod roles;

pub use candidates::{Base, Remote};
pub use laws::{
    agent_is_bounded, agent_works, agents_meet, agents_will_meet, checks_are_followed,
    consent_is_kept, consent_lasts, consent_takes_turns, exchanges_count, link_local_is_apart,
    lost_consent_is_final, nominations_follow, roles_settle, selection_is_agreed,
    sending_is_warranted, silence_gets_little, strangers_change_nothing,
};
pub use messages::{Answer, Check, Request};
pub use pairs::{Pair, PairState};
pub use roles::Role;
