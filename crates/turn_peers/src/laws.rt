//! What the rules mean, in terms of the longest prefix. The functions do nothing: their contracts are the
//! laws.

ghost use Rattle.std.specs.Prelude.{◌≡◌, ◌≤◌, ◌<◌, true, false, ℕ, List, Option, Some};
ghost use Rattle.std.specs.List.{AllByRecursion, IsAmong};
ghost use Rattle.stun_endpoints.specs.declared.endpoints.Ip.{Ip};
ghost use Rattle.turn_peers.specs.declared.ranges.PeerRange.{PeerRange};
ghost use Rattle.turn_peers.specs.Peers.{allows_peer, allows_address, are_whole};
ghost use Rattle.turn_peers.specs.Ranges.{denies, allows};

use crate::defaults::DENIED_BY_DEFAULT;

/// The longest prefix decides, of the ranges that deny a peer and those that allow it. The peer is denied if a
/// range of `denied` denies it, and none of `allowed` that allows it is longer; or if one of
/// [`DENIED_BY_DEFAULT`] denies it, and each of `allowed` that allows it is shorter. It is allowed if a range
/// of `allowed` allows it, each of `denied` that denies it is shorter, and none of [`DENIED_BY_DEFAULT`] that
/// does is longer; and if no range of these two denies it. So it is for a peer with a port, and for one of any
/// port.
pub fn longest_prefix_decides()
    ensures denied { (denied allowed : List PeerRange) (ip : Ip) (port : Option ℕ) (p : PeerRange)
        → IsAmong denied p → denies ip port p ≡ true
        → AllByRecursion (λ q. allows ip port q ≡ true → q.prefix.length ≤ p.prefix.length) allowed
        → allows_peer denied allowed ip port ≡ false }
    ensures by_default { (denied allowed : List PeerRange) (ip : Ip) (port : Option ℕ) (p : PeerRange)
        → IsAmong DENIED_BY_DEFAULT p → denies ip port p ≡ true
        → AllByRecursion (λ q. allows ip port q ≡ true → q.prefix.length < p.prefix.length) allowed
        → allows_peer denied allowed ip port ≡ false }
    ensures allowed { (denied allowed : List PeerRange) (ip : Ip) (port : Option ℕ) (q : PeerRange)
        → IsAmong allowed q → allows ip port q ≡ true
        → AllByRecursion (λ p. denies ip port p ≡ true → p.prefix.length < q.prefix.length) denied
        → AllByRecursion (λ p. denies ip port p ≡ true → p.prefix.length ≤ q.prefix.length) DENIED_BY_DEFAULT
        → allows_peer denied allowed ip port ≡ true }
    ensures no_range { (denied allowed : List PeerRange) (ip : Ip) (port : Option ℕ)
        → AllByRecursion (λ p. denies ip port p ≡ false) denied
        → AllByRecursion (λ p. denies ip port p ≡ false) DENIED_BY_DEFAULT
        → allows_peer denied allowed ip port ≡ true }
{}

/// What is allowed of a port is allowed of its IP address; and if each range has all ports, what is allowed of an
/// IP address is so of each port.
pub fn ports_are_of_allowed_addresses()
    ensures within { (denied allowed : List PeerRange) (ip : Ip) (port : ℕ) → port < 65536
        → allows_peer denied allowed ip (Some port) ≡ true → allows_address denied allowed ip ≡ true }
    ensures whole { (denied allowed : List PeerRange) (ip : Ip) (port : ℕ) → port < 65536
        → are_whole denied allowed ≡ true
        → allows_peer denied allowed ip (Some port) ≡ allows_address denied allowed ip }
{}
