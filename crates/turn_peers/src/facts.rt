//! The default and the order of the rules, checked on addresses that are written out. The functions
//! do nothing: the prover computes what their contracts state.

ghost use Rattle.std.specs.Prelude.{◌≡◌, true, false, [], ◌∷◌, not, Some};
ghost use Rattle.std.specs.List.{list_all};
ghost use Rattle.stun_endpoints.specs.Conversions.{ip_of};
ghost use Rattle.turn_peers.specs.Peers.{allows_address, allows_peer};
ghost use Rattle.turn_peers.specs.Registry.{ipv4, ipv6, prefix4, prefix6, ports4, open_ipv4, open_ipv6, closed_ipv4, closed_ipv6};

/// With no rules of its own a server relays to the addresses beside the blocks of the special-purpose
/// address registry (RFC 6890), and not to the first and the last of each that is denied.
pub fn registry_is_held()
    ensures closed_ipv4 { list_all (λ a. not (allows_address [] [] (ip_of a))) closed_ipv4 ≡ true }
    ensures closed_ipv6 { list_all (λ a. not (allows_address [] [] (ip_of a))) closed_ipv6 ≡ true }
    ensures open_ipv4 { list_all (λ a. allows_address [] [] (ip_of a)) open_ipv4 ≡ true }
    ensures open_ipv6 { list_all (λ a. allows_address [] [] (ip_of a)) open_ipv6 ≡ true }
{}

/// A longer prefix overrules a shorter one, whichever of them denies; one prefix is denied before it
/// is allowed, and allowed before it is denied by default; and no prefix contains an address of the
/// other family.
pub fn longer_prefixes_overrule()
    ensures opened { allows_address [] (prefix4 10 1 0 0 16 ∷ []) (ip_of (ipv4 10 1 2 3)) ≡ true }
    ensures beside { allows_address [] (prefix4 10 1 0 0 16 ∷ []) (ip_of (ipv4 10 2 2 3)) ≡ false }
    ensures closed { allows_address (prefix4 10 1 2 0 24 ∷ []) (prefix4 10 1 0 0 16 ∷ []) (ip_of (ipv4 10 1 2 3)) ≡ false }
    ensures reopened { allows_address (prefix4 10 1 0 0 16 ∷ []) (prefix4 10 1 2 3 32 ∷ []) (ip_of (ipv4 10 1 2 3)) ≡ true }
    ensures default { allows_address [] (prefix4 10 0 0 0 8 ∷ []) (ip_of (ipv4 10 1 2 3)) ≡ true }
    ensures both { allows_address (prefix4 10 0 0 0 8 ∷ []) (prefix4 10 0 0 0 8 ∷ []) (ip_of (ipv4 10 1 2 3)) ≡ false }
    ensures all { allows_address [] (prefix4 0 0 0 0 0 ∷ []) (ip_of (ipv4 10 1 2 3)) ≡ false }
    ensures none { allows_address (prefix4 0 0 0 0 0 ∷ []) [] (ip_of (ipv4 192 0 2 1)) ≡ false }
    ensures only { allows_address (prefix4 0 0 0 0 0 ∷ []) (prefix4 192 0 2 0 24 ∷ []) (ip_of (ipv4 192 0 2 1)) ≡ true }
    ensures mapped { allows_address [] (prefix4 10 0 0 0 8 ∷ []) (ip_of (ipv6 0 0 0 0 0 0xffff 0x0a01 0x0203)) ≡ false }
    ensures other { allows_address (prefix6 0 0 0 0 0 0 0 0 0 ∷ []) [] (ip_of (ipv4 192 0 2 1)) ≡ true }
{}

/// A range with some ports decides of these alone: one that denies leaves the others, and one that allows opens
/// no others. An address has a permission if a range with any port allows it, unless one with all ports denies
/// it.
pub fn ranges_are_of_their_ports()
    ensures first { allows_peer (ports4 192 0 2 0 24 1 1023 ∷ []) [] (ip_of (ipv4 192 0 2 9)) (Some 1) ≡ false }
    ensures last { allows_peer (ports4 192 0 2 0 24 1 1023 ∷ []) [] (ip_of (ipv4 192 0 2 9)) (Some 1023) ≡ false }
    ensures below { allows_peer (ports4 192 0 2 0 24 1 1023 ∷ []) [] (ip_of (ipv4 192 0 2 9)) (Some 0) ≡ true }
    ensures above { allows_peer (ports4 192 0 2 0 24 1 1023 ∷ []) [] (ip_of (ipv4 192 0 2 9)) (Some 1024) ≡ true }
    ensures beside { allows_peer (ports4 192 0 2 0 24 1 1023 ∷ []) [] (ip_of (ipv4 192 0 3 0)) (Some 1) ≡ true }
    ensures permitted { allows_address (ports4 192 0 2 0 24 1 1023 ∷ []) [] (ip_of (ipv4 192 0 2 9)) ≡ true }
    ensures opened { allows_peer [] (ports4 10 1 0 0 16 80 80 ∷ []) (ip_of (ipv4 10 1 2 3)) (Some 80) ≡ true }
    ensures closed { allows_peer [] (ports4 10 1 0 0 16 80 80 ∷ []) (ip_of (ipv4 10 1 2 3)) (Some 81) ≡ false }
    ensures in_part { allows_address [] (ports4 10 1 0 0 16 80 80 ∷ []) (ip_of (ipv4 10 1 2 3)) ≡ true }
    ensures second { allows_peer [] (ports4 10 1 0 0 16 80 80 ∷ ports4 10 1 0 0 16 443 443 ∷ []) (ip_of (ipv4 10 1 2 3)) (Some 443) ≡ true }
    ensures same { allows_peer (ports4 192 0 2 0 24 80 80 ∷ []) (prefix4 192 0 2 0 24 ∷ []) (ip_of (ipv4 192 0 2 9)) (Some 80) ≡ false }
    ensures longer { allows_peer (ports4 192 0 2 0 24 1 1023 ∷ []) (ports4 192 0 2 9 32 80 80 ∷ []) (ip_of (ipv4 192 0 2 9)) (Some 80) ≡ true }
    ensures empty { allows_peer (ports4 192 0 2 0 24 2 1 ∷ []) [] (ip_of (ipv4 192 0 2 9)) (Some 1) ≡ true }
{}
