//! Laws of the replies. Each function does nothing: its contract is the law.

ghost use Rattle.std.specs.Prelude.{◌≡◌, ℕ, List, Some, None};
ghost use Rattle.std.specs.declared.net.socket_addr.SocketAddr.{SocketAddr};
ghost use Rattle.stun_grammar.specs.declared.attribute_type.AttributeType.{AttributeType};
ghost use Rattle.stun_grammar.specs.Numbers.{IsBytes};
ghost use Rattle.stun_grammar.specs.Parsing.{parse_fault};
ghost use Rattle.stun_server.specs.Reply.{binding_reply, reply};
ghost use Rattle.stun_server.specs.Sizes.{IsSmall};

/// A reply of [`reply`](crate::reply) is at most 48 bytes longer than its request, at most three
/// times as long, and has at most 32840 bytes, FINGERPRINT and all. So is a [`Reply`](crate::Reply) of a
/// server that supports some types.
pub fn replies_are_small()
    ensures to_datagrams { (source : SocketAddr) (r t : List ℕ) → IsBytes r → reply source r ≡ Some t
        → IsSmall r t }
    ensures to_messages { (supported : List AttributeType) (source : SocketAddr) (r : List ℕ)
        → IsBytes r → parse_fault r ≡ None → IsSmall r (binding_reply supported source r) }
{}
