//! Laws of exchanges. Each function does nothing: its contract is the law.

ghost use Rattle.std.specs.Prelude.{◌≡◌, ◌≢◌, List, [], ℕ};
ghost use Rattle.std.specs.declared.net.socket_addr.SocketAddr.{SocketAddr};
ghost use Rattle.std.specs.declared.net.socket_addr.SocketAddrV6.{SocketAddrV6};
ghost use Rattle.stun_grammar.specs.Numbers.{IsBytes};
ghost use Rattle.stun_values.specs.Addresses.{IsInRange};
ghost use Rattle.stun_types.specs.Replies.{unknown_types};
ghost use Rattle.stun_exchanges.specs.Learning.{IsBindingRequest, Learns, LearnsError, without_flow};

use stun_base::one_message_type;
use stun_types::message::response_answers;
use stun_types::shown_is_found;

/// A client learns its own address. A binding request that shows no type that must be understood
/// and isn't is replied to; the reply is a success response to it, a transaction that waits for one
/// takes it, and what `mapped_address` reads of it is the address that the request came from, but
/// for flow info and scope ID, for which the wire format has no field.
pub fn client_learns_its_address()
    ensures { (source : SocketAddr) (r : List ℕ) → IsBytes r → IsInRange source
        → IsBindingRequest r → unknown_types [] r ≡ [] → Learns source r }
{
    one_message_type();
    response_answers();
    shown_is_found();
}

/// If a binding request shows types that must be understood and aren't, the reply is an error
/// response to it with the code 420, which a transaction that waits for one returns, and it lists
/// these types.
pub fn client_learns_the_error()
    ensures { (source : SocketAddr) (r : List ℕ) → IsBytes r
        → IsBindingRequest r → unknown_types [] r ≢ [] → LearnsError source r }
{
    one_message_type();
    response_answers();
    shown_is_found();
}

/// What a client learns of an address of IPv6 is its octets and its port: flow info and scope ID are 0.
pub fn learned_addresses_are_plain()
    ensures { (a : SocketAddrV6) → without_flow (SocketAddr.V6 a)
        ≡ SocketAddr.V6 (record { ip = a.ip; port = a.port; flowinfo = 0; scope_id = 0 }) }
{}
