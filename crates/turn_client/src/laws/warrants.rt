//! What is sent and shown, by the datagrams that came before.

ghost use Rattle.std.specs.Prelude.{◌≡◌, ℕ, List};
ghost use Rattle.stun_grammar.specs.Numbers.{IsBytes};
ghost use Rattle.turn_client_machine.specs.Clients.{Endpoint};
ghost use Rattle.turn_client_machine.specs.Events.{sends, send_to, send_on, shows};
ghost use Rattle.turn_client_state.specs.States.{output_at};
ghost use Rattle.turn_client.specs.Clients.{Client};
ghost use Rattle.turn_client.specs.Histories.{IsHistory, state_at};
ghost use Rattle.turn_client.specs.Receiving.{event_at};
ghost use Rattle.turn_client.specs.Runs.{Moment, after_all};
ghost use Rattle.turn_client.specs.Warrants.{IsBound, IsSent, IsShown};

use turn_client_machine::requests_are_identified;
use turn_client_messages::{judged_is_authentic, requests_are_found_by_id};

/// Whatever was called and whatever datagrams came: data is shown only if its datagram came from the
/// server's address, as a Data indication of this peer or as ChannelData, and a datagram that came
/// before granted it: from the server's address, a success response of the method of a request that an
/// earlier poll wrote, with its transaction ID, whose HMAC validates, whole, under a key that a challenge
/// and the user's password make. So a holder of that key signed the content of the response, or nobody
/// signed what its HMAC covers (`integrity_has_origin` of `stun_grammar`). The request named the peer's
/// IP address less than 300 seconds before, or bound this channel to this very peer less than 600 seconds
/// before, and the user had asked for the peer. Before the response to a ChannelBind request came, a
/// permission is enough (RFC 8656, section 12). Data goes out to a peer only with such a permission, while
/// the lifetime that such a response granted lasts, and on a channel only to the peer that it is bound to
/// (sections 9, 11.1 and 12.5).
///
/// The history begins with a new client, its datagrams are bytes, and no two polls have the same
/// transaction ID.
pub fn data_is_warranted()
    ensures shown { (client : Client) (earlier : List Moment) (now : ℕ) (from : Endpoint)
        (d : List ℕ) (peer : Endpoint) (bytes : List ℕ) → IsHistory client earlier → IsBytes d
        → let before = after_all client earlier in
        output_at now 0 (event_at before from d) before.held ≡ shows peer bytes
        → IsShown client earlier (state_at before now).clock from d peer bytes }
    ensures sent { (client : Client) (earlier : List Moment) (now : ℕ) (to peer : Endpoint)
        (more bytes : List ℕ) → IsHistory client earlier → let before = after_all client earlier in
        output_at now 0 (sends to more) before.held ≡ send_to peer bytes
        → (peer ≡ to) × (bytes ≡ more) × IsSent client earlier (state_at before now).clock to }
    ensures sent_on { (client : Client) (earlier : List Moment) (now number : ℕ) (to : Endpoint)
        (more bytes : List ℕ) → IsHistory client earlier → let before = after_all client earlier in
        output_at now 0 (sends to more) before.held ≡ send_on number bytes
        → (bytes ≡ more) × IsSent client earlier (state_at before now).clock to
        × IsBound client number to (state_at before now).clock earlier }
{
    turn_client_machine::data_is_warranted();
    requests_are_identified();
    judged_is_authentic();
    requests_are_found_by_id();
}
