//! What holds of every client, and of all that is called and comes in whatever order. Each function does
//! nothing: its contract is the law.
//!
//! A history (`specs/Histories.antt`) is a list of moments: calls of the user and datagrams, each with the
//! caller's clock. By the contracts of `TurnClient` each call and each datagram is one step of it. A
//! datagram for which `on_datagram` returns `OutOfMemory` counts as lost, and isn't part of it.

ghost use Rattle.std.specs.Prelude.{◌≡◌, ℕ, List};
ghost use Rattle.turn_client_machine.specs.Runs.{run, history};
ghost use Rattle.turn_client_machine.specs.Steps.{at};
ghost use Rattle.turn_client_machine.specs.Warrants.{IsRight};
ghost use Rattle.turn_client_state.specs.States.{output_at, setup_of};
ghost use Rattle.turn_client.specs.Clients.{Client};
ghost use Rattle.turn_client.specs.Runs.{Call, IsBegun, Moment, after_all, event_in, fresh_in, timed_all};

mod attempts;
mod going;
mod hearing;
mod lasting;
mod serving;
mod strangers;
mod warrants;

pub use attempts::attempts_are_few;
pub use going::{goes_on, polls_come_to_an_end};
pub use hearing::fit_datagrams_are_taken;
pub use lasting::{
    client_is_bounded, ends_for_a_reason, granted_lasts, kept_alive, peers_stay, polls_in_time,
};
pub use serving::{server_agrees, server_keeps, stays_punctual, will_reach};
pub use strangers::strangers_change_nothing;
pub use warrants::data_is_warranted;

/// Whatever is called and comes in whatever order: the state of a client is that of the machine after
/// the events that the calls and datagrams are. Each output, a request, data to a peer, or data of a peer
/// that is shown, is warranted by what came before, as `turn_client_machine` has it: data is shown only if
/// it came from the server's address, by a permission that an authentic success response granted for a
/// peer that the user named, or on a channel of that very peer.
pub fn datagrams_are_warranted()
    ensures state { (client : Client) (moments : List Moment) → IsBegun client
        → (after_all client moments).held.state
        ≡ run (setup_of client.held.settings) (timed_all client moments) }
    ensures right { (client : Client) (earlier : List Moment) (now fresh : ℕ) (call : Call)
        → IsBegun client → let setup = setup_of client.held.settings in
        let before = after_all client earlier in
        IsRight setup (history setup (timed_all client earlier)) (at now before.held.state).clock
        (event_in before call) (output_at now (fresh_in fresh call) (event_in before call) before.held) }
{
    turn_client_machine::data_is_warranted();
}
