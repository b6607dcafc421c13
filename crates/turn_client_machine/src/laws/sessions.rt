//! Runs of a client and a server that the prover evaluates.

ghost use Rattle.std.specs.Prelude.{◌≡◌, ℕ, List, false, []};
ghost use Rattle.turn_client_machine.specs.Clients.{seconds};
ghost use Rattle.turn_client_machine.specs.Runs.{run, history};
ghost use Rattle.turn_client_machine.specs.Steps.{at};
ghost use Rattle.turn_client_machine.specs.Events.{send_to, send_on, shows, nothing};
ghost use Rattle.turn_client_machine.specs.Examples.{after, later, peer_1, peer_2, silent_since, client_sends, with_old_channel, over, back, setup_1, server_setup, tuple_1};
ghost use Rattle.turn_machine.specs.Events.{to_peer};
ghost use Rattle.turn_client_machine.specs.Meetings.{events_1, requests_1};
ghost use Rattle.turn_client_machine.specs.Reach.{IsJoined, IsPunctual, IsSettled};

/// The premises of `will_reach` hold in a run of three requests, one of which is challenged.
pub fn premises_can_be_met()
    ensures joined { IsJoined setup_1 (history setup_1 events_1) server_setup requests_1 [] tuple_1 5 }
    ensures punctual { IsPunctual 0 (seconds 19) peer_1 peer_1
        (at (seconds 3) (run setup_1 events_1)) }
    ensures settled { IsSettled (history setup_1 events_1) peer_1
        (at (seconds 3) (run setup_1 events_1)) }
{}

/// A client and a server, evaluated: after four requests, data of any bytes goes to a peer with a
/// permission and to one with a channel, and comes back exactly, and does so after half an hour.
/// A client that isn't polled for five minutes sends nothing. Data goes out as ChannelData until
/// 20 seconds before the channel expires, and then in Send indications.
pub fn client_and_server_meet()
    ensures to_permitted { (bytes : List ℕ)
        → over (after 5) 1 peer_1 bytes ≡ to_peer 7 peer_1 false bytes }
    ensures to_channel { (bytes : List ℕ)
        → over (after 5) 1 peer_2 bytes ≡ to_peer 7 peer_2 false bytes }
    ensures from_permitted { (bytes : List ℕ)
        → back (after 5) 1 peer_1 bytes ≡ shows peer_1 bytes }
    ensures from_channel { (bytes : List ℕ)
        → back (after 5) 1 peer_2 bytes ≡ shows peer_2 bytes }
    ensures to_later { (bytes : List ℕ)
        → over later 1801 peer_1 bytes ≡ to_peer 7 peer_1 false bytes }
    ensures to_channel_later { (bytes : List ℕ)
        → over later 1801 peer_2 bytes ≡ to_peer 7 peer_2 false bytes }
    ensures from_later { (bytes : List ℕ)
        → back later 1801 peer_1 bytes ≡ shows peer_1 bytes }
    ensures channel { (bytes : List ℕ)
        → client_sends 579 peer_2 bytes with_old_channel ≡ send_on 0x4000 bytes }
    ensures no_channel { (bytes : List ℕ)
        → client_sends 580 peer_2 bytes with_old_channel ≡ send_to peer_2 bytes }
    ensures silence { (bytes : List ℕ)
        → silent_since (after 5) 301 peer_1 bytes ≡ nothing }
{}
