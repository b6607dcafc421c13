//! What is sent and shown, and what strangers can change.

ghost use Rattle.std.specs.Prelude.{◌≡◌, ◌≤◌, ℕ, Bool, List, true};
ghost use Rattle.turn_client_machine.specs.Clients.{Setup, State, Endpoint};
ghost use Rattle.turn_client_machine.specs.Runs.{Timed, run, history, happening};
ghost use Rattle.turn_client_machine.specs.Steps.{at, step};
ghost use Rattle.turn_client_machine.specs.Events.{Event, Answer, responds, nothing};
ghost use Rattle.turn_client_machine.specs.Warrants.{IsRight};
ghost use Rattle.turn_client_machine.specs.Strangers.{is_stranger, is_unknown, IsForgotten};
ghost use Rattle.turn_client_machine.specs.Examples.{later};

/// Whatever comes, in whatever order, each output is warranted by what was asked for and answered
/// before (`IsRight`). Requests go out at polls alone, and for no peers but the user's. Data goes
/// out to a peer that the user asked for, while an authentic success response keeps the
/// allocation and the permission live, and on a channel only of that very peer. Data is shown
/// only from the server's address, under a permission or a channel of that very peer; before the
/// response to a ChannelBind request, under a permission alone.
pub fn data_is_warranted()
    ensures { (setup : Setup) (earlier : List Timed) (timed : Timed)
        → let h = happening setup (run setup earlier) timed in
        IsRight setup (history setup earlier) h.moment h.event h.output }
{}

/// A datagram from another address than the server's, and a response whose integrity isn't right,
/// change nothing but the clock, unless the response is a 401 or 438; nor does a response to no
/// request under way. All that happens later is as if it hadn't come.
pub fn strangers_change_nothing()
    ensures unchanged { (setup : Setup) (state : State) (now fresh : ℕ) (event : Event)
        → is_stranger setup event ≡ true → (step setup state now fresh event).state ≡ at now state }
    ensures unknown { (setup : Setup) (state : State) (now fresh id : ℕ) (from : Endpoint)
        (authentic : Bool) (answer : Answer) → is_unknown id state ≡ true
        → (step setup state now fresh (responds from id authentic answer)).state ≡ at now state }
    ensures forgotten { (setup : Setup) (later : List Timed) (next stranger : Timed)
        (earlier : List Timed) → is_stranger setup stranger.event ≡ true → stranger.now ≤ next.now
        → IsForgotten setup later next stranger earlier }
{}
