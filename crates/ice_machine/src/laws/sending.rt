//! What the agent sends, and to whom.

ghost use Rattle.std.specs.Prelude.{◌≡◌, ◌≤◌, ℕ, List, true, max};
ghost use Rattle.ice_machine.specs.Agents.{Setup, State};
ghost use Rattle.ice_machine.specs.Runs.{Begin, Timed, run, history, happening};
ghost use Rattle.ice_machine.specs.Events.{Event};
ghost use Rattle.ice_machine.specs.Steps.{at, step};
ghost use Rattle.ice_machine.specs.Strangers.{is_stranger, IsForgotten};
ghost use Rattle.stun_endpoints.specs.declared.endpoints.Endpoint.{Endpoint};
ghost use Rattle.ice_machine.specs.Silence.{IsSilent, requests_to};
ghost use Rattle.ice_machine.specs.Warrants.{IsRight};

/// Whatever arrives, in whatever order, every output is one of these:
///
/// - a request, at a poll; it nominates only if this agent is controlling;
/// - a response, to the address that a check came from, with the check's transaction ID;
/// - an error response to a message that isn't authentic, to the address that it came from, at most three
///   times as long as the message;
/// - **data, to an address from which, less than 30 seconds ago, an authentic success response came for a
///   request that this agent had sent, less than 30 seconds before that, from the same base to the same
///   address** (RFC 7675, section 5.1);
/// - data for the user, from an address that an authentic message came from.
pub fn sending_is_warranted()
    ensures { (setup : Setup) (begin : Begin) (earlier : List Timed) (timed : Timed)
        → let h = happening setup (run setup begin earlier) timed in
        IsRight (history setup begin earlier) h.moment h.event h.output }
{}

/// An agent can't be made to flood a victim (RFC 8445, section 19.5.1): to an address that no authentic
/// message has come from, each base sends at most `most_tries` requests, whoever signals the address and
/// however often.
pub fn silence_gets_little()
    ensures { (setup : Setup) (begin : Begin) (events : List Timed) (base : ℕ) (to : Endpoint)
        → IsSilent base to (history setup begin events)
        → requests_to base to (history setup begin events) ≤ max 1 setup.most_tries }
{}

/// A datagram that isn't authentic changes the clock only, and all that happens later is as if it hadn't
/// come. `sending_is_warranted` says what it may be answered with.
pub fn strangers_change_nothing()
    ensures unchanged { (setup : Setup) (state : State) (now fresh : ℕ) (event : Event)
        → is_stranger event ≡ true
        → (step setup state now fresh event).state ≡ at setup now state }
    ensures forgotten { (setup : Setup) (begin : Begin) (later : List Timed) (next stranger : Timed)
        (earlier : List Timed) → is_stranger stranger.event ≡ true → stranger.now ≤ next.now
        → IsForgotten setup begin later next stranger earlier }
{}
