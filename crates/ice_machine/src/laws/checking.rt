//! Connectivity checks: what the agent must do.

ghost use Rattle.std.specs.Prelude.{◌≡◌, ◌≤◌, ◌<◌, ◌+◌, ℕ, List, Some, true, false, find};
ghost use Rattle.ice_machine.specs.Agents.{Setup, State, Pair, Request, seconds, is_at, is_lost};
ghost use Rattle.ice_machine.specs.Pairs.{selected};
ghost use Rattle.ice_machine.specs.Runs.{Begin, Timed, run};
ghost use Rattle.ice_machine.specs.Meetings.{End, IsFit, OneAmong, after, disturbed, delay};
ghost use Rattle.ice_machine.specs.Lasting.{Watch, IsCourse, IsTimely, watched, HasTriggered, IsConsentedWay, IsElsewhere};
ghost use Rattle.ice_machine.specs.Events.{Check, Accepted, checks, responds, sends, polls, asks, answers, data_to};
ghost use Rattle.ice_machine.specs.Examples.{pairs_of_6};
ghost use Rattle.ice_machine.specs.Steps.{at, step, is_open, is_request};
ghost use Rattle.ice_machine.specs.Works.{IsBusy, IsValid, IsAnsweredInTime, HeardOrFull};

/// What an agent must not leave undone. The user's data goes to the selected pair, if there is one. When a
/// request may be sent, one is sent, on the most urgent pair (of several valid pairs that are due, on the one
/// that has been due longest), unless none is due on any pair. An authentic success response to a request
/// that is waited for makes its pair valid, and the consent lasts for 30 seconds from then on.
pub fn agent_works()
    ensures data { (setup : Setup) (state : State) (now fresh component : ℕ) (bytes : List ℕ) (p : Pair)
        → selected component (at setup now state) ≡ Some p
        → (step setup state now fresh (sends component bytes)).output ≡ data_to p.base p.remote bytes }
    ensures busy { (setup : Setup) (state : State) (now fresh : ℕ) → is_open (at setup now state) ≡ true
        → IsBusy setup (at setup now state) fresh (step setup state now fresh polls).output }
    ensures response { (setup : Setup) (state : State) (now fresh : ℕ) (r : Request) (p : Pair)
        → find (is_request r.id) (at setup now state).requests ≡ Some r
        → find (is_at r.base r.to) (at setup now state).pairs ≡ Some p → is_lost p.state ≡ false
        → IsValid r.base r.to
        (step setup state now fresh (responds r.base r.to r.id Accepted)).state }
{}

/// IPv6 link-local addresses are paired with link-local addresses only (RFC 8445, section 6.1.2.2): an agent
/// with one base and one candidate of the peer has one pair if both are link-local, or neither is.
pub fn link_local_is_apart()
    ensures neither { pairs_of_6 false 0x2001_0DB8_0000_0000_0000_0000_0000_0001 ≡ 1 }
    ensures both { pairs_of_6 true 0xFE80_0000_0000_0000_0000_0000_0000_0001 ≡ 1 }
    ensures remote { pairs_of_6 false 0xFE80_0000_0000_0000_0000_0000_0000_0001 ≡ 0 }
    ensures local { pairs_of_6 true 0x2001_0DB8_0000_0000_0000_0000_0000_0001 ≡ 0 }
{}

/// A request that is answered with success within 30 seconds makes its pair valid, unless the pair's consent
/// has expired by then. A check that is answered with success leaves its pair valid or lost or with a
/// triggered check, unless there is no room for the pair.
pub fn exchanges_count()
    ensures request { (setup : Setup) (begin : Begin) (events : List Timed)
        (now fresh later anew : ℕ) (r : Request)
        → (step setup (run setup begin events) now fresh polls).output ≡ asks r
        → IsAnsweredInTime setup (step setup (run setup begin events) now fresh polls).state
        r later anew }
    ensures check { (setup : Setup) (state : State) (now fresh : ℕ) (c : Check)
        → (step setup state now fresh (checks c)).output ≡ answers c.base c.from c.id Accepted
        → HeardOrFull setup c (step setup state now fresh (checks c)).state }
{}

/// Once a check of the peer has triggered a check, its pair becomes valid soon, and stays so, whatever else
/// arrives, with any other pairs, although datagrams are delayed and lost: within the gap and the delay of
/// `consent_lasts`.
pub fn checks_are_followed()
    ensures { (setup : Setup) (e : End) (gap delay limit : ℕ) (s : State) (w : Watch) (events : List Timed)
        (now : ℕ) → IsFit setup → gap + delay ≤ seconds 20 → HasTriggered e gap limit w s
        → IsCourse setup e gap delay s w events → let after = disturbed setup s events in
        after.clock ≤ now → IsTimely gap delay now (watched setup e s w events) → limit + delay < now
        → OneAmong (IsConsentedWay e now) (IsElsewhere e) (at setup now after).pairs }
{}
