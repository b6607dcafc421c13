//! Two agents that find a pair, in the datagrams that pass between them.

ghost use Rattle.std.specs.Prelude.{◌≡◌, ◌≤◌, ◌+◌, ℕ};
ghost use Rattle.ice_machine.specs.Meetings.{AreStarting};
ghost use Rattle.ice_exchanges.specs.Meetings.{Both, HaveMet, IsMeeting, Meeting, after, in_machines, machines};

use ice_checks::events_are_authentic;
use stun_endpoints::sockets_are_of_endpoints;

/// Two agents with one working way between them select it, and keep it for as long as datagrams pass: within a
/// stated number of rounds, the data of each goes that way, and it does so at every moment of every later round.
/// In a round each agent polls; the bytes that it writes reach the other one, whose response's bytes come back.
/// The premises: each has the other's credentials; one of them tries the way, while the other may not know it, or
/// may have failed there; both start in any roles with any tiebreakers; nothing comes back on their other pairs;
/// all datagrams of the first rounds may be lost; and datagrams that aren't the peer's may come at any time.
///
/// It doesn't say which pair both select if several ways work, nor speak of several components at once, of datagrams
/// that cross or take longer than a round, or of a way that works for a time. In a network with delays there are the
/// laws of one agent instead, each by itself: a check settles the roles (`roles_settle`), triggers a check, and its
/// pair becomes valid (`checks_are_followed`), is nominated (`nominations_follow`), and keeps the peer's consent
/// (`consent_lasts`).
pub fn agents_will_meet()
    ensures { (m : Meeting) (both : Both) (count due tried wait most j n : ℕ) → IsMeeting m both
        → AreStarting (in_machines m both) count due tried most (machines both)
        → due ≤ m.moment wait → m.lost ≤ wait
        → m.moment (wait + most + 2) + both.one.held.setup.patience ≤ m.moment j
        → m.moment (wait + most + 2) + both.other.held.setup.patience ≤ m.moment j
        → j + 2 ≤ n → HaveMet m n (after m n both) }
{
    events_are_authentic();
    sockets_are_of_endpoints();
    ice_machine::agents_will_meet();
}
