//! Two agents that find a pair.

ghost use Rattle.std.specs.Prelude.{◌≡◌, ◌≤◌, ◌<◌, ◌+◌, ◌*◌, ◌^◌, ◌⊎◌, ℕ, List, []};
ghost use Rattle.ice_machine.specs.Agents.{milliseconds, seconds};
ghost use Rattle.ice_machine.specs.Runs.{Begin, Timed, run};
ghost use Rattle.ice_machine.specs.Roles.{Role, Controlling, Controlled};
ghost use Rattle.ice_machine.specs.Networks.{Agents, rounds, reaches};
ghost use Rattle.ice_machine.specs.Meetings.{Meeting, IsMeeting, AreStarting, HaveMet, after, delay};
ghost use Rattle.ice_machine.specs.Starting.{HasWay};
ghost use Rattle.ice_machine.specs.Checks.{rto_of};
ghost use Rattle.ice_machine.specs.Examples.{one_sided, both_of_relayed, setup_1, meeting_1, begin_1, told_1, through_nat, both_of, address, after_rounds};
ghost use Rattle.ice_machine.specs.Events.{sends, nothing};
ghost use Rattle.ice_machine.specs.Steps.{step};

/// Two agents find a pair although one uses a NAT and its candidates are useless: within three rounds of
/// 50 ms if they start in opposite roles; within eight if both start controlling, or both controlled; and
/// within fourteen after ten rounds in which every datagram was lost. After 31 seconds in which nothing
/// arrives, nothing is sent. But if a pair of greater priority passes one way only, they don't, although their
/// relays work: that pair is nominated, and no other is (RFC 8445, section 8.1.1).
pub fn agents_meet()
    ensures one { reaches setup_1 (rounds setup_1 setup_1 through_nat 3 0
        (both_of Controlling Controlled)).one (milliseconds 400) 1 1 (address 20) }
    ensures other { reaches setup_1 (rounds setup_1 setup_1 through_nat 3 0
        (both_of Controlling Controlled)).other (milliseconds 400) 1 1 (address 30) }
    ensures one_of_controlling { reaches setup_1 (rounds setup_1 setup_1 through_nat 8 0
        (both_of Controlling Controlling)).one (milliseconds 400) 1 1 (address 20) }
    ensures one_of_controlled { reaches setup_1 (rounds setup_1 setup_1 through_nat 8 0
        (both_of Controlled Controlled)).one (milliseconds 400) 1 1 (address 20) }
    ensures one_after_loss { reaches setup_1 (after_rounds 10 14 (both_of Controlling Controlled)).one
        (milliseconds 1_300) 1 1 (address 20) }
    ensures other_of_controlling { reaches setup_1 (rounds setup_1 setup_1 through_nat 8 0
        (both_of Controlling Controlling)).other (milliseconds 400) 1 1 (address 30) }
    ensures other_of_controlled { reaches setup_1 (rounds setup_1 setup_1 through_nat 8 0
        (both_of Controlled Controlled)).other (milliseconds 400) 1 1 (address 30) }
    ensures other_after_loss { reaches setup_1 (after_rounds 10 14 (both_of Controlling Controlled)).other
        (milliseconds 1_300) 1 1 (address 30) }
    ensures silence { (step setup_1 (rounds setup_1 setup_1 through_nat 3 0
        (both_of Controlling Controlled)).one (seconds 31) 0 (sends 1 [])).output ≡ nothing }
    ensures nominated { reaches setup_1 (rounds setup_1 setup_1 one_sided 16 0
        (both_of_relayed Controlling Controlled)).one (milliseconds 800) 1 1 (address 20) }
    ensures deaf { (step setup_1 (rounds setup_1 setup_1 one_sided 16 0
        (both_of_relayed Controlling Controlled)).other (milliseconds 800) 0 (sends 1 [])).output ≡ nothing }
{}

/// Two agents with one working way between them select it, and keep it for as long as datagrams pass: within a
/// stated number of rounds, the data of each goes that way, and it does so at every moment of every later
/// round. The premises: one of them tries the way, while the other may not know it, or may have failed there;
/// both start in any roles with any tiebreakers; nothing comes back on their other pairs; all datagrams of the
/// first rounds may be lost; and datagrams that aren't authentic may arrive at any time.
pub fn agents_will_meet()
    ensures start { (m : Meeting) (both : Agents) (count due tried wait most j n : ℕ) → IsMeeting m
        → AreStarting m count due tried most both → due ≤ m.moment wait → m.lost ≤ wait
        → m.moment (wait + most + 2) + m.one_setup.patience ≤ m.moment j
        → m.moment (wait + most + 2) + m.other_setup.patience ≤ m.moment j
        → j + 2 ≤ n → HaveMet m n (after m n both) }
    ensures fresh { (m : Meeting) (one other : Begin) (events more : List Timed) (count due wait j n : ℕ)
        → IsMeeting m → HasWay m.one_end m.net.there m.one_setup one events
        → HasWay m.other_end m.net.back m.other_setup other more → m.lost < m.one_setup.most_tries
        → (m.lost ≡ 0) ⊎ (m.one_setup.most_tries ≤ count)
        → ((i : ℕ) → i < m.lost → m.moment i + rto_of m.one_setup * 2 ^ i ≤ due)
        → due ≤ m.moment wait → m.lost ≤ wait
        → let most = delay count m.one_end (run m.one_setup one events).pairs in
        m.moment (wait + most + 2) + m.one_setup.patience ≤ m.moment j
        → m.moment (wait + most + 2) + m.other_setup.patience ≤ m.moment j
        → j + 2 ≤ n → HaveMet m n (after m n
        (record { one = run m.one_setup one events; other = run m.other_setup other more })) }
    ensures example { (role peer_role : Role) → HaveMet meeting_1 11 (after meeting_1 11 (record {
      one = run setup_1 (begin_1 role 5) (told_1 20 21);
      other = run setup_1 (begin_1 peer_role 9) (told_1 30 11);
    })) }
{}
