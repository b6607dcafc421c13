//! What holds of ICE agents in the bytes that pass between them (RFC 8445, section 7): of one agent, whatever is
//! called and comes; and of two that check each other, of which each judges what the other writes to be what it says.
#![tactic(auto)]

mod laws;

pub use laws::{
    agent_is_bounded, agent_works, agents_will_meet, checks_are_followed, checks_are_judged,
    conflicts_are_judged, consent_is_kept, consent_lasts, consent_takes_turns, data_is_consented,
    lost_consent_is_final, nominations_follow, roles_are_decided_alike, roles_settle,
    runs_are_the_machines, selection_is_agreed, silence_gets_little, strangers_change_nothing,
    successes_are_judged,
};
