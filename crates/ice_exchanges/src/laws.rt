//! The laws. Each function does nothing: its contract is the law.

mod judging;
mod lasting;
mod meeting;
mod roles;
mod sending;
mod settled;
mod working;

pub use judging::{checks_are_judged, conflicts_are_judged, successes_are_judged};
pub use lasting::{
    checks_are_followed, consent_is_kept, consent_lasts, consent_takes_turns, nominations_follow,
    runs_are_the_machines,
};
pub use meeting::agents_will_meet;
pub use roles::{roles_are_decided_alike, roles_settle};
pub use sending::{data_is_consented, silence_gets_little, strangers_change_nothing};
pub use settled::{agent_is_bounded, lost_consent_is_final, selection_is_agreed};
pub use working::agent_works;
