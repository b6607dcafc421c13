//! The laws. Each function does nothing: its contract is the law.

mod bounds;
mod checking;
mod consent;
mod meeting;
mod selection;
mod sending;

pub use bounds::agent_is_bounded;
pub use checking::{agent_works, checks_are_followed, exchanges_count, link_local_is_apart};
pub use consent::{consent_is_kept, consent_lasts, consent_takes_turns, lost_consent_is_final};
pub use meeting::{agents_meet, agents_will_meet};
pub use selection::{nominations_follow, roles_settle, selection_is_agreed};
pub use sending::{sending_is_warranted, silence_gets_little, strangers_change_nothing};
