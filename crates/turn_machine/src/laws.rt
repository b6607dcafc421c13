//! The laws. Each function does nothing: its contract is the law.

mod clients;
mod granting;
mod places;
mod relaying;
mod reservations;
mod sessions;

pub use clients::{clients_are_apart, strangers_get_little};
pub use granting::{fit_is_granted, quotas_protect, refusals_are_exact};
pub use places::{places_are_for_the_live, table_is_bounded};
pub use relaying::{
    bound_channels_are_used, flows_are_right, relaying_is_warranted, what_is_permitted_works,
};
pub use reservations::reservations_are_kept;
pub use sessions::{sessions_go_so, tests_are_equality};
