//! The laws. Each function does nothing: its contract is the law.

mod crossing;
mod data;
mod going;
mod hearing;
mod requests;
mod responses;

pub use crossing::data_crosses;
pub use data::{channel_data_is_read, data_is_read};
pub use going::goes_on;
pub use hearing::{challenge_is_heard, fit_is_heard};
pub use requests::requests_are_read;
pub use responses::responses_are_judged;
