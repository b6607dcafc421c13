//! What holds of a TURN client and a TURN server in the bytes that pass between them (RFC 8656): each reads what the
//! other writes as what it says.
#![tactic(auto)]

mod laws;

pub use laws::{
    challenge_is_heard, channel_data_is_read, data_crosses, data_is_read, fit_is_heard, goes_on,
    requests_are_read, responses_are_judged,
};
