//! What holds of a whole exchange: of a request, the server's reply and what the client reads of it;
//! of who sent a message; and of a login (RFC 8489, sections 9.1 and 9.2).
#![tactic(auto)]

mod forging;
mod laws;
mod logins;

pub use forging::{forgery_is_explicit, sha256_is_not_cut_down, sixteen_bytes_are_enough};
pub use laws::{client_learns_its_address, client_learns_the_error, learned_addresses_are_plain};
pub use logins::{
    challenge_is_read, login_is_accepted, logins_have_keys, made_nonces_are_offered,
    premises_are_met, short_term_login_is_accepted,
};
