//! Authentication by STUN's two credential mechanisms (RFC 8489, section 9): the checks of a server
//! and of a client, without sockets, without storage and without a clock.
//!
//! A server calls [`authenticate_short_term`] or [`authenticate_long_term`] with a request, which
//! returns whether it is accepted, as whose, and with which key, or how it is refused;
//! [`refuse_short_term`] and [`refuse_long_term`] write that response, and
//! [`Accepted::finish_reply`] signs the reply to an accepted request. A client calls
//! [`challenge_of`] with a 401 or a 438, which returns what its next request has to carry, and
//! [`answer_challenge`] writes that. The server's users and nonces are looked up through traits of
//! one method each.
//!
//! A login, with the messages of server and client:
//!
//! ```
//! use rand::rngs::StdRng;
//! use rand::{Rng, make_rng};
//! use std::net::SocketAddr;
//! use stun_authentication::{
//!     Authentication, Challenge, Logins, NonceMaker, Policy, Refusal, SecurityFeatures,
//!     answer_challenge, authenticate_long_term, challenge_of, refuse_long_term,
//! };
//! use stun_types::attribute::{PasswordAlgorithmValue, Realm};
//! use stun_types::message::{
//!     BINDING, IntegrityAlgorithm, IntegrityKey, LongTermCredentials, Message, MessageWriteVec,
//! };
//! use stun_types::prelude::*;
//!
//! // The server: its users, its secret and its password algorithms.
//! let name = String::from_str(alloc, "alice")?;
//! let users = [LongTermCredentials::new(name, String::from_str(alloc, "wonderland")?)];
//! let mut rng: StdRng = make_rng(&rt)?;
//! let mut secret = [0; 32];
//! rng.fill_bytes(&mut secret);
//! let features = SecurityFeatures { password_algorithms: true, username_anonymity: false };
//! let secret = IntegrityKey::new(alloc, &secret, None)?;
//! let maker = NonceMaker::new(secret, features, 600)?;
//! let algorithms = [PasswordAlgorithmValue::SHA256, PasswordAlgorithmValue::MD5];
//! let (now, client): (u64, SocketAddr) = (1000, "192.0.2.1:32853".parse()?);
//!
//! // It refuses the first request of a client, which isn't signed, with 401.
//! let vector = MessageWriteVec::new(alloc);
//! let first = Message::builder_request(BINDING, &mut rng, vector)?.finish();
//! let first = Message::from_bytes(&first)?;
//! let nonce = maker.make(alloc, now, &client)?;
//! let realm = Realm::new(alloc, "example.org")?;
//! let challenge = Challenge::new(alloc, &realm, &nonce, &algorithms)?;
//! let (refusal, vector) = (Refusal::Unauthenticated, MessageWriteVec::new(alloc));
//! let refused = refuse_long_term(alloc, &first, refusal, &challenge, vector)?.finish();
//!
//! // The client answers with its name and password.
//! let response = Message::from_bytes(&refused)?;
//! let retry = challenge_of(&response, &algorithms, None, false)?;
//! let mut second = Message::builder_request(BINDING, &mut rng, MessageWriteVec::new(alloc))?;
//! answer_challenge(alloc, &retry, "alice", "wonderland", true, &mut second)?;
//! let second = second.finish();
//!
//! // The server accepts the second request.
//! let request = Message::from_bytes(&second)?;
//! let nonces = maker.nonces(now, client, &algorithms);
//! let (policy, logins) = (Policy::default(), Logins::new(&users));
//! let answer =
//!     authenticate_long_term(alloc, &request, "example.org", policy, &nonces, &logins)?;
//! let Authentication::Accepted(accepted) = answer else {
//!     return Err("the request is refused".into());
//! };
//! assert_eq!(rt; accepted.reply_algorithm, IntegrityAlgorithm::Sha256);
//! ```
#![tactic(auto)]

mod algorithms;
mod answer;
#[doc(hidden)]
pub mod attributes;
mod base64;
mod challenge;
mod codes;
mod cookie;
mod finishing;
mod identity;
mod laws;
mod login;
mod logins;
mod long_term;
mod lookups;
mod nonces;
mod policy;
mod refusing;
mod retry;
mod short_term;
mod writing;

pub use answer::{Accepted, Authentication, Refusal};
pub use challenge::{Challenge, ChallengeError};
pub use codes::{is_challenge, response_code, shown_code};
pub use cookie::{SecurityFeatures, nonce_cookie, security_features};
pub use finishing::finish_reply_with_key;
pub use identity::Identity;
pub use laws::{
    accepted_is_authentic, cookie_is_read, nonces_are_texts, nonces_are_timed, refusals_are_short,
    what_counts_serves_both,
};
pub use login::{answer_challenge, answer_challenge_with_key, key_for};
pub use logins::Logins;
pub use long_term::{authenticate_long_term, needs_key};
pub use lookups::{LongTermKeys, NonceState, Nonces, ShortTermKeys};
pub use nonces::{Freshness, NonceMaker, NoncesOf, SECRET_MIN, SecretError};
pub use policy::{Policy, has_least_length};
pub use refusing::{refuse_long_term, refuse_short_term};
pub use retry::{NoRetry, Retry, challenge_of, is_bid_down};
pub use short_term::authenticate_short_term;
