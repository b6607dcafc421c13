//! What arguments mean: an address, a transaction ID, and a login.

ghost use Rattle.std.specs.Prelude.{◌≡◌, ◌==◌, ℕ, slice_index, MatchOption, MatchResult};
ghost use Rattle.std.specs.declared.net.socket_addr.SocketAddr.{SocketAddr};
ghost use Rattle.stun.specs.Arguments.{without_brackets, IsSource, IsIdText, IsLogin, IsLoginRefused};

use crate::query::Login;
use std::alloc::Global;
use std::net::{IpAddr, SocketAddr};
use stun_keys::keys::key_of_bytes;
use stun_programs::RunError;
use stun_types::attribute::Username;
use stun_types::message::{StunWriteError, TransactionId};

/// A text without the square brackets around it, if there are any.
fn without_brackets(text: &[u8]) -> &[u8]
    ensures { result.now ≡ without_brackets text.now }
{
    match text {
        [b'[', inner @ .., b']'] => inner,
        _ => text,
    }
}

/// The address of an IP address, in square brackets or without them, and a port.
pub fn source_in(address: &str, port: &str) -> Option<SocketAddr>
    ensures { MatchOption result
        ((source : SocketAddr) → ¬ (IsSource address.now port.now source))
        (IsSource address.now port.now) }
{
    let ip = IpAddr::parse_ascii(without_brackets(address.as_bytes())).ok()?;
    let port = port.parse::<u16>().ok()?;
    Some(SocketAddr::new(ip, port))
}

/// Whether a text begins with a plus, which `from_str_radix` skips.
fn has_plus(text: &[u8]) -> bool
    ensures { result ≡ (slice_index text.now 0 == 43) }
{
    matches!(text, [b'+', ..])
}

/// The transaction ID that a text spells in hexadecimal, in at most 24 digits and with no sign.
#[tactic(auto, using(crate::proofs::ArgumentsLemmas::signed, crate::proofs::ArgumentsLemmas::refused, crate::proofs::ArgumentsLemmas::read))]
pub fn id_in(text: &str) -> Option<TransactionId>
    ensures { MatchOption result
        ((id : ℕ) → ¬ (IsIdText text.now id))
        (IsIdText text.now) }
{
    if text.len() > 24 {
        return None;
    }
    if has_plus(text.as_bytes()) {
        return None;
    }
    let number = u128::from_str_radix(text, 16).ok()?;
    Some(TransactionId::from(number))
}

/// The login of a user name and a password. Neither may be empty, and the name has at most 513
/// bytes.
pub fn login_in(alloc: Global, user: &str, password: &str) -> Result<Login, RunError>
    ensures { MatchResult result
        (IsLogin user.now password.now)
        (IsLoginRefused user.now password.now) }
{
    if user.is_empty() || password.is_empty() {
        return Err(RunError::Usage);
    }
    let username = match Username::new(alloc, user) {
        Ok(username) => username,
        Err(StunWriteError::OutOfMemory) => return Err(RunError::NoMemory),
        Err(_) => return Err(RunError::Usage),
    };
    let key = key_of_bytes(alloc, password.as_bytes(), None)?;
    Ok(Login { username, key })
}
