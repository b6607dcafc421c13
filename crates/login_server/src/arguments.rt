//! What the arguments mean.

use std::env::Args;
use std::net::{IpAddr, SocketAddr};
use stun_authentication::Policy;
use stun_types::message::IntegrityAlgorithm;

/// The address of an IP address and a port.
fn source_in(address: &str, port: &str) -> Option<SocketAddr> {
    let ip = IpAddr::parse_ascii(address.as_bytes()).ok()?;
    let port = port.parse::<u16>().ok()?;
    Some(SocketAddr::new(ip, port))
}

/// What the program is to do.
#[derive(Drop)]
pub struct LoginTask {
    pub(crate) source: SocketAddr,
    pub(crate) policy: Policy,
    pub(crate) nonces: Option<(String, String)>,
}

/// The policy that a word makes of another, if it is one of those that change it.
fn changed(policy: Policy, word: &str) -> Option<Policy> {
    match word {
        "sha1" => Some(Policy {
            algorithm: Some(IntegrityAlgorithm::Sha1),
            ..policy
        }),
        "sha256" => Some(Policy {
            algorithm: Some(IntegrityAlgorithm::Sha256),
            ..policy
        }),
        "cut" => Some(Policy {
            min_hmac_length: 16,
            ..policy
        }),
        _ => None,
    }
}

/// The task that the arguments give: an address and a port, words that change the policy,
/// and then no nonces, or the nonce of the moment and the one before it.
pub fn login_task_of(arguments: Args) -> Option<LoginTask> {
    let mut arguments = arguments;
    let address = arguments.next()?;
    let port = arguments.next()?;
    let source = source_in(address.as_str(), port.as_str())?;
    let mut policy = Policy::default();
    let mut fresh = None;
    for word in arguments.by_ref() {
        match changed(policy, word.as_str()) {
            Some(other) => policy = other,
            None => {
                fresh = Some(word);
                break;
            }
        }
    }
    let nonces = match fresh {
        None => None,
        Some(fresh) => Some((fresh, arguments.next()?)),
    };
    match arguments.next() {
        Some(_) => None,
        None => Some(LoginTask {
            source,
            policy,
            nonces,
        }),
    }
}
