//! A TURN server that relays, with a client and a peer that use it: an Allocate request, which is
//! challenged; a permission, and data both ways; a channel, and data both ways on it; the end. A line
//! of the output is a datagram: who sends it, who receives it, its bytes. The expected output, in
//! `stdout`, was computed by Python, with hmac and hashlib.
#![tactic(auto)]

mod relay;
mod walk;

use anyhow::Result;
use relay::Relay;
use std::alloc::Global;
use std::net::SocketAddr;
use stun_authentication::{NonceMaker, Policy, SecurityFeatures};
use stun_types::attribute::Realm;
use stun_types::message::{IntegrityKey, LongTermCredentials};
use turn_peers::Peers;
use turn_server::Access;
use walk::{PASSWORD, SERVER, USER, Walk};

/// The only user.
fn user(alloc: Global) -> Result<LongTermCredentials> {
    let user = String::from_str(alloc, USER)?;
    let password = String::from_str(alloc, PASSWORD)?;
    Ok(LongTermCredentials::new(user, password))
}

/// How the server authenticates. A program draws the secret.
fn access(alloc: Global) -> Result<Access> {
    let secret = IntegrityKey::new(alloc, &[7; 32], None)?;
    let features = SecurityFeatures {
        password_algorithms: true,
        username_anonymity: false,
    };
    let nonces = NonceMaker::new(secret, features, 600)?;
    let realm = Realm::new(alloc, "example.org")?;
    Ok(Access {
        nonces,
        realm,
        policy: Policy::default(),
        software: None,
        alternate: None,
    })
}

/// All steps of the walk.
fn go(walk: &mut Walk<'_>) -> Result<()> {
    let retry = walk.allocate()?;
    walk.permit(&retry)?;
    walk.bind(&retry)?;
    walk.end(&retry)
}

/// The lines of the whole exchange. A program draws the seed.
fn exchange(alloc: Global) -> Result<String> {
    let own: SocketAddr = SERVER.parse()?;
    let listening = [own];
    let peers = Peers {
        denied: &[],
        allowed: &[],
        listening: &listening,
    };
    let users = [user(alloc)?];
    let access = access(alloc)?;
    let relay = Relay::new(alloc, [1, 2], own, &access, &users, peers)?;
    let mut walk = Walk::begin(alloc, relay)?;
    go(&mut walk)?;
    Ok(walk.lines)
}

fn main(rt: HostRuntime) -> std::io::Result<()> {
    match exchange(rt.alloc()) {
        Ok(lines) => print!(rt; "{lines}"),
        Err(e) => println!(rt; "{e}"),
    }
}
