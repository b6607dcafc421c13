//! `stun ask`: a binding request, as a client writes it.

use crate::arguments::{id_in, login_in};
use crate::end::{RunEnd, StunError};
use crate::engine::ask;
use crate::input::LONGEST_DATAGRAM;
use crate::query::Query;
use crate::secret::password_of;
use clap::ArgMatches;
use std::alloc::Global;
use std::io::{Read, Write};
use std::random::RandomSource;
use std::rt::{Env, Files};
use stun_authentication::{NoRetry, answer_challenge, challenge_of};
use stun_programs::{RunError, read_all, write_all};
use stun_types::attribute::PasswordAlgorithmValue;
use stun_types::message::{
    BINDING, Message, MessageClass, MessageType, MessageWriteVec, StunWriteError, TransactionId,
};
use stun_types::prelude::*;

/// The password algorithms that a client supports.
const SUPPORTED: [PasswordAlgorithmValue; 2] = [
    PasswordAlgorithmValue::SHA256,
    PasswordAlgorithmValue::MD5,
];

/// A transaction ID that is drawn at random, if the system gives random octets.
fn random_id<S: RandomSource>(system: &S) -> Option<TransactionId> {
    let mut bytes = [0; 12];
    match system.fill_bytes(&mut bytes) {
        Ok(()) => Some(TransactionId::from_bytes(&bytes)),
        Err(_) => None,
    }
}

/// The transaction ID that is given, or one that is drawn at random.
fn id_of<S: RandomSource>(system: &S, given: Option<&str>) -> Option<TransactionId> {
    match given {
        None => random_id(system),
        Some(text) => id_in(text),
    }
}

/// How the run fails if there is no transaction ID.
fn no_id(is_given: bool) -> StunError {
    if is_given {
        StunError::Usage("--id is no transaction ID: give at most 24 hexadecimal digits")
    } else {
        StunError::Run(RunError::ReadFailed)
    }
}

/// The words for why no further request is sent.
fn words_of(why: NoRetry) -> &'static str {
    match why {
        NoRetry::NotAChallenge => "no 401 or 438: pipe in the error response of the server",
        NoRetry::BidDown => {
            "given up: the nonce promises PASSWORD-ALGORITHMS, and the response shows none"
        }
        NoRetry::Incomplete => "given up: the response lacks a REALM or a NONCE that can be read",
        NoRetry::NoAlgorithm => "given up: the server asks for algorithms that are unknown",
        NoRetry::SameCredentials => "given up: the server has refused these credentials",
    }
}

/// How the run fails if a request can't be written.
fn failure_of(error: StunWriteError) -> StunError {
    match error {
        StunWriteError::OutOfMemory => StunError::Run(RunError::NoMemory),
        _ => StunError::Usage("the user name is too long: give one of at most 513 octets"),
    }
}

/// The binding request that answers a challenge: the name of the user, or its hash, what the
/// challenge asks for, an HMAC, and a FINGERPRINT.
fn answer_to(
    alloc: Global,
    id: TransactionId,
    challenge: &[u8],
    user: &str,
    password: &str,
) -> Result<Result<Vec<u8>, NoRetry>, StunWriteError> {
    let Ok(response) = Message::from_bytes(challenge) else {
        return Ok(Err(NoRetry::NotAChallenge));
    };
    let challenge = match challenge_of(&response, &SUPPORTED, None, false) {
        Ok(challenge) => challenge,
        Err(why) => return Ok(Err(why)),
    };
    let mtype = MessageType::from_class_method(MessageClass::Request, BINDING);
    let mut request = Message::builder(mtype, id, MessageWriteVec::new(alloc))?;
    answer_challenge(alloc, &challenge, user, password, true, &mut request)?;
    Ok(Ok(request.finish()))
}

/// Continues from a challenge that is read.
fn ask_again<R: Read, W: Write>(
    alloc: Global,
    id: TransactionId,
    user: &str,
    password: &str,
    reader: &mut R,
    writer: &mut W,
) -> Result<RunEnd, StunError> {
    let challenge = read_all(alloc, LONGEST_DATAGRAM, reader)?;
    match answer_to(alloc, id, &challenge, user, password) {
        Ok(Ok(request)) => {
            write_all(&request, writer)?;
            Ok(RunEnd::Asked)
        }
        Ok(Err(why)) => Ok(RunEnd::NotAsked(words_of(why))),
        Err(error) => Err(failure_of(error)),
    }
}

/// Asks as a user: continues from a challenge, or signs by the password itself.
fn ask_as<R: Read, W: Write>(
    alloc: Global,
    id: TransactionId,
    user: &str,
    password: &str,
    is_challenged: bool,
    reader: &mut R,
    writer: &mut W,
) -> Result<RunEnd, StunError> {
    if is_challenged {
        return ask_again(alloc, id, user, password, reader, writer);
    }
    match login_in(alloc, user, password) {
        Ok(login) => {
            let query = Query {
                id,
                login: Some(login),
            };
            Ok(ask(alloc, &query, writer)?)
        }
        Err(RunError::NoMemory) => Err(StunError::Run(RunError::NoMemory)),
        Err(_) => Err(StunError::Usage(
            "the user name is empty or too long: give one of at most 513 octets",
        )),
    }
}

/// Runs `stun ask`.
pub fn run_ask<S: AllocGlobal + Files + Env + RandomSource, R: Read, W: Write, E: Write>(
    system: &S,
    matches: &ArgMatches<'_>,
    reader: &mut R,
    writer: &mut W,
    errors: &mut E,
) -> Result<RunEnd, StunError> {
    let alloc = system.alloc();
    let given = matches.get_str("id");
    let Some(id) = id_of(system, given) else {
        return Err(no_id(given.is_some()));
    };
    let Some(user) = matches.get_str("user") else {
        if matches.contains_id("password") || matches.contains_id("password-file") {
            return Err(StunError::Usage("a password is given, and no user: name it by --user"));
        }
        let query = Query { id, login: None };
        return Ok(ask(alloc, &query, writer)?);
    };
    let Some(password) = password_of(system, matches, errors)? else {
        return Err(StunError::Usage(
            "a user is named, and no password: give it by --password-file or STUN_PASSWORD",
        ));
    };
    let is_challenged = matches.get_flag("challenge");
    let password = password.password();
    ask_as(alloc, id, user, password, is_challenged, reader, writer)
}
