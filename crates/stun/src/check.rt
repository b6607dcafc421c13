//! `stun check`: what a client learns from a response.

ghost use Rattle.std.specs.Prelude.{◌≡◌, Some, Err, IfOk, IfErr};
ghost use Rattle.stun_types.specs.Message.{message_bytes};
ghost use Rattle.stun_transactions.specs.Beginning.{begin_fault};
ghost use Rattle.stun.specs.Checks.{IsSent, IsPolled, MapsTo, Finds};

use crate::end::{RunEnd, StunError};
use crate::finding::Finding;
use crate::input::{LONGEST_DATAGRAM, open_input, read_input};
use crate::names::push_name;
use crate::protection::protection_of;
use crate::readings::{push_reading, read_as};
use crate::secret::password_of;
use clap::ArgMatches;
use std::alloc::{AllocError, Global};
use std::io::{Read, Write};
use std::rt::{Env, Files};
use std::time::Duration;
use stun_programs::{RunError, read_all, write_all};
use stun_transactions::{
    Action, BeginError, Protection, Received, ResponsePolicy, Schedule, Transaction,
    response_address,
};
use stun_types::TransportType;
use stun_types::attribute::{
    AlternateServer, Attribute, AttributeStaticType, AttributeType, ErrorCode, Nonce, Realm,
    UnknownAttributes,
};
use stun_types::message::{Message, ShortTermCredentials};

/// A transaction that has begun, after its first poll.
fn polled(mut transaction: Transaction) -> Result<Transaction, RunError>
    ensures ok { IfOk result (IsPolled transaction) }
    ensures err { IfErr result (λ e. e ≡ RunError.NoMemory) }
{
    match transaction.poll(Duration::ZERO) {
        Action::Send => Ok(transaction),
        _ => Err(RunError::NoMemory),
    }
}

/// A transaction of a request, which is protected so, and is sent. The error says why none begins;
/// there is no other, since the first poll sends the request.
fn sent(request: &Message<'_>, protection: Protection) -> Result<Transaction, Option<BeginError>>
    ensures ok { IfOk result (IsSent (message_bytes request.now) protection) }
    ensures err { (e : BeginError) → result ≡ Err (Some e)
        → begin_fault protection (message_bytes request.now) ≡ Some e }
{
    let schedule = Schedule::new_default();
    let (usage, now) = (ResponsePolicy::default(), Duration::ZERO);
    match Transaction::new(
        request,
        schedule,
        TransportType::Udp,
        protection,
        usage,
        now,
    ) {
        Ok(transaction) => match polled(transaction) {
            Ok(transaction) => Ok(transaction),
            Err(_) => Err(None),
        },
        Err(error) => Err(Some(error)),
    }
}

/// The address that a success response reports.
fn mapped(alloc: Global, response: &Message<'_>) -> Finding
    ensures { MapsTo (message_bytes response.now) result }
{
    match response_address(alloc, response) {
        Ok(address) => Finding::Mapped(address),
        Err(_) => Finding::Unmapped,
    }
}

/// Appends an attribute, if the message shows one of its type.
fn push_shown(
    text: &mut String,
    message: &Message<'_>,
    atype: AttributeType,
) -> Result<(), AllocError> {
    let Some(raw) = message.raw_attribute(atype) else {
        return Ok(());
    };
    text.push_str("  ")?;
    push_name(text, atype)?;
    text.push_str(": ")?;
    push_reading(
        text,
        read_as(atype, message.transaction_id(), raw.value().as_bytes()),
    )?;
    text.push_str("\n")
}

/// Appends what an error response says: its code and reason, the types that were not understood,
/// another server, and what a 401 or a 438 asks for.
fn push_error(text: &mut String, response: &Message<'_>) -> Result<(), AllocError> {
    text.push_str("refused\n")?;
    for atype in [
        ErrorCode::TYPE,
        UnknownAttributes::TYPE,
        AlternateServer::TYPE,
        Realm::TYPE,
        Nonce::TYPE,
    ] {
        push_shown(text, response, atype)?;
    }
    Ok(())
}

/// What a response says of a request, which is protected so; of an error response the text says more
/// then. The error says that an allocation failed: the first poll sends the request.
#[tactic(auto, using(crate::proofs::ChecksLemmas::received_reported))]
fn checked(
    alloc: Global,
    text: &mut String,
    request: &Message<'_>,
    protection: Protection,
    response: &[u8],
) -> Result<Finding, RunError>
    ensures { IfOk result (Finds protection (message_bytes request.now) response.now) }
{
    let mut transaction = match sent(request, protection) {
        Ok(transaction) => transaction,
        Err(Some(error)) => return Ok(Finding::NotBegun(error)),
        Err(None) => return Err(RunError::NoMemory),
    };
    match transaction.receive(response, &[]) {
        Received::Success(response, _) => Ok(mapped(alloc, &response)),
        Received::Error(response, code, _) => {
            push_error(text, &response)?;
            Ok(Finding::Refused(code))
        }
        Received::Failed(failure) => Ok(Finding::Failed(failure)),
        Received::Discarded(reason, _) => Ok(Finding::Discarded(reason)),
        Received::NotForThis => Ok(Finding::NotAnswered),
    }
}

/// Appends the line of a finding. An error response has its lines already.
fn push_finding(text: &mut String, finding: Finding) -> Result<(), AllocError> {
    match finding {
        Finding::Refused(_) => Ok(()),
        Finding::Mapped(address) => write!(text, "{address}\n"),
        other => {
            text.push_str(other.words())?;
            text.push_str("\n")
        }
    }
}

/// Reads a response up to the end of `reader`, at most 65555 bytes, and writes what it says of a
/// request. `user` names the user if the request has a hash of the name instead, and `password` is
/// that of the request, if it is signed.
///
/// # Errors
///
/// `WriteFailed` if a prefix of the text was written. With every other error nothing was written:
/// `TooLong` if there are more bytes to read, `ReadFailed` if a read failed, `NoMemory` if an
/// allocation failed, and `Usage` if the request isn't signed by these credentials.
pub fn tell<R: Read, W: Write>(
    alloc: Global,
    request: &[u8],
    user: Option<&str>,
    password: Option<&str>,
    reader: &mut R,
    writer: &mut W,
) -> Result<RunEnd, StunError> {
    let response = read_all(alloc, LONGEST_DATAGRAM, reader)?;
    let mut text = String::new(alloc);
    let finding = match Message::from_bytes(request) {
        Ok(request) => {
            let protection = protection_of(alloc, &request, user, password)?;
            checked(alloc, &mut text, &request, protection, &response)?
        }
        Err(_) => Finding::NoRequest,
    };
    push_finding(&mut text, finding)?;
    write_all(text.as_bytes(), writer)?;
    Ok(RunEnd::Checked(finding))
}

/// Runs `stun check`.
pub fn run_check<S: AllocGlobal + Files + Env, R: Read, W: Write, E: Write>(
    system: &S,
    matches: &ArgMatches<'_>,
    reader: &mut R,
    writer: &mut W,
    errors: &mut E,
) -> Result<RunEnd, StunError> {
    let alloc = system.alloc();
    let path = matches.get_str("REQUEST");
    let request = read_input(system, path, LONGEST_DATAGRAM, reader, errors)?;
    let password = password_of(system, matches, errors)?;
    let user = matches.get_str("user");
    let password = password.as_ref().map(ShortTermCredentials::password);
    match matches.get_str("RESPONSE") {
        None => tell(alloc, &request, user, password, reader, writer),
        Some(path) => {
            let mut file = open_input(system, path, errors)?;
            tell(alloc, &request, user, password, &mut file, writer)
        }
    }
}
