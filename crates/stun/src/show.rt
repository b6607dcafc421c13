//! A message as a block of lines.

ghost use Rattle.std.specs.Prelude.{◌≡◌, ◌||◌, is_some, IfOk, option_map};
ghost use Rattle.stun_attributes.specs.Raw.{raw_type, raw_value};
ghost use Rattle.stun_types.specs.Message.{message_bytes};
ghost use Rattle.stun.specs.Shows.{ValidatesBy};
ghost use Rattle.stun.specs.Values.{fault_of, shows_malformed};

use crate::names::{method_name, push_name};
use crate::readings::{Reading, push_reading, read_as};
use crate::validation::{Validated, validated, verdict_words};
use crate::values::fault_of;
use std::alloc::{AllocError, Global};
use stun_base::Hex;
use stun_types::attribute::{
    Attribute, AttributeStaticType, AttributeType, Fingerprint, MessageIntegrity,
    MessageIntegritySha256, RawAttribute,
};
use stun_types::message::{
    IntegrityAlgorithm, Message, MessageClass, MessageHeader, MessageIntegrityCredentials,
    TransactionId,
};

/// What was found out of a message, besides its header and its attributes.
#[derive(Clone, Copy)]
pub struct Facts {
    /// The octets of the attributes that are ignored.
    pub ignored: usize,
    /// Whether the message shows a FINGERPRINT, which is right then.
    pub fingerprint: bool,
    /// Whether a value that it shows isn't what its type asks for.
    pub malformed: bool,
    /// The octets of the HMAC of each integrity attribute that is shown.
    pub sha1: Option<usize>,
    pub sha256: Option<usize>,
    /// What the validation answers, by the last integrity attribute, if credentials are given.
    pub validated: Option<Validated>,
    /// What it answers by MESSAGE-INTEGRITY, if that is shown before the last.
    pub first: Option<Validated>,
}

impl Facts {
    /// The algorithm of the last integrity attribute.
    pub fn last(&self) -> IntegrityAlgorithm {
        match self.sha256 {
            Some(_) => IntegrityAlgorithm::Sha256,
            None => IntegrityAlgorithm::Sha1,
        }
    }
}

/// The number of octets in the value of the first attribute of this type.
fn length_of<A: AttributeStaticType>(message: &Message<'_>) -> Option<usize> {
    Some(message.raw_attribute(A::TYPE)?.value().as_bytes().len())
}

/// The octets of a message that are neither its header nor an attribute that it shows.
fn ignored_in(message: &Message<'_>) -> usize {
    let mut ignored = message.as_bytes().len().saturating_sub(20);
    for (_, attribute) in message.iter_attributes() {
        ignored = ignored.saturating_sub(attribute.padded_len());
    }
    ignored
}

/// Whether the value of an attribute isn't what its type asks for.
fn has_fault(attribute: &RawAttribute<'_>) -> bool
    ensures { result ≡ is_some (fault_of (raw_type attribute.now) (raw_value attribute.now)) }
{
    fault_of(attribute.get_type(), attribute.value().as_bytes()).is_some()
}

/// Whether one of two is true.
fn either(one: bool, other: bool) -> bool
    ensures { result ≡ (one || other) }
{
    one || other
}

/// Whether a value that a message shows isn't what its type asks for.
fn shows_malformed(message: &Message<'_>) -> bool
    ensures { result ≡ shows_malformed (message_bytes message.now) }
{
    let mut found = false;
    for (_offset, attribute) in message.iter_attributes() {
        found = either(found, has_fault(&attribute));
    }
    found
}

/// What the validation of a message answers, if credentials are given.
fn last_validated(
    alloc: Global,
    message: &Message<'_>,
    credentials: Option<&MessageIntegrityCredentials>,
) -> Result<Option<Validated>, AllocError>
    ensures { IfOk result (ValidatesBy
        (option_map (λ given. given.now) credentials.entry) (message_bytes message.now)) }
{
    match credentials {
        None => Ok(None),
        Some(credentials) => Ok(Some(validated(alloc, message, credentials, None)?)),
    }
}

/// What it answers by MESSAGE-INTEGRITY, if that and MESSAGE-INTEGRITY-SHA256 are shown.
fn first_validated(
    alloc: Global,
    message: &Message<'_>,
    credentials: Option<&MessageIntegrityCredentials>,
) -> Result<Option<Validated>, AllocError> {
    let both = message.has_attribute(MessageIntegrity::TYPE)
        && message.has_attribute(MessageIntegritySha256::TYPE);
    match credentials {
        Some(credentials) if both => {
            let checked = Some(IntegrityAlgorithm::Sha1);
            Ok(Some(validated(alloc, message, credentials, checked)?))
        }
        _ => Ok(None),
    }
}

/// Finds out what can be found out of a message.
pub fn facts_of(
    alloc: Global,
    message: &Message<'_>,
    credentials: Option<&MessageIntegrityCredentials>,
) -> Result<Facts, AllocError>
    ensures validated { IfOk result (λ facts. ValidatesBy
        (option_map (λ given. given.now) credentials.entry) (message_bytes message.now)
        facts.validated) }
    ensures malformed { IfOk result
        (λ facts. facts.malformed ≡ shows_malformed (message_bytes message.now)) }
{
    Ok(Facts {
        ignored: ignored_in(message),
        fingerprint: message.has_attribute(Fingerprint::TYPE),
        malformed: shows_malformed(message),
        sha1: length_of::<MessageIntegrity>(message),
        sha256: length_of::<MessageIntegritySha256>(message),
        validated: last_validated(alloc, message, credentials)?,
        first: first_validated(alloc, message, credentials)?,
    })
}

/// The words for a class.
pub fn class_words(class: MessageClass) -> &'static str {
    match class {
        MessageClass::Request => "request",
        MessageClass::Indication => "indication",
        MessageClass::Success => "success response",
        MessageClass::Error => "error response",
    }
}

/// Appends the line of a header.
pub fn push_header(
    text: &mut String,
    header: &MessageHeader,
    length: usize,
) -> Result<(), AllocError> {
    let class = class_words(header.get_type().class());
    let method = header.get_type().method();
    let (name, number) = (method_name(method), method.value());
    let bytes = header.transaction_id().to_bytes();
    let id = Hex(&bytes);
    if name == "unknown" {
        write!(
            text,
            "unknown method {number} {class}, ID {id}, {length} octets\n"
        )
    } else {
        write!(text, "{name} {class}, ID {id}, {length} octets\n")
    }
}

/// Appends what precedes the HMAC in the line of an integrity attribute.
fn push_length(text: &mut String, atype: AttributeType, length: usize) -> Result<(), AllocError> {
    if atype == MessageIntegritySha256::TYPE && length < 32 {
        return write!(text, "cut to {length} octets, ");
    }
    if atype == MessageIntegrity::TYPE || atype == MessageIntegritySha256::TYPE {
        return write!(text, "{length} octets, ");
    }
    Ok(())
}

/// Appends the value of an attribute.
fn push_value(
    text: &mut String,
    id: TransactionId,
    atype: AttributeType,
    value: &[u8],
) -> Result<(), AllocError> {
    if atype == Fingerprint::TYPE {
        return text.push_str("right");
    }
    let reading = read_as(atype, id, value);
    if !matches!(reading, Reading::Malformed(_, _)) {
        push_length(text, atype, value.len())?;
    }
    push_reading(text, reading)
}

/// Appends the line of an attribute.
fn push_attribute(
    text: &mut String,
    id: TransactionId,
    offset: usize,
    attribute: &RawAttribute<'_>,
) -> Result<(), AllocError> {
    let atype = attribute.get_type();
    write!(text, "{offset:>6}  ")?;
    push_name(text, atype)?;
    text.push_str(": ")?;
    push_value(text, id, atype, attribute.value().as_bytes())?;
    text.push_str("\n")
}

/// Appends the line of what a validation of an integrity attribute answers.
fn push_verdict(
    text: &mut String,
    checked: IntegrityAlgorithm,
    validated: Option<Validated>,
) -> Result<(), AllocError> {
    match validated {
        None => Ok(()),
        Some(validated) => {
            let words = verdict_words(checked, validated);
            write!(text, "        {words}\n")
        }
    }
}

/// Appends the line of the octets that are ignored.
fn push_ignored(text: &mut String, facts: &Facts) -> Result<(), AllocError> {
    let ignored = facts.ignored;
    if ignored == 0 {
        return Ok(());
    }
    let last = match (facts.sha1, facts.sha256) {
        (None, None) => "FINGERPRINT",
        _ => "the last integrity attribute",
    };
    write!(text, "        {ignored} octets after {last} ignored\n")
}

/// Appends the block of a message.
pub fn push_message(
    text: &mut String,
    message: &Message<'_>,
    facts: &Facts,
) -> Result<(), AllocError> {
    push_header(text, &message.header(), message.as_bytes().len())?;
    let id = message.transaction_id();
    for (offset, attribute) in message.iter_attributes() {
        push_attribute(text, id, offset, &attribute)?;
    }
    push_ignored(text, facts)?;
    push_verdict(text, IntegrityAlgorithm::Sha1, facts.first)?;
    push_verdict(text, facts.last(), facts.validated)
}
