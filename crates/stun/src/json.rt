//! A message as an object of JSON, whose fields the manual page of the program describes.

use crate::fault::{Fault, push_fault};
use crate::names::{method_name, push_algorithm, push_name};
use crate::readings::{Reading, pair_in, read_as};
use crate::refused::{Overrun, Refusal, push_refusal};
use crate::show::{Facts, class_words};
use crate::validation::{Validated, verdict_code, verdict_words};
use serde_json::{Value, json};
use std::alloc::{AllocError, Global};
use stun_base::Hex;
use stun_types::attribute::{Attribute, AttributeType, RawAttribute};
use stun_types::message::{Message, MessageHeader, TransactionId};

/// The name of a type as a text.
fn name_of(alloc: Global, atype: AttributeType) -> Result<Value, AllocError> {
    let mut name = String::new(alloc);
    push_name(&mut name, atype)?;
    Ok(Value::String(name))
}

/// The name of a password algorithm as a text.
fn algorithm_of(alloc: Global, number: u16) -> Result<Value, AllocError> {
    let mut name = String::new(alloc);
    push_algorithm(&mut name, number)?;
    Ok(Value::String(name))
}

/// The names of a list of types.
fn names_in(alloc: Global, list: &[u8]) -> Result<Value, AllocError> {
    let mut names = Vec::new(alloc);
    for entry in list.chunks_exact(2) {
        if let Some(number) = pair_in(entry) {
            names.push(name_of(alloc, AttributeType(number))?)?;
        }
    }
    Ok(Value::Array(names))
}

/// The names of a list of password algorithms.
fn algorithms_in(alloc: Global, list: &[u8]) -> Result<Value, AllocError> {
    let mut names = Vec::new(alloc);
    for entry in list.chunks_exact(4) {
        if let Some(number) = pair_in(entry) {
            names.push(algorithm_of(alloc, number)?)?;
        }
    }
    Ok(Value::Array(names))
}

/// Octets in hexadecimal.
fn hexadecimal(alloc: Global, value: &[u8]) -> Result<String, AllocError> {
    format!(in alloc; "{}", Hex(value))
}

/// The object of a value that isn't what its type asks for.
fn malformed_value(alloc: Global, fault: Fault, value: &[u8]) -> Result<Value, AllocError> {
    let octets = hexadecimal(alloc, value)?;
    let mut words = String::new(alloc);
    push_fault(&mut words, fault)?;
    let code = fault.code();
    json!(in alloc; {"code": code, "malformed": octets, "why": words})
}

/// A reading: a number, a text, a list, or an object.
fn reading_value(alloc: Global, reading: Reading<'_>) -> Result<Value, AllocError> {
    match reading {
        Reading::Number(number) => Ok(Value::from(number)),
        Reading::Text(text) => Value::try_from_str(alloc, text),
        Reading::Address(address) => Ok(Value::String(format!(in alloc; "{address}")?)),
        Reading::Failure(code, reason) => json!(in alloc; {"code": code, "reason": reason}),
        Reading::Algorithm(number) => algorithm_of(alloc, number),
        Reading::Algorithms(list) => algorithms_in(alloc, list),
        Reading::Types(list) => names_in(alloc, list),
        Reading::Empty => Ok(Value::Null),
        Reading::Octets(value) => Ok(Value::String(hexadecimal(alloc, value)?)),
        Reading::Malformed(fault, value) => malformed_value(alloc, fault, value),
    }
}

/// The object of an attribute.
fn attribute_value(
    alloc: Global,
    id: TransactionId,
    offset: usize,
    attribute: &RawAttribute<'_>,
) -> Result<Value, AllocError> {
    let atype = attribute.get_type();
    let bytes = attribute.value().as_bytes();
    let (number, octets) = (atype.value(), bytes.len());
    json!(in alloc; {
        "name": (name_of(alloc, atype)?), "octets": octets, "offset": offset, "type": number,
        "value": (reading_value(alloc, read_as(atype, id, bytes))?)
    })
}

/// The objects of the attributes that a message shows.
fn attribute_values(alloc: Global, message: &Message<'_>) -> Result<Value, AllocError> {
    let mut values = Vec::new(alloc);
    let id = message.transaction_id();
    for (offset, attribute) in message.iter_attributes() {
        values.push(attribute_value(alloc, id, offset, &attribute)?)?;
    }
    Ok(Value::Array(values))
}

/// The code of what a validation answers: null if an attribute wasn't checked.
fn code_value(alloc: Global, validated: Option<Validated>) -> Result<Value, AllocError> {
    match validated {
        None => Ok(Value::Null),
        Some(validated) => Value::try_from_str(alloc, verdict_code(validated)),
    }
}

/// The codes of what the validation answers by each integrity attribute.
fn code_values(alloc: Global, facts: &Facts) -> Result<(Value, Value), AllocError> {
    let (sha1, sha256) = match (facts.sha1, facts.sha256) {
        (None, None) => (None, None),
        (Some(_), None) => (facts.validated, None),
        (_, Some(_)) => (facts.first, facts.validated),
    };
    Ok((code_value(alloc, sha1)?, code_value(alloc, sha256)?))
}

/// What the validation answers: null if no credentials are given, or an object.
fn validated_value(alloc: Global, facts: &Facts) -> Result<Value, AllocError> {
    let Some(validated) = facts.validated else {
        return Ok(Value::Null);
    };
    let (sha1, sha256) = code_values(alloc, facts)?;
    let (valid, code) = (validated.is_ok(), verdict_code(validated));
    let words = verdict_words(facts.last(), validated);
    json!(in alloc; {
        "code": code, "sha1": sha1, "sha256": sha256, "valid": valid, "verdict": words
    })
}

/// The object of a message.
fn message_value(alloc: Global, message: &Message<'_>, facts: &Facts) -> Result<Value, AllocError> {
    let (class, method) = (class_words(message.class()), message.method());
    let (name, number) = (method_name(method), method.value());
    let octets = message.as_bytes().len();
    let (fingerprint, ignored) = (facts.fingerprint, facts.ignored);
    let malformed = facts.malformed;
    json!(in alloc; {
        "attributes": (attribute_values(alloc, message)?), "class": class,
        "fingerprint": fingerprint,
        "id": (hexadecimal(alloc, &message.transaction_id().to_bytes())?),
        "ignored_octets": ignored,
        "integrity": {"sha1": (Value::from(facts.sha1)), "sha256": (Value::from(facts.sha256))},
        "malformed": malformed, "method": name, "method_number": number, "octets": octets,
        "validated": (validated_value(alloc, facts)?)
    })
}

/// Appends a value and a line break.
fn push_line(alloc: Global, text: &mut String, value: &Value) -> Result<(), AllocError> {
    text.push_str(value.to_string(alloc)?.as_str())?;
    text.push_str("\n")
}

/// Appends the line of a message.
pub fn push_object(
    alloc: Global,
    text: &mut String,
    message: &Message<'_>,
    facts: &Facts,
) -> Result<(), AllocError> {
    push_line(alloc, text, &message_value(alloc, message, facts)?)
}

/// Appends the line that says why something is no message.
pub fn push_error(
    alloc: Global,
    text: &mut String,
    code: &'static str,
    words: &str,
) -> Result<(), AllocError> {
    let object = json!(in alloc; {
        "attribute": null, "code": code, "error": words, "header": null
    })?;
    push_line(alloc, text, &object)
}

/// The object of a header; null if octets have none.
fn header_value(alloc: Global, bytes: &[u8]) -> Result<Value, AllocError> {
    let Ok(header) = MessageHeader::from_bytes(bytes) else {
        return Ok(Value::Null);
    };
    let class = class_words(header.get_type().class());
    let method = header.get_type().method();
    let (name, number) = (method_name(method), method.value());
    let (field, octets) = (header.data_length(), bytes.len());
    json!(in alloc; {
        "class": class, "id": (hexadecimal(alloc, &header.transaction_id().to_bytes())?),
        "length_field": field, "method": name, "method_number": number, "octets": octets
    })
}

/// The object of an attribute that isn't whole; null if there is none.
fn overrun_value(alloc: Global, overrun: Option<Overrun>) -> Result<Value, AllocError> {
    let Some(overrun) = overrun else {
        return Ok(Value::Null);
    };
    let (offset, left) = (overrun.offset, overrun.left);
    let Some((atype, octets)) = overrun.stated else {
        return json!(in alloc; {
            "left": left, "name": null, "octets": null, "offset": offset, "type": null
        });
    };
    let number = atype.value();
    json!(in alloc; {
        "left": left, "name": (name_of(alloc, atype)?), "octets": octets, "offset": offset,
        "type": number
    })
}

/// Appends the line of octets that are no message.
pub fn push_refused_object(
    alloc: Global,
    text: &mut String,
    bytes: &[u8],
    refusal: Refusal,
) -> Result<(), AllocError> {
    let mut words = String::new(alloc);
    push_refusal(&mut words, refusal)?;
    let attribute = overrun_value(alloc, refusal.overrun())?;
    let header = header_value(alloc, bytes)?;
    let code = refusal.code();
    let object = json!(in alloc; {
        "attribute": attribute, "code": code, "error": words, "header": header
    })?;
    push_line(alloc, text, &object)
}
