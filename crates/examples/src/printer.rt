//! A printer of messages, which knows attributes of one's own too.

use crate::own::{Location, Session, Version};
use std::alloc::Global;
use std::fmt;
use std::fmt::Write;
use stun_types::attribute::RawAttribute;
use stun_types::attribute_display;
use stun_types::message::{Message, StunParseError, StunWriteError};
use stun_types::prelude::*;
use stun_types::show::{DisplayWith, Registry};

/// Appends what a LOCATION prints: its name and its text. A text attribute by itself prints the number
/// of its type instead.
fn print_location(alloc: Global, raw: &RawAttribute<'_>, text: &mut String) -> fmt::Result {
    match Location::from_raw_ref(alloc, raw) {
        Ok(location) => {
            let location = location.text();
            write!(text, "LOCATION: {location}").map_err(|_| fmt::Error)
        }
        Err(StunParseError::OutOfMemory) => Err(fmt::Error),
        Err(_) => write!(text, "{raw}").map_err(|_| fmt::Error),
    }
}

/// The class, the method and the transaction ID of a message, and then each attribute that it shows
/// on a line of its own, after the offset of its header.
///
/// # Errors
///
/// `OutOfMemory` if an allocation failed.
pub fn lines(alloc: Global, message: &Message<'_>) -> Result<String, StunWriteError> {
    let mut registry = Registry::new(alloc);
    registry.add_name(Session::TYPE, "SESSION")?;
    registry.add_name(Version::TYPE, "VERSION")?;
    registry.add_name(Location::TYPE, "LOCATION")?;
    attribute_display!(registry, Session)?;
    attribute_display!(registry, Version)?;
    registry.add_display_impl(Location::TYPE, print_location)?;
    let mut text = String::new(alloc);
    let (class, method, id) = (message.class(), message.method(), message.transaction_id());
    write!(text, "{class:?} {method} {id}\n")?;
    for (offset, raw) in message.iter_attributes() {
        let shown = DisplayWith {
            registry: &registry,
            raw: &raw,
        };
        write!(text, "{offset}: {shown}\n")?;
    }
    Ok(text)
}
