//! Why a line is refused.

use std::fmt;
use thiserror::Error;

/// What is expected at a place of a line.
#[derive(Clone, Copy, Debug, PartialEq, Eq)]
pub enum Wanted {
    /// An attribute of ICE that this call reads, with a value after a colon if it has one.
    Attribute,
    /// A foundation: 1 to 32 letters, digits, `+` and `/`.
    Foundation,
    /// A component: at most 3 digits, 1 to 256.
    Component,
    /// A transport: a token.
    Transport,
    /// A priority: at most 10 digits, 1 to 2147483647.
    Priority,
    /// The address of the candidate: an IPv4 address, an IPv6 address, or a name of a host.
    Address,
    /// The port of the candidate: digits, 0 to 65535.
    Port,
    /// The word `typ`.
    Typ,
    /// The type of the candidate: a token.
    Kind,
    /// The related address, after `raddr`: as the address of the candidate.
    RelatedAddress,
    /// The related port, after `rport`: digits, 0 to 65535.
    RelatedPort,
    /// The name of an extension: a token other than `raddr` and `rport`.
    ExtensionName,
    /// The value of an extension: visible characters of ASCII, or nothing.
    ExtensionValue,
    /// A username fragment: 4 to 256 letters, digits, `+` and `/`.
    UsernameFragment,
    /// A password: 22 to 256 letters, digits, `+` and `/`.
    Password,
    /// A tag of `ice-options`: letters, digits, `+` and `/`, at least one.
    IceOption,
}

impl fmt::Display for Wanted {
    fn fmt<W: fmt::Write>(&self, f: &mut fmt::Formatter<W>) -> fmt::Result {
        f.write_str(match self {
            Wanted::Attribute => "attribute",
            Wanted::Foundation => "foundation",
            Wanted::Component => "component",
            Wanted::Transport => "transport",
            Wanted::Priority => "priority",
            Wanted::Address => "address",
            Wanted::Port => "port",
            Wanted::Typ => "typ",
            Wanted::Kind => "type",
            Wanted::RelatedAddress => "related address",
            Wanted::RelatedPort => "related port",
            Wanted::ExtensionName => "name of an extension",
            Wanted::ExtensionValue => "value of an extension",
            Wanted::UsernameFragment => "username fragment",
            Wanted::Password => "password",
            Wanted::IceOption => "ICE option",
        })
    }
}

/// A line is not what the grammar allows: a word of it is not what is expected there.
#[derive(Clone, Copy, Debug, PartialEq, Eq, Error)]
#[error("Expected {wanted} at byte {offset}")]
pub struct LineError {
    /// The number of bytes of the line before the word; the length of the line if it has no more
    /// words.
    pub offset: usize,
    /// What is expected instead of the word.
    pub wanted: Wanted,
}

/// What is expected, and the number of bytes that are left of the line from that word on.
#[derive(Clone, Copy, Debug, PartialEq, Eq)]
pub struct Stop {
    pub left: usize,
    pub wanted: Wanted,
}
