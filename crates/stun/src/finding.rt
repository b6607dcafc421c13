//! What a response says of its request.

use std::net::SocketAddr;
use stun_transactions::{BeginError, Discard, Failure};

/// What a response says of its request.
#[derive(Clone, Copy, PartialEq, Eq)]
pub enum Finding {
    /// The address from which the server saw the request come.
    Mapped(SocketAddr),
    /// The request succeeded, but the response shows no XOR-MAPPED-ADDRESS that can be read.
    Unmapped,
    /// The server refused it with this code.
    Refused(u16),
    /// The response can't be taken, and the client gives up.
    Failed(Failure),
    /// It is a response, but the client discards it, and goes on waiting.
    Discarded(Discard),
    /// It is no response to the request.
    NotAnswered,
    /// No client sends such a request.
    NotBegun(BeginError),
    /// The request is no message.
    NoRequest,
}

impl Finding {
    /// The words for it, if they are the same for each.
    pub fn words(self) -> &'static str {
        match self {
            Finding::Mapped(_) => "the address",
            Finding::Refused(_) => "the request was refused",
            Finding::Unmapped => "the request succeeded, but no XOR-MAPPED-ADDRESS can be read",
            Finding::Failed(Failure::IntegrityViolated(_)) => {
                "given up: the integrity of the response is wrong or missing"
            }
            Finding::Failed(Failure::UnknownAttribute(_)) => {
                "given up: the response has an attribute that must be understood, and is unknown"
            }
            Finding::Failed(Failure::NoErrorCode) => {
                "given up: the error response has no ERROR-CODE that can be read"
            }
            Finding::Discarded(Discard::NotAuthentic) => {
                "discarded: it isn't valid with this password"
            }
            Finding::Discarded(Discard::OtherAlgorithm) => {
                "discarded: it is signed by another algorithm than the request"
            }
            Finding::Discarded(Discard::BidDown) => {
                "discarded: its nonce promises PASSWORD-ALGORITHMS, and it shows none"
            }
            Finding::Discarded(Discard::UnsignedBadRequest) => {
                "discarded: it is a 400 that isn't signed"
            }
            Finding::Discarded(Discard::NoFingerprint) => "discarded: it has no FINGERPRINT",
            Finding::NotAnswered => "no response to this request",
            Finding::NotBegun(BeginError::NotARequest) => "the first file is no request",
            Finding::NotBegun(_) => "the request isn't signed as its credentials sign",
            Finding::NoRequest => "the first file is no message: give a request, raw",
        }
    }
}
