//! What comes of a datagram.

ghost use Rattle.std.specs.Prelude.{◌≡◌};

use crate::response::CheckResponse;
use crate::unknown::UnknownList;
use ice_machine::{Answer, Check};
use stun_endpoints::Endpoint;
use stun_types::attribute::ErrorCode;
use stun_types::message::IntegrityAlgorithm;

/// Why a Binding request isn't a check, as the code of the error response.
#[derive(Clone, Copy, Debug, PartialEq, Eq)]
pub enum Refusal {
    /// 400 (Bad Request).
    BadRequest,
    /// 401 (Unauthenticated).
    Unauthenticated,
    /// 420 (Unknown Attribute).
    UnknownTypes,
}

impl Refusal {
    ghost use Rattle.std.specs.Prelude.{◌≡◌};
    ghost use Rattle.ice_checks.specs.Judging.{code_of, refusal_to};
    ghost use Rattle.ice_checks.specs.Views.{response_of};

    /// Returns the code of the error response: 400, 401 or 420.
    pub fn code(self) -> u16
        ensures { result ≡ code_of self }
    {
        match self {
            Refusal::BadRequest => ErrorCode::BAD_REQUEST,
            Refusal::Unauthenticated => ErrorCode::UNAUTHORIZED,
            Refusal::UnknownTypes => ErrorCode::UNKNOWN_ATTRIBUTE,
        }
    }

    /// Returns the error response to a request. A 420 lists the types of the request ([`UnknownList`]).
    pub fn response(self, request: &[u8]) -> CheckResponse<'_>
        ensures { response_of result ≡ refusal_to request.now self }
    {
        match self {
            Refusal::BadRequest => CheckResponse::BadRequest,
            Refusal::Unauthenticated => CheckResponse::Unauthenticated,
            Refusal::UnknownTypes => CheckResponse::UnknownTypes {
                types: UnknownList::of(request),
            },
        }
    }
}

/// What a datagram is that an agent receives, by the events of `ice_machine`
/// (`ice_machine/specs/Events.antt`).
#[derive(Clone, Copy, Debug, PartialEq, Eq)]
pub enum Judged {
    /// Data: it isn't a STUN message with a FINGERPRINT (RFC 8445, section 7.3).
    Arrives,
    /// A STUN message that gets no answer, and changes nothing.
    Strays {
        /// Its transaction ID.
        id: u128,
    },
    /// A Binding request that gets an error response, and changes nothing.
    Refused {
        /// Its transaction ID.
        id: u128,
        /// Why.
        refusal: Refusal,
        /// The algorithm that the error response is signed by, with the key of this agent; `None` if it isn't
        /// signed: the request isn't authentic.
        signed_by: Option<IntegrityAlgorithm>,
    },
    /// A response to a check, authentic under the peer's password.
    Responds {
        /// Its transaction ID.
        id: u128,
        /// What it says: for a success response it also has an XOR-MAPPED-ADDRESS.
        answer: Answer,
        /// The address in the XOR-MAPPED-ADDRESS of a success response.
        mapped: Option<Endpoint>,
    },
    /// A check of the peer, authentic under this agent's password.
    Checks {
        /// The check.
        check: Check,
        /// The algorithm that the response is signed by, with the key of this agent: that of the check.
        algorithm: IntegrityAlgorithm,
    },
}
