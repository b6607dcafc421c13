//! The error codes of TURN (RFC 8656, section 19; RFC 6062, section 6.3; RFC 8016, section 3.4).

ghost use Rattle.std.specs.Prelude.{◌≡◌};
ghost use Rattle.std.specs.Option.{option_map};
ghost use Rattle.turn_attrs.specs.Reasons.{reason_of};

use stun_types::attribute::ErrorCode;

/// 403 (Forbidden): the server doesn't allow the request.
pub const FORBIDDEN: u16 = ErrorCode::FORBIDDEN;
/// 405 (Mobility Forbidden): the server doesn't allow mobility (RFC 8016).
pub const MOBILITY_FORBIDDEN: u16 = 405;
/// 437 (Allocation Mismatch): the client has an allocation already, or none.
pub const ALLOCATION_MISMATCH: u16 = ErrorCode::ALLOCATION_MISMATCH;
/// 440 (Address Family Not Supported): the server doesn't serve the address family.
pub const ADDRESS_FAMILY_NOT_SUPPORTED: u16 = ErrorCode::ADDRESS_FAMILY_NOT_SUPPORTED;
/// 441 (Wrong Credentials): the credentials are not those of the allocation.
pub const WRONG_CREDENTIALS: u16 = ErrorCode::WRONG_CREDENTIALS;
/// 442 (Unsupported Transport Protocol): the server doesn't serve this transport between itself and
/// the peers.
pub const UNSUPPORTED_TRANSPORT_PROTOCOL: u16 = ErrorCode::UNSUPPORTED_TRANSPORT_PROTOCOL;
/// 443 (Peer Address Family Mismatch): the peer's address has another family than the relayed one.
pub const PEER_ADDRESS_FAMILY_MISMATCH: u16 = ErrorCode::PEER_ADDRESS_FAMILY_MISMATCH;
/// 446 (Connection Already Exists): the client has a connection to this peer already (RFC 6062).
pub const CONNECTION_ALREADY_EXISTS: u16 = ErrorCode::CONNECTION_ALREADY_EXISTS;
/// 447 (Connection Timeout or Failure): the connection to the peer failed (RFC 6062).
pub const CONNECTION_TIMEOUT_OR_FAILURE: u16 = ErrorCode::CONNECTION_TIMEOUT_OR_FAILURE;
/// 486 (Allocation Quota Reached): the user may make no more allocations.
pub const ALLOCATION_QUOTA_REACHED: u16 = ErrorCode::ALLOCATION_QUOTA_REACHED;
/// 508 (Insufficient Capacity): the server has no capacity left.
pub const INSUFFICIENT_CAPACITY: u16 = ErrorCode::INSUFFICIENT_CAPACITY;

/// The codes whose reasons `ErrorCode` has.
const WITH_DEFAULT: [u16; 10] = [
    FORBIDDEN,
    ALLOCATION_MISMATCH,
    ADDRESS_FAMILY_NOT_SUPPORTED,
    WRONG_CREDENTIALS,
    UNSUPPORTED_TRANSPORT_PROTOCOL,
    PEER_ADDRESS_FAMILY_MISMATCH,
    CONNECTION_ALREADY_EXISTS,
    CONNECTION_TIMEOUT_OR_FAILURE,
    ALLOCATION_QUOTA_REACHED,
    INSUFFICIENT_CAPACITY,
];

/// Returns the reason that the RFCs give with a code of TURN; `None` for another code. That of 440
/// is spelled `Address Family Not Supported`, as in [`ErrorCode::default_reason_for_code`].
///
/// # Examples
///
/// ```
/// use turn_attrs::error_codes;
///
/// assert_eq!(rt; error_codes::reason(437), Some("Allocation Mismatch"));
/// // 401 is a code of STUN, and not of TURN.
/// assert_eq!(rt; error_codes::reason(401), None);
/// ```
pub fn reason(code: u16) -> Option<&'static str>
    ensures { option_map (λ reason. reason.now) result ≡ reason_of code }
{
    if code == MOBILITY_FORBIDDEN {
        return Some("Mobility Forbidden");
    }
    if WITH_DEFAULT.contains(&code) {
        return Some(ErrorCode::default_reason_for_code(code));
    }
    None
}
