//! The codes of an answer; `c/stun_types.h` says what each means.

/// No error.
pub const OK: u32 = 0;
/// No STUN message begins so.
pub const NOT_STUN: u32 = 1;
/// Too few bytes.
pub const TRUNCATED: u32 = 2;
/// Too many bytes.
pub const TOO_LARGE: u32 = 3;
/// The FINGERPRINT is wrong.
pub const FINGERPRINT_MISMATCH: u32 = 4;
/// An attribute isn't shown.
pub const MISSING_ATTRIBUTE: u32 = 5;
/// A value isn't what its type asks for.
pub const INVALID_DATA: u32 = 6;
/// The HMAC is wrong.
pub const INTEGRITY_FAILED: u32 = 7;
/// An allocation failed.
pub const OUT_OF_MEMORY: u32 = 8;
/// The caller's slice hasn't room.
pub const TOO_SMALL: u32 = 9;
/// An attribute that is written blocks the addition.
pub const EXISTS: u32 = 10;
/// Attributes of this type have an add of their own.
pub const ENDING_TYPE: u32 = 11;
/// A number is none of those allowed.
pub const OUT_OF_RANGE: u32 = 12;
/// What was passed is not what the call takes.
pub const BAD_ARGUMENT: u32 = 13;
/// The key holds none.
pub const NO_KEY: u32 = 14;
/// The length field is no multiple of 4.
pub const NOT_PADDED: u32 = 15;
/// The message is no request.
pub const NOT_A_REQUEST: u32 = 16;
/// The request shows no integrity attribute, and needs one.
pub const NOT_SIGNED: u32 = 17;
/// The request shows an integrity attribute, and needs none.
pub const SIGNED: u32 = 18;
/// The response is no 401 and no 438.
pub const NOT_A_CHALLENGE: u32 = 19;
/// Somebody may have taken out PASSWORD-ALGORITHMS.
pub const BID_DOWN: u32 = 20;
/// REALM or NONCE is missing.
pub const INCOMPLETE: u32 = 21;
/// No password algorithm is supported by both.
pub const NO_ALGORITHM: u32 = 22;
/// The credentials were refused already.
pub const SAME_CREDENTIALS: u32 = 23;
/// The HMAC is right, and has fewer bytes than the policy asks for.
pub const HMAC_TOO_SHORT: u32 = 24;
/// There is no room for another one.
pub const FULL: u32 = 25;
/// The address is of another family than the relayed address.
pub const OTHER_FAMILY: u32 = 26;
