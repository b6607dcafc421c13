/// The algorithm of an HMAC, which determines the attribute that holds the HMAC (RFC 8489, sections
/// 14.5 and 14.6).
#[derive(Clone, Copy, Debug, PartialEq, Eq, Hash)]
pub enum IntegrityAlgorithm {
    /// HMAC-SHA1, 20 bytes, in MESSAGE-INTEGRITY.
    Sha1,
    /// HMAC-SHA256, 32 bytes, in MESSAGE-INTEGRITY-SHA256.
    Sha256,
}
