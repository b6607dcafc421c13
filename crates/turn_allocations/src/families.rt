//! Values by address family.

/// A value for IPv4 and one for IPv6.
#[derive(Clone, Copy, Debug, PartialEq, Eq)]
pub struct Families<T> {
    /// The value for IPv4, which is family 1.
    pub ipv4: T,
    /// The value for IPv6, which is family 2.
    pub ipv6: T,
}
