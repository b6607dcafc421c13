//! For how long a server keeps an allocation, in seconds (RFC 8656, sections 7.2 and 8.2).

ghost use Rattle.std.specs.Prelude.{◌≡◌};
ghost use Rattle.turn_machine.specs.Times.{granted_for, refreshed_for};

/// The lifetime in seconds of an allocation whose request asks for none, or for less (RFC 8656, section
/// 3.2).
pub const DEFAULT_LIFETIME: u32 = 600;

/// Returns the lifetime that a server gives an allocation, in seconds: the LIFETIME of the request, if it
/// has one, but at most `greatest`, the server's own limit; and at least [`DEFAULT_LIFETIME`] (RFC 8656,
/// section 7.2).
///
/// # Examples
///
/// ```
/// use turn_attrs::allocation_lifetime;
///
/// // The server keeps an allocation for an hour at most.
/// assert_eq!(rt; allocation_lifetime(Some(1200), 3600), 1200);
/// assert_eq!(rt; allocation_lifetime(Some(86400), 3600), 3600);
/// assert_eq!(rt; allocation_lifetime(Some(60), 3600), 600);
/// assert_eq!(rt; allocation_lifetime(None, 3600), 600);
/// ```
pub fn allocation_lifetime(requested: Option<u32>, greatest: u32) -> u32
    ensures { result ≡ granted_for requested greatest }
{
    match requested {
        Some(seconds) => seconds.min(greatest).max(DEFAULT_LIFETIME),
        None => DEFAULT_LIFETIME,
    }
}

/// Returns the lifetime that a Refresh request leaves an allocation, in seconds: 0, which deletes it, if its
/// LIFETIME is 0; otherwise as for [`allocation_lifetime`] (RFC 8656, section 8.2).
///
/// # Examples
///
/// ```
/// use turn_attrs::refresh_lifetime;
///
/// assert_eq!(rt; refresh_lifetime(Some(1200), 3600), 1200);
/// // The allocation is deleted.
/// assert_eq!(rt; refresh_lifetime(Some(0), 3600), 0);
/// ```
pub fn refresh_lifetime(requested: Option<u32>, greatest: u32) -> u32
    ensures { result ≡ refreshed_for requested greatest }
{
    match requested {
        Some(0) => 0,
        _ => allocation_lifetime(requested, greatest),
    }
}
