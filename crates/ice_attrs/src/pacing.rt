//! How often an agent sends, and when it sends a request again (RFC 8445, section 14). Times are in
//! milliseconds.

ghost use Rattle.std.specs.Prelude.{◌≡◌};
ghost use Rattle.ice_attrs.specs.Pacing.{agreed_ta, gathering_wait, check_wait, in_64_bits};

/// Ta, in milliseconds, of an agent that proposes no value (RFC 8445, section 14.2).
pub const DEFAULT_TA: u32 = 50;

/// The least time, in milliseconds, between two transactions of all agents of an implementation
/// together (RFC 8445, section 14.2).
pub const LEAST_TA: u32 = 5;

/// The least RTO, in milliseconds (RFC 8445, section 14.3).
pub const LEAST_RTO: u64 = 500;

/// Returns the Ta of two agents, in milliseconds: the greater one of the values that they propose
/// (RFC 8445, section 14.2). `None` stands for [`DEFAULT_TA`], and the result is at least
/// [`LEAST_TA`].
///
/// An implementation that runs several agents at once paces them together: its transactions are at
/// least [`LEAST_TA`] apart.
///
/// # Examples
///
/// ```
/// use ice_attrs::agreed_ta;
///
/// assert_eq!(rt; agreed_ta(Some(20), Some(30)), 30);
/// // An agent that proposes no value has the default of 50 ms, and 5 ms are the least.
/// assert_eq!(rt; agreed_ta(Some(20), None), 50);
/// assert_eq!(rt; agreed_ta(Some(1), Some(2)), 5);
/// ```
pub fn agreed_ta(own: Option<u32>, peer: Option<u32>) -> u32
    ensures { result ≡ agreed_ta own peer }
{
    own.unwrap_or(DEFAULT_TA)
        .max(peer.unwrap_or(DEFAULT_TA))
        .max(LEAST_TA)
}

/// Computes RTO, in milliseconds, while an agent gathers candidates: Ta times the number of its
/// server-reflexive and relayed candidates, and at least [`LEAST_RTO`] (RFC 8445, section 14.3).
///
/// # Examples
///
/// ```
/// use ice_attrs::{DEFAULT_TA, gathering_rto};
///
/// assert_eq!(rt; gathering_rto(DEFAULT_TA, 4), 500);
/// assert_eq!(rt; gathering_rto(DEFAULT_TA, 12), 600);
/// ```
pub fn gathering_rto(ta: u32, candidates: u32) -> u64
    ensures { result ≡ gathering_wait ta candidates }
{
    (u64::from(ta) * u64::from(candidates)).max(LEAST_RTO)
}

/// Computes RTO, in milliseconds, of a connectivity check: Ta times the number of all checks that
/// are to be performed, times the number of those in the checklist set that are Waiting or
/// In-Progress, and at least [`LEAST_RTO`] (RFC 8445, section 14.3). `u64::MAX` if it is greater.
///
/// It changes from one transaction to the next, as checks end.
///
/// # Examples
///
/// ```
/// use ice_attrs::{DEFAULT_TA, check_rto};
///
/// // Of four checks two are Waiting and one is In-Progress: 50 ms * 4 * (2 + 1).
/// assert_eq!(rt; check_rto(DEFAULT_TA, 4, 2, 1), 600);
/// // The last of them waits alone.
/// assert_eq!(rt; check_rto(DEFAULT_TA, 4, 1, 0), 500);
/// ```
pub fn check_rto(ta: u32, checks: u32, waiting: u32, in_progress: u32) -> u64
    ensures { result ≡ in_64_bits (check_wait ta checks waiting in_progress) }
{
    let unfinished = u64::from(waiting) + u64::from(in_progress);
    (u64::from(ta) * u64::from(checks))
        .saturating_mul(unfinished)
        .max(LEAST_RTO)
}
