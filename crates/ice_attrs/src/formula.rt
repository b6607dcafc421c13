ghost use Rattle.std.specs.Prelude.{◌≡◌, ◌<◌, ◌≤◌, ◌^◌, ◌⊎◌, Some, None, MatchResult};
ghost use Rattle.ice_attrs.specs.Ice.{candidate_priority, priority_fault, candidates_priority, pair_fault};

use stun_types::message::StunWriteError;

/// Computes the priority of a candidate by the recommended formula (RFC 8445, section 5.1.2.1):
/// 2^24 times the preference of its type, 2^8 times its local preference, and 256 less its
/// component.
///
/// # Errors
///
/// The first of these that applies:
///
/// - `OutOfRange { value: type_preference, min: 0, max: 126 }`;
/// - `OutOfRange { value: component, min: 1, max: 256 }`;
/// - `OutOfRange { value: 0, min: 1, max: 2147483647 }` for 0, 0 and 256, of which the formula
///   makes 0: a priority is 1 to 2^31 - 1 (section 5.1.2).
///
/// # Examples
///
/// ```
/// use ice_attrs::priority;
///
/// // The first component of a host candidate, and of a server-reflexive one, whose types have the
/// // recommended preferences (RFC 8445, section 5.1.2.2).
/// assert_eq!(rt; priority(126, 65535, 1), Ok(2130706431));
/// assert_eq!(rt; priority(100, 65535, 1), Ok(1694498815));
/// assert!(rt; priority(127, 65535, 1).is_err());
/// ```
pub fn priority(
    type_preference: u8,
    local_preference: u16,
    component: u16,
) -> Result<u32, StunWriteError>
    ensures { MatchResult result
        (λ priority. (priority_fault type_preference local_preference component ≡ None)
        × (priority ≡ candidate_priority type_preference local_preference component)
        × (0 < priority) × (priority < 2 ^ 31))
        (λ e. priority_fault type_preference local_preference component ≡ Some e) }
{
    check_range(type_preference as usize, 0, 126)?;
    check_range(component as usize, 1, 256)?;
    let priority = type_preference as u32 * 0x100_0000
        + local_preference as u32 * 0x100
        + (256 - component as u32);
    check_range(priority as usize, 1, 0x7FFF_FFFF)?;
    Ok(priority)
}

/// The greatest priority of a candidate (RFC 8445, section 5.1.2).
const GREATEST_PRIORITY: u32 = 0x7FFF_FFFF;

/// Computes the priority of a candidate pair (RFC 8445, section 6.1.2.3) from the priorities of the
/// candidates of the controlling and of the controlled agent: 2^32 times the smaller one, twice the
/// greater one, and 1 if that of the controlling agent is the greater one. Pairs are checked in
/// decreasing order of it, and both agents compute the same.
///
/// # Errors
///
/// `OutOfRange { value, min: 1, max: 2147483647 }` for the first of the two that is no priority of
/// a candidate (section 5.1.2).
///
/// # Examples
///
/// ```
/// use ice_attrs::pair_priority;
///
/// // The host candidate of the one agent, and the server-reflexive one of the other.
/// let (host, reflexive) = (2130706431, 1694498815);
/// assert_eq!(rt; pair_priority(host, reflexive), Ok(7277816997797167103));
/// assert_eq!(rt; pair_priority(reflexive, host), Ok(7277816997797167102));
/// assert!(rt; pair_priority(host, 0).is_err());
/// ```
pub fn pair_priority(controlling: u32, controlled: u32) -> Result<u64, StunWriteError>
    ensures { MatchResult result
        (λ priority. (pair_fault controlling controlled ≡ None)
        × (priority ≡ candidates_priority controlling controlled))
        (λ e. pair_fault controlling controlled ≡ Some e) }
{
    check_range(controlling as usize, 1, GREATEST_PRIORITY as usize)?;
    check_range(controlled as usize, 1, GREATEST_PRIORITY as usize)?;
    let least = u64::from(controlling.min(controlled));
    let greatest = u64::from(controlling.max(controlled));
    Ok(0x1_0000_0000 * least + 2 * greatest + u64::from(controlling > controlled))
}

/// Tests that a number is at least `min` and at most `max`.
fn check_range(value: usize, min: usize, max: usize) -> Result<(), StunWriteError>
    ensures { MatchResult result
        (λ _. (min ≤ value) × (value ≤ max))
        (λ e. ((value < min) ⊎ (max < value)) × (e ≡ StunWriteError.OutOfRange value min max)) }
{
    if value < min || value > max {
        return Err(StunWriteError::OutOfRange { value, min, max });
    }
    Ok(())
}
