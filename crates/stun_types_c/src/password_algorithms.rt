//! Lists of password algorithms, by their numbers (RFC 8489, section 18.5).

ghost use Rattle.std.specs.Prelude.{◌≡◌, ◌≤◌, length, take};
ghost use Rattle.std.specs.Option.{option_map};
ghost use Rattle.stun_types_c.specs.PasswordAlgorithms.{password_numbered, password_algorithms_named};

use stun_types::attribute::PasswordAlgorithmValue;

/// How many there are at most.
const MOST: usize = 16;

/// At most sixteen password algorithms.
#[derive(Clone, Copy)]
pub(crate) struct AlgorithmList {
    all: [PasswordAlgorithmValue; 16],
    count: usize,
    ghost few: { count ≤ 16 },
}

impl AlgorithmList {
    /// The algorithms.
    pub(crate) fn as_slice(&self) -> &[PasswordAlgorithmValue]
        ensures algorithms { result.now ≡ take self.now.count self.now.all }
        ensures few { length result.now ≤ 16 }
    {
        &self.all[..self.count]
    }
}

/// The algorithm of a number.
pub(crate) fn password_of(number: u32) -> Option<PasswordAlgorithmValue>
    ensures { result ≡ password_numbered number }
{
    match number {
        1 => Some(PasswordAlgorithmValue::MD5),
        2 => Some(PasswordAlgorithmValue::SHA256),
        _ => None,
    }
}

/// The algorithms of these numbers; `None` if one has another number, or there are more than
/// sixteen.
pub(crate) fn algorithms_of(numbers: &[u16]) -> Option<AlgorithmList>
    ensures { password_algorithms_named numbers.now
        ≡ option_map (λ list. take list.count list.all) result }
{
    if numbers.len() > MOST {
        return None;
    }
    let mut all = [PasswordAlgorithmValue::MD5; MOST];
    for i in 0..numbers.len() {
        all[i] = password_of(u32::from(numbers[i]))?;
    }
    Some(AlgorithmList {
        all,
        count: numbers.len(),
    })
}
