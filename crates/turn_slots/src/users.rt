//! The user of a relayed address.

ghost use Rattle.std.specs.Prelude.{◌≡◌, length};
ghost use Rattle.turn_slots.specs.Users.{number_of};

/// The user that a relayed address belongs to: 256 bits that no other user has, such as the SHA-256 of the
/// user's name.
///
/// ```
/// use turn_slots::UserId;
///
/// let mut digest = [0; 32];
/// digest[15] = 1;
/// digest[30] = 2;
/// assert_eq!(rt; UserId::from(digest), UserId { high: 1, low: 512 });
/// ```
#[derive(Clone, Copy, Debug, Default, PartialEq, Eq, Hash)]
pub struct UserId {
    /// The first 128 bits.
    pub high: u128,
    /// The last 128 bits.
    pub low: u128,
}

impl UserId {
    ghost use Rattle.std.specs.Prelude.{◌≡◌, ◌==◌};
    ghost use Rattle.turn_slots.specs.Users.{user_number};

    /// Returns whether this is the same user as another: all 256 bits are equal.
    pub fn is_same(self, other: UserId) -> bool
        ensures { result ≡ (user_number self == user_number other) }
    {
        self == other
    }
}

impl From<[u8; 32]> for UserId {
    ghost use Rattle.std.specs.Prelude.{◌≡◌};
    ghost use Rattle.turn_slots.specs.Users.{user_of};

    ghost from_gives = { λ bytes user. user ≡ user_of bytes };

    /// The user of 32 bytes, the most significant first.
    fn from(bytes: [u8; 32]) -> Self {
        let (high, low) = bytes.split_at(16);
        UserId {
            high: number_of(high),
            low: number_of(low),
        }
    }
}

/// The number of sixteen bytes, the most significant first.
fn number_of(bytes: &[u8]) -> u128
    requires { length bytes.now ≡ 16 }
    ensures { result ≡ number_of bytes.now }
{
    let mut number = [0; 16];
    number.copy_from_slice(bytes);
    u128::from_be_bytes(number)
}
