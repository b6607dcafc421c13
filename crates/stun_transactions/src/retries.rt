//! How often a request is sent again since a server asks for credentials.

/// A limit on how often a client sends one request again, each time in a new transaction, because
/// the server asks for credentials. A server or an attacker may answer 438 without end, and RFC
/// 8489, section 9.2.5, has the client retry each time.
///
/// # Examples
///
/// ```
/// use stun_transactions::Retries;
///
/// let mut retries = Retries::default();
/// assert!(rt; retries.take() && retries.take() && retries.take());
/// // The fourth challenge isn't answered.
/// assert!(rt; !retries.take());
/// ```
#[derive(Clone, Copy, Debug, PartialEq, Eq)]
pub struct Retries {
    left: u32,
}

impl Default for Retries {
    ghost use Rattle.std.specs.Prelude.{◌≡◌};

    ghost is_default = { λ retries. retries.left ≡ 3 };

    /// Returns a limit of three retries: for the 401 that brings a nonce, for one 438, and for one
    /// more.
    fn default() -> Self {
        Retries { left: 3 }
    }
}

impl Retries {
    ghost use Rattle.std.specs.Prelude.{◌≡◌, ◌-◌, nat_lt};

    /// Returns a limit of `most` retries.
    pub fn new(most: u32) -> Retries
        ensures { result.left ≡ most }
    {
        Retries { left: most }
    }

    /// Returns the number of retries that are left.
    pub fn left(&self) -> u32
        ensures { result ≡ self.now.left }
    {
        self.left
    }

    /// Takes one retry, if one is left, and returns whether there was one: only then the request is
    /// sent again.
    pub fn take(&mut self) -> bool
        ensures taken { result ≡ nat_lt 0 self.old.left }
        ensures left { self.new.left ≡ self.old.left - 1 }
    {
        if self.left == 0 {
            return false;
        }
        self.left -= 1;
        true
    }
}
