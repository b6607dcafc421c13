//! What the caller sets once.

/// The limits and times of an agent. Times are in nanoseconds.
#[derive(Clone, Copy, Debug, PartialEq, Eq)]
pub struct Settings {
    /// The most pairs (RFC 8445, section 6.1.2.5), by default 100. No further one is made.
    pub most_pairs: u32,
    /// The most bases, and the most candidates of the peer, by default 32.
    pub most_candidates: u32,
    /// The most requests that a response is waited for, by default 200. A further one replaces the oldest.
    pub most_requests: u32,
    /// Ta (section 14.2), by default 50 ms. Requests are at least 5 ms apart, also if it is less.
    pub ta: u64,
    /// The timeout after the first request of a check (section 14.3), by default 500 ms, and never less.
    /// It doubles with each further request.
    pub rto: u64,
    /// The most requests of a check that no response comes to, by default 5: then the check has failed. At
    /// most 32.
    pub most_tries: u8,
    /// How long a controlling agent waits for pairs of greater priority once a pair has succeeded
    /// (section 8.1.1), by default 200 ms.
    pub patience: u64,
}

impl Default for Settings {
    ghost use Rattle.std.specs.Prelude.{◌≡◌};

    ghost is_default = { λ settings. settings ≡ record {
      most_pairs = 100;
      most_candidates = 32;
      most_requests = 200;
      ta = 50_000_000;
      rto = 500_000_000;
      most_tries = 5;
      patience = 200_000_000;
    } };

    fn default() -> Self {
        Settings {
            most_pairs: 100,
            most_candidates: 32,
            most_requests: 200,
            ta: 50_000_000,
            rto: 500_000_000,
            most_tries: 5,
            patience: 200_000_000,
        }
    }
}
