//! The checksum of IPv4, ICMP, UDP and TCP (RFC 1071), and what becomes of it where words of what
//! it covers are replaced (RFC 1624).

ghost use Rattle.std.specs.Prelude.{◌≡◌, ◌+◌, ◌-◌, ◌*◌, ◌^◌, ◌<◌, ◌≤◌, ℕ};
ghost use Rattle.std.specs.Int.{w32, to_be_bytes};
ghost use Rattle.kernel_rules.specs.Checksums.{words, ones_sum};

/// The one's complement sum of words that add up to `sum`.
pub(crate) fn ones_sum(sum: u64) -> u16
    requires { sum < 2 ^ 47 }
    ensures { result ≡ ones_sum sum }
{
    let once = sum % 65536 + sum / 65536;
    let twice = once % 65536 + once / 65536;
    (twice % 65536 + twice / 65536) as u16
}

/// The sum of the two words of a number of four bytes.
pub(crate) fn halves(number: u32) -> u64
    ensures sum { result ≡ words (to_be_bytes w32 number) }
    ensures small { result < 2 ^ 17 }
{
    u64::from(number / 65536) + u64::from(number % 65536)
}

/// The checksum where words of what it covers are replaced: `before` is the sum of the words that
/// go, and `after` of those that come instead. A sum that was right stays right, and one that was
/// wrong stays wrong.
pub(crate) fn updated(checksum: u16, before: u64, after: u64) -> u16
    requires before { before ≤ 65535 * 2 ^ 20 }
    requires after { after ≤ 65535 * 2 ^ 20 }
    ensures sum { (rest : ℕ) → 0 < rest
        → ones_sum (rest + after + result) ≡ ones_sum (rest + before + checksum) }
{
    let complement = u64::from(65535 - checksum);
    65535 - ones_sum(complement + (65535 * 1_048_576 - before) + after)
}
