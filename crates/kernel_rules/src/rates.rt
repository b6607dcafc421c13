//! Rates of an allocation.

ghost use Rattle.std.specs.Prelude.{◌≡◌, ◌==◌, ◌||◌, ◌+◌, ◌-◌, ◌^◌, ◌≤◌, min, max, nat_le, if◌then◌else◌};
ghost use Rattle.kernel_rules.specs.Rates.{price, paid_until};

/// A second in nanoseconds.
const SECOND: u64 = 1_000_000_000;

/// What so many octets or datagrams take of a second.
fn price(amount: u32, rate: u32) -> u64
    ensures price { result ≡ price rate amount }
    ensures small { result ≤ 1_000_000_000 }
{
    if amount < rate {
        u64::from(amount) * SECOND / u64::from(rate)
    } else {
        SECOND
    }
}

/// Whether so many octets, or datagrams, may pass at a rate a second, of which all is paid for
/// until `until`; and until when it then is. It may be paid for until a second from `now` (the
/// generic cell rate algorithm). Rate 0 has no limit.
#[unsafe(no_mangle)]
pub extern "C" fn kernel_may_pass(
    until: u64,
    now: u64,
    amount: u32,
    rate: u32,
    paid: &mut u64,
) -> bool
    ensures passes { result ≡ (rate == 0) || nat_le (paid_until rate amount now until) (now + 1_000_000_000) }
    ensures paid { paid.new ≡ (if rate == 0 then until else min (paid_until rate amount now until) (2 ^ 64 - 1)) }
{
    if rate == 0 {
        *paid = until;
        return true;
    }
    let price = price(amount, rate);
    let start = until.max(now);
    *paid = start.saturating_add(price);
    start - now <= SECOND - price
}
