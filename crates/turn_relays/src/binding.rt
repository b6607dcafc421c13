//! Channels of one relayed address (RFC 8656, section 12).

ghost use Rattle.std.specs.Prelude.{◌≡◌, ◌+◌, ◌<◌, ◌≤◌, ◌^◌, length, filter, true, false};
ghost use Rattle.turn_machine.specs.Relays.{seconds};
ghost use Rattle.turn_machine.specs.Rows.{with_channel, is_other_channel};

use arrayvec::ArrayVec;
use stun_endpoints::Endpoint;
use turn_machine::Channel;

/// How long a channel lasts, in nanoseconds.
const LASTING: u128 = 600_000_000_000;

/// Leaves the channels of other numbers that haven't expired.
fn clear<const C: usize>(channels: &mut ArrayVec<Channel, C>, now: u128, number: u16)
    ensures { channels.new.items ≡ filter (is_other_channel now number) channels.old.items }
{
    channels.retain(|c| !(c.number == number) && now < c.expires_at);
}

/// How many channels of other numbers haven't expired.
fn others<const C: usize>(channels: &ArrayVec<Channel, C>, now: u128, number: u16) -> usize
    ensures { result ≡ length (filter (is_other_channel now number) channels.now.items) }
{
    channels
        .iter()
        .filter(|c| !(c.number == number) && now < c.expires_at)
        .count()
}

/// Whether there is room for one more channel, once those that have expired are removed.
pub(crate) fn has_room<const C: usize>(
    channels: &ArrayVec<Channel, C>,
    now: u128,
    number: u16,
    peer: Endpoint,
) -> bool
    ensures room { result ≡ true → length (with_channel now number peer channels.now.items) ≤ C }
    ensures full { result ≡ false → C < length (with_channel now number peer channels.now.items) }
{
    others(channels, now, number) < C
}

/// Inserts a channel in front, and removes those that have expired.
pub(crate) fn put<const C: usize>(
    channels: &mut ArrayVec<Channel, C>,
    now: u128,
    number: u16,
    peer: Endpoint,
)
    requires time { now + seconds 600 < 2 ^ 128 }
    requires room { length (with_channel now number peer channels.old.items) ≤ C }
    ensures { channels.new.items ≡ with_channel now number peer channels.old.items }
{
    clear(channels, now, number);
    channels.insert(
        0,
        Channel {
            number,
            peer,
            expires_at: now + LASTING,
        },
    );
}
