//! Whether a flow takes a datagram.

ghost use Rattle.std.specs.Prelude.{◌≡◌, ◌==◌, ◌&&◌, ◌+◌, nat_lt, nat_le};

/// Whether a number is a channel's (RFC 8656, section 12).
#[unsafe(no_mangle)]
pub extern "C" fn kernel_is_channel(number: u16) -> bool
    ensures { result ≡ nat_le 0x4000 number && nat_le number 0x4FFF }
{
    (0x4000..=0x4FFF).contains(&number)
}

/// Whether the length in the header of ChannelData is that of its datagram, in which nothing comes
/// after the data (RFC 8656, section 12.6). The headers of UDP and of ChannelData have 12 bytes.
#[unsafe(no_mangle)]
pub extern "C" fn kernel_is_exact(length: u16, datagram: u16) -> bool
    ensures { result ≡ (length + 12 == datagram) }
{
    u32::from(length) + 12 == u32::from(datagram)
}

/// Whether a flow takes a datagram now: it isn't over, its process vouches for it, in the life in
/// which it began the flow, the datagram came by the flow's interface, leaves as a packet of at
/// most its MTU, and has a hop left.
#[unsafe(no_mangle)]
pub extern "C" fn kernel_takes(
    now: u64,
    until: u64,
    vouched: u64,
    life: u32,
    living: u32,
    interface: u32,
    came_by: u32,
    mtu: u16,
    length: u32,
    hops: u8,
) -> bool
    ensures { result ≡ nat_lt now until && nat_lt now vouched && (life == living) && (interface == came_by)
        && nat_le length mtu && nat_lt 1 hops }
{
    now < until
        && now < vouched
        && life == living
        && interface == came_by
        && length <= u32::from(mtu)
        && hops > 1
}

/// Whether an address is one of the server's own places: it has the same 128 bits, and a port of
/// the range.
#[unsafe(no_mangle)]
pub extern "C" fn kernel_is_own(
    high: u64,
    low: u64,
    port: u16,
    own_high: u64,
    own_low: u64,
    least: u16,
    most: u16,
) -> bool
    ensures { result ≡ (high == own_high) && (low == own_low) && nat_le least port && nat_le port most }
{
    high == own_high && low == own_low && least <= port && port <= most
}
