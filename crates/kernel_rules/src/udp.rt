//! The header of UDP, and what its checksum covers.

ghost use Rattle.std.specs.Prelude.{
  ◌≡◌,
  ◌≢◌,
  ◌==◌,
  ◌&&◌,
  ◌+◌,
  ◌-◌,
  ◌^◌,
  ◌<◌,
  ◌≤◌,
  ◌++◌,
  ℕ,
  List,
  nat_le,
  true,
  false,
};
ghost use Rattle.stun_grammar.specs.Numbers.{be16};
ghost use Rattle.kernel_rules.specs.Checksums.{words, ones_sum, is_right};
ghost use Rattle.kernel_rules.specs.Datagrams.{
  ipv4_ends,
  ipv6_bytes,
  ipv6_ends,
  pseudo_ipv4,
  pseudo_ipv6,
  udp_bytes,
  summed_ipv4,
  summed_ipv6,
  outgoing_udp,
};

use crate::checksums::{halves, ones_sum, updated};
use crate::ip::outgoing;

/// The header of UDP (RFC 768): its fields as numbers.
#[repr(C)]
#[derive(Clone, Copy, Drop)]
pub struct Udp {
    /// The port of the sender.
    pub source: u16,
    /// The port of the receiver.
    pub destination: u16,
    /// The length of header and data in bytes.
    pub length: u16,
    /// The checksum, or 0 for none.
    pub checksum: u16,
}

/// The addresses of a packet of IPv4.
#[repr(C)]
#[derive(Clone, Copy, Drop)]
pub struct Ipv4Ends {
    /// The sender's.
    pub source: u32,
    /// The receiver's.
    pub destination: u32,
}

/// An address of IPv6 as four numbers, the first of them its first four bytes.
#[repr(C)]
#[derive(Clone, Copy, Drop)]
pub struct Ipv6Address {
    /// Its bytes 0 to 3.
    pub first: u32,
    /// Its bytes 4 to 7.
    pub second: u32,
    /// Its bytes 8 to 11.
    pub third: u32,
    /// Its bytes 12 to 15.
    pub fourth: u32,
}

/// The addresses of a packet of IPv6.
#[repr(C)]
#[derive(Clone, Copy, Drop)]
pub struct Ipv6Ends {
    /// The sender's.
    pub source: Ipv6Address,
    /// The receiver's.
    pub destination: Ipv6Address,
}

/// The sum of the words of two addresses of IPv4.
fn ipv4_words(ends: &Ipv4Ends) -> u64
    ensures sum { result ≡ words (ipv4_ends ends.now) }
    ensures small { result < 2 ^ 18 }
{
    halves(ends.source) + halves(ends.destination)
}

/// The sum of the words of an address of IPv6.
fn address_words(address: &Ipv6Address) -> u64
    ensures sum { result ≡ words (ipv6_bytes address.now) }
    ensures small { result < 2 ^ 19 }
{
    halves(address.first) + halves(address.second) + halves(address.third) + halves(address.fourth)
}

/// The sum of the words of two addresses of IPv6.
fn ipv6_words(ends: &Ipv6Ends) -> u64
    ensures sum { result ≡ words (ipv6_ends ends.now) }
    ensures small { result < 2 ^ 20 }
{
    address_words(&ends.source) + address_words(&ends.destination)
}

/// The header with which a datagram leaves. Of the other words that its checksum covers, `before`
/// is the sum of those that go, and `after` of those that come instead. A datagram without a
/// checksum gets none.
fn outgoing_udp(
    header: &Udp,
    to_peer: bool,
    source: u16,
    destination: u16,
    before: u64,
    after: u64,
) -> Udp
    requires before { before < 2 ^ 21 }
    requires after { after < 2 ^ 21 }
    ensures fields { result ≡ outgoing_udp to_peer source destination result.checksum header.now }
    ensures none { header.now.checksum ≡ 0 → result.checksum ≡ 0 }
    ensures some { header.now.checksum ≢ 0 → result.checksum ≢ 0 }
    ensures sum { (rest : ℕ) → header.now.checksum ≢ 0
        → ones_sum (17 + rest + after + result.length + words (udp_bytes result))
        ≡ ones_sum (17 + rest + before + header.now.length + words (udp_bytes header.now)) }
{
    let length = outgoing(header.length, to_peer);
    Udp {
        source,
        destination,
        length,
        checksum: updated_udp(
            header.checksum,
            before
                + u64::from(header.source)
                + u64::from(header.destination)
                + u64::from(header.length) * 2,
            after + u64::from(source) + u64::from(destination) + u64::from(length) * 2,
        ),
    }
}

/// The checksum of UDP where words of what it covers are replaced: 0 stays, and 65,535 stands for
/// another 0 (RFC 768).
fn updated_udp(checksum: u16, before: u64, after: u64) -> u16
    requires before { before < 2 ^ 22 }
    requires after { after < 2 ^ 22 }
    ensures none { checksum ≡ 0 → result ≡ 0 }
    ensures some { checksum ≢ 0 → result ≢ 0 }
    ensures sum { (rest : ℕ) → 0 < rest → checksum ≢ 0
        → ones_sum (rest + after + result) ≡ ones_sum (rest + before + checksum) }
{
    if checksum == 0 {
        return 0;
    }
    let made = updated(checksum, before, after);
    if made == 0 { 65535 } else { made }
}

/// Whether a checksum is the sum of the pseudo-header of IPv4 alone, as it is in a datagram of this
/// machine whose checksum is still to be written, where the kernel notes how. One in 65,535 others
/// looks so too.
#[unsafe(no_mangle)]
pub extern "C" fn kernel_is_unsummed_ipv4(ends: &Ipv4Ends, length: u16, checksum: u16) -> bool
    ensures { result ≡ ones_sum (words (pseudo_ipv4 ends.now length)) == checksum }
{
    ones_sum(ipv4_words(ends) + 17 + u64::from(length)) == checksum
}

/// The same of IPv6.
#[unsafe(no_mangle)]
pub extern "C" fn kernel_is_unsummed_ipv6(ends: &Ipv6Ends, length: u16, checksum: u16) -> bool
    ensures { result ≡ ones_sum (words (pseudo_ipv6 ends.now length)) == checksum }
{
    ones_sum(ipv6_words(ends) + 17 + u64::from(length)) == checksum
}

/// The header of UDP with which ChannelData with this number and this length leaves to the peer
/// over IPv4, as plain data (RFC 8656, section 12.6). The checksum is right if that of the
/// ChannelData was; none stays none.
#[unsafe(no_mangle)]
pub extern "C" fn kernel_to_peer_ipv4(
    header: &Udp,
    from: &Ipv4Ends,
    number: u16,
    length: u16,
    source: u16,
    destination: u16,
    to: &Ipv4Ends,
    made: &mut Udp,
)
    ensures fields { made.new ≡ outgoing_udp true source destination made.new.checksum header.now }
    ensures none { header.now.checksum ≡ 0 → made.new.checksum ≡ 0 }
    ensures some { header.now.checksum ≢ 0 → made.new.checksum ≢ 0 }
    ensures checksum { (bytes : List ℕ) → header.now.checksum ≢ 0
        → is_right (summed_ipv4 to.now made.new bytes)
        ≡ is_right (summed_ipv4 from.now header.now (be16 number ++ be16 length ++ bytes)) }
{
    let before = ipv4_words(from) + u64::from(number) + u64::from(length);
    *made = outgoing_udp(header, true, source, destination, before, ipv4_words(to));
}

/// The same over IPv6.
#[unsafe(no_mangle)]
pub extern "C" fn kernel_to_peer_ipv6(
    header: &Udp,
    from: &Ipv6Ends,
    number: u16,
    length: u16,
    source: u16,
    destination: u16,
    to: &Ipv6Ends,
    made: &mut Udp,
)
    ensures fields { made.new ≡ outgoing_udp true source destination made.new.checksum header.now }
    ensures none { header.now.checksum ≡ 0 → made.new.checksum ≡ 0 }
    ensures some { header.now.checksum ≢ 0 → made.new.checksum ≢ 0 }
    ensures checksum { (bytes : List ℕ) → header.now.checksum ≢ 0
        → is_right (summed_ipv6 to.now made.new bytes)
        ≡ is_right (summed_ipv6 from.now header.now (be16 number ++ be16 length ++ bytes)) }
{
    let before = ipv6_words(from) + u64::from(number) + u64::from(length);
    *made = outgoing_udp(header, true, source, destination, before, ipv6_words(to));
}

/// The header of UDP with which data of a peer leaves to the client over IPv4, as ChannelData with
/// this number (RFC 8656, section 12.7). Returns the length that the header of ChannelData has.
#[unsafe(no_mangle)]
pub extern "C" fn kernel_to_client_ipv4(
    header: &Udp,
    from: &Ipv4Ends,
    number: u16,
    source: u16,
    destination: u16,
    to: &Ipv4Ends,
    made: &mut Udp,
) -> u16
    ensures length { result ≡ header.now.length - 8 }
    ensures fields { made.new ≡ outgoing_udp false source destination made.new.checksum header.now }
    ensures none { header.now.checksum ≡ 0 → made.new.checksum ≡ 0 }
    ensures some { header.now.checksum ≢ 0 → made.new.checksum ≢ 0 }
    ensures checksum { (bytes : List ℕ) → header.now.checksum ≢ 0
        → is_right (summed_ipv4 to.now made.new (be16 number ++ be16 result ++ bytes))
        ≡ is_right (summed_ipv4 from.now header.now bytes) }
{
    let length = header.length.saturating_sub(8);
    let after = ipv4_words(to) + u64::from(number) + u64::from(length);
    *made = outgoing_udp(header, false, source, destination, ipv4_words(from), after);
    length
}

/// The same over IPv6.
#[unsafe(no_mangle)]
pub extern "C" fn kernel_to_client_ipv6(
    header: &Udp,
    from: &Ipv6Ends,
    number: u16,
    source: u16,
    destination: u16,
    to: &Ipv6Ends,
    made: &mut Udp,
) -> u16
    ensures length { result ≡ header.now.length - 8 }
    ensures fields { made.new ≡ outgoing_udp false source destination made.new.checksum header.now }
    ensures none { header.now.checksum ≡ 0 → made.new.checksum ≡ 0 }
    ensures some { header.now.checksum ≢ 0 → made.new.checksum ≢ 0 }
    ensures checksum { (bytes : List ℕ) → header.now.checksum ≢ 0
        → is_right (summed_ipv6 to.now made.new (be16 number ++ be16 result ++ bytes))
        ≡ is_right (summed_ipv6 from.now header.now bytes) }
{
    let length = header.length.saturating_sub(8);
    let after = ipv6_words(to) + u64::from(number) + u64::from(length);
    *made = outgoing_udp(header, false, source, destination, ipv6_words(from), after);
    length
}
