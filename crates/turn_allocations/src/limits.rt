//! Limits and options of a server.

use crate::families::Families;

/// The limits and options of [`Allocations`](crate::Allocations), which the caller sets once: bounds, what
/// the server can do, and two departures from RFC 8656 for clients that need them.
#[derive(Clone, Copy, Debug, PartialEq, Eq)]
pub struct Limits {
    /// The most relayed addresses at a time, below 2^24. If there are as many, an Allocate request is refused
    /// with 508. An allocation with an address of each family counts as two.
    pub relays: u32,
    /// The most relayed addresses of one user at a time. If the user has as many, an Allocate request is
    /// refused with 486. If one more is allowed, a request for both families gets one address, and 508 as the
    /// reason for the family that is missing.
    pub relays_per_user: u32,
    /// The most reserved sockets at a time, for EVEN-PORT with its R bit (RFC 8656, section 7.2), and at most
    /// `relays_per_user` of one user. An Allocate request beyond it is refused with 508. 0 reserves none.
    ///
    /// [`Allocations`](crate::Allocations) makes no reservations, and doesn't read this.
    pub reservations: u32,
    /// The longest lifetime of an allocation, in seconds: RFC 8656, section 7.2, recommends at most 3600. A
    /// value below 600, the default lifetime, counts as 600.
    pub greatest_lifetime: u32,
    /// The address families that the server relays. An Allocate request for another family is refused with
    /// 440. A request for both families gets the one that is relayed, and 440 as the reason for the other.
    pub families: Families<bool>,
    /// Whether the server can set the DF bit of datagrams to peers (RFC 8656, section 14). If not, a Send
    /// indication with DONT-FRAGMENT is dropped, and the caller rejects an Allocate request with
    /// DONT-FRAGMENT with 420 (section 7.2).
    pub dont_fragment: bool,
    /// Whether the server relays ICMP packets to clients (RFC 8656, section 11.5). If not,
    /// [`on_icmp`](crate::Allocations::on_icmp) drops them all.
    pub icmp: bool,
    /// Whether the permission that a ChannelBind request installs lasts 600 seconds, as long as the channel.
    /// By RFC 8656, section 9, it lasts 300, but some clients refresh only their channels. A later
    /// CreatePermission request for the same IP address sets it to 300 seconds again.
    pub channel_permits: bool,
    /// Whether channel numbers from 0x5000 to 0x7FFF are valid too, as in RFC 5766. RFC 8656, section 12, has
    /// only 0x4000 to 0x4FFF.
    pub old_channels: bool,
}

/// At most 4,096 relayed addresses, 64 of one user, lifetimes up to an hour, and 64 reserved sockets: both
/// families, by the rules of RFC 8656, without DONT-FRAGMENT and ICMP.
impl Default for Limits {
    ghost use Rattle.std.specs.Prelude.{◌≡◌, true, false};

    ghost is_default = { λ limits. limits ≡ record {
      relays = 4096;
      relays_per_user = 64;
      reservations = 64;
      greatest_lifetime = 3600;
      families = record { ipv4 = true; ipv6 = true };
      dont_fragment = false;
      icmp = false;
      channel_permits = false;
      old_channels = false;
    } };

    fn default() -> Self {
        Limits {
            relays: 4096,
            relays_per_user: 64,
            reservations: 64,
            greatest_lifetime: 3600,
            families: Families {
                ipv4: true,
                ipv6: true,
            },
            dont_fragment: false,
            icmp: false,
            channel_permits: false,
            old_channels: false,
        }
    }
}
