//! Channels that are relayed in both directions, and until when (RFC 8656, sections 6, 9 and 12).

ghost use Rattle.std.specs.Prelude.{◌≡◌, None};
ghost use Rattle.std.specs.Option.{option_map_or};
ghost use Rattle.turn_machine.specs.Flows.{flow_on};
ghost use Rattle.turn_relays.specs.Relayed.{at_slot};

use crate::granting::kept_at;
use crate::relayed::entry_at;
use crate::relays::Relays;
use std::marker::Model;
use stun_endpoints::Endpoint;

/// What the data of a channel is relayed by, in both directions: a program in the kernel can do it without
/// asking the server for each packet.
///
/// The client's ChannelData goes from the socket to the peer, and what the peer sends to the socket goes to the
/// client on the channel.
#[derive(Clone, Copy, Debug, PartialEq, Eq)]
pub struct Flow {
    /// The number of the socket of the relayed address.
    pub number: u64,
    /// The peer that the channel is bound to.
    pub peer: Endpoint,
    /// The first end of the relayed address, the channel, and the permission for the peer's IP address, in
    /// nanoseconds of the caller's clock.
    pub expires_at: u128,
}

impl Model for Flow {
    ghost use Rattle.turn_machine.specs.Flows.{Flow as MachineFlow};

    ghost Value = { MachineFlow };

    ghost view = { λ flow. record {
      number = flow.number;
      peer = flow.peer;
      expires_at = flow.expires_at;
    } };

    ghost inverse = { λ flow. record {
      number = flow.number;
      peer = flow.peer;
      expires_at = flow.expires_at;
    } };
}

impl<const P: usize, const C: usize> Relays<P, C> {
    /// Returns the flow on a channel of the relayed address in a slot.
    ///
    /// Returns `None` if the number is not bound, or there is no permission for the IP address of its peer, or
    /// one of both has expired, or the slot is free or not below the capacity.
    ///
    /// ```
    /// use stun_endpoints::{Endpoint, Ip};
    /// use turn_relays::{Flow, Relays};
    /// use turn_slots::{RelayKey, UserId};
    ///
    /// let mut relays = Relays::<16, 8>::new(alloc, 1, [1, 2])?;
    /// let key = RelayKey { family: 1, ..RelayKey::default() };
    /// let (user, address) = (UserId::default(), Endpoint::default());
    /// let number = relays.open(key, user, 7, address, 3_600_000_000_000).unwrap_or(0);
    /// let peer = Endpoint { ip: Ip { family: 1, ..Ip::default() }, port: 9 };
    /// relays.bind(0, 0x4000, peer, 300);
    /// let flow = Flow { number, peer, expires_at: 300_000_000_000 };
    /// assert_eq!(rt; relays.flow_on(0, 0x4000), Some(flow));
    /// assert_eq!(rt; relays.flow_on(0, 0x4001), None);
    ///
    /// // It ends with the permission, the channel, or the relayed address.
    /// relays.bind(0, 0x4000, peer, 900);
    /// let flow = Flow { expires_at: 600_000_000_000, ..flow };
    /// assert_eq!(rt; relays.flow_on(0, 0x4000), Some(flow));
    /// relays.set_end(0, 1_000);
    /// assert_eq!(rt; relays.flow_on(0, 0x4000), Some(Flow { expires_at: 1_000, ..flow }));
    /// ```
    pub fn flow_on(&self, slot: usize, channel: u16) -> Option<Flow>
        ensures { result ≡ option_map_or (flow_on self.now.clock channel) (at_slot self.now slot) None }
    {
        let entry = entry_at(self.slots.entries(), slot)?;
        kept_at(&self.kept, slot)?.flow_on(self.clock, &entry, channel)
    }
}
