//! What was relayed for each relayed address.

ghost use Rattle.std.specs.Prelude.{◌≡◌, IfOk, replicate, slice_set};
ghost use Rattle.turn_allocations.specs.Metering.{with_to_peer, with_to_client, unused, slot_of, traffic_in, traffic_of, counted};

use std::alloc::{AllocError, Global};
use std::marker::Model;

/// A number modulo this is its slot.
const PLACES: u64 = 16_777_216;

/// What was relayed for one relayed address. Each count stays at `u64::MAX` once it is there.
#[derive(Clone, Copy, Debug, Default, PartialEq, Eq)]
pub struct Traffic {
    /// The datagrams that its socket sent to peers.
    pub packets_to_peers: u64,
    /// The octets of data in them.
    pub octets_to_peers: u64,
    /// The datagrams of peers that were relayed to the client.
    pub packets_to_client: u64,
    /// The octets of data in them.
    pub octets_to_client: u64,
}

impl Traffic {
    /// With one more packet to a peer.
    fn with_to_peer(self, octets: u64) -> Traffic
        ensures { result ≡ with_to_peer octets self }
    {
        Traffic {
            packets_to_peers: self.packets_to_peers.saturating_add(1),
            octets_to_peers: self.octets_to_peers.saturating_add(octets),
            ..self
        }
    }

    /// With one more packet to the client.
    fn with_to_client(self, octets: u64) -> Traffic
        ensures { result ≡ with_to_client octets self }
    {
        Traffic {
            packets_to_client: self.packets_to_client.saturating_add(1),
            octets_to_client: self.octets_to_client.saturating_add(octets),
            ..self
        }
    }
}

/// What the place of a slot counts, and the number of the relayed address that it counts for.
#[derive(Clone, Copy, Default)]
pub(crate) struct Metered {
    number: u64,
    traffic: Traffic,
}

impl Metered {
    /// The traffic of a number: nothing, if the place counts for another.
    fn traffic_of(&self, number: u64) -> Traffic
        ensures { result ≡ traffic_in self.now number }
    {
        if self.number == number {
            self.traffic
        } else {
            Traffic::default()
        }
    }
}

/// Counts what is relayed for each relayed address, by its number: packets, and the octets of their data.
///
/// A meter has one place for each slot of relayed addresses, with the number that it counts for. A relayed
/// address that is new in a slot has another number than those before it, so it begins at zero. The traffic
/// of one that has ended is there until another in its slot counts a packet.
///
/// The caller counts each packet that it relays: what
/// [`on_send`](crate::Allocations::on_send) and [`on_channel_data`](crate::Allocations::on_channel_data)
/// return goes to a peer, and what [`on_peer_data`](crate::Allocations::on_peer_data) returns goes to the
/// client. [`meters_count`](crate::meters_count) has the laws, and
/// [`numbers_have_places`](crate::Allocations::numbers_have_places) has what they require.
///
/// [`Meter::new`] takes all memory; no other call allocates. The cost of a call doesn't depend on how many
/// relayed addresses there are.
///
/// ```
/// use turn_allocations::{Meter, Traffic};
///
/// let mut meter = Meter::new(alloc, 100)?;
/// meter.count_to_peer(7, 1000);
/// meter.count_to_client(7, 20);
/// meter.count_to_client(7, 30);
/// let traffic = meter.of(7);
/// assert_eq!(rt; (traffic.packets_to_peers, traffic.octets_to_peers), (1, 1000));
/// assert_eq!(rt; (traffic.packets_to_client, traffic.octets_to_client), (2, 50));
///
/// let later = 7 + (1 << 24);
/// assert_eq!(rt; meter.of(later), Traffic::default());
/// meter.count_to_client(later, 5);
/// assert_eq!(rt; meter.of(later).octets_to_client, 5);
/// assert_eq!(rt; meter.of(7), Traffic::default());
/// ```
#[derive(Drop)]
pub struct Meter {
    places: Vec<Metered>,
}

impl Model for Meter {
    ghost use Rattle.std.specs.Prelude.{List};
    ghost use Rattle.turn_allocations.specs.declared.metering.Metered.{Metered};

    ghost Value = { List Metered };

    ghost view = { λ meter. meter.places.items };
}

impl Meter {
    /// Makes a meter that has counted nothing, with a place for each slot below `capacity`: pass
    /// [`Limits::relays`](crate::Limits::relays). It takes all memory that it ever needs, 40 bytes for each
    /// place.
    ///
    /// # Errors
    ///
    /// Only if an allocation of memory failed.
    pub fn new(alloc: Global, capacity: u32) -> Result<Self, AllocError>
        ensures { IfOk result (λ meter. meter ≡ replicate capacity unused) }
    {
        let mut places = Vec::new(alloc);
        places.resize(capacity as usize, Metered::default())?;
        Ok(Meter { places })
    }

    /// Returns what was relayed for the relayed address with a number.
    ///
    /// Nothing, if no packet of the number was counted, or if one of a later relayed address in its slot was,
    /// or if its slot, which is its low 24 bits, is not below the capacity.
    pub fn of(&self, number: u64) -> Traffic
        ensures { result ≡ traffic_of number self.now }
    {
        match self.places.get((number % PLACES) as usize) {
            Some(place) => place.traffic_of(number),
            None => Traffic::default(),
        }
    }

    /// Sets what was relayed for a number.
    fn set(&mut self, number: u64, traffic: Traffic)
        ensures { self.new ≡ slice_set self.old (slot_of number)
            (record { number = number; traffic = traffic }) }
    {
        let slot = (number % PLACES) as usize;
        if slot < self.places.len() {
            self.places[slot] = Metered { number, traffic };
        }
    }

    /// Counts a packet to a peer, with so many octets of data, for the relayed address with a number.
    ///
    /// If the place of its slot counts for another number, the traffic of that one is forgotten. Counts
    /// nothing if the slot is not below the capacity.
    pub fn count_to_peer(&mut self, number: u64, octets: usize)
        ensures { self.new ≡ counted number (with_to_peer octets) self.old }
    {
        let traffic = self.of(number).with_to_peer(octets as u64);
        self.set(number, traffic);
    }

    /// Counts a packet to the client, with so many octets of data, for the relayed address with a number.
    ///
    /// If the place of its slot counts for another number, the traffic of that one is forgotten. Counts
    /// nothing if the slot is not below the capacity.
    pub fn count_to_client(&mut self, number: u64, octets: usize)
        ensures { self.new ≡ counted number (with_to_client octets) self.old }
    {
        let traffic = self.of(number).with_to_client(octets as u64);
        self.set(number, traffic);
    }
}
