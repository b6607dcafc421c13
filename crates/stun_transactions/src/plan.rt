//! How long a transaction waits.

ghost use Rattle.std.specs.Prelude.{◌≡◌};
ghost use Rattle.stun_transactions.specs.Schedules.{requests_in, wait_in, rest_in};

use crate::schedule::Schedule;
use stun_types::TransportType;

/// A schedule and the transport over which its requests are sent.
#[derive(Clone, Copy, Debug, PartialEq, Eq)]
pub struct Plan {
    /// The schedule by which the request is sent.
    pub schedule: Schedule,
    /// The transport over which the request is sent.
    pub transport: TransportType,
}

impl Plan {
    /// How many requests are sent at most.
    pub(crate) fn requests(&self) -> u32
        ensures { result ≡ requests_in self.now }
    {
        self.schedule.requests_over(self.transport)
    }

    /// How many milliseconds nothing is done once `sent` requests were sent.
    pub(crate) fn wait(&self, sent: u32) -> u64
        ensures { result ≡ wait_in self.now sent }
    {
        self.schedule.wait_over(self.transport, sent)
    }

    /// How many milliseconds a response is still waited for once `sent` requests were sent, and no
    /// further one is.
    pub(crate) fn rest(&self, sent: u32) -> u64
        ensures { result ≡ rest_in self.now sent }
    {
        self.schedule.rest_over(self.transport, sent)
    }
}
