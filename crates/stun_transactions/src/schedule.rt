//! When a request is sent (RFC 8489, section 6.2).

ghost use Rattle.std.specs.Prelude.{◌≡◌, ◌<◌, ◌≤◌, ◌^◌, ◌+◌, ◌-◌, ◌*◌, MatchOption};
ghost use Rattle.stun_transactions.specs.Rows.{row_end, row_wait};

use std::time::Duration;
use stun_types::TransportType;
use thiserror::Error;

/// The times at which a request is sent again, and at which its transaction is given up (RFC 8489,
/// section 6.2).
///
/// Over an unreliable transport (UDP, or DTLS over it) the request is sent again after RTO, and
/// then after twice the interval before, until `max_requests` requests were sent; after
/// `last_wait_factor` times RTO more the transaction ends. By the default numbers these moments are
/// 0, 500, 1500, 3500, 7500, 15500 and 31500 ms, and the end 39500 ms. Over a reliable transport
/// (TCP, or TLS over it) it is sent once, and the transaction ends after `reliable_timeout`.
///
/// RFC 8489 calls `max_requests` Rc and `last_wait_factor` Rm (section 6.2.1), and
/// `reliable_timeout` Ti (section 6.2.2).
#[derive(Clone, Copy, Debug, PartialEq, Eq)]
pub struct Schedule {
    rto: u64,
    max_requests: u32,
    last_wait_factor: u32,
    reliable_timeout: u64,
    ghost starts: { 1 ≤ rto },
    ghost sends: { 1 ≤ max_requests },
    ghost few: { max_requests ≤ 64 },
    ghost fits: { row_end rto max_requests last_wait_factor < 2 ^ 64 },
}

/// Why numbers make no schedule.
#[derive(Clone, Copy, Debug, PartialEq, Eq, Error)]
pub enum ScheduleError {
    /// A number of the schedule is 0.
    #[error("a number of the schedule is 0")]
    Zero,
    /// The end of the transaction, in milliseconds from the first request, needs more than 64 bits.
    #[error("the schedule is too long")]
    TooLong,
}

/// When a transaction ends by these numbers, if that fits 64 bits.
#[tactic(auto, using(crate::proofs::RowsLemmas::too_many, crate::proofs::RowsLemmas::pow_fits))]
fn end_of_row(rto: u64, max_requests: u32, last_wait_factor: u32) -> Option<u64>
    requires starts { 1 ≤ rto }
    requires sends { 1 ≤ max_requests }
    requires waits { 1 ≤ last_wait_factor }
    ensures { MatchOption result
        (2 ^ 64 ≤ row_end rto max_requests last_wait_factor)
        (λ end. (end ≡ row_end rto max_requests last_wait_factor) × (max_requests ≤ 64)) }
{
    if max_requests > 64 {
        return None;
    }
    let last = rto.checked_mul(2u64.pow(max_requests - 1) - 1)?;
    let wait = rto.checked_mul(u64::from(last_wait_factor))?;
    last.checked_add(wait)
}

impl Schedule {
    ghost use Rattle.std.specs.Prelude.{◌≡◌, ◌<◌, ◌≤◌, MatchResult, MatchOption, None, Some, slice_index};
    ghost use Rattle.stun_transactions.specs.Rows.{moment, moments, row_end};
    ghost use Rattle.stun_transactions.specs.Schedules.{schedule_fault, IsSchedule, requests_over, wait_over, rest_over};

    /// Returns the schedule that RFC 8489 recommends: an RTO of 500 ms, 7 requests, a last wait of
    /// 16 RTO, and over a reliable transport 39500 ms (sections 6.2.1 and 6.2.2).
    pub fn new_default() -> Schedule
        ensures { IsSchedule 500 7 16 39500 result }
    {
        Schedule {
            rto: 500,
            max_requests: 7,
            last_wait_factor: 16,
            reliable_timeout: 39500,
        }
    }

    /// Returns the schedule of an RTO in milliseconds, of at most `max_requests` requests (Rc of
    /// RFC 8489, section 6.2.1), and of a wait of `last_wait_factor` times RTO after the last one
    /// (Rm). Over a reliable transport it waits for 39500 ms.
    ///
    /// # Errors
    ///
    /// `Zero` if one of the numbers is 0, `TooLong` if the end of the transaction needs more than
    /// 64 bits: it is `rto * (2 ^ (max_requests - 1) - 1 + last_wait_factor)` milliseconds after
    /// the first request.
    ///
    /// # Examples
    ///
    /// ```
    /// use stun_transactions::{Schedule, ScheduleError};
    ///
    /// // RTO, Rc and Rm as RFC 8489 recommends them.
    /// assert_eq!(rt; Schedule::new(500, 7, 16), Ok(Schedule::new_default()));
    /// // Half a second for the first response, and a second for the second one.
    /// let schedule = Schedule::new(500, 2, 2)?;
    /// assert_eq!(rt; schedule.end(), 1500);
    /// assert_eq!(rt; Schedule::new(500, 0, 16), Err(ScheduleError::Zero));
    /// ```
    pub fn new(
        rto: u64,
        max_requests: u32,
        last_wait_factor: u32,
    ) -> Result<Schedule, ScheduleError>
        ensures { MatchResult result
            (λ schedule. (schedule_fault rto max_requests last_wait_factor ≡ None)
            × IsSchedule rto max_requests last_wait_factor 39500 schedule)
            (λ e. schedule_fault rto max_requests last_wait_factor ≡ Some e) }
    {
        if rto == 0 || max_requests == 0 || last_wait_factor == 0 {
            return Err(ScheduleError::Zero);
        }
        match end_of_row(rto, max_requests, last_wait_factor) {
            Some(_) => Ok(Schedule {
                rto,
                max_requests,
                last_wait_factor,
                reliable_timeout: 39500,
            }),
            None => Err(ScheduleError::TooLong),
        }
    }

    /// Returns this schedule with another timeout over a reliable transport, in milliseconds (Ti of
    /// RFC 8489, section 6.2.2).
    ///
    /// # Examples
    ///
    /// ```
    /// use stun_transactions::Schedule;
    ///
    /// let schedule = Schedule::new_default().with_reliable_timeout(10000);
    /// assert_eq!(rt; schedule.reliable_timeout(), 10000);
    /// // Over UDP nothing changes.
    /// assert_eq!(rt; schedule.end(), 39500);
    /// ```
    pub fn with_reliable_timeout(self, reliable_timeout: u64) -> Schedule
        ensures { IsSchedule self.rto self.max_requests self.last_wait_factor reliable_timeout result }
    {
        let Schedule {
            rto,
            max_requests,
            last_wait_factor,
            reliable_timeout: _,
        } = self;
        Schedule {
            rto,
            max_requests,
            last_wait_factor,
            reliable_timeout,
        }
    }

    /// Returns the retransmission timeout, RTO, in milliseconds.
    pub fn rto(&self) -> u64
        ensures { result ≡ self.now.rto }
    {
        self.rto
    }

    /// Returns the greatest number of requests over an unreliable transport (Rc of RFC 8489,
    /// section 6.2.1).
    pub fn max_requests(&self) -> u32
        ensures { result ≡ self.now.max_requests }
    {
        self.max_requests
    }

    /// Returns how many times RTO the transaction waits after the last request over an unreliable
    /// transport (Rm of RFC 8489, section 6.2.1).
    pub fn last_wait_factor(&self) -> u32
        ensures { result ≡ self.now.last_wait_factor }
    {
        self.last_wait_factor
    }

    /// Returns the timeout over a reliable transport, in milliseconds (Ti of RFC 8489, section
    /// 6.2.2).
    pub fn reliable_timeout(&self) -> u64
        ensures { result ≡ self.now.reliable_timeout }
    {
        self.reliable_timeout
    }

    /// Returns when request number `n`, counted from 0, is sent over an unreliable transport if
    /// every poll is in time: in milliseconds from the first request. `None` if there is no such
    /// request.
    ///
    /// # Examples
    ///
    /// ```
    /// use stun_transactions::Schedule;
    ///
    /// // The times of the example in section 6.2.1 of RFC 8489.
    /// let schedule = Schedule::new_default();
    /// assert_eq!(rt; schedule.moment(0), Some(0));
    /// assert_eq!(rt; schedule.moment(1), Some(500));
    /// assert_eq!(rt; schedule.moment(2), Some(1500));
    /// assert_eq!(rt; schedule.moment(6), Some(31500));
    /// assert_eq!(rt; schedule.moment(7), None);
    /// ```
    #[tactic(auto, using(crate::proofs::RowsLemmas::moment_fits, crate::proofs::RowsLemmas::pow_fits, crate::proofs::RowsLemmas::moment_at))]
    pub fn moment(&self, n: u32) -> Option<u64>
        ensures { MatchOption result
            (self.now.max_requests ≤ n)
            (λ at. (n < self.now.max_requests)
            × (at ≡ slice_index (moments self.now.rto self.now.max_requests) n)) }
    {
        if n < self.max_requests {
            Some(self.rto * (2u64.pow(n) - 1))
        } else {
            None
        }
    }

    /// When request number `n`, counted from 0, is sent, which is not after the end.
    #[tactic(auto, using(crate::proofs::RowsLemmas::moment_fits, crate::proofs::RowsLemmas::pow_fits, crate::proofs::RowsLemmas::no_later))]
    fn sent_at(&self, n: u32) -> u64
        requires { n < self.now.max_requests }
        ensures at { result ≡ moment self.now.rto n }
        ensures before { result
            ≤ row_end self.now.rto self.now.max_requests self.now.last_wait_factor }
    {
        self.rto * (2u64.pow(n) - 1)
    }

    /// Returns when the transaction ends over an unreliable transport if every poll is in time: in
    /// milliseconds from the first request.
    ///
    /// # Examples
    ///
    /// ```
    /// use stun_transactions::Schedule;
    ///
    /// assert_eq!(rt; Schedule::new_default().end(), 39500);
    /// ```
    #[tactic(auto, using(crate::proofs::RowsLemmas::pow_fits))]
    pub fn end(&self) -> u64
        ensures { result ≡ row_end self.now.rto self.now.max_requests self.now.last_wait_factor }
    {
        self.rto * (2u64.pow(self.max_requests - 1) - 1)
            + self.rto * u64::from(self.last_wait_factor)
    }

    /// Returns the greatest number of requests that are sent over a transport.
    ///
    /// # Examples
    ///
    /// ```
    /// use stun_transactions::Schedule;
    /// use stun_types::TransportType;
    ///
    /// let schedule = Schedule::new_default();
    /// assert_eq!(rt; schedule.requests_over(TransportType::Udp), 7);
    /// assert_eq!(rt; schedule.requests_over(TransportType::Tcp), 1);
    /// ```
    pub fn requests_over(&self, transport: TransportType) -> u32
        ensures { result ≡ requests_over self.now transport }
    {
        match transport {
            TransportType::Udp => self.max_requests,
            TransportType::Tcp => 1,
        }
    }

    /// Returns for how many milliseconds nothing is done over a transport once `sent` requests were
    /// sent: 0 before the first.
    ///
    /// # Examples
    ///
    /// ```
    /// use stun_transactions::Schedule;
    /// use stun_types::TransportType;
    ///
    /// let schedule = Schedule::new_default();
    /// assert_eq!(rt; schedule.wait_over(TransportType::Udp, 1), 500);
    /// assert_eq!(rt; schedule.wait_over(TransportType::Udp, 2), 1000);
    /// // After the last request: 16 times RTO.
    /// assert_eq!(rt; schedule.wait_over(TransportType::Udp, 7), 8000);
    /// ```
    #[tactic(auto, using(crate::proofs::RowsLemmas::wait_fits, crate::proofs::RowsLemmas::pow_fits))]
    pub fn wait_over(&self, transport: TransportType, sent: u32) -> u64
        ensures { result ≡ wait_over self.now transport sent }
    {
        if sent == 0 {
            return 0;
        }
        match transport {
            TransportType::Tcp => self.reliable_timeout,
            TransportType::Udp if sent < self.max_requests => self.rto * 2u64.pow(sent - 1),
            TransportType::Udp => self.rto * u64::from(self.last_wait_factor),
        }
    }

    /// Returns for how many milliseconds a response is still waited for once `sent` requests were
    /// sent, and no further one is: as long as the transaction would have gone on, and 0 before the
    /// first.
    ///
    /// # Examples
    ///
    /// ```
    /// use stun_transactions::Schedule;
    /// use stun_types::TransportType;
    ///
    /// // The transaction would end after 39500 ms. The second request was sent at 500 ms.
    /// let schedule = Schedule::new_default();
    /// assert_eq!(rt; schedule.rest_over(TransportType::Udp, 1), 39500);
    /// assert_eq!(rt; schedule.rest_over(TransportType::Udp, 2), 39000);
    /// ```
    pub fn rest_over(&self, transport: TransportType, sent: u32) -> u64
        ensures { result ≡ rest_over self.now transport sent }
    {
        if sent == 0 {
            return 0;
        }
        match transport {
            TransportType::Tcp => self.reliable_timeout,
            TransportType::Udp => {
                let last = sent.min(self.max_requests) - 1;
                self.end() - self.sent_at(last)
            }
        }
    }
}
