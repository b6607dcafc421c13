//! How far a transaction has come, and what time does to it.

ghost use Rattle.std.specs.Prelude.{◌≡◌, ◌↔◌, ◌+◌, ◌≤◌, IsTrue, min};
ghost use Rattle.std.specs.Duration.{as_nanos, max_nanos};
ghost use Rattle.stun_transactions.specs.Retransmissions.{later, begun, wait_of, due, has_more, is_ready, end_of, ended_by, stopped_by, Polls, TellsTime};
ghost use Rattle.stun_transactions.specs.Outcomes.{outcome_of, after, is_open, end_of_failure};

use crate::plan::Plan;
use crate::received::{Discard, Failure, Received};
use std::time::Duration;

/// How a transaction ended.
#[derive(Clone, Copy, Debug, PartialEq, Eq)]
pub enum TransactionEnd {
    /// A response was taken.
    Answered,
    /// The time for a response was up before one was taken.
    TimedOut,
    /// A response was discarded that wasn't authentic, and none was taken (RFC 8489, sections 9.1.4
    /// and 9.2.5).
    IntegrityViolated,
    /// A response was received that the client can't take (RFC 8489, sections 6.3.3 and 6.3.4).
    Refused,
    /// The caller cancelled the transaction; or it stopped sending, and no response was taken until
    /// the time was up.
    Cancelled,
    /// The caller reported that the transport failed.
    TransportFailed,
}

/// What the caller of a transaction has to do.
#[derive(Clone, Copy, Debug, PartialEq, Eq)]
pub enum Action {
    /// Send the request now.
    Send,
    /// Do nothing before this moment, unless a message is received.
    WaitUntil(Duration),
    /// The transaction has ended.
    Ended(TransactionEnd),
}

/// The state of a request's retransmissions: how far its transaction has come.
#[derive(Clone, Copy, Debug, PartialEq, Eq)]
pub struct RetransmissionState {
    /// The number of polls that have answered `Send`.
    pub sent: u32,
    /// The moment of the last poll that answered `Send`, and before the first the moment at which
    /// the transaction began.
    pub last: Duration,
    /// The latest moment that a call was given.
    pub clock: Duration,
    /// Whether a response that wasn't authentic was discarded.
    pub violated: bool,
    /// Whether the caller has stopped sending.
    pub stopped: bool,
    /// How the transaction ended, if it has.
    pub end: Option<TransactionEnd>,
}

/// How a failure ends a transaction.
fn end_of_failure(failure: Failure) -> TransactionEnd
    ensures { result ≡ end_of_failure failure }
{
    match failure {
        Failure::IntegrityViolated(_) => TransactionEnd::IntegrityViolated,
        Failure::UnknownAttribute(_) | Failure::NoErrorCode => TransactionEnd::Refused,
    }
}

/// The later of two moments.
fn later(clock: Duration, now: Duration) -> Duration
    ensures { result ≡ later clock now }
{
    if clock.as_nanos() < now.as_nanos() {
        now
    } else {
        clock
    }
}

/// Whether an interval after a moment has passed.
fn has_passed(since: Duration, wait: Duration, now: Duration) -> bool
    ensures { IsTrue result ↔ (as_nanos since + as_nanos wait ≤ as_nanos now) }
{
    match now.checked_sub(since) {
        Some(passed) => wait.as_nanos() <= passed.as_nanos(),
        None => false,
    }
}

impl RetransmissionState {
    /// The state of a transaction that begins now.
    pub(crate) fn new(now: Duration) -> RetransmissionState
        ensures { result ≡ begun now }
    {
        RetransmissionState {
            sent: 0,
            last: now,
            clock: now,
            violated: false,
            stopped: false,
            end: None,
        }
    }

    /// How many milliseconds nothing is done after the last request was sent.
    fn wait(&self, plan: &Plan) -> u64
        ensures { result ≡ wait_of plan.now self.now }
    {
        if self.stopped {
            plan.rest(self.sent)
        } else {
            plan.wait(self.sent)
        }
    }

    /// When something is to be done, or the greatest moment if that is later still.
    pub(crate) fn due(&self, plan: &Plan) -> Duration
        ensures { as_nanos result ≡ min (due plan.now self.now) max_nanos }
    {
        let wait = Duration::from_millis(self.wait(plan));
        self.last.saturating_add(wait)
    }

    /// Whether that moment has come.
    fn is_due(&self, plan: &Plan, at: Duration) -> bool
        ensures { IsTrue result ↔ (due plan.now self.now ≤ as_nanos at) }
    {
        let wait = Duration::from_millis(self.wait(plan));
        has_passed(self.last, wait, at)
    }

    /// Whether a poll now sends the request, or reports an end.
    pub(crate) fn is_ready(&self, plan: &Plan, now: Duration) -> bool
        ensures { result ≡ is_ready plan.now self.now now }
    {
        self.end.is_some() || self.is_due(plan, later(self.clock, now))
    }

    /// Whether a further request is to be sent.
    fn has_more(&self, plan: &Plan) -> bool
        ensures { result ≡ has_more plan.now self.now }
    {
        !self.stopped && self.sent < plan.requests()
    }

    /// How the transaction ends when its time is up.
    fn end_of(&self) -> TransactionEnd
        ensures { result ≡ end_of self.now }
    {
        if self.stopped {
            TransactionEnd::Cancelled
        } else if self.violated {
            TransactionEnd::IntegrityViolated
        } else {
            TransactionEnd::TimedOut
        }
    }

    /// What is to be done now.
    pub(crate) fn poll(&mut self, plan: &Plan, now: Duration) -> Action
        ensures { Polls plan.now self.old now result self.new }
    {
        if let Some(end) = self.end {
            return Action::Ended(end);
        }
        let now = later(self.clock, now);
        self.clock = now;
        if !self.is_due(plan, now) {
            return Action::WaitUntil(self.due(plan));
        }
        if self.has_more(plan) {
            self.sent += 1;
            self.last = now;
            return Action::Send;
        }
        let end = self.end_of();
        self.end = Some(end);
        Action::Ended(end)
    }

    /// How long the response took, if one was taken and a single request was sent.
    pub(crate) fn round_trip(&self, now: Duration) -> Option<Duration>
        ensures { TellsTime self.now now result }
    {
        match (self.end, self.sent) {
            (Some(TransactionEnd::Answered), 1) => Some(now.saturating_sub(self.last)),
            _ => None,
        }
    }

    /// Sends nothing more, unless it has ended.
    pub(crate) fn stop_sending(&mut self)
        ensures { self.new ≡ stopped_by self.old }
    {
        if self.end.is_none() {
            self.stopped = true;
        }
    }

    /// Ends it, unless it has ended.
    pub(crate) fn end_by(&mut self, end: TransactionEnd)
        ensures { self.new ≡ ended_by end self.old }
    {
        if self.end.is_none() {
            self.end = Some(end);
        }
    }

    /// Whether the transaction is in progress: its request was sent, and it has not ended.
    pub(crate) fn is_open(&self) -> bool
        ensures { result ≡ is_open self.now }
    {
        self.sent > 0 && self.end.is_none()
    }

    /// Takes in what a received message is for the transaction.
    pub(crate) fn receive(&mut self, received: &Received<'_>)
        ensures { self.new ≡ after (outcome_of received.now) self.old }
    {
        match received {
            Received::NotForThis
            | Received::Discarded(
                Discard::BidDown | Discard::UnsignedBadRequest | Discard::NoFingerprint,
                _,
            ) => {}
            Received::Discarded(Discard::NotAuthentic | Discard::OtherAlgorithm, _) => {
                self.violated = true;
            }
            Received::Failed(failure) => self.end = Some(end_of_failure(*failure)),
            Received::Success(_, _) | Received::Error(_, _, _) => {
                self.end = Some(TransactionEnd::Answered);
            }
        }
    }
}
