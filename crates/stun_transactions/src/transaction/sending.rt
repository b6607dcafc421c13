//! When a request is sent, and how its transaction ends.

use crate::retransmission::{Action, TransactionEnd};
use crate::transaction::Transaction;
use std::time::Duration;

impl Transaction {
    ghost use Rattle.std.specs.Prelude.{◌≡◌};
    ghost use Rattle.stun_transactions.specs.Retransmissions.{Polls, is_ready, TellsTime};
    ghost use Rattle.stun_transactions.specs.Transactions.{going_on, ending, stopping, Wakes};

    /// Returns the moment from which on a poll answers `Send`, or `Ended` since time is up, unless
    /// a message is received before. `None` if the transaction has ended.
    ///
    /// # Examples
    ///
    /// ```
    /// use std::time::Duration;
    /// use stun_transactions::{Protection, Schedule, Transaction, ResponsePolicy};
    /// use stun_types::TransportType;
    /// use stun_types::message::Message;
    ///
    /// // As `Message::builder_request` wrote it, with an ID that it drew.
    /// let request = Message::from_bytes(
    ///     b"\x00\x01\x00\x00\x21\x12\xA4\x42\xB7\xE7\xA7\x01\xBC\x34\xD6\x86\xFA\x87\xDF\xAE",
    /// )?;
    /// let (schedule, usage) = (Schedule::new_default(), ResponsePolicy::default());
    /// let (udp, open, start) = (TransportType::Udp, Protection::Unprotected, Duration::ZERO);
    /// let mut transaction = Transaction::new(&request, schedule, udp, open, usage, start)?;
    /// assert_eq!(rt; transaction.next_wake(), Some(start));
    /// transaction.poll(start);
    /// assert_eq!(rt; transaction.next_wake(), Some(Duration::from_millis(500)));
    /// ```
    pub fn next_wake(&self) -> Option<Duration>
        ensures { Wakes self.now.parts result }
    {
        self.parts.next_wake()
    }

    /// Returns `true` if a poll now answers something else than `WaitUntil`.
    pub fn is_ready(&self, now: Duration) -> bool
        ensures { result ≡ is_ready self.now.parts.plan self.now.parts.state now }
    {
        self.parts.is_ready(now)
    }

    /// Returns what the caller has to do now: send the request, wait, or forget the transaction.
    ///
    /// - `Send`: send the request, now. Each interval runs from the poll that answers this, so a
    ///   late poll moves the later ones and shortens none.
    /// - `WaitUntil(time)`: nothing before `time`, unless a message is received.
    /// - `Ended(end)`: the transaction has ended, or ends now since its time is up. From then on
    ///   nothing changes.
    ///
    /// # Examples
    ///
    /// ```
    /// use std::time::Duration;
    /// use stun_transactions::{Action, Protection, Schedule, Transaction, TransactionEnd, ResponsePolicy};
    /// use stun_types::TransportType;
    /// use stun_types::message::Message;
    ///
    /// // As `Message::builder_request` wrote it, with an ID that it drew.
    /// let request = Message::from_bytes(
    ///     b"\x00\x01\x00\x00\x21\x12\xA4\x42\xB7\xE7\xA7\x01\xBC\x34\xD6\x86\xFA\x87\xDF\xAE",
    /// )?;
    /// let (schedule, usage) = (Schedule::new_default(), ResponsePolicy::default());
    /// let (udp, open, start) = (TransportType::Udp, Protection::Unprotected, Duration::ZERO);
    /// let mut transaction = Transaction::new(&request, schedule, udp, open, usage, start)?;
    /// // The times of the example in section 6.2.1 of RFC 8489.
    /// for millis in [0, 500, 1500, 3500, 7500, 15500, 31500] {
    ///     assert_eq!(rt; transaction.poll(Duration::from_millis(millis)), Action::Send);
    /// }
    /// let end = Duration::from_millis(39500);
    /// assert_eq!(rt; transaction.poll(end), Action::Ended(TransactionEnd::TimedOut));
    /// ```
    pub fn poll(&mut self, now: Duration) -> Action
        ensures polls { Polls self.old.parts.plan self.old.parts.state now result
            self.new.parts.state }
        ensures others { self.new ≡ going_on self.old self.new.parts.state }
    {
        self.parts.poll(now)
    }

    /// Returns how long the response took, if it was received at this moment: the time since the
    /// poll that answered `Send`, or 0 if `now` is before that. `None` if no response was taken, or
    /// if the request was sent more than once, since then it isn't known which request was answered
    /// (RFC 8489, section 6.2.1).
    ///
    /// # Examples
    ///
    /// ```
    /// use std::time::Duration;
    /// use stun_transactions::{Protection, Schedule, Transaction, ResponsePolicy};
    /// use stun_types::TransportType;
    /// use stun_types::message::Message;
    ///
    /// // As `Message::builder_request` wrote it, with an ID that it drew.
    /// let request = Message::from_bytes(
    ///     b"\x00\x01\x00\x00\x21\x12\xA4\x42\xB7\xE7\xA7\x01\xBC\x34\xD6\x86\xFA\x87\xDF\xAE",
    /// )?;
    /// let (schedule, usage) = (Schedule::new_default(), ResponsePolicy::default());
    /// let (udp, open, start) = (TransportType::Udp, Protection::Unprotected, Duration::ZERO);
    /// let mut transaction = Transaction::new(&request, schedule, udp, open, usage, start)?;
    /// transaction.poll(start);
    /// let response = b"\x01\x01\x00\x0C\x21\x12\xA4\x42\
    ///                  \xB7\xE7\xA7\x01\xBC\x34\xD6\x86\xFA\x87\xDF\xAE\
    ///                  \x00\x20\x00\x08\x00\x01\xA1\x47\xE1\x12\xA6\x43";
    /// transaction.receive(response, &[]);
    /// let millis = Duration::from_millis(40);
    /// assert_eq!(rt; transaction.round_trip(millis), Some(millis));
    /// ```
    pub fn round_trip(&self, now: Duration) -> Option<Duration>
        ensures { TellsTime self.now.parts.state now result }
    {
        self.parts.round_trip(now)
    }

    /// Stops sending the request, unless the transaction has ended. A response is still taken,
    /// until the moment at which the transaction would have ended; then it ends as cancelled, since
    /// that no response came is no failure. It is how ICE cancels a check (RFC 8445, section
    /// 7.3.1.4). A transaction whose request was not sent ends at the next poll.
    ///
    /// # Examples
    ///
    /// ```
    /// use std::time::Duration;
    /// use stun_transactions::{Action, Protection, Schedule, Transaction, TransactionEnd, ResponsePolicy};
    /// use stun_types::TransportType;
    /// use stun_types::message::Message;
    ///
    /// // As `Message::builder_request` wrote it, with an ID that it drew.
    /// let request = Message::from_bytes(
    ///     b"\x00\x01\x00\x00\x21\x12\xA4\x42\xB7\xE7\xA7\x01\xBC\x34\xD6\x86\xFA\x87\xDF\xAE",
    /// )?;
    /// let (schedule, usage) = (Schedule::new_default(), ResponsePolicy::default());
    /// let (udp, open, start) = (TransportType::Udp, Protection::Unprotected, Duration::ZERO);
    /// let mut transaction = Transaction::new(&request, schedule, udp, open, usage, start)?;
    /// transaction.poll(start);
    /// transaction.stop_sending();
    /// // A response is still taken until the transaction would have timed out.
    /// let end = Duration::from_millis(39500);
    /// assert_eq!(rt; transaction.poll(Duration::from_millis(500)), Action::WaitUntil(end));
    /// assert_eq!(rt; transaction.poll(end), Action::Ended(TransactionEnd::Cancelled));
    /// ```
    pub fn stop_sending(&mut self)
        ensures { self.new ≡ stopping self.old }
    {
        self.parts.stop_sending();
    }

    /// Ends the transaction, unless it has ended.
    pub(crate) fn end_by(&mut self, end: TransactionEnd)
        ensures { self.new ≡ ending end self.old }
    {
        self.parts.end_by(end);
    }

    /// Ends the transaction as cancelled, unless it has ended: the caller wants no response any
    /// more. One that still wants it, and only sends no more, calls [`Transaction::stop_sending`].
    pub fn cancel(&mut self)
        ensures { self.new ≡ ending TransactionEnd.Cancelled self.old }
    {
        self.parts.cancel();
    }

    /// Ends the transaction as failed by its transport, unless it has ended: by a hard ICMP error,
    /// say, or a connection that was closed (RFC 8489, sections 6.2.1 and 6.2.2).
    ///
    /// # Examples
    ///
    /// ```
    /// use std::time::Duration;
    /// use stun_transactions::{Action, Protection, Schedule, Transaction, TransactionEnd, ResponsePolicy};
    /// use stun_types::TransportType;
    /// use stun_types::message::Message;
    ///
    /// // As `Message::builder_request` wrote it, with an ID that it drew.
    /// let request = Message::from_bytes(
    ///     b"\x00\x01\x00\x00\x21\x12\xA4\x42\xB7\xE7\xA7\x01\xBC\x34\xD6\x86\xFA\x87\xDF\xAE",
    /// )?;
    /// let (schedule, usage) = (Schedule::new_default(), ResponsePolicy::default());
    /// let (udp, open, start) = (TransportType::Udp, Protection::Unprotected, Duration::ZERO);
    /// let mut transaction = Transaction::new(&request, schedule, udp, open, usage, start)?;
    /// transaction.poll(start);
    /// // The socket reports that the port is unreachable.
    /// transaction.fail();
    /// assert_eq!(rt; transaction.poll(start), Action::Ended(TransactionEnd::TransportFailed));
    /// ```
    pub fn fail(&mut self)
        ensures { self.new ≡ ending TransactionEnd.TransportFailed self.old }
    {
        self.parts.fail();
    }
}
