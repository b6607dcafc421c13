//! What can be done with the parts of a transaction, and whether they are those of one.

use crate::parts::{Mechanism, PartsError, TransactionParts};
use crate::retransmission::{Action, TransactionEnd};
use std::time::Duration;
use stun_types::message::IntegrityKey;

impl TransactionParts {
    ghost use Rattle.std.specs.Prelude.{◌≡◌, None, Some, MatchResult, option_copied};
    ghost use Rattle.stun_transactions.specs.Parts.{at_state, is_signed_otherwise, parts_fault, key_fault};
    ghost use Rattle.stun_transactions.specs.Retransmissions.{is_ready, ended_by, stopped_by, Polls, TellsTime};
    ghost use Rattle.stun_transactions.specs.Transactions.{Wakes};

    /// Whether the request is signed otherwise than it is protected.
    fn is_signed_otherwise(&self) -> bool
        ensures { result ≡ is_signed_otherwise self.now }
    {
        let signed = self.signed.is_signed();
        match self.mechanism {
            Some(Mechanism::ShortTerm | Mechanism::LongTerm) => !signed,
            Some(Mechanism::FirstLongTerm) | None => signed,
        }
    }

    /// Tests that these parts can be those of a transaction, as [`Transaction::from_parts`] does
    /// before it looks at the key.
    ///
    /// [`Transaction::from_parts`]: crate::Transaction::from_parts
    ///
    /// # Errors
    ///
    /// The first of these that applies: `SignedOtherwise`, `SentTooOften`, `SentTooLate`.
    ///
    /// # Examples
    ///
    /// ```
    /// use std::time::Duration;
    /// use stun_transactions::{PartsError, Protection, Schedule, Transaction, ResponsePolicy};
    /// use stun_types::TransportType;
    /// use stun_types::message::Message;
    ///
    /// // As `Message::builder_request` wrote it, with an ID that it drew.
    /// let request = Message::from_bytes(
    ///     b"\x00\x01\x00\x00\x21\x12\xA4\x42\xB7\xE7\xA7\x01\xBC\x34\xD6\x86\xFA\x87\xDF\xAE",
    /// )?;
    /// let (schedule, usage) = (Schedule::new_default(), ResponsePolicy::default());
    /// let (udp, open, start) = (TransportType::Udp, Protection::Unprotected, Duration::ZERO);
    /// let transaction = Transaction::new(&request, schedule, udp, open, usage, start)?;
    /// let (mut parts, _key) = transaction.into_parts();
    /// assert_eq!(rt; parts.check(), Ok(()));
    /// // The schedule has seven requests.
    /// parts.state.sent = 8;
    /// assert_eq!(rt; parts.check(), Err(PartsError::SentTooOften));
    /// ```
    pub fn check(&self) -> Result<(), PartsError>
        ensures { MatchResult result (λ _. parts_fault self.now ≡ None)
            (λ e. parts_fault self.now ≡ Some e) }
    {
        if self.is_signed_otherwise() {
            return Err(PartsError::SignedOtherwise);
        }
        if self.plan.requests() < self.state.sent {
            return Err(PartsError::SentTooOften);
        }
        if self.state.clock.as_nanos() < self.state.last.as_nanos() {
            return Err(PartsError::SentTooLate);
        }
        Ok(())
    }

    /// Tests that a key, or none, is that of a transaction of these parts, as
    /// [`Transaction::from_parts`] does after [`TransactionParts::check`].
    ///
    /// [`Transaction::from_parts`]: crate::Transaction::from_parts
    ///
    /// # Errors
    ///
    /// The first of these that applies: `NoKey` if a credential protects the request and there is no
    /// key; `NoUseForKey` if none does and there is one; `SignedOtherwise` if the key of a short-term
    /// credential works with no integrity attribute of the request; `KeyForOneAlgorithm` if the key
    /// of a long-term credential was made for one.
    pub fn check_key(&self, key: Option<&IntegrityKey>) -> Result<(), PartsError>
        ensures { let fault = key_fault self.now.mechanism self.now.signed (option_copied key.entry) in
            MatchResult result (λ _. fault ≡ None) (λ e. fault ≡ Some e) }
    {
        match (self.mechanism, key) {
            (None | Some(Mechanism::FirstLongTerm), None) => Ok(()),
            (None | Some(Mechanism::FirstLongTerm), Some(_)) => Err(PartsError::NoUseForKey),
            (Some(Mechanism::ShortTerm | Mechanism::LongTerm), None) => Err(PartsError::NoKey),
            (Some(Mechanism::ShortTerm), Some(key)) => {
                if self.signed.is_signed_for(key) {
                    Ok(())
                } else {
                    Err(PartsError::SignedOtherwise)
                }
            }
            (Some(Mechanism::LongTerm), Some(key)) => match key.algorithm() {
                None => Ok(()),
                Some(_) => Err(PartsError::KeyForOneAlgorithm),
            },
        }
    }

    /// Returns the moment from which on a poll does something, as
    /// [`Transaction::next_wake`](crate::Transaction::next_wake) has it.
    pub fn next_wake(&self) -> Option<Duration>
        ensures { Wakes self.now result }
    {
        match self.state.end {
            Some(_) => None,
            None => Some(self.state.due(&self.plan)),
        }
    }

    /// Returns `true` if a poll now answers something else than `WaitUntil`.
    pub fn is_ready(&self, now: Duration) -> bool
        ensures { result ≡ is_ready self.now.plan self.now.state now }
    {
        self.state.is_ready(&self.plan, now)
    }

    /// Returns what the caller has to do now, as [`Transaction::poll`](crate::Transaction::poll)
    /// does; it needs no key.
    ///
    /// # Examples
    ///
    /// ```
    /// use std::time::Duration;
    /// use stun_transactions::{Action, Protection, Schedule, Transaction, ResponsePolicy};
    /// use stun_types::TransportType;
    /// use stun_types::message::Message;
    ///
    /// // As `Message::builder_request` wrote it, with an ID that it drew.
    /// let request = Message::from_bytes(
    ///     b"\x00\x01\x00\x00\x21\x12\xA4\x42\xB7\xE7\xA7\x01\xBC\x34\xD6\x86\xFA\x87\xDF\xAE",
    /// )?;
    /// let (schedule, usage) = (Schedule::new_default(), ResponsePolicy::default());
    /// let (udp, open, start) = (TransportType::Udp, Protection::Unprotected, Duration::ZERO);
    /// let transaction = Transaction::new(&request, schedule, udp, open, usage, start)?;
    /// let (mut parts, key) = transaction.into_parts();
    /// assert_eq!(rt; parts.poll(start), Action::Send);
    /// // The transaction continues where its parts are.
    /// let mut transaction = Transaction::from_parts(parts, key)?;
    /// assert_eq!(rt; transaction.poll(start), Action::WaitUntil(Duration::from_millis(500)));
    /// ```
    pub fn poll(&mut self, now: Duration) -> Action
        ensures polls { Polls self.old.plan self.old.state now result self.new.state }
        ensures others { self.new ≡ at_state self.old self.new.state }
    {
        self.state.poll(&self.plan, now)
    }

    /// Stops sending the request, as
    /// [`Transaction::stop_sending`](crate::Transaction::stop_sending) does.
    pub fn stop_sending(&mut self)
        ensures { self.new ≡ at_state self.old (stopped_by self.old.state) }
    {
        self.state.stop_sending();
    }

    /// Returns how long the response took, as
    /// [`Transaction::round_trip`](crate::Transaction::round_trip) does.
    pub fn round_trip(&self, now: Duration) -> Option<Duration>
        ensures { TellsTime self.now.state now result }
    {
        self.state.round_trip(now)
    }

    /// Ends the transaction, unless it has ended.
    pub(crate) fn end_by(&mut self, end: TransactionEnd)
        ensures { self.new ≡ at_state self.old (ended_by end self.old.state) }
    {
        self.state.end_by(end);
    }

    /// Ends the transaction as cancelled, unless it has ended, as
    /// [`Transaction::cancel`](crate::Transaction::cancel) does.
    pub fn cancel(&mut self)
        ensures { self.new ≡ at_state self.old (ended_by TransactionEnd.Cancelled self.old.state) }
    {
        self.end_by(TransactionEnd::Cancelled);
    }

    /// Ends the transaction as failed by its transport, unless it has ended, as
    /// [`Transaction::fail`](crate::Transaction::fail) does.
    pub fn fail(&mut self)
        ensures { self.new
            ≡ at_state self.old (ended_by TransactionEnd.TransportFailed self.old.state) }
    {
        self.end_by(TransactionEnd::TransportFailed);
    }
}
