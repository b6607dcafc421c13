//! Many transactions of a client.

use crate::guard::Protection;
use crate::received::Received;
use crate::response_policy::ResponsePolicy;
use crate::retransmission::TransactionEnd;
use crate::schedule::Schedule;
use crate::slots;
use crate::slots::{AddError, TransactionsAction};
use crate::transaction::Transaction;
use std::array;
use std::marker::Model;
use std::time::Duration;
use stun_types::TransportType;
use stun_types::attribute::AttributeType;
use stun_types::message::{Message, TransactionId};

/// Up to `N` transactions, each found by its transaction ID, for a client with many requests under
/// way. They are in the value itself: it allocates nothing.
///
/// Each call is that of one transaction, and leaves the others as they are. The caller keeps the
/// bytes of the requests, and sends the one whose ID [`Transactions::poll`] returns. A transaction
/// keeps its slot and its ID until `poll` has returned its end. Each call looks at up to `N` slots:
/// this is meant for an `N` of at most 64.
///
/// # Examples
///
/// ```
/// use std::time::Duration;
/// use stun_transactions::{
///     Protection, Received, Schedule, TransactionsAction, TransactionEnd, Transactions, ResponsePolicy,
/// };
/// use stun_types::TransportType;
/// use stun_types::message::Message;
///
/// // As `Message::builder_request` wrote it, with an ID that it drew.
/// let request = Message::from_bytes(
///     b"\x00\x01\x00\x00\x21\x12\xA4\x42\xB7\xE7\xA7\x01\xBC\x34\xD6\x86\xFA\x87\xDF\xAE",
/// )?;
/// let (schedule, usage) = (Schedule::new_default(), ResponsePolicy::default());
/// let (udp, open, start) = (TransportType::Udp, Protection::Unprotected, Duration::ZERO);
/// let mut transactions = Transactions::<16>::new();
/// transactions.begin(&request, schedule, udp, open, usage, start)?;
/// let id = request.transaction_id();
/// assert_eq!(rt; transactions.poll(start), TransactionsAction::Send(id));
/// assert_eq!(rt; transactions.poll(start), TransactionsAction::WaitUntil(Duration::from_millis(500)));
/// let response = b"\x01\x01\x00\x0C\x21\x12\xA4\x42\
///                  \xB7\xE7\xA7\x01\xBC\x34\xD6\x86\xFA\x87\xDF\xAE\
///                  \x00\x20\x00\x08\x00\x01\xA1\x47\xE1\x12\xA6\x43";
/// let received = transactions.receive(response, &[]);
/// assert!(rt; matches!(received, Some((found, Received::Success(_, None))) if found == id));
/// assert_eq!(rt; transactions.poll(start), TransactionsAction::Ended(id, TransactionEnd::Answered));
/// assert_eq!(rt; transactions.poll(start), TransactionsAction::Idle);
/// ```
#[derive(Debug, Drop)]
pub struct Transactions<const N: usize> {
    slots: [Option<Transaction>; N],
}

impl<const N: usize> Model for Transactions<N> {
    ghost use Rattle.std.specs.Prelude.{List, Option};
    ghost use Rattle.stun_transactions.specs.declared.transaction.Transaction.{Transaction};
    ghost use Rattle.stun_transactions.specs.Slots.{HasDistinctIds};

    ghost Value = { List (Option Transaction) };

    ghost view = { λ transactions. transactions.slots };

    ghost invariant = { λ transactions. HasDistinctIds transactions.slots };
}

impl<const N: usize> Transactions<N> {
    ghost use Rattle.std.specs.Prelude.{◌≡◌, None, Some, is_some, length, option_map, option_copied, MatchResult};
    ghost use Rattle.std.specs.List.{All};
    ghost use Rattle.std.specs.Duration.{as_nanos};
    ghost use Rattle.stun_types.specs.Message.{message_bytes};
    ghost use Rattle.stun_transactions.specs.Slots.{HasDistinctIds, place_of, held, changed, add_fault, Adds, soonest, PollsSlots, addressee, Tells};
    ghost use Rattle.stun_transactions.specs.Transactions.{after_receiving, ending, stopping};

    /// Returns a set with no transactions, and room for `N`.
    pub fn new() -> Transactions<N>
        ensures free { All (λ slot. slot ≡ None) result }
        ensures slots { length result ≡ N }
    {
        Transactions {
            slots: array::from_fn(|_| None),
        }
    }

    /// Begins a transaction among the others, as [`Transaction::new`] does alone: its request is
    /// due at once.
    ///
    /// # Errors
    ///
    /// The first of these that applies; nothing is changed then:
    ///
    /// - `Begin(error)` if [`Transaction::new`] answers this error;
    /// - `InUse` if there is a transaction with the request's ID, also one that has ended and whose
    ///   end no poll has returned yet;
    /// - `Full` if there are `N` transactions.
    ///
    /// # Examples
    ///
    /// ```
    /// use std::time::Duration;
    /// use stun_transactions::Protection::Unprotected;
    /// use stun_transactions::{AddError, Schedule, Transactions, ResponsePolicy};
    /// use stun_types::TransportType::Udp;
    /// use stun_types::message::Message;
    ///
    /// // As `Message::builder_request` wrote it, with an ID that it drew.
    /// let request = Message::from_bytes(
    ///     b"\x00\x01\x00\x00\x21\x12\xA4\x42\xB7\xE7\xA7\x01\xBC\x34\xD6\x86\xFA\x87\xDF\xAE",
    /// )?;
    /// let (schedule, usage, start) = (Schedule::new_default(), ResponsePolicy::default(), Duration::ZERO);
    /// let mut transactions = Transactions::<16>::new();
    /// let begun = transactions.begin(&request, schedule, Udp, Unprotected, usage, start);
    /// assert_eq!(rt; begun, Ok(()));
    /// // Another request needs another transaction ID.
    /// let begun = transactions.begin(&request, schedule, Udp, Unprotected, usage, start);
    /// assert_eq!(rt; begun, Err(AddError::InUse));
    /// ```
    pub fn begin(
        &mut self,
        request: &Message<'_>,
        schedule: Schedule,
        transport: TransportType,
        protection: Protection,
        usage: ResponsePolicy,
        now: Duration,
    ) -> Result<(), AddError>
        ensures { MatchResult result
            (λ _. (add_fault protection (message_bytes request.now) self.old ≡ None)
            × Adds (message_bytes request.now) (record { schedule = schedule; transport = transport })
            protection usage now self.old self.new)
            (λ e. (add_fault protection (message_bytes request.now) self.old ≡ Some e)
            × (self.new ≡ self.old)) }
    {
        match Transaction::new(request, schedule, transport, protection, usage, now) {
            Ok(transaction) => slots::add(&mut self.slots, transaction),
            Err(error) => Err(AddError::Begin(error)),
        }
    }

    /// Returns the transaction with this ID, if there is one. Once it has ended, it is there until
    /// [`Transactions::poll`] has returned its end.
    pub fn get(&self, id: TransactionId) -> Option<&Transaction>
        ensures distinct { HasDistinctIds self.now }
        ensures found { option_copied result ≡ held self.now (place_of id self.now) }
    {
        slots::held(&self.slots, id)
    }

    /// Returns the moment from which on a poll answers `Send` or `Ended`, unless a message is
    /// received before: 0 if a transaction has ended and no poll has returned its end yet. `None`
    /// if there is no transaction.
    pub fn next_wake(&self) -> Option<Duration>
        ensures { option_map as_nanos result ≡ soonest self.now }
    {
        slots::soonest(&self.slots)
    }

    /// Returns what the caller has to do now, for the first transaction that has something to do.
    /// Call it until it answers `WaitUntil` or `Idle`.
    ///
    /// - `Send(id)`: send the request with this ID, as for `Send` of [`Transaction::poll`].
    /// - `Ended(id, end)`: this transaction has ended, or ends now since its time is up. Each end
    ///   is returned once: the transaction is gone, and its slot and its ID are free.
    /// - `WaitUntil(time)`: nothing before `time`, which is the soonest moment at which one of them
    ///   has something to do, unless a message is received.
    /// - `Idle`: there is no transaction.
    pub fn poll(&mut self, now: Duration) -> TransactionsAction
        ensures { PollsSlots self.old now result self.new }
    {
        slots::poll(&mut self.slots, now)
    }

    /// Takes the bytes of a received message, and returns its transaction ID, and what
    /// [`Transaction::receive`] of the transaction with this ID returns (RFC 8489, section 6.3).
    /// `None` if they are no message, or there is no such transaction; nothing is changed then.
    ///
    /// The bytes are parsed once. `understood` is as for [`Transaction::receive`].
    ///
    /// # Examples
    ///
    /// ```
    /// use std::time::Duration;
    /// use stun_transactions::Protection::Unprotected;
    /// use stun_transactions::{Schedule, TransactionsAction, Transactions, ResponsePolicy};
    /// use stun_types::TransportType::Udp;
    /// use stun_types::message::Message;
    ///
    /// // As `Message::builder_request` wrote it, with an ID that it drew.
    /// let request = Message::from_bytes(
    ///     b"\x00\x01\x00\x00\x21\x12\xA4\x42\xB7\xE7\xA7\x01\xBC\x34\xD6\x86\xFA\x87\xDF\xAE",
    /// )?;
    /// let (schedule, usage, start) = (Schedule::new_default(), ResponsePolicy::default(), Duration::ZERO);
    /// let mut transactions = Transactions::<16>::new();
    /// transactions.begin(&request, schedule, Udp, Unprotected, usage, start)?;
    /// assert_eq!(rt; transactions.poll(start), TransactionsAction::Send(request.transaction_id()));
    /// // No transaction has the ID of this response, and the next bytes are no message.
    /// let other = b"\x01\x01\x00\x00\x21\x12\xA4\x42\
    ///               \x78\xAD\x34\x33\xC6\xAD\x72\xC0\x29\xDA\x41\x2E";
    /// assert!(rt; transactions.receive(other, &[]).is_none());
    /// assert!(rt; transactions.receive(b"GET / HTTP/1.1", &[]).is_none());
    /// ```
    pub fn receive<'m>(
        &mut self,
        bytes: &'m [u8],
        understood: &[AttributeType],
    ) -> Option<(TransactionId, Received<'m>)>
        ensures reported { Tells (held self.old (addressee bytes.now self.old)) understood.now bytes.now
            result }
        ensures slots { self.new
            ≡ changed (after_receiving understood.now bytes.now)
            (addressee bytes.now self.old) self.old }
    {
        slots::receive(&mut self.slots, bytes, understood)
    }

    /// Stops sending the request with this ID, as [`Transaction::stop_sending`] does, and returns
    /// whether there is such a transaction.
    ///
    /// # Examples
    ///
    /// ```
    /// use std::time::Duration;
    /// use stun_transactions::Protection::Unprotected;
    /// use stun_transactions::{Schedule, TransactionsAction, Transactions, ResponsePolicy};
    /// use stun_types::TransportType::Udp;
    /// use stun_types::message::Message;
    ///
    /// // As `Message::builder_request` wrote it, with an ID that it drew.
    /// let request = Message::from_bytes(
    ///     b"\x00\x01\x00\x00\x21\x12\xA4\x42\xB7\xE7\xA7\x01\xBC\x34\xD6\x86\xFA\x87\xDF\xAE",
    /// )?;
    /// let (schedule, usage, start) = (Schedule::new_default(), ResponsePolicy::default(), Duration::ZERO);
    /// let mut transactions = Transactions::<16>::new();
    /// transactions.begin(&request, schedule, Udp, Unprotected, usage, start)?;
    /// let id = request.transaction_id();
    /// assert_eq!(rt; transactions.poll(start), TransactionsAction::Send(id));
    /// assert!(rt; transactions.stop_sending(id));
    /// // A response is still taken until the transaction would have timed out.
    /// assert_eq!(rt; transactions.poll(start), TransactionsAction::WaitUntil(Duration::from_millis(39500)));
    /// ```
    pub fn stop_sending(&mut self, id: TransactionId) -> bool
        ensures found { result ≡ is_some (place_of id self.old) }
        ensures slots { self.new ≡ changed stopping (place_of id self.old) self.old }
    {
        slots::stop_sending(&mut self.slots, id)
    }

    /// Ends the transaction with this ID as cancelled, as [`Transaction::cancel`] does, and returns
    /// whether there is one.
    pub fn cancel(&mut self, id: TransactionId) -> bool
        ensures found { result ≡ is_some (place_of id self.old) }
        ensures slots { self.new ≡ changed (ending TransactionEnd.Cancelled)
            (place_of id self.old) self.old }
    {
        slots::end_by(&mut self.slots, id, TransactionEnd::Cancelled)
    }

    /// Ends the transaction with this ID as failed by its transport, as [`Transaction::fail`] does,
    /// and returns whether there is one.
    pub fn fail(&mut self, id: TransactionId) -> bool
        ensures found { result ≡ is_some (place_of id self.old) }
        ensures slots { self.new
            ≡ changed (ending TransactionEnd.TransportFailed) (place_of id self.old) self.old }
    {
        slots::end_by(&mut self.slots, id, TransactionEnd::TransportFailed)
    }
}
