//! A client's transaction.

mod receiving;
mod sending;

use crate::beginning::{BeginError, misfit};
use crate::guard::Protection;
use crate::parts::{PartsError, TransactionParts};
use crate::plan::Plan;
use crate::response_policy::ResponsePolicy;
use crate::schedule::Schedule;
use std::alloc::Global;
use std::marker::Model;
use std::time::Duration;
use stun_types::TransportType;
use stun_types::message::{IntegrityKey, Message, StunWriteError, TransactionId};

/// A client's transaction: a request that is sent until it is answered, or given up (RFC 8489,
/// section 6.2).
///
/// The caller keeps the bytes of the request, sends them each time that [`Transaction::poll`] says
/// so, and hands each message that it receives to [`Transaction::receive`]. A moment is a
/// `Duration` since a beginning of the caller's choice, the same for all calls. A clock that steps
/// back counts as stopped.
///
/// # Examples
///
/// ```
/// use std::time::Duration;
/// use stun_transactions::{
///     Action, Protection, Received, Schedule, Transaction, TransactionEnd, ResponsePolicy,
///     response_address,
/// };
/// use stun_types::TransportType;
/// use stun_types::message::Message;
///
/// // As `Message::builder_request` wrote it, with an ID that it drew.
/// let request = Message::from_bytes(
///     b"\x00\x01\x00\x00\x21\x12\xA4\x42\xB7\xE7\xA7\x01\xBC\x34\xD6\x86\xFA\x87\xDF\xAE",
/// )?;
/// let (schedule, usage) = (Schedule::new_default(), ResponsePolicy::default());
/// let (udp, open, start) = (TransportType::Udp, Protection::Unprotected, Duration::ZERO);
/// let mut transaction = Transaction::new(&request, schedule, udp, open, usage, start)?;
/// // With each `Send` the caller sends the bytes of the request.
/// assert_eq!(rt; transaction.poll(start), Action::Send);
/// assert_eq!(rt; transaction.poll(start), Action::WaitUntil(Duration::from_millis(500)));
/// let response = b"\x01\x01\x00\x0C\x21\x12\xA4\x42\
///                  \xB7\xE7\xA7\x01\xBC\x34\xD6\x86\xFA\x87\xDF\xAE\
///                  \x00\x20\x00\x08\x00\x01\xA1\x47\xE1\x12\xA6\x43";
/// let Received::Success(response, _) = transaction.receive(response, &[]) else {
///     return Err("no success response".into());
/// };
/// assert_eq!(rt; response_address(alloc, &response)?, "192.0.2.1:32853".parse()?);
/// assert_eq!(rt; transaction.poll(start), Action::Ended(TransactionEnd::Answered));
/// ```
#[derive(Debug, Drop)]
pub struct Transaction {
    parts: TransactionParts,
    key: Option<IntegrityKey>,
}

impl Model for Transaction {
    ghost use Rattle.std.specs.Prelude.{◌≡◌, None};
    ghost use Rattle.stun_transactions.specs.Parts.{PartsAndKey, whole_fault};

    ghost Value = { PartsAndKey };

    ghost view = { λ t. record { parts = t.parts; key = t.key } };

    ghost invariant = { λ t. whole_fault t.parts t.key ≡ None };
}

impl Transaction {
    ghost use Rattle.std.specs.Prelude.{◌≡◌, true, None, Some, IfErr, OnOk, MatchResult};
    ghost use Rattle.stun_types.specs.Message.{message_bytes};
    ghost use Rattle.stun_transactions.specs.Beginning.{begin_fault};
    ghost use Rattle.stun_transactions.specs.Guards.{HasSameKey, has_prepared_key};
    ghost use Rattle.stun_transactions.specs.Parts.{whole_fault};
    ghost use Rattle.stun_transactions.specs.Transactions.{begun_with};

    /// Begins a transaction of a request, which is to be sent over a transport, by a schedule. Its
    /// first poll answers `Send`. `usage` is what the STUN usage specifies of responses:
    /// `ResponsePolicy::default()` if it specifies nothing.
    ///
    /// # Errors
    ///
    /// The first of these that applies: `NotARequest` if the message has another class; `NotSigned` if
    /// a credential is to protect it and it shows no integrity attribute, or none that the key of a
    /// short-term credential works with, `Signed` if none is to and it shows one;
    /// `KeyForOneAlgorithm` if the key of a long-term credential was made for one.
    pub fn new(
        request: &Message<'_>,
        schedule: Schedule,
        transport: TransportType,
        protection: Protection,
        usage: ResponsePolicy,
        now: Duration,
    ) -> Result<Transaction, BeginError>
        ensures { let r = message_bytes request.now in MatchResult result
            (λ transaction. (begin_fault protection r ≡ None)
            × (transaction ≡ begun_with r (record { schedule = schedule; transport = transport })
            protection usage now))
            (λ e. begin_fault protection r ≡ Some e) }
    {
        let (mechanism, key) = protection.into_parts();
        let plan = Plan {
            schedule,
            transport,
        };
        let parts = TransactionParts::new(request, plan, mechanism, usage, now)?;
        match parts.check_key(key.as_ref()) {
            Ok(()) => Ok(Transaction { parts, key }),
            Err(error) => Err(misfit(error)),
        }
    }

    /// Prepares the key with which responses are validated, if there is one and it isn't prepared
    /// ([`IntegrityKey::prepare`](stun_types::message::IntegrityKey::prepare)), with memory from
    /// `alloc`. Each message is taken or discarded as without it.
    ///
    /// # Errors
    ///
    /// `OutOfMemory` alone. The transaction works as before.
    pub fn prepare(&mut self, alloc: Global) -> Result<(), StunWriteError>
        ensures parts { self.new.parts ≡ self.old.parts }
        ensures key { HasSameKey self.old.key self.new.key }
        ensures prepared { OnOk result (has_prepared_key self.new.key ≡ true) }
        ensures err { IfErr result (λ e. e ≡ StunWriteError.OutOfMemory) }
    {
        match &mut self.key {
            Some(key) => key.prepare(alloc),
            None => Ok(()),
        }
    }

    /// Takes a transaction apart: into its parts, and the key with which its request is protected, if
    /// it is. [`Transaction::from_parts`] takes both. The key of a long-term credential is the one
    /// that works with both algorithms.
    ///
    /// # Examples
    ///
    /// ```
    /// use std::time::Duration;
    /// use stun_transactions::{Action, Protection, Schedule, Transaction, ResponsePolicy};
    /// use stun_types::TransportType;
    /// use stun_types::message::Message;
    ///
    /// // As `Message::builder_request` wrote it, with an ID that it drew.
    /// let request = Message::from_bytes(
    ///     b"\x00\x01\x00\x00\x21\x12\xA4\x42\xB7\xE7\xA7\x01\xBC\x34\xD6\x86\xFA\x87\xDF\xAE",
    /// )?;
    /// let (schedule, usage) = (Schedule::new_default(), ResponsePolicy::default());
    /// let (udp, open, start) = (TransportType::Udp, Protection::Unprotected, Duration::ZERO);
    /// let mut transaction = Transaction::new(&request, schedule, udp, open, usage, start)?;
    /// transaction.poll(start);
    /// let (parts, key) = transaction.into_parts();
    /// assert!(rt; parts.state.sent == 1 && key.is_none());
    /// // The caller stores both, and later:
    /// let mut transaction = Transaction::from_parts(parts, key)?;
    /// assert_eq!(rt; transaction.poll(Duration::from_millis(500)), Action::Send);
    /// ```
    pub fn into_parts(self) -> (TransactionParts, Option<IntegrityKey>)
        ensures parts { result.0 ≡ self.parts }
        ensures key { result.1 ≡ self.key }
        ensures whole { whole_fault self.parts self.key ≡ None }
    {
        (self.parts, self.key)
    }

    /// Returns the transaction of these parts and this key, which continues where it was taken
    /// apart.
    ///
    /// Parts that no transaction has are refused, and so is a key that doesn't belong to them. The
    /// key of a long-term credential is one for both algorithms, as `IntegrityKey::for_both` makes
    /// it.
    ///
    /// # Errors
    ///
    /// The first of these that applies: those of [`TransactionParts::check`], and then `NoKey`,
    /// `NoUseForKey`, `SignedOtherwise` if the key of a short-term credential works with no integrity
    /// attribute of the request, and `KeyForOneAlgorithm`. The key is dropped then.
    ///
    /// # Examples
    ///
    /// ```
    /// use std::time::Duration;
    /// use stun_transactions::{Mechanism, PartsError, Protection, Schedule, Transaction, ResponsePolicy};
    /// use stun_types::TransportType;
    /// use stun_types::message::Message;
    ///
    /// // As `Message::builder_request` wrote it, with an ID that it drew.
    /// let request = Message::from_bytes(
    ///     b"\x00\x01\x00\x00\x21\x12\xA4\x42\xB7\xE7\xA7\x01\xBC\x34\xD6\x86\xFA\x87\xDF\xAE",
    /// )?;
    /// let (schedule, usage) = (Schedule::new_default(), ResponsePolicy::default());
    /// let (udp, open, start) = (TransportType::Udp, Protection::Unprotected, Duration::ZERO);
    /// let transaction = Transaction::new(&request, schedule, udp, open, usage, start)?;
    /// let (mut parts, key) = transaction.into_parts();
    /// // The request shows no integrity attribute, so no credential protects it.
    /// parts.mechanism = Some(Mechanism::ShortTerm);
    /// let refused = Transaction::from_parts(parts, key).err();
    /// assert_eq!(rt; refused, Some(PartsError::SignedOtherwise));
    /// ```
    pub fn from_parts(
        parts: TransactionParts,
        key: Option<IntegrityKey>,
    ) -> Result<Transaction, PartsError>
        ensures { MatchResult result
            (λ transaction. (whole_fault parts key ≡ None)
            × (transaction ≡ record { parts = parts; key = key }))
            (λ e. whole_fault parts key ≡ Some e) }
    {
        parts.check()?;
        parts.check_key(key.as_ref())?;
        Ok(Transaction { parts, key })
    }

    /// Returns the transaction ID of the request and of its response.
    pub fn id(&self) -> TransactionId
        ensures { result ≡ self.now.parts.id }
    {
        self.parts.id
    }
}
