//! A client's transaction, which C keeps as plain numbers (RFC 8489, sections 6.2, 6.3.3, 6.3.4,
//! 9.1.4 and 9.2.5).

ghost use Rattle.std.specs.Prelude.{◌≡◌, ℕ, List, Option, Some, None};
ghost use Rattle.std.specs.declared.time.Duration.{Duration};
ghost use Rattle.stun_transactions.specs.declared.parts.Mechanism.{Mechanism};
ghost use Rattle.stun_transactions.specs.declared.parts.TransactionParts.{TransactionParts};
ghost use Rattle.stun_transactions.specs.declared.plan.Plan.{Plan};
ghost use Rattle.stun_transactions.specs.declared.response_policy.ResponsePolicy.{ResponsePolicy};
ghost use Rattle.stun_transactions.specs.Beginning.{request_fault, request_parts};
ghost use Rattle.stun_transactions.specs.Guards.{signs};
ghost use Rattle.stun_transactions.specs.Retransmissions.{begun};
ghost use Rattle.stun_types_c.specs.Transactions.{transport_numbered, mechanism_numbered, IsAt, Schedules, usage_named, Keeps, KeepsNone, AreSame, no_transaction, begun_in_c};

mod beginning;
pub(crate) mod kept;
mod receiving;
mod sending;

use crate::reading::Id;
pub use beginning::stun_types_transaction_begin;
pub(crate) use kept::{millis, moment_of, parts_of};
pub use receiving::stun_types_transaction_receive;
pub use sending::{
    stun_types_transaction_cancel, stun_types_transaction_fail, stun_types_transaction_poll,
    stun_types_transaction_stop_sending,
};

/// When a request is sent again and given up, in milliseconds, and which responses the usage takes.
#[repr(C)]
#[derive(Clone, Copy, Drop)]
pub struct CSchedule {
    /// The first interval.
    pub rto: u64,
    /// The timeout over a reliable transport (Ti of RFC 8489, section 6.2.2).
    pub reliable_wait: u64,
    /// How many requests are sent at most (Rc of RFC 8489, section 6.2.1).
    pub requests: u32,
    /// How many times the first interval to wait after the last request (Rm of RFC 8489, section
    /// 6.2.1).
    pub last_wait: u32,
    /// How many bytes a MESSAGE-INTEGRITY-SHA256 of a response has at least: 16, 20, 24, 28 or 32, and
    /// 0 for 32 (RFC 8489, section 14.6).
    pub min_hmac_length: u32,
    /// Whether the usage sends FINGERPRINT (RFC 8489, section 7): 0 if it doesn't.
    pub fingerprint: u32,
    /// 0.
    pub reserved: u64,
}

/// A transaction, as C keeps it.
#[repr(C)]
#[derive(Clone, Copy, Drop)]
pub struct CTransaction {
    /// When the request is sent.
    pub schedule: CSchedule,
    /// When the request was last sent, and before that when the transaction began, in milliseconds.
    pub last: u64,
    /// The latest moment that a call was given, in milliseconds.
    pub clock: u64,
    /// The transaction ID.
    pub id: Id,
    /// How many polls have returned that the request is to be sent.
    pub sent: u32,
    /// The method of the request.
    pub method: u16,
    /// 1 over UDP, 2 over TCP.
    pub transport: u8,
    /// 1 by a short-term credential, 2 by a long-term one, 3 for the first request by the long-term
    /// mechanism, and 4 for no protection.
    pub protection: u8,
    /// 1 for a MESSAGE-INTEGRITY that the request shows, and 2 more for a MESSAGE-INTEGRITY-SHA256.
    pub signed_by: u8,
    /// 1 if a response was discarded that wasn't authentic.
    pub violated: u8,
    /// How it ended, 1 to 6, or 0.
    pub end: u8,
    /// 1 if the caller has stopped sending.
    pub stopped: u8,
    /// 0.
    pub reserved: u64,
}

/// What a transaction wants done.
#[repr(C)]
#[derive(Clone, Copy, Drop)]
pub struct CAction {
    /// 0: nothing is decided; 1: send; 2: wait; 3: it has ended.
    pub kind: u32,
    /// How it ended.
    pub end: u32,
    /// Until when to wait, in milliseconds.
    pub until: u64,
    /// 0.
    pub reserved: u64,
}

/// What received bytes are for a transaction.
#[repr(C)]
#[derive(Clone, Copy, Drop)]
pub struct CReceived {
    /// 0 to 10, as `c/stun_types.h` lists them.
    pub kind: u32,
    /// The type of an attribute, or the code of an error, or that which a response claims that is
    /// discarded.
    pub number: u32,
    /// The algorithm by which a response is authenticated, or 0.
    pub algorithm: u32,
    /// 0.
    pub reserved: u32,
}

/// A law: numbers keep at most one transaction.
#[tactic(auto, using(crate::proofs::KeptLemmas::same_parts))]
pub fn numbers_keep_one_transaction()
    ensures { (kept : CTransaction) (one other : TransactionParts)
        → Keeps kept one → Keeps kept other → AreSame one other }
{}

/// A law: the numbers of a transaction that begins keep just that transaction, and what a call leaves
/// that begins none keeps none.
#[tactic(auto, using(crate::proofs::KeptLemmas::begun_keeps))]
pub fn what_begins_is_kept()
    ensures none { KeepsNone no_transaction }
    ensures one { (d : List ℕ) (waits : CSchedule) (transport protection now : ℕ) (plan : Plan)
        (mechanism : Option Mechanism) (usage : ResponsePolicy) (moment : Duration)
        → Schedules waits plan.schedule → usage_named waits ≡ Some usage
        → transport_numbered transport ≡ Some plan.transport
        → mechanism_numbered protection ≡ Some mechanism → IsAt now moment
        → request_fault (signs mechanism) d ≡ None
        → Keeps (begun_in_c d waits transport protection now)
        (request_parts d plan mechanism usage (begun moment)) }
{}
