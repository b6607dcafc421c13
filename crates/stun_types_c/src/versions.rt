//! The version of the library, and what a language that reads no macros needs: where a schedule, a key
//! and a walk begin.

ghost use Rattle.std.specs.Prelude.{◌≡◌};
ghost use Rattle.stun_types_c.specs.Versions.{version, default_waits, no_key, first};

use crate::cursor::Cursor;
use crate::transactions::CSchedule;

/// The number of the version: 1,000,000 for each of its first number, 1,000 for each of its second, and
/// its third.
#[unsafe(no_mangle)]
pub extern "C" fn stun_types_version() -> u32
    ensures { result ≡ version }
{
    1_000
}

/// The schedule that RFC 8489 recommends.
#[unsafe(no_mangle)]
pub extern "C" fn stun_types_schedule_default() -> CSchedule
    ensures { result ≡ default_waits }
{
    CSchedule {
        rto: 500,
        reliable_wait: 39_500,
        requests: 7,
        last_wait: 16,
        min_hmac_length: 0,
        fingerprint: 0,
        reserved: 0,
    }
}

/// The words of a key that holds none.
#[repr(C)]
#[derive(Clone, Copy, Drop)]
pub struct NoKey {
    /// The address 0.
    pub at: usize,
    /// 0.
    pub held: u64,
}

/// A key that holds none, as C declares it: the words of `KeyHandle`.
#[unsafe(no_mangle)]
pub extern "C" fn stun_types_key_none() -> NoKey
    ensures { result ≡ no_key }
{
    NoKey { at: 0, held: 0 }
}

/// The cursor of a walk that begins.
#[unsafe(no_mangle)]
pub extern "C" fn stun_types_cursor_first() -> Cursor
    ensures { result ≡ first }
{
    Cursor {
        index: 0,
        offset: 0,
        length: 0,
        id_begin: 0,
        id_end: 0,
        last: 0,
        reserved: 0,
    }
}
