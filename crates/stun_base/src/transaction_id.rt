ghost use Rattle.std.specs.Prelude.{◌≡◌};
ghost use Rattle.stun_grammar.specs.Numbers.{be96, number};
ghost use Rattle.stun_base.specs.Drawing.{drawn_id};

use byteorder::{BigEndian, ByteOrder};
use rand_core::Rng;
use std::fmt;
use std::marker::Model;
use stun_text::{PrintText, TextSink, put_hex};

/// The magic cookie, which sets STUN apart from other protocols: four bytes at offset 4 of each
/// header, big-endian (RFC 8489, section 5).
pub const MAGIC_COOKIE: u32 = 0x2112_A442;

/// A transaction ID, by which a response is matched with its request: 96 bits (RFC 8489, section
/// 5).
///
/// It prints in hexadecimal without leading zeros: `0x3e8`. The number is
/// [`TransactionId::value`]: `u128::from(id)` returns it too, but only in a crate that lists
/// `stun_base`, where this type is declared, in `crates.txt`.
#[derive(Clone, Copy, Debug, PartialEq, Eq, PartialOrd, Ord, Hash)]
pub struct TransactionId {
    id: u128,
}

impl Model for TransactionId {
    ghost use Rattle.std.specs.Prelude.{ℕ, ◌^◌, ◌<◌};

    ghost Value = { ℕ };

    ghost view = { λ transaction. transaction.id };

    ghost invariant = { λ transaction. transaction.id < 2 ^ 96 };

    ghost inverse = { λ number. record { id = number } };
}

impl TransactionId {
    ghost use Rattle.std.specs.Prelude.{◌^◌, ◌<◌};

    /// A transaction ID drawn from a random number generator: two words of 64 bits, the low half
    /// first, of which the low 96 bits are kept. It takes no memory.
    ///
    /// An ID that others can't guess needs a generator that is cryptographically secure (RFC 8489,
    /// section 5).
    ///
    /// # Examples
    ///
    /// ```
    /// use rand::{make_rng, rngs::StdRng};
    /// use stun_types::message::TransactionId;
    ///
    /// let mut rng: StdRng = make_rng(&rt)?;
    /// let id = TransactionId::generate(&mut rng);
    /// assert!(rt; id.value() < 1 << 96);
    /// ```
    pub fn generate<R: Rng>(rng: &mut R) -> TransactionId
        ensures id { result ≡ (drawn_id (R.stream rng.old)).0 }
        ensures left { R.stream rng.new ≡ (drawn_id (R.stream rng.old)).1 }
    {
        let low = u128::from(rng.next_u64());
        let high = u128::from(rng.next_u64());
        TransactionId::from((high << 64) + low)
    }

    /// The transaction ID that twelve bytes encode, the most significant first: network byte order,
    /// as in the header of a message (RFC 8489, section 5).
    ///
    /// # Examples
    ///
    /// ```
    /// use stun_types::message::TransactionId;
    ///
    /// let id = TransactionId::from_bytes(&[0, 0, 0, 0, 0, 0, 0, 0, 0, 0, 0x03, 0xE8]);
    /// assert_eq!(rt; id, TransactionId::from(1000));
    /// ```
    pub fn from_bytes(bytes: &[u8; 12]) -> TransactionId
        ensures { result ≡ number bytes.now }
    {
        let id = BigEndian::read_uint128(bytes, 12);
        TransactionId { id }
    }

    /// The bytes of the transaction ID, the most significant first: network byte order, as in the
    /// header of a message (RFC 8489, section 5).
    ///
    /// # Examples
    ///
    /// ```
    /// use stun_types::message::TransactionId;
    ///
    /// let id = TransactionId::from(0x0102);
    /// assert_eq!(rt; id.to_bytes(), [0, 0, 0, 0, 0, 0, 0, 0, 0, 0, 0x01, 0x02]);
    /// ```
    pub fn to_bytes(&self) -> [u8; 12]
        ensures { result ≡ be96 self.now }
    {
        let mut bytes = [0; 12];
        BigEndian::write_uint128(&mut bytes, self.id, 12);
        bytes
    }

    /// The transaction ID as a number of 96 bits.
    pub fn value(&self) -> u128
        ensures number { result ≡ self.now }
        ensures bits { result < 2 ^ 96 }
    {
        self.id
    }
}

impl From<u128> for TransactionId {
    ghost use Rattle.std.specs.Prelude.{◌≡◌, ◌%◌, ◌^◌};

    ghost from_gives = { λ number transaction. transaction ≡ number % 2 ^ 96 };

    /// The transaction ID of the low 96 bits.
    ///
    /// # Examples
    ///
    /// ```
    /// use stun_types::message::TransactionId;
    ///
    /// assert_eq!(rt; TransactionId::from(1000).value(), 1000);
    /// assert_eq!(rt; TransactionId::from((1 << 96) + 1000).value(), 1000);
    /// ```
    fn from(id: u128) -> Self {
        TransactionId { id: id % (1 << 96) }
    }
}

impl From<TransactionId> for u128 {
    ghost use Rattle.std.specs.Prelude.{◌≡◌, ◌^◌, ◌<◌};

    ghost from_gives = { λ transaction number. (number ≡ transaction) × (number < 2 ^ 96) };

    fn from(transaction: TransactionId) -> Self {
        transaction.id
    }
}

impl PrintText for TransactionId {
    ghost use Rattle.stun_base.specs.MessageTypes.{id_text};

    ghost text = { id_text };

    fn print<S: TextSink>(&self, sink: &mut S) -> Result<(), S::Error> {
        sink.put("0x")?;
        put_hex(sink, self.id)?;
        Ok(())
    }
}

impl fmt::Display for TransactionId {
    ghost use Rattle.std.specs.Prelude.{Some};
    ghost use Rattle.stun_base.specs.MessageTypes.{id_text};

    ghost output = { λ id. Some (id_text id) };

    fn fmt<W: fmt::Write>(&self, f: &mut fmt::Formatter<W>) -> fmt::Result {
        self.print(f)
    }
}
