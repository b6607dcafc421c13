//! An address that is XORed, so that no middlebox rewrites it (RFC 8489, section 14.2).

ghost use Rattle.std.specs.Prelude.{◌≡◌, ◌≤◌, ◌++◌, false, length, drop, IfOk, IfErr};
ghost use Rattle.std.specs.Net.Socket.{socket_ip};
ghost use Rattle.stun_base.specs.Data.{is_borrowed};
ghost use Rattle.stun_attributes.specs.Raw.{raw_data, raw_value, IsRawOf};
ghost use Rattle.stun_values.specs.Addresses.{address_value, octets, IsXored};
ghost use Rattle.stun_attributes.specs.AddressAttributes.{written_addr, ReadsAddress};

use crate::MappedSocketAddr;
use crate::wire::RawAttribute;
use std::alloc::Global;
use std::fmt;
use std::net::SocketAddr;
use stun_base::{AttributeType, StunParseError, StunWriteError, TransactionId};
use stun_text::{PrintText, TextSink};
use stun_values::{write_xored, xor_addr};

/// An address as in the value of an XOR-MAPPED-ADDRESS (RFC 8489, section 14.2): in the
/// form of [`MappedSocketAddr`], its port XORed with the high half of the magic cookie, an IPv4
/// address with the cookie, and an IPv6 address with the cookie followed by the transaction ID.
#[derive(Debug, Clone, PartialEq, Eq, Drop)]
pub struct XorSocketAddr {
    /// The address after the XOR, as it is written.
    pub addr: MappedSocketAddr,
}

impl XorSocketAddr {
    /// The address `addr` as a value in a message with the transaction ID `transaction`. Flow info
    /// and scope ID of an IPv6 address are dropped.
    ///
    /// # Examples
    ///
    /// ```
    /// use std::net::{IpAddr, Ipv4Addr, SocketAddr};
    /// use stun_types::attribute::{AttributeType, XorSocketAddr};
    /// use stun_types::message::TransactionId;
    ///
    /// // the address in the sample response of RFC 5769, section 2.2
    /// let addr = SocketAddr::new(IpAddr::V4(Ipv4Addr::new(192, 0, 2, 1)), 32853);
    /// let id = TransactionId::from(0xB7E7_A701_BC34_D686_FA87_DFAE);
    /// let xored = XorSocketAddr::new(addr, id);
    /// let raw = xored.to_raw(alloc, AttributeType(0x0020))?;
    /// let value = [0x00, 0x01, 0xA1, 0x47, 0xE1, 0x12, 0xA6, 0x43];
    /// assert_eq!(rt; raw.value().as_bytes(), value.as_slice());
    /// assert_eq!(rt; XorSocketAddr::read(&value)?.addr(id), addr);
    /// ```
    pub fn new(addr: SocketAddr, transaction: TransactionId) -> Self
        ensures { IsXored transaction addr (written_addr result) }
    {
        XorSocketAddr {
            addr: MappedSocketAddr::new(Self::xor_addr(addr, transaction)),
        }
    }

    /// The address, for a message with the transaction ID `transaction`.
    pub fn addr(&self, transaction: TransactionId) -> SocketAddr
        ensures { IsXored transaction (written_addr self.now) result }
    {
        Self::xor_addr(self.addr.addr(), transaction)
    }

    /// The address `addr` XORed with the cookie and the transaction ID `transaction`: the port with
    /// the high half of the cookie, an IPv4 address with the cookie, and an IPv6 address with the
    /// cookie followed by the transaction ID. Flow info and scope ID of the result are 0. XORing
    /// twice gives the address back.
    ///
    /// # Examples
    ///
    /// ```
    /// use std::net::{IpAddr, Ipv4Addr, SocketAddr};
    /// use stun_types::attribute::XorSocketAddr;
    /// use stun_types::message::TransactionId;
    ///
    /// let addr = SocketAddr::new(IpAddr::V4(Ipv4Addr::new(192, 0, 2, 1)), 32853);
    /// let id = TransactionId::from(1000);
    /// let xored = XorSocketAddr::xor_addr(addr, id);
    /// assert_eq!(rt; xored, SocketAddr::new(IpAddr::V4(Ipv4Addr::new(225, 18, 166, 67)), 41287));
    /// assert_eq!(rt; XorSocketAddr::xor_addr(xored, id), addr);
    /// ```
    #[inline(always)]
    pub fn xor_addr(addr: SocketAddr, transaction: TransactionId) -> SocketAddr
        ensures xored { IsXored transaction addr result }
        ensures bound { length (octets (socket_ip addr)) ≤ 16 }
    {
        xor_addr(addr, transaction)
    }

    /// The number of bytes of the value: 8 for IPv4, 20 for IPv6.
    pub fn length(&self) -> u16
        ensures { result ≡ length (address_value (written_addr self.now)) }
    {
        self.addr.length()
    }

    /// Writes the value, without a header, at the start of `dest`. The bytes after it are
    /// unchanged.
    ///
    /// # Requires
    ///
    /// `dest.len()` is at least [`XorSocketAddr::length`].
    pub fn write_into_unchecked(&self, dest: &mut [u8])
        requires { length (address_value (written_addr self.now)) ≤ length dest.old }
        ensures { dest.new ≡ address_value (written_addr self.now)
            ++ drop (length (address_value (written_addr self.now))) dest.old }
    {
        self.addr.write_into_unchecked(dest);
    }

    /// A raw attribute of the type `atype` with the XORed address as its value, which it owns in
    /// memory from `alloc`.
    ///
    /// # Errors
    ///
    /// `OutOfMemory` if an allocation failed.
    pub fn to_raw(
        &self,
        alloc: Global,
        atype: AttributeType,
    ) -> Result<RawAttribute<'_>, StunWriteError>
        ensures ok { IfOk result (IsRawOf atype.0 (address_value (written_addr self.now))) }
        ensures owned { IfOk result (λ raw. is_borrowed (raw_data raw) ≡ false) }
        ensures err { IfErr result (λ e. e ≡ StunWriteError.OutOfMemory) }
    {
        self.addr.to_raw(alloc, atype)
    }

    /// Reads an XORed address from the value of a raw attribute, whatever its type: the address as
    /// it is written, after the XOR. No memory is allocated.
    ///
    /// # Errors
    ///
    /// As [`MappedSocketAddr::from_raw`].
    pub fn from_raw(raw: &RawAttribute<'_>) -> Result<Self, StunParseError>
        ensures { ReadsAddress written_addr (raw_value raw.now) result }
    {
        Self::read(raw.value().as_bytes())
    }

    /// Reads an XORed address from the bytes of a value, as [`XorSocketAddr::from_raw`] does.
    ///
    /// # Errors
    ///
    /// As [`MappedSocketAddr::from_raw`].
    #[inline(always)]
    pub fn read(value: &[u8]) -> Result<Self, StunParseError>
        ensures { ReadsAddress written_addr value.now result }
    {
        let addr = MappedSocketAddr::read(value)?;
        Ok(XorSocketAddr { addr })
    }
}

impl PrintText for XorSocketAddr {
    ghost use Rattle.stun_values.specs.Addresses.{xored_text};

    ghost text = { λ xored. xored_text (written_addr xored) };

    fn print<S: TextSink>(&self, sink: &mut S) -> Result<(), S::Error> {
        write_xored(sink, self.addr.addr())
    }
}

/// An IPv4 address as it is without the XOR, since its XOR takes no transaction ID:
/// `192.168.0.1:3178`. An IPv6 address as it is written, after the XOR:
/// `XOR([2112:a442::5679]:9664)`.
impl fmt::Display for XorSocketAddr {
    ghost use Rattle.std.specs.Prelude.{Some};
    ghost use Rattle.stun_values.specs.Addresses.{xored_text};

    ghost output = { λ xored. Some (xored_text (written_addr xored)) };

    fn fmt<W: fmt::Write>(&self, f: &mut fmt::Formatter<W>) -> fmt::Result {
        self.print(f)
    }
}
