ghost use Rattle.std.specs.Prelude.{◌≡◌, ◌≤◌, ◌++◌, false, length, drop, IfOk, IfErr};
ghost use Rattle.stun_base.specs.Data.{is_borrowed};
ghost use Rattle.stun_attributes.specs.Raw.{raw_data, raw_value, IsRawOf};
ghost use Rattle.stun_values.specs.Addresses.{address_value};
ghost use Rattle.stun_attributes.specs.AddressAttributes.{mapped_addr, ReadsAddress};

use crate::wire::{EncodeValue, RawAttribute, to_owned_raw};
use std::alloc::Global;
use std::fmt;
use std::net::SocketAddr;
use stun_base::{AttributeType, StunParseError, StunWriteError};
use stun_text::{PrintText, TextSink, put_socket};
use stun_values::{address_length, read_address, write_address};

/// An address as in the value of an attribute (RFC 8489, section 14.1): a zero byte, the
/// family in a byte (1 for IPv4, 2 for IPv6), the port in two bytes, and the address in four or
/// sixteen bytes, all big-endian.
#[derive(Debug, Clone, PartialEq, Eq, Drop)]
pub struct MappedSocketAddr {
    addr: SocketAddr,
}

impl MappedSocketAddr {
    /// The address `addr` as a value.
    pub fn new(addr: SocketAddr) -> Self
        ensures { mapped_addr result ≡ addr }
    {
        MappedSocketAddr { addr }
    }

    /// The address that the value holds.
    pub fn addr(&self) -> SocketAddr
        ensures { result ≡ mapped_addr self.now }
    {
        self.addr
    }

    /// The number of bytes of the value: 8 for IPv4, 20 for IPv6.
    pub fn length(&self) -> u16
        ensures { result ≡ length (address_value (mapped_addr self.now)) }
    {
        address_length(&self.addr)
    }

    /// Writes the value, without a header, at the start of `dest`. The bytes after it are
    /// unchanged.
    ///
    /// # Requires
    ///
    /// `dest.len()` is at least [`MappedSocketAddr::length`].
    pub fn write_into_unchecked(&self, dest: &mut [u8])
        requires { length (address_value (mapped_addr self.now)) ≤ length dest.old }
        ensures { dest.new ≡ address_value (mapped_addr self.now)
            ++ drop (length (address_value (mapped_addr self.now))) dest.old }
    {
        write_address(&self.addr, dest);
    }

    /// A raw attribute of the type `atype` with the address as its value, which it owns in memory
    /// from `alloc`.
    ///
    /// # Errors
    ///
    /// `OutOfMemory` if an allocation failed.
    ///
    /// # Examples
    ///
    /// ```
    /// use std::net::{IpAddr, Ipv4Addr, SocketAddr};
    /// use stun_types::attribute::{AttributeType, MappedSocketAddr};
    ///
    /// let addr = SocketAddr::new(IpAddr::V4(Ipv4Addr::new(192, 0, 2, 7)), 3478);
    /// let mapped = MappedSocketAddr::new(addr);
    /// let raw = mapped.to_raw(alloc, AttributeType(0x0001))?;
    /// assert_eq!(rt; raw.value().as_bytes(), [0, 1, 0x0D, 0x96, 192, 0, 2, 7].as_slice());
    /// assert_eq!(rt; MappedSocketAddr::from_raw(&raw)?.addr(), addr);
    /// ```
    pub fn to_raw(
        &self,
        alloc: Global,
        atype: AttributeType,
    ) -> Result<RawAttribute<'_>, StunWriteError>
        ensures ok { IfOk result (IsRawOf atype.0 (address_value (mapped_addr self.now))) }
        ensures owned { IfOk result (λ raw. is_borrowed (raw_data raw) ≡ false) }
        ensures err { IfErr result (λ e. e ≡ StunWriteError.OutOfMemory) }
    {
        to_owned_raw(alloc, atype, self)
    }

    /// Reads an address from the value of a raw attribute, whatever its type. The first byte is
    /// ignored, and an IPv6 address has flow info and scope ID 0. No memory is allocated.
    ///
    /// # Errors
    ///
    /// The first of these that applies:
    ///
    /// - `Truncated { expected: 4, actual }` if there are fewer than four bytes;
    /// - `InvalidAttributeData` if the family is neither 1 nor 2;
    /// - `Truncated { expected, actual }` if the value is shorter than its family needs, and
    ///   `TooLarge { expected, actual }` if it is longer; `expected` is 8 for IPv4 and 20 for IPv6.
    pub fn from_raw(raw: &RawAttribute<'_>) -> Result<Self, StunParseError>
        ensures { ReadsAddress mapped_addr (raw_value raw.now) result }
    {
        Self::read(raw.value().as_bytes())
    }

    /// Reads an address from the bytes of a value, as [`MappedSocketAddr::from_raw`] does.
    ///
    /// # Errors
    ///
    /// As [`MappedSocketAddr::from_raw`].
    ///
    /// # Examples
    ///
    /// ```
    /// use stun_types::attribute::MappedSocketAddr;
    ///
    /// let mapped = MappedSocketAddr::read(&[0, 1, 0x0D, 0x96, 192, 0, 2, 7])?;
    /// assert_eq!(rt; mapped.addr().port(), 3478);
    /// ```
    #[inline(always)]
    pub fn read(value: &[u8]) -> Result<Self, StunParseError>
        ensures { ReadsAddress mapped_addr value.now result }
    {
        let addr = read_address(value)?;
        Ok(MappedSocketAddr { addr })
    }
}

impl EncodeValue for MappedSocketAddr {
    ghost bytes = { λ mapped. address_value (mapped_addr mapped) };

    fn value_length(&self) -> u16 {
        self.length()
    }

    fn write_value(&self, dest: &mut [u8]) {
        self.write_into_unchecked(dest);
    }

    fn held_bytes(&self) -> Option<&[u8]> {
        None
    }
}

impl PrintText for MappedSocketAddr {
    ghost use Rattle.std.specs.Net.Text.{socket_text};

    ghost text = { λ mapped. socket_text (mapped_addr mapped) };

    fn print<S: TextSink>(&self, sink: &mut S) -> Result<(), S::Error> {
        put_socket(sink, self.addr())
    }
}

/// The address, as `{:?}` and `{}` print it: `192.168.0.1:3178`, `[::1]:1234`.
impl fmt::Display for MappedSocketAddr {
    ghost use Rattle.std.specs.Prelude.{Some};
    ghost use Rattle.std.specs.Net.Text.{socket_text};

    ghost output = { λ mapped. Some (socket_text (mapped_addr mapped)) };

    fn fmt<W: fmt::Write>(&self, f: &mut fmt::Formatter<W>) -> fmt::Result {
        self.print(f)
    }
}
