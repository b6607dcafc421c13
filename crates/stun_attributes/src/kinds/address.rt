use crate::MappedSocketAddr;
use crate::kinds::AttributeKind;
use crate::kinds::printed::put_named;
use crate::wire::{EncodeValue, ReadValue, TypedAttribute};
use std::alloc::Global;
use std::fmt;
use std::marker::PhantomData;
use std::net::SocketAddr;
use stun_base::StunParseError;
use stun_text::{PrintText, TextSink};

/// An attribute whose value is an address as it is, in the form of a [`MappedSocketAddr`]: 8 bytes
/// for IPv4 and 20 for IPv6.
///
/// Reading reports what [`MappedSocketAddr::from_raw`] refuses. It takes no memory.
///
/// # Examples
///
/// ```
/// use discovery_attrs::MappedAddress;
/// use std::net::{IpAddr, Ipv4Addr, SocketAddr};
/// use stun_types::prelude::*;
///
/// // `MappedAddress` is an `AddressAttribute<MappedAddressKind>`
/// let addr = SocketAddr::new(IpAddr::V4(Ipv4Addr::new(192, 0, 2, 7)), 3478);
/// let mapped = MappedAddress::new(addr);
/// assert_eq!(rt; mapped.addr(), addr);
/// let raw = mapped.to_raw(alloc)?;
/// assert_eq!(rt; raw.value().as_bytes(), [0, 1, 0x0D, 0x96, 192, 0, 2, 7].as_slice());
/// ```
#[derive(Drop)]
#[derive_where(Clone, Debug, PartialEq, Eq)]
pub struct AddressAttribute<K> {
    addr: MappedSocketAddr,
    #[derive_where(skip)]
    kind: PhantomData<K>,
}

impl<K> AddressAttribute<K> {
    ghost use Rattle.std.specs.Prelude.{◌≡◌};
    ghost use Rattle.stun_attributes.specs.Kinds.{addr_of};

    /// An attribute with the address `addr`. Flow info and scope ID of an IPv6 address are kept,
    /// but not written.
    pub fn new(addr: SocketAddr) -> Self
        ensures { addr_of result ≡ addr }
    {
        AddressAttribute {
            addr: MappedSocketAddr::new(addr),
            kind: PhantomData,
        }
    }

    /// The address that the attribute holds.
    pub fn addr(&self) -> SocketAddr
        ensures { result ≡ addr_of self.now }
    {
        self.addr.addr()
    }
}

impl<K: AttributeKind> TypedAttribute for AddressAttribute<K> {
    ghost NUMBER = { K.NUMBER };

    const NUMBER: u16 = K::NUMBER;
}

impl<K> EncodeValue for AddressAttribute<K> {
    ghost use Rattle.stun_values.specs.Addresses.{address_value};
    ghost use Rattle.stun_attributes.specs.Kinds.{addr_of};

    ghost bytes = { λ attribute. address_value (addr_of attribute) };

    fn value_length(&self) -> u16 {
        self.addr.length()
    }

    fn write_value(&self, dest: &mut [u8]) {
        self.addr.write_into_unchecked(dest);
    }

    fn held_bytes(&self) -> Option<&[u8]> {
        None
    }
}

/// [`AddressAttribute`] says what reading refuses.
impl<K> ReadValue for AddressAttribute<K> {
    ghost use Rattle.stun_attributes.specs.AddressAttributes.{ReadsAddress};
    ghost use Rattle.stun_attributes.specs.Kinds.{addr_of};

    ghost reads_value = { ReadsAddress addr_of };

    fn read_value(_alloc: Global, value: &[u8]) -> Result<Self, StunParseError> {
        Ok(AddressAttribute {
            addr: MappedSocketAddr::read(value)?,
            kind: PhantomData,
        })
    }
}

impl<K: AttributeKind> PrintText for AddressAttribute<K> {
    ghost use Rattle.std.specs.Net.Text.{socket_text};
    ghost use Rattle.stun_attributes.specs.Kinds.{addr_of, named_text};

    ghost text = { λ attribute. named_text K.NAME (socket_text (addr_of attribute)) };

    fn print<S: TextSink>(&self, sink: &mut S) -> Result<(), S::Error> {
        put_named(sink, K::name(), &self.addr)
    }
}

/// The name and the address: `OTHER-ADDRESS: 192.168.0.1:3479`.
impl<K: AttributeKind> fmt::Display for AddressAttribute<K> {
    ghost use Rattle.std.specs.Prelude.{Some};
    ghost use Rattle.std.specs.Net.Text.{socket_text};
    ghost use Rattle.stun_attributes.specs.Kinds.{addr_of, named_text};

    ghost output = { λ attribute. Some (named_text K.NAME (socket_text (addr_of attribute))) };

    fn fmt<W: fmt::Write>(&self, f: &mut fmt::Formatter<W>) -> fmt::Result {
        self.print(f)
    }
}
