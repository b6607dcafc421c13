ghost use Rattle.stun_values.specs.Addresses.{IsPlain};

use crate::kinds::AttributeKind;
use crate::kinds::printed::put_named;
use crate::wire::{EncodeValue, ReadValue, TypedAttribute};
use crate::{MappedSocketAddr, XorSocketAddr};
use std::alloc::{AllocError, Global};
use std::fmt;
use std::marker::PhantomData;
use std::net::SocketAddr;
use stun_base::{StunParseError, TransactionId};
use stun_text::{PrintText, TextSink};

/// An attribute whose value is an address that is XORed, in the form of a [`XorSocketAddr`]: 8
/// bytes for IPv4 and 20 for IPv6.
///
/// Reading reports what [`XorSocketAddr::from_raw`] refuses. It takes no memory.
///
/// # Examples
///
/// ```
/// use std::net::{IpAddr, Ipv4Addr, SocketAddr};
/// use stun_types::message::TransactionId;
/// use turn_attrs::XorPeerAddress;
///
/// // `XorPeerAddress` is an `XorAddressAttribute<XorPeerAddressKind>`
/// let addr = SocketAddr::new(IpAddr::V4(Ipv4Addr::new(192, 0, 2, 7)), 3478);
/// let peer = XorPeerAddress::new(addr, TransactionId::from(1000));
/// assert_eq!(rt; peer.addr(TransactionId::from(1000)), addr);
/// ```
#[derive(Drop)]
#[derive_where(Debug, PartialEq, Eq)]
pub struct XorAddressAttribute<K> {
    addr: XorSocketAddr,
    #[derive_where(skip)]
    kind: PhantomData<K>,
    ghost plain: { IsPlain addr.addr.addr },
}

impl<K> XorAddressAttribute<K> {
    ghost use Rattle.stun_values.specs.Addresses.{IsXored};
    ghost use Rattle.stun_attributes.specs.Kinds.{xored_of};

    /// An attribute with the address `addr`, for a message with the transaction ID `transaction`.
    /// Flow info and scope ID of an IPv6 address are dropped.
    pub fn new(addr: SocketAddr, transaction: TransactionId) -> Self
        ensures { IsXored transaction addr (xored_of result) }
    {
        XorAddressAttribute {
            addr: XorSocketAddr::new(addr, transaction),
            kind: PhantomData,
        }
    }

    /// The address, for a message with the transaction ID `transaction`.
    pub fn addr(&self, transaction: TransactionId) -> SocketAddr
        ensures { IsXored transaction (xored_of self.now) result }
    {
        self.addr.addr(transaction)
    }
}

/// The same address. No memory is allocated.
impl<K> Clone for XorAddressAttribute<K> {
    ghost use Rattle.std.specs.Prelude.{◌≡◌, ⊤};
    ghost use Rattle.stun_attributes.specs.Kinds.{xored_of};

    ghost is_clone = { λ attribute copy. xored_of copy ≡ xored_of attribute };

    ghost is_infallible = { λ _. ⊤ };

    fn clone(&self) -> Result<Self, AllocError> {
        let addr = MappedSocketAddr::new(self.addr.addr.addr());
        Ok(XorAddressAttribute {
            addr: XorSocketAddr { addr },
            kind: PhantomData,
        })
    }
}

impl<K: AttributeKind> TypedAttribute for XorAddressAttribute<K> {
    ghost NUMBER = { K.NUMBER };

    const NUMBER: u16 = K::NUMBER;
}

impl<K> EncodeValue for XorAddressAttribute<K> {
    ghost use Rattle.stun_values.specs.Addresses.{address_value};
    ghost use Rattle.stun_attributes.specs.Kinds.{xored_of};

    ghost bytes = { λ attribute. address_value (xored_of attribute) };

    fn value_length(&self) -> u16 {
        self.addr.length()
    }

    fn write_value(&self, dest: &mut [u8]) {
        self.addr.write_into_unchecked(dest);
    }

    fn held_bytes(&self) -> Option<&[u8]> {
        None
    }
}

/// [`XorAddressAttribute`] says what reading refuses.
impl<K> ReadValue for XorAddressAttribute<K> {
    ghost use Rattle.stun_attributes.specs.AddressAttributes.{ReadsAddress};
    ghost use Rattle.stun_attributes.specs.Kinds.{xored_of};

    ghost reads_value = { ReadsAddress xored_of };

    fn read_value(_alloc: Global, value: &[u8]) -> Result<Self, StunParseError> {
        Ok(XorAddressAttribute {
            addr: XorSocketAddr::read(value)?,
            kind: PhantomData,
        })
    }
}

impl<K: AttributeKind> PrintText for XorAddressAttribute<K> {
    ghost use Rattle.stun_values.specs.Addresses.{xored_text};
    ghost use Rattle.stun_attributes.specs.Kinds.{named_text, xored_of};

    ghost text = { λ attribute. named_text K.NAME (xored_text (xored_of attribute)) };

    fn print<S: TextSink>(&self, sink: &mut S) -> Result<(), S::Error> {
        put_named(sink, K::name(), &self.addr)
    }
}

/// The name and the address: `XOR-RELAYED-ADDRESS: 192.168.0.1:3478` for IPv4, as it is without the
/// XOR, and `XOR-RELAYED-ADDRESS: XOR([2112:a442::5679]:9664)` for IPv6, as it is written.
impl<K: AttributeKind> fmt::Display for XorAddressAttribute<K> {
    ghost use Rattle.std.specs.Prelude.{Some};
    ghost use Rattle.stun_values.specs.Addresses.{xored_text};
    ghost use Rattle.stun_attributes.specs.Kinds.{named_text, xored_of};

    ghost output = { λ attribute. Some (named_text K.NAME (xored_text (xored_of attribute))) };

    fn fmt<W: fmt::Write>(&self, f: &mut fmt::Formatter<W>) -> fmt::Result {
        self.print(f)
    }
}
