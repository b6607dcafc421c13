//! Attributes whose values have a form of the library, and their numbers and names.

use crate::{Change, Transmissions, attribute_types};
use stun_types::attribute::{
    AddressAttribute, AttributeKind, BytesAttribute, PackedAttribute, ValueBytes,
};

/// MAPPED-ADDRESS: the address that a request came from, as it is (RFC 8489, section 14.1). The
/// value is 8 bytes for IPv4 and 20 for IPv6.
///
/// # Examples
///
/// ```
/// use discovery_attrs::MappedAddress;
/// use stun_types::prelude::*;
///
/// // 32853 is 0x8055.
/// let mapped = MappedAddress::new("192.0.2.1:32853".parse()?);
/// let mut bytes = [0; 12];
/// assert_eq!(rt; mapped.write_into(&mut bytes), Ok(12));
/// assert_eq!(rt; &bytes, b"\x00\x01\x00\x08\x00\x01\x80\x55\xC0\x00\x02\x01");
/// ```
pub type MappedAddress = AddressAttribute<MappedAddressKind>;

/// The kind of [`MappedAddress`].
pub enum MappedAddressKind {}

impl AttributeKind for MappedAddressKind {
    ghost use Rattle.std.specs.Prelude.{codes};
    ghost use Rattle.stun_grammar.specs.AttributeTypes.{MAPPED_ADDRESS};

    ghost NUMBER = { MAPPED_ADDRESS };

    ghost NAME = { codes "MAPPED-ADDRESS" };

    const NUMBER: u16 = attribute_types::MAPPED_ADDRESS;

    fn name() -> &'static str {
        "MAPPED-ADDRESS"
    }
}

/// CHANGE-REQUEST: the address from which the server is to answer (RFC 5780, section 7.2). The
/// value is four bytes, in whose last 0x4 is "change IP" and 0x2 "change port"; the other bits are
/// written 0 and ignored.
///
/// # Examples
///
/// ```
/// use discovery_attrs::{Change, ChangeRequest};
/// use stun_types::prelude::*;
///
/// let request = ChangeRequest::new(Change { ip: false, port: true });
/// let mut bytes = [0; 8];
/// assert_eq!(rt; request.write_into(&mut bytes), Ok(8));
/// assert_eq!(rt; bytes, [0x00, 0x03, 0x00, 0x04, 0x00, 0x00, 0x00, 0x02]);
/// ```
pub type ChangeRequest = PackedAttribute<ChangeRequestKind, Change>;

/// The kind of [`ChangeRequest`].
pub enum ChangeRequestKind {}

impl AttributeKind for ChangeRequestKind {
    ghost use Rattle.std.specs.Prelude.{codes};
    ghost use Rattle.discovery_attrs.specs.Discovery.{CHANGE_REQUEST};

    ghost NUMBER = { CHANGE_REQUEST };

    ghost NAME = { codes "CHANGE-REQUEST" };

    const NUMBER: u16 = attribute_types::CHANGE_REQUEST;

    fn name() -> &'static str {
        "CHANGE-REQUEST"
    }
}

/// PADDING: any bytes, which make a message longer than a packet (RFC 5780, section 7.6).
///
/// # Examples
///
/// ```
/// use discovery_attrs::Padding;
/// use stun_types::prelude::*;
///
/// // As many bytes as the packets of an Ethernet may have.
/// let padding = Padding::new(&[0; 1500])?;
/// assert_eq!(rt; padding.padded_len(), 1504);
/// ```
pub type Padding<'a> = BytesAttribute<PaddingKind, ValueBytes<'a>>;

/// The kind of [`Padding`].
pub enum PaddingKind {}

impl AttributeKind for PaddingKind {
    ghost use Rattle.std.specs.Prelude.{codes};
    ghost use Rattle.discovery_attrs.specs.Discovery.{PADDING};

    ghost NUMBER = { PADDING };

    ghost NAME = { codes "PADDING" };

    const NUMBER: u16 = attribute_types::PADDING;

    fn name() -> &'static str {
        "PADDING"
    }
}

/// RESPONSE-ORIGIN: the address that the response was sent from (RFC 5780, section 7.3). The value
/// is 8 bytes for IPv4 and 20 for IPv6.
///
/// # Examples
///
/// ```
/// use discovery_attrs::ResponseOrigin;
/// use stun_types::attribute::RawAttribute;
/// use stun_types::prelude::*;
///
/// let raw = RawAttribute::from_bytes(b"\x80\x2B\x00\x08\x00\x01\x0D\x96\xC0\x00\x02\x01")?;
/// let origin = ResponseOrigin::from_raw_ref(alloc, &raw)?;
/// assert_eq!(rt; origin.addr(), "192.0.2.1:3478".parse()?);
/// ```
pub type ResponseOrigin = AddressAttribute<ResponseOriginKind>;

/// The kind of [`ResponseOrigin`].
pub enum ResponseOriginKind {}

impl AttributeKind for ResponseOriginKind {
    ghost use Rattle.std.specs.Prelude.{codes};
    ghost use Rattle.discovery_attrs.specs.Discovery.{RESPONSE_ORIGIN};

    ghost NUMBER = { RESPONSE_ORIGIN };

    ghost NAME = { codes "RESPONSE-ORIGIN" };

    const NUMBER: u16 = attribute_types::RESPONSE_ORIGIN;

    fn name() -> &'static str {
        "RESPONSE-ORIGIN"
    }
}

/// OTHER-ADDRESS: the address from which the server answers if both its address and its port are
/// to change (RFC 5780, section 7.4). The value is 8 bytes for IPv4 and 20 for IPv6.
///
/// # Examples
///
/// ```
/// use discovery_attrs::OtherAddress;
/// use stun_types::attribute::RawAttribute;
/// use stun_types::prelude::*;
///
/// let raw = RawAttribute::from_bytes(b"\x80\x2C\x00\x08\x00\x01\x0D\x97\xC0\x00\x02\x02")?;
/// let other = OtherAddress::from_raw_ref(alloc, &raw)?;
/// assert_eq!(rt; other.addr(), "192.0.2.2:3479".parse()?);
/// ```
pub type OtherAddress = AddressAttribute<OtherAddressKind>;

/// The kind of [`OtherAddress`].
pub enum OtherAddressKind {}

impl AttributeKind for OtherAddressKind {
    ghost use Rattle.std.specs.Prelude.{codes};
    ghost use Rattle.discovery_attrs.specs.Discovery.{OTHER_ADDRESS};

    ghost NUMBER = { OTHER_ADDRESS };

    ghost NAME = { codes "OTHER-ADDRESS" };

    const NUMBER: u16 = attribute_types::OTHER_ADDRESS;

    fn name() -> &'static str {
        "OTHER-ADDRESS"
    }
}

/// TRANSACTION_TRANSMIT_COUNTER: the numbers of times that a request and its response were sent
/// (RFC 7982, section 3.1). The value is two bytes that are written 0 and ignored, and a byte for
/// each count.
///
/// # Examples
///
/// ```
/// use discovery_attrs::{TransactionTransmitCounter, Transmissions};
/// use stun_types::prelude::*;
///
/// // The request is sent for the third time.
/// let counter = TransactionTransmitCounter::new(Transmissions { requests: 3, responses: 0 });
/// let mut bytes = [0; 8];
/// assert_eq!(rt; counter.write_into(&mut bytes), Ok(8));
/// assert_eq!(rt; bytes, [0x80, 0x25, 0x00, 0x04, 0x00, 0x00, 0x03, 0x00]);
/// ```
pub type TransactionTransmitCounter = PackedAttribute<
    TransactionTransmitCounterKind,
    Transmissions,
>;

/// The kind of [`TransactionTransmitCounter`].
pub enum TransactionTransmitCounterKind {}

impl AttributeKind for TransactionTransmitCounterKind {
    ghost use Rattle.std.specs.Prelude.{codes};
    ghost use Rattle.discovery_attrs.specs.Discovery.{TRANSACTION_TRANSMIT_COUNTER};

    ghost NUMBER = { TRANSACTION_TRANSMIT_COUNTER };

    ghost NAME = { codes "TRANSACTION_TRANSMIT_COUNTER" };

    const NUMBER: u16 = attribute_types::TRANSACTION_TRANSMIT_COUNTER;

    fn name() -> &'static str {
        "TRANSACTION_TRANSMIT_COUNTER"
    }
}
