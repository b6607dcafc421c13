//! Adding the attributes of a response, before it is signed.

ghost use Rattle.std.specs.Prelude.{◌≡◌, ◌∷◌, ◌++◌, [], map};
ghost use Rattle.std.specs.Option.{option_map};
ghost use Rattle.stun_base.specs.declared.message_class.MessageClass.TheVariants.{Success};
ghost use Rattle.stun_attributes.specs.ErrorCodes.{error_code, error_reason};
ghost use Rattle.stun_attributes.specs.Kinds.{addr_of, number_of, xored_of};
ghost use Rattle.stun_attributes.specs.Texts.{text_bytes};
ghost use Rattle.stun_attributes.specs.Unknown.{listed};
ghost use Rattle.stun_grammar.specs.Attributes.{canonical};
ghost use Rattle.stun_grammar.specs.AttributeTypes.{ALTERNATE_SERVER, XOR_MAPPED_ADDRESS};
ghost use Rattle.stun_values.specs.Addresses.{address_value};
ghost use Rattle.stun_types.specs.Message.{message_bytes};
ghost use Rattle.stun_types.specs.Replies.{error_attribute};
ghost use Rattle.stun_authentication.specs.Writing.{Lengthens};
ghost use Rattle.turn_attrs.specs.Turn.{XOR_RELAYED_ADDRESS, seconds_of};
ghost use Rattle.turn_allocations.specs.Answers.{answer_of, code_of, given_list, missing_in, missing_list};
ghost use Rattle.stun_values.specs.ErrorValues.{error_value};
ghost use Rattle.stun_attributes.specs.DefaultReasons.{default_reason};
ghost use Rattle.turn_server.specs.Answers.{answer_class, address_attribute, lifetime_attribute, token_attribute, listed_one, given_attributes, missing_attribute, allocation_attributes, answer_content, software_attributes, answer_attributes, list_attribute, alternate_attribute};

use std::net::SocketAddr;
use stun_authentication::attributes::{add_bytes, add_error, add_one};
use stun_endpoints::Endpoint;
use stun_types::attribute::{
    AlternateServer, AttributeStaticType, AttributeType, ErrorCode, Software, UnknownAttributes,
    XorMappedAddress,
};
use stun_types::message::{Message, StunWriteError, TransactionId};
use stun_types::prelude::*;
use turn_allocations::{Answer, Families, Given, Refusal};
use turn_attrs::attribute_types::ADDRESS_ERROR_CODE;
use turn_attrs::{Lifetime, ReservationToken, XorRelayedAddress};
use turn_reservations::Reply;

/// The value of an ERROR-CODE for a refusal, with its reason phrase.
fn error_bytes(refusal: Refusal) -> &'static [u8]
    ensures { result.now ≡ error_value (code_of refusal) (default_reason (code_of refusal)) }
{
    match refusal {
        Refusal::BadRequest => b"\0\0\x04\x00Bad Request",
        Refusal::Forbidden => b"\0\0\x04\x03Forbidden",
        Refusal::AllocationMismatch => b"\0\0\x04\x25Allocation Mismatch",
        Refusal::AddressFamilyNotSupported => b"\0\0\x04\x28Address Family Not Supported",
        Refusal::WrongCredentials => b"\0\0\x04\x29Wrong Credentials",
        Refusal::UnsupportedTransportProtocol => b"\0\0\x04\x2AUnsupported Transport Protocol",
        Refusal::PeerAddressFamilyMismatch => b"\0\0\x04\x2BPeer Address Family Mismatch",
        Refusal::AllocationQuotaReached => b"\0\0\x04\x56Allocation Quota Reached",
        Refusal::InsufficientCapacity => b"\0\0\x05\x08Insufficient Capacity",
    }
}

/// Adds an XOR-RELAYED-ADDRESS.
fn push_relayed<B: MessageWrite>(
    attribute: &XorRelayedAddress,
    write: &mut B,
) -> Result<(), StunWriteError>
    ensures { Lengthens result (B.state write.old) (B.state write.new)
        (canonical XOR_RELAYED_ADDRESS (address_value (xored_of attribute.now)) ∷ []) }
{
    add_one(attribute, write)
}

/// Adds an XOR-MAPPED-ADDRESS.
fn push_mapped<B: MessageWrite>(
    attribute: &XorMappedAddress,
    write: &mut B,
) -> Result<(), StunWriteError>
    ensures { Lengthens result (B.state write.old) (B.state write.new)
        (canonical XOR_MAPPED_ADDRESS (address_value (xored_of attribute.now)) ∷ []) }
{
    add_one(attribute, write)
}

/// Adds a LIFETIME.
fn push_lifetime<B: MessageWrite>(attribute: &Lifetime, write: &mut B) -> Result<(), StunWriteError>
    ensures { Lengthens result (B.state write.old) (B.state write.new)
        (lifetime_attribute (seconds_of attribute.now) ∷ []) }
{
    add_one(attribute, write)
}

/// Adds a RESERVATION-TOKEN.
fn push_token<B: MessageWrite>(
    attribute: &ReservationToken,
    write: &mut B,
) -> Result<(), StunWriteError>
    ensures { Lengthens result (B.state write.old) (B.state write.new)
        (token_attribute (number_of attribute.now) ∷ []) }
{
    add_one(attribute, write)
}

/// Adds an UNKNOWN-ATTRIBUTES.
fn push_list<B: MessageWrite>(
    attribute: &UnknownAttributes,
    write: &mut B,
) -> Result<(), StunWriteError>
    ensures { Lengthens result (B.state write.old) (B.state write.new)
        (list_attribute (listed attribute.now) ∷ []) }
{
    add_one(attribute, write)
}

/// Adds an ALTERNATE-SERVER.
fn push_alternate<B: MessageWrite>(
    attribute: &AlternateServer,
    write: &mut B,
) -> Result<(), StunWriteError>
    ensures { Lengthens result (B.state write.old) (B.state write.new)
        (canonical ALTERNATE_SERVER (address_value (addr_of attribute.now)) ∷ []) }
{
    add_one(attribute, write)
}

/// Adds an XOR-RELAYED-ADDRESS with this address.
fn add_relayed<B: MessageWrite>(
    relayed: Endpoint,
    id: TransactionId,
    write: &mut B,
) -> Result<(), StunWriteError>
    ensures { Lengthens result (B.state write.old) (B.state write.new)
        (address_attribute XOR_RELAYED_ADDRESS id relayed ∷ []) }
{
    push_relayed(
        &XorRelayedAddress::new(SocketAddr::from(relayed), id),
        write,
    )
}

/// Adds an XOR-MAPPED-ADDRESS with this address.
fn add_mapped<B: MessageWrite>(
    client: Endpoint,
    id: TransactionId,
    write: &mut B,
) -> Result<(), StunWriteError>
    ensures { Lengthens result (B.state write.old) (B.state write.new)
        (address_attribute XOR_MAPPED_ADDRESS id client ∷ []) }
{
    push_mapped(&XorMappedAddress::new(SocketAddr::from(client), id), write)
}

/// Adds a LIFETIME with these seconds.
fn add_lifetime<B: MessageWrite>(lifetime: u32, write: &mut B) -> Result<(), StunWriteError>
    ensures { Lengthens result (B.state write.old) (B.state write.new)
        (lifetime_attribute lifetime ∷ []) }
{
    push_lifetime(&Lifetime::new(lifetime), write)
}

/// Adds the RESERVATION-TOKEN of a reserved port, if there is one.
fn add_token<B: MessageWrite>(token: Option<u64>, write: &mut B) -> Result<(), StunWriteError>
    ensures { Lengthens result (B.state write.old) (B.state write.new)
        (map token_attribute (listed_one token)) }
{
    match token {
        Some(token) => push_token(&ReservationToken::new(token), write),
        None => Ok(()),
    }
}

/// Adds an ADDRESS-ERROR-CODE.
fn add_address_error<B: MessageWrite>(
    family: u8,
    refusal: Refusal,
    write: &mut B,
) -> Result<(), StunWriteError>
    ensures { Lengthens result (B.state write.old) (B.state write.new)
        (missing_attribute (record { family = family; code = code_of refusal }) ∷ []) }
{
    let error = error_bytes(refusal);
    let mut value = [0; 34];
    value[..error.len()].copy_from_slice(error);
    value[0] = family;
    add_bytes(
        AttributeType(ADDRESS_ERROR_CODE),
        &value[..error.len()],
        write,
    )
}

/// Adds an ADDRESS-ERROR-CODE for a family of which a client has no relayed address, if there is a reason.
fn add_missing<B: MessageWrite>(
    family: u8,
    missing: Option<Refusal>,
    write: &mut B,
) -> Result<(), StunWriteError>
    ensures { Lengthens result (B.state write.old) (B.state write.new)
        (map missing_attribute (missing_in family missing)) }
{
    match missing {
        Some(refusal) => add_address_error(family, refusal, write),
        None => Ok(()),
    }
}

/// Adds the XOR-RELAYED-ADDRESS of a family, if there is one.
fn add_given<B: MessageWrite>(
    given: Option<Given>,
    id: TransactionId,
    write: &mut B,
) -> Result<(), StunWriteError>
    ensures { Lengthens result (B.state write.old) (B.state write.new)
        (given_attributes id given) }
{
    match given {
        Some(given) => add_relayed(given.address, id, write),
        None => Ok(()),
    }
}

/// Adds a SOFTWARE, if there is one.
fn add_software<B: MessageWrite>(
    software: Option<&Software>,
    write: &mut B,
) -> Result<(), StunWriteError>
    ensures { Lengthens result (B.state write.old) (B.state write.new)
        (software_attributes (option_map (λ it. text_bytes it.now) software.entry)) }
{
    match software {
        Some(software) => add_bytes(Software::TYPE, software.text().as_bytes(), write),
        None => Ok(()),
    }
}

/// Adds the XOR-RELAYED-ADDRESS of each relayed address.
fn add_all_given<B: MessageWrite>(
    given: Families<Option<Given>>,
    id: TransactionId,
    write: &mut B,
) -> Result<(), StunWriteError>
    ensures { Lengthens result (B.state write.old) (B.state write.new)
        (given_attributes id given.ipv4 ++ given_attributes id given.ipv6) }
{
    add_given(given.ipv4, id, write)?;
    add_given(given.ipv6, id, write)
}

/// Adds an ADDRESS-ERROR-CODE for each family of which a client has no relayed address.
fn add_all_missing<B: MessageWrite>(
    missing: Families<Option<Refusal>>,
    write: &mut B,
) -> Result<(), StunWriteError>
    ensures { Lengthens result (B.state write.old) (B.state write.new)
        (map missing_attribute (missing_in 1 missing.ipv4)
        ++ map missing_attribute (missing_in 2 missing.ipv6)) }
{
    add_missing(1, missing.ipv4, write)?;
    add_missing(2, missing.ipv6, write)
}

/// Adds a LIFETIME, and the RESERVATION-TOKEN of a reserved port.
fn add_terms<B: MessageWrite>(
    lifetime: u32,
    token: Option<u64>,
    write: &mut B,
) -> Result<(), StunWriteError>
    ensures { Lengthens result (B.state write.old) (B.state write.new)
        (lifetime_attribute lifetime ∷ map token_attribute (listed_one token)) }
{
    add_lifetime(lifetime, write)?;
    add_token(token, write)
}

/// Adds the address of the client, and what an allocation lacks.
fn add_ends<B: MessageWrite>(
    client: Endpoint,
    missing: Families<Option<Refusal>>,
    id: TransactionId,
    write: &mut B,
) -> Result<(), StunWriteError>
    ensures { Lengthens result (B.state write.old) (B.state write.new)
        (address_attribute XOR_MAPPED_ADDRESS id client
        ∷ (map missing_attribute (missing_in 1 missing.ipv4)
        ++ map missing_attribute (missing_in 2 missing.ipv6))) }
{
    add_mapped(client, id, write)?;
    add_all_missing(missing, write)
}

/// Adds what follows the relayed addresses.
fn add_rest<B: MessageWrite>(
    lifetime: u32,
    token: Option<u64>,
    client: Endpoint,
    missing: Families<Option<Refusal>>,
    id: TransactionId,
    write: &mut B,
) -> Result<(), StunWriteError>
    ensures { Lengthens result (B.state write.old) (B.state write.new)
        (lifetime_attribute lifetime ∷ map token_attribute (listed_one token)
        ++ (address_attribute XOR_MAPPED_ADDRESS id client
        ∷ (map missing_attribute (missing_in 1 missing.ipv4)
        ++ map missing_attribute (missing_in 2 missing.ipv6)))) }
{
    add_terms(lifetime, token, write)?;
    add_ends(client, missing, id, write)
}

/// Adds what the success response to an Allocate request says.
fn add_allocation<B: MessageWrite>(
    given: Families<Option<Given>>,
    lifetime: u32,
    token: Option<u64>,
    missing: Families<Option<Refusal>>,
    client: Endpoint,
    id: TransactionId,
    write: &mut B,
) -> Result<(), StunWriteError>
    ensures { Lengthens result (B.state write.old) (B.state write.new)
        (allocation_attributes id client (given_list given) lifetime token (missing_list missing)) }
{
    add_all_given(given, id, write)?;
    add_rest(lifetime, token, client, missing, id, write)
}

/// Adds what a success response says.
fn add_content<B: MessageWrite>(
    request: &Message<'_>,
    reply: Reply,
    client: Endpoint,
    write: &mut B,
) -> Result<(), StunWriteError>
    requires { answer_class (answer_of reply.answer) ≡ Success }
    ensures { Lengthens result (B.state write.old) (B.state write.new)
        (answer_content (message_bytes request.now) client (answer_of reply.answer) reply.token) }
{
    match reply.answer {
        Answer::Allocated {
            given,
            lifetime,
            missing,
        } => {
            add_allocation(
                given,
                lifetime,
                reply.token,
                missing,
                client,
                request.transaction_id(),
                write,
            )
        }
        Answer::Refreshed(lifetime) => add_lifetime(lifetime, write),
        Answer::Done => Ok(()),
        Answer::Refused(_) => unreachable!(),
    }
}

/// Adds the attributes of a success response.
pub(crate) fn add_success<B: MessageWrite>(
    request: &Message<'_>,
    reply: Reply,
    client: Endpoint,
    software: Option<&Software>,
    write: &mut B,
) -> Result<(), StunWriteError>
    requires { answer_class (answer_of reply.answer) ≡ Success }
    ensures { Lengthens result (B.state write.old) (B.state write.new)
        (answer_attributes (option_map (λ it. text_bytes it.now) software.entry) client
        (message_bytes request.now) (answer_of reply.answer) reply.token) }
{
    add_content(request, reply, client, write)?;
    add_software(software, write)
}

/// Adds the attributes of an error response.
pub(crate) fn add_refusal<B: MessageWrite>(
    error: &ErrorCode,
    software: Option<&Software>,
    write: &mut B,
) -> Result<(), StunWriteError>
    ensures { Lengthens result (B.state write.old) (B.state write.new)
        (error_attribute (error_code error.now) (error_reason error.now)
        ∷ software_attributes (option_map (λ it. text_bytes it.now) software.entry)) }
{
    add_error(error, write)?;
    add_software(software, write)
}

/// Adds an ALTERNATE-SERVER with this address.
fn add_alternate<B: MessageWrite>(server: Endpoint, write: &mut B) -> Result<(), StunWriteError>
    ensures { Lengthens result (B.state write.old) (B.state write.new)
        (alternate_attribute server ∷ []) }
{
    push_alternate(&AlternateServer::new(SocketAddr::from(server)), write)
}

/// Adds what follows the ERROR-CODE of a 300.
fn add_server<B: MessageWrite>(
    server: Endpoint,
    software: Option<&Software>,
    write: &mut B,
) -> Result<(), StunWriteError>
    ensures { Lengthens result (B.state write.old) (B.state write.new)
        (alternate_attribute server
        ∷ software_attributes (option_map (λ it. text_bytes it.now) software.entry)) }
{
    add_alternate(server, write)?;
    add_software(software, write)
}

/// Adds the attributes of a 300.
pub(crate) fn add_redirect<B: MessageWrite>(
    error: &ErrorCode,
    server: Endpoint,
    software: Option<&Software>,
    write: &mut B,
) -> Result<(), StunWriteError>
    ensures { Lengthens result (B.state write.old) (B.state write.new)
        (error_attribute (error_code error.now) (error_reason error.now)
        ∷ alternate_attribute server
        ∷ software_attributes (option_map (λ it. text_bytes it.now) software.entry)) }
{
    add_error(error, write)?;
    add_server(server, software, write)
}

/// Adds the attributes of a 420.
pub(crate) fn add_unknown<B: MessageWrite>(
    error: &ErrorCode,
    list: &UnknownAttributes,
    write: &mut B,
) -> Result<(), StunWriteError>
    ensures { Lengthens result (B.state write.old) (B.state write.new)
        (error_attribute (error_code error.now) (error_reason error.now)
        ∷ list_attribute (listed list.now) ∷ []) }
{
    add_error(error, write)?;
    push_list(list, write)
}
