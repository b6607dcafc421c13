//! Adding the attributes of a check or a response, before it is signed.

ghost use Rattle.std.specs.Prelude.{◌≡◌, ◌∷◌, ◌++◌, ◌≤◌, [], codes, length};
ghost use Rattle.std.specs.Option.{option_map};
ghost use Rattle.stun_attributes.specs.DefaultReasons.{default_reason};
ghost use Rattle.stun_attributes.specs.Kinds.{number_of, xored_of};
ghost use Rattle.stun_attributes.specs.Texts.{text_bytes};
ghost use Rattle.stun_grammar.specs.Attributes.{canonical};
ghost use Rattle.stun_grammar.specs.AttributeTypes.{ERROR_CODE, UNKNOWN_ATTRIBUTES, USERNAME, XOR_MAPPED_ADDRESS};
ghost use Rattle.stun_grammar.specs.Numbers.{be32, be64};
ghost use Rattle.stun_values.specs.Addresses.{address_value, xored_value};
ghost use Rattle.stun_values.specs.ErrorValues.{error_value};
ghost use Rattle.stun_values.specs.TypeLists.{types_encoding};
ghost use Rattle.stun_authentication.specs.Writing.{Lengthens};
ghost use Rattle.stun_endpoints.specs.Conversions.{socket_of};
ghost use Rattle.ice_attrs.specs.Ice.{ICE_CONTROLLED, ICE_CONTROLLING, PRIORITY, USE_CANDIDATE};
ghost use Rattle.ice_checks.specs.Checks.{check_attributes, nomination_attributes, response_attributes, role_attribute, software_attributes};
ghost use Rattle.ice_checks.specs.Views.{response_of, types_in};

use crate::response::CheckResponse;
use crate::unknown::UnknownList;
use ice_attrs::{IceControlled, IceControlling, Priority, UseCandidate};
use ice_machine::{Request, Role};
use std::net::SocketAddr;
use stun_authentication::attributes::{add_bytes, add_one};
use stun_endpoints::Endpoint;
use stun_types::attribute::{AttributeStaticType, ErrorCode, Software, Username, XorMappedAddress};
use stun_types::message::{StunWriteError, TransactionId};
use stun_types::prelude::*;

/// Adds a SOFTWARE, if there is one.
fn add_software<B: MessageWrite>(
    software: Option<&Software>,
    write: &mut B,
) -> Result<(), StunWriteError>
    ensures { Lengthens result (B.state write.old) (B.state write.new)
        (software_attributes (option_map (λ it. text_bytes it.now) software.entry)) }
{
    match software {
        Some(software) => add_bytes(Software::TYPE, software.text().as_bytes(), write),
        None => Ok(()),
    }
}

/// Adds a USERNAME.
fn add_username<B: MessageWrite>(username: &str, write: &mut B) -> Result<(), StunWriteError>
    requires { length username.now ≤ 513 }
    ensures { Lengthens result (B.state write.old) (B.state write.new)
        (canonical USERNAME username.now ∷ []) }
{
    add_bytes(Username::TYPE, username.as_bytes(), write)
}

/// Adds a PRIORITY.
fn push_priority<B: MessageWrite>(attribute: &Priority, write: &mut B) -> Result<(), StunWriteError>
    ensures { Lengthens result (B.state write.old) (B.state write.new)
        (canonical PRIORITY (be32 (number_of attribute.now)) ∷ []) }
{
    add_one(attribute, write)
}

/// Adds a USE-CANDIDATE.
fn push_nomination<B: MessageWrite>(
    attribute: &UseCandidate,
    write: &mut B,
) -> Result<(), StunWriteError>
    ensures { Lengthens result (B.state write.old) (B.state write.new)
        (canonical USE_CANDIDATE [] ∷ []) }
{
    add_one(attribute, write)
}

/// Adds an ICE-CONTROLLING.
fn push_controlling<B: MessageWrite>(
    attribute: &IceControlling,
    write: &mut B,
) -> Result<(), StunWriteError>
    ensures { Lengthens result (B.state write.old) (B.state write.new)
        (canonical ICE_CONTROLLING (be64 (number_of attribute.now)) ∷ []) }
{
    add_one(attribute, write)
}

/// Adds an ICE-CONTROLLED.
fn push_controlled<B: MessageWrite>(
    attribute: &IceControlled,
    write: &mut B,
) -> Result<(), StunWriteError>
    ensures { Lengthens result (B.state write.old) (B.state write.new)
        (canonical ICE_CONTROLLED (be64 (number_of attribute.now)) ∷ []) }
{
    add_one(attribute, write)
}

/// Adds an XOR-MAPPED-ADDRESS.
fn push_mapped<B: MessageWrite>(
    attribute: &XorMappedAddress,
    write: &mut B,
) -> Result<(), StunWriteError>
    ensures { Lengthens result (B.state write.old) (B.state write.new)
        (canonical XOR_MAPPED_ADDRESS (address_value (xored_of attribute.now)) ∷ []) }
{
    add_one(attribute, write)
}

/// Adds an UNKNOWN-ATTRIBUTES.
fn push_types<B: MessageWrite>(
    attribute: &UnknownList<'_>,
    write: &mut B,
) -> Result<(), StunWriteError>
    ensures { Lengthens result (B.state write.old) (B.state write.new)
        (canonical UNKNOWN_ATTRIBUTES (types_encoding (types_in attribute.now)) ∷ []) }
{
    add_one(attribute, write)
}

/// Adds the PRIORITY of a check.
fn add_priority<B: MessageWrite>(priority: u32, write: &mut B) -> Result<(), StunWriteError>
    ensures { Lengthens result (B.state write.old) (B.state write.new)
        (canonical PRIORITY (be32 priority) ∷ []) }
{
    push_priority(&Priority::new(priority), write)
}

/// Adds a USE-CANDIDATE, if the check nominates its pair.
fn add_nomination<B: MessageWrite>(nominates: bool, write: &mut B) -> Result<(), StunWriteError>
    ensures { Lengthens result (B.state write.old) (B.state write.new)
        (nomination_attributes nominates) }
{
    if nominates {
        return push_nomination(&UseCandidate::new(), write);
    }
    Ok(())
}

/// Adds the role of the agent, with its tiebreaker.
fn add_role<B: MessageWrite>(
    role: Role,
    tiebreaker: u64,
    write: &mut B,
) -> Result<(), StunWriteError>
    ensures { Lengthens result (B.state write.old) (B.state write.new)
        (role_attribute role tiebreaker ∷ []) }
{
    match role {
        Role::Controlling => push_controlling(&IceControlling::new(tiebreaker), write),
        Role::Controlled => push_controlled(&IceControlled::new(tiebreaker), write),
    }
}

/// Adds what the machine has put into a check, after its PRIORITY.
fn add_intent<B: MessageWrite>(request: &Request, write: &mut B) -> Result<(), StunWriteError>
    ensures { Lengthens result (B.state write.old) (B.state write.new)
        (nomination_attributes request.now.nominates
        ++ role_attribute request.now.role request.now.tiebreaker ∷ []) }
{
    add_nomination(request.nominates, write)?;
    add_role(request.role, request.tiebreaker, write)
}

/// Adds what the machine has put into a check.
fn add_request<B: MessageWrite>(request: &Request, write: &mut B) -> Result<(), StunWriteError>
    ensures { Lengthens result (B.state write.old) (B.state write.new)
        (canonical PRIORITY (be32 request.now.priority)
        ∷ (nomination_attributes request.now.nominates
        ++ role_attribute request.now.role request.now.tiebreaker ∷ [])) }
{
    add_priority(request.priority, write)?;
    add_intent(request, write)
}

/// Adds a USERNAME, and what the machine has put into a check.
fn add_named<B: MessageWrite>(
    request: &Request,
    username: &str,
    write: &mut B,
) -> Result<(), StunWriteError>
    requires { length username.now ≤ 513 }
    ensures { Lengthens result (B.state write.old) (B.state write.new)
        (canonical USERNAME username.now ∷ (canonical PRIORITY (be32 request.now.priority)
        ∷ (nomination_attributes request.now.nominates
        ++ role_attribute request.now.role request.now.tiebreaker ∷ []))) }
{
    add_username(username, write)?;
    add_request(request, write)
}

/// Adds the attributes of a check, before it is signed.
pub(crate) fn add_check<B: MessageWrite>(
    request: &Request,
    username: &str,
    software: Option<&Software>,
    write: &mut B,
) -> Result<(), StunWriteError>
    requires { length username.now ≤ 513 }
    ensures { Lengthens result (B.state write.old) (B.state write.new)
        (check_attributes (option_map (λ it. text_bytes it.now) software.entry) username.now request.now) }
{
    add_software(software, write)?;
    add_named(request, username, write)
}

/// Adds an XOR-MAPPED-ADDRESS with this address.
fn add_mapped<B: MessageWrite>(
    source: Endpoint,
    id: TransactionId,
    write: &mut B,
) -> Result<(), StunWriteError>
    ensures { Lengthens result (B.state write.old) (B.state write.new)
        (canonical XOR_MAPPED_ADDRESS (xored_value id (socket_of source)) ∷ []) }
{
    push_mapped(&XorMappedAddress::new(SocketAddr::from(source), id), write)
}

/// Adds an ERROR-CODE with this value.
fn add_error_value<B: MessageWrite>(value: &[u8], write: &mut B) -> Result<(), StunWriteError>
    requires { length value.now ≤ 767 }
    ensures { Lengthens result (B.state write.old) (B.state write.new)
        (canonical ERROR_CODE value.now ∷ []) }
{
    add_bytes(ErrorCode::TYPE, value, write)
}

/// Adds the ERROR-CODE of a 420, and its list of types.
fn add_unknown<B: MessageWrite>(
    types: &UnknownList<'_>,
    write: &mut B,
) -> Result<(), StunWriteError>
    ensures { Lengthens result (B.state write.old) (B.state write.new)
        (canonical ERROR_CODE (error_value 420 (default_reason 420))
        ∷ canonical UNKNOWN_ATTRIBUTES (types_encoding (types_in types.now)) ∷ []) }
{
    add_error_value(b"\0\0\x04\x14Unknown Attribute", write)?;
    push_types(types, write)
}

/// Adds the attributes of a response, before it is signed.
pub(crate) fn add_response<B: MessageWrite>(
    response: &CheckResponse<'_>,
    id: TransactionId,
    write: &mut B,
) -> Result<(), StunWriteError>
    ensures { Lengthens result (B.state write.old) (B.state write.new)
        (response_attributes id (response_of response.now)) }
{
    match response {
        CheckResponse::Success { source } => add_mapped(*source, id, write),
        CheckResponse::BadRequest => add_error_value(b"\0\0\x04\x00Bad Request", write),
        CheckResponse::Unauthenticated => add_error_value(b"\0\0\x04\x01Unauthenticated", write),
        CheckResponse::UnknownTypes { types } => add_unknown(types, write),
        CheckResponse::RoleConflict => add_error_value(b"\0\0\x04\x57Role Conflict", write),
    }
}
