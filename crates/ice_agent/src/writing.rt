//! Writing checks and responses at the start of a slice.

ghost use Rattle.std.specs.Prelude.{◌≡◌, ◌+◌, ◌≤◌, None, length};
ghost use Rattle.std.specs.Option.{option_map};
ghost use Rattle.stun_attributes.specs.Texts.{text_bytes};
ghost use Rattle.stun_grammar.specs.Attributes.{attribute_length};
ghost use Rattle.stun_grammar.specs.declared.error.StunWriteError.TheVariants.{TooSmall};
ghost use Rattle.stun_keys.specs.Keys.{key_algorithm};
ghost use Rattle.stun_authentication.specs.Writing.{adds, steps_length};
ghost use Rattle.stun_endpoints.specs.Conversions.{socket_of};
ghost use Rattle.stun_values.specs.Addresses.{xored_value};
ghost use Rattle.stun_values.specs.TypeLists.{types_encoding};
ghost use Rattle.ice_attrs.specs.CheckUsernames.{ufrag_text};
ghost use Rattle.ice_checks.specs.Checks.{check_length, check_text, response_attributes, response_length, response_text, signature_refusal, software_attributes};
ghost use Rattle.ice_checks.specs.Views.{login_of, response_of, signing_of, types_in};
ghost use Rattle.ice_agent.specs.Writing.{placed_in, replied_in, reply_placed_in, signing_size, written_in};

use ice_checks::{CheckResponse, Credentials, Signature, UnknownList, write_check};
use ice_machine::Request;
use std::alloc::Global;
use std::net::SocketAddr;
use stun_endpoints::Endpoint;
use stun_types::attribute::{Software, XorMappedAddress, pad_attribute_len};
use stun_types::message::{
    IntegrityAlgorithm, MessageWriteMutSlice, StunWriteError, TransactionId,
};
use stun_types::prelude::*;

/// The length of the longest message: a header, and what its length field can state.
const GREATEST: usize = 20 + 65535;

/// The length of an attribute with a value of this length.
fn attribute_length(value: usize) -> usize
    requires { value ≤ 65535 }
    ensures length { result ≡ attribute_length value }
    ensures bound { result ≤ 65540 }
{
    4 + pad_attribute_len(value)
}

/// The length of a SOFTWARE, if there is one.
fn software_length(software: Option<&Software>) -> usize
    ensures length { result ≡ steps_length
        (adds (software_attributes (option_map (λ it. text_bytes it.now) software.entry))) }
    ensures bound { result ≤ 65540 }
{
    match software {
        Some(software) => attribute_length(software.text().len()),
        None => 0,
    }
}

/// The length of a check.
fn check_length(
    request: &Request,
    own: &Credentials<'_>,
    peer: &Credentials<'_>,
    software: Option<&Software>,
) -> usize
    requires own { length (ufrag_text own.now.fragment) ≤ 256 }
    requires peer { length (ufrag_text peer.now.fragment) ≤ 256 }
    ensures length { result ≡ check_length (login_of peer.now) (ufrag_text own.now.fragment)
        (option_map (λ it. text_bytes it.now) software.entry) request.now }
    ensures bound { result ≤ 65555 }
{
    let username = peer.fragment.text().len() + 1 + own.fragment.text().len();
    let nomination = if request.nominates { 4 } else { 0 };
    20 + software_length(software) + attribute_length(username) + 8 + nomination + 12 + 24 + 8
}

/// The length of an XOR-MAPPED-ADDRESS.
fn mapped_length(source: Endpoint, id: TransactionId) -> usize
    ensures length { result ≡ attribute_length (length (xored_value id (socket_of source))) }
    ensures bound { result ≤ 65540 }
{
    XorMappedAddress::new(SocketAddr::from(source), id).padded_len()
}

/// The length of a list of types.
fn list_length(types: &UnknownList<'_>) -> usize
    ensures length { result ≡ attribute_length (length (types_encoding (types_in types.now))) }
    ensures bound { result ≤ 65540 }
{
    types.padded_len()
}

/// The length of a response, but for its integrity attribute.
fn unsigned_length(response: &CheckResponse<'_>, id: TransactionId) -> usize
    ensures length { result
        ≡ 28 + steps_length (adds (response_attributes id (response_of response.now))) }
    ensures bound { result ≤ 65600 }
{
    match response {
        CheckResponse::Success { source } => 28 + mapped_length(*source, id),
        CheckResponse::BadRequest => 48,
        CheckResponse::Unauthenticated => 52,
        CheckResponse::UnknownTypes { types } => 56 + list_length(types),
        CheckResponse::RoleConflict => 52,
    }
}

/// The length of an integrity attribute, if there is a signature.
fn signature_length(signature: Option<Signature<'_>>) -> usize
    ensures length { result ≡ signing_size (option_map signing_of signature.entry) }
    ensures bound { result ≤ 36 }
{
    match signature {
        Some(signature) => match signature.algorithm {
            IntegrityAlgorithm::Sha1 => 24,
            IntegrityAlgorithm::Sha256 => 36,
        },
        None => 0,
    }
}

/// That a slice has no room for a message.
fn too_small(expected: usize, out: &[u8]) -> StunWriteError
    ensures { result ≡ TooSmall expected (length out.now) }
{
    StunWriteError::TooSmall {
        expected,
        actual: out.len(),
    }
}

/// Writes a check at the start of a slice.
pub(crate) fn write_request(
    alloc: Global,
    request: &Request,
    own: &Credentials<'_>,
    peer: &Credentials<'_>,
    software: Option<&Software>,
    out: &mut [u8],
) -> Result<usize, StunWriteError>
    requires own { length (ufrag_text own.now.fragment) ≤ 256 }
    requires peer { length (ufrag_text peer.now.fragment) ≤ 256 }
    requires key { key_algorithm peer.now.key.now ≡ None }
    ensures result { result ≡ written_in (check_length (login_of peer.now) (ufrag_text own.now.fragment)
        (option_map (λ it. text_bytes it.now) software.entry) request.now) (length out.old) }
    ensures out { let software = option_map (λ it. text_bytes it.now) software.entry in
        let own = ufrag_text own.now.fragment in
        out.new ≡ placed_in (check_length (login_of peer.now) own software request.now)
        (check_text (login_of peer.now) own software request.now) out.old }
{
    let expected = check_length(request, own, peer, software);
    if out.len() < expected {
        return Err(too_small(expected, out));
    }
    let mut write = MessageWriteMutSlice::new(alloc, out);
    let result = write_check(request, own.fragment, peer, software, &mut write);
    let written = write.finish();
    result?;
    Ok(written)
}

/// Writes a response at the start of a slice.
pub(crate) fn write_response(
    alloc: Global,
    id: TransactionId,
    response: &CheckResponse<'_>,
    signature: Option<Signature<'_>>,
    out: &mut [u8],
) -> Result<usize, StunWriteError>
    requires { signature_refusal (option_map signing_of signature) ≡ None }
    ensures result { result ≡ replied_in (response_length id (response_of response.now)
        (option_map signing_of signature.entry)) (length out.old) }
    ensures out { let signing = option_map signing_of signature.entry in
        out.new ≡ reply_placed_in (response_length id (response_of response.now) signing)
        (response_text id (response_of response.now) signing) out.old }
{
    let expected = unsigned_length(response, id) + signature_length(signature);
    if expected > GREATEST {
        return Err(StunWriteError::TooLarge {
            expected: GREATEST,
            actual: expected,
        });
    }
    if out.len() < expected {
        return Err(too_small(expected, out));
    }
    let mut write = MessageWriteMutSlice::new(alloc, out);
    let result = response.write_into(id, signature, &mut write);
    let written = write.finish();
    result?;
    Ok(written)
}
