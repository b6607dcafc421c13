//! A server without credentials.

ghost use Rattle.std.specs.Prelude.{◌≡◌};
ghost use Rattle.stun_types_c.specs.Server.{RepliesTo, RepliesAt};

use crate::address::{Address, socket_of};
use crate::call_result::{CResult, plain, write_result};
use crate::codes;
use std::net::SocketAddr;
use stun_server::reply_into;

/// Writes the reply to a datagram that came from an address.
pub(crate) fn reply_to(
    bytes: &[u8],
    source: SocketAddr,
    room: &mut [u8],
    reply_length: &mut usize,
) -> CResult
    ensures { RepliesTo source bytes.now result room.old room.new reply_length.new }
{
    *reply_length = 0;
    match reply_into(source, bytes, room) {
        Ok(Some(length)) => {
            *reply_length = length;
            plain(codes::OK)
        }
        Ok(None) => plain(codes::OK),
        Err(error) => write_result(error),
    }
}

/// Writes the reply to a datagram, if one is owed.
#[unsafe(no_mangle)]
pub extern "C" fn stun_types_binding_reply(
    bytes: &[u8],
    source: &Address,
    room: &mut [u8],
    reply_length: &mut usize,
) -> CResult
    ensures { RepliesAt source.now bytes.now result room.old room.new reply_length.new }
{
    *reply_length = 0;
    match socket_of(source) {
        Some(source) => reply_to(bytes, source, room, reply_length),
        None => plain(codes::BAD_ARGUMENT),
    }
}
