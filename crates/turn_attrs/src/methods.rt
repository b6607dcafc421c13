//! The methods of TURN (RFC 8656, section 17, and RFC 6062, section 6.1).

use stun_types::message::Method;

/// Allocate: asks the server for an allocation (RFC 8656, section 7).
pub const ALLOCATE: Method = Method(3);
/// Refresh: keeps an allocation, or ends it (RFC 8656, section 8).
pub const REFRESH: Method = Method(4);
/// Send: passes data to a peer, in an indication (RFC 8656, section 11).
pub const SEND: Method = Method(6);
/// Data: passes on the data of a peer, in an indication (RFC 8656, section 11).
pub const DATA: Method = Method(7);
/// CreatePermission: lets peers send data to the client (RFC 8656, section 10).
pub const CREATE_PERMISSION: Method = Method(8);
/// ChannelBind: binds a channel to a peer (RFC 8656, section 12).
pub const CHANNEL_BIND: Method = Method(9);
/// Connect: asks the server to connect to a peer over TCP (RFC 6062, section 4.3).
pub const CONNECT: Method = Method(10);
/// ConnectionBind: binds a connection of the client to one of a peer (RFC 6062, section 4.3).
pub const CONNECTION_BIND: Method = Method(11);
/// ConnectionAttempt: reports that a peer has connected, in an indication (RFC 6062, section 4.4).
pub const CONNECTION_ATTEMPT: Method = Method(12);
