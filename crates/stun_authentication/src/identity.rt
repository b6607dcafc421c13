//! Who a request says that it comes from.

ghost use Rattle.std.specs.Prelude.{◌≡◌};
ghost use Rattle.std.specs.Option.{option_map};
ghost use Rattle.stun_types.specs.Message.{message_bytes};
ghost use Rattle.stun_authentication.specs.Identities.{identity_of, who};

use crate::attributes::value_of;
use stun_types::attribute::{AttributeStaticType, Userhash, Username};
use stun_types::message::Message;

/// The user that a request names: the value of its USERNAME or of its USERHASH, borrowed from the
/// bytes of the request. Copy these to keep it for longer.
///
/// # Examples
///
/// ```
/// use stun_authentication::Identity;
///
/// let user = Identity::Name(b"alice");
/// let kept = match user {
///     Identity::Name(name) => name.to_vec(alloc)?,
///     Identity::Hash(hash) => hash.to_vec(alloc)?,
/// };
/// assert_eq!(rt; kept.as_slice(), b"alice".as_slice());
/// ```
#[derive(Clone, Copy, Debug)]
pub enum Identity<'a> {
    /// The value of a USERNAME: UTF-8, unless the client is broken.
    Name(&'a [u8]),
    /// The value of a USERHASH: the 32 bytes of the SHA-256 of `username:realm`, unless the client
    /// is broken (RFC 8489, section 14.4). `Userhash::compute` makes that of a user.
    Hash(&'a [u8]),
}

/// Who a message says that it comes from: `None` if it shows neither USERNAME nor USERHASH, or
/// both.
pub(crate) fn identity_of<'a>(message: &Message<'a>) -> Option<Identity<'a>>
    ensures { identity_of (message_bytes message.now) ≡ option_map who result }
{
    let name = value_of(message, Username::TYPE);
    let hash = value_of(message, Userhash::TYPE);
    match (name, hash) {
        (Some(name), None) => Some(Identity::Name(name)),
        (None, Some(hash)) => Some(Identity::Hash(hash)),
        _ => None,
    }
}
