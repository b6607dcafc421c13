//! The credentials of a session.

ghost use Rattle.std.specs.Prelude.{◌≡◌};
ghost use Rattle.std.specs.Option.{option_map};
ghost use Rattle.ice_checks.specs.Sessions.{after};

use ice_attrs::Ufrag;
use std::alloc::{AllocError, Global};
use stun_authentication::ShortTermKeys;
use stun_keys::keys::copy_key;
use stun_types::message::IntegrityKey;

/// The credentials of an agent (RFC 8445, section 5.3). They stay the same until ICE restarts.
#[derive(Clone, Copy, Debug)]
pub struct Credentials<'a> {
    /// The username fragment.
    pub fragment: Ufrag<'a>,
    /// The key of the password: `IntegrityKey::new` with the bytes of the password, and without an
    /// algorithm.
    pub key: &'a IntegrityKey,
}

/// The credentials of both agents of a session.
///
/// As the look-up of [`authenticate_short_term`](stun_authentication::authenticate_short_term), it returns a
/// copy of this agent's key for the USERNAME of a check of the peer.
///
/// # Examples
///
/// ```
/// use ice_attrs::Ufrag;
/// use ice_checks::{Credentials, Session};
/// use stun_authentication::ShortTermKeys;
/// use stun_types::message::IntegrityKey;
///
/// let (own, peer) = (Ufrag::new("evtj").ok_or("no fragment")?, Ufrag::new("h6vY").ok_or("no fragment")?);
/// let own_key = IntegrityKey::new(alloc, b"VOkJxbRl1RmTxUk/WvJxBt", None)?;
/// let peer_key = IntegrityKey::new(alloc, b"KPKLPQPlb6g8DVIXiyRPqZ", None)?;
/// let mut session = Session { own: Credentials { fragment: own, key: &own_key }, peer: None };
/// // While the peer's credentials are unknown, the second part of a USERNAME may be any.
/// assert!(rt; session.is_named(b"evtj:h6vY") && session.is_named(b"evtj:aaaa"));
/// session.peer = Some(Credentials { fragment: peer, key: &peer_key });
/// assert!(rt; session.is_named(b"evtj:h6vY") && !session.is_named(b"evtj:aaaa"));
/// assert!(rt; session.key(alloc, b"evtj:h6vY")?.is_some_and(|key| key == own_key));
/// ```
#[derive(Clone, Copy, Debug)]
pub struct Session<'a> {
    /// The credentials of this agent: the peer signs its checks with this key.
    pub own: Credentials<'a>,
    /// The credentials of the peer, once they are known: this agent signs its checks with this key.
    pub peer: Option<Credentials<'a>>,
}

/// What follows the beginning of a text, if it begins so.
fn after<'t>(beginning: &[u8], text: &'t [u8]) -> Option<&'t [u8]>
    ensures { option_map (λ rest. rest.now) result ≡ after beginning.now text.now }
{
    text.strip_prefix(beginning)
}

impl Session<'_> {
    ghost use Rattle.std.specs.Prelude.{◌≡◌};
    ghost use Rattle.ice_checks.specs.Sessions.{is_named};
    ghost use Rattle.ice_checks.specs.Views.{logins_of};

    /// Returns `true` if a USERNAME is that of a check of the peer (RFC 8445, section 7.2.2): the fragment of
    /// this agent, a colon, and that of the peer; while the peer's is unknown, anything may follow the colon.
    pub fn is_named(&self, username: &[u8]) -> bool
        ensures { result ≡ is_named (logins_of self.now) username.now }
    {
        let Some(rest) = after(self.own.fragment.text().as_bytes(), username) else {
            return false;
        };
        let Some(sender) = after(b":", rest) else {
            return false;
        };
        match &self.peer {
            Some(peer) => sender == peer.fragment.text().as_bytes(),
            None => true,
        }
    }
}

impl ShortTermKeys for Session<'_> {
    ghost use Rattle.ice_checks.specs.Sessions.{key_of};
    ghost use Rattle.ice_checks.specs.Views.{logins_of};

    ghost key_of = { λ session. key_of (logins_of session) };

    fn key(&self, alloc: Global, username: &[u8]) -> Result<Option<IntegrityKey>, AllocError> {
        if !self.is_named(username) {
            return Ok(None);
        }
        Ok(Some(copy_key(alloc, self.own.key)?))
    }
}
