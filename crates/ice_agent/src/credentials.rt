//! The credentials that an agent keeps.

ghost use Rattle.std.specs.Prelude.{None};
ghost use Rattle.stun_keys.specs.Keys.{key_algorithm};
ghost use Rattle.ice_checks.specs.Views.{login_of};

use ice_attrs::{Ufrag, is_password};
use ice_checks::Credentials;
use std::alloc::Global;
use std::marker::Model;
use stun_types::message::{IntegrityKey, StunWriteError};

/// The username fragment of an agent, and the key of its password (RFC 8445, section 5.3).
///
/// # Examples
///
/// ```
/// use ice_agent::AgentCredentials;
/// use ice_attrs::Ufrag;
///
/// let fragment = Ufrag::new("evtj").ok_or("no fragment")?;
/// assert!(rt; AgentCredentials::new(alloc, fragment, "VOkJxbRl1RmTxUk/WvJxBt")?.is_some());
/// // A password has 22 characters at least.
/// assert!(rt; AgentCredentials::new(alloc, fragment, "secret")?.is_none());
/// ```
#[derive(Drop)]
pub struct AgentCredentials {
    fragment: String,
    key: IntegrityKey,
}

impl Model for AgentCredentials {
    ghost use Rattle.std.specs.Prelude.{◌≡◌, IsTrue, None};
    ghost use Rattle.std.specs.String.{string_bytes};
    ghost use Rattle.stun_keys.specs.Keys.{key_algorithm};
    ghost use Rattle.ice_attrs.specs.Credentials.{is_ufrag};
    ghost use Rattle.ice_checks.specs.Views.{Login};

    ghost Value = { Login };

    ghost view = { λ c. record { fragment = string_bytes c.fragment; key = c.key } };

    ghost invariant = { λ c. record {
      sound : IsTrue (is_ufrag (string_bytes c.fragment));
      both : key_algorithm c.key ≡ None;
    } };
}

impl AgentCredentials {
    ghost use Rattle.std.specs.Prelude.{◌≡◌, ◌≤◌, IfOk, IfErr, MatchOption, IsTrue, false, length};
    ghost use Rattle.ice_attrs.specs.Credentials.{is_password};
    ghost use Rattle.ice_attrs.specs.CheckUsernames.{ufrag_text};
    ghost use Rattle.ice_agent.specs.Agents.{IsLogin};

    /// Copies a fragment, and makes the key of a password, in memory from `alloc`. Returns `None` if the text is no
    /// password ([`is_password`]).
    ///
    /// # Errors
    ///
    /// Only `OutOfMemory`, if an allocation failed.
    pub fn new(
        alloc: Global,
        fragment: Ufrag<'_>,
        password: &str,
    ) -> Result<Option<Self>, StunWriteError>
        ensures made { IfOk result (λ made. MatchOption made (is_password password.now ≡ false)
            (λ login. IsTrue (is_password password.now)
            × IsLogin (ufrag_text fragment.entry) password.now login)) }
        ensures err { IfErr result (λ e. e ≡ StunWriteError.OutOfMemory) }
    {
        if !is_password(password) {
            return Ok(None);
        }
        let key = IntegrityKey::new(alloc, password.as_bytes(), None)?;
        let fragment = String::from_str(alloc, fragment.text())?;
        Ok(Some(AgentCredentials { fragment, key }))
    }

    /// The credentials, borrowed.
    pub(crate) fn lend(&self) -> Credentials<'_>
        ensures login { login_of result ≡ self.now }
        ensures both { key_algorithm result.key.now ≡ None }
        ensures short { length (ufrag_text result.fragment) ≤ 256 }
    {
        match Ufrag::new(self.fragment.as_str()) {
            Some(fragment) => Credentials {
                fragment,
                key: &self.key,
            },
            None => unreachable!(),
        }
    }
}
