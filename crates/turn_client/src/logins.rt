//! The credentials that requests are signed by.

ghost use Rattle.std.specs.Prelude.{◌≡◌, map, find, option_copied};
ghost use Rattle.std.specs.List.{list_any, range_with_len};
ghost use Rattle.std.specs.Option.{option_map};
ghost use Rattle.stun_authentication.specs.Requests.{user_of};
ghost use Rattle.turn_client.specs.Clients as clients;
ghost use Rattle.turn_client.specs.Receiving as receiving;
ghost use Rattle.turn_client.specs.Clients.{credentials_by, kept_of};
ghost use Rattle.turn_requests.specs.Requests.{credentials_in, credentials_of};

use crate::account::Account;
use stun_authentication::Retry;
use stun_types::message::IntegrityKey;
use turn_requests::Login;

/// What the server asked for, and the key for it.
#[derive(Debug, Drop)]
pub(crate) struct KeptLogin {
    /// The number of the challenge.
    pub number: u64,
    pub retry: Retry<'static>,
    pub key: IntegrityKey,
}

/// The login of an account by credentials that are kept.
fn login_by<'a>(account: &'a Account, kept: &'a KeptLogin) -> Login<'a>
    ensures { credentials_of result
        ≡ credentials_by (user_of account.now.credentials) (kept_of kept.now) }
{
    Login {
        retry: &kept.retry,
        name: account.credentials.username(),
        key: &kept.key,
    }
}

/// Whether credentials have a number.
fn is_of(login: &KeptLogin, number: u64) -> bool
    ensures { result ≡ clients.has_number number (kept_of login.now) }
{
    number == login.number
}

/// Whether the challenge had a list of password algorithms.
fn has_list(login: &KeptLogin) -> bool
    ensures { result ≡ receiving.has_list (kept_of login.now) }
{
    login.retry.challenge.password_algorithms().is_some()
}

/// The credentials with a number.
fn find_login(logins: &[KeptLogin], number: u64) -> Option<&KeptLogin>
    ensures { option_copied result
        ≡ find (λ login. clients.has_number number (kept_of login)) logins.now }
{
    logins.iter().find(|login| is_of(login, number))
}

/// The login by the credentials with a number.
pub(crate) fn login_with<'a>(
    account: &'a Account,
    logins: &'a [KeptLogin],
    number: u64,
) -> Option<Login<'a>>
    ensures { credentials_in result ≡ option_map (credentials_by (user_of account.now.credentials))
        (find (clients.has_number number) (map kept_of logins.now)) }
{
    match find_login(logins, number) {
        Some(kept) => Some(login_by(account, kept)),
        None => None,
    }
}

fn any_has_list(logins: &[KeptLogin]) -> bool
    ensures { result ≡ list_any (λ login. receiving.has_list (kept_of login)) logins.now }
{
    logins.iter().any(|login| has_list(login))
}

/// Whether a challenge had a list of password algorithms.
pub(crate) fn had_algorithms(logins: &[KeptLogin]) -> bool
    ensures { result ≡ receiving.had_algorithms (map kept_of logins.now) }
{
    any_has_list(logins)
}

fn any_is_of(logins: &[KeptLogin], number: u64) -> bool
    ensures { result ≡ list_any (λ login. clients.has_number number (kept_of login)) logins.now }
{
    logins.iter().any(|login| is_of(login, number))
}

/// Whether credentials have a number.
fn is_free(logins: &[KeptLogin], number: u64) -> bool
    ensures { result ≡ receiving.is_free (map kept_of logins.now) number }
{
    !any_is_of(logins, number)
}

/// The first number below a bound that no credentials have.
fn first_free(logins: &[KeptLogin], end: u64) -> Option<u64>
    ensures { result ≡ find (receiving.is_free (map kept_of logins.now)) (range_with_len 0 end) }
{
    (0..end).find(|number| is_free(logins, *number))
}

/// A number that no credentials have.
pub(crate) fn free_number(logins: &[KeptLogin]) -> u64
    ensures { result ≡ receiving.free_number (map kept_of logins.now) }
{
    let count = logins.len() as u64;
    match first_free(logins, count) {
        Some(number) => number,
        None => count,
    }
}
