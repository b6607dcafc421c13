//! Nonces that a server makes and recognizes without keeping any (RFC 8489, sections 9.2 and 9.2.4).

ghost use Rattle.std.specs.Prelude.{◌≡◌, ◌++◌, ◌<◌, ◌≤◌, ◌^◌, IfOk, IfErr, length, map};
ghost use Rattle.std.specs.List.{concat};
ghost use Rattle.stun_attributes.specs.Texts.{text_bytes};
ghost use Rattle.stun_keys.specs.Keys.{key_bytes};
ghost use Rattle.stun_values.specs.Addresses.{address_value};
ghost use Rattle.stun_authentication.specs.Nonces.{minted, minted_mac, first_bits, minting, stated_time, minting_of, freshness, aged, known_as, state_of};

use crate::base64::{read_bits, write_bits};
use crate::{NonceState, Nonces, SecurityFeatures, nonce_cookie};
use byteorder::{BigEndian, ByteOrder};
use std::alloc::Global;
use std::net::SocketAddr;
use stun_attributes::same_bytes;
use stun_types::attribute::{Nonce, PasswordAlgorithmValue};
use stun_types::message::{IntegrityKey, StunWriteError};
use stun_values::{address_length, write_address};
use thiserror::Error;

/// The least length of the secret of a [`NonceMaker`], in bytes.
pub const SECRET_MIN: usize = 16;

/// How many bytes a nonce of a [`NonceMaker`] has.
const LENGTH: usize = 35;

/// How many times a nonce can state, in seconds.
const TIMES: u64 = 1 << 36;

/// Makes nonces that the server doesn't store, and recognizes them: a nonce contains the time at
/// which it was made, and 96 bits of an HMAC-SHA256, under the server's secret, of its nonce cookie,
/// that time, and the client's address and port.
///
/// A nonce is 35 characters: the cookie, 13; the last 36 bits of the time in seconds, 6 characters
/// of base64; and the first 96 bits of the HMAC, 16 characters of base64 (RFC 4648, section 4,
/// without padding). A nonce is short so that a 401 is, which anybody can have sent to a forged
/// address. 96 bits are enough: whoever doesn't know the secret has one guess with each request,
/// and a nonce alone permits nothing, since an accepted request is signed with its user's key too.
///
/// It is valid for its client alone, until its window is over, and for any number of requests. A
/// server that changes its secret keeps the maker of the old one for as long as a window, and asks
/// both. 36 bits count 2,177 years of seconds: times so far apart are the same in a nonce.
///
/// # Examples
///
/// ```
/// use rand::rngs::StdRng;
/// use rand::{Rng, make_rng};
/// use std::net::SocketAddr;
/// use stun_authentication::{Freshness, NonceMaker, SecurityFeatures};
/// use stun_types::message::IntegrityKey;
///
/// let mut secret = [0; 32];
/// let mut rng: StdRng = make_rng(&rt)?;
/// rng.fill_bytes(&mut secret);
/// let secret = IntegrityKey::new(alloc, &secret, None)?;
/// let maker = NonceMaker::new(secret, SecurityFeatures::default(), 600)?;
/// let client: SocketAddr = "192.0.2.1:32853".parse()?;
/// let nonce = maker.make(alloc, 1000, &client)?;
/// let bytes = nonce.nonce().as_bytes();
/// // Valid for ten minutes, and for this client.
/// assert_eq!(rt; maker.freshness(1500, &client, bytes), Freshness::Fresh);
/// assert_eq!(rt; maker.freshness(1700, &client, bytes), Freshness::Stale);
/// let other: SocketAddr = "192.0.2.2:32853".parse()?;
/// assert_eq!(rt; maker.freshness(1500, &other, bytes), Freshness::Unknown);
/// ```
#[derive(Debug, Drop)]
pub struct NonceMaker {
    secret: IntegrityKey,
    features: SecurityFeatures,
    window: u64,
}

/// Why a secret makes no nonces.
#[derive(Clone, Copy, Debug, PartialEq, Eq, Error)]
pub enum SecretError {
    /// The secret has fewer than 16 bytes, so that somebody could guess it and make the server's
    /// nonces.
    #[error("the secret has fewer than 16 bytes")]
    TooShort,
}

/// What a server knows of a nonce that it may have made.
#[derive(Clone, Copy, Debug, PartialEq, Eq)]
pub enum Freshness {
    /// The nonce is valid.
    Fresh,
    /// The server made the nonce for this client, and its window is over or its time is still to
    /// come.
    Stale,
    /// The server didn't make the nonce, or made it for another client, under another secret, or
    /// with other features.
    Unknown,
}

/// The nonces of a [`NonceMaker`] at a time, for one client, as
/// [`authenticate_long_term`](crate::authenticate_long_term) asks for them.
#[derive(Clone, Copy, Debug)]
pub struct NoncesOf<'a> {
    maker: &'a NonceMaker,
    now: u64,
    client: SocketAddr,
    algorithms: &'a [PasswordAlgorithmValue],
}

/// The last 36 bits of the time in a nonce, if it is one of a `NonceMaker`; else some number.
fn stated_time(nonce: &[u8]) -> u64
    requires { length nonce.now ≡ 35 }
    ensures value { result ≡ stated_time nonce.now }
    ensures bound { result < 2 ^ 36 }
{
    read_bits(&nonce[13..19])
}

/// The first 96 bits of an HMAC.
fn first_bits(mac: &[u8; 32]) -> u128
    ensures { result ≡ first_bits mac.now }
{
    BigEndian::read_uint128(mac, 12)
}

/// What the HMAC of a nonce covers, in pieces.
fn covered<'a>(beginning: &'a [u8], place: &'a [u8]) -> [&'a [u8]; 2]
    ensures { concat (map (λ piece. piece.now) result) ≡ beginning.now ++ place.now }
{
    [beginning, place]
}

impl NonceMaker {
    ghost use Rattle.std.specs.Prelude.{◌≡◌, ◌≤◌, ◌<◌, ◌^◌, ◌++◌, IfOk, IfErr, MatchResult, length};
    ghost use Rattle.stun_attributes.specs.Texts.{text_bytes};
    ghost use Rattle.stun_grammar.specs.declared.integrity_algorithm.IntegrityAlgorithm.TheVariants.{Sha256};
    ghost use Rattle.stun_grammar.specs.Hmac.{hmac};
    ghost use Rattle.stun_keys.specs.Keys.{key_bytes};
    ghost use Rattle.stun_values.specs.Addresses.{address_value};
    ghost use Rattle.stun_authentication.specs.Nonces.{secret_min, minted, minting, minting_of, freshness, aged, state_of, known_as};

    /// Returns a maker with this secret: at least 32 random bytes that nobody else knows
    /// ([`IntegrityKey::new`]). `features` are what its nonces say of the server, and `window` is
    /// for how many seconds a nonce is valid: from 2^36 - 1 on, for ever.
    ///
    /// # Errors
    ///
    /// `TooShort` if the secret has fewer than 16 bytes ([`SECRET_MIN`]).
    pub fn new(
        secret: IntegrityKey,
        features: SecurityFeatures,
        window: u64,
    ) -> Result<Self, SecretError>
        ensures { MatchResult result
            (λ maker. (secret_min ≤ length (key_bytes secret))
            × (minting_of maker ≡ minting (key_bytes secret) features window))
            (λ e. (length (key_bytes secret) < secret_min) × (e ≡ SecretError.TooShort)) }
    {
        if secret.as_bytes().len() < SECRET_MIN {
            return Err(SecretError::TooShort);
        }
        Ok(NonceMaker {
            secret,
            features,
            window,
        })
    }

    /// Returns what the nonces say of the server.
    pub fn features(&self) -> SecurityFeatures
        ensures { result ≡ (minting_of self.now).features }
    {
        self.features
    }

    /// The HMAC of a nonce that begins so.
    fn mac(&self, beginning: &[u8], client: &SocketAddr) -> [u8; 32]
        ensures { result ≡ hmac Sha256 (key_bytes self.now.secret)
            (beginning.now ++ address_value client.now) }
    {
        let length = address_length(client) as usize;
        let mut place = [0u8; 20];
        write_address(client, &mut place);
        self.secret
            .hmac_sha256(&covered(beginning, &place[..length]))
    }

    /// The text of a nonce.
    fn text(&self, time: u64, client: &SocketAddr) -> [u8; LENGTH]
        ensures { result ≡ minted (minting_of self.now) time (address_value client.now) }
    {
        let mut text = [0u8; LENGTH];
        let (beginning, rest) = text.split_at_mut(19);
        let (cookie, seconds) = beginning.split_at_mut(13);
        cookie.copy_from_slice(nonce_cookie(self.features).as_bytes());
        write_bits(u128::from(time), seconds);
        let mac = self.mac(beginning, client);
        write_bits(first_bits(&mac), rest);
        text
    }

    /// Makes the nonce for a client at a time, `now`, in seconds since any moment that stays the
    /// same. `client` is the address and port that the request came from: two clients get different
    /// nonces (RFC 8489, section 9.2.4). It is copied into memory from `alloc`.
    ///
    /// # Errors
    ///
    /// `OutOfMemory` alone.
    pub fn make(
        &self,
        alloc: Global,
        now: u64,
        client: &SocketAddr,
    ) -> Result<Nonce, StunWriteError>
        ensures nonce { IfOk result (λ nonce. text_bytes nonce
            ≡ minted (minting_of self.now) now (address_value client.now)) }
        ensures err { IfErr result (λ e. e ≡ StunWriteError.OutOfMemory) }
    {
        let text = self.text(now, client);
        match str::from_utf8(&text) {
            Ok(text) => Nonce::new(alloc, text),
            Err(_) => unreachable!(),
        }
    }

    /// Returns whether a nonce that came from a client is valid at a time, `now`. It computes at
    /// most one HMAC, none if the nonce hasn't 35 bytes, and allocates nothing; every byte is
    /// compared, even after a difference; constant time is not claimed.
    pub fn freshness(&self, now: u64, client: &SocketAddr, nonce: &[u8]) -> Freshness
        ensures { result
            ≡ freshness (minting_of self.now) now (address_value client.now) nonce.now }
    {
        if nonce.len() != LENGTH {
            return Freshness::Unknown;
        }
        let time = stated_time(nonce);
        let made = self.text(time, client);
        if same_bytes(nonce, &made) {
            self.aged(now, time)
        } else {
            Freshness::Unknown
        }
    }

    /// What is known of a nonce by the 36 bits of the time at which it was made.
    fn aged(&self, now: u64, time: u64) -> Freshness
        requires { time < 2 ^ 36 }
        ensures { result ≡ aged (minting_of self.now) now time }
    {
        if now.wrapping_sub(time) % TIMES <= self.window {
            Freshness::Fresh
        } else {
            Freshness::Stale
        }
    }

    /// Returns the nonces at a time, `now`, for one client, to authenticate its requests. With each
    /// nonce the server sends these algorithms; none, if it sends no list.
    ///
    /// # Examples
    ///
    /// ```
    /// use rand::rngs::StdRng;
    /// use rand::{Rng, make_rng};
    /// use std::net::SocketAddr;
    /// use stun_authentication::{NonceState, NonceMaker, Nonces, SecurityFeatures};
    /// use stun_types::attribute::PasswordAlgorithmValue;
    /// use stun_types::message::IntegrityKey;
    ///
    /// let mut secret = [0; 32];
    /// let mut rng: StdRng = make_rng(&rt)?;
    /// rng.fill_bytes(&mut secret);
    /// let secret = IntegrityKey::new(alloc, &secret, None)?;
    /// let features = SecurityFeatures { password_algorithms: true, username_anonymity: false };
    /// let maker = NonceMaker::new(secret, features, 600)?;
    /// let client: SocketAddr = "192.0.2.1:32853".parse()?;
    /// let nonce = maker.make(alloc, 1000, &client)?;
    /// let both = [PasswordAlgorithmValue::MD5, PasswordAlgorithmValue::SHA256];
    /// let nonces = maker.nonces(1500, client, &both);
    /// let known = nonces.nonce(nonce.nonce().as_bytes());
    /// assert!(rt; matches!(known, NonceState::Valid(algorithms) if algorithms.len() == 2));
    /// ```
    pub fn nonces<'a>(
        &'a self,
        now: u64,
        client: SocketAddr,
        algorithms: &'a [PasswordAlgorithmValue],
    ) -> NoncesOf<'a>
        ensures { state_of result ≡ (λ nonce. known_as algorithms.now
            (freshness (minting_of self.now) now (address_value client) nonce)) }
    {
        NoncesOf {
            maker: self,
            now,
            client,
            algorithms,
        }
    }
}

impl Nonces for NoncesOf<'_> {
    ghost use Rattle.stun_authentication.specs.Nonces.{state_of};

    ghost state_of = { state_of };

    fn nonce(&self, nonce: &[u8]) -> NonceState<'_> {
        match self.maker.freshness(self.now, &self.client, nonce) {
            Freshness::Fresh => NonceState::Valid(self.algorithms),
            Freshness::Stale => NonceState::Stale,
            Freshness::Unknown => NonceState::Unknown,
        }
    }
}
