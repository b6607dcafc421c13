//! What comes from the server.

ghost use Rattle.std.specs.Prelude.{true, ◌≡◌, ◌&&◌, ◌++◌, ◌∷◌, [], map, filter, MatchResult, IfOk, OnOk, IfErr, Err};
ghost use Rattle.std.specs.Option.{option_map};
ghost use Rattle.stun_authentication.specs.Challenges.{retry_of};
ghost use Rattle.stun_authentication.specs.Requests.{user_key, user_of};
ghost use Rattle.stun_endpoints.specs.declared.endpoints.Endpoint.{Endpoint};
ghost use Rattle.stun_keys.specs.Keys.{IsKey};
ghost use Rattle.turn_client_machine.specs.Clients.{is_allocated, is_endpoint};
ghost use Rattle.turn_client_machine.specs.Events.{gives, gives_on, responds, strays};
ghost use Rattle.turn_client_machine.specs.Steps.{at};
ghost use Rattle.turn_client_messages.specs.Judging.{judge};
ghost use Rattle.turn_client_messages.specs.PeerErrors.{peer_error, reservation_token};
ghost use Rattle.turn_client_messages.specs.Reporting.{judged_of};
ghost use Rattle.turn_client_messages.specs.Views.{asked_of};
ghost use Rattle.turn_client_state.specs.Challenges.{has_challenge};
ghost use Rattle.turn_client_state.specs.States.{output_at};
ghost use Rattle.turn_client.specs.Clients.{kept_of, passes};
ghost use Rattle.turn_client.specs.Receiving as receiving;
ghost use Rattle.turn_client.specs.Receiving.{asked_by, dealing, event_at, Receives, TakesChallenge, data_with, heard_error, news_at, news_with, shown_with, token_then};

use crate::account::Account;
use crate::client::{TurnClient, transport};
use crate::logins::{KeptLogin, free_number, had_algorithms};
use std::alloc::{AllocError, Global};
use stun_authentication::{Retry, key_for};
use stun_endpoints::Endpoint;
use stun_types::attribute::PasswordAlgorithmValue;
use stun_types::message::StunWriteError;
use turn_client_machine::{Answer, Phase, Request};
use turn_client_messages::{
    ClientRequest, Judged, PeerError, Session, judge, peer_error, reservation_token, response_id,
};
use turn_client_state::ClientState;

/// The password algorithms of a client, the one that it prefers first.
static ALGORITHMS: [PasswordAlgorithmValue; 2] = [
    PasswordAlgorithmValue::SHA256,
    PasswordAlgorithmValue::MD5,
];

/// The data of a peer, a part of the datagram that it came in.
#[derive(Clone, Copy, Debug, PartialEq, Eq)]
pub struct PeerData<'d> {
    /// The peer.
    pub peer: Endpoint,
    /// The data.
    pub data: &'d [u8],
}

/// What a datagram brings to the user.
#[derive(Clone, Copy, Debug, PartialEq, Eq)]
pub enum Received<'d> {
    /// Data of a peer.
    Data(PeerData<'d>),
    /// The server has received an ICMP error about a packet to a peer (RFC 8656, section 11.6). Whoever can
    /// send from the server's address can make one: it isn't signed.
    Failed(PeerError),
    /// The allocation has come, and the server has reserved the next-higher port, for 30 seconds or longer.
    /// By this token another client asks for it ([`RelayedPort::Reserved`](crate::RelayedPort)).
    Reservation(u64),
}

/// Credentials for a challenge, by a number.
fn login_of(
    alloc: Global,
    account: &Account,
    number: u64,
    retry: Retry<'_>,
) -> Result<KeptLogin, StunWriteError>
    ensures kept { IfOk result (λ login. kept_of login ≡ record {
      number = number;
      retry = retry_of retry.entry;
      key = login.key;
    }) }
    ensures err { IfErr result (λ e. e ≡ StunWriteError.OutOfMemory) }
    ensures key { IfOk result (λ login. IsKey None (user_key (retry_of retry.entry)
        (user_of account.now.credentials)) login.key) }
{
    let retry = retry.into_owned(alloc)?;
    let credentials = &account.credentials;
    let key = key_for(
        alloc,
        &retry,
        credentials.username(),
        credentials.password(),
    )?;
    Ok(KeptLogin { number, retry, key })
}

/// Keeps credentials.
fn keep(logins: &mut Vec<KeptLogin>, login: KeptLogin) -> Result<(), StunWriteError>
    ensures kept { OnOk result (logins.new.items ≡ logins.old.items ++ (login ∷ [])) }
    ensures same { IfErr result (λ _. logins.new.items ≡ logins.old.items) }
    ensures err { IfErr result (λ e. e ≡ StunWriteError.OutOfMemory) }
{
    logins.reserve_exact(1)?;
    logins.push(login).map_err(AllocError::from)?;
    Ok(())
}

/// Drops the credentials for challenges that nothing answers any more.
fn drop_unused(logins: &mut Vec<KeptLogin>, state: &ClientState)
    ensures { logins.new.items
        ≡ filter (λ login. has_challenge login.number state.now.state) logins.old.items }
{
    logins.retain(|login| state.has_challenge(login.number));
}

impl TurnClient {
    /// A request with the credentials that sign it.
    pub(crate) fn signed(&self, request: Request) -> ClientRequest<'_>
        ensures { asked_of result ≡ asked_by self.now request }
    {
        let login = match request.challenge {
            Some(number) => self.login(number),
            None => None,
        };
        ClientRequest { request, login }
    }

    /// The request that a datagram would answer.
    fn awaited(&self, datagram: &[u8]) -> Option<ClientRequest<'_>>
        ensures { option_map asked_of result ≡ receiving.awaited self.now datagram.now }
    {
        let id = response_id(datagram)?;
        let request = self.state.pending(id)?;
        Some(self.signed(request))
    }

    /// What a datagram is to a client that supports these algorithms.
    fn judged_by<'d>(&self, algorithms: &[PasswordAlgorithmValue], datagram: &'d [u8]) -> Judged<'d>
        ensures { judged_of result ≡ judge (record (dealing self.now) { algorithms = algorithms.now })
            (receiving.awaited self.now datagram.now) datagram.now }
    {
        let session = Session {
            server: self.settings.server,
            transport: transport(&self.settings),
            algorithms,
            had_algorithms: had_algorithms(&self.logins),
        };
        judge(&session, self.awaited(datagram), datagram)
    }

    /// What a datagram is.
    fn judged<'d>(&self, datagram: &'d [u8]) -> Judged<'d>
        ensures { judged_of result ≡ receiving.judged self.now datagram.now }
    {
        match self.account.only_algorithm {
            Some(algorithm) => self.judged_by(&[algorithm], datagram),
            None => self.judged_by(&ALGORITHMS, datagram),
        }
    }

    /// Takes a challenge of the server.
    fn take_challenge(
        &mut self,
        alloc: Global,
        now: u64,
        from: Endpoint,
        id: u128,
        is_authentic: bool,
        code: u16,
        retry: Retry<'_>,
    ) -> Result<(), StunWriteError>
        ensures taken { OnOk result (TakesChallenge self.old now from id is_authentic code
            (retry_of retry.entry) self.new) }
        ensures same { IfErr result (λ _. self.new ≡ self.old) }
        ensures err { IfErr result (λ e. e ≡ StunWriteError.OutOfMemory) }
    {
        let challenge = free_number(&self.logins);
        let login = login_of(alloc, &self.account, challenge, retry)?;
        keep(&mut self.logins, login)?;
        let answer = Answer::Challenged { code, challenge };
        self.state.on_response(now, from, id, is_authentic, answer);
        drop_unused(&mut self.logins, &self.state);
        Ok(())
    }

    /// Whether an address is the server's.
    fn is_server(&self, from: Endpoint) -> bool
        ensures { result ≡ is_endpoint from self.now.held.settings.server }
    {
        from == self.settings.server
    }

    /// Time passes.
    fn pass(&mut self, now: u64)
        ensures { (from : Endpoint) → self.new ≡ passes now 0 (strays from) self.old }
    {
        self.state.on_other(now);
    }

    /// Takes a response.
    fn respond(&mut self, now: u64, from: Endpoint, id: u128, is_authentic: bool, answer: Answer)
        ensures { self.new ≡ passes now 0 (responds from id is_authentic answer) self.old }
    {
        self.state.on_response(now, from, id, is_authentic, answer);
    }

    /// Whether there is an allocation.
    fn is_allocated(&self) -> bool
        ensures { result ≡ is_allocated self.now.held.state.phase }
    {
        match self.state.status().phase {
            Phase::Allocated => true,
            Phase::Quiet | Phase::Asking | Phase::Closing(_) | Phase::Ended(_) => false,
        }
    }

    /// Takes a response, and returns the token of a reservation, if the response has brought the allocation
    /// and has one.
    fn take_response(
        &mut self,
        now: u64,
        from: Endpoint,
        id: u128,
        is_authentic: bool,
        answer: Answer,
        datagram: &[u8],
    ) -> Option<u64>
        ensures state { self.new ≡ passes now 0 (responds from id is_authentic answer) self.old }
        ensures token { result ≡ token_then self.old.held.state.phase self.new.held.state.phase
            datagram.now }
    {
        let was_allocated = self.is_allocated();
        self.respond(now, from, id, is_authentic, answer);
        if !was_allocated && self.is_allocated() {
            return reservation_token(datagram);
        }
        None
    }

    /// Takes what isn't data of a peer, and returns whether data of it would be shown.
    fn hears(&mut self, now: u64, from: Endpoint, peer: Endpoint) -> bool
        ensures state { (from : Endpoint) → self.new ≡ passes now 0 (strays from) self.old }
        ensures heard { result ≡ (is_endpoint from self.old.held.settings.server
            && receiving.hears (at now self.old.held.state) peer.ip) }
    {
        self.state.on_data_indication(now, from, peer)
    }

    /// Takes what is neither a response nor data, and returns the error that it reports of a peer that the
    /// server permits.
    fn take_other(&mut self, now: u64, from: Endpoint, datagram: &[u8]) -> Option<PeerError>
        requires server { is_endpoint from self.old.held.settings.server ≡ true }
        ensures state { (from : Endpoint) → self.new ≡ passes now 0 (strays from) self.old }
        ensures error { result ≡ heard_error (at now self.old.held.state) (peer_error datagram.now) }
    {
        let Some(error) = peer_error(datagram) else {
            self.pass(now);
            return None;
        };
        if self.hears(now, from, error.peer) {
            Some(error)
        } else {
            None
        }
    }

    /// Takes data of a peer.
    fn show<'d>(
        &mut self,
        now: u64,
        from: Endpoint,
        peer: Endpoint,
        data: &'d [u8],
    ) -> Option<PeerData<'d>>
        ensures state { self.new ≡ passes now 0 (gives from peer data.now) self.old }
        ensures data { output_at now 0 (gives from peer data.now) self.old.held ≡ data_with result }
    {
        if self.state.on_data_indication(now, from, peer) {
            Some(PeerData { peer, data })
        } else {
            None
        }
    }

    /// Takes data of a peer, on a channel.
    fn show_on<'d>(
        &mut self,
        now: u64,
        from: Endpoint,
        channel: u16,
        data: &'d [u8],
    ) -> Option<PeerData<'d>>
        ensures state { self.new ≡ passes now 0 (gives_on from channel data.now) self.old }
        ensures data { output_at now 0 (gives_on from channel data.now) self.old.held
            ≡ data_with result }
    {
        match self.state.on_channel_data(now, from, channel) {
            Some(peer) => Some(PeerData { peer, data }),
            None => None,
        }
    }

    /// Takes a datagram that has arrived from an address, and returns what it brings to the user, if
    /// anything. It came from the server then, and is one of these:
    ///
    /// - data of a peer, in a Data indication while the server permits the peer's IP address, or on a
    ///   channel of that very peer (RFC 8656, sections 11.4 and 12.6). The data is a part of the datagram;
    /// - an ICMP error about a packet to a peer, while the server permits its IP address (section 11.6);
    /// - the token of a reservation, with the response that brings the allocation (section 7.3).
    ///
    /// Over TCP and TLS the datagram is a message that was cut from the stream, as by
    /// `MessageStream::carrying` of `stun_framing`.
    ///
    /// # Errors
    ///
    /// `OutOfMemory` alone, for the credentials that a challenge asks for: the datagram is lost then,
    /// and nothing has changed.
    pub fn on_datagram<'d>(
        &mut self,
        alloc: Global,
        now: u64,
        from: Endpoint,
        datagram: &'d [u8],
    ) -> Result<Option<Received<'d>>, StunWriteError>
        ensures state { MatchResult result (λ _. Receives self.old now from datagram.now self.new)
            (λ _. self.new ≡ self.old) }
        ensures err { IfErr result (λ e. e ≡ StunWriteError.OutOfMemory) }
        ensures memory { IfErr result (λ _. receiving.is_challenge
            (receiving.judged self.old datagram.now) ≡ true) }
        ensures data { IfOk result (λ shown. output_at now 0 (event_at self.old from datagram.now)
            self.old.held ≡ shown_with shown) }
        ensures news { IfOk result (λ received. news_at self.old now from datagram.now
            self.new.held.state ≡ news_with received) }
    {
        if !self.is_server(from) {
            self.pass(now);
            return Ok(None);
        }
        match self.judged(datagram) {
            Judged::Response {
                id,
                is_authentic,
                answer,
            } => {
                match self.take_response(now, from, id, is_authentic, answer, datagram) {
                    Some(token) => Ok(Some(Received::Reservation(token))),
                    None => Ok(None),
                }
            }
            Judged::Challenge {
                id,
                is_authentic,
                code,
                retry,
            } => {
                self.take_challenge(alloc, now, from, id, is_authentic, code, retry)?;
                Ok(None)
            }
            Judged::PeerData { peer, data } => match self.show(now, from, peer, data) {
                Some(given) => Ok(Some(Received::Data(given))),
                None => Ok(None),
            },
            Judged::ChannelData { channel, data } => {
                match self.show_on(now, from, channel, data) {
                    Some(given) => Ok(Some(Received::Data(given))),
                    None => Ok(None),
                }
            }
            Judged::Stray => match self.take_other(now, from, datagram) {
                Some(error) => Ok(Some(Received::Failed(error))),
                None => Ok(None),
            },
        }
    }
}
