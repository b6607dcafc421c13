//! What to try after a client has ended.

ghost use Rattle.std.specs.Prelude.{◌≡◌, ◌∷◌};
ghost use Rattle.std.specs.List.{list_any};
ghost use Rattle.turn_client_machine.specs.Attempts.{begun_attempt, next_attempt, next_at, next_by, rest_after};
ghost use Rattle.turn_client_machine.specs.Clients.{is_endpoint};
ghost use Rattle.turn_client.specs.Attempts.{attempt_by};

use std::marker::Model;
use stun_endpoints::Endpoint;
use turn_client_machine::End;

/// A client at a server, and those before it: what to try after it has ended (RFC 8656, section 7.4; RFC
/// 8489, section 10).
///
/// From the first one on, at most eleven others follow: three 5-tuples at each of at most four servers,
/// none of which is asked twice.
///
/// ```
/// use std::net::SocketAddr;
/// use stun_endpoints::Endpoint;
/// use turn_client::Attempt;
/// use turn_client_machine::End;
///
/// let server = Endpoint::from("192.0.2.1:3478".parse::<SocketAddr>()?);
/// let other = Endpoint::from("192.0.2.2:3478".parse::<SocketAddr>()?);
/// let first = Attempt::new(server);
/// // After a 437 another 5-tuple is tried, twice.
/// let second = first.next(End::Rejected(437)).ok_or("none")?;
/// let third = second.next(End::Rejected(437)).ok_or("none")?;
/// assert_eq!(rt; third.server(), server);
/// assert!(rt; third.next(End::Rejected(437)).is_none());
/// // After a 300 the alternate server, if it wasn't asked before.
/// let moved = third.next(End::Moved(other)).ok_or("none")?;
/// assert_eq!(rt; moved.server(), other);
/// assert!(rt; moved.next(End::Moved(server)).is_none());
/// ```
#[derive(Debug, Drop)]
pub struct Attempt {
    server: Endpoint,
    tries: u8,
    /// How many servers were asked before, and which, the newest first; after these any.
    count: u8,
    before: [Endpoint; 3],
}

impl Model for Attempt {
    ghost use Rattle.std.specs.Prelude.{◌≤◌, take};
    ghost use Rattle.turn_client_machine.specs.Attempts.{Attempt as Attempted};

    ghost Value = { Attempted };

    ghost view = { λ a. record { server = a.server; tries = a.tries; before = take a.count a.before } };

    ghost invariant = { λ a. record {
      tries : a.tries ≤ 2;
      count : a.count ≤ 3;
    } };
}

/// How many seconds the user leaves a server alone after a client of it has ended: 120 after a 437, 60
/// after a 486 or 508 (RFC 8656, section 7.4), and otherwise 0.
pub fn rest_after(why: End) -> u32
    ensures { result ≡ rest_after why }
{
    match why {
        End::Rejected(437) => 120,
        End::Rejected(486) | End::Rejected(508) => 60,
        _ => 0,
    }
}

/// Whether a server is among others.
fn is_among(servers: &[Endpoint], server: Endpoint) -> bool
    ensures { result ≡ list_any (is_endpoint server) servers.now }
{
    servers.iter().any(|other| server == *other)
}

impl Attempt {
    /// Returns the first attempt, at a server.
    pub fn new(server: Endpoint) -> Self
        ensures { result ≡ begun_attempt server }
    {
        Attempt {
            server,
            tries: 0,
            count: 0,
            before: [server; 3],
        }
    }

    /// Returns an attempt that was kept by its parts, as [`Attempt::server`], [`Attempt::tries`] and
    /// [`Attempt::before`] return them; `None` if no attempt has these: there are more than two tries,
    /// or more than three servers.
    pub fn resume(server: Endpoint, tries: u8, before: &[Endpoint]) -> Option<Attempt>
        ensures { result ≡ attempt_by server tries before.now }
    {
        if tries > 2 || before.len() > 3 {
            return None;
        }
        let mut all = [server; 3];
        all[..before.len()].copy_from_slice(before);
        Some(Attempt {
            server,
            tries,
            count: before.len() as u8,
            before: all,
        })
    }

    /// Returns how many clients this server has already had.
    pub fn tries(&self) -> u8
        ensures { result ≡ self.now.tries }
    {
        self.tries
    }

    /// Borrows the servers that were asked before, the newest first.
    pub fn before(&self) -> &[Endpoint]
        ensures { result.now ≡ self.now.before }
    {
        &self.before[..self.count as usize]
    }

    /// Returns the server that is asked.
    pub fn server(&self) -> Endpoint
        ensures { result ≡ self.now.server }
    {
        self.server
    }

    /// The attempt after a 437: from another local address.
    fn again(&self) -> Option<Attempt>
        ensures { result ≡ next_at self.now 437 }
    {
        if self.tries < 2 {
            Some(Attempt {
                server: self.server,
                tries: self.tries + 1,
                count: self.count,
                before: self.before,
            })
        } else {
            None
        }
    }

    /// Whether a server was asked.
    fn has_asked(&self, server: Endpoint) -> bool
        ensures { result ≡ list_any (is_endpoint server) (self.now.server ∷ self.now.before) }
    {
        server == self.server || is_among(&self.before[..self.count as usize], server)
    }

    /// The attempt at an alternate server.
    fn at(&self, server: Endpoint) -> Option<Attempt>
        ensures { result ≡ next_by self.now server }
    {
        if self.has_asked(server) || self.count == 3 {
            return None;
        }
        let [newest, second, _] = self.before;
        Some(Attempt {
            server,
            tries: 0,
            count: self.count + 1,
            before: [self.server, newest, second],
        })
    }

    /// Returns the attempt that follows when a client has ended for this reason: from another local
    /// address at the same server after a 437, twice at most, and at the alternate server after a 300;
    /// `None` if there is none.
    pub fn next(&self, why: End) -> Option<Attempt>
        ensures { result ≡ next_attempt self.now why }
    {
        match why {
            End::Rejected(437) => self.again(),
            End::Moved(server) => self.at(server),
            _ => None,
        }
    }
}
