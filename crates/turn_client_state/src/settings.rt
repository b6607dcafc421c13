//! What the caller sets once.

ghost use Rattle.std.specs.Prelude.{◌≡◌, true, false};

use stun_endpoints::Endpoint;

/// The server, the limits and the times of a client. Times are in nanoseconds.
#[derive(Clone, Copy, Debug, PartialEq, Eq)]
pub struct Settings {
    /// The server's address.
    pub server: Endpoint,
    /// The address family of the relayed address: 1 for IPv4 and 2 for IPv6.
    pub family: u8,
    /// Whether the transport to the server is reliable, as TCP is.
    pub is_reliable: bool,
    /// The most peers. No client has more than 4096, the number of channel numbers. A dropped peer
    /// for which a channel was wanted counts for 900 seconds more.
    pub most_peers: u16,
    /// The most peers that one CreatePermission request names (RFC 8656, section 10.1), 16 at most; below
    /// 2 each request names one. A request that names several is sent once: if no response comes by
    /// the first wait, or if the server refuses it, each peer is asked for alone.
    pub most_named: u8,
    /// How often a request is sent at most (RFC 8489, section 6.2.1).
    pub most_sends: u8,
    /// How often the server may ask for other credentials before it accepts a request.
    pub most_retries: u8,
    /// The wait after the first sending of a request. It doubles with each further one, 32 times
    /// at most.
    pub rto: u64,
    /// The wait after the last sending of a request.
    pub last_wait: u64,
}

impl Settings {
    /// Returns settings for a server over UDP: 32 peers, 8 in one request, 3 challenges of a request, and the times of RFC
    /// 8489, section 6.2.1: 7 sendings, an RTO of 500 ms and a last wait of 8 s.
    pub fn over_udp(server: Endpoint, family: u8) -> Self
        ensures { result ≡ record {
          server = server;
          family = family;
          is_reliable = false;
          most_peers = 32;
          most_named = 8;
          most_sends = 7;
          most_retries = 3;
          rto = 500_000_000;
          last_wait = 8_000_000_000;
        } }
    {
        Settings {
            server,
            family,
            is_reliable: false,
            most_peers: 32,
            most_named: 8,
            most_sends: 7,
            most_retries: 3,
            rto: 500_000_000,
            last_wait: 8_000_000_000,
        }
    }

    /// Returns settings for a server over TCP or TLS: 32 peers, 8 in one request, 3 challenges of a request, and one
    /// sending, with a wait of 39.5 s (RFC 8489, section 6.2.2).
    pub fn over_tcp(server: Endpoint, family: u8) -> Self
        ensures { result ≡ record {
          server = server;
          family = family;
          is_reliable = true;
          most_peers = 32;
          most_named = 8;
          most_sends = 1;
          most_retries = 3;
          rto = 500_000_000;
          last_wait = 39_500_000_000;
        } }
    {
        Settings {
            server,
            family,
            is_reliable: true,
            most_peers: 32,
            most_named: 8,
            most_sends: 1,
            most_retries: 3,
            rto: 500_000_000,
            last_wait: 39_500_000_000,
        }
    }
}
