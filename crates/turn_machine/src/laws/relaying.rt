//! What is relayed.

ghost use Rattle.std.specs.Prelude.{◌≡◌, ◌&&◌, ◌<◌, ℕ, Bool, List, ◌++◌, Some, true, false};
ghost use Rattle.std.specs.List.{AllByRecursion};
ghost use Rattle.stun_endpoints.specs.declared.endpoints.Endpoint.{Endpoint};
ghost use Rattle.stun_endpoints.specs.declared.endpoints.FiveTuple.{FiveTuple};
ghost use Rattle.turn_machine.specs.Relays.{Setup, Rules};
ghost use Rattle.turn_machine.specs.Events.{Icmp, sends, sends_on, bounces, to_peer, to_client, to_client_on, to_client_icmp, arrives};
ghost use Rattle.turn_machine.specs.Times.{at};
ghost use Rattle.turn_machine.specs.Runs.{Timed, run, history, happening};
ghost use Rattle.turn_machine.specs.Warrants.{is_reported, ArePermitting, AreBinding, IsRight};
ghost use Rattle.turn_machine.specs.Works.{IsDue, output_of, Reaches, IsBoundTo};
ghost use Rattle.turn_machine.specs.Flows.{Flow, flow_of, IsRelayed, IsLeft, IsFirstEnd};

/// After any events in any order, nothing is sent but responses to the client that asked, and data and ICMP
/// between a client and a peer that the user of an allocation asked for. At that moment the allocation is
/// live, by the newest Allocate or Refresh request of this user from this client. Since it was opened, the
/// user asked from this client for what the relaying needs: a Send indication, and anything to the client,
/// for a permission for the peer's IP address within the last 300 seconds, or with `channel_permits` for a
/// channel of a peer with this IP address within the last 600, if no CreatePermission request has named the
/// address since; ChannelData to a peer for this channel with this very peer within the last 600;
/// ChannelData to a client for both. The rules allowed the peer when the user asked, and allow it now. A
/// server that drops data meets this law: the next one is about that.
pub fn relaying_is_warranted()
    ensures { (setup : Setup) (earlier : List Timed) (timed : Timed)
        → let h = happening setup (run setup earlier) timed in
        IsRight setup (history setup earlier) h.moment h.rules h.event h.output }
{}

/// The converse of `relaying_is_warranted`. Whatever else has happened in between, caused by anybody: if what
/// is needed was asked for since the allocation was opened, in time, and with success, if the lifetime that
/// was granted last never expired, and if the rules in force allow the peer, then a Send indication and
/// ChannelData go to the peer through the client's socket, and the peer's data and ICMP reach the client.
/// Whether the peer's data comes as ChannelData or as a Data indication is left to `bound_channels_are_used`.
pub fn what_is_permitted_works()
    ensures out { (setup : Setup) (earlier : List Timed) (now : ℕ) (rules : Rules)
        (tuple : FiveTuple) (number : ℕ) (peer : Endpoint) (dont_fragment : Bool) (bytes : List ℕ)
        → let moment = (at now (run setup earlier)).clock in
        IsDue (history setup earlier) moment tuple number peer (ArePermitting setup tuple peer moment)
        → (rules.allows_ip peer.ip && rules.allows_port peer) ≡ true
        → (dont_fragment ≡ true → setup.supports_dont_fragment ≡ true)
        → output_of setup earlier now rules (sends tuple peer dont_fragment bytes)
        ≡ to_peer number peer dont_fragment bytes }
    ensures on_channel { (setup : Setup) (earlier : List Timed) (now : ℕ) (rules : Rules)
        (tuple : FiveTuple) (number : ℕ) (peer : Endpoint) (channel : ℕ) (bytes : List ℕ)
        → let moment = (at now (run setup earlier)).clock in
        IsDue (history setup earlier) moment tuple number peer
        (AreBinding tuple channel peer moment)
        → (rules.allows_ip peer.ip && rules.allows_port peer) ≡ true
        → output_of setup earlier now rules (sends_on tuple channel bytes)
        ≡ to_peer number peer false bytes }
    ensures back { (setup : Setup) (earlier : List Timed) (now : ℕ) (rules : Rules)
        (tuple : FiveTuple) (number : ℕ) (peer : Endpoint) (bytes : List ℕ)
        → let moment = (at now (run setup earlier)).clock in
        IsDue (history setup earlier) moment tuple number peer (ArePermitting setup tuple peer moment)
        → rules.allows_ip peer.ip ≡ true
        → Reaches tuple peer bytes (output_of setup earlier now rules (arrives number peer bytes)) }
    ensures news { (setup : Setup) (earlier : List Timed) (now : ℕ) (rules : Rules)
        (tuple : FiveTuple) (number : ℕ) (peer : Endpoint) (icmp : Icmp)
        → let moment = (at now (run setup earlier)).clock in
        IsDue (history setup earlier) moment tuple number peer (ArePermitting setup tuple peer moment)
        → rules.allows_ip peer.ip ≡ true → setup.passes_icmp ≡ true
        → is_reported peer.ip.family icmp.type_number ≡ true
        → output_of setup earlier now rules (bounces number peer icmp)
        ≡ to_client_icmp tuple peer icmp }
{}

/// To a client that bound a channel to the peer less than 600 seconds ago, the peer's data goes as ChannelData
/// with this number; to one that bound none, as a Data indication. There is one output, so never both.
pub fn bound_channels_are_used()
    ensures bound { (setup : Setup) (earlier : List Timed) (now : ℕ) (rules : Rules)
        (tuple : FiveTuple) (number : ℕ) (peer : Endpoint) (channel : ℕ) (bytes : List ℕ)
        → let moment = (at now (run setup earlier)).clock in
        IsDue (history setup earlier) moment tuple number peer
        (λ user since. ArePermitting setup tuple peer moment user since
        × AreBinding tuple channel peer moment user since)
        → rules.allows_ip peer.ip ≡ true
        → output_of setup earlier now rules (arrives number peer bytes)
        ≡ to_client_on tuple channel bytes }
    ensures unbound { (setup : Setup) (earlier : List Timed) (now : ℕ) (rules : Rules)
        (tuple : FiveTuple) (number : ℕ) (peer : Endpoint) (bytes : List ℕ)
        → let moment = (at now (run setup earlier)).clock in
        IsDue (history setup earlier) moment tuple number peer (ArePermitting setup tuple peer moment)
        → ¬ (IsBoundTo tuple peer moment (history setup earlier)) → rules.allows_ip peer.ip ≡ true
        → output_of setup earlier now rules (arrives number peer bytes)
        ≡ to_client tuple peer bytes }
{}

/// A flow is a channel that may be relayed without asking the machine. Until it ends, the machine relays both
/// ways as the flow says, if the rules allow the peer: ChannelData to this peer through this socket, and what
/// the peer sends there as ChannelData with this number. No event changes a flow but a successful request of
/// its client, and an end by the caller. There is a flow if and only if both directions are relayed, and it
/// ends with the first of the relayed address, the channel, and the permission for the peer's IP address, so
/// the flow is determined. A socket and a peer belong to one flow. When the rules change is left open.
pub fn flows_are_right()
    ensures out { (setup : Setup) (earlier : List Timed) (tuple : FiveTuple) (channel : ℕ)
        (flow : Flow) (now : ℕ) (rules : Rules) (bytes : List ℕ)
        → flow_of (run setup earlier) tuple channel ≡ Some flow → now < flow.expires_at
        → (rules.allows_ip flow.peer.ip && rules.allows_port flow.peer) ≡ true
        → output_of setup earlier now rules (sends_on tuple channel bytes)
        ≡ to_peer flow.number flow.peer false bytes }
    ensures back { (setup : Setup) (earlier : List Timed) (tuple : FiveTuple) (channel : ℕ)
        (flow : Flow) (now : ℕ) (rules : Rules) (bytes : List ℕ)
        → flow_of (run setup earlier) tuple channel ≡ Some flow → now < flow.expires_at
        → rules.allows_ip flow.peer.ip ≡ true
        → output_of setup earlier now rules (arrives flow.number flow.peer bytes)
        ≡ to_client_on tuple channel bytes }
    ensures lasting { (setup : Setup) (later earlier : List Timed) (tuple : FiveTuple)
        (channel user : ℕ) (flow : Flow)
        → flow_of (run setup earlier) tuple channel ≡ Some flow
        → AllByRecursion (λ a. a.number ≡ flow.number → a.user ≡ user) (run setup earlier).relays
        → IsLeft setup tuple user flow.number later earlier
        → (run setup (later ++ earlier)).clock < flow.expires_at
        → (flow_of (run setup (later ++ earlier)) tuple channel ≡ Some flow)
        × IsRelayed setup (later ++ earlier) tuple channel flow }
    ensures exact { (setup : Setup) (earlier : List Timed) (tuple : FiveTuple) (channel number : ℕ)
        (peer : Endpoint) (now : ℕ) (rules : Rules) (bytes other : List ℕ)
        → output_of setup earlier now rules (sends_on tuple channel bytes)
        ≡ to_peer number peer false bytes
        → output_of setup earlier now rules (arrives number peer other)
        ≡ to_client_on tuple channel other
        → (flow : Flow) × (flow_of (run setup earlier) tuple channel ≡ Some flow)
        × (flow.number ≡ number) × (flow.peer ≡ peer) × (now < flow.expires_at) }
    ensures least { (setup : Setup) (earlier : List Timed) (tuple : FiveTuple) (channel : ℕ)
        (flow : Flow) → flow_of (run setup earlier) tuple channel ≡ Some flow
        → ((run setup earlier).clock < flow.expires_at)
        × IsFirstEnd tuple channel flow (run setup earlier) }
    ensures determined { (setup : Setup) (earlier : List Timed) (tuple : FiveTuple) (channel : ℕ)
        (flow : Flow) → (run setup earlier).clock < flow.expires_at
        → IsRelayed setup earlier tuple channel flow
        → ((now : ℕ) (rules : Rules) (bytes other : List ℕ)
        → output_of setup earlier now rules (sends_on tuple channel bytes)
        ≡ to_peer flow.number flow.peer false bytes
        → output_of setup earlier now rules (arrives flow.number flow.peer other)
        ≡ to_client_on tuple channel other → now < flow.expires_at)
        → flow_of (run setup earlier) tuple channel ≡ Some flow }
    ensures one { (setup : Setup) (earlier : List Timed) (tuple other : FiveTuple)
        (channel second : ℕ) (flow : Flow) (expires_at : ℕ)
        → flow_of (run setup earlier) tuple channel ≡ Some flow
        → flow_of (run setup earlier) other second ≡ Some (record flow { expires_at = expires_at })
        → (tuple ≡ other) × (channel ≡ second) }
{}
