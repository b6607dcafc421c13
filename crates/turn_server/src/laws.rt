//! What holds of every datagram, and of all that come in whatever order. Each function does nothing:
//! its contract is the law.

ghost use Rattle.std.specs.Prelude.{◌≡◌, ◌≢◌, ◌<◌, ◌≤◌, ◌&&◌, ◌==◌, not, filter, ℕ, [], ◌∷◌, ◌++◌, List, Bool, Option, Some, None, IsSomeAnd, length, true, false};
ghost use Rattle.std.specs.List.{AllByRecursion};
ghost use Rattle.stun_grammar.specs.declared.integrity_algorithm.IntegrityAlgorithm.{IntegrityAlgorithm};
ghost use Rattle.stun_grammar.specs.Accepting.{IsAuthenticThrough};
ghost use Rattle.stun_grammar.specs.Numbers.{IsBytes};
ghost use Rattle.stun_authentication.specs.Accepted.{IsLogin};
ghost use Rattle.stun_authentication.specs.Identities.{Who};
ghost use Rattle.stun_authentication.specs.Lookups.{UserKey};
ghost use Rattle.stun_authentication.specs.Nonces.{minting_of};
ghost use Rattle.stun_authentication.specs.Policies.{counted};
ghost use Rattle.stun_endpoints.specs.declared.endpoints.Endpoint.{Endpoint};
ghost use Rattle.stun_values.specs.declared.algorithm.PasswordAlgorithmValue.{PasswordAlgorithmValue};
ghost use Rattle.stun_endpoints.specs.declared.endpoints.FiveTuple.{FiveTuple};
ghost use Rattle.turn_machine.specs.Apart.{own, sights};
ghost use Rattle.turn_machine.specs.Bounds.{IsWithin};
ghost use Rattle.turn_machine.specs.Events.{Request, Icmp, allocate, asks, arrives, bounces, to_client_on, to_client_icmp};
ghost use Rattle.turn_machine.specs.Flows.{Flow, flow_of, is_change, IsFirstEnd};
ghost use Rattle.turn_machine.specs.Granting.{IsFree, IsFit};
ghost use Rattle.turn_machine.specs.Lists.{SomeOf};
ghost use Rattle.turn_machine.specs.Relays.{Setup, Rules};
ghost use Rattle.turn_machine.specs.Reservations.{held_for};
ghost use Rattle.turn_machine.specs.Reserving.{Reservation, OuterState, inner, inner_run, outer_run};
ghost use Rattle.turn_machine.specs.Runs.{Happening, run};
ghost use Rattle.turn_machine.specs.Steps.{step};
ghost use Rattle.turn_machine.specs.Times.{at};
ghost use Rattle.turn_machine.specs.Warrants.{is_reported, ArePermitting, IsRight};
ghost use Rattle.turn_machine.specs.Works.{IsDue, Reaches};
ghost use Rattle.turn_allocations.specs.declared.families.Families.{Families};
ghost use Rattle.turn_allocations.specs.declared.limits.Limits.{Limits};
ghost use Rattle.turn_allocations.specs.Requests.{has_numbers};
ghost use Rattle.turn_reservations.specs.declared.requests.Claim.{Claim};
ghost use Rattle.turn_reservations.specs.Calls.{Reserving, IsAfter};
ghost use Rattle.turn_server.specs.declared.access.Access.{Access as AccessIs};
ghost use Rattle.turn_server.specs.declared.sockets.Sockets.{Sockets};
ghost use Rattle.turn_server.specs.Access.{seconds_of, IsRecent};
ghost use Rattle.turn_server.specs.Acting.{act, stepped, sends_to};
ghost use Rattle.turn_server.specs.Datagrams.{Moment, events_in, past, kept, happened, clock_at, Came, IsRequest, IsRelayed};
ghost use Rattle.turn_server.specs.Flows.{IsLeft, may_change};
ghost use Rattle.turn_server.specs.Judging.{Site, dropped, sent, sent_on, asked, event_of, is_asked, judge};
ghost use Rattle.turn_server.specs.Judgments.{IsSo, Asks, IsDecided};
ghost use Rattle.turn_server.specs.Reserved.{AreReserved, offer_of, want_of};
ghost use Rattle.turn_server.specs.Sites.{site_of};
ghost use Rattle.turn_server.specs.Wanted.{claiming, server_at};
ghost use Rattle.stun_authentication.specs.Answers.{accept};

use stun_authentication::{accepted_is_authentic, nonces_are_timed};
use turn_machine::{
    clients_are_apart, flows_are_right, relaying_is_warranted, reservations_are_kept,
    strangers_get_little, table_is_bounded, what_is_permitted_works,
};
use turn_reservations::reserving_calls_are_a_run;

/// A datagram asks for something, or is data for a peer, only if it is so: as a request whose
/// credentials are accepted, a Send indication or a ChannelData message. It is refused only as its
/// credentials decide, or if it shows what isn't comprehended.
pub fn judgments_are_so()
    ensures each { (last_channel : ℕ) (sets_df : Bool) (site : Site) (d : List ℕ)
        → IsSo sets_df site d (judge last_channel sets_df site d) }
    ensures asks { (last_channel : ℕ) (sets_df : Bool) (site : Site) (setup : Setup) (tuple : FiveTuple)
        (h : OuterState) (numbers : Families ℕ) (d : List ℕ) (user : ℕ) (request : Request)
        → let outer = event_of tuple h numbers (judge last_channel sets_df site d) in
        inner setup h.state h.held outer ≡ asks tuple user request → Asks sets_df site h d tuple user outer }
    ensures empty { (last_channel : ℕ) (sets_df : Bool) (site : Site)
        → judge last_channel sets_df site [] ≡ dropped }
{}

/// A request whose credentials are accepted is of the user whom it names, under the key that the
/// look-up has for that user, and what it shows is authentic under it: its content is that of a message that was
/// signed with the key, or nobody signed what its HMAC covers. It shows the nonce that the server made for this
/// client at most as many seconds before as a nonce is valid. So what is recorded can be sent again for that long,
/// from the client's own address.
pub fn requests_are_authentic()
    ensures login { (site : Site) (d : List ℕ) (user : Who) (key : UserKey)
        (algorithm reply : IntegrityAlgorithm)
        → IsDecided site d (accept user key algorithm reply)
        → IsLogin site.policy site.realm site.nonces site.keys d user key algorithm reply }
    ensures authentic { (site : Site) (d : List ℕ) (user : Who) (key : UserKey)
        (algorithm reply : IntegrityAlgorithm)
        → IsBytes d → IsDecided site d (accept user key algorithm reply)
        → IsSomeAnd (counted site.policy key.made_for)
        (λ served. IsAuthenticThrough served (λ _. key.bytes) d algorithm) }
    ensures recent { (access : AccessIs) (sockets : Sockets)
        (keys : Who → List ℕ → PasswordAlgorithmValue → Option UserKey) (client : Endpoint) (now : ℕ)
        (d : List ℕ) (user : Who) (key : UserKey) (algorithm reply : IntegrityAlgorithm)
        → IsDecided (site_of access sockets keys client now) d (accept user key algorithm reply)
        → IsRecent (minting_of access.nonces) (seconds_of now) client d }
{
    accepted_is_authentic();
    nonces_are_timed();
}

/// Whatever came in whatever order: what a server keeps, and what calls that are these events leave, is what
/// the machine keeps by the events that the datagrams were, within its bounds: with reservations, and without
/// them by the events that these are without reservations. Data of a client goes to a peer only by a Send
/// indication or a ChannelData message, with the DF bit exactly if the server sets it and it is a Send
/// indication that shows DONT-FRAGMENT. Data of a peer goes only to the client of the socket that it came to,
/// and ICMP only to the client of the socket that sent what it is about. All that only if the rules in force
/// allow the peer and that is warranted by requests that succeeded before, as
/// `turn_machine` has it: a user opened the allocation, was granted a lifetime that isn't over, and asked
/// for the peer in time, since the allocation was opened. Each of these requests came as a datagram of that
/// client, whose credentials were accepted as that user's, at that very moment: what happened by the request is
/// what happened by that datagram.
pub fn datagrams_are_warranted()
    ensures kept { (setup : Setup) (moments : List Moment)
        → kept setup moments ≡ outer_run setup (events_in setup moments) }
    ensures state { (setup : Setup) (moments : List Moment)
        → (kept setup moments).state ≡ run setup (inner_run setup (events_in setup moments)) }
    ensures calls { (setup : Setup) (limits : Limits) (moments : List Moment) (s : Reserving)
        → IsAfter setup limits (events_in setup moments) s → s.holding ≡ kept setup moments }
    ensures relays { (setup : Setup) (moments : List Moment)
        → length (kept setup moments).state.relays ≤ setup.most_relays }
    ensures within { (setup : Setup) (moments : List Moment)
        → AllByRecursion (IsWithin setup) (kept setup moments).state.relays }
    ensures data { (setup : Setup) (rules : Rules) (earlier : List Moment) (now : ℕ) (site : Site)
        (tuple : FiveTuple) (numbers : Families ℕ) (d : List ℕ) (number : ℕ) (peer : Endpoint)
        (dont_fragment : Bool) (bytes : List ℕ)
        → act site setup rules tuple numbers (kept setup earlier) now d
        ≡ sends_to number peer dont_fragment bytes
        → IsRelayed setup rules earlier now tuple d number peer dont_fragment bytes }
    ensures back { (setup : Setup) (rules : Rules) (earlier : List Moment) (now number : ℕ)
        (peer : Endpoint) (bytes : List ℕ)
        → IsRight setup (past setup earlier) (clock_at setup earlier now) rules
        (arrives number peer bytes)
        (step setup rules (kept setup earlier).state now (arrives number peer bytes)).output }
    ensures icmp { (setup : Setup) (rules : Rules) (earlier : List Moment) (now number : ℕ)
        (peer : Endpoint) (icmp : Icmp)
        → IsRight setup (past setup earlier) (clock_at setup earlier now) rules
        (bounces number peer icmp)
        (step setup rules (kept setup earlier).state now (bounces number peer icmp)).output }
    ensures requests { (setup : Setup) (earlier : List Moment) (tuple : FiveTuple) (user : ℕ)
        (request : Request) (h : Happening) → h.event ≡ asks tuple user request
        → SomeOf (λ x. x ≡ h) (past setup earlier)
        → Came (λ before m. IsRequest setup tuple user request before m × (happened setup before m ≡ h)) earlier }
{
    reserving_calls_are_a_run();
    reservations_are_kept();
    relaying_is_warranted();
    table_is_bounded();
}

/// By a datagram that isn't a user's accepted request only time passes, also for reservations; and nothing of
/// it goes to a peer if its client has no allocation. How long the response is that it may get,
/// `stun_server::replies_are_small` says of one to a Binding request, and
/// `stun_authentication::refusals_are_short` of a 401.
pub fn strangers_change_nothing()
    ensures unchanged { (site : Site) (setup : Setup) (rules : Rules) (tuple : FiveTuple)
        (numbers : Families ℕ) (h : OuterState) (now : ℕ) (d : List ℕ)
        → let judged = judge setup.last_channel setup.supports_dont_fragment site d in is_asked judged ≡ false
        → (stepped setup rules tuple numbers h now judged).holding ≡ server_at now h }
    ensures quiet { (site : Site) (setup : Setup) (rules : Rules) (tuple : FiveTuple)
        (numbers : Families ℕ) (h : OuterState) (now : ℕ) (d : List ℕ) (number : ℕ) (peer : Endpoint)
        (dont_fragment : Bool) (bytes : List ℕ) → IsFree tuple (at now h.state)
        → act site setup rules tuple numbers h now d
        ≢ sends_to number peer dont_fragment bytes }
{
    strangers_get_little();
}

/// Each reservation was made by a datagram: by an authentic request of its user, which reserved the socket with this
/// token until 30 seconds later. A request with a token opens an allocation only if its own user has a live
/// reservation with that token. If it is fit, the reserved socket is the relayed address's, and no reservation has
/// the token any longer: it serves once.
pub fn reservations_are_for_their_users()
    ensures reserved { (setup : Setup) (moments : List Moment)
        → AreReserved setup moments (kept setup moments).held }
    ensures refused { (setup : Setup) (rules : Rules) (h : OuterState) (now : ℕ) (site : Site)
        (tuple : FiveTuple) (numbers : Families ℕ) (d : List ℕ) (user : ℕ) (claim : Claim) (key : UserKey)
        (algorithm : IntegrityAlgorithm) → let judged = judge setup.last_channel setup.supports_dont_fragment site d in
        judged ≡ asked user (claiming claim) key algorithm
        → held_for user claim.token (server_at now h).held ≡ None
        → (stepped setup rules tuple numbers h now judged).holding.state.relays ≡ (at now h.state).relays }
    ensures claimed { (setup : Setup) (rules : Rules) (h : OuterState) (now : ℕ) (site : Site)
        (tuple : FiveTuple) (numbers : Families ℕ) (d : List ℕ) (user : ℕ) (claim : Claim) (key : UserKey)
        (algorithm : IntegrityAlgorithm) (r : Reservation) → let judged = judge setup.last_channel setup.supports_dont_fragment site d in
        judged ≡ asked user (claiming claim) key algorithm → has_numbers (at now h.state) ≡ true
        → held_for user claim.token (server_at now h).held ≡ Some r
        → IsFit setup tuple user (want_of r numbers) (offer_of r numbers) (at now h.state)
        → let done = stepped setup rules tuple numbers h now judged in
        (done.step ≡ step setup rules h.state now
        (asks tuple user (allocate claim.id claim.lifetime (want_of r numbers ∷ []))))
        × (done.holding.held ≡ filter (λ x. not (x.token == claim.token)) (server_at now h).held) }
{
    reservations_are_kept();
}

/// The converse of `datagrams_are_warranted`: whatever else came in between, the data of a Send indication
/// reaches the peer, with the DF bit or without, and the peer's data and ICMP the client, if the user's request
/// for the permission was answered with success in time, since the allocation was opened, the lifetime that was
/// granted last was never over, and the rules in force allow the peer.
pub fn permitted_datagrams_pass()
    ensures sent { (setup : Setup) (rules : Rules) (earlier : List Moment) (now : ℕ)
        (tuple : FiveTuple) (number : ℕ) (peer : Endpoint)
        → let moment = clock_at setup earlier now in
        IsDue (past setup earlier) moment tuple number peer (ArePermitting setup tuple peer moment)
        → (rules.allows_ip peer.ip && rules.allows_port peer) ≡ true
        → (site : Site) (numbers : Families ℕ) (d : List ℕ) (dont_fragment : Bool) (bytes : List ℕ)
        → judge setup.last_channel setup.supports_dont_fragment site d ≡ sent peer dont_fragment bytes
        → act site setup rules tuple numbers (kept setup earlier) now d
        ≡ sends_to number peer dont_fragment bytes }
    ensures back { (setup : Setup) (rules : Rules) (earlier : List Moment) (now : ℕ)
        (tuple : FiveTuple) (number : ℕ) (peer : Endpoint) (bytes : List ℕ)
        → let moment = clock_at setup earlier now in
        IsDue (past setup earlier) moment tuple number peer (ArePermitting setup tuple peer moment)
        → rules.allows_ip peer.ip ≡ true
        → Reaches tuple peer bytes
        (step setup rules (kept setup earlier).state now (arrives number peer bytes)).output }
    ensures news { (setup : Setup) (rules : Rules) (earlier : List Moment) (now : ℕ)
        (tuple : FiveTuple) (number : ℕ) (peer : Endpoint) (icmp : Icmp)
        → let moment = clock_at setup earlier now in
        IsDue (past setup earlier) moment tuple number peer (ArePermitting setup tuple peer moment)
        → rules.allows_ip peer.ip ≡ true → setup.passes_icmp ≡ true
        → is_reported peer.ip.family icmp.type_number ≡ true
        → (step setup rules (kept setup earlier).state now (bounces number peer icmp)).output
        ≡ to_client_icmp tuple peer icmp }
{
    reservations_are_kept();
    what_is_permitted_works();
}

/// What [`TurnServer::flow`](crate::TurnServer::flow) returns lasts until it expires, whatever else comes, unless
/// a request of its client succeeds, or the caller ends its relayed address or all of its user. So neither a
/// datagram of another client or a peer, nor data of this client, nor an ICMP packet changes it, nor time before
/// it expires. As long as it lasts, if the rules in force allow the peer, each ChannelData message of the client on
/// the channel goes from the socket to the peer, byte for byte and without the DF bit, and each datagram of the
/// peer to that socket goes to the client on the channel. If both are so of a channel, it has that flow. A flow
/// expires at the first end of the relayed address, the channel, and the permission for the peer's IP address.
pub fn flows_last()
    ensures lasting { (setup : Setup) (later earlier : List Moment) (tuple : FiveTuple)
        (channel user : ℕ) (flow : Flow)
        → flow_of (kept setup earlier).state tuple channel ≡ Some flow
        → AllByRecursion (λ a. a.number ≡ flow.number → a.user ≡ user) (kept setup earlier).state.relays
        → IsLeft setup tuple user flow.number later earlier
        → (kept setup (later ++ earlier)).state.clock < flow.expires_at
        → flow_of (kept setup (later ++ earlier)).state tuple channel ≡ Some flow }
    ensures others { (setup : Setup) (tuple : FiveTuple) (user number : ℕ) (earlier : List Moment)
        (m : Moment) → may_change setup tuple user number m.arrival ≡ false
        → is_change tuple user number (happened setup earlier m) ≡ false }
    ensures out { (setup : Setup) (rules : Rules) (earlier : List Moment) (now : ℕ) (site : Site)
        (tuple : FiveTuple) (numbers : Families ℕ) (d : List ℕ) (channel : ℕ) (flow : Flow)
        (bytes : List ℕ) → flow_of (kept setup earlier).state tuple channel ≡ Some flow
        → now < flow.expires_at
        → (rules.allows_ip flow.peer.ip && rules.allows_port flow.peer) ≡ true
        → judge setup.last_channel setup.supports_dont_fragment site d ≡ sent_on channel bytes
        → act site setup rules tuple numbers (kept setup earlier) now d
        ≡ sends_to flow.number flow.peer false bytes }
    ensures back { (setup : Setup) (rules : Rules) (earlier : List Moment) (now : ℕ)
        (tuple : FiveTuple) (channel : ℕ) (flow : Flow) (bytes : List ℕ)
        → flow_of (kept setup earlier).state tuple channel ≡ Some flow → now < flow.expires_at
        → rules.allows_ip flow.peer.ip ≡ true
        → (step setup rules (kept setup earlier).state now (arrives flow.number flow.peer bytes)).output
        ≡ to_client_on tuple channel bytes }
    ensures exact { (setup : Setup) (rules : Rules) (earlier : List Moment) (now : ℕ) (site : Site)
        (tuple : FiveTuple) (numbers : Families ℕ) (d : List ℕ) (channel number : ℕ) (peer : Endpoint)
        (bytes other : List ℕ)
        → judge setup.last_channel setup.supports_dont_fragment site d ≡ sent_on channel bytes
        → act site setup rules tuple numbers (kept setup earlier) now d
        ≡ sends_to number peer false bytes
        → (step setup rules (kept setup earlier).state now (arrives number peer other)).output
        ≡ to_client_on tuple channel other
        → (flow : Flow) × (flow_of (kept setup earlier).state tuple channel ≡ Some flow)
        × (flow.number ≡ number) × (flow.peer ≡ peer) × (now < flow.expires_at) }
    ensures least { (setup : Setup) (earlier : List Moment) (tuple : FiveTuple) (channel : ℕ)
        (flow : Flow) → flow_of (kept setup earlier).state tuple channel ≡ Some flow
        → ((kept setup earlier).state.clock < flow.expires_at)
        × IsFirstEnd tuple channel flow (kept setup earlier).state }
{
    reservations_are_kept();
    flows_are_right();
}

/// What a client is answered, and where its data and its peers' data go, is determined by its own datagrams
/// as requests and data, by what arrives at the sockets that it was given, and by the responses to its
/// Allocate requests, as `turn_machine` has it: two runs in which these are the same look the same to it. Its
/// Allocate requests count with the sockets that were ready for them, a reserved one among them; the token in a
/// response isn't part of what it sees here.
pub fn clients_do_not_meet()
    ensures { (setup : Setup) (tuple : FiveTuple) (one other : List Moment)
        → own tuple (past setup one) ≡ own tuple (past setup other)
        → sights tuple (past setup one) ≡ sights tuple (past setup other) }
{
    clients_are_apart();
}
