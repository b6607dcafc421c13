//! The definitions of authentication, of a client's transaction, of ICE and of TURN, checked against
//! numbers from outside this repository. The functions do nothing: the prover computes what their
//! contracts state.
#![tactic(auto)]

mod session;

ghost use Rattle.std.specs.Prelude.{◌≡◌, ◌-◌, true, false, [], ◌∷◌, ◌++◌, codes, map, slice_range, replicate, None, Some, nat_lt};
ghost use Rattle.stun_grammar.specs.declared.error.StunWriteError.TheVariants.{OutOfRange};
ghost use Rattle.stun_grammar.specs.AttributeTypes.{SOFTWARE, USERNAME, REALM, NONCE, MESSAGE_INTEGRITY, FINGERPRINT};
ghost use Rattle.stun_grammar.specs.Attributes.{canonical};
ghost use Rattle.stun_grammar.specs.Numbers.{number};
ghost use Rattle.stun_grammar.specs.Showing.{shown};
ghost use Rattle.stun_base.specs.declared.transport.AddressFamily.TheVariants.{IPV6};
ghost use Rattle.stun_values.specs.Addresses.{address_in, IsXored};
ghost use Rattle.standard_vectors.specs.Messages.{sample_request, ipv4_response, long_term_request};
ghost use Rattle.standard_vectors.specs.Parameters.{user_name, realm, user_hash as printed_hash, password};
ghost use Rattle.standard_vectors.specs.Right.{IsRead};
ghost use Rattle.stun_attributes.specs.Userhash.{user_hash};
ghost use Rattle.stun_attributes.specs.DefaultReasons.{default_reason};
ghost use Rattle.stun_keys.specs.declared.keys.integrity_key.IntegrityKey.{IntegrityKey};
ghost use Rattle.stun_grammar.specs.declared.integrity_algorithm.IntegrityAlgorithm.TheVariants.{Sha1, Sha256};
ghost use Rattle.stun_authentication.specs.declared.answer.Refusal.TheVariants.{BadRequest, Unauthenticated, StaleNonce};
ghost use Rattle.stun_authentication.specs.Answers.{accept, refuse, discard, not_a_request};
ghost use Rattle.stun_authentication.specs.Base64.{in_base64};
ghost use Rattle.stun_authentication.specs.Cookies.{security_features, cookie};
ghost use Rattle.stun_authentication.specs.Identities.{named};
ghost use Rattle.stun_authentication.specs.Lookups.{key_made, valid, stale, unknown};
ghost use Rattle.stun_authentication.specs.LongTerm.{long_term};
ghost use Rattle.stun_authentication.specs.Nonces.{minted, minting};
ghost use Rattle.stun_authentication.specs.ShortTerm.{short_term};
ghost use Rattle.usage_vectors.specs.Authentications.{unprinted, printed, everybody, nobody, user, other, sent_with_both, sent_with_md5, unsigned, signed, promised, unpromised, sha256_chosen, sha256_listed, md5_listed, both_listed, hashed};
ghost use Rattle.stun_transactions.specs.Rows.{moments, row_end, row_wait};
ghost use Rattle.stun_transactions.specs.Parts.{parts_fault};
ghost use Rattle.stun_transactions.specs.Receiving.{content};
ghost use Rattle.stun_transactions.specs.Schedules.{requests_in};
ghost use Rattle.stun_transactions.specs.Beginning.{begin_fault};
ghost use Rattle.stun_transactions.specs.declared.guard.Protection.TheVariants.{Unprotected, ShortTerm};
ghost use Rattle.stun_transactions.specs.declared.parts.PartsError.TheVariants.{SentTooOften};
ghost use Rattle.stun_transactions.specs.declared.parts.TransactionParts.{TransactionParts};
ghost use Rattle.stun_transactions.specs.declared.received.Failure.TheVariants.{UnknownAttribute, NoErrorCode};
ghost use Rattle.stun_transactions.specs.declared.received.Outcome.TheVariants.{Failed};
ghost use Rattle.stun_transactions.specs.declared.beginning.BeginError.TheVariants.{NotARequest};
ghost use Rattle.stun_framing.specs.declared.stream_kind.StreamKind.TheVariants.{Messages, ChannelDataToo};
ghost use Rattle.stun_framing.specs.declared.error.StreamFault.TheVariants.{NotStun, NotPadded, TooLong};
ghost use Rattle.stun_framing.specs.Framing.{room_of, stated_length, IsCut, stream_fault};
ghost use Rattle.stun_framing.specs.Streams.{begun};
ghost use Rattle.stun_framing.specs.Runs.{left_by, yielded};
ghost use Rattle.ice_attrs.specs.Ice.{PRIORITY, USE_CANDIDATE, ICE_CONTROLLED, ICE_CONTROLLING, candidate_priority, priority_fault, candidates_priority, pair_fault};
ghost use Rattle.turn_attrs.specs.declared.channel_data.ChannelDataError.TheVariants.{NotChannelData, Truncated, TooLarge};
ghost use Rattle.turn_attrs.specs.declared.protocols.Protocol.TheVariants.{Stun, Zrtp, Dtls, TurnChannel, Rtp};
ghost use Rattle.turn_attrs.specs.Turn.{LIFETIME, XOR_PEER_ADDRESS, DATA, CHANNEL_NUMBER, XOR_RELAYED_ADDRESS, REQUESTED_ADDRESS_FAMILY, EVEN_PORT, REQUESTED_TRANSPORT, DONT_FRAGMENT, RESERVATION_TOKEN, ADDITIONAL_ADDRESS_FAMILY, ADDRESS_ERROR_CODE, ICMP, family_in, reserve_in, protocol_in, icmp_in};
ghost use Rattle.stun_framing.specs.declared.channel_range.ChannelRange.TheVariants.{Rfc8656, Rfc5766};
ghost use Rattle.turn_attrs.specs.Channels.{channel_in, old_channel_in, channel_field, data_length};
ghost use Rattle.turn_attrs.specs.ChannelMessages.{channel_fault, channel_fault_in, data_in, prefix_fault};
ghost use Rattle.turn_attrs.specs.Heads.{data_indication as indication_of};
ghost use Rattle.turn_attrs.specs.Protocols.{protocol, protocol_in as protocol_in_range};
ghost use Rattle.usage_vectors.specs.TurnMessages.{allocate_success, allocate_success_id, allocate_success_attributes, channel_bind, channel_bind_id, channel_bind_attributes, data_indication, data_indication_id, data_indication_attributes, relayed, peer, peer_ipv6};
ghost use Rattle.usage_vectors.specs.Streams.{with_channels, padded_data, whole_stream, pieces, unsigned_error};
ghost use Rattle.usage_vectors.specs.Reasons.{all_codes, all_reasons};

pub use session::turn_session_is_right;

/// The times at which a request is sent if RTO is 500 ms, Rc 7 and Rm 16, as RFC 8489, section 6.2.1,
/// prints them, and the waits between them.
pub fn retransmissions_are_right()
    ensures moments { moments 500 7 ≡ 0 ∷ 500 ∷ 1500 ∷ 3500 ∷ 7500 ∷ 15500 ∷ 31500 ∷ [] }
    ensures end { row_end 500 7 16 ≡ 39500 }
    ensures first_wait { row_wait 500 7 16 1 ≡ 500 }
    ensures sixth_wait { row_wait 500 7 16 6 ≡ 31500 - 15500 }
    ensures last_wait { row_wait 500 7 16 7 ≡ 39500 - 31500 }
{}

/// Priorities of RFC 8445, section 5.1.2.1: the PRIORITY in RFC 5769, section 2.1, and those of a host
/// candidate and a server-reflexive candidate in RFC 8839. The types of the attributes of ICE in that
/// message. A type preference is refused before a component.
pub fn priorities_are_right()
    ensures check { candidate_priority 110 1 1 ≡ 0x6E0001FF }
    ensures host { candidate_priority 126 65535 1 ≡ 2130706431 }
    ensures reflexive { candidate_priority 100 65535 1 ≡ 1694498815 }
    ensures types { map (λ a. a.type) (shown sample_request) ≡ SOFTWARE ∷ PRIORITY ∷ ICE_CONTROLLED ∷ USERNAME ∷ MESSAGE_INTEGRITY ∷ FINGERPRINT ∷ [] }
    ensures above { priority_fault 127 65535 1 ≡ Some (OutOfRange 127 0 126) }
    ensures both { priority_fault 127 65535 0 ≡ Some (OutOfRange 127 0 126) }
{}

/// Nonces with and without a nonce cookie (RFC 8489, sections 9.2 and 18.1): the one of RFC 8656,
/// section 20, sets the bit of password algorithms; the one of RFC 8489, appendix B.1, sets only bit
/// 22; those with username anonymity come from Python's base64; the one of RFC 5769, section 2.4, has
/// no cookie.
pub fn nonce_cookies_are_right()
    ensures algorithms { security_features (codes "obMatJos2gAAAadl7W7PeDU4hKE72jda") ≡ Some (record { password_algorithms = true; username_anonymity = false }) }
    ensures unassigned { security_features (codes "obMatJos2AAACf//499k954d6OL34oL9FSTvy64sA") ≡ Some (record { password_algorithms = false; username_anonymity = false }) }
    ensures both { security_features (codes "obMatJos2wAAA") ≡ Some (record { password_algorithms = true; username_anonymity = true }) }
    ensures absent { security_features (codes "f//499k954d6OL34oL9FSTvy64sA") ≡ None }
    ensures written { cookie (record { password_algorithms = true; username_anonymity = false }) ≡ codes "obMatJos2gAAA" }
    ensures anonymous { cookie (record { password_algorithms = false; username_anonymity = true }) ≡ codes "obMatJos2QAAA" }
{}

/// Base64 (RFC 4648, section 10), and a nonce for 192.0.2.1:32853 at 1790000000 seconds, as Python's
/// hmac and base64 compute it.
pub fn nonces_are_right()
    ensures base64 { in_base64 8 (number (codes "foobar")) ≡ codes "Zm9vYmFy" }
    ensures made { minted (minting (codes "a-secret-of-the-server--32-bytes") (record { password_algorithms = true; username_anonymity = true }) 600) 1790000000 (0x00 ∷ 0x01 ∷ 0x80 ∷ 0x55 ∷ 0xC0 ∷ 0x00 ∷ 0x02 ∷ 0x01 ∷ []) ≡ codes "obMatJos2wAAABqsTuAoM1irYq7fb0JFc83" }
{}

/// The userhash of RFC 8489, appendix B.1.
pub fn userhash_is_right()
    ensures { user_hash user_name realm ≡ printed_hash }
{}

/// The numbers of the attribute types of ICE (RFC 8445, section 16.1) and of TURN (RFC 8656, section
/// 18).
pub fn attribute_types_are_right()
    ensures ice { PRIORITY ∷ USE_CANDIDATE ∷ ICE_CONTROLLED ∷ ICE_CONTROLLING ∷ [] ≡ 0x0024 ∷ 0x0025 ∷ 0x8029 ∷ 0x802A ∷ [] }
    ensures turn { CHANNEL_NUMBER ∷ LIFETIME ∷ XOR_PEER_ADDRESS ∷ DATA ∷ XOR_RELAYED_ADDRESS ∷ REQUESTED_ADDRESS_FAMILY ∷ EVEN_PORT ∷ REQUESTED_TRANSPORT ∷ DONT_FRAGMENT ∷ RESERVATION_TOKEN ∷ ADDITIONAL_ADDRESS_FAMILY ∷ ADDRESS_ERROR_CODE ∷ ICMP ∷ [] ≡ 0x000C ∷ 0x000D ∷ 0x0012 ∷ 0x0013 ∷ 0x0016 ∷ 0x0017 ∷ 0x0018 ∷ 0x0019 ∷ 0x001A ∷ 0x0022 ∷ 0x8000 ∷ 0x8001 ∷ 0x8004 ∷ [] }
{}

/// Three messages of RFC 8656, section 20, and their addresses, of both families; and the last one as it
/// is written.
pub fn turn_messages_are_right()
    ensures allocate { IsRead allocate_success 0x0103 allocate_success_id allocate_success_attributes }
    ensures relayed { IsXored allocate_success_id relayed (address_in (slice_range allocate_success 32 40)) }
    ensures bind { IsRead channel_bind 0x0009 channel_bind_id channel_bind_attributes }
    ensures peer { IsXored channel_bind_id peer (address_in (slice_range channel_bind 32 40)) }
    ensures indication { IsRead data_indication 0x0017 data_indication_id data_indication_attributes }
    ensures written { indication_of data_indication_id peer_ipv6 (codes "hello") ≡ data_indication }
    ensures peer_ipv6 { IsXored data_indication_id peer_ipv6 (address_in (slice_range data_indication 24 44)) }
{}

/// Values of TURN's attributes, read as numbers, in the layout of RFC 8656, section 18; and channels of
/// RFC 5766.
pub fn turn_values_are_right()
    ensures channel { channel_in 0x40000000 ≡ Some 0x4000 }
    ensures no_channel { channel_in 0x50000000 ≡ None }
    ensures old_channel { old_channel_in 0x7FFF0000 ≡ Some 0x7FFF }
    ensures no_old_channel { old_channel_in 0x80000000 ≡ None }
    ensures family { family_in 0x02000000 ≡ Some IPV6 }
    ensures reserve { reserve_in 0x80 ≡ Some true }
    ensures udp { protocol_in 0x11000000 ≡ Some 17 }
    ensures icmp { icmp_in 0x0000030400000578 ≡ Some (record { icmp_type = 3; code = 4; «data» = 1400 }) }
{}

/// A ChannelData message with five bytes of data, in the layout of RFC 8656, section 12.4: alone, with
/// the padding of section 12.5, truncated, with too many bytes, on a channel of RFC 5766 (section 11),
/// and with a wrong first byte.
pub fn channel_data_is_right()
    ensures lawful { channel_fault (0x40 ∷ 0x00 ∷ 0x00 ∷ 0x05 ∷ codes "hello") ≡ None }
    ensures channel { channel_field (0x40 ∷ 0x01 ∷ 0x00 ∷ 0x05 ∷ codes "hello") ≡ 0x4001 }
    ensures length { data_length (0x40 ∷ 0x01 ∷ 0x00 ∷ 0x05 ∷ codes "hello") ≡ 5 }
    ensures padded { channel_fault (0x40 ∷ 0x00 ∷ 0x00 ∷ 0x05 ∷ codes "hello" ++ replicate 3 0) ≡ None }
    ensures cut { channel_fault (0x40 ∷ 0x00 ∷ 0x00 ∷ 0x05 ∷ codes "hell") ≡ Some (Truncated 9 8) }
    ensures longer { channel_fault (0x40 ∷ 0x00 ∷ 0x00 ∷ 0x05 ∷ codes "hello" ++ replicate 4 0) ≡ Some (TooLarge 12 13) }
    ensures followed { prefix_fault (0x40 ∷ 0x00 ∷ 0x00 ∷ 0x05 ∷ codes "hello" ++ replicate 4 0) ≡ None }
    ensures found { data_in (0x40 ∷ 0x00 ∷ 0x00 ∷ 0x05 ∷ codes "hello" ++ replicate 4 0) ≡ Some (codes "hello") }
    ensures old_channel { channel_fault_in Rfc5766 (0x67 ∷ 0x80 ∷ 0x00 ∷ 0x05 ∷ codes "hello") ≡ None }
    ensures no_channel { channel_fault (0x50 ∷ 0x00 ∷ 0x00 ∷ 0x05 ∷ codes "hello") ≡ Some NotChannelData }
{}

/// The protocol of a packet by its first byte, in the ranges of RFC 7983, section 7, and with the
/// channels of RFC 5766.
pub fn first_bytes_are_right()
    ensures stun { protocol 3 ≡ Some Stun }
    ensures none { protocol 4 ≡ None }
    ensures zrtp { protocol 16 ≡ Some Zrtp }
    ensures dtls { protocol 63 ≡ Some Dtls }
    ensures channel { protocol 64 ≡ Some TurnChannel }
    ensures channels { protocol 79 ≡ Some TurnChannel }
    ensures old_channels { protocol_in_range Rfc5766 127 ≡ Some TurnChannel }
    ensures rtp { protocol 191 ≡ Some Rtp }
{}

/// Priorities of pairs (RFC 8445, section 6.1.2.3), computed by Python of those of a host candidate and
/// a server-reflexive one in RFC 8839, of the PRIORITY in RFC 5769, section 2.1, and of the least and
/// the greatest priority.
pub fn pair_priorities_are_right()
    ensures controlling_higher { candidates_priority 2130706431 1694498815 ≡ 7277816997797167103 }
    ensures controlled_higher { candidates_priority 1694498815 2130706431 ≡ 7277816997797167102 }
    ensures equal { candidates_priority 2130706431 2130706431 ≡ 9151314442783293438 }
    ensures check { candidates_priority 1845494271 1694498815 ≡ 7277816997226742783 }
    ensures greatest_and_least { candidates_priority 2147483647 1 ≡ 8589934591 }
    ensures least_and_greatest { candidates_priority 1 2147483647 ≡ 8589934590 }
    ensures not_0 { pair_fault 1 0 ≡ Some (OutOfRange 0 1 2147483647) }
    ensures below_2_31 { pair_fault 2147483648 0 ≡ Some (OutOfRange 2147483648 1 2147483647) }
{}

/// The reason phrases of RFC 8489, section 14.8 (RFC 5389's for 401), of RFC 8656, section 19, of
/// RFC 6062, section 6.3, and of RFC 8445, section 20.2; and of codes that have none there.
pub fn reasons_are_right()
    ensures { map default_reason all_codes ≡ all_reasons }
{}

/// A stream with messages of RFC 5769 and ChannelData among them, in the layout of RFC 8656, section
/// 12.4, with the padding of section 12.5: how it is cut, what pieces of it yield, and what ends it;
/// and on channels of RFC 5766, section 11.
pub fn streams_are_right()
    ensures cut { IsCut with_channels whole_stream (sample_request ∷ padded_data ∷ ipv4_response ∷ []) [] }
    ensures yields { yielded (begun with_channels) pieces ≡ sample_request ∷ padded_data ∷ ipv4_response ∷ [] }
    ensures left { left_by (begun with_channels) pieces ≡ record { room = with_channels; offset = 200; pending = []; message = Some ipv4_response; error = None } }
    ensures length { stated_length padded_data ≡ 12 }
    ensures data_alone { stream_fault (room_of Messages 200) padded_data ≡ Some NotStun }
    ensures beyond_channels { stream_fault with_channels (0x50 ∷ []) ≡ Some NotStun }
    ensures not_padded { stream_fault with_channels (0x00 ∷ 0x01 ∷ 0x00 ∷ 0x06 ∷ []) ≡ Some (NotPadded 6) }
    ensures too_long { stream_fault (room_of Messages 107) sample_request ≡ Some (TooLong 108) }
    ensures data_too_long { stream_fault (room_of (ChannelDataToo Rfc8656) 11) padded_data ≡ Some (TooLong 12) }
    ensures old_length { stated_length (0x67 ∷ 0x80 ∷ 0x00 ∷ 0x05 ∷ []) ≡ 12 }
    ensures old_channel { stream_fault (room_of (ChannelDataToo Rfc5766) 200) (0x7F ∷ []) ≡ None }
    ensures old_too_long { stream_fault (room_of (ChannelDataToo Rfc5766) 11) (0x67 ∷ 0x80 ∷ 0x00 ∷ 0x05 ∷ []) ≡ Some (TooLong 12) }
    ensures beyond_old_channels { stream_fault (room_of (ChannelDataToo Rfc5766) 200) (0x80 ∷ []) ≡ Some NotStun }
{}

/// Which refusal comes first if two apply: of a response that a transaction begins with, that it is no
/// request; of a request that was sent too often and too late, that it was sent too often; and of an
/// error response without a code that shows an unknown attribute, that attribute.
pub fn first_refusals_are_right()
    ensures unsigned_response { (key : IntegrityKey) → begin_fault (ShortTerm key) unsigned_error ≡ Some NotARequest }
    ensures signed_response { begin_fault Unprotected ipv4_response ≡ Some NotARequest }
    ensures too_often { (parts : TransactionParts) → parts.mechanism ≡ None → parts.signed.sha1 ≡ false → parts.signed.sha256 ≡ false → nat_lt (requests_in parts.plan) parts.state.sent ≡ true → parts_fault parts ≡ Some SentTooOften }
    ensures unknown { content None [] unsigned_error ≡ Failed (UnknownAttribute (record { 0 = 0x7FFF })) }
    ensures understood { content None (record { 0 = 0x7FFF } ∷ []) unsigned_error ≡ Failed NoErrorCode }
{}

/// The rows of a server's checks under long-term credentials that need no key (RFC 8489, section
/// 9.2.4): each by a request to which it applies, and mostly a later one too. A server that has no key
/// for the user refuses with 401 what passes them.
pub fn long_term_rows_are_right()
    ensures fingerprint { long_term printed realm (λ _. unknown) nobody (unsigned 0x0011 []) ≡ discard }
    ensures class { long_term unprinted realm (λ _. unknown) nobody (unsigned 0x0011 []) ≡ not_a_request }
    ensures integrity { long_term unprinted realm (λ _. unknown) nobody (unsigned 0x0001 []) ≡ refuse Unauthenticated }
    ensures realm { long_term unprinted realm (λ _. stale) nobody (signed (canonical USERNAME user_name ∷ canonical NONCE [] ∷ [])) ≡ refuse BadRequest }
    ensures two_names { long_term unprinted realm (λ _. stale) nobody (signed (hashed ∷ unpromised [])) ≡ refuse BadRequest }
    ensures one_alone { long_term unprinted realm sent_with_both nobody (signed (promised (sha256_chosen ∷ []))) ≡ refuse BadRequest }
    ensures list_alone { long_term unprinted realm sent_with_both nobody (signed (promised (both_listed ∷ []))) ≡ refuse BadRequest }
    ensures other_list { long_term unprinted realm sent_with_both nobody (signed (promised (sha256_listed ∷ sha256_chosen ∷ []))) ≡ refuse BadRequest }
    ensures none_listed { long_term unprinted realm sent_with_md5 nobody (signed (promised (md5_listed ∷ sha256_chosen ∷ []))) ≡ refuse BadRequest }
    ensures unpromised { long_term unprinted realm sent_with_md5 nobody (signed (unpromised (sha256_listed ∷ []))) ≡ refuse Unauthenticated }
    ensures unknown_list { long_term unprinted realm (λ _. stale) nobody (signed (promised (sha256_listed ∷ sha256_chosen ∷ []))) ≡ refuse Unauthenticated }
{}

/// The rows that need the key, by the request of RFC 5769, section 2.4: without a key, with another
/// one, and with the user's; its nonce is valid, or was never sent.
pub fn long_term_keys_are_right()
    ensures no_key { long_term unprinted realm (λ _. stale) nobody long_term_request ≡ refuse Unauthenticated }
    ensures other_key { long_term unprinted realm (λ _. stale) (everybody other) long_term_request ≡ refuse Unauthenticated }
    ensures stale { long_term unprinted realm (λ _. stale) (everybody user) long_term_request ≡ refuse StaleNonce }
    ensures unknown { long_term unprinted realm (λ _. unknown) (everybody user) long_term_request ≡ refuse StaleNonce }
    ensures accepted { long_term unprinted realm (λ _. valid []) (everybody user) long_term_request ≡ accept (named user_name) user Sha1 Sha1 }
{}

/// The rows of a server's checks under short-term credentials (RFC 8489, section 9.1.3), the last
/// ones by the request of RFC 5769, section 2.1.
pub fn short_term_rows_are_right()
    ensures fingerprint { short_term printed (λ _. None) (unsigned 0x0101 []) ≡ discard }
    ensures class { short_term unprinted (λ _. None) (unsigned 0x0101 []) ≡ not_a_request }
    ensures integrity { short_term unprinted (λ _. None) (unsigned 0x0001 (canonical USERNAME user_name ∷ [])) ≡ refuse BadRequest }
    ensures username { short_term unprinted (λ _. None) (signed []) ≡ refuse BadRequest }
    ensures no_key { short_term unprinted (λ _. None) sample_request ≡ refuse Unauthenticated }
    ensures one_algorithm { short_term unprinted (λ _. Some (key_made (Some Sha256) password)) sample_request ≡ refuse BadRequest }
    ensures other_key { short_term unprinted (λ _. Some other) sample_request ≡ refuse Unauthenticated }
    ensures accepted { short_term printed (λ _. Some (key_made None password)) sample_request ≡ accept (named (codes "evtj:h6vY")) (key_made None password) Sha1 Sha1 }
{}
