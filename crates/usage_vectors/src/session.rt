//! A whole session of a TURN server, from the first 401 to the end of the allocation.

ghost use Rattle.std.specs.Prelude.{◌≡◌, [], ◌∷◌, codes, None, Some};
ghost use Rattle.stun_grammar.specs.declared.integrity_algorithm.IntegrityAlgorithm.TheVariants.{Sha1};
ghost use Rattle.stun_keys.specs.Keys.{long_term_key};
ghost use Rattle.turn_server.specs.declared.access.Access.{Access};
ghost use Rattle.turn_server.specs.Datagrams.{kept};
ghost use Rattle.usage_vectors.specs.SessionOctets.{allocate_unsigned, answer_1, allocate, answer_2, permit, answer_3, bind, answer_4, send, channel_data, answer_5, answer_6, refresh_stale, answer_7, refresh, answer_8, refresh_again, answer_9, send_again};
ghost use Rattle.usage_vectors.specs.TurnSession.{example_realm, alice_key, at_first, later, channel_peer, other_port, Answers, Sends, Drops, Delivers, IsServer, setup, session_moments, nothing_kept, challenged, allocated, permitted, bound, aged, ended};

/// A session by MD5 over UDP, octet by octet, as a Python model of RFC 8656 wrote it: a 401, an allocation, a
/// permission and a channel; data to a peer by Send and by ChannelData, and from a peer in a Data indication and on
/// the channel; 601 seconds later a 438, Refresh with a lifetime of 0, and without the allocation a 437 and a Send
/// indication that is dropped. A clause is an event: what the server sends, and what it keeps after it. The last
/// one is the state after all events.
pub fn turn_session_is_right()
    ensures key { long_term_key Sha1 (codes "alice") example_realm (codes "wonderland") ≡ alice_key }
    ensures challenge { Answers at_first nothing_kept allocate_unsigned (Some 401) answer_1 challenged [] }
    ensures allocate { Answers at_first challenged allocate None answer_2 allocated [] }
    ensures permit { Answers at_first allocated permit None answer_3 permitted [] }
    ensures bind { Answers at_first permitted bind None answer_4 bound [] }
    ensures send { Sends at_first bound send (codes "hello") }
    ensures channel_data { Sends at_first bound channel_data (codes "hello") }
    ensures indication { Delivers at_first bound other_port (codes "to all") None answer_5 }
    ensures on_channel { Delivers at_first bound channel_peer (codes "to you") (Some 0x4000) answer_6 }
    ensures stale { Answers later bound refresh_stale (Some 438) answer_7 aged [] }
    ensures refresh { Answers later aged refresh None answer_8 ended (1 ∷ []) }
    ensures again { Answers later ended refresh_again (Some 437) answer_9 ended [] }
    ensures send_again { Drops later ended send_again }
    ensures whole { (access : Access) → IsServer access → kept setup (session_moments access) ≡ ended }
{}
