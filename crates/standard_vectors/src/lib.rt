//! The definitions, checked against numbers from outside this repository: the messages of RFC 5769
//! and of RFC 8489, appendix B.1; the digests and HMACs that FIPS 180, RFC 1321, RFC 2202 and
//! RFC 4231 print; and messages that a Python program signed. The functions do nothing: the prover
//! computes what their contracts state.
#![tactic(auto)]

ghost use Rattle.std.specs.Prelude.{◌≡◌, [], ◌∷◌, ◌++◌, codes, take, drop, slice_range, replicate, None, Some, Ok, Err, false, map};
ghost use Rattle.sha1.specs.Sha1.{sha1};
ghost use Rattle.sha2.specs.Sha256.{sha256};
ghost use Rattle.md5.specs.Md5.{md5};
ghost use Rattle.stun_grammar.specs.declared.error.StunParseError.TheVariants.{NotStun, Truncated, TooLarge, MissingAttribute, InvalidAttributeData, FingerprintMismatch};
ghost use Rattle.stun_grammar.specs.declared.error.StunWriteError.TheVariants.{AttributeExists, FingerprintExists, MessageIntegrityExists, TooSmall, TooLarge as TooLargeToWrite};
ghost use Rattle.stun_grammar.specs.declared.error.ValidateError.TheVariants.{Parse};
ghost use Rattle.stun_grammar.specs.declared.integrity_algorithm.IntegrityAlgorithm.TheVariants.{Sha1, Sha256};
ghost use Rattle.stun_grammar.specs.AttributeTypes.{MAPPED_ADDRESS, USERNAME, MESSAGE_INTEGRITY, ERROR_CODE, UNKNOWN_ATTRIBUTES, REALM, NONCE, XOR_MAPPED_ADDRESS, SOFTWARE, ALTERNATE_SERVER, FINGERPRINT, MESSAGE_INTEGRITY_SHA256, PASSWORD_ALGORITHM, USERHASH, PASSWORD_ALGORITHMS, ALTERNATE_DOMAIN};
ghost use Rattle.stun_grammar.specs.Headers.{header_fault};
ghost use Rattle.stun_grammar.specs.Names.{attribute_name};
ghost use Rattle.stun_grammar.specs.Attributes.{types};
ghost use Rattle.stun_grammar.specs.Chains.{chain};
ghost use Rattle.stun_grammar.specs.ShownOrder.{IsInOrder};
ghost use Rattle.stun_grammar.specs.ScannedOrder.{in_any_order, IsInAnyOrder};
ghost use Rattle.stun_grammar.specs.Checksums.{crc};
ghost use Rattle.stun_grammar.specs.Parsing.{parse_fault};
ghost use Rattle.stun_grammar.specs.Hmac.{hmac};
ghost use Rattle.stun_grammar.specs.Verdicts.{is_checked_type, verdict};
ghost use Rattle.stun_grammar.specs.Authentic.{authentic, authentic_fingerprint, content};
ghost use Rattle.stun_grammar.specs.Carrying.{Carries};
ghost use Rattle.stun_grammar.specs.Steps.{add, finger};
ghost use Rattle.stun_grammar.specs.Adding.{room_refusal, add_refusal};
ghost use Rattle.stun_grammar.specs.Sending.{sent_encoding};
ghost use Rattle.stun_grammar.specs.Origin.{signed, IsUnsigned, ComesFrom};
ghost use Rattle.stun_base.specs.declared.message_class.MessageClass.TheVariants.{Request, Indication, Success, Error};
ghost use Rattle.stun_base.specs.MessageTypes.{type_of, class_of, method_of};
ghost use Rattle.stun_values.specs.declared.algorithm.PasswordAlgorithmValue.TheVariants.{MD5, SHA256};
ghost use Rattle.stun_values.specs.Addresses.{address_in, address_fault, address_value, IsXored};
ghost use Rattle.stun_values.specs.Algorithms.{algorithms_fault, algorithms_in, algorithms_encoding};
ghost use Rattle.stun_values.specs.ErrorValues.{error_fault, reported_code, error_value};
ghost use Rattle.stun_values.specs.Typed.{rule_of};
ghost use Rattle.stun_values.specs.TypeLists.{types_fault, types_in, types_encoding};
ghost use Rattle.standard_vectors.specs.Digests.{two_blocks, eighty_digits, sha1_of_abc, sha1_of_two_blocks, sha256_of_abc, sha256_of_two_blocks, md5_of_abc, md5_of_digits, question, long_key_text, sha1_case_1, sha1_case_2, sha1_case_6, sha256_case_1, sha256_case_2, sha256_case_6, sha1_of_64, sha1_of_65, sha256_of_64, sha256_of_65};
ghost use Rattle.standard_vectors.specs.Messages.{sample_request, ipv4_response, ipv6_response, long_term_request, sha256_request};
ghost use Rattle.standard_vectors.specs.Parameters.{password, user_name, realm, user_key, user_hash, sha256_hmac, check_id, user_id, mapped_ipv4, mapped_ipv6, sample_request_attributes, ipv4_response_attributes, ipv6_response_attributes, long_term_request_attributes, long_term_message, message_signed_twice, message_given};
ghost use Rattle.standard_vectors.specs.Right.{signed_text, IsRead, IsSigned, HasFingerprint, IsAnswered, IsShown, cut_to, followed_by, with_bytes, types_of, refusals_after, text_of_sha256, lengths_of};
ghost use Rattle.standard_vectors.specs.Tables.{all_types, all_rules, all_names};
ghost use Rattle.standard_vectors.specs.WrittenMessages.{full_sha256, short_sha256, signed_twice, sha1_of_16, sha256_of_12, sha256_of_18, sha256_of_36, integrity_fingerprint_sha256, sha256_integrity_fingerprint, sha256_fingerprint_integrity, fingerprint_integrity_sha256, fingerprint_sha256_integrity, integrity_software, fingerprint_alone, software, zero_fingerprint, cut_username};

/// The connectivity check of RFC 5769, section 2.1.
pub fn sample_request_is_right()
    ensures read { IsRead sample_request 0x0001 check_id sample_request_attributes }
    ensures signed { IsSigned sample_request (λ _. password) 76 }
    ensures fingerprint { HasFingerprint sample_request 100 (0xE5 ∷ 0x7A ∷ 0x3B ∷ 0xCF ∷ []) }
{}

/// The response with an IPv4 address of RFC 5769, section 2.2.
pub fn ipv4_response_is_right()
    ensures read { IsRead ipv4_response 0x0101 check_id ipv4_response_attributes }
    ensures signed { IsSigned ipv4_response (λ _. password) 48 }
    ensures fingerprint { HasFingerprint ipv4_response 72 (0xC0 ∷ 0x7D ∷ 0x4C ∷ 0x96 ∷ []) }
{}

/// The response with an IPv6 address of RFC 5769, section 2.3.
pub fn ipv6_response_is_right()
    ensures read { IsRead ipv6_response 0x0101 check_id ipv6_response_attributes }
    ensures signed { IsSigned ipv6_response (λ _. password) 60 }
    ensures fingerprint { HasFingerprint ipv6_response 84 (0xC8 ∷ 0xFB ∷ 0x0B ∷ 0x4C ∷ []) }
{}

/// The request with long-term credentials of RFC 5769, section 2.4.
pub fn long_term_request_is_right()
    ensures read { IsRead long_term_request 0x0001 user_id long_term_request_attributes }
    ensures signed { IsSigned long_term_request user_key 92 }
{}

/// The request of RFC 8489, appendix B.1. Its length field also counts the header, so the message is
/// rejected; its HMAC, over the bytes as printed, and its userhash are right.
pub fn sha256_request_is_right()
    ensures refused { parse_fault sha256_request ≡ Some (Truncated 176 156) }
    ensures attributes { types (chain (drop 20 sha256_request)) ≡ USERHASH ∷ NONCE ∷ REALM ∷ MESSAGE_INTEGRITY_SHA256 ∷ [] }
    ensures signed { hmac Sha256 (user_key Sha256) (take 120 sha256_request) ≡ sha256_hmac }
    ensures carried { slice_range sha256_request 124 156 ≡ sha256_hmac }
    ensures userhash { sha256 (user_name ++ (codes ":" ++ realm)) ≡ user_hash }
{}

/// What the HMAC of RFC 5769, section 2.1, authenticates: type, transaction ID and the attributes up to
/// MESSAGE-INTEGRITY; and the FINGERPRINT that follows.
pub fn authenticated_content_is_right()
    ensures content { authentic (signed_text sample_request 76) password Sha1 ≡ record { type = 0x0001; id = check_id; attributes = take 5 sample_request_attributes } }
    ensures fingerprint { authentic_fingerprint (signed_text sample_request 76) password Sha1 ≡ record { offset = 100; type = FINGERPRINT; value = 0xE5 ∷ 0x7A ∷ 0x3B ∷ 0xCF ∷ [] } }
{}

/// The XORed addresses of the two responses of RFC 5769.
pub fn mapped_addresses_are_right()
    ensures ipv4 { IsXored check_id mapped_ipv4 (address_in (slice_range ipv4_response 40 48)) }
    ensures ipv6 { IsXored check_id mapped_ipv6 (address_in (slice_range ipv6_response 40 60)) }
{}

/// The check value of CRC-32, the checksum of the digits from 1 to 9.
pub fn check_value_is_right()
    ensures { crc (codes "123456789") ≡ 0xCBF43926 }
{}

/// SHA-1 and SHA-256 of one block and of two blocks, from FIPS 180; MD5 of one and of two, from
/// RFC 1321.
pub fn digests_are_right()
    ensures sha1_short { sha1 (codes "abc") ≡ sha1_of_abc }
    ensures sha1_long { sha1 two_blocks ≡ sha1_of_two_blocks }
    ensures sha256_short { sha256 (codes "abc") ≡ sha256_of_abc }
    ensures sha256_long { sha256 two_blocks ≡ sha256_of_two_blocks }
    ensures md5_short { md5 (codes "abc") ≡ md5_of_abc }
    ensures md5_long { md5 eighty_digits ≡ md5_of_digits }
{}

/// HMACs with keys shorter than a block: test cases 1 and 2 of RFC 2202, section 3, and of RFC 4231,
/// section 4.
pub fn hmacs_of_short_keys_are_right()
    ensures sha1_of_20 { hmac Sha1 (replicate 20 0x0B) (codes "Hi There") ≡ sha1_case_1 }
    ensures sha1_of_4 { hmac Sha1 (codes "Jefe") question ≡ sha1_case_2 }
    ensures sha256_of_20 { hmac Sha256 (replicate 20 0x0B) (codes "Hi There") ≡ sha256_case_1 }
    ensures sha256_of_4 { hmac Sha256 (codes "Jefe") question ≡ sha256_case_2 }
{}

/// HMACs with keys longer than a block, which are digested first: test case 6 of RFC 2202 (80 bytes)
/// and of RFC 4231 (131 bytes). Keys of 64 and 65 bytes, from Python's hmac.
pub fn hmacs_of_long_keys_are_right()
    ensures sha1_of_80 { hmac Sha1 (replicate 80 0xAA) long_key_text ≡ sha1_case_6 }
    ensures sha256_of_131 { hmac Sha256 (replicate 131 0xAA) long_key_text ≡ sha256_case_6 }
    ensures sha1_of_block { hmac Sha1 (replicate 64 0x6B) (codes "abc") ≡ sha1_of_64 }
    ensures sha1_of_more { hmac Sha1 (replicate 65 0x6B) (codes "abc") ≡ sha1_of_65 }
    ensures sha256_of_block { hmac Sha256 (replicate 64 0x6B) (codes "abc") ≡ sha256_of_64 }
    ensures sha256_of_more { hmac Sha256 (replicate 65 0x6B) (codes "abc") ≡ sha256_of_65 }
{}

/// A MESSAGE-INTEGRITY-SHA256 of 32 bytes, and one truncated to the minimum of 16 (RFC 8489, section
/// 14.6).
pub fn sha256_lengths_are_right()
    ensures full { IsAnswered full_sha256 (SOFTWARE ∷ MESSAGE_INTEGRITY_SHA256 ∷ []) (Ok Sha256) }
    ensures short { IsAnswered short_sha256 (SOFTWARE ∷ MESSAGE_INTEGRITY_SHA256 ∷ FINGERPRINT ∷ []) (Ok Sha256) }
    ensures not_sha1 { verdict (is_checked_type (Some Sha1)) (λ _. password) full_sha256 ≡ Err (Parse (MissingAttribute (record { 0 = MESSAGE_INTEGRITY }))) }
{}

/// If a message has both integrity attributes, MESSAGE-INTEGRITY-SHA256 is checked; with a key made
/// for one algorithm, the attribute of that algorithm.
pub fn two_integrities_are_right()
    ensures both { IsAnswered signed_twice (SOFTWARE ∷ MESSAGE_INTEGRITY ∷ MESSAGE_INTEGRITY_SHA256 ∷ FINGERPRINT ∷ []) (Ok Sha256) }
    ensures by_sha1 { verdict (is_checked_type (Some Sha1)) (λ _. password) signed_twice ≡ Ok Sha1 }
    ensures by_sha256 { verdict (is_checked_type (Some Sha256)) (λ _. password) signed_twice ≡ Ok Sha256 }
{}

/// A MESSAGE-INTEGRITY has 20 bytes, a MESSAGE-INTEGRITY-SHA256 a multiple of 4 from 16 to 32
/// (RFC 8489, sections 14.5 and 14.6).
pub fn other_lengths_are_refused()
    ensures sha1_cut { IsAnswered sha1_of_16 (MESSAGE_INTEGRITY ∷ []) (Err (Parse (Truncated 20 16))) }
    ensures sha256_cut { IsAnswered sha256_of_12 (MESSAGE_INTEGRITY_SHA256 ∷ []) (Err (Parse (Truncated 16 12))) }
    ensures sha256_odd { IsAnswered sha256_of_18 (MESSAGE_INTEGRITY_SHA256 ∷ []) (Err (Parse InvalidAttributeData)) }
    ensures sha256_long { IsAnswered sha256_of_36 (MESSAGE_INTEGRITY_SHA256 ∷ []) (Err (Parse (TooLarge 32 36))) }
{}

/// Attributes out of the order of RFC 8489, sections 14.5 to 14.7, are ignored: of each wrong order
/// of the three, the longest part in order is shown and validated.
pub fn other_orders_are_cut_off()
    ensures integrity_fingerprint { IsAnswered integrity_fingerprint_sha256 (MESSAGE_INTEGRITY ∷ FINGERPRINT ∷ []) (Ok Sha1) }
    ensures sha256_integrity { IsAnswered sha256_integrity_fingerprint (MESSAGE_INTEGRITY_SHA256 ∷ []) (Ok Sha256) }
    ensures sha256_fingerprint { IsAnswered sha256_fingerprint_integrity (MESSAGE_INTEGRITY_SHA256 ∷ FINGERPRINT ∷ []) (Ok Sha256) }
    ensures fingerprint_integrity { IsAnswered fingerprint_integrity_sha256 (FINGERPRINT ∷ []) (Err (Parse (MissingAttribute (record { 0 = MESSAGE_INTEGRITY })))) }
    ensures fingerprint_sha256 { IsAnswered fingerprint_sha256_integrity (FINGERPRINT ∷ []) (Err (Parse (MissingAttribute (record { 0 = MESSAGE_INTEGRITY })))) }
    ensures ordinary { IsAnswered integrity_software (MESSAGE_INTEGRITY ∷ []) (Ok Sha1) }
{}

/// Messages of RFC 5769 that are cut off: after whole attributes it is no fault; in an attribute, what
/// is wanted is the end that its header states, or of its header four bytes more than both numbers
/// have.
pub fn cut_attributes_are_right()
    ensures between { parse_fault (cut_to sample_request 40) ≡ None }
    ensures header { parse_fault (cut_to sample_request 42) ≡ Some (Truncated 48 46) }
    ensures value { parse_fault (cut_to sample_request 70) ≡ Some (Truncated 73 70) }
    ensures padding { parse_fault (cut_to sample_request 74) ≡ Some (Truncated 76 74) }
    ensures last { parse_fault (followed_by long_term_request cut_username) ≡ Some (Truncated 129 121) }
{}

/// What follows MESSAGE-INTEGRITY is ignored, but MESSAGE-INTEGRITY-SHA256 and FINGERPRINT; what follows
/// MESSAGE-INTEGRITY-SHA256, but FINGERPRINT; and what follows FINGERPRINT (RFC 8489, sections 14.5 to
/// 14.7): messages of RFC 5769 and of Python, and an attribute after them.
pub fn what_follows_is_ignored()
    ensures integrity { IsShown (followed_by long_term_request software) long_term_request_attributes user_key Sha1 }
    ensures sha256 { IsAnswered (followed_by full_sha256 software) (SOFTWARE ∷ MESSAGE_INTEGRITY_SHA256 ∷ []) (Ok Sha256) }
    ensures fingerprint { IsShown (followed_by ipv4_response software) ipv4_response_attributes (λ _. password) Sha1 }
    ensures in_order { IsInOrder (USERNAME ∷ SOFTWARE ∷ MESSAGE_INTEGRITY ∷ MESSAGE_INTEGRITY_SHA256 ∷ FINGERPRINT ∷ []) }
{}

/// Parsing checks a FINGERPRINT that follows or precedes the integrity attributes in any order, also
/// one that isn't shown. At an ordinary attribute after an ending one, and at a second one of a type,
/// it stops: neither a FINGERPRINT after that nor an attribute that is cut off is looked at.
pub fn scanned_orders_are_right()
    ensures any { IsInAnyOrder (USERNAME ∷ MESSAGE_INTEGRITY_SHA256 ∷ FINGERPRINT ∷ MESSAGE_INTEGRITY ∷ []) }
    ensures ordinary { in_any_order (MESSAGE_INTEGRITY ∷ SOFTWARE ∷ []) ≡ false }
    ensures twice { in_any_order (FINGERPRINT ∷ MESSAGE_INTEGRITY ∷ FINGERPRINT ∷ []) ≡ false }
    ensures last { parse_fault (with_bytes sha256_integrity_fingerprint 64 zero_fingerprint) ≡ Some FingerprintMismatch }
    ensures first { parse_fault (with_bytes fingerprint_sha256_integrity 20 zero_fingerprint) ≡ Some FingerprintMismatch }
    ensures after_ordinary { parse_fault (followed_by integrity_software zero_fingerprint) ≡ None }
    ensures second { parse_fault (followed_by ipv4_response zero_fingerprint) ≡ None }
    ensures cut { parse_fault (followed_by integrity_software cut_username) ≡ None }
{}

/// Which steps may follow a message without attributes, with MESSAGE-INTEGRITY, with
/// MESSAGE-INTEGRITY-SHA256 and with FINGERPRINT, by the order of RFC 8489, sections 14.5 to 14.7.
pub fn blocked_steps_are_right()
    ensures none { refusals_after [] ≡ None ∷ None ∷ None ∷ None ∷ [] }
    ensures integrity { refusals_after (types_of long_term_request) ≡ Some MessageIntegrityExists ∷ Some (AttributeExists (record { 0 = MESSAGE_INTEGRITY })) ∷ None ∷ None ∷ [] }
    ensures sha256 { refusals_after (types_of full_sha256) ≡ Some MessageIntegrityExists ∷ Some (AttributeExists (record { 0 = MESSAGE_INTEGRITY_SHA256 })) ∷ Some (AttributeExists (record { 0 = MESSAGE_INTEGRITY_SHA256 })) ∷ None ∷ [] }
    ensures fingerprint { refusals_after (types_of fingerprint_alone) ≡ Some FingerprintExists ∷ Some FingerprintExists ∷ Some FingerprintExists ∷ Some (AttributeExists (record { 0 = FINGERPRINT })) ∷ [] }
    ensures both { refusals_after (types_of ipv4_response) ≡ Some MessageIntegrityExists ∷ Some (AttributeExists (record { 0 = MESSAGE_INTEGRITY })) ∷ Some FingerprintExists ∷ Some (AttributeExists (record { 0 = FINGERPRINT })) ∷ [] }
{}

/// A message has at most 65,552 bytes: the length field, of two bytes, counts what follows the header,
/// a multiple of 4 (RFC 8489, section 5). A writer into a slice takes as many as it has room for.
pub fn greatest_lengths_are_right()
    ensures greatest { room_refusal 65548 None 65552 ≡ None }
    ensures beyond { room_refusal 65552 None 65556 ≡ Some (TooLargeToWrite 65555 65556) }
    ensures empty_value { add_refusal (add SOFTWARE []) (SOFTWARE ∷ []) 65548 None ≡ None }
    ensures no_room_left { add_refusal (add SOFTWARE []) (SOFTWARE ∷ []) 65552 None ≡ Some (TooLargeToWrite 65555 65556) }
    ensures room { add_refusal finger (USERNAME ∷ []) 32 (Some 40) ≡ None }
    ensures no_room { add_refusal finger (USERNAME ∷ []) 32 (Some 39) ≡ Some (TooSmall 40 39) }
    ensures padded { add_refusal (add SOFTWARE (codes "other")) [] 20 (Some 31) ≡ Some (TooSmall 32 31) }
    ensures both { room_refusal 65552 (Some 65555) 65556 ≡ Some (TooSmall 65556 65555) }
    ensures no_header { room_refusal 19 None 27 ≡ Some (TooSmall 20 19) }
    ensures order_first { add_refusal (add SOFTWARE []) (MESSAGE_INTEGRITY ∷ []) 65552 None ≡ Some MessageIntegrityExists }
{}

/// What is signed in a message with all three ending attributes, written step by step: by each
/// algorithm and key, the bytes before the integrity attribute and the attributes through it, as if
/// the attribute is given the HMAC with the key, and not if it is given another one; that the
/// content of its bytes comes from it, and other content doesn't; and that SHA-256 alone signed the
/// bytes that the second attribute covers.
pub fn signatures_are_right()
    ensures sha1 { signed message_signed_twice password Sha1 ≡ record { covered = signed_text signed_twice 32; through = chain (slice_range signed_twice 20 56) } ∷ [] }
    ensures sha256 { signed message_signed_twice password Sha256 ≡ record { covered = text_of_sha256; through = chain (slice_range signed_twice 20 92) } ∷ [] }
    ensures other_key { signed message_signed_twice (codes "other") Sha1 ≡ [] }
    ensures given { signed (message_given (slice_range signed_twice 36 56) []) password Sha1 ≡ record { covered = signed_text signed_twice 32; through = chain (slice_range signed_twice 20 56) } ∷ [] }
    ensures other_given { signed (message_given (slice_range signed_twice 60 80) []) password Sha1 ≡ [] }
    ensures origin { ComesFrom (message_signed_twice ∷ []) password Sha256 text_of_sha256 (content signed_twice) }
    ensures other_content { ¬ (ComesFrom (message_signed_twice ∷ []) password Sha256 text_of_sha256 (content ipv4_response)) }
    ensures was_signed { ¬ (IsUnsigned (message_signed_twice ∷ []) password Sha256 text_of_sha256) }
    ensures unsigned { IsUnsigned (message_signed_twice ∷ []) password Sha1 text_of_sha256 }
{}

/// The request of RFC 5769, section 2.1, carries the bytes before its MESSAGE-INTEGRITY and their HMAC.
pub fn carried_content_is_right()
    ensures { Carries sample_request (signed_text sample_request 76) password Sha1 }
{}

/// What the value of each type has to be (RFC 8489, sections 14.3 to 14.16), the least and greatest
/// lengths of each fixed form, and types that have no rule.
pub fn rules_of_types_are_right()
    ensures rules { map rule_of all_types ≡ all_rules }
    ensures hmac { lengths_of MESSAGE_INTEGRITY (19 ∷ 20 ∷ 21 ∷ []) ≡ Some (Truncated 20 19) ∷ None ∷ Some (TooLarge 20 21) ∷ [] }
    ensures hash { lengths_of USERHASH (31 ∷ 32 ∷ 33 ∷ []) ≡ Some (Truncated 32 31) ∷ None ∷ Some (TooLarge 32 33) ∷ [] }
    ensures checksum { lengths_of FINGERPRINT (3 ∷ 4 ∷ 5 ∷ []) ≡ Some (Truncated 4 3) ∷ None ∷ Some (TooLarge 4 5) ∷ [] }
{}

/// The name of each type (RFC 8489, section 18.3), and of one that no RFC assigns.
pub fn names_of_types_are_right()
    ensures { map attribute_name all_types ≡ all_names }
{}

/// The steps that write the request of RFC 5769, section 2.4, and a message with all three ending
/// attributes.
pub fn steps_are_right()
    ensures long_term { sent_encoding long_term_message ≡ long_term_request }
    ensures both { sent_encoding message_signed_twice ≡ signed_twice }
{}

/// The first byte and the magic cookie distinguish STUN from other protocols (RFC 8489, sections 5
/// and 6.3).
pub fn headers_are_right()
    ensures channel { header_fault (0x40 ∷ drop 1 sample_request) ≡ Some NotStun }
    ensures no_cookie { header_fault (take 4 sample_request ++ replicate 4 0 ++ drop 8 sample_request) ≡ Some NotStun }
    ensures begun { header_fault (take 7 sample_request) ≡ Some (Truncated 20 7) }
    ensures begun_otherwise { header_fault (take 4 sample_request ++ 0x20 ∷ []) ≡ Some NotStun }
{}

/// The numbers of the attribute types (RFC 8489, section 18.3).
pub fn attribute_types_are_right()
    ensures { MAPPED_ADDRESS ∷ USERNAME ∷ MESSAGE_INTEGRITY ∷ ERROR_CODE ∷ UNKNOWN_ATTRIBUTES ∷ REALM ∷ NONCE ∷ XOR_MAPPED_ADDRESS ∷ SOFTWARE ∷ ALTERNATE_SERVER ∷ FINGERPRINT ∷ MESSAGE_INTEGRITY_SHA256 ∷ PASSWORD_ALGORITHM ∷ USERHASH ∷ PASSWORD_ALGORITHMS ∷ ALTERNATE_DOMAIN ∷ [] ≡ 0x0001 ∷ 0x0006 ∷ 0x0008 ∷ 0x0009 ∷ 0x000A ∷ 0x0014 ∷ 0x0015 ∷ 0x0020 ∷ 0x8022 ∷ 0x8023 ∷ 0x8028 ∷ 0x001C ∷ 0x001D ∷ 0x001E ∷ 0x8002 ∷ 0x8003 ∷ [] }
{}

/// The bits of class and method, in the order of the figure in RFC 8489, section 5.
pub fn message_types_are_right()
    ensures binding_request { type_of Request 0x001 ≡ 0x0001 }
    ensures binding_indication { type_of Indication 0x001 ≡ 0x0011 }
    ensures binding_success { type_of Success 0x001 ≡ 0x0101 }
    ensures binding_error { type_of Error 0x001 ≡ 0x0111 }
    ensures high_bits { type_of Error 0xABC ≡ 0x2B7C }
    ensures class_read { class_of 0x2B7C ≡ Error }
    ensures method_read { method_of 0x2B7C ≡ 0xABC }
{}

/// The IPv4 address of RFC 5769 in the layout of RFC 8489, section 14.1, and values that are no
/// address.
pub fn plain_addresses_are_right()
    ensures read { address_in (0x00 ∷ 0x01 ∷ 0x80 ∷ 0x55 ∷ 0xC0 ∷ 0x00 ∷ 0x02 ∷ 0x01 ∷ []) ≡ mapped_ipv4 }
    ensures written { address_value mapped_ipv4 ≡ 0x00 ∷ 0x01 ∷ 0x80 ∷ 0x55 ∷ 0xC0 ∷ 0x00 ∷ 0x02 ∷ 0x01 ∷ [] }
    ensures no_family { address_fault (0x00 ∷ 0x03 ∷ 0x80 ∷ 0x55 ∷ 0xC0 ∷ 0x00 ∷ 0x02 ∷ 0x01 ∷ []) ≡ Some InvalidAttributeData }
    ensures half_ipv6 { address_fault (0x00 ∷ 0x02 ∷ 0x80 ∷ 0x55 ∷ 0xC0 ∷ 0x00 ∷ 0x02 ∷ 0x01 ∷ []) ≡ Some (Truncated 20 8) }
{}

/// Code 420 in the layout of RFC 8489, section 14.8, and values that are no error code.
pub fn error_codes_are_right()
    ensures lawful { error_fault (0x00 ∷ 0x00 ∷ 0x04 ∷ 0x14 ∷ codes "Unknown Attribute") ≡ None }
    ensures code { reported_code (0x00 ∷ 0x00 ∷ 0x04 ∷ 0x14 ∷ codes "Unknown Attribute") ≡ 420 }
    ensures written { error_value 420 (codes "Unknown Attribute") ≡ 0x00 ∷ 0x00 ∷ 0x04 ∷ 0x14 ∷ codes "Unknown Attribute" }
    ensures no_class { error_fault (0x00 ∷ 0x00 ∷ 0x02 ∷ 0x14 ∷ []) ≡ Some InvalidAttributeData }
    ensures no_number { error_fault (0x00 ∷ 0x00 ∷ 0x04 ∷ 0x64 ∷ []) ≡ Some InvalidAttributeData }
{}

/// An UNKNOWN-ATTRIBUTES that lists PRIORITY and ICE-CONTROLLED (RFC 8489, section 14.13).
pub fn type_lists_are_right()
    ensures lawful { types_fault (0x00 ∷ 0x24 ∷ 0x80 ∷ 0x29 ∷ []) ≡ None }
    ensures read { types_in (0x00 ∷ 0x24 ∷ 0x80 ∷ 0x29 ∷ []) ≡ 0x0024 ∷ 0x8029 ∷ [] }
    ensures written { types_encoding (record { 0 = 0x0024 } ∷ record { 0 = 0x8029 } ∷ []) ≡ 0x00 ∷ 0x24 ∷ 0x80 ∷ 0x29 ∷ [] }
    ensures odd { types_fault (0x00 ∷ 0x24 ∷ 0x80 ∷ []) ≡ Some (Truncated 4 3) }
{}

/// A PASSWORD-ALGORITHMS that lists SHA-256 and MD5, with their numbers from RFC 8489, section 18.5.1;
/// an unknown number; and parameters, which neither algorithm has.
pub fn password_algorithms_are_right()
    ensures lawful { algorithms_fault (0x00 ∷ 0x02 ∷ 0x00 ∷ 0x00 ∷ 0x00 ∷ 0x01 ∷ 0x00 ∷ 0x00 ∷ []) ≡ None }
    ensures read { algorithms_in (0x00 ∷ 0x02 ∷ 0x00 ∷ 0x00 ∷ 0x00 ∷ 0x01 ∷ 0x00 ∷ 0x00 ∷ []) ≡ SHA256 ∷ MD5 ∷ [] }
    ensures written { algorithms_encoding (SHA256 ∷ MD5 ∷ []) ≡ 0x00 ∷ 0x02 ∷ 0x00 ∷ 0x00 ∷ 0x00 ∷ 0x01 ∷ 0x00 ∷ 0x00 ∷ [] }
    ensures unknown { algorithms_fault (0x00 ∷ 0x03 ∷ 0x00 ∷ 0x00 ∷ []) ≡ Some InvalidAttributeData }
    ensures parameters { algorithms_fault (0x00 ∷ 0x02 ∷ 0x00 ∷ 0x04 ∷ 0x00 ∷ 0x00 ∷ 0x00 ∷ 0x00 ∷ []) ≡ Some (TooLarge 4 8) }
{}
