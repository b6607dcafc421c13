//! Laws of authentication. Each function does nothing: its contract is the law.

ghost use Rattle.std.specs.Prelude.{◌≡◌, ◌&&◌, ◌≢◌, ◌<◌, ◌≤◌, ◌+◌, ◌%◌, ◌^◌, ℕ, ◌*◌, ◌++◌, List, [], ◌∷◌, length, if◌then◌else◌, true, false, Option, Some, None, IsSomeAnd};
ghost use Rattle.std.specs.Option.{option_map_or};
ghost use Rattle.std.specs.List.{AllByRecursion};
ghost use Rattle.stun_grammar.specs.declared.integrity_algorithm.IntegrityAlgorithm.{IntegrityAlgorithm};
ghost use Rattle.stun_grammar.specs.Accepting.{IsAuthentic, IsAuthenticThrough};
ghost use Rattle.stun_grammar.specs.Numbers.{IsBytes, padded_length};
ghost use Rattle.stun_grammar.specs.Parsing.{parse_fault};
ghost use Rattle.stun_grammar.specs.Verdicts.{is_checked_type};
ghost use Rattle.stun_values.specs.declared.algorithm.PasswordAlgorithmValue.{PasswordAlgorithmValue};
ghost use Rattle.stun_authentication.specs.declared.cookie.SecurityFeatures.{SecurityFeatures};
ghost use Rattle.stun_authentication.specs.declared.policy.Policy.{Policy};
ghost use Rattle.stun_authentication.specs.declared.nonces.Freshness.TheVariants.{Fresh, Stale, Unknown};
ghost use Rattle.stun_values.specs.TextValues.{text_max, text_fault};
ghost use Rattle.stun_authentication.specs.Nonces.{Minting, minted, minted_mac, first_bits, stated_time, freshness, is_qdtext};
ghost use Rattle.stun_authentication.specs.Accepted.{IsUsers, IsLogin};
ghost use Rattle.stun_authentication.specs.Answers.{accept};
ghost use Rattle.stun_authentication.specs.Cookies.{cookie, security_features};
ghost use Rattle.stun_authentication.specs.Identities.{Who};
ghost use Rattle.stun_authentication.specs.Lookups.{Known, UserKey};
ghost use Rattle.stun_authentication.specs.LongTerm.{long_term};
ghost use Rattle.stun_authentication.specs.Policies.{counted, is_fingerprinted};
ghost use Rattle.stun_authentication.specs.Refusing.{login_asked};
ghost use Rattle.stun_authentication.specs.ShortTerm.{short_term};

/// A nonce that begins with a nonce cookie has the features of that cookie, whatever follows.
pub fn cookie_is_read()
    ensures { (features : SecurityFeatures) (more : List ℕ)
        → security_features (cookie features ++ more) ≡ Some features }
{}

/// An integrity attribute counts with a user's key exactly if its type is one of those that the
/// policy looks at, and one of those that a validation with the key looks at.
#[tactic(auto, using(crate::proofs::CountedLemmas::common_types))]
pub fn what_counts_serves_both()
    ensures { (policy : Policy) (made_for : Option IntegrityAlgorithm) (atype : ℕ)
        → option_map_or (λ served. is_checked_type served atype) (counted policy made_for) false
        ≡ (is_checked_type policy.algorithm atype && is_checked_type made_for atype) }
{}

/// A message that is accepted is its sender's: type, transaction ID and what is shown are authentic
/// under the key of the user who is reported, by the algorithm that was answered. If only one
/// algorithm serves both the policy and the key, this holds of what is shown through its integrity
/// attribute. The user is the one whom the message names, the key is the one that the look-up has
/// for that user, it works with the algorithm that was answered, and this one serves the policy;
/// its HMAC is as long as the policy asks, and under long-term credentials its nonce is valid, and
/// its password algorithm is one of those that were sent with the nonce, unless it is processed as
/// though with MD5.
pub fn accepted_is_authentic()
    ensures users { (policy : Policy) (keys : List ℕ → Option UserKey) (d : List ℕ)
        (user : Who) (key : UserKey) (a reply : IntegrityAlgorithm)
        → short_term policy keys d ≡ accept user key a reply → IsUsers policy keys d user key a }
    ensures login { (policy : Policy) (realm : List ℕ) (nonces : List ℕ → Known)
        (keys : Who → List ℕ → PasswordAlgorithmValue → Option UserKey) (d : List ℕ)
        (user : Who) (key : UserKey) (a reply : IntegrityAlgorithm)
        → long_term policy realm nonces keys d ≡ accept user key a reply
        → IsLogin policy realm nonces keys d user key a reply }
    ensures short_term { (policy : Policy) (keys : List ℕ → Option UserKey) (d : List ℕ)
        (user : Who) (key : UserKey) (a reply : IntegrityAlgorithm)
        → IsBytes d → parse_fault d ≡ None → short_term policy keys d ≡ accept user key a reply
        → IsSomeAnd (counted policy key.made_for)
        (λ served. IsAuthenticThrough served (λ _. key.bytes) d a) }
    ensures long_term { (policy : Policy) (realm : List ℕ) (nonces : List ℕ → Known)
        (keys : Who → List ℕ → PasswordAlgorithmValue → Option UserKey) (d : List ℕ)
        (user : Who) (key : UserKey) (a reply : IntegrityAlgorithm)
        → IsBytes d → parse_fault d ≡ None
        → long_term policy realm nonces keys d ≡ accept user key a reply
        → IsSomeAnd (counted policy key.made_for)
        (λ served. IsAuthenticThrough served (λ _. key.bytes) d a) }
    // if both algorithms serve, of the whole message
    ensures short_term_whole { (policy : Policy) (keys : List ℕ → Option UserKey) (d : List ℕ)
        (user : Who) (key : UserKey) (a reply : IntegrityAlgorithm)
        → IsBytes d → parse_fault d ≡ None → counted policy key.made_for ≡ Some None
        → short_term policy keys d ≡ accept user key a reply → IsAuthentic (λ _. key.bytes) d a }
    ensures long_term_whole { (policy : Policy) (realm : List ℕ) (nonces : List ℕ → Known)
        (keys : Who → List ℕ → PasswordAlgorithmValue → Option UserKey) (d : List ℕ)
        (user : Who) (key : UserKey) (a reply : IntegrityAlgorithm)
        → IsBytes d → parse_fault d ≡ None → counted policy key.made_for ≡ Some None
        → long_term policy realm nonces keys d ≡ accept user key a reply
        → IsAuthentic (λ _. key.bytes) d a }
{}

/// A nonce of a [`NonceMaker`](crate::NonceMaker) has 35 bytes, which are characters that a NONCE may
/// have (RFC 8489, section 14.10), begins with the cookie of its server's features, and has the last
/// 36 bits of the time at which it was made.
pub fn nonces_are_texts()
    ensures size { (minting : Minting) (time : ℕ) (place : List ℕ)
        → length (minted minting time place) ≡ 35 }
    ensures characters { (minting : Minting) (time : ℕ) (place : List ℕ)
        → AllByRecursion (λ c. is_qdtext c ≡ true) (minted minting time place) }
    ensures text { (minting : Minting) (time : ℕ) (place : List ℕ)
        → text_fault text_max (minted minting time place) ≡ None }
    ensures features { (minting : Minting) (time : ℕ) (place : List ℕ)
        → security_features (minted minting time place) ≡ Some minting.features }
    ensures time { (minting : Minting) (time : ℕ) (place : List ℕ)
        → stated_time (minted minting time place) ≡ time % 2 ^ 36 }
{
    cookie_is_read();
}

/// A nonce of a [`NonceMaker`](crate::NonceMaker) is valid from the time at which it was made until
/// its window is over, for the client that it was made for. It is stale after its window, until 2^36
/// seconds (2,177 years) after its time, and before its time, from 2^36 seconds before the end of
/// its window on. What is valid or stale is the nonce that the server made for that client at that
/// time; so one that was made under another secret, with other features or for another client is
/// unknown, unless the first 96 bits of the two HMACs are equal.
pub fn nonces_are_timed()
    ensures valid { (minting : Minting) (time now : ℕ) (place : List ℕ)
        → time ≤ now → now ≤ time + minting.window
        → freshness minting now place (minted minting time place) ≡ Fresh }
    ensures over { (minting : Minting) (time now : ℕ) (place : List ℕ)
        → time + minting.window < now → now < time + 2 ^ 36
        → freshness minting now place (minted minting time place) ≡ Stale }
    ensures to_come { (minting : Minting) (time now : ℕ) (place : List ℕ)
        → now < time → time + minting.window < now + 2 ^ 36
        → freshness minting now place (minted minting time place) ≡ Stale }
    ensures own { (minting : Minting) (now : ℕ) (place nonce : List ℕ)
        → freshness minting now place nonce ≢ Unknown
        → nonce ≡ minted minting (stated_time nonce) place }
    ensures other { (minting other : Minting) (time now : ℕ) (place there : List ℕ)
        → freshness other now there (minted minting time place) ≢ Unknown
        → first_bits (minted_mac other time there) ≡ first_bits (minted_mac minting time place) }
{}

/// A 401 that asks for a login, as [`refuse_long_term`](crate::refuse_long_term) writes it with a
/// nonce of a [`NonceMaker`](crate::NonceMaker) and two password algorithms, has 100 bytes and the
/// padded realm, and a FINGERPRINT if the request has one. With the headers of IP and UDP, 28 bytes
/// or more, it is at most three times as long as the request, if the realm has at most 16 bytes.
pub fn refusals_are_short()
    ensures size { (r realm place : List ℕ) (minting : Minting) (time : ℕ)
        (one other : PasswordAlgorithmValue) → length realm < 2 ^ 16
        → length (login_asked r realm (minted minting time place) (one ∷ other ∷ []))
        ≡ 100 + padded_length (length realm) + (if is_fingerprinted r then 8 else 0) }
    ensures short { (r realm place : List ℕ) (minting : Minting) (time headers : ℕ)
        (one other : PasswordAlgorithmValue)
        → parse_fault r ≡ None → length realm ≤ 16 → 28 ≤ headers
        → length (login_asked r realm (minted minting time place) (one ∷ other ∷ [])) + headers
        ≤ 3 * (length r + headers) }
{}
