//! Laws of logins (RFC 8489, sections 9.1 and 9.2): what a client writes from a challenge is accepted
//! by the server that sent it, and the client's transaction takes the reply. Each function does
//! nothing: its contract is the law.

ghost use Rattle.std.specs.Prelude.{◌≡◌, ◌≢◌, ◌≤◌, ◌<◌, ◌+◌, ◌^◌, ◌++◌, ◌∷◌, ℕ, Bool, true, false, List, [], Option, Some, None, Ok, is_some, length, find};
ghost use Rattle.stun_grammar.specs.declared.integrity_algorithm.IntegrityAlgorithm.{IntegrityAlgorithm};
ghost use Rattle.stun_grammar.specs.Attributes.{Attribute, types};
ghost use Rattle.stun_grammar.specs.Writing.{IsWritable};
ghost use Rattle.stun_base.specs.MessageTypes.{class_of, is_response};
ghost use Rattle.stun_keys.specs.declared.keys.integrity_key.IntegrityKey.{IntegrityKey};
ghost use Rattle.stun_authentication.specs.declared.policy.Policy.{Policy};
ghost use Rattle.stun_authentication.specs.Answers.{accept};
ghost use Rattle.stun_authentication.specs.ShortTerm.{short_term};
ghost use Rattle.stun_transactions.specs.declared.parts.Mechanism.TheVariants as Mechanism;
ghost use Rattle.stun_grammar.specs.AttributeTypes.{NONCE};
ghost use Rattle.stun_grammar.specs.ScannedOrder.{has};
ghost use Rattle.stun_base.specs.declared.message_class.MessageClass.TheVariants.{Request, Error as ErrorClass};
ghost use Rattle.stun_values.specs.declared.algorithm.PasswordAlgorithmValue.{PasswordAlgorithmValue};
ghost use Rattle.stun_authentication.specs.declared.answer.Refusal.{Refusal};
ghost use Rattle.stun_authentication.specs.Asking.{Asked, asked_for, listed};
ghost use Rattle.stun_authentication.specs.Challenges.{Retry, retry_with, challenge_of, signing_algorithm};
ghost use Rattle.stun_authentication.specs.Cookies.{promises_algorithms};
ghost use Rattle.stun_authentication.specs.Identities.{Who, named};
ghost use Rattle.stun_keys.specs.declared.keys.long_term.LongTermCredentials.{LongTermCredentials};
ghost use Rattle.stun_authentication.specs.declared.logins.Logins.{Logins};
ghost use Rattle.stun_authentication.specs.Logins.{is_login, users_of, long_term_key_of, short_term_key_of};
ghost use Rattle.stun_authentication.specs.LongTerm.{long_term};
ghost use Rattle.stun_authentication.specs.Lookups.{UserKey, key_made, Known};
ghost use Rattle.stun_authentication.specs.Policies.{counted};
ghost use Rattle.stun_authentication.specs.Nonces.{Minting, known_as, minted, freshness};
ghost use Rattle.stun_grammar.specs.declared.attribute_type.AttributeType.{AttributeType};
ghost use Rattle.stun_types.specs.Replies.{is_answer_to};
ghost use Rattle.stun_transactions.specs.declared.retransmission.RetransmissionState.{RetransmissionState};
ghost use Rattle.stun_transactions.specs.declared.plan.Plan.{Plan};
ghost use Rattle.stun_transactions.specs.declared.response_policy.ResponsePolicy.{ResponsePolicy};
ghost use Rattle.stun_transactions.specs.Outcomes.{is_open};
ghost use Rattle.stun_transactions.specs.Receiving.{content, received_outcome};
ghost use Rattle.stun_transactions.specs.Beginning.{request_parts};
ghost use Rattle.stun_exchanges.specs.Example.{IsMet};
ghost use Rattle.stun_exchanges.specs.Offers.{IsOffered, IsLawful, Takes, IsShort, Retries, asks, refused, refused_attributes};
ghost use Rattle.stun_authentication.specs.Requests.{User, user_of, asked_identity, user_key, retried_attributes, retried_request, short_term_attributes, short_term_request};
ghost use Rattle.stun_authentication.specs.Writing.{signed, finished, signed_reply};
ghost use Rattle.stun_exchanges.specs.Premises.{IsOwn, IsOpen, IsNamed, IsPrinted, HasRoom, Serves, Suits, Works, WorksAs, checked};

use stun_authentication::{cookie_is_read, nonces_are_timed};
use stun_types::shown_is_found;

/// A 401 or a 438 is read as it was written: `challenge_of` returns of the error response that
/// `refuse_long_term` writes what the server asks for, and the algorithm that the client takes of its
/// list.
pub fn challenge_is_read()
    ensures { (refusal : Refusal) (asked : Asked) (supported : List PasswordAlgorithmValue)
        (algorithm : PasswordAlgorithmValue) (tried : Option (List ℕ)) (had_algorithms : Bool)
        (fingerprint : Bool) (kind id : ℕ)
        → asks refusal ≡ true → kind < 2 ^ 14 → id < 2 ^ 96 → class_of kind ≡ ErrorClass
        → IsLawful asked → promises_algorithms asked.nonce ≡ is_some asked.list
        → Takes supported asked algorithm → Retries tried had_algorithms refusal asked
        → HasRoom kind id (refused_attributes fingerprint kind id refusal asked)
        → challenge_of supported tried had_algorithms (refused fingerprint kind id refusal asked)
        ≡ Ok (retry_with asked algorithm) }
{
    shown_is_found();
}

/// A login by long-term credentials is accepted, and its reply is taken.
///
/// A server offers a realm, a nonce that it knows as valid, and a list of password algorithms or
/// none, as the nonce's cookie says. A client takes one of the algorithms, and writes what it is
/// asked for after attributes of its own, for a user whose key the server has in that realm by that
/// algorithm, and which works with the algorithm of the HMAC. The request is accepted as that user's, with that key. A reply that is signed with the
/// key, by the algorithm of the decision, is authentic for the client's transaction, which returns it
/// with that algorithm, unless it shows an attribute that isn't understood or is an error without a
/// code.
pub fn login_is_accepted()
    ensures accepted { (policy : Policy) (nonces : List ℕ → Known)
        (keys : Who → List ℕ → PasswordAlgorithmValue → Option UserKey)
        (asked : Asked) (algorithms supported : List PasswordAlgorithmValue)
        (algorithm : PasswordAlgorithmValue) (user : User) (key : UserKey) (fingerprint : Bool)
        (kind id : ℕ) (before : List Attribute)
        → let retry = retry_with asked algorithm in
        IsOffered nonces asked algorithms → Takes supported asked algorithm
        → IsShort asked user.name → class_of kind ≡ Request → IsOwn kind id before
        → HasRoom kind id (retried_attributes fingerprint retry user kind id before)
        → keys (asked_identity asked user.name) asked.realm algorithm
        ≡ Some key → Works (user_key retry user) (signing_algorithm retry) key
        → Serves policy (signing_algorithm retry) fingerprint
        → long_term policy asked.realm nonces keys
        (retried_request fingerprint retry user kind id before)
        ≡ accept (asked_identity asked user.name) key (signing_algorithm retry)
        (signing_algorithm retry) }
    // the same if the client reads the challenge of the response by which the server refused it
    ensures retried { (policy : Policy) (nonces : List ℕ → Known)
        (keys : Who → List ℕ → PasswordAlgorithmValue → Option UserKey)
        (refusal : Refusal) (asked : Asked) (algorithms supported : List PasswordAlgorithmValue)
        (algorithm : PasswordAlgorithmValue) (tried : Option (List ℕ)) (had_algorithms : Bool) (print : Bool)
        (other number : ℕ)
        (retry : Retry) (user : User) (key : UserKey) (fingerprint : Bool) (kind id : ℕ)
        (before : List Attribute)
        → asks refusal ≡ true → other < 2 ^ 14 → number < 2 ^ 96 → class_of other ≡ ErrorClass
        → IsLawful asked → IsOffered nonces asked algorithms → Takes supported asked algorithm
        → Retries tried had_algorithms refusal asked
        → HasRoom other number (refused_attributes print other number refusal asked)
        → challenge_of supported tried had_algorithms (refused print other number refusal asked) ≡ Ok retry
        → length user.name < 2 ^ 16 → class_of kind ≡ Request → IsOwn kind id before
        → HasRoom kind id (retried_attributes fingerprint retry user kind id before)
        → keys (asked_identity retry.asked user.name) retry.asked.realm retry.algorithm
        ≡ Some key → Works (user_key retry user) (signing_algorithm retry) key
        → Serves policy (signing_algorithm retry) fingerprint
        → long_term policy asked.realm nonces keys
        (retried_request fingerprint retry user kind id before)
        ≡ accept (asked_identity retry.asked user.name) key (signing_algorithm retry)
        (signing_algorithm retry) }
    // with a transaction of a request r that was begun with the key, and waits for a response to it
    ensures heard { (a : IntegrityAlgorithm) (fingerprint : Bool) (kind id : ℕ)
        (answer : List Attribute) (r key : List ℕ) (k : IntegrityKey) (plan : Plan) (usage : ResponsePolicy)
        (state : RetransmissionState) (understood : List AttributeType)
        → let reply = signed_reply fingerprint kind id answer a key in
        let parts = request_parts r plan (Some Mechanism.LongTerm) usage state in
        WorksAs key a k
        → is_open state ≡ true → IsOpen kind id answer → has NONCE (types answer) ≡ false
        → HasRoom kind id (finished fingerprint kind id (signed kind id answer a key))
        → Suits usage fingerprint → is_answer_to r reply ≡ true
        → received_outcome parts (Some k) understood reply ≡ content (Some a) understood reply }
{
    shown_is_found();
}

/// The keys of users by name and password are those that the client makes: if the first user that a
/// request names is this one, and has a password that isn't empty, the server has the key of the name
/// and password, and it works with both integrity algorithms. Of two users with one
/// name, or with names of equal hash, the first counts.
pub fn logins_have_keys()
    ensures long_term { (logins : Logins) (login : LongTermCredentials) (retry : Retry)
        → let user = user_of login in
        let who = asked_identity retry.asked user.name in
        find (is_login who retry.asked.realm) (users_of logins) ≡ Some login → user.password ≢ []
        → long_term_key_of logins who retry.asked.realm retry.algorithm
        ≡ Some (key_made None (user_key retry user)) }
    ensures short_term { (logins : Logins) (login : LongTermCredentials)
        → let user = user_of login in
        find (is_login (named user.name) []) (users_of logins) ≡ Some login → user.password ≢ []
        → short_term_key_of logins user.name ≡ Some (key_made None user.password) }
{}

/// A login by short-term credentials is accepted, and its reply is taken.
///
/// A request or an indication that carries its caller's attributes, the name of a user whom the
/// server knows, and the HMAC under the key that the server has for that name, is accepted as that
/// user's, with that key. A reply that is signed with the key, by the algorithm of the decision, is
/// authentic for the client's transaction, which returns it with that algorithm, unless it shows an
/// attribute that isn't understood or is an error without a code.
pub fn short_term_login_is_accepted()
    ensures accepted { (policy : Policy) (keys : List ℕ → Option UserKey)
        (sent served : Option IntegrityAlgorithm) (a : IntegrityAlgorithm) (fingerprint : Bool)
        (kind id : ℕ) (before : List Attribute) (name : List ℕ) (key : UserKey)
        → is_response (class_of kind) ≡ false
        → IsOwn kind id before → IsNamed name
        → HasRoom kind id (short_term_attributes fingerprint sent kind id before name key.bytes)
        → keys name ≡ Some key → counted policy key.made_for ≡ Some served
        → checked served sent ≡ Some a → policy.min_hmac_length ≤ 32
        → IsPrinted policy.fingerprint fingerprint
        → short_term policy keys
        (short_term_request fingerprint sent kind id before name key.bytes)
        ≡ accept (named name) key a a }
    // with a transaction of that request that was begun with the key, and waits for a response to it
    ensures heard { (sent counts : Option IntegrityAlgorithm) (a : IntegrityAlgorithm)
        (fingerprint finger : Bool) (kind id other : ℕ) (before answer : List Attribute)
        (name key : List ℕ) (stored : IntegrityKey) (plan : Plan) (usage : ResponsePolicy)
        (state : RetransmissionState) (understood : List AttributeType)
        → let r = short_term_request fingerprint sent kind id before name key in
        let reply = signed_reply finger other id answer a key in
        let parts = request_parts r plan (Some Mechanism.ShortTerm) usage state in
        IsOwn kind id before → IsNamed name
        → HasRoom kind id (short_term_attributes fingerprint sent kind id before name key)
        → checked counts sent ≡ Some a → WorksAs key a stored
        → IsOpen other id answer
        → HasRoom other id (finished finger other id (signed other id answer a key))
        → Suits usage finger → is_open state ≡ true → is_answer_to r reply ≡ true
        → received_outcome parts (Some stored) understood reply ≡ content (Some a) understood reply }
{
    shown_is_found();
}

/// One login meets the premises of the clause `accepted` of `login_is_accepted` all at once, but for
/// the one about keys, which isn't stated: a look-up that returns this user's key meets it. The
/// premises of the other clauses aren't covered.
pub fn premises_are_met()
    ensures { IsMet }
{
    cookie_is_read();
}

/// A nonce of a [`NonceMaker`](stun_authentication::NonceMaker) is one that `login_is_accepted` asks
/// for: within its window, for its client, it is known as valid with the algorithms that the server
/// sends, and its cookie says whether there is a list.
pub fn made_nonces_are_offered()
    ensures { (minting : Minting) (time now : ℕ) (place realm : List ℕ)
        (algorithms : List PasswordAlgorithmValue)
        → time ≤ now → now ≤ time + minting.window
        → minting.features.password_algorithms ≡ is_some (listed algorithms)
        → IsOffered (λ nonce. known_as algorithms (freshness minting now place nonce))
        (asked_for realm (minted minting time place) (listed algorithms)) algorithms }
{
    cookie_is_read();
    nonces_are_timed();
}
