//! The integrity attribute that is added next, while its HMAC is computed elsewhere.

use crate::message::{CoveredText, Hmac, IntegrityAlgorithm, StunWriteError};
use crate::writing::MessageWrite;
use crate::writing::protect::{add_given_hmac, next_integrity_text};

/// The integrity attribute that is added next to a message, for a caller who computes the HMAC by the
/// processor's instructions, by a validated module, or in hardware that keeps the key.
///
/// [`NextIntegrity::text`] returns the bytes that the attribute covers, and [`NextIntegrity::finish`]
/// adds it with their HMAC. In between it borrows the writer, so nothing else can be added. A caller
/// who can't keep the borrow uses [`ResumePoint::next_integrity_text`] and
/// [`ResumePoint::add_message_integrity_with_hmac`].
///
/// [`ResumePoint::next_integrity_text`]: crate::message::ResumePoint::next_integrity_text
/// [`ResumePoint::add_message_integrity_with_hmac`]: crate::message::ResumePoint::add_message_integrity_with_hmac
///
/// # Examples
///
/// ```
/// use stun_types::message::{
///     BINDING, Hmac, IntegrityAlgorithm, IntegrityKey, Message, MessageClass, MessageType,
///     MessageWriteVec, NextIntegrity, TransactionId,
/// };
/// use stun_types::prelude::*;
///
/// let mtype = MessageType::from_class_method(MessageClass::Request, BINDING);
/// let write = MessageWriteVec::new(alloc);
/// let mut request = Message::builder(mtype, TransactionId::from(1000), write)?;
/// let key = IntegrityKey::new(alloc, b"secret", None)?;
/// let next = NextIntegrity::new(&mut request, IntegrityAlgorithm::Sha1);
/// // Here the caller's own code computes it.
/// let hmac = Hmac::Sha1(key.hmac_sha1(&next.text()?.pieces()));
/// next.finish(&hmac)?;
/// let bytes = request.finish();
/// let request = Message::from_bytes(&bytes)?;
/// assert_eq!(rt; request.validate_integrity_with_key(&key), Ok(IntegrityAlgorithm::Sha1));
/// ```
#[derive(Drop)]
pub struct NextIntegrity<'w, W> {
    write: &'w mut W,
    algorithm: IntegrityAlgorithm,
}

impl<'w, W: MessageWrite> NextIntegrity<'w, W> {
    ghost use Rattle.std.specs.Prelude.{◌≡◌, Some, MatchResult};
    ghost use Rattle.stun_grammar.specs.Hmac.{digest_length};
    ghost use Rattle.stun_grammar.specs.Verdicts.{type_of_algorithm};
    ghost use Rattle.stun_grammar.specs.Adding.{IsAddAnswer};
    ghost use Rattle.stun_types.specs.Writers.{Allocates, Adds};
    ghost use Rattle.stun_types.specs.GivenHmacs.{hmac_algorithm, hmac_bytes, signing_refusal, IsNextText};
    ghost use Rattle.stun_types.specs.NextIntegrities.{next_writer, next_algorithm};

    /// Begins to add the integrity attribute of an algorithm. Nothing is written or checked yet.
    pub fn new(write: &'w mut W, algorithm: IntegrityAlgorithm) -> NextIntegrity<'w, W>
        ensures same_writer { (next_writer result).ghost_name ≡ write.entry.ghost_name }
        ensures unchanged { (next_writer result).now ≡ write.old }
        ensures algorithm { next_algorithm result ≡ algorithm }
    {
        NextIntegrity { write, algorithm }
    }

    /// The bytes that the attribute covers. They borrow `self`. It allocates nothing.
    ///
    /// # Errors
    ///
    /// As for [`MessageWriteExt::add_message_integrity_with_key`], except `OutOfMemory`.
    ///
    /// [`MessageWriteExt::add_message_integrity_with_key`]: crate::writing::MessageWriteExt::add_message_integrity_with_key
    pub fn text(&self) -> Result<CoveredText<'_>, StunWriteError>
        ensures { let write = W.state (next_writer self.now).now in
            let algorithm = next_algorithm self.now in
            MatchResult result
            (λ text. IsNextText (signing_refusal write algorithm) write.bytes algorithm text)
            (λ e. signing_refusal write algorithm ≡ Some e) }
    {
        next_integrity_text(&*self.write, self.algorithm)
    }

    /// Adds the attribute with the HMAC over the bytes that [`NextIntegrity::text`] returned, as
    /// [`MessageWriteExt::add_message_integrity_with_key`] does with the key of the HMAC. With an HMAC
    /// over other bytes the message doesn't validate.
    ///
    /// # Requires
    ///
    /// `hmac.algorithm()` is the algorithm that was passed to [`NextIntegrity::new`].
    ///
    /// # Errors
    ///
    /// As for [`MessageWriteExt::add_message_integrity_with_key`]; the message then stays as it was.
    ///
    /// [`MessageWriteExt::add_message_integrity_with_key`]: crate::writing::MessageWriteExt::add_message_integrity_with_key
    #[tactic(auto, using(stun_grammar::proofs::AddingRefusedLemmas::given_refused))]
    pub fn finish(self, hmac: &Hmac) -> Result<(), StunWriteError>
        requires { hmac_algorithm hmac.now ≡ next_algorithm self }
        ensures answer { let write = W.state (next_writer self.entry).now in
            IsAddAnswer (signing_refusal write (next_algorithm self.entry))
            (Allocates write (digest_length (next_algorithm self.entry))) result }
        ensures adds { Adds result (W.state (next_writer self.entry).now)
            (W.state self.exit.0.now)
            (type_of_algorithm (next_algorithm self.entry)) (hmac_bytes hmac.now) }
    {
        let NextIntegrity {
            write,
            algorithm: _,
        } = self;
        add_given_hmac(write, hmac)
    }
}
