//! Whether a writer can resume a message in a slice.

ghost use Rattle.std.specs.Prelude.{◌≡◌, length, take, MatchResult, Some, None};
ghost use Rattle.stun_grammar.specs.Parsing.{parse_fault};
ghost use Rattle.stun_types.specs.Resuming.{resume_fault};

use crate::message::StunParseError;
use crate::reading::check_message;
use crate::writing::listed::Listed;

/// The point at which a writer can resume the message in the first bytes of a slice, as
/// [`ResumePoint::check`] found; [`MessageWriteMutSlice::resume_at`] makes that writer.
///
/// [`MessageWriteMutSlice::resume_at`]: crate::writing::MessageWriteMutSlice::resume_at
#[derive(Debug, Clone, Copy, Drop)]
pub struct ResumePoint {
    pub(crate) written: usize,
    pub(crate) listed: Listed,
}

impl ResumePoint {
    ghost use Rattle.stun_types.specs.ResumePoints.{resumed_length, IsPointOf};

    /// Checks that a writer can resume the message in the first `written` bytes of `slice`. It
    /// walks the attributes once, and takes no memory.
    ///
    /// [`MessageWriteMutSlice::resume`] calls it. A caller whose contract has to say that its slice
    /// stays as it was after an error calls it first, and then
    /// [`MessageWriteMutSlice::resume_at`].
    ///
    /// # Examples
    ///
    /// ```
    /// use stun_types::message::{ResumePoint, StunParseError};
    ///
    /// let slice = b"\x00\x01\x00\x00\x21\x12\xA4\x42abcdefghijkl--------";
    /// assert!(rt; ResumePoint::check(slice, 20).is_ok());
    /// let longer = StunParseError::TooLarge { expected: 20, actual: 24 };
    /// assert_eq!(rt; ResumePoint::check(slice, 24).err(), Some(longer));
    /// ```
    ///
    /// Whether the message parses too, [`ResumePoint::check_message`] checks.
    ///
    /// # Errors
    ///
    /// As for [`MessageWriteMutSlice::resume`].
    ///
    /// [`MessageWriteMutSlice::resume`]: crate::writing::MessageWriteMutSlice::resume
    /// [`MessageWriteMutSlice::resume_at`]: crate::writing::MessageWriteMutSlice::resume_at
    pub fn check(slice: &[u8], written: usize) -> Result<ResumePoint, StunParseError>
        ensures { MatchResult result
            (λ point. (resumed_length point ≡ written) × IsPointOf point slice.now)
            (λ e. resume_fault slice.now written ≡ Some e) }
    {
        if slice.len() < written {
            return Err(StunParseError::Truncated {
                expected: written,
                actual: slice.len(),
            });
        }
        let listed = Listed::check(&slice[..written])?;
        Ok(ResumePoint { written, listed })
    }

    /// Checks that the message at this point parses, as `Message::from_bytes` does: up to the first
    /// attribute that is out of order, no FINGERPRINT is wrong. [`ResumePoint::check`] looks at
    /// neither the order nor a FINGERPRINT.
    ///
    /// A message without a FINGERPRINT parses, and so does one to which something was added (the
    /// law `resumed_parses`), since no attribute is added after a FINGERPRINT.
    ///
    /// It walks the attributes once more, and reads the bytes before a FINGERPRINT again for their
    /// checksum. It takes no memory.
    ///
    /// # Examples
    ///
    /// ```
    /// use stun_types::message::{ResumePoint, StunParseError};
    ///
    /// // A message whose FINGERPRINT is wrong can be resumed, and doesn't parse.
    /// let slice = b"\x00\x01\x00\x08\x21\x12\xA4\x42abcdefghijkl\x80\x28\x00\x04\0\0\0\0";
    /// let point = ResumePoint::check(slice, 28)?;
    /// assert_eq!(rt; point.check_message(slice), Err(StunParseError::FingerprintMismatch));
    /// ```
    ///
    /// # Requires
    ///
    /// `self` is what [`ResumePoint::check`] returned of `slice`, and `slice` is as it was then.
    ///
    /// # Errors
    ///
    /// As for `Message::from_bytes` of those bytes: of a message that can be resumed only
    /// `FingerprintMismatch`, or `Truncated` or `TooLarge` if the value of a FINGERPRINT has not
    /// four bytes.
    #[tactic(auto, using(crate::proofs::ResumedAddsLemmas::within, crate::proofs::ResumedAddsLemmas::size))]
    pub fn check_message(self, slice: &[u8]) -> Result<(), StunParseError>
        requires { IsPointOf self slice.now }
        ensures { MatchResult result
            (λ _. parse_fault (take (resumed_length self) slice.now) ≡ None)
            (λ e. parse_fault (take (resumed_length self) slice.now) ≡ Some e) }
    {
        check_message(&slice[..self.written])?;
        Ok(())
    }
}
