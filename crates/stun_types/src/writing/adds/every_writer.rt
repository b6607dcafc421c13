//! How every writer adds an attribute: what is checked, and what is appended.

use crate::attribute::{AttributeType, AttributeWrite};
use crate::message::{
    AddError, IntegrityAlgorithm, IntegrityKey, MessageClass, MessageIntegrityCredentials,
    MessageType, Method, StunWriteError, TransactionId,
};
use crate::writing::protect::{push_fingerprint, push_integrity};
use crate::writing::readers::written_header;
use crate::writing::refusals::{Addition, check_add};
use crate::writing::{MessageWrite, MessageWriteExt};
use std::alloc::Global;
use stun_base::pad_attribute_len;
use stun_keys::keys::key_of_credentials;
use stun_values::hmac_length;

impl<W: MessageWrite> MessageWriteExt for W {
    fn get_type(&self) -> MessageType {
        written_header(self).get_type()
    }

    fn class(&self) -> MessageClass {
        self.get_type().class()
    }

    fn has_class(&self, cls: MessageClass) -> bool {
        self.class() == cls
    }

    fn is_response(&self) -> bool {
        self.class().is_response()
    }

    fn method(&self) -> Method {
        self.get_type().method()
    }

    fn has_method(&self, method: Method) -> bool {
        self.method() == method
    }

    fn transaction_id(&self) -> TransactionId {
        written_header(self).transaction_id()
    }

    #[tactic(auto, using(stun_grammar::proofs::AddingLemmas::appended_length, crate::proofs::KeptHeadersLemmas::pushed, stun_grammar::proofs::AddingRefusedLemmas::ordinary_barred))]
    #[inline(always)]
    fn add_attribute(&mut self, attribute: &dyn AttributeWrite) -> Result<(), StunWriteError> {
        // `get_type` returns the type as a `u16`: so it fits in two bytes
        let _type_fits = attribute.get_type();
        // and so does the length of the value
        let added = 4 + pad_attribute_len(attribute.length() as usize);
        check_add(self, Addition::Ordinary, added)?;
        self.push_attribute_unchecked(attribute)
    }

    fn add_any_attribute(&mut self, attribute: &dyn AttributeWrite) -> Result<(), AddError> {
        let atype = attribute.get_type();
        if atype.is_ending() {
            return Err(AddError::EndingType(atype));
        }
        self.add_attribute(attribute)?;
        Ok(())
    }

    fn add_value(&mut self, atype: AttributeType, value: &[u8]) -> Result<(), AddError> {
        if atype.is_ending() {
            return Err(AddError::EndingType(atype));
        }
        self.add_ordinary_value(atype, value)?;
        Ok(())
    }

    #[tactic(auto, using(stun_grammar::proofs::AddingLemmas::appended_length, crate::proofs::KeptHeadersLemmas::pushed, stun_grammar::proofs::AddingRefusedLemmas::ordinary_barred))]
    fn add_ordinary_value(
        &mut self,
        atype: AttributeType,
        value: &[u8],
    ) -> Result<(), StunWriteError> {
        let added = 4 + pad_attribute_len(value.len());
        check_add(self, Addition::Ordinary, added)?;
        self.push_value_unchecked(atype, value)
    }

    #[tactic(auto, using(stun_grammar::proofs::AddingRefusedLemmas::signing_barred, stun_grammar::proofs::AddingLemmas::hmac_padded))]
    fn add_message_integrity(
        &mut self,
        alloc: Global,
        credentials: &MessageIntegrityCredentials,
        algorithm: IntegrityAlgorithm,
    ) -> Result<(), StunWriteError> {
        let size = 4 + hmac_length(algorithm);
        check_add(self, Addition::Integrity(algorithm), size)?;
        let key = key_of_credentials(alloc, credentials, algorithm)?;
        self.add_message_integrity_with_key_unchecked(&key, algorithm)
    }

    #[tactic(auto, using(stun_grammar::proofs::AddingRefusedLemmas::signing_barred, stun_grammar::proofs::AddingLemmas::hmac_padded))]
    fn add_message_integrity_with_key(
        &mut self,
        key: &IntegrityKey,
        algorithm: IntegrityAlgorithm,
    ) -> Result<(), StunWriteError> {
        let added = 4 + hmac_length(algorithm);
        check_add(self, Addition::Integrity(algorithm), added)?;
        self.add_message_integrity_with_key_unchecked(key, algorithm)
    }

    #[tactic(auto, using(stun_grammar::proofs::AddingRefusedLemmas::no_refusal, crate::proofs::KeptHeadersLemmas::pushed))]
    fn add_message_integrity_with_key_unchecked(
        &mut self,
        key: &IntegrityKey,
        algorithm: IntegrityAlgorithm,
    ) -> Result<(), StunWriteError> {
        push_integrity(self, key, algorithm)
    }

    fn add_fingerprint(&mut self) -> Result<(), StunWriteError> {
        check_add(self, Addition::Fingerprint, 8)?;
        self.add_fingerprint_unchecked()
    }

    #[tactic(auto, using(stun_grammar::proofs::AddingRefusedLemmas::no_refusal, crate::proofs::KeptHeadersLemmas::pushed))]
    fn add_fingerprint_unchecked(&mut self) -> Result<(), StunWriteError> {
        push_fingerprint(self)
    }
}
