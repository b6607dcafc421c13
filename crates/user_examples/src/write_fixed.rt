//! A writer into an array of its own.

ghost use Rattle.std.specs.Prelude.{◌≡◌, ◌+◌, ◌*◌, ◌≤◌};

use stun_types::attribute::{AttributeType, pad_attribute_len};
use stun_types::message::StunWriteError;
use stun_types::message::write::{append_attribute, append_value, first_among, is_among};
use stun_types::prelude::*;

/// Writes a message into an array of `N` bytes, and keeps the types of at most `N` attributes. It
/// never takes memory: what is left of the array is its ready room, so no push refuses.
#[derive(Debug, Drop)]
pub struct WriteFixed<const N: usize> {
    output: [u8; N],
    written: usize,
    attributes: [AttributeType; N],
    count: usize,
    ghost within: { written ≤ N },
    ghost counted: { 4 * count ≤ written },
}

impl<const N: usize> WriteFixed<N> {
    ghost use Rattle.std.specs.Prelude.{◌≡◌, []};

    /// A writer with nothing written. `N` bytes and `N` attributes are ready.
    pub fn new() -> Self
        ensures empty { (⟦<WriteFixed<N> as MessageWrite>⟧.state result).bytes ≡ [] }
        ensures ready_bytes { (⟦<WriteFixed<N> as MessageWrite>⟧.state result).ready_bytes ≡ N }
        ensures ready_types { (⟦<WriteFixed<N> as MessageWrite>⟧.state result).ready_types ≡ N }
    {
        WriteFixed {
            output: [0; N],
            written: 0,
            attributes: [AttributeType(0); N],
            count: 0,
        }
    }
}

impl<const N: usize> MessageWrite for WriteFixed<N> {
    ghost use Rattle.std.specs.Prelude.{◌≡◌, ◌-◌, [], None, Some, length, take};
    ghost use Rattle.stun_grammar.specs.Adding.{numbers};

    /// The array, and how many of its bytes are written.
    type Output = ([u8; N], usize);

    ghost state = { λ write. record {
      bytes = take write.written write.output;
      types = numbers (take write.count write.attributes);
      greatest = Some N;
      rest = [];
      ready_bytes = N - write.written;
      ready_types = N - write.count;
      slice_name = 0;
    } };

    ghost finishes_with = { λ write made. (made.0 ≡ write.output) × (made.1 ≡ write.written) };

    /// `N`.
    fn max_size(&self) -> Option<usize> {
        Some(N)
    }

    fn data(&self) -> &[u8] {
        &self.output[..self.written]
    }

    fn mut_data(&mut self) -> &mut [u8] {
        let len = self.written;
        let output = &mut self.output;
        let all = &mut output[..];
        &mut all[..len]
    }

    fn len(&self) -> usize {
        self.written
    }

    fn has_attribute(&self, atype: AttributeType) -> bool {
        is_among(&self.attributes[..self.count], atype)
    }

    fn has_any_attribute(&self, asked: &[AttributeType]) -> Option<AttributeType> {
        first_among(&self.attributes[..self.count], asked)
    }

    fn push_data(&mut self, more: &[u8]) -> Result<(), StunWriteError> {
        let len = self.written;
        let all = &mut self.output[..];
        all[len..len + more.len()].copy_from_slice(more);
        self.written = len + more.len();
        Ok(())
    }

    fn push_attribute_unchecked(
        &mut self,
        attribute: &dyn AttributeWrite,
    ) -> Result<(), StunWriteError> {
        let len = self.written;
        let grown_length = len + attribute.padded_len();
        append_attribute(attribute, len, &mut self.output);
        self.attributes[self.count] = attribute.get_type();
        self.count += 1;
        self.written = grown_length;
        Ok(())
    }

    fn push_value_unchecked(
        &mut self,
        atype: AttributeType,
        more: &[u8],
    ) -> Result<(), StunWriteError> {
        let len = self.written;
        append_value(atype, more, len, &mut self.output);
        self.attributes[self.count] = atype;
        self.count += 1;
        self.written = len + 4 + pad_attribute_len(more.len());
        Ok(())
    }

    fn finish(self) -> ([u8; N], usize) {
        let WriteFixed {
            output,
            written,
            attributes: _,
            count: _,
        } = self;
        (output, written)
    }
}
