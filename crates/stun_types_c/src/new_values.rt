//! Values of attributes that C adds, encoded straight into its slice.

ghost use Rattle.std.specs.Prelude.{◌≡◌, ◌+◌, ◌*◌, ◌≤◌, ◌++◌, length, drop};
ghost use Rattle.std.specs.List.{flat_map};
ghost use Rattle.stun_grammar.specs.Numbers.{be16};

use byteorder::{BigEndian, ByteOrder};
use stun_types::attribute::EncodeValue;
use stun_values::write_error;

/// A code and a reason of an error (RFC 8489, section 14.8).
#[derive(Drop)]
pub(crate) struct ErrorValue<'a> {
    pub(crate) code: u16,
    pub(crate) reason: &'a [u8],
    ghost code_fits: { code ≤ 699 },
    ghost short: { length reason.now ≤ 763 },
}

impl EncodeValue for ErrorValue<'_> {
    ghost use Rattle.stun_values.specs.ErrorValues.{error_value};

    ghost bytes = { λ value. error_value value.code value.reason.now };

    fn value_length(&self) -> u16 {
        4 + self.reason.len() as u16
    }

    fn write_value(&self, dest: &mut [u8]) {
        write_error(self.code, self.reason, dest);
    }

    fn held_bytes(&self) -> Option<&[u8]> {
        None
    }
}

/// A list of attribute types (RFC 8489, section 14.13).
#[derive(Drop)]
pub(crate) struct TypeNumbers<'a> {
    pub(crate) types: &'a [u16],
    ghost few: { length types.now ≤ 32767 },
}

/// Writes two bytes for each number at the start of `dest`.
fn write_numbers(numbers: &[u16], dest: &mut [u8])
    requires { 2 * length numbers.now ≤ length dest.old }
    ensures { dest.new ≡ flat_map be16 numbers.now ++ drop (2 * length numbers.now) dest.old }
{
    for i in 0..numbers.len() {
        BigEndian::write_u16(&mut dest[2 * i..], numbers[i]);
    }
}

impl EncodeValue for TypeNumbers<'_> {
    ghost use Rattle.std.specs.List.{flat_map};
    ghost use Rattle.stun_grammar.specs.Numbers.{be16};

    ghost bytes = { λ value. flat_map be16 value.types.now };

    #[tactic(auto, using(crate::proofs::NewValuesLemmas::length_of_twos))]
    fn value_length(&self) -> u16 {
        2 * self.types.len() as u16
    }

    #[tactic(auto, using(crate::proofs::NewValuesLemmas::length_of_twos))]
    fn write_value(&self, dest: &mut [u8]) {
        write_numbers(self.types, dest);
    }

    fn held_bytes(&self) -> Option<&[u8]> {
        None
    }
}
