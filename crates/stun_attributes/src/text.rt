ghost use Rattle.std.specs.Prelude.{◌≡◌, ◌≤◌, length};
ghost use Rattle.std.specs.String.{string_bytes};

use crate::wire::{Attribute, BorrowValue, EncodeValue, ReadValue, TypedAttribute, copy_to_start};
use std::alloc::Global;
use std::fmt;
use stun_base::{StunParseError, StunWriteError};
use stun_grammar::attribute_types;
use stun_text::{PrintText, TextSink};
use stun_values::{print_plain, print_quoted, read_text};

/// An attribute of the type `TYPE` whose value is a text: at most `MAX` bytes of UTF-8, with no
/// further preparation (no SASLprep, no OpaqueString). Those of RFC 8489 have names of their own,
/// as [`crate::Software`]; another one is a `TextAttribute` of its number, whose text is
/// [`TextAttribute::text`]. Only bytes are counted: that REALM, NONCE and SOFTWARE have fewer than
/// 128 characters (RFC 8489, sections 14.9, 14.10 and 14.14), and at most 509 bytes when they are
/// sent, is up to the caller.
///
/// Reading reports the first of these: another type as `WrongAttributeImplementation`; more than
/// `MAX` bytes as `TooLarge { expected: MAX, actual }`; bytes that aren't UTF-8 as
/// `InvalidAttributeData`; and a failed allocation as `OutOfMemory`, since the text is kept in
/// memory from `alloc`.
///
/// # Examples
///
/// ```
/// use stun_types::attribute::TextAttribute;
/// use stun_types::prelude::*;
///
/// type Motto = TextAttribute<0xC000, 100>;
/// let motto = Motto::new(alloc, "less is more")?;
/// assert_eq!(rt; motto.get_type().value(), 0xC000);
/// assert_eq!(rt; motto.text(), "less is more");
/// ```
#[derive(Debug, PartialEq, Eq, Drop)]
pub struct TextAttribute<const TYPE: u16, const MAX: u16> {
    text: String,
    ghost short: { length (string_bytes text) ≤ MAX },
}

impl<const TYPE: u16, const MAX: u16> TextAttribute<TYPE, MAX> {
    ghost use Rattle.std.specs.Prelude.{◌≡◌, ◌≤◌, ◌<◌, Err, IfOk, IfErr, length};
    ghost use Rattle.stun_attributes.specs.Texts.{text_bytes};

    /// An attribute with the text `text`, which is copied into memory from `alloc`.
    ///
    /// # Errors
    ///
    /// `TooLarge { expected: MAX, actual }` if the text has more than `MAX` bytes, and
    /// `OutOfMemory` if an allocation failed.
    ///
    /// # Examples
    ///
    /// ```
    /// use stun_types::attribute::Realm;
    /// use stun_types::message::StunWriteError;
    ///
    /// assert_eq!(rt; Realm::new(alloc, "example.org")?.text(), "example.org");
    /// let long = format!(in alloc; "{:764}", "a")?;
    /// let refused = StunWriteError::TooLarge { expected: 763, actual: 764 };
    /// assert_eq!(rt; Realm::new(alloc, &long), Err(refused));
    /// ```
    pub fn new(alloc: Global, text: &str) -> Result<Self, StunWriteError>
        ensures ok { IfOk result (λ made. text_bytes made ≡ text.now) }
        ensures large { MAX < length text.now
            → result ≡ Err (StunWriteError.TooLarge MAX (length text.now)) }
        ensures err { length text.now ≤ MAX → IfErr result (λ e. e ≡ StunWriteError.OutOfMemory) }
    {
        let most = MAX as usize;
        if text.len() > most {
            return Err(StunWriteError::TooLarge {
                expected: most,
                actual: text.len(),
            });
        }
        let text = String::from_str(alloc, text)?;
        Ok(TextAttribute { text })
    }

    /// Copies the attribute: the text of the copy is in memory from `alloc`.
    ///
    /// # Errors
    ///
    /// `OutOfMemory` if an allocation failed.
    pub fn clone(&self, alloc: Global) -> Result<Self, StunWriteError>
        ensures same { IfOk result (λ copy. text_bytes copy ≡ text_bytes self.now) }
        ensures err { IfErr result (λ e. e ≡ StunWriteError.OutOfMemory) }
    {
        Self::new(alloc, self.text())
    }

    /// The text of the attribute, whatever its type: [`crate::Software`] and the other names have a
    /// method of their own that returns it too.
    pub fn text(&self) -> &str
        ensures text { result.now ≡ text_bytes self.now }
        ensures short { length result.now ≤ MAX }
    {
        self.text.as_str()
    }
}

impl<const TYPE: u16, const MAX: u16> TypedAttribute for TextAttribute<TYPE, MAX> {
    ghost NUMBER = { TYPE };

    const NUMBER: u16 = TYPE;
}

impl<const TYPE: u16, const MAX: u16> EncodeValue for TextAttribute<TYPE, MAX> {
    ghost use Rattle.std.specs.Prelude.{true};
    ghost use Rattle.stun_attributes.specs.Texts.{text_bytes};

    ghost bytes = { text_bytes };

    ghost is_held = { λ _. true };

    fn value_length(&self) -> u16 {
        self.text().len() as u16
    }

    fn write_value(&self, dest: &mut [u8]) {
        copy_to_start(self.text().as_bytes(), dest);
    }

    fn held_bytes(&self) -> Option<&[u8]> {
        Some(self.text().as_bytes())
    }
}

impl<const TYPE: u16, const MAX: u16> BorrowValue for TextAttribute<TYPE, MAX> {
    fn value_bytes(&self) -> &[u8] {
        self.text().as_bytes()
    }
}

/// [`TextAttribute`] lists what reading refuses.
impl<const TYPE: u16, const MAX: u16> ReadValue for TextAttribute<TYPE, MAX> {
    ghost use Rattle.stun_attributes.specs.Texts.{ReadsText};

    ghost reads_value = { ReadsText MAX };

    fn read_value(alloc: Global, value: &[u8]) -> Result<Self, StunParseError> {
        let text = read_text(value, MAX)?;
        let text = String::from_str(alloc, text)?;
        Ok(TextAttribute { text })
    }
}

impl<const TYPE: u16, const MAX: u16> PrintText for TextAttribute<TYPE, MAX> {
    ghost use Rattle.stun_attributes.specs.Texts.{text_bytes, shown_text};

    ghost text = { λ attribute. shown_text TYPE (text_bytes attribute) };

    fn print<S: TextSink>(&self, sink: &mut S) -> Result<(), S::Error> {
        match TYPE {
            attribute_types::USERNAME | attribute_types::SOFTWARE => {
                print_quoted(sink, self.get_type(), self.text())
            }
            _ => print_plain(sink, self.get_type(), self.text()),
        }
    }
}

/// The type and the text: `20(0x14: REALM): example.org`. A USERNAME and a SOFTWARE have the text
/// in quotation marks: `32802(0x8022: SOFTWARE): 'my client'`.
impl<const TYPE: u16, const MAX: u16> fmt::Display for TextAttribute<TYPE, MAX> {
    ghost use Rattle.std.specs.Prelude.{Some};
    ghost use Rattle.stun_attributes.specs.Texts.{text_bytes, shown_text};

    ghost output = { λ attribute. Some (shown_text TYPE (text_bytes attribute)) };

    fn fmt<W: fmt::Write>(&self, f: &mut fmt::Formatter<W>) -> fmt::Result {
        self.print(f)
    }
}
