//! Values that print as a text, and their text in a slice.

ghost use Rattle.std.specs.Prelude.{◌≡◌, ℕ, List, length, OnOk};
ghost use Rattle.stun_text.specs.Slices.{laid_over, text_answer};

use crate::{TextSink, TextSlice, TextTooLong};

/// A value that prints as a text, in pieces: the text of `Display` for a plain `{}`. [`write_text`]
/// writes the text to a slice, and `print` to any [`TextSink`]; a formatter is one, so a body of
/// `Display` is `self.print(f)`. Nothing is promised of a format with a width, a fill or other
/// flags.
///
/// In contracts `text` is the text.
///
/// # Examples
///
/// ```
/// use std::net::{IpAddr, Ipv4Addr, SocketAddr};
/// use stun_types::attribute::AlternateServer;
/// use stun_types::{PrintText, TextSlice};
///
/// let addr = SocketAddr::new(IpAddr::V4(Ipv4Addr::new(192, 0, 2, 7)), 3478);
/// let mut text = [0; 64];
/// let mut sink = TextSlice::new(&mut text);
/// let Ok(()) = AlternateServer::new(addr).print(&mut sink);
/// let length = sink.finish()?;
/// assert_eq!(rt; &text[..length], b"32803(0x8023: ALTERNATE-SERVER): 192.0.2.7:3478".as_slice());
/// ```
pub trait PrintText {
    ghost text: { Self → List ℕ };

    /// Writes the text, in pieces.
    ///
    /// # Errors
    ///
    /// That of the sink.
    fn print<S: TextSink>(&self, sink: &mut S) -> Result<(), S::Error>
        ensures { OnOk result (S.wrote sink.old (text self.now) sink.new) };
}

/// Writes the text of a value, in UTF-8, at the start of a slice, and returns the number of its
/// bytes. It succeeds exactly if the slice has room for the text. The bytes of the slice after the
/// text are unchanged.
///
/// # Errors
///
/// [`TextTooLong`], with the length of the text, if it is longer than the slice. The slice then
/// holds the first bytes of the text, as many as fit; a character may be cut at its end.
///
/// # Examples
///
/// ```
/// use stun_types::{TransportType, write_text};
///
/// let mut text = [0; 64];
/// let length = write_text(&TransportType::Udp, &mut text)?;
/// assert_eq!(rt; &text[..length], b"UDP".as_slice());
/// let short = write_text(&TransportType::Tcp, &mut text[..2]);
/// assert_eq!(rt; short.err().map(|error| error.length), Some(3));
/// ```
#[tactic(auto, using(crate::proofs::TextsLemmas::text_lies, crate::proofs::TextsLemmas::text_counts))]
pub fn write_text<T: PrintText>(value: &T, to: &mut [u8]) -> Result<usize, TextTooLong>
    ensures answer { result ≡ text_answer (length (T.text value.now)) (length to.old) }
    ensures bytes { to.new ≡ laid_over (T.text value.now) to.old }
{
    let mut slice = TextSlice::new(to);
    match value.print(&mut slice) {
        Ok(()) => slice.finish(),
        Err(never) => match never {},
    }
}
