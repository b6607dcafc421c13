//! What distinguishes attributes of one form.

ghost use Rattle.std.specs.Prelude.{◌≡◌, ℕ, List};

/// The number and the name of an attribute type (RFC 8489, section 18.3). A type that implements
/// this has no value of use: it stands for the attribute type as an argument of
/// [`crate::kinds::NumberAttribute`] and its like.
///
/// # Examples
///
/// ```
/// use stun_types::attribute::{AttributeKind, NumberAttribute};
///
/// enum TicketKind {}
///
/// impl AttributeKind for TicketKind {
///     ghost use Rattle.std.specs.Prelude.{codes};
///
///     ghost NUMBER = { 0xC001 };
///
///     ghost NAME = { codes "TICKET" };
///
///     const NUMBER: u16 = 0xC001;
///
///     fn name() -> &'static str {
///         "TICKET"
///     }
/// }
///
/// let ticket: NumberAttribute<TicketKind, u32> = NumberAttribute::new(7);
/// assert_eq!(rt; format!(in alloc; "{ticket}")?.as_str(), "TICKET: 7");
/// ```
pub trait AttributeKind {
    ghost NUMBER: { ℕ };

    ghost NAME: { List ℕ };

    /// The number of the attribute type.
    const NUMBER: u16;

    /// The name of the attribute type, as it is printed.
    fn name() -> &'static str
        ensures { result.now ≡ NAME };
}
