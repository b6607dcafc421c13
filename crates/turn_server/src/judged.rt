//! What comes of a client's datagram.

ghost use Rattle.std.specs.Prelude.{◌≡◌};
ghost use Rattle.stun_base.specs.MessageTypes.{class_of};
ghost use Rattle.stun_base.specs.declared.message_class.MessageClass.TheVariants.{Request};
ghost use Rattle.stun_grammar.specs.Headers.{type_field};
ghost use Rattle.stun_types.specs.Message.{message_bytes};

use crate::Span;
use stun_authentication::{Accepted, Refusal};
use stun_endpoints::Endpoint;
use stun_types::message::Message;
use turn_slots::UserId;

/// A request that was read.
#[derive(Drop)]
pub(crate) struct Asking<'d> {
    pub(crate) message: Message<'d>,
    ghost is_request: { class_of (type_field (message_bytes message)) ≡ Request },
}

/// What comes of a client's datagram. A request is read once: it comes along.
#[derive(Drop)]
pub(crate) enum Judged<'d> {
    /// Nothing.
    Dropped,
    /// A Binding request. It gets a reply that isn't signed.
    Binding(Asking<'d>),
    /// A request that is refused by an error response that isn't signed: 400, 401 or 438.
    Refused(Asking<'d>, Refusal),
    /// A user's request that shows types that aren't comprehended: it is refused with 420, signed by
    /// the user's key.
    Unknown(Asking<'d>, Accepted<'d>),
    /// The data of a Send indication, for a peer, with the DF bit or without.
    Sent {
        peer: Endpoint,
        dont_fragment: bool,
        data: Span,
    },
    /// The data of a ChannelData message.
    SentOn {
        channel: u16,
        data: Span,
    },
    /// A user's request for the allocations. The answer is signed by the user's key.
    Asked {
        request: Asking<'d>,
        user: UserId,
        accepted: Accepted<'d>,
    },
}
