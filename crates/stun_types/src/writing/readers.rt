//! The header of a message that is being written.

ghost use Rattle.std.specs.Prelude.{◌≡◌, true};
ghost use Rattle.stun_grammar.specs.Headers.{is_header};
ghost use Rattle.stun_base.specs.MessageTypes.{header_of};

use crate::message::MessageHeader;
use crate::writing::MessageWrite;
use stun_base::read_header;

/// The header that the bytes written begin with.
#[tactic(auto, unfolding(stun_grammar::specs::Headers::is_header))]
pub(crate) fn written_header<W: MessageWrite>(write: &W) -> MessageHeader
    requires { is_header (W.state write.now).bytes ≡ true }
    ensures { result ≡ header_of (W.state write.now).bytes }
{
    read_header(write.data())
}
