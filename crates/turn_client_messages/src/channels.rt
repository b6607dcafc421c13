//! ChannelData messages (RFC 8656, section 12.6).

ghost use Rattle.std.specs.Prelude.{◌≡◌, ◌+◌, None, length};
ghost use Rattle.turn_attrs.specs.ChannelMessages.{IsIn, channel_fault, data_of};
ghost use Rattle.turn_client_messages.specs.Judging.{is_padded, on_channel};
ghost use Rattle.turn_client_messages.specs.Reporting.{judged_of};

use crate::Judged;
use stun_types::TransportType;
use turn_attrs::ChannelData;

/// Whether what was received ends with a message as it has to on a transport.
fn is_padded(message: &ChannelData<'_>, datagram: &[u8], transport: TransportType) -> bool
    ensures { result ≡ is_padded transport (4 + length (data_of message.now)) datagram.now }
{
    match transport {
        TransportType::Udp => true,
        TransportType::Tcp => datagram.len() == message.padded_len(),
    }
}

/// What a datagram is that holds a ChannelData message.
#[tactic(auto, using(crate::proofs::ChannelsLemmas::is_data))]
fn judge_whole<'d>(
    message: &ChannelData<'d>,
    datagram: &[u8],
    transport: TransportType,
) -> Judged<'d>
    requires whole { channel_fault datagram.now ≡ None }
    requires read { IsIn datagram.now message.now }
    ensures { judged_of result ≡ on_channel transport datagram.now }
{
    if is_padded(message, datagram, transport) {
        Judged::ChannelData {
            channel: message.channel().number(),
            data: message.data(),
        }
    } else {
        Judged::Stray
    }
}

/// What a datagram is that begins with the number of a channel.
pub(crate) fn judge_channel_data(datagram: &[u8], transport: TransportType) -> Judged<'_>
    ensures { judged_of result ≡ on_channel transport datagram.now }
{
    match ChannelData::from_bytes(datagram) {
        Ok(message) => judge_whole(&message, datagram, transport),
        Err(_) => Judged::Stray,
    }
}
