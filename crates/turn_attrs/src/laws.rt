//! Laws of TURN's attributes: the number of some fields holds the fields that it was made of, so
//! that what is written is read back (`stun_attributes::packed_attribute_is_read_back`). Each function does
//! nothing: its contract is the law.

ghost use Rattle.std.specs.Prelude.{◌≡◌, ◌≤◌, ◌<◌, ◌^◌, ◌+◌, ℕ, Bool, List, length, None, Some, Result, IsTrue, MatchResult};
ghost use Rattle.stun_framing.specs.declared.channel_range.ChannelRange.{ChannelRange};
ghost use Rattle.stun_framing.specs.Framing.{IsChannelData, begins_channel, channel_length};
ghost use Rattle.stun_grammar.specs.declared.error.StunParseError.{StunParseError};
ghost use Rattle.stun_grammar.specs.declared.error.StunParseError.TheVariants.{OutOfMemory};
ghost use Rattle.stun_base.specs.declared.transport.AddressFamily.{AddressFamily};
ghost use Rattle.stun_attributes.specs.ErrorCodes.{error_code, error_reason, IsError};
ghost use Rattle.turn_attrs.specs.declared.address_error_code.AddressErrorCode.{AddressErrorCode};
ghost use Rattle.turn_attrs.specs.declared.channel_data.ChannelData.{ChannelData};
ghost use Rattle.turn_attrs.specs.declared.family.Ipv6AddressFamily.{Ipv6AddressFamily};
ghost use Rattle.turn_attrs.specs.declared.icmp.IcmpError.{IcmpError};
ghost use Rattle.stun_grammar.specs.Numbers.{padded_length};
ghost use Rattle.turn_attrs.specs.ChannelMessages.{channel_fault_in, data_of, padded_bytes};
ghost use Rattle.turn_attrs.specs.Channels.{channel_in, old_channel_in, channel_number, is_channel_in, begin_fault_in, data_length};
ghost use Rattle.turn_attrs.specs.Turn.{address_error_value, failed_error, failed_family, family_in, family_number, icmp_in, icmp_number, ipv6_in, ipv6_number, protocol_in, protocol_number, reserve_in, reserve_number, ReadsAddressError};

/// The number that encodes a channel, a family, a flag, a protocol or an ICMP error holds it, so
/// that each is read back.
pub fn fields_are_held()
    ensures channel { (channel : ℕ) → 0x4000 ≤ channel → channel ≤ 0x4FFF
        → channel_in (channel_number channel) ≡ Some channel }
    ensures old_channel { (channel : ℕ) → 0x4000 ≤ channel → channel ≤ 0x7FFF
        → old_channel_in (channel_number channel) ≡ Some channel }
    ensures family { (family : AddressFamily) → family_in (family_number family) ≡ Some family }
    ensures ipv6 { (family : Ipv6AddressFamily) → ipv6_in (ipv6_number family) ≡ Some family }
    ensures reserve { (reserve : Bool) → reserve_in (reserve_number reserve) ≡ Some reserve }
    ensures protocol { (protocol : ℕ) → protocol_in (protocol_number protocol) ≡ Some protocol }
    ensures icmp { (error : IcmpError) → error.icmp_type < 256 → error.code < 256
        → error.«data» < 2 ^ 32 → icmp_in (icmp_number error) ≡ Some error }
{}

/// An ADDRESS-ERROR-CODE that is written is read back as the same value, unless out of memory.
#[tactic(auto, using(crate::proofs::AddressErrorsLemmas::address_error_back))]
pub fn address_error_is_read_back()
    ensures { (attribute : AddressErrorCode) (result : Result AddressErrorCode StunParseError)
        → ReadsAddressError (address_error_value attribute) result
        → MatchResult result
        (λ read. (failed_family read ≡ failed_family attribute)
        × IsError (error_code (failed_error attribute)) (error_reason (failed_error attribute))
        (failed_error read))
        (λ e. e ≡ OutOfMemory) }
{}

/// The ChannelData that a stream between a TURN client and its server cuts is read
/// (`ChannelData::from_bytes_in`), and is as long as `channel_data_length_in` says; both know it by
/// the same first byte; and what is written with its padding is ChannelData of such a stream: for
/// channels with the numbers of either range.
pub fn channel_data_is_framed()
    ensures read { (range : ChannelRange) (size : ℕ) (m : List ℕ) → IsChannelData range size m
        → channel_fault_in range m ≡ None }
    ensures long { (b : List ℕ) → channel_length b ≡ padded_length (4 + data_length b) }
    ensures begins { (range : ChannelRange) (b : List ℕ) → begin_fault_in range b ≡ None
        → IsTrue (begins_channel range b) }
    ensures written { (range : ChannelRange) (message : ChannelData) (size : ℕ)
        → IsTrue (is_channel_in range message.channel) → length (data_of message) ≤ 65535
        → length (padded_bytes message) ≤ size → IsChannelData range size (padded_bytes message) }
{}
