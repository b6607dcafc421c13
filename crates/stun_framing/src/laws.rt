//! Laws of streams. Each function does nothing: its contract is the law.

ghost use Rattle.std.specs.Prelude.{◌≡◌, ℕ, ◌%◌, ◌≤◌, List, [], ◌++◌, length, take, true, None, Some, Ok, Err};
ghost use Rattle.stun_grammar.specs.Numbers.{IsBytes};
ghost use Rattle.stun_grammar.specs.Showing.{frame_fault};
ghost use Rattle.stun_framing.specs.declared.channel_range.ChannelRange.{ChannelRange};
ghost use Rattle.stun_framing.specs.declared.error.StreamError.{StreamError};
ghost use Rattle.stun_framing.specs.declared.error.StreamFault.{StreamFault};
ghost use Rattle.stun_framing.specs.Framing.{Room, IsStunMessage, IsChannelData, IsMessage, IsCut, MayBegin, stream_fault};
ghost use Rattle.stun_framing.specs.Streams.{Stream, begun, resumed, can_resume, answer, left};
ghost use Rattle.stun_framing.specs.Runs.{message_in, IsHandedOver, left_by, yielded, IsDone, Says, HasCome};

use stun_base::GREATEST_MESSAGE;

/// The messages that the calls yield, and where and why they stop, are those that the bytes of the
/// stream say, however these are cut into pieces.
#[tactic(auto, using(crate::proofs::RunsLemmas::said))]
pub fn cuts_change_nothing()
    ensures { (room : Room) (bytes : List ℕ) (pieces : List (List ℕ))
        → IsHandedOver (begun room) bytes pieces → IsDone (begun room) bytes pieces
        → Says room bytes (yielded (begun room) pieces) (left_by (begun room) pieces).error }
{}

/// The bytes of a stream are cut into messages and a rest in one way alone.
pub fn one_cut()
    ensures { (room : Room) (bytes : List ℕ) (messages others : List (List ℕ)) (rest other : List ℕ)
        → IsCut room bytes messages rest → IsCut room bytes others other
        → (messages ≡ others) × (rest ≡ other) }
{}

/// A STUN message of a stream is a header and as many bytes as it states, so that none is refused
/// for its length; all such bytes are one if their length is a multiple of 4 and the buffer takes
/// them; no message is longer than [`GREATEST_MESSAGE`](stun_base::GREATEST_MESSAGE); and no bytes are
/// both a STUN message and a ChannelData message.
pub fn messages_are_framed()
    ensures framed { (size : ℕ) (m : List ℕ) → IsStunMessage size m → frame_fault m ≡ None }
    ensures taken { (size : ℕ) (m : List ℕ) → frame_fault m ≡ None → length m % 4 ≡ 0
        → length m ≤ size → IsStunMessage size m }
    ensures longest { (room : Room) (m : List ℕ) → IsMessage room m → IsBytes m
        → length m ≤ GREATEST_MESSAGE }
    ensures apart { (range : ChannelRange) (size : ℕ) (m : List ℕ) → IsStunMessage size m
        → ¬ (IsChannelData range size m) }
{}

/// A stream ends only at bytes with which no message may begin; and from the fourth byte on, with
/// which the length field is there, at all such bytes.
#[tactic(auto, using(crate::proofs::CutsLemmas::refused, crate::proofs::CutsLemmas::goes_on))]
pub fn faults_are_right()
    ensures refused { (room : Room) (b : List ℕ) (fault : StreamFault)
        → stream_fault room b ≡ Some fault → ¬ (MayBegin room b) }
    ensures goes_on { (room : Room) (b : List ℕ) → 4 ≤ length b
        → stream_fault room b ≡ None → MayBegin room b }
{}

/// A call that returns `Ok` takes the bytes that it says, and yields the message that they
/// complete; one that is refused says what the bytes up to its own say. So a loop over calls may
/// keep how much of a stream has come, from none on.
pub fn calls_go_on()
    ensures none { (room : Room) → HasCome room [] [] (begun room) }
    ensures comes { (room : Room) (bytes : List ℕ) (messages : List (List ℕ)) (stream : Stream)
        (piece : List ℕ) (taken : ℕ) → HasCome room bytes messages stream
        → answer stream piece ≡ Ok taken
        → HasCome room (bytes ++ take taken piece)
        (messages ++ message_in (left stream piece).message) (left stream piece) }
    ensures stops { (room : Room) (bytes : List ℕ) (messages : List (List ℕ)) (stream : Stream)
        (piece : List ℕ) (error : StreamError) → HasCome room bytes messages stream
        → answer stream piece ≡ Err error → Says room (bytes ++ piece) messages (Some error) }
{}

/// A stream that hasn't ended is resumed from its pending bytes, at the start of a buffer as long
/// as before, and its offset: as much of it has come, and each further call returns and leaves what
/// it would have. Only a complete message that the last call yielded is gone.
pub fn resuming_changes_nothing()
    ensures resumes { (room : Room) (bytes : List ℕ) (messages : List (List ℕ)) (stream : Stream)
        (buffer : List ℕ) → HasCome room bytes messages stream → 20 ≤ room.size → length buffer ≡ room.size
        → take (length stream.pending) buffer ≡ stream.pending
        → can_resume room.carries buffer (length stream.pending) ≡ true }
    ensures comes { (room : Room) (bytes : List ℕ) (messages : List (List ℕ)) (stream : Stream)
        → HasCome room bytes messages stream
        → HasCome room bytes messages (resumed room stream.offset stream.pending) }
    ensures goes_on { (stream : Stream) (piece : List ℕ) → stream.error ≡ None
        → (answer (resumed stream.room stream.offset stream.pending) piece ≡ answer stream piece)
        × (left (resumed stream.room stream.offset stream.pending) piece ≡ left stream piece) }
{}
