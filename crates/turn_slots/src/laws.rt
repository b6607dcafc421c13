//! What follows from the definitions that the contracts use.

ghost use Rattle.turn_slots.specs.Lists.{ListsAgree};
ghost use Rattle.turn_slots.specs.Numbers.{NumbersGrow};
ghost use Rattle.turn_slots.specs.Users.{UserNumbersAreTheirBytes};

/// The number of each opening is above the numbers of all openings before it.
pub fn numbers_grow()
    ensures { NumbersGrow }
{}

/// But for the order, an opening puts a relayed address in front of the list of all, an end removes it, and
/// a count over the slots is one over that list.
pub fn lists_agree()
    ensures { ListsAgree }
{}

/// The number of a user made of 32 bytes is the number of these bytes, the most significant first.
pub fn user_numbers_are_their_bytes()
    ensures { UserNumbersAreTheirBytes }
{}
