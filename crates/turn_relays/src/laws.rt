//! What follows from the definitions that the contracts use.

ghost use Rattle.turn_relays.specs.Following.{ListFollowsSlots};
ghost use Rattle.turn_relays.specs.Listing.{ListHasSlots};

/// The list of relayed addresses, the newest first, follows what is in the slots: one that is opened
/// precedes all others, one that ends is left out, and one that changes, but for its number, changes in
/// its place. What one slot alone passes is what is found in the list.
pub fn list_follows_slots()
    ensures { ListFollowsSlots }
{}

/// The list of relayed addresses has exactly those in the slots: a test is true of all in the slots if and
/// only if it is true of all in the list. If exactly one or two pass a test, the list filtered by it has just
/// these, the newer first. The list has at most as many relayed addresses as there are slots, and as many if
/// no slot is free.
pub fn lists_have_slots()
    ensures { ListHasSlots }
{}
