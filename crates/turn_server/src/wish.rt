//! What is read of a user's request.

use turn_allocations::Request;
use turn_reservations::{Claim, Reserve};

/// What a user's request asks for.
pub(crate) enum Wish {
    /// An Allocate request that reserves the next higher port.
    Reserves(Reserve),
    /// An Allocate request for a reserved socket.
    Claims(Claim),
    /// Any other request.
    Asks(Request<'static>),
}
