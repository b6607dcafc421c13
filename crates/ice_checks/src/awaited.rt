//! The checks that a response is waited for.

ghost use Rattle.std.specs.Prelude.{◌≡◌, ℕ, Bool};

use ice_machine::Request;

/// The checks that a response is waited for. A slice of [`Request`]s has those of its transaction IDs.
pub trait AwaitedChecks {
    ghost is_awaited: { Self → ℕ → Bool };

    /// Returns `true` if a response to the check with this transaction ID is waited for.
    fn awaits(&self, id: u128) -> bool
        ensures { result ≡ is_awaited self.now id };
}

impl AwaitedChecks for &[Request] {
    ghost use Rattle.std.specs.List.{list_any};
    ghost use Rattle.ice_machine.specs.Steps.{is_request};

    ghost is_awaited = { λ requests id. list_any (is_request id) requests.now };

    fn awaits(&self, id: u128) -> bool {
        self.iter().any(|request| request.id == id)
    }
}
