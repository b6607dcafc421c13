//! What depends on the phase.

ghost use Rattle.std.specs.Prelude.{◌≡◌};
ghost use Rattle.turn_client_machine.specs.Clients as machine;
ghost use Rattle.turn_client_machine.specs.Responses as responses;
ghost use Rattle.turn_client_machine.specs.Steps as steps;

use turn_client_machine::{End, Kind, Phase};

pub(crate) fn is_allocated(phase: Phase) -> bool
    ensures { result ≡ machine.is_allocated phase }
{
    match phase {
        Phase::Allocated => true,
        Phase::Quiet | Phase::Asking | Phase::Closing(_) | Phase::Ended(_) => false,
    }
}

pub(crate) fn is_active(phase: Phase) -> bool
    ensures { result ≡ machine.is_active phase }
{
    match phase {
        Phase::Asking | Phase::Allocated | Phase::Closing(_) => true,
        Phase::Quiet | Phase::Ended(_) => false,
    }
}

/// Why a client ends once its allocation is deleted.
pub(crate) fn reason_in(phase: Phase) -> End
    ensures { result ≡ responses.reason_in phase }
{
    match phase {
        Phase::Quiet | Phase::Asking | Phase::Allocated => End::Closed,
        Phase::Closing(why) | Phase::Ended(why) => why,
    }
}

/// The request for the allocation itself.
pub(crate) fn kind_in(phase: Phase) -> Kind
    ensures { result ≡ steps.kind_in phase }
{
    match phase {
        Phase::Quiet | Phase::Asking => Kind::Allocate,
        Phase::Allocated => Kind::Refresh,
        Phase::Closing(_) | Phase::Ended(_) => Kind::Delete,
    }
}

/// Why a client ends to which no response has come in time.
pub(crate) fn silent_in(violated: bool, phase: Phase) -> End
    ensures { result ≡ steps.silent_in violated phase }
{
    match phase {
        Phase::Quiet => End::Silent,
        Phase::Asking | Phase::Allocated => {
            if violated {
                End::IntegrityViolated
            } else {
                End::Silent
            }
        }
        Phase::Closing(why) | Phase::Ended(why) => why,
    }
}

pub(crate) fn is_allocate(kind: Kind) -> bool
    ensures { result ≡ responses.is_allocate kind }
{
    match kind {
        Kind::Allocate => true,
        Kind::Refresh | Kind::Delete | Kind::Permit(_) | Kind::Bind { .. } => false,
    }
}

pub(crate) fn is_delete(kind: Kind) -> bool
    ensures { result ≡ responses.is_delete kind }
{
    match kind {
        Kind::Delete => true,
        Kind::Allocate | Kind::Refresh | Kind::Permit(_) | Kind::Bind { .. } => false,
    }
}
