//! Laws of ICE. Each function does nothing: its contract is the law.

ghost use Rattle.std.specs.Prelude.{◌≡◌, ◌<◌, ◌≤◌, ℕ, List};
ghost use Rattle.ice_attrs.specs.declared.roles.Role.{Role};
ghost use Rattle.ice_attrs.specs.Roles.{settled};
ghost use Rattle.ice_attrs.specs.Credentials.{IsCheckUsername};

/// The agent with the greater tiebreaker, of two that have one role, is the controlling one once a
/// check between them is decided, whichever sent it; if the tiebreakers are equal, the one that
/// received it.
pub fn greater_tiebreaker_controls()
    ensures received { (role : Role) (sender receiver : ℕ) → sender ≤ receiver
        → settled role sender receiver ≡ (Role.Controlled, Role.Controlling) }
    ensures sent { (role : Role) (sender receiver : ℕ) → receiver < sender
        → settled role sender receiver ≡ (Role.Controlling, Role.Controlled) }
{}

/// The USERNAME of a check is split into its two fragments in one way alone.
pub fn one_split()
    ensures { (username receiver sender other another : List ℕ)
        → IsCheckUsername username receiver sender → IsCheckUsername username other another
        → (receiver ≡ other) × (sender ≡ another) }
{}
