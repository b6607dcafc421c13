//! Roles of agents, and what an agent does about a conflict of roles (RFC 8445, section 7.3.1.1).

ghost use Rattle.std.specs.Prelude.{◌≡◌};
ghost use Rattle.ice_attrs.specs.Roles.{role_decision};

use stun_types::attribute::ErrorCode;

/// The role of an agent (RFC 8445, section 6.1.1).
#[derive(Clone, Copy, Debug, PartialEq, Eq)]
pub enum Role {
    /// The controlling agent decides which candidate pairs are used. Its checks have
    /// ICE-CONTROLLING.
    Controlling,
    /// The controlled agent leaves the decision to its peer, and its checks have ICE-CONTROLLED.
    Controlled,
}

impl Role {
    ghost use Rattle.std.specs.Prelude.{◌≡◌};
    ghost use Rattle.ice_attrs.specs.Roles.{other_role};

    /// Returns the other role: the one that an agent switches to.
    pub fn other(self) -> Role
        ensures { result ≡ other_role self }
    {
        match self {
            Role::Controlling => Role::Controlled,
            Role::Controlled => Role::Controlling,
        }
    }
}

/// The reaction of an agent to the role that a check shows (RFC 8445, section 7.3.1.1).
#[derive(Clone, Copy, Debug, PartialEq, Eq)]
pub enum RoleDecision {
    /// The agent keeps its role and answers the check, since there is no conflict.
    Keep,
    /// The agent switches to the other role and answers the check. It computes the priorities of
    /// its pairs again.
    Switch,
    /// The agent keeps its role and answers with error 487 (Role Conflict).
    Refuse,
}

impl RoleDecision {
    ghost use Rattle.std.specs.Prelude.{◌≡◌};
    ghost use Rattle.ice_attrs.specs.Roles.{refusal_code};

    /// Returns the code of the error response: 487 (Role Conflict) for `Refuse`, and `None` for a
    /// success response.
    ///
    /// # Examples
    ///
    /// ```
    /// use ice_attrs::{ROLE_CONFLICT, RoleDecision};
    ///
    /// assert_eq!(rt; RoleDecision::Refuse.error_code(), Some(ROLE_CONFLICT));
    /// assert_eq!(rt; RoleDecision::Switch.error_code(), None);
    /// ```
    pub fn error_code(self) -> Option<u16>
        ensures { result ≡ refusal_code self }
    {
        match self {
            RoleDecision::Keep | RoleDecision::Switch => None,
            RoleDecision::Refuse => Some(ErrorCode::ROLE_CONFLICT),
        }
    }
}

/// Decides what an agent of a role and a tiebreaker does about a check whose ICE-CONTROLLING or
/// ICE-CONTROLLED, which is `shown`, has the value `contents` (RFC 8445, section 7.3.1.1).
///
/// The agent that sent the check and receives error 487 switches to the other role than its request
/// showed, changes its tiebreaker, and checks the pair again (section 7.2.5.1). So of two agents
/// that have one role the one with the greater tiebreaker ends as the controlling one, whichever
/// sends the first check ([`greater_tiebreaker_controls`](crate::greater_tiebreaker_controls)).
///
/// # Examples
///
/// ```
/// use ice_attrs::{Role, RoleDecision, decide_role};
///
/// // Two controlling agents: the one with the greater tiebreaker keeps its role.
/// let controlling = Role::Controlling;
/// assert_eq!(rt; decide_role(controlling, 9, controlling, 5), RoleDecision::Refuse);
/// assert_eq!(rt; decide_role(controlling, 5, controlling, 9), RoleDecision::Switch);
/// // The agents agree.
/// assert_eq!(rt; decide_role(controlling, 5, Role::Controlled, 9), RoleDecision::Keep);
/// ```
pub fn decide_role(role: Role, tiebreaker: u64, shown: Role, contents: u64) -> RoleDecision
    ensures { result ≡ role_decision role tiebreaker shown contents }
{
    if role != shown {
        return RoleDecision::Keep;
    }
    match (role, tiebreaker >= contents) {
        (Role::Controlling, true) | (Role::Controlled, false) => RoleDecision::Refuse,
        (Role::Controlling, false) | (Role::Controlled, true) => RoleDecision::Switch,
    }
}
