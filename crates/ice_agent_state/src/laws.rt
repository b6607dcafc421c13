//! Laws. Each function does nothing: its contract is the law.

ghost use Rattle.std.specs.Prelude.{◌≡◌, ℕ, ◌<◌, ◌==◌, true, false, List, length};
ghost use Rattle.std.specs.List.{list_any};
ghost use Rattle.ice_machine.specs.Events.{sends};
ghost use Rattle.ice_machine.specs.Steps.{at};
ghost use Rattle.ice_agent_state.specs.declared.routing.Route.{Route};
ghost use Rattle.ice_agent_state.specs.declared.status.Status.{Status};
ghost use Rattle.ice_agent_state.specs.Agents.{Held, output_at};
ghost use Rattle.ice_agent_state.specs.Outputs.{data_by};
ghost use Rattle.ice_agent_state.specs.Statuses.{status_of, route_in};
ghost use Rattle.ice_agent_state.specs.Reports.{Reports, is_route, reported, with_status, with_loss};

/// A component's data goes by the route of its status, and nowhere if it isn't connected.
pub fn statuses_are_routes()
    ensures { (held : Held) (now component : ℕ) (bytes : List ℕ)
        → output_at now 0 (sends component bytes) held
        ≡ data_by bytes (route_in (status_of component (at held.setup now held.state))) }
{}

/// What was marked as reported stays so: the status of a component, until another one is reported of it, and the
/// loss of a route's consent. There must be room for the components and the losses.
pub fn reports_stay()
    ensures status { (r : Reports) (component : ℕ) (status : Status) → 0 < r.most_statuses
        → reported component (with_status component status r).statuses ≡ status }
    ensures others { (r : Reports) (component other : ℕ) (status : Status)
        → (component == other) ≡ false → length r.statuses < r.most_statuses
        → reported other (with_status component status r).statuses ≡ reported other r.statuses }
    ensures loss { (r : Reports) (route : Route) → 0 < r.most_losses
        → list_any (is_route route) (with_loss route r).losses ≡ true }
    ensures losses { (r : Reports) (route other : Route)
        → list_any (is_route other) r.losses ≡ true → length r.losses < r.most_losses
        → list_any (is_route other) (with_loss route r).losses ≡ true }
{}
