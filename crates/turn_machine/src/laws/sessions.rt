//! What is computed: whole sessions, and the tests of equality.

ghost use Rattle.std.specs.Prelude.{◌≡◌, ◌↔◌, [], ◌∷◌, map, true};
ghost use Rattle.stun_endpoints.specs.declared.endpoints.Ip.{Ip};
ghost use Rattle.stun_endpoints.specs.declared.endpoints.Endpoint.{Endpoint};
ghost use Rattle.stun_endpoints.specs.declared.endpoints.FiveTuple.{FiveTuple};
ghost use Rattle.stun_endpoints.specs.Endpoints.{is_ip, is_endpoint, is_tuple};
ghost use Rattle.turn_machine.specs.Runs.{run, history};
ghost use Rattle.turn_machine.specs.Flows.{flow_of};
ghost use Rattle.turn_machine.specs.Examples.{small_setup, dual_setup, session, expected, flood, flood_expected, closed_by, dual, dual_expected, outputs};
ghost use Rattle.turn_machine.specs.Edges.{outputs_of, expected_of, plain_setup, icmp_setup, channel_setup, requests, data_cases, icmp_cases, channel_cases, held_outputs_of, held_tokens, held_cases};
ghost use Rattle.turn_machine.specs.FlowCases.{flow_cases, channel_flow_cases};
ghost use Rattle.turn_machine.specs.Numbers.{all_closed};

/// Whole sessions, evaluated by the prover: the output of each event and the sockets to be closed, and the
/// edges of all rules to the nanosecond. The expected outputs are written from the RFC and the choices above.
pub fn sessions_go_so()
    ensures session { outputs (history small_setup session) ≡ expected }
    ensures flood { outputs (history small_setup flood) ≡ flood_expected }
    ensures closed { closed_by (history small_setup flood)
        ≡ ([] ∷ [] ∷ (1 ∷ []) ∷ [] ∷ (0 ∷ []) ∷ [] ∷ []) }
    ensures reported { all_closed (history small_setup session) ≡ (1 ∷ 0 ∷ []) }
    ensures dual { outputs (history dual_setup dual) ≡ dual_expected }
    ensures requests { outputs_of plain_setup requests ≡ expected_of requests }
    ensures data { outputs_of plain_setup data_cases ≡ expected_of data_cases }
    ensures icmp { outputs_of icmp_setup icmp_cases ≡ expected_of icmp_cases }
    ensures flows { map (λ c. flow_of (run plain_setup c.earlier) c.tuple c.channel) flow_cases
        ≡ map (λ c. c.flow) flow_cases }
    ensures channels { outputs_of channel_setup channel_cases ≡ expected_of channel_cases }
    ensures channel_flows { map (λ c. flow_of (run channel_setup c.earlier) c.tuple c.channel)
        channel_flow_cases ≡ map (λ c. c.flow) channel_flow_cases }
    ensures held { held_outputs_of plain_setup held_cases ≡ map (λ c. c.reply) held_cases }
    ensures held_tokens { held_tokens plain_setup held_cases ≡ map (λ c. c.token) held_cases }
{}

/// The tests by which the definitions compare IP addresses, transport addresses and 5-tuples are equality.
pub fn tests_are_equality()
    ensures ips { (a b : Ip) → (is_ip a b ≡ true) ↔ (a ≡ b) }
    ensures endpoints { (a b : Endpoint) → (is_endpoint a b ≡ true) ↔ (a ≡ b) }
    ensures tuples { (a b : FiveTuple) → (is_tuple a b ≡ true) ↔ (a ≡ b) }
{}
