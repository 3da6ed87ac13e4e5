ghost use Rattle.std.specs.Prelude.{◌≡◌, ℕ, List, [], map};
ghost use Rattle.std.specs.declared.option.Option.{Option};
ghost use Rattle.ctrl_model.specs.Membership.{Among};
ghost use Rattle.ctrl_model.specs.Networks.{network_of, seen};
ghost use Rattle.ctrl_model.specs.Numbered.{numbers, Between};
ghost use Rattle.ctrl_model.specs.Settling.{granted_in, stays_in, settle};
ghost use Rattle.ctrl_model.specs.State.{State, Circuit};
ghost use Rattle.record_tables.specs.Climbing.{Climbs};
ghost use Rattle.circuits.specs.CircuitChanges.{circuits_of, without_circuits};
ghost use Rattle.circuits.specs.MovedCircuits.{moved_numbers, moves_by, ended_by, with_moves};
ghost use Rattle.circuit_settling.specs.OtherLinks.{other_links, way_in, going_in, before_circuits};
ghost use Rattle.circuit_settling.specs.PresentRecords.{network, stays};

/// A circuit stays in a state exactly where it stays in the state's network beside its identities and services; and of the
/// network the terminators, the links, the least router cost and the routers suffice.
pub fn as_a_state_settles()
    ensures network { (s : State) (row : ℕ × Circuit) → stays (network_of s) (numbers s.identities.rows) (numbers s.services.rows) row.1 ≡ stays_in s row }
    ensures parts { (s : State) (row : ℕ × Circuit) → stays (network (record { terminators = s.terminators; loads = [] }) (record { links = s.links; least = s.least_router_cost }) (map seen s.routers.rows)) (numbers s.identities.rows) (numbers s.services.rows) row.1 ≡ stays_in s row }
{}

/// The circuits of a state that is settled are those before, of which the ones that do not stay as they are are moved to the links of the
/// least path, where there is one and what granted them stands, and else end. For the least path of a state the terminators, the links, the
/// least router cost and the routers suffice; and what granted a circuit stands beside the links and terminators that stay exactly where it
/// stood before these were filtered.
pub fn what_becomes_of_circuits()
    ensures settled { (t : State) (lost : List ℕ) → Between 1 t.circuits.next t.circuits.rows → lost ≡ going_in t
        → with_moves (moves_by (way_in t) lost) (without_circuits (ended_by (way_in t) lost) (circuits_of t)) ≡ circuits_of (settle t) }
    ensures parts { (s : State) (c : Circuit) → other_links (network (record { terminators = s.terminators; loads = [] }) (record { links = s.links; least = s.least_router_cost }) (map seen s.routers.rows)) (numbers s.identities.rows) (numbers s.services.rows) c
        ≡ other_links (network_of s) (numbers s.identities.rows) (numbers s.services.rows) c }
    ensures granted { (s : State) (row : ℕ × Circuit) (high : ℕ) → Between 1 high s.terminators.rows → granted_in (before_circuits s) row ≡ granted_in s row }
{}

/// The numbers of the circuits that end and of those that are moved are among the ones that do not stay, and these climb.
pub fn where_circuits_differ()
    ensures ended { (way : ℕ → Option (List ℕ)) (lost : List ℕ) (n : ℕ) → Among n (ended_by way lost) → Among n lost }
    ensures moved { (way : ℕ → Option (List ℕ)) (lost : List ℕ) (n : ℕ) → Among n (moved_numbers (moves_by way lost)) → Among n lost }
    ensures climb { (s : State) → Between 1 s.circuits.next s.circuits.rows → Climbs (λ n. n) (going_in s) }
{}
