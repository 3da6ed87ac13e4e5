ghost use Rattle.std.specs.Prelude.{◌≡◌, ◌==◌, [], ◌∷◌, codes, true, false, map};
ghost use Rattle.ctrl_model.specs.declared.commands.Command.TheVariants.{DeleteCircuit, ReportLatency, ShowCircuit};
ghost use Rattle.ctrl_model.specs.declared.kinds.Kind.TheVariants as kind;
ghost use Rattle.ctrl_model.specs.Settling.{granted_in, stays_in};
ghost use Rattle.ctrl_model.specs.WorkedStates.{after, line_in_use, ungranted};
ghost use Rattle.model_laws.specs.JudgedCircuits.{AreGranted};
ghost use Rattle.policy_store.specs.declared.changes.PolicyChange.TheVariants as policy;
ghost use Rattle.terminators.specs.declared.changes.TermChange.TheVariants as term;
ghost use Rattle.circuits.specs.declared.changes.CircuitChange.TheVariants as circuit;
ghost use Rattle.intercepts.specs.declared.changes.InterceptChange.TheVariants as claim;
ghost use Rattle.circuits.specs.WorkedCircuits.{now_over, over};
ghost use Rattle.circuit_settling.specs.WorkedLines.{unsettled};
ghost use Rattle.core_stores.specs.declared.changes.Change.TheVariants.{Policy, Terminator, Circuit, Intercept};
ghost use Rattle.core_stores.specs.declared.loads.Loads.TheVariants.{Same, More, Any};
ghost use Rattle.core_stores.specs.OpenCircuits.{CountsBut, CountsOpen, EndThere, loads_after};
ghost use Rattle.core_stores.specs.SettledNumbers.{SettlesNothing, without_settled};
ghost use Rattle.core_stores.specs.StoredState.{state_of};
ghost use Rattle.circuit_settling.specs.OtherLinks.{going_after};
ghost use Rattle.circuit_settling.specs.EmptiedPairs.{empties, no_pairs};
ghost use Rattle.circuit_settling.specs.LookedCircuits.{needs};
ghost use Rattle.ctrl_core.specs.SettledRecords.{AreSettled};
ghost use Rattle.core_laws.specs.WorkedSettling.{nothing, counting, hosted, offer, with_another_service, without_the_middle, without_the_end};

/// A circuit over links 1 and 2, of which link 2 is down, goes on over link 3. One that nothing grants ends. With the router in the middle
/// both links go and the circuit ends; with the router at the end its own link, its terminator and the circuit. Else nothing settles.
pub fn what_settles()
    ensures nothing_named { SettlesNothing nothing }
    ensures granted { AreSettled line_in_use nothing }
    ensures link_down { AreSettled unsettled (record nothing { going = 1 ∷ []; moves = now_over 1 (3 ∷ []) ∷ [] }) }
    ensures ungranted { AreSettled ungranted (record nothing { going = 1 ∷ []; ended = 1 ∷ [] }) }
    ensures middle { AreSettled without_the_middle (record nothing { links = 1 ∷ 2 ∷ []; going = 1 ∷ []; ended = 1 ∷ [] }) }
    ensures end { AreSettled without_the_end (record nothing { links = 2 ∷ []; terminators = 1 ∷ []; going = 1 ∷ []; ended = 1 ∷ [] }) }
    ensures taken_out { (without_settled (record nothing { links = 1 ∷ 2 ∷ []; going = 1 ∷ []; ended = 1 ∷ [] }) without_the_middle).circuits.rows ≡ [] }
{}

/// The circuit of the line is granted, and without the policy that granted it it is not.
pub fn granted_circuits()
    ensures granted { map (granted_in line_in_use) line_in_use.circuits.rows ≡ true ∷ [] }
    ensures not_granted { AreGranted ungranted → ⊥ }
{}

/// A circuit whose terminator is of another service than its own, which is present: its path holds, and nothing grants it. What only
/// shows leaves it, and what is refused does; the first effect, as a latency that is reported, ends it.
pub fn circuits_of_another_service()
    ensures reaches { map (stays_in with_another_service) with_another_service.circuits.rows ≡ true ∷ [] }
    ensures not_granted { map (granted_in with_another_service) with_another_service.circuits.rows ≡ false ∷ [] }
    ensures shown { after (ShowCircuit 1 ∷ []) with_another_service ≡ with_another_service }
    ensures refused { after (DeleteCircuit 2 ∷ []) with_another_service ≡ with_another_service }
    ensures first_effect { (after (ReportLatency (codes "l1") (codes "r1") 6 ∷ []) with_another_service).circuits.rows ≡ [] }
{}

/// Of circuits 1, 2 and 3, where circuit 1 is granted and circuit 2 has its path: where each grant is known to stand those go whose path
/// is taken; where no path is taken those whose grant is gone; and else those that do not stay.
pub fn circuits_that_go()
    ensures pathless { going_after true (2 ∷ []) (1 ∷ 2 ∷ 3 ∷ []) (λ n. n == 1) (λ n. n == 2) ≡ 2 ∷ [] }
    ensures none { going_after true [] (1 ∷ 2 ∷ 3 ∷ []) (λ n. n == 1) (λ n. n == 2) ≡ [] }
    ensures revoked { going_after false [] (1 ∷ 2 ∷ 3 ∷ []) (λ n. n == 1) (λ n. n == 2) ≡ 2 ∷ 3 ∷ [] }
    ensures both { going_after false (3 ∷ []) (1 ∷ 2 ∷ 3 ∷ []) (λ n. n == 1) (λ n. n == 2) ≡ 1 ∷ 3 ∷ [] }
{}

/// A circuit of identity 3 and service 2 from router 1 needs Dial of the one on the other, that each shares router 1, and, where its terminator
/// has the host 7, what lets that one serve on router 3; and no pair of other numbers.
pub fn pairs_that_circuits_need()
    ensures dials { needs (record no_pairs { dial = ((3, 2), 1) ∷ [] }) hosted (over []) ≡ true }
    ensures turned { needs (record no_pairs { dial = ((2, 3), 1) ∷ [] }) hosted (over []) ≡ false }
    ensures enters { needs (record no_pairs { identity_router = ((3, 1), 1) ∷ [] }) hosted (over []) ≡ true }
    ensures enters_elsewhere { needs (record no_pairs { identity_router = ((3, 3), 1) ∷ [] }) hosted (over []) ≡ false }
    ensures shares { needs (record no_pairs { service_router = ((2, 1), 1) ∷ [] }) hosted (over []) ≡ true }
    ensures binds { needs (record no_pairs { bind = ((7, 2), 1) ∷ [] }) hosted (over []) ≡ true }
    ensures serves { needs (record no_pairs { identity_router = ((7, 3), 1) ∷ [] }) hosted (over []) ≡ true }
    ensures ends { needs (record no_pairs { service_router = ((2, 3), 1) ∷ [] }) hosted (over []) ≡ true }
    ensures no_host { needs (record no_pairs { service_router = ((2, 3), 1) ∷ [] }) ((1, offer) ∷ []) (over []) ≡ false }
    ensures none { needs no_pairs hosted (over []) ≡ false }
{}

/// A step down at a pair without a count behind all steps is told once; one at a pair that keeps a count, and one up, are not.
pub fn pairs_that_are_emptied()
    ensures first { empties (λ a b. 0) [] (record { a = 3; b = 2; up = false }) ≡ true }
    ensures again { empties (λ a b. 0) (((3, 2), 1) ∷ []) (record { a = 3; b = 2; up = false }) ≡ false }
    ensures kept { empties (λ a b. 1) [] (record { a = 3; b = 2; up = false }) ≡ false }
    ensures up { empties (λ a b. 0) [] (record { a = 3; b = 2; up = true }) ≡ false }
{}

/// Loads change where a circuit comes, at its terminator, or anywhere where one goes, or where a terminator or a circuit settles.
pub fn where_loads_change()
    ensures policy { loads_after (Policy (policy.Remove kind.ServicePolicy 1)) nothing ≡ Same }
    ensures terminator { loads_after (Terminator (term.Remove (record { 0 = 1 }))) nothing ≡ Same }
    ensures intercept { loads_after (Intercept (claim.Remove (record { 0 = 1 }))) nothing ≡ Same }
    ensures comes { loads_after (Circuit (circuit.Add (over []))) nothing ≡ More (record { 0 = 1 }) }
    ensures goes { loads_after (Circuit (circuit.Remove (record { 0 = 1 }))) nothing ≡ Any }
    ensures terminators { loads_after (Policy (policy.Remove kind.ServicePolicy 1)) (record nothing { terminators = 1 ∷ [] }) ≡ Any }
    ensures circuits { loads_after (Circuit (circuit.Add (over []))) (record nothing { going = 1 ∷ []; moves = now_over 1 [] ∷ [] }) ≡ Any }
{}

/// Of two circuits to terminator 1 all are counted where its load is 2, and one is not yet where it is 1.
pub fn kept_loads()
    ensures ends { EndThere (state_of (counting 2)) }
    ensures both { CountsOpen (counting 2) }
    ensures one { CountsOpen (counting 1) → ⊥ }
    ensures but_none { CountsBut Same (counting 2) }
    ensures but_one { CountsBut (More (record { 0 = 1 })) (counting 1) }
    ensures but_two { CountsBut (More (record { 0 = 1 })) (counting 0) → ⊥ }
    ensures another { CountsBut (More (record { 0 = 2 })) (counting 1) → ⊥ }
    ensures whatever { CountsBut Any (counting 7) }
{}
