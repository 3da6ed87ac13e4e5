ghost use Rattle.std.specs.Prelude.{◌≡◌, ◌↔◌, ◌⊎◌, ℕ, ◌+◌, ◌<◌, ◌≤◌, true, false, List, [], filter, None, Some};
ghost use Rattle.std.specs.Option.{option_map};
ghost use Rattle.ctrl_model.specs.declared.commands.Command.{Command};
ghost use Rattle.ctrl_model.specs.declared.kinds.Kind.{Kind};
ghost use Rattle.ctrl_model.specs.declared.kinds.Relation.{Relation};
ghost use Rattle.ctrl_model.specs.declared.kinds.Relation.TheVariants.{Dial};
ghost use Rattle.ctrl_model.specs.declared.kinds.Who.{Who};
ghost use Rattle.ctrl_model.specs.declared.refusals.Refusal.{Refusal};
ghost use Rattle.ctrl_model.specs.declared.replies.Reply.TheVariants.{Refused};
ghost use Rattle.ctrl_model.specs.Numbered.{at, map_each, numbers, Between};
ghost use Rattle.ctrl_model.specs.Limits.{last_next};
ghost use Rattle.ctrl_model.specs.State.{State, Link, Terminator, Circuit};
ghost use Rattle.ctrl_model.specs.Tables.{Record, table, has_names, record_name, named};
ghost use Rattle.ctrl_model.specs.Grants.{count, is_granted, left_entity, right_entity};
ghost use Rattle.ctrl_model.specs.Settling.{settle, revoke, repair, admits, link_stays, terminator_stays, stays_in, rerouted, settle_links, settle_terminators};
ghost use Rattle.ctrl_model.specs.Networks.{Network, network_of, is_shared, is_path, IsLeastPath};
ghost use Rattle.ctrl_model.specs.Walks.{is_among};
ghost use Rattle.model_laws.specs.JudgedCircuits.{CircuitAt, HasEnds, IsStillGranted};
ghost use Rattle.model_laws.specs.TouchedTables.{touched_by, ChangesOnly, GivesNext};
ghost use Rattle.ctrl_model.specs.Controller.{answer, counted};
ghost use Rattle.ctrl_model.specs.InterceptCommands.{is_intercept_command};
ghost use Rattle.ctrl_model.specs.SameStates.{same_state};
ghost use Rattle.ctrl_model.specs.ValidState.{ValidState};

/// A refused command leaves the state.
pub fn refused_leaves_the_state()
    ensures { (who : Who) (c : Command) (s : State) (r : Refusal) → (answer who c s).0 ≡ Refused r → (answer who c s).1 ≡ s }
{}

/// Repairing twice is repairing once. Where terminators ascend, settling is done for good: of a state settled nothing is revoked, and settling
/// it again changes nothing.
pub fn settled_once()
    ensures repaired { (s : State) → repair (repair s) ≡ repair s }
    ensures granted { (s : State) → Between 1 s.terminators.next s.terminators.rows → revoke (settle s) ≡ settle s }
    ensures settled { (s : State) → Between 1 s.terminators.next s.terminators.rows → settle (settle s) ≡ settle s }
{}

/// The next number of a kind never falls.
pub fn numbers_never_fall()
    ensures { (who : Who) (c : Command) (s : State) (k : Kind) → (table k s).next ≤ (table k (answer who c s).1).next }
{}

/// A number is never given again. Where no record of a kind stands, none stands after a command either, unless it is the one that
/// the command makes: that stands at the kind's next number, which rises by one. So a number below the next one at which nothing
/// stands stays free, whatever comes.
pub fn numbers_are_given_once()
    ensures given { (who : Who) (c : Command) (s : State) (k : Kind) → GivesNext (table k s) (table k (answer who c s).1) }
    ensures stays_free { (who : Who) (c : Command) (s : State) (k : Kind) (m : ℕ) → m < (table k s).next → at (table k s).rows m ≡ None → at (table k (answer who c s).1).rows m ≡ None }
{}

/// The count of a pair is 0 where one of the two is absent.
pub fn absent_pairs_count_nothing()
    ensures left { (relation : Relation) (s : State) (a b : ℕ) → left_entity relation s a ≡ None → count relation s a b ≡ 0 }
    ensures right { (relation : Relation) (s : State) (a b : ℕ) → right_entity relation s b ≡ None → count relation s a b ≡ 0 }
{}

/// Repairing leaves all but links, terminators and circuits. Links and terminators are filtered, and circuits are rerouted and then
/// filtered: what is there after stood there before, under its number, and a circuit is the one that stood there, rerouted.
pub fn repairing_removes_and_reroutes()
    ensures rest { (s : State) → record (repair s) { links = record (repair s).links { rows = s.links.rows }; terminators = record (repair s).terminators { rows = s.terminators.rows }; circuits = record (repair s).circuits { rows = s.circuits.rows } } ≡ s }
    ensures links { (s : State) → (repair s).links.rows ≡ filter (link_stays s) s.links.rows }
    ensures terminators { (s : State) → (repair s).terminators.rows ≡ filter (terminator_stays s) s.terminators.rows }
    ensures circuits { (s : State) → (repair s).circuits.rows
        ≡ filter (stays_in (settle_terminators (settle_links s))) (map_each (rerouted (network_of (settle_terminators (settle_links s)))) s.circuits.rows) }
    ensures link_stood { (s : State) (n : ℕ) (l : Link) → Between 1 s.links.next s.links.rows → at (repair s).links.rows n ≡ Some l → at s.links.rows n ≡ Some l }
    ensures terminator_stood { (s : State) (n : ℕ) (e : Terminator) → Between 1 s.terminators.next s.terminators.rows → at (repair s).terminators.rows n ≡ Some e → at s.terminators.rows n ≡ Some e }
    ensures circuit_stood { (s : State) (n : ℕ) (c : Circuit) → Between 1 s.circuits.next s.circuits.rows → at (repair s).circuits.rows n ≡ Some c
        → option_map (rerouted (network_of (settle_terminators (settle_links s)))) (at s.circuits.rows n) ≡ Some c }
{}

/// What becomes of a circuit of a network that is rerouted, where its terminator is present: it stays as it is where its links are a path,
/// it gets the least path where they are none and there is one, and else it stays too. Its links alone may change.
pub fn rerouted_circuits()
    ensures links_alone { (w : Network) (c : Circuit) → record (rerouted w c) { links = c.links } ≡ c }
    ensures stays { (w : Network) (c : Circuit) (e : Terminator) → at w.terminators c.terminator ≡ Some e → is_path w c.ingress c.links e.router ≡ true → rerouted w c ≡ c }
    ensures gets_the_least { (w : Network) (c : Circuit) (e : Terminator) (links : List ℕ) → at w.terminators c.terminator ≡ Some e → is_path w c.ingress c.links e.router ≡ false
        → IsLeastPath w c.ingress e.router links → rerouted w c ≡ record c { links = links } }
    ensures has_none { (w : Network) (c : Circuit) (e : Terminator) → at w.terminators c.terminator ≡ Some e → ((links : List ℕ) → is_path w c.ingress links e.router ≡ false) → rerouted w c ≡ c }
{}

/// Revoking leaves all but circuits. In a state whose circuits ascend a circuit is left as it is where its identity and its service are
/// present, the identity is granted Dial on the service, its ingress is shared by the two, and its terminator is present, is the service's
/// and can be used; and once the state is settled it is gone where one of these fails.
pub fn circuits_are_revoked()
    ensures rest { (s : State) → record (revoke s) { circuits = record (revoke s).circuits { rows = s.circuits.rows } } ≡ s }
    ensures no_identity { (s : State) (n : ℕ) (c : Circuit) → CircuitAt s n c → is_among c.identity (numbers s.identities.rows) ≡ false → at (settle s).circuits.rows n ≡ None }
    ensures no_service { (s : State) (n : ℕ) (c : Circuit) → CircuitAt s n c → is_among c.service (numbers s.services.rows) ≡ false → at (settle s).circuits.rows n ≡ None }
    ensures no_dial { (s : State) (n : ℕ) (c : Circuit) → CircuitAt s n c → is_granted Dial s c.identity c.service ≡ false → at (settle s).circuits.rows n ≡ None }
    ensures no_ingress { (s : State) (n : ℕ) (c : Circuit) → CircuitAt s n c → is_shared (network_of s) c.identity c.service c.ingress ≡ false → at (settle s).circuits.rows n ≡ None }
    ensures no_terminator { (s : State) (n : ℕ) (c : Circuit) → CircuitAt s n c → at s.terminators.rows c.terminator ≡ None → at (settle s).circuits.rows n ≡ None }
    ensures not_admissible { (s : State) (n : ℕ) (c : Circuit) (e : Terminator) → CircuitAt s n c → at s.terminators.rows c.terminator ≡ Some e
        → admits (network_of s) c.service c.terminator e ≡ false → at (settle s).circuits.rows n ≡ None }
    ensures stays { (s : State) (n : ℕ) (c : Circuit) (e : Terminator) → CircuitAt s n c → IsStillGranted s c e → at (revoke s).circuits.rows n ≡ Some c }
{}

/// Each circuit is judged by itself when a state whose circuits ascend is repaired. Where its identity, its service or its terminator is
/// absent it ends; where its links are a path from its ingress to the terminator's router it stays as it is; else it goes over the least
/// path between the two, and where there is none it ends.
pub fn each_circuit_is_judged()
    ensures no_identity { (s : State) (n : ℕ) (c : Circuit) → CircuitAt s n c → is_among c.identity (numbers s.identities.rows) ≡ false → at (repair s).circuits.rows n ≡ None }
    ensures no_service { (s : State) (n : ℕ) (c : Circuit) → CircuitAt s n c → is_among c.service (numbers s.services.rows) ≡ false → at (repair s).circuits.rows n ≡ None }
    ensures no_terminator { (s : State) (n : ℕ) (c : Circuit) → CircuitAt s n c → at (repair s).terminators.rows c.terminator ≡ None → at (repair s).circuits.rows n ≡ None }
    ensures stays { (s : State) (n : ℕ) (c : Circuit) (e : Terminator) → CircuitAt s n c → HasEnds s c e → is_path (network_of (repair s)) c.ingress c.links e.router ≡ true
        → at (repair s).circuits.rows n ≡ Some c }
    ensures goes_over_the_least { (s : State) (n : ℕ) (c : Circuit) (e : Terminator) (links : List ℕ) → CircuitAt s n c → HasEnds s c e → is_path (network_of (repair s)) c.ingress c.links e.router ≡ false
        → IsLeastPath (network_of (repair s)) c.ingress e.router links → at (repair s).circuits.rows n ≡ Some (record c { links = links }) }
    ensures no_path { (s : State) (n : ℕ) (c : Circuit) (e : Terminator) → CircuitAt s n c → HasEnds s c e → ((links : List ℕ) → is_path (network_of (repair s)) c.ingress links e.router ≡ false)
        → at (repair s).circuits.rows n ≡ None }
{}

/// A command leaves the state, or has an effect that is then settled: it adds one record under the next number, which rises by one,
/// or changes or deletes the one that it names and makes none, and leaves every other record, every other table and every other next number. Deleting an entity also takes its name out of the
/// `@` names of the policies that could name it.
pub fn untouched_tables()
    ensures { (who : Who) (c : Command) (s : State) → ((answer who c s).1 ≡ s) ⊎ ChangesOnly (touched_by c s) s (answer who c s).1 }
{}

/// Two states pass the test of same states exactly where they are equal.
pub fn same_states_are_equal_states()
    ensures { (s t : State) → ((same_state s t ≡ true) ↔ (s ≡ t)) }
{}

/// A state that follows another is counted: the same one stays, and another one's serial is one higher, of which all else stays.
pub fn changes_are_counted()
    ensures same { (s : State) → counted s s ≡ s }
    ensures another { (s t : State) → (s ≡ t → ⊥) → counted s t ≡ record t { serial = s.serial + 1 } }
{}

/// No command changes the serial by itself, and none but those on intercepts makes an intercept.
pub fn serials_and_intercepts_stay()
    ensures serial { (who : Who) (c : Command) (s : State) → (answer who c s).1.serial ≡ s.serial }
    ensures intercepts { (who : Who) (c : Command) (s : State) → is_intercept_command c ≡ false → s.intercepts ≡ [] → (answer who c s).1.intercepts ≡ [] }
{}

/// A next number has an end.
pub fn next_numbers_have_an_end()
    ensures { (s : State) (k : Kind) → ValidState s → (table k s).next ≤ last_next }
{}

/// The name of a record finds its number, so that no two records of a kind share a name.
pub fn one_record_a_name()
    ensures { (s : State) (k : Kind) (n : ℕ) (r : Record k) → ValidState s → has_names k ≡ true → at (table k s).rows n ≡ Some r → named k s (record_name k r) ≡ Some n }
{}

/// The number that a name finds is that of a record of the name.
pub fn names_find_their_records()
    ensures { (s : State) (k : Kind) (n : ℕ) (name : List ℕ) → ValidState s → named k s name ≡ Some n → (r : Record k) × (at (table k s).rows n ≡ Some r) × (record_name k r ≡ name) }
{}
