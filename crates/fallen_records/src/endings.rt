ghost use Rattle.std.specs.Prelude.{◌≡◌, ℕ, Bool, true, false, [], ◌∷◌, None, Some};
ghost use Rattle.ctrl_model.specs.declared.kinds.Kind.TheVariants as kind;
ghost use Rattle.ctrl_model.specs.Numbered.{Table, at, with_new, with_edit, with_removed};
ghost use Rattle.ctrl_model.specs.State.{State, Entity, Router, Link, Policy, Terminator};
ghost use Rattle.ctrl_model.specs.ValidState.{ValidState};
ghost use Rattle.fallen_records.specs.FallenRecords.{Falls, links_at, ends_on, circuits_on, marked_circuits};

/// What settles with one change of a valid state, and that nothing else does (docs/RULES.md, "Settling"). These links and terminators go,
/// and these circuits do not stay as they are: with an identity or a service the terminators that stand on it, and the circuits of it or
/// to one of these; with a router its links besides, and the circuits that enter by it or go over one of these; with the marks of a
/// router the circuits that `marked_circuits` says; with a link that is down or gone the circuits over it; with a terminator its circuits.
pub fn what_ends_with_a_change()
    ensures identity { (s : State) → ValidState s → (p q r : Table Policy) (n : ℕ)
        → Falls (record s { identities = with_removed n s.identities; service_policies = p; edge_router_policies = q; service_edge_router_policies = r })
        [] (ends_on kind.Identity n s) (circuits_on (Some (kind.Identity, n)) [] (ends_on kind.Identity n s) s) }
    ensures service { (s : State) → ValidState s → (p q r : Table Policy) (n : ℕ)
        → Falls (record s { services = with_removed n s.services; service_policies = p; edge_router_policies = q; service_edge_router_policies = r })
        [] (ends_on kind.Service n s) (circuits_on (Some (kind.Service, n)) [] (ends_on kind.Service n s) s) }
    ensures router { (s : State) → ValidState s → (p q r : Table Policy) (n : ℕ)
        → Falls (record s { routers = with_removed n s.routers; service_policies = p; edge_router_policies = q; service_edge_router_policies = r })
        (links_at n s) (ends_on kind.Router n s) (circuits_on (Some (kind.Router, n)) (links_at n s) (ends_on kind.Router n s) s) }
    ensures marks { (s : State) → ValidState s → (n : ℕ) (f : Router → Router) (through connected : Bool)
        → ((x : Router) → ((f x).through ≡ through) × ((f x).connected ≡ connected))
        → Falls (record s { routers = with_edit n f s.routers }) [] [] (marked_circuits (at s.routers.rows n) n through connected s) }
    ensures link_down { (s : State) → ValidState s → (n : ℕ) (f : Link → Link) → ((k : Link) → ((f k).a ≡ k.a) × ((f k).b ≡ k.b))
        → ((k : Link) → (f k).up ≡ false) → Falls (record s { links = with_edit n f s.links }) [] [] (circuits_on None (n ∷ []) [] s) }
    ensures link { (s : State) → ValidState s → (n : ℕ) → Falls (record s { links = with_removed n s.links }) [] [] (circuits_on None (n ∷ []) [] s) }
    ensures terminator { (s : State) → ValidState s → (n : ℕ)
        → Falls (record s { terminators = with_removed n s.terminators }) [] [] (circuits_on None [] (n ∷ []) s) }
{}

/// Nothing settles where an entity comes or gets other attributes, where a policy changes, where a link gets other costs, latencies or is
/// up, where a terminator gets another cost or precedence, where a circuit goes, or where the least router cost changes.
pub fn what_ends_with_nothing()
    ensures identity { (s : State) → ValidState s → (e : Entity) → Falls (record s { identities = with_new e s.identities }) [] [] [] }
    ensures service { (s : State) → ValidState s → (e : Entity) → Falls (record s { services = with_new e s.services }) [] [] [] }
    ensures router { (s : State) → ValidState s → (r : Router) → Falls (record s { routers = with_new r s.routers }) [] [] [] }
    ensures identity_attributes { (s : State) → ValidState s → (n : ℕ) (f : Entity → Entity) → Falls (record s { identities = with_edit n f s.identities }) [] [] [] }
    ensures service_attributes { (s : State) → ValidState s → (n : ℕ) (f : Entity → Entity) → Falls (record s { services = with_edit n f s.services }) [] [] [] }
    ensures policies { (s : State) → ValidState s → (p q r : Table Policy)
        → Falls (record s { service_policies = p; edge_router_policies = q; service_edge_router_policies = r }) [] [] [] }
    ensures link { (s : State) → ValidState s → (n : ℕ) (f : Link → Link)
        → ((k : Link) → ((f k).a ≡ k.a) × ((f k).b ≡ k.b) × (k.up ≡ true → (f k).up ≡ true)) → Falls (record s { links = with_edit n f s.links }) [] [] [] }
    ensures terminator { (s : State) → ValidState s → (n : ℕ) (f : Terminator → Terminator)
        → ((e : Terminator) → ((f e).service ≡ e.service) × ((f e).router ≡ e.router) × ((f e).host ≡ e.host)) → Falls (record s { terminators = with_edit n f s.terminators }) [] [] [] }
    ensures circuit { (s : State) → ValidState s → (n : ℕ) → Falls (record s { circuits = with_removed n s.circuits }) [] [] [] }
    ensures setting { (s : State) → ValidState s → (cost : ℕ) → Falls (record s { least_router_cost = cost }) [] [] [] }
{}
