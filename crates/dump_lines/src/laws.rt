ghost use Rattle.std.specs.Prelude.{◌≡◌, ℕ, [], ◌∷◌, true, false, not, map, Some};
ghost use Rattle.std.specs.Option.{option_map};
ghost use Rattle.ctrl_model.specs.Controller.{carry};
ghost use Rattle.ctrl_model.specs.declared.commands.Command.TheVariants as command;
ghost use Rattle.ctrl_model.specs.declared.kinds.Kind.TheVariants as kind;
ghost use Rattle.ctrl_model.specs.declared.kinds.Relation.TheVariants.{IdentityRouter, ServiceRouter};
ghost use Rattle.ctrl_model.specs.LinkCommands.{after_create_link};
ghost use Rattle.ctrl_model.specs.RecordCommands.{after_create, create};
ghost use Rattle.ctrl_model.specs.State.{State, Entity, Router, Link, Policy, Terminator};
ghost use Rattle.ctrl_model.specs.Tables.{named};
ghost use Rattle.ctrl_model.specs.TerminatorCommands.{after_create_terminator, host_number};
ghost use Rattle.record_lines.specs.RecordNames.{name_of};
ghost use Rattle.dump_lines.specs.Dumps.{making_record};

/// What the commands of a dump do where they are answered, in whatever state: the one command of an identity, a service or a policy makes
/// this very record.
pub fn records_are_made()
    ensures identities { (s t : State) (e : Entity) → map (λ c. carry c t) (making_record kind.Identity s e) ≡ create kind.Identity e t ∷ [] }
    ensures services { (s t : State) (e : Entity) → map (λ c. carry c t) (making_record kind.Service s e) ≡ create kind.Service e t ∷ [] }
    ensures service_policies { (s t : State) (p : Policy) → map (λ c. carry c t) (making_record kind.ServicePolicy s p) ≡ create kind.ServicePolicy p t ∷ [] }
    ensures edge_router_policies { (s t : State) (p : Policy) → p.relation ≡ IdentityRouter
        → map (λ c. carry c t) (making_record kind.EdgeRouterPolicy s p) ≡ create kind.EdgeRouterPolicy p t ∷ [] }
    ensures service_edge_router_policies { (s t : State) (p : Policy) → p.relation ≡ ServiceRouter
        → map (λ c. carry c t) (making_record kind.ServiceEdgeRouterPolicy s p) ≡ create kind.ServiceEdgeRouterPolicy p t ∷ [] }
    ensures routers { (t : State) (r : Router) → carry (command.CreateRouter r.name r.attributes r.cost (not r.through)) t ≡ create kind.Router (record r { connected = false }) t }
{}

/// What a link and a terminator of a dump become in a state that has records of the names that they stand on: the same, between the
/// numbers of these records, and a link up.
pub fn ends_are_found_by_name()
    ensures links { (s t : State) (l : Link) (a b : ℕ) → named kind.Router t (name_of kind.Router s l.a) ≡ Some a → named kind.Router t (name_of kind.Router s l.b) ≡ Some b
        → after_create_link l.name (name_of kind.Router s l.a) (name_of kind.Router s l.b) l.cost l.latency_a l.latency_b t
        ≡ after_create kind.Link (record l { a = a; b = b; up = true }) t }
    ensures terminators { (s t : State) (e : Terminator) (n r : ℕ) → named kind.Service t (name_of kind.Service s e.service) ≡ Some n → named kind.Router t (name_of kind.Router s e.router) ≡ Some r
        → after_create_terminator (name_of kind.Service s e.service) (name_of kind.Router s e.router) e.instance (option_map (name_of kind.Identity s) e.host) e.cost e.precedence t
        ≡ after_create kind.Terminator (record e { service = n; router = r; host = host_number t (option_map (name_of kind.Identity s) e.host) }) t }
{}
