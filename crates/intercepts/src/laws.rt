ghost use Rattle.std.specs.Prelude.{◌≡◌, ◌↔◌, ℕ, Bool, List, true};
ghost use Rattle.ctrl_model.specs.declared.addresses.Address.{Address};
ghost use Rattle.ctrl_model.specs.declared.intercepts.Intercept.{Intercept};
ghost use Rattle.ctrl_model.specs.Hits.{picked, clashes, are_intercepts};
ghost use Rattle.ctrl_model.specs.Membership.{Among};

/// The order in which services are given does not count: of the same ones the same hit is picked.
pub fn no_order_of_services()
    ensures { (intercepts : List (ℕ × Intercept)) (dialled others : List ℕ) (udp : Bool) (to : Address) (port : ℕ) → are_intercepts intercepts ≡ true → ((n : ℕ) → Among n dialled ↔ Among n others) → picked intercepts dialled udp to port ≡ picked intercepts others udp to port }
{}

/// A clash is one of both services.
pub fn mutual_clashes()
    ensures { (intercepts : List (ℕ × Intercept)) (dialled : List ℕ) (service other : ℕ) → Among other (clashes intercepts dialled service) → Among service (clashes intercepts dialled other) }
{}
