ghost use Rattle.std.specs.Prelude.{◌≡◌, ◌↔◌, ℕ, ◌≤◌, Bool, List, length, None, Some, true};
ghost use Rattle.ctrl_model.specs.declared.addresses.Address.{Address};
ghost use Rattle.ctrl_model.specs.declared.intercepts.Intercept.{Intercept};
ghost use Rattle.ctrl_model.specs.AddressForm.{address_of, address_text, is_address};
ghost use Rattle.ctrl_model.specs.Hits.{Hit, hits, hit_rank, picked, IsHit, IsPicked, are_intercepts};
ghost use Rattle.ctrl_model.specs.Membership.{Among};

/// Each address that bytes are is read back from its spelling, and the spelling of each address reads as it, and is short.
pub fn addresses_are_read_back()
    ensures given { (bytes : List ℕ) (a : Address) → address_of bytes ≡ Some a → is_address a ≡ true }
    ensures spelled { (a : Address) → is_address a ≡ true → address_of (address_text a) ≡ Some a }
    ensures short { (a : Address) → is_address a ≡ true → length (address_text a) ≤ 255 }
{}

/// The hits of a destination among some services are what a hit is said to be.
pub fn each_hit()
    ensures { (intercepts : List (ℕ × Intercept)) (dialled : List ℕ) (udp : Bool) (to : Address) (port : ℕ) (h : Hit) → (Among h (hits intercepts dialled udp to port) ↔ IsHit intercepts dialled udp to port h) }
{}

/// Two hits of one rank are one hit. So the order of hits by their ranks is total.
pub fn one_hit_a_rank()
    ensures { (intercepts : List (ℕ × Intercept)) (dialled : List ℕ) (udp : Bool) (to : Address) (port : ℕ) (g h : Hit) → are_intercepts intercepts ≡ true → IsHit intercepts dialled udp to port g → IsHit intercepts dialled udp to port h → hit_rank g ≡ hit_rank h → g ≡ h }
{}

/// The picked hit is a hit that none comes before, any such hit is picked, and none is picked exactly where there is no hit.
pub fn the_picked_hit()
    ensures is { (intercepts : List (ℕ × Intercept)) (dialled : List ℕ) (udp : Bool) (to : Address) (port : ℕ) (h : Hit) → are_intercepts intercepts ≡ true → ((picked intercepts dialled udp to port ≡ Some h) ↔ IsPicked intercepts dialled udp to port h) }
    ensures none { (intercepts : List (ℕ × Intercept)) (dialled : List ℕ) (udp : Bool) (to : Address) (port : ℕ) → ((picked intercepts dialled udp to port ≡ None) ↔ ((h : Hit) → IsHit intercepts dialled udp to port h → ⊥)) }
{}
