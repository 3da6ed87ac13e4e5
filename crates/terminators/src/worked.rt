ghost use Rattle.std.specs.Prelude.{◌≡◌, codes, [], ◌∷◌, true, false, None, Some, Ok, Err};
ghost use Rattle.ctrl_model.specs.declared.kinds.Precedence.TheVariants.{Required};
ghost use Rattle.ctrl_model.specs.Networks.{admissible};
ghost use Rattle.ctrl_model.specs.Numbered.{at, numbers};
ghost use Rattle.terminators.specs.declared.store.TermFault.TheVariants.{NotBindable, Full};
ghost use Rattle.terminators.specs.declared.changes.TermChange.TheVariants.{Add, Set, Remove};
ghost use Rattle.terminators.specs.TermChanges.{terms_after};
ghost use Rattle.terminators.specs.TermTables.{no_terminators, with_set, without_term, with_term, with_next, with_open, open_at, cost_at};
ghost use Rattle.terminators.specs.TermRules.{may_add, has_term_room, is_not_bindable};
ghost use Rattle.terminators.specs.WorkedTerms.{offer, two_offers, six_offers, binds, offered};

/// Offers get the numbers 1 and 2. A change leaves the service, and a removed number is not given again.
pub fn offers_by_number()
    ensures first { no_terminators.terminators.next ≡ 1 }
    ensures third { two_offers.terminators.next ≡ 3 }
    ensures set { at (with_set 2 7 Required two_offers).terminators.rows 2 ≡ Some (record (offer 2 [] None) { cost = 7; precedence = Required }) }
    ensures other { at (with_set 2 7 Required two_offers).terminators.rows 1 ≡ Some (offer 1 [] None) }
    ensures removed { at (without_term 2 two_offers).terminators.rows 2 ≡ None }
    ensures not_again { numbers (with_term (offer 1 [] None) (without_term 2 two_offers)).terminators.rows ≡ 1 ∷ 3 ∷ [] }
{}

/// Each circuit that is open at an offer adds 1 to what it costs, and an offer that is not there costs nothing.
pub fn loads_of_offers()
    ensures new { open_at two_offers 2 ≡ 0 }
    ensures set { open_at (with_open 2 3 two_offers) 2 ≡ 3 }
    ensures other { open_at (with_open 2 3 two_offers) 1 ≡ 0 }
    ensures cost { cost_at (with_open 2 3 (with_set 2 7 Required two_offers)) 2 ≡ 10 }
    ensures set_after { cost_at (with_set 2 7 Required (with_open 2 3 two_offers)) 2 ≡ 10 }
    ensures removed { open_at (without_term 2 (with_open 2 3 two_offers)) 2 ≡ 0 }
    ensures absent { cost_at two_offers 3 ≡ 0 }
{}

/// The hosts 5 and 7 have Bind on service 1, and 6 has not. Want of room is told first.
pub fn whether_an_offer_may_be_added()
    ensures no_host { may_add (offer 1 [] None) six_offers binds ≡ Ok tt }
    ensures bound { may_add (offer 1 [] (Some 7)) six_offers binds ≡ Ok tt }
    ensures not_bound { may_add (offer 1 [] (Some 6)) six_offers binds ≡ Err NotBindable }
    ensures lacks { is_not_bindable (offer 1 [] (Some 6)) binds ≡ true }
    ensures last { has_term_room (with_next 4294967294 six_offers) ≡ true }
    ensures run_out { has_term_room (with_next 4294967295 six_offers) ≡ false }
    ensures full_first { may_add (offer 1 [] (Some 6)) (with_next 4294967295 six_offers) binds ≡ Err Full }
{}

/// Of the six offers the first and that of host 5 are admissible: the second stands on a router that is not connected, the third
/// is of an instance, host 6 lacks Bind, and host 7 is not granted the router.
pub fn admissible_offers()
    ensures plain { numbers (admissible offered 1 []) ≡ 1 ∷ 4 ∷ [] }
    ensures instance { numbers (admissible offered 1 (codes "blue")) ≡ 3 ∷ [] }
    ensures no_instance { numbers (admissible offered 1 (codes "red")) ≡ [] }
    ensures no_service { numbers (admissible offered 2 []) ≡ [] }
{}

/// The two offers as they will be: one more has the number 3, a change touches its own offer alone, and those that are gone are absent.
pub fn offers_as_they_will_be()
    ensures unchanged { terms_after None [] two_offers ≡ two_offers }
    ensures added { numbers (terms_after (Some (Add (offer 1 [] None))) (2 ∷ []) two_offers).terminators.rows ≡ 1 ∷ 3 ∷ [] }
    ensures set { terms_after (Some (Set (record { 0 = 2 }) 7 Required)) (1 ∷ []) two_offers
        ≡ record { terminators = record { rows = (2, record (offer 2 [] None) { cost = 7; precedence = Required }) ∷ []; next = 3 }; loads = (2, 0) ∷ [] } }
    ensures removed { numbers (terms_after (Some (Remove (record { 0 = 1 }))) [] two_offers).terminators.rows ≡ 2 ∷ [] }
{}
