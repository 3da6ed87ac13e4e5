ghost use Rattle.std.specs.Prelude.{◌≡◌, ℕ, List, Some};
ghost use Rattle.ctrl_model.specs.declared.intercepts.Intercept.{Intercept};
ghost use Rattle.ctrl_model.specs.declared.numbering.ServiceNo.{ServiceNo};
ghost use Rattle.ctrl_model.specs.Numbered.{at, Between};
ghost use Rattle.intercepts.specs.InterceptChanges.{after_intercept_change};
ghost use Rattle.intercepts.specs.declared.changes.InterceptChange.TheVariants as change;

/// The intercept that a service has, set again, changes nothing.
pub fn the_same_intercept_again()
    ensures { (low high : ℕ) (xs : List (ℕ × Intercept)) (service : ServiceNo) (i : Intercept) → Between low high xs → at xs service.0 ≡ Some i → after_intercept_change (change.Set service i) xs ≡ xs }
{}
