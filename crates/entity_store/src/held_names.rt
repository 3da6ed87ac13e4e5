ghost use Rattle.std.specs.Prelude.{◌≡◌, ◌+◌, ◌<◌, ◌≤◌, ◌++◌, ℕ, List, length, cond, IfSome, IfNone, OnOk, OnErr, HoldsAt, All, false};
ghost use Rattle.std.specs.Str.{bytes_eq};
ghost use Rattle.entity_store.specs.AttributeUses.{times};

use ctrl_model::{Name, Names};
use std::alloc::AllocError;

// The place of a name among some.
fn place_in(names: &[Name], name: &Name) -> Option<usize>
    ensures found { IfSome result (λ i. (i < length names.now) × HoldsAt (λ n. n ≡ name.now) names.now i) }
    ensures absent { IfNone result (All (λ n. bytes_eq n name.now ≡ false) names.now) }
{
    names.iter().position(|other| other.bytes() == name.bytes())
}

// Takes a name out once.
fn let_one_go(held: &mut Vec<Name>, name: &Name)
    requires { 0 < times name.now held.old.items }
    ensures { (q : List ℕ) → times q held.new.items + cond (bytes_eq name.now q) 1 0 ≡ times q held.old.items }
{
    let place = place_in(held.as_slice(), name).unwrap();
    let _gone = held.swap_remove(place);
}

/// Puts copies of some names behind the others.
pub fn hold_names(held: &mut Vec<Name>, names: &Names) -> Result<(), AllocError>
    ensures ok { OnOk result (held.new.items ≡ held.old.items ++ names.now) }
    ensures err { OnErr result (held.new.items ≡ held.old.items) }
{
    let mut copied = names.copy()?;
    held.append(&mut copied.items)
}

/// Takes each name out once.
pub fn let_names_go(held: &mut Vec<Name>, names: &[Name])
    requires { (q : List ℕ) → times q names.now ≤ times q held.old.items }
    ensures { (q : List ℕ) → times q held.new.items + times q names.now ≡ times q held.old.items }
{
    'names: for name in names {
        let_one_go(held, name);
    }
}
