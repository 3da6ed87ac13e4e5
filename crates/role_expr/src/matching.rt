ghost use Rattle.std.specs.Prelude.{◌≡◌};
ghost use Rattle.std.specs.List.{list_any, list_all};
ghost use Rattle.ctrl_model.specs.Matches.{has_attributes, has_name, matches};

use crate::names::has_name;
use ctrl_model::{Name, Names, Semantic, Side};

fn has_one(wanted: &[Name], had: &[Name]) -> bool
    ensures { result ≡ list_any (has_name had.now) wanted.now }
{
    wanted.iter().any(|name| has_name(had, name))
}

fn has_every(wanted: &[Name], had: &[Name]) -> bool
    ensures { result ≡ list_all (has_name had.now) wanted.now }
{
    wanted.iter().all(|name| has_name(had, name))
}

fn has_attributes(semantic: Semantic, wanted: &[Name], had: &[Name]) -> bool
    ensures { result ≡ has_attributes semantic wanted.now had.now }
{
    match semantic {
        Semantic::AnyOf => has_one(wanted, had),
        Semantic::AllOf => !wanted.is_empty() && has_every(wanted, had),
    }
}

/// Whether an entity of a name and of attributes matches a side: the side is `#all`, or names it, or wants attributes that it
/// has. No list of attributes at all matches nobody (docs/RULES.md, "Policies and grants").
pub fn matches(side: &Side, semantic: Semantic, name: &Name, attributes: &Names) -> bool
    ensures { result ≡ matches side.now semantic (record { name = name.now; attributes = attributes.now }) }
{
    side.all
        || has_name(side.ids.as_slice(), name)
        || has_attributes(semantic, side.attributes.as_slice(), attributes.as_slice())
}
