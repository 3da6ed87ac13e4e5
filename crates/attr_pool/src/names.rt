ghost use Rattle.std.specs.Prelude.{◌≡◌};
ghost use Rattle.ctrl_model.specs.Matches.{has_name};
ghost use Rattle.attr_pool.specs.Uses.{times};

use ctrl_model::Name;

/// Whether a name stands among some.
pub fn has_name(names: &[Name], name: &Name) -> bool
    ensures { result ≡ has_name names.now name.now }
{
    names.iter().any(|other| other.bytes() == name.bytes())
}

/// How often a name stands among some.
pub fn times(names: &[Name], name: &Name) -> usize
    ensures { result ≡ times name.now names.now }
{
    names
        .iter()
        .filter(|other| other.bytes() == name.bytes())
        .count()
}
