ghost use Rattle.std.specs.Prelude.{◌≡◌};
ghost use Rattle.ctrl_model.specs.Choices.{first_denial};

use ctrl_model::Denial;

/// The denial of the first rule that fails, if one does: each rule says whether it fails, and for what it then denies a request.
pub fn first_denial(rules: &[(bool, Denial)]) -> Option<Denial>
    ensures { result ≡ first_denial rules.now }
{
    'rules: for (fails, denial) in rules {
        if *fails {
            return Some(*denial);
        }
    }
    None
}
