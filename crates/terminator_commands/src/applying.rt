ghost use Rattle.std.specs.Prelude.{◌≡◌, OnOk, OnErr};
ghost use Rattle.terminator_commands.specs.TermChanges.{CanChangeTerms, after_term_change};

use std::alloc::AllocError;
use terminators::{TermChange, Terminators};

/// Makes a change of the terminators. For want of memory they stay.
pub fn apply_term_change(
    terminators: &mut Terminators,
    change: TermChange,
) -> Result<(), AllocError>
    requires { CanChangeTerms change terminators.old }
    ensures ok { OnOk result (terminators.new ≡ after_term_change change terminators.old) }
    ensures err { OnErr result (terminators.new ≡ terminators.old) }
{
    match change {
        TermChange::Add(term) => {
            let _number = terminators.add(term)?;
        }
        TermChange::Set {
            no,
            cost,
            precedence,
        } => terminators.set(no, cost, precedence),
        TermChange::Remove(no) => terminators.remove(no),
    }
    Ok(())
}
