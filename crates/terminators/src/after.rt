ghost use Rattle.std.specs.Prelude.{◌≡◌};
ghost use Rattle.std.specs.Option.{option_map};
ghost use Rattle.ctrl_model.specs.Numbered.{at};
ghost use Rattle.terminators.specs.TermChanges.{terms_after};

use crate::changes::TermChange;
use crate::offers::TermView;
use crate::store::Terminators;
use ctrl_model::{Numbers, TermNo};
use record_tables::{RecordChange, Turn, record_after};
use std::marker::Model;

/// The terminators as they will be after a change, if there is one, and without those that are gone. Contracts see them as a table
/// (`TermTables`).
#[derive(Drop)]
pub struct TerminatorsAfter<'a> {
    pub terminators: &'a Terminators,
    pub change: Option<&'a TermChange>,
    pub gone: &'a Numbers,
}

impl<'a> Model for TerminatorsAfter<'a> {
    ghost use Rattle.std.specs.Prelude.{option_map};
    ghost use Rattle.terminators.specs.TermTables.{TermTables};
    ghost use Rattle.terminators.specs.TermChanges.{terms_after};

    ghost Value = { TermTables };

    ghost view = { λ a. terms_after (option_map (λ c. c.now) a.change) a.gone.now a.terminators.now };
}

impl<'a> RecordChange<TermView<'a>> for Option<&'a TermChange> {
    ghost use Rattle.std.specs.Prelude.{option_map};
    ghost use Rattle.terminators.specs.ChangedTerms.{set_by, turn_of};

    ghost turn = { λ o. turn_of (option_map (λ c. c.now) o) };

    ghost set = { λ o. set_by (option_map (λ c. c.now) o) };

    fn turn(self) -> Turn<TermView<'a>> {
        match self {
            Some(TermChange::Add(term)) => Turn::Adds(TermView::of(term)),
            Some(TermChange::Set { no, .. }) => Turn::Sets(no.0),
            Some(TermChange::Remove(no)) => Turn::Removes(no.0),
            None => Turn::Keeps,
        }
    }

    fn set(self, term: TermView<'a>) -> TermView<'a> {
        match self {
            Some(
                TermChange::Set {
                    cost,
                    precedence,
                    ..
                },
            ) => term.set(*cost, *precedence),
            _ => term,
        }
    }
}

impl<'a> TerminatorsAfter<'a> {
    /// The terminators after a change, if there is one, and without those of some numbers.
    pub fn new(
        terminators: &'a Terminators,
        change: Option<&'a TermChange>,
        gone: &'a Numbers,
    ) -> TerminatorsAfter<'a>
        ensures { result ≡ terms_after (option_map (λ c. c.now) change.entry) gone.now terminators.now }
    {
        TerminatorsAfter {
            terminators,
            change,
            gone,
        }
    }

    /// The terminator of the number. None exactly where it will be absent.
    pub fn get(&self, no: TermNo) -> Option<TermView<'a>>
        ensures { result ≡ at self.now.terminators.rows no.0 }
    {
        let present = self.terminators.seen(no);
        // With it comes that the numbers ascend below it, so that no terminator has it yet.
        let next = self.terminators.next();
        record_after(self.change, next, self.gone, no.0, present)
    }
}
