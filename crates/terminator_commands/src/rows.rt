ghost use Rattle.std.specs.Prelude.{◌≡◌, ◌≤◌, ℕ, true, IfOk, IfSome};
ghost use Rattle.std.specs.Option.{option_map};
ghost use Rattle.ctrl_model.specs.declared.formats.Format.{Format};
ghost use Rattle.ctrl_model.specs.declared.formats.Format.TheVariants.{Two};
ghost use Rattle.ctrl_model.specs.declared.kinds.Kind.TheVariants as kind;
ghost use Rattle.ctrl_model.specs.State.{State};
ghost use Rattle.record_tables.specs.Climbing.{Climbs};
ghost use Rattle.row_codec.specs.CoveredTables.{Covers};
ghost use Rattle.row_codec.specs.RowForm.{is_row, value_of};
ghost use Rattle.row_codec.specs.RowValues.{record_value};
ghost use Rattle.row_laws.specs.FittingRecords.{fits};
ghost use Rattle.row_writing.specs.RecordChanges.{value_at};
ghost use Rattle.terminators.specs.TermChanges.{terms_after};
ghost use Rattle.terminator_commands.specs.TermRows.{AreFit};

use ctrl_model::{Copies, Kind, Numbers, TermNo};
use record_tables::changed_number;
use row_codec::{Changes, Row};
use row_writing::{ChangedRows, touched_changes};
use std::alloc::{AllocError, Global};
use terminators::{TermChange, TermView, Terminators, TerminatorsAfter};

// The row of a terminator under a number, if there is one.
fn row_of(no: TermNo, term: Option<TermView>) -> Result<Option<Row>, AllocError>
    requires { IfSome term (λ r. fits kind.Terminator r ≡ true) }
    ensures form { IfOk result (λ row. IfSome row (λ r. is_row Two r ≡ true)) }
    ensures value { IfOk result (λ row. option_map (value_of Two) row ≡ option_map (record_value kind.Terminator) term.entry) }
{
    let Some(term) = term else {
        return Ok(None);
    };
    let instance = term.instance.copy()?;
    Ok(Some(Row::Terminator {
        no,
        service: term.service,
        router: term.router,
        host: term.host,
        instance,
        cost: term.cost,
        precedence: term.precedence,
    }))
}

// The terminators before a change and after it.
#[derive(Clone, Copy)]
struct TermRows<'a> {
    terminators: &'a Terminators,
    after: &'a TerminatorsAfter<'a>,
}

impl<'a> ChangedRows for TermRows<'a> {
    ghost values_before = { λ r. value_at kind.Terminator r.terminators.now.terminators.rows };

    ghost values_after = { λ r. value_at kind.Terminator r.after.now.terminators.rows };

    ghost HaveRows = { λ r. AreFit r.terminators.now × AreFit r.after.now };

    fn rows_at(&self, number: u32) -> Result<(Option<Row>, Option<Row>), AllocError> {
        let no = TermNo(number);
        let before = row_of(no, self.terminators.seen(no))?;
        let after = row_of(no, self.after.get(no))?;
        Ok((before, after))
    }
}

/// The changes of the rows of terminators by a change, if there is one, and where those of some numbers are gone, which climb. Each
/// terminator fits its row, now and then, as those of a valid state do. An Err is want of memory.
pub fn term_changes(
    alloc: Global,
    terminators: &Terminators,
    change: Option<&TermChange>,
    gone: &Numbers,
) -> Result<Changes, AllocError>
    requires climb { Climbs (λ n. n) gone.now }
    requires before { AreFit terminators.now }
    requires after { AreFit (terms_after (option_map (λ c. c.now) change) gone.now terminators.now) }
    ensures { IfOk result (λ changes. (f : Format) (s t : State) → s.terminators ≡ terminators.now.terminators
        → t.terminators ≡ (terms_after (option_map (λ c. c.now) change.entry) gone.now terminators.now).terminators → Covers f 10 11 s t changes) }
{
    let after = TerminatorsAfter::new(terminators, change, gone);
    let changed = changed_number(change, terminators.next());
    let rows = TermRows {
        terminators,
        after: &after,
    };
    let changes = touched_changes(alloc, Kind::Terminator, &rows, changed, gone)?;
    Ok(changes)
}
