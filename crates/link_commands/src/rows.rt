ghost use Rattle.std.specs.Prelude.{◌≡◌, ℕ, true, IfOk, IfSome};
ghost use Rattle.std.specs.Option.{option_map};
ghost use Rattle.ctrl_model.specs.declared.formats.Format.{Format};
ghost use Rattle.ctrl_model.specs.declared.formats.Format.TheVariants.{Two};
ghost use Rattle.ctrl_model.specs.declared.kinds.Kind.TheVariants as kind;
ghost use Rattle.ctrl_model.specs.State.{State};
ghost use Rattle.record_tables.specs.Climbing.{Climbs};
ghost use Rattle.row_codec.specs.CoveredTables.{Covers};
ghost use Rattle.row_codec.specs.RowForm.{is_row, value_of};
ghost use Rattle.row_codec.specs.RowValues.{record_value};
ghost use Rattle.row_laws.specs.FittingRecords.{fits};
ghost use Rattle.row_writing.specs.RecordChanges.{value_at};
ghost use Rattle.fabric_graph.specs.FabricChanges.{fabric_after};
ghost use Rattle.link_commands.specs.LinkRows.{HaveRows};

use ctrl_model::{Copies, Kind, LinkNo, Numbers};
use fabric_graph::{Fabric, FabricAfter, LinkChange, LinkView};
use record_tables::changed_number;
use row_codec::{Changes, Row};
use row_writing::{ChangedRows, touched_changes};
use std::alloc::{AllocError, Global};

// The row of a link under a number, if there is one.
fn row_of(no: LinkNo, link: Option<LinkView>) -> Result<Option<Row>, AllocError>
    requires { IfSome link (λ r. fits kind.Link r ≡ true) }
    ensures form { IfOk result (λ row. IfSome row (λ r. is_row Two r ≡ true)) }
    ensures value { IfOk result (λ row. option_map (value_of Two) row ≡ option_map (record_value kind.Link) link.entry) }
{
    let Some(link) = link else {
        return Ok(None);
    };
    let name = link.name.copy()?;
    Ok(Some(Row::Link {
        no,
        name,
        a: link.a,
        b: link.b,
        cost: link.cost,
        latency_a: link.latency_a,
        latency_b: link.latency_b,
        up: link.up,
    }))
}

// The links before a change and after it.
#[derive(Clone, Copy)]
struct LinkRows<'a> {
    fabric: &'a Fabric,
    after: &'a FabricAfter<'a>,
}

impl<'a> ChangedRows for LinkRows<'a> {
    ghost values_before = { λ r. value_at kind.Link r.fabric.now.links.rows };

    ghost values_after = { λ r. value_at kind.Link r.after.now.links.rows };

    ghost HaveRows = { λ r. HaveRows r.fabric.now × HaveRows r.after.now };

    fn rows_at(&self, number: u32) -> Result<(Option<Row>, Option<Row>), AllocError> {
        let no = LinkNo(number);
        let before = row_of(no, self.fabric.seen(no))?;
        match row_of(no, self.after.link(no)) {
            Ok(after) => Ok((before, after)),
            Err(fault) => {
                drop(before);
                Err(fault)
            }
        }
    }
}

/// The changes of the rows of links by a change, if there is one, and where those of some numbers are gone, which climb. Each link
/// fits its row, now and then, as those of a valid state do. An Err is want of memory.
pub fn link_changes(
    alloc: Global,
    fabric: &Fabric,
    change: Option<&LinkChange>,
    gone: &Numbers,
) -> Result<Changes, AllocError>
    requires climb { Climbs (λ n. n) gone.now }
    requires before { HaveRows fabric.now }
    requires after { HaveRows (fabric_after (option_map (λ c. c.now) change) gone.now fabric.now) }
    ensures { IfOk result (λ changes. (f : Format) (s t : State) → s.links ≡ fabric.now.links
        → t.links ≡ (fabric_after (option_map (λ c. c.now) change.entry) gone.now fabric.now).links → Covers f 6 7 s t changes) }
{
    let after = FabricAfter::new(fabric, change, gone);
    let changed = changed_number(change, fabric.next());
    let links = LinkRows {
        fabric,
        after: &after,
    };
    let changes = touched_changes(alloc, Kind::Link, &links, changed, gone)?;
    Ok(changes)
}
