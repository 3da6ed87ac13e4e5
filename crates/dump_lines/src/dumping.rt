ghost use Rattle.std.specs.Prelude.{◌≡◌, ◌++◌, [], cond, true, IfOk, OnOk};
ghost use Rattle.std.specs.List.{flat_map, list_all};
ghost use Rattle.ctrl_model.specs.ValueForms.{is_link_cost};
ghost use Rattle.ctrl_model.specs.declared.commands.Command.TheVariants as command;
ghost use Rattle.ctrl_model.specs.ValidState.{ValidState};
ghost use Rattle.state_building.specs.BuiltStates.{state_in};
ghost use Rattle.dump_lines.specs.Dumps.{are_spelled, command_line, dump_lines, remark, sections as all_sections};
ghost use Rattle.dump_lines.specs.RowDumps.{cost_behind as cost_after, cost_in, dumped_where, fits, row_dumped, row_making};
ghost use Rattle.record_lines.specs.RowTexts.{row_line};

use crate::row_making::{is_remarked, is_unsaid, put_making};
use crate::writing::put_command;
use ctrl_model::{Bytes, Command, Kind};
use record_lines::{Listed, is_of, put_row};
use row_codec::Row;
use std::alloc::{AllocError, Global};

// Puts the line of a row as a remark, where it is wanted.
fn put_remark(text: &mut Vec<u8>, rows: &[Row], row: &Row, wanted: bool) -> Result<(), AllocError>
    ensures { OnOk result (text.new.items ≡ text.old.items ++ cond wanted (remark (row_line (state_in rows.now) row.now)) []) }
{
    if !wanted {
        return Ok(());
    }
    text.extend_from_slice(b"# ")?;
    put_row(text, rows, row)
}

// Puts the lines of the commands of a row, where they are wanted.
fn put_wanted(
    alloc: Global,
    text: &mut Vec<u8>,
    rows: &[Row],
    row: &Row,
    wanted: bool,
) -> Result<(), AllocError>
    requires { wanted ≡ true → are_spelled (row_making (state_in rows.now) row.now) ≡ true }
    ensures { OnOk result (text.new.items ≡ text.old.items ++ cond wanted (flat_map command_line (row_making (state_in rows.now) row.now)) []) }
{
    if !wanted {
        return Ok(());
    }
    put_making(alloc, text, rows, row)
}

// Puts the lines of a row in a dump.
fn put_dumped(alloc: Global, text: &mut Vec<u8>, rows: &[Row], row: &Row) -> Result<(), AllocError>
    requires { fits (state_in rows.now) row.now ≡ true }
    ensures { OnOk result (text.new.items ≡ text.old.items ++ row_dumped (state_in rows.now) row.now) }
{
    let unsaid = is_unsaid(row);
    put_remark(text, rows, row, is_remarked(row))?;
    put_wanted(alloc, text, rows, row, !unsaid)
}

// Puts the lines of a row that is of what is listed.
fn put_dumped_of(
    alloc: Global,
    text: &mut Vec<u8>,
    rows: &[Row],
    listed: Listed,
    row: &Row,
) -> Result<(), AllocError>
    requires { fits (state_in rows.now) row.now ≡ true }
    ensures { OnOk result (text.new.items ≡ text.old.items ++ dumped_where listed (state_in rows.now) row.now) }
{
    if is_of(row, listed) {
        return put_dumped(alloc, text, rows, row);
    }
    Ok(())
}

// Puts the lines of what is listed.
fn put_section(
    alloc: Global,
    text: &mut Vec<u8>,
    rows: &[Row],
    listed: Listed,
) -> Result<(), AllocError>
    requires { list_all (fits (state_in rows.now)) rows.now ≡ true }
    ensures { OnOk result (text.new.items ≡ text.old.items ++ flat_map (dumped_where listed (state_in rows.now)) rows.now) }
{
    'rows: for row in rows {
        put_dumped_of(alloc, text, rows, listed, row)?;
    }
    Ok(())
}

/// The sections of a dump, in their order.
static SECTIONS: [Listed; 10] = [
    Listed::Records(Kind::Identity),
    Listed::Records(Kind::Service),
    Listed::Records(Kind::Router),
    Listed::Records(Kind::Link),
    Listed::Records(Kind::Terminator),
    Listed::Records(Kind::ServicePolicy),
    Listed::Records(Kind::EdgeRouterPolicy),
    Listed::Records(Kind::ServiceEdgeRouterPolicy),
    Listed::Intercepts,
    Listed::Records(Kind::Circuit),
];

fn sections() -> &'static [Listed]
    ensures { result.now ≡ all_sections }
{
    &SECTIONS
}

// Puts the lines of some sections.
fn put_sections(
    alloc: Global,
    text: &mut Vec<u8>,
    rows: &[Row],
    sections: &[Listed],
) -> Result<(), AllocError>
    requires { list_all (fits (state_in rows.now)) rows.now ≡ true }
    ensures { OnOk result (text.new.items ≡ text.old.items ++ flat_map (λ l. flat_map (dumped_where l (state_in rows.now)) rows.now) sections.now) }
{
    'sections: for listed in sections {
        put_section(alloc, text, rows, *listed)?;
    }
    Ok(())
}

// The least router cost that a row sets, or the one before it.
fn cost_behind(before: u32, row: &Row) -> u32
    ensures { result ≡ cost_after before row.now }
{
    match row {
        Row::Setting { cost } => *cost,
        _ => before,
    }
}

// The least router cost of the state that rows give.
fn least_cost(rows: &[Row]) -> u32
    ensures { result ≡ cost_in 10 rows.now }
{
    let mut cost = 10;
    'rows: for row in rows {
        cost = cost_behind(cost, row);
    }
    cost
}

// Puts the line of the command that sets the least router cost.
fn put_setting(alloc: Global, text: &mut Vec<u8>, cost: u32) -> Result<(), AllocError>
    requires { is_link_cost cost ≡ true }
    ensures { OnOk result (text.new.items ≡ text.old.items ++ command_line (command.SetLeastRouterCost cost)) }
{
    put_command(alloc, text, Command::SetLeastRouterCost { cost })
}

/// The lines of the commands that make the like of the valid state that rows give, from the start on (docs/FORMATS.md, "Lines of a
/// dump"). An `Err` is want of memory.
pub fn dump(alloc: Global, rows: &[Row]) -> Result<Bytes, AllocError>
    requires { ValidState (state_in rows.now) }
    ensures { IfOk result (λ text. text ≡ dump_lines (state_in rows.now)) }
{
    let mut text = Vec::new(alloc);
    put_setting(alloc, &mut text, least_cost(rows))?;
    put_sections(alloc, &mut text, rows, sections())?;
    Ok(Bytes::of(text))
}
