ghost use Rattle.std.specs.Prelude.{◌≡◌, ◌++◌, ◌<◌, ◌≤◌, OnOk, length, take, drop};
ghost use Rattle.std.specs.List.{flat_map};
ghost use Rattle.session_mux.specs.Arrivals.{Data, most_data, record_bytes};
ghost use Rattle.trace_lines.specs.ActRecords.{data_records};

use std::alloc::AllocError;

/// The most bytes that one data record brings.
const MOST_DATA: usize = 65_535;

// Puts one data record of a session down.
fn put_data(out: &mut Vec<u8>, session: u8, piece: &[u8]) -> Result<(), AllocError>
    requires { length piece.now ≤ most_data }
    ensures { OnOk result (out.new.items ≡ out.old.items ++ record_bytes (Data session piece.now)) }
{
    let len = piece.len() as u16;
    out.push(2)?;
    out.push(session)?;
    out.extend_from_slice(&len.to_le_bytes())?;
    out.extend_from_slice(piece)
}

// The first piece of some bytes, and what stands behind it.
#[tactic(auto, using(crate::proofs::PieceLaws::whole_piece, crate::proofs::PieceLaws::none_behind))]
fn cut_piece(bytes: &[u8]) -> (&[u8], &[u8])
    requires { 0 < length bytes.now }
    ensures some { 0 < length result.0.now }
    ensures few { length result.0.now ≤ most_data }
    ensures shorter { length result.1.now < length bytes.now }
    ensures piece { result.0.now ≡ take most_data bytes.now }
    ensures behind { result.1.now ≡ drop most_data bytes.now }
{
    if bytes.len() > MOST_DATA {
        bytes.split_at(MOST_DATA)
    } else {
        bytes.split_at(bytes.len())
    }
}

/// Puts the data records of a session down that bring some bytes.
pub fn put_pieces(out: &mut Vec<u8>, session: u8, bytes: &[u8]) -> Result<(), AllocError>
    ensures { OnOk result (out.new.items ≡ out.old.items ++ flat_map record_bytes (data_records session bytes.now)) }
{
    let mut rest = bytes;
    'pieces: while !rest.is_empty() {
        let (piece, after) = cut_piece(rest);
        put_data(out, session, piece)?;
        rest = after;
    }
    Ok(())
}
