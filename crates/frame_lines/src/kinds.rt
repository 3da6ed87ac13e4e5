use crate::told::DecodeCause;
use std::alloc::{AllocError, Global};

/// What became of the front of some bytes.
#[derive(Clone, Copy, PartialEq, Eq)]
pub enum Turn {
    /// Less than one item stands there.
    Short,
    /// A whole one does, of so many bytes, and its line was put down.
    Told(u64),
    /// A whole one that no line tells, or none at all.
    Ended(DecodeCause),
}

/// A kind of items in bytes, as frames, of which lines are told, one behind another.
pub trait LineKind {
    ghost use Rattle.std.specs.Prelude.{◌≡◌, ◌++◌, IfOk, OnOk};
    ghost use Rattle.frame_lines.specs.LineKinds.{Reading, turn_of, line_in, IsInOrder};

    ghost reading: { Reading };

    /// Puts down the line of the whole item at the front of some bytes, which begin at this place, with its newline. Nothing is put down
    /// where none is whole, or no line tells it.
    fn put_first(
        alloc: Global,
        out: &mut Vec<u8>,
        at: u64,
        bytes: &[u8],
    ) -> Result<Turn, AllocError>
        ensures turn { IfOk result (λ turn. turn ≡ turn_of (reading.front at bytes.now)) }
        ensures line { OnOk result (out.new.items ≡ out.old.items ++ line_in (reading.front at bytes.now)) };

    /// A law, and no step: the items of the kind stand one behind another.
    fn in_order()
        ensures { IsInOrder reading };
}
