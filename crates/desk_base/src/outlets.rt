ghost use Rattle.std.specs.Prelude.{ℕ, ◌≡◌, ◌<◌, List, length, IfOk};
ghost use Rattle.std.specs.declared.option.Option.{Option};
ghost use Rattle.std.specs.Io.{WritesAtMost};
ghost use Rattle.std.specs.Io.KnownBytes.{WriteAppends};
ghost use Rattle.ziti_outside.specs.Causes.{HasCause};
ghost use Rattle.ziti_outside.specs.Told.{Hands};

use crate::answers::{counted, taken};
use std::io::Write;
use ziti_outside::Failed;

/// Where bytes go piece by piece, and a failure is counted.
///
/// The count rises in no other way than by a piece that fails, so what is proved of every outlet is counted only where a piece
/// failed.
pub trait Outlet {
    ghost contents: { Self → Option (List ℕ) };

    ghost failures: { Self → ℕ };

    /// Writes the front of a piece, and answers how many bytes of it; a piece that is not empty has one written at least.
    fn write_piece(&mut self, piece: &[u8]) -> Result<usize, Failed>
        ensures within { WritesAtMost result piece.now }
        ensures some { IfOk result (λ count. 0 < length piece.now → 0 < count) }
        ensures bytes { WriteAppends (contents self.old) (contents self.new) result piece.now }
        ensures cause { HasCause (failures self.old) (failures self.new) result };
}

/// The outlet to a writer. It tells what the writer tells, and counts each write that fails or takes nothing of a piece.
#[derive(Drop)]
pub struct Writes<W> {
    writer: W,
    failures: u64,
}

impl<W> Writes<W> {
    /// The outlet to a writer, of which no write has failed.
    pub fn new(writer: W) -> Writes<W>
        ensures writer { result.writer ≡ writer }
        ensures failures { result.failures ≡ 0 }
    {
        Writes {
            writer,
            failures: 0,
        }
    }

    /// Its writer.
    pub fn writer(&self) -> &W
        ensures { result.now ≡ self.now.writer }
    {
        &self.writer
    }

    /// How many writes have failed.
    pub fn failures(&self) -> u64
        ensures { result ≡ self.now.failures }
    {
        self.failures
    }
}

impl<W: Write> Outlet for Writes<W> {
    ghost contents = { λ o. W.contents o.writer };

    ghost failures = { λ o. o.failures };

    fn write_piece(&mut self, piece: &[u8]) -> Result<usize, Failed> {
        let answer = self.writer.write(piece);
        counted(&mut self.failures, taken(answer, piece.len()))
    }
}

/// Writes all of the bytes, piece by piece. It ends at the first piece that fails, with some front of them written.
pub fn write_whole<O: Outlet>(outlet: &mut O, bytes: &[u8]) -> Result<(), Failed>
    ensures written { Hands (O.contents outlet.old) (O.contents outlet.new) result bytes.now }
    ensures cause { HasCause (O.failures outlet.old) (O.failures outlet.new) result }
{
    let mut rest = bytes;
    'pieces: while !rest.is_empty() {
        let count = outlet.write_piece(rest)?;
        let (_, after) = rest.split_at(count);
        rest = after;
    }
    Ok(())
}
