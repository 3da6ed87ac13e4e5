ghost use Rattle.std.specs.Prelude.{◌≡◌, IfOk, OnErr, MatchResult, length};
ghost use Rattle.std.specs.Io.KnownBytes.{IsAtEnd};
ghost use Rattle.ziti_outside.specs.Told.{Gave};
ghost use Rattle.live_lines.specs.Exchanges.{source_of};
ghost use Rattle.zitiline.specs.Takings.{TookAll, GaveSome, HasFault, RisesOnce};

use live_lines::Exchange;
use std::alloc::{AllocError, Global};
use ziti_outside::{Failed, Source};

/// How many bytes are taken at a time.
const PIECE: usize = 65_536;

/// Why the input was not taken to its end.
#[derive(Clone, Copy)]
pub enum Cut {
    /// There is no memory.
    NoMemory,
    /// The source failed.
    Fault,
}

impl From<AllocError> for Cut {
    ghost use Rattle.std.specs.Prelude.{◌≡◌};
    ghost use Rattle.zitiline.specs.declared.intake.Cut.TheVariants.{NoMemory};

    ghost from_gives = { λ _ e. e ≡ NoMemory };

    fn from(_error: AllocError) -> Cut {
        Cut::NoMemory
    }
}

fn zeros(alloc: Global, count: usize) -> Result<Vec<u8>, AllocError>
    ensures { IfOk result (λ v. length v.items ≡ count) }
{
    vec![in alloc; 0u8; count]
}

/// Takes the input to its end.
pub fn take_all<S: Source, D>(alloc: Global, exchange: &mut Exchange<S, D>) -> Result<Vec<u8>, Cut>
    ensures taken { IfOk result (λ bytes. TookAll (S.left (source_of exchange.old)) (S.left (source_of exchange.new)) bytes.items) }
    ensures cut { OnErr result (GaveSome (S.left (source_of exchange.old)) (S.left (source_of exchange.new))) }
    ensures faults { HasFault (S.faults (source_of exchange.old)) (S.faults (source_of exchange.new)) result }
    ensures desk { exchange.new.desk ≡ exchange.old.desk }
{
    let mut bytes = Vec::new(alloc);
    let mut room = zeros(alloc, PIECE)?;
    let piece = room.as_mut_slice();
    'takes: loop {
        match exchange.take(piece) {
            Err(Failed) => return Err(Cut::Fault),
            Ok(0) => return Ok(bytes),
            Ok(count) => bytes.extend_from_slice(&piece[..count])?,
        }
    }
}
