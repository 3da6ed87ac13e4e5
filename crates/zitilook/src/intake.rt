ghost use Rattle.std.specs.Prelude.{◌≡◌, IfOk, OnErr, length};
ghost use Rattle.zitilook.specs.Intake.{FaultOf, GaveSome, TookAll, cut_status};

use crate::status::Status;
use std::alloc::{AllocError, Global};
use ziti_outside::{Failed, Source};

/// How many bytes are taken at a time.
const PIECE: usize = 65_536;

/// Why the input was not taken to its end.
#[derive(Clone, Copy)]
pub enum Cut {
    /// There is no memory.
    NoMemory,
    /// The source failed.
    Fault,
}

impl Cut {
    /// The status with which a run ends then.
    pub fn status(&self) -> Status
        ensures { result ≡ cut_status self.now }
    {
        match self {
            Cut::NoMemory => Status::NoMemory,
            Cut::Fault => Status::ReadFault,
        }
    }
}

impl From<AllocError> for Cut {
    ghost use Rattle.std.specs.Prelude.{◌≡◌};
    ghost use Rattle.zitilook.specs.declared.intake.Cut.TheVariants.{NoMemory};

    ghost from_gives = { λ _ e. e ≡ NoMemory };

    fn from(_error: AllocError) -> Cut {
        Cut::NoMemory
    }
}

fn zeros(alloc: Global, count: usize) -> Result<Vec<u8>, AllocError>
    ensures { IfOk result (λ v. length v.items ≡ count) }
{
    vec![in alloc; 0u8; count]
}

/// Takes the input to its end.
pub fn take_all<S: Source>(alloc: Global, source: &mut S) -> Result<Vec<u8>, Cut>
    ensures taken { IfOk result (λ bytes. TookAll (S.left source.old) (S.left source.new) bytes.items) }
    ensures cut { OnErr result (GaveSome (S.left source.old) (S.left source.new)) }
    ensures faults { FaultOf (S.faults source.old) (S.faults source.new) result }
{
    let mut bytes = Vec::new(alloc);
    let mut room = zeros(alloc, PIECE)?;
    let piece = room.as_mut_slice();
    'takes: loop {
        match source.take(piece) {
            Err(Failed) => return Err(Cut::Fault),
            Ok(0) => return Ok(bytes),
            Ok(count) => bytes.extend_from_slice(&piece[..count])?,
        }
    }
}
