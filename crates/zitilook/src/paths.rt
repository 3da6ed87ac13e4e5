ghost use Rattle.std.specs.Prelude.{◌≡◌, ◌++◌, IfOk, codes};
ghost use Rattle.std.specs.String.{string_bytes};

use std::alloc::{AllocError, Global};

/// The paths of a folder and of its three files.
#[derive(Drop)]
pub struct FolderPaths {
    /// Of the folder.
    pub folder: String,
    /// Of the first slot.
    pub zero: String,
    /// Of the second slot.
    pub one: String,
    /// Of the mark.
    pub mark: String,
}

impl FolderPaths {
    /// Those of the folder at a place. An `Err` is want of memory.
    pub fn at(alloc: Global, place: &str) -> Result<FolderPaths, AllocError>
        ensures folder { IfOk result (λ p. string_bytes p.folder ≡ place.now) }
        ensures zero { IfOk result (λ p. string_bytes p.zero ≡ place.now ++ codes "/ziti.0") }
        ensures one { IfOk result (λ p. string_bytes p.one ≡ place.now ++ codes "/ziti.1") }
        ensures mark { IfOk result (λ p. string_bytes p.mark ≡ place.now ++ codes "/ziti.mark") }
    {
        let folder = format!(in alloc; "{place}")?;
        let zero = format!(in alloc; "{place}/ziti.0")?;
        let one = format!(in alloc; "{place}/ziti.1")?;
        let mark = format!(in alloc; "{place}/ziti.mark")?;
        Ok(FolderPaths {
            folder,
            zero,
            one,
            mark,
        })
    }
}
