use std::alloc::AllocError;

/// How the taking of the input ended.
#[derive(Clone, Copy)]
pub enum End {
    /// Nothing is left.
    Whole,
    /// More bytes were given than are used.
    More,
    /// The source failed.
    Fault,
}

/// Why serving was cut short.
#[derive(Clone, Copy)]
pub enum Cut {
    /// There is no memory.
    NoMemory,
    /// A call on the disk failed.
    Disk,
    /// The desk failed to take a reply.
    Unsaid,
}

/// What of the folder has no room for a compaction.
#[derive(Clone, Copy)]
pub enum Full {
    /// The other slot: the rows would pass its bound.
    Journal,
    /// The mark: it is at its bound.
    Mark,
}

impl From<AllocError> for Cut {
    ghost use Rattle.std.specs.Prelude.{◌≡◌};
    ghost use Rattle.run_notes.specs.declared.ends.Cut.TheVariants.{NoMemory};

    ghost from_gives = { λ _ e. e ≡ NoMemory };

    fn from(_error: AllocError) -> Cut {
        Cut::NoMemory
    }
}
