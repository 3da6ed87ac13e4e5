ghost use Rattle.std.specs.Prelude.{◌≡◌, ℕ, Bool, false, List, [], ◌∷◌, ◌++◌, length, take, All};
ghost use Rattle.std.specs.List.{list_any};
ghost use Rattle.ziti_outside.specs.declared.desk.Part.{Part};
ghost use Rattle.ziti_outside.specs.Images.{Image, Torn, CutShort, OnPart};
ghost use Rattle.desk_base.specs.Pieces.{first};
ghost use Rattle.desk_base.specs.StopPoints.{syncs, as_done, synced_parts, whole_parts};
ghost use Rattle.desk_base.specs.MemEvents.{Event, Writing, Cutting, Syncing, written_over, reads_after, Leaving};

/// What a stop finds of a desk over memory behind a write, a cut and a sync: each image that a stop within a write or a cut
/// leaves of an earlier one is found until the part is synced, and then those alone that have in it what it reads.
pub fn pending_until_synced()
    ensures written { (first : Image) (events : List Event) (part : Part) (at : ℕ) (bytes : List ℕ) (done : Bool) (old new : Image)
        → Leaving first events old → OnPart part (Torn at (length bytes)) old new → Leaving first (events ++ Writing part at bytes done ∷ []) new }
    ensures cut { (first : Image) (events : List Event) (part : Part) (len : ℕ) (done : Bool) (old new : Image)
        → Leaving first events old → OnPart part (CutShort len) old new → Leaving first (events ++ Cutting part len done ∷ []) new }
    ensures synced { (first : Image) (events : List Event) (part : Part) (image : Image)
        → Leaving first (events ++ Syncing part ∷ []) image → image part ≡ reads_after first events part }
    ensures stays { (first : Image) (events : List Event) (part : Part) (image : Image)
        → Leaving first events image → image part ≡ reads_after first events part → Leaving first (events ++ Syncing part ∷ []) image }
    ensures at_first { (first image : Image) → Leaving first [] image → image ≡ first }
{}

/// What a stop finds of a part where nothing that is pending is kept, and where all of it is. Of nothing it is what the part read at
/// its last sync, or at first; of all it is what the part reads, where no call failed, with each write and cut whole behind it.
pub fn nothing_or_all_is_kept()
    ensures synced { (first : Image) (before behind : List Event) (part : Part) → list_any (syncs part) behind ≡ false
        → synced_parts first (before ++ (Syncing part ∷ behind)) part ≡ reads_after first before part }
    ensures never_synced { (first : Image) (events : List Event) (part : Part) → list_any (syncs part) events ≡ false → synced_parts first events part ≡ first part }
    ensures whole { (first : Image) (events : List Event) (part : Part) → All (λ event. as_done event ≡ event) events → whole_parts first events part ≡ reads_after first events part }
    ensures written_whole { (first : Image) (events : List Event) (part : Part) (at : ℕ) (bytes : List ℕ) (done : Bool)
        → whole_parts first (events ++ Writing part at bytes done ∷ []) part ≡ written_over at bytes (whole_parts first events part) }
    ensures cut_whole { (first : Image) (events : List Event) (part : Part) (len : ℕ) (done : Bool)
        → whole_parts first (events ++ Cutting part len done ∷ []) part ≡ take len (whole_parts first events part) }
    ensures synced_whole { (first : Image) (events : List Event) (part : Part) → whole_parts first (events ++ Syncing part ∷ []) part ≡ reads_after first events part }
{}
