ghost use Rattle.std.specs.Prelude.{◌≡◌, ℕ, ◌<◌, length};
ghost use Rattle.ziti_outside.specs.declared.desk.Part.{Part};
ghost use Rattle.ziti_outside.specs.declared.desk.Part.TheVariants.{Mark};
ghost use Rattle.ziti_outside.specs.Images.{Image, After};
ghost use Rattle.ctrl_model.specs.declared.formats.Format.{Format};
ghost use Rattle.ctrl_model.specs.State.{State};
ghost use Rattle.slot_files.specs.FolderImage.{StandsAsBefore};
ghost use Rattle.slot_files.specs.OpenedSlots.{Opens};
ghost use Rattle.slot_reading.specs.BatchRows.{ByteRows};
ghost use Rattle.row_store.specs.OpenedRows.{OpensTo, IsDamagedAt};
ghost use Rattle.row_store.specs.OpenedStates.{OpensToState, IsOfNoState, IsStateless};
ghost use Rattle.row_store.specs.StoredRows.{Stored, IsStoreOf, ReadsAs};

use ziti_outside::Desk;

/// An image opens to at most one list of rows, and, where its mark is not empty, of one format. It is damaged at one place at most, and then it opens to none.
pub fn one_opening()
    ensures rows { (f g : Format) (image : Image) (these others : ByteRows) → OpensTo f image these → OpensTo g image others
        → (0 < length (image Mark) → f ≡ g) × (these ≡ others) }
    ensures damaged { (f : Format) (image : Image) (part : Part) (at : ℕ) (rows : ByteRows) → IsDamagedAt image part at → OpensTo f image rows → ⊥ }
    ensures place { (image : Image) (part other : Part) (at place : ℕ) → IsDamagedAt image part at → IsDamagedAt image other place
        → (part ≡ other) × (at ≡ place) }
{}

/// What a store says of the folder whose it is.
pub fn own_store()
    ensures { (image : Image) (stored : Stored) → IsStoreOf image stored → OpensTo stored.format image stored.rows }
{}

/// What a folder opens to that reads as a store stands: every image that a stop may leave opens to the store's rows. It reads so on
/// through calls that leave its bytes, as those that say, note and read. And what every image of a moment opens to, in the format in which a
/// folder is created, the images open to that stand for the same.
pub fn reading_stands<D: Desk>()
    ensures opens { (stored : Stored) (desk : D) (image : Image) → ReadsAs stored (D.seen desk).reads (D.stopped desk).images → (D.stopped desk).images image
        → OpensTo stored.format image stored.rows }
    ensures later { (stored : Stored) (old new : D) → ReadsAs stored (D.seen old).reads (D.stopped old).images → (D.seen new).reads ≡ (D.seen old).reads
        → ((image : Image) → (D.stopped new).images image → (D.stopped old).images image) → ReadsAs stored (D.seen new).reads (D.stopped new).images }
    ensures opening { (f : Format) (desk : D) (image : Image) (rows : ByteRows) → ((first : Image) → (D.stopped desk).images first → OpensTo f first rows)
        → After (StandsAsBefore f) (D.stopped desk).images image → OpensTo f image rows }
{}

/// An image opens to at most one state. It has no state at one place at most, and then it opens to none.
pub fn one_state()
    ensures state { (image : Image) (s t : State) → OpensToState image s → OpensToState image t → s ≡ t }
    ensures none { (image : Image) (part : Part) (at : ℕ) (s : State) → IsStateless image part at → OpensToState image s → ⊥ }
    ensures place { (image : Image) (part other : Part) (at place : ℕ) → IsStateless image part at → IsStateless image other place
        → (part ≡ other) × (at ≡ place) }
{}

/// A folder whose store has the rows of no state opens to none, and is damaged at the store's end: one that was looked at, and one that
/// was opened. And an image opens to the state to which one opened that stood for the same.
pub fn opened_states()
    ensures looked_at { (image : Image) (stored : Stored) (part : Part) (at : ℕ) → IsStoreOf image stored → IsOfNoState stored part at → IsStateless image part at }
    ensures opened { (f : Format) (old new : Image) (stored : Stored) (part : Part) (at : ℕ) → Opens f (length (old Mark)) old new → OpensTo stored.format old stored.rows → IsStoreOf new stored
        → IsOfNoState stored part at → IsStateless old part at }
    ensures still { (f : Format) (old new : Image) (s : State) → StandsAsBefore f old new → OpensToState old s → OpensToState new s }
{}
