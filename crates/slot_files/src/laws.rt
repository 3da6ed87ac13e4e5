ghost use Rattle.std.specs.Prelude.{◌≡◌, ◌⊎◌, ℕ, ◌<◌, List, [], ◌∷◌, ◌++◌, length};
ghost use Rattle.ziti_outside.specs.declared.desk.Part.{Part};
ghost use Rattle.ziti_outside.specs.declared.desk.Part.TheVariants.{Zero, One, Mark};
ghost use Rattle.ziti_outside.specs.Images.{Image, Torn, OnPart};
ghost use Rattle.ctrl_model.specs.declared.formats.Format.{Format};
ghost use Rattle.journal_core.specs.Slots.{Slot, IsPayload, ShutOrAdded, text_of, slot_end};
ghost use Rattle.slot_files.specs.declared.standing.Standing.{Standing};
ghost use Rattle.slot_files.specs.FolderImage.{slot_of, Stands, StandsAsBefore};
ghost use Rattle.slot_files.specs.OpenedSlots.{IsNamed, IsFound};
ghost use Rattle.slot_files.specs.SwitchedSlots.{StandsByEither, other_slot};

/// An image stands for at most one list of batches, and, where its mark is not empty, of one format.
pub fn one_standing()
    ensures { (f g : Format) (image : Image) (these others : List (List ℕ)) → Stands f image these → Stands g image others
        → (0 < length (image Mark) → f ≡ g) × (these ≡ others) }
{}

/// What a folder stands for that was opened and is then appended to.
pub fn standing_goes_on()
    // A folder whose slot was found stands for the batches of that slot.
    ensures found { (standing : Standing) (reads : Image) (batches : List (List ℕ)) → IsNamed standing → IsFound reads standing
        → Slot standing.format (reads standing.part) batches → Stands standing.format reads batches }

    // Whatever a stop left of an append to the slot that stands, the image stands for what it stood for, or for one batch more.
    ensures stopped { (f : Format) (old new : Image) (batch : List ℕ) (batches : List (List ℕ)) → 0 < length (old Mark) → Stands f old batches → IsPayload batch
        → OnPart (slot_of (length (old Mark))) (ShutOrAdded (slot_end batches) (text_of batch)) old new
        → Stands f new batches ⊎ Stands f new (batches ++ batch ∷ []) }

    // What stands is told by the mark's length and by the slot that it names, and by nothing else.
    ensures other { (created : Format) (old new : Image) → length (new Mark) ≡ length (old Mark) → new (slot_of (length (old Mark))) ≡ old (slot_of (length (old Mark)))
        → StandsAsBefore created old new }

    // Whatever a stop left of a byte more of the mark, the image stands for what it stood for, or for what the other slot does.
    ensures switched { (old new : Image) → 0 < length (old Mark) → OnPart Mark (Torn (length (old Mark)) 1) old new → StandsByEither (length (old Mark)) old old new }

    // Where both slots stand for the same batches of one format, a stop within a switch changes nothing.
    ensures switched_alike { (f : Format) (old new : Image) (batches : List (List ℕ)) → 0 < length (old Mark) → Stands f old batches → Slot f (old (other_slot (length (old Mark)))) batches
        → OnPart Mark (Torn (length (old Mark)) 1) old new → Stands f new batches }
{}
