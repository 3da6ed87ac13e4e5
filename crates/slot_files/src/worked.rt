ghost use Rattle.std.specs.Prelude.{◌≡◌, true, [], ◌∷◌};
ghost use Rattle.ziti_outside.specs.declared.desk.Part.TheVariants.{Zero, One};
ghost use Rattle.ctrl_model.specs.declared.formats.Format.{Format};
ghost use Rattle.ctrl_model.specs.declared.formats.Format.TheVariants as format;
ghost use Rattle.journal_core.specs.WorkedSlots.{batch_of_ann};
ghost use Rattle.slot_files.specs.FolderImage.{slot_of, Stands};
ghost use Rattle.journal_core.specs.WorkedDesks.{small_seen, small_stopped, fresh, behind};
ghost use Rattle.slot_files.specs.SwitchedSlots.{other_slot, OnlySwitches};
ghost use Rattle.slot_files.specs.WorkedFolders.{no_files, slot_without_mark, folder_of_ann, second_stands, second_is_cut, both_have_ann, old_of_ann, new_stands};

/// Folders worked by hand, and what they stand for, and in which format: with an empty mark in any. The slots take turns, and a mark of one
/// byte names the first.
pub fn worked_folders()
    ensures first { slot_of 1 ≡ Zero }
    ensures second { slot_of 2 ≡ One }
    ensures third { slot_of 3 ≡ Zero }
    ensures other_of_the_first { other_slot 1 ≡ One }
    ensures other_of_the_second { other_slot 2 ≡ Zero }
    ensures no_files { (f : Format) → Stands f no_files [] }
    ensures without_mark { (f : Format) → Stands f slot_without_mark [] }
    ensures without_mark_alone { Stands format.Two slot_without_mark (batch_of_ann format.Two ∷ []) → ⊥ }
    ensures after_one_batch { Stands format.Two folder_of_ann (batch_of_ann format.Two ∷ []) }
    ensures after_a_switch { Stands format.Two second_stands [] }
    ensures of_the_first_format { Stands format.One old_of_ann (batch_of_ann format.One ∷ []) }
    ensures not_yet_of_the_second { Stands format.Two old_of_ann (batch_of_ann format.One ∷ []) → ⊥ }
    ensures behind_a_migration { Stands format.Two new_stands (batch_of_ann format.Two ∷ []) }
{}

/// What letting the second slot stand may do, worked by hand: the mark has one byte before, and two bytes behind it. A stop leaves either.
/// It may not leave a second slot without its header behind the longer mark, and no slot may grow.
pub fn worked_switches()
    ensures switched { OnlySwitches true small_seen small_stopped 1 (fresh folder_of_ann) (behind folder_of_ann second_stands second_stands) }
    ensures pending { OnlySwitches true small_seen small_stopped 1 (fresh folder_of_ann) (behind folder_of_ann second_stands folder_of_ann) }
    ensures failed { OnlySwitches true small_seen small_stopped 1 (fresh folder_of_ann) (behind folder_of_ann folder_of_ann folder_of_ann) }
    ensures loses_the_second_slot { OnlySwitches true small_seen small_stopped 1 (fresh folder_of_ann) (behind folder_of_ann second_stands second_is_cut) → ⊥ }
    ensures lets_a_slot_grow { OnlySwitches true small_seen small_stopped 1 (fresh folder_of_ann) (behind folder_of_ann both_have_ann second_stands) → ⊥ }
{}
