ghost use Rattle.std.specs.Prelude.{◌≡◌, ◌⊎◌, ℕ, ◌+◌, ◌≤◌, List, [], ◌∷◌, ◌++◌, length};
ghost use Rattle.std.specs.declared.option.Option.{Option};
ghost use Rattle.ziti_outside.specs.Images.{Image, Torn};
ghost use Rattle.ziti_outside.specs.Told.{IsFront};
ghost use Rattle.ctrl_model.specs.declared.formats.Format.{Format};
ghost use Rattle.journal_core.specs.Slots.{Slot, SlotFront, IsClosed, IsRecord, IsDamaged, IsPayload, GateGives, Shut, ShutOrAdded, added, header, text_of, slot_end, slot_bytes};
ghost use Rattle.journal_core.specs.Room.{empty_size, IsWithin, KeepsRoom, HoldsRoom};

use ziti_outside::Desk;

/// Bytes are a slot of at most one format and one list of payloads, and begin as one of at most one format; and at each place stands at
/// most one thing: a closed gate, one record, or damage.
pub fn one_reading()
    ensures slot { (f g : Format) (bytes : List ℕ) (these others : List (List ℕ)) → Slot f bytes these → Slot g bytes others → (f ≡ g) × (these ≡ others) }
    ensures header { (f g : Format) (bytes : List ℕ) → IsFront (header f) bytes → IsFront (header g) bytes → f ≡ g }
    ensures place { (at : ℕ) (bytes : List ℕ) (this other : Option (List ℕ)) → GateGives at bytes this → GateGives at bytes other → this ≡ other }
    ensures damage { (at : ℕ) (bytes : List ℕ) (found : Option (List ℕ)) → GateGives at bytes found → IsDamaged at bytes → ⊥ }
{}

/// A slot is read from its header on, record by record, up to the closed gate.
pub fn reading_goes_on()
    ensures start { (f : Format) (bytes : List ℕ) → IsFront (header f) bytes → SlotFront f bytes [] }
    ensures next { (f : Format) (bytes payload : List ℕ) (payloads : List (List ℕ)) → SlotFront f bytes payloads → IsRecord (slot_end payloads) payload bytes
        → SlotFront f bytes (payloads ++ payload ∷ []) }
    ensures end { (f : Format) (bytes : List ℕ) (payloads : List (List ℕ)) → SlotFront f bytes payloads → IsClosed (slot_end payloads) bytes → Slot f bytes payloads }
    ensures gate { (f : Format) (bytes : List ℕ) (payloads : List (List ℕ)) → Slot f bytes payloads → IsClosed (slot_end payloads) bytes }
{}

/// What a slot stands for after an append at its closed gate, and after one that was stopped: what it stood for, or that and the
/// one payload more.
pub fn stands_through_stops()
    ensures shut { (f : Format) (old new : List ℕ) (payloads : List (List ℕ)) → Slot f old payloads → Shut (slot_end payloads) old new → Slot f new payloads }
    ensures torn { (f : Format) (old new : List ℕ) (payloads : List (List ℕ)) (count : ℕ) → Slot f old payloads → Torn (slot_end payloads + 1) count old new
        → Slot f new payloads }
    ensures added { (f : Format) (old new payload : List ℕ) (payloads : List (List ℕ)) → Slot f old payloads → IsPayload payload
        → new ≡ added (slot_end payloads) (text_of payload) old → Slot f new (payloads ++ payload ∷ []) }
    ensures stopped { (f : Format) (old new payload : List ℕ) (payloads : List (List ℕ)) → Slot f old payloads → IsPayload payload
        → ShutOrAdded (slot_end payloads) (text_of payload) old new → Slot f new payloads ⊎ Slot f new (payloads ++ payload ∷ []) }
    ensures gate { (payload : List ℕ) (payloads : List (List ℕ)) → slot_end (payloads ++ payload ∷ []) ≡ slot_end payloads + 5 + length payload }
    ensures bytes { (f : Format) (payload : List ℕ) (payloads : List (List ℕ)) → added (slot_end payloads) (text_of payload) (slot_bytes f payloads)
        ≡ slot_bytes f (payloads ++ payload ∷ []) }
{}

/// What calls that keep room within a bound do to slots that are within it: they stay within it, as the desk reads and in all that a
/// stop may leave, over any number of calls one after another. A slot without a record is within the bound of an opening.
pub fn room_is_kept<D: Desk>()
    ensures empty { (f : Format) → length (slot_bytes f []) ≡ empty_size }
    ensures within { (most : ℕ) (old new : Image) → IsWithin most old → KeepsRoom most old new → IsWithin most new }
    ensures next { (most : ℕ) (old mid new : Image) → KeepsRoom most old mid → KeepsRoom most mid new → KeepsRoom most old new }
    ensures wider { (less most : ℕ) (old new : Image) → less ≤ most → KeepsRoom less old new → KeepsRoom most old new }
    ensures left_within { (most : ℕ) (old new : D) → ((image : Image) → (D.stopped old).images image → IsWithin most image)
        → HoldsRoom D.tells most D.seen D.stopped old new → (image : Image) → (D.stopped new).images image → IsWithin most image }
    ensures held_next { (most : ℕ) (old mid new : D) → HoldsRoom D.tells most D.seen D.stopped old mid → HoldsRoom D.tells most D.seen D.stopped mid new
        → HoldsRoom D.tells most D.seen D.stopped old new }
    ensures held_wider { (less most : ℕ) (old new : D) → less ≤ most → HoldsRoom D.tells less D.seen D.stopped old new → HoldsRoom D.tells most D.seen D.stopped old new }
{}
