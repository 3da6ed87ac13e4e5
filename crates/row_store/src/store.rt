ghost use Rattle.std.specs.Prelude.{◌≡◌, ◌⊎◌, ◌+◌, ◌-◌, ◌≤◌, ◌<◌, ◌^◌, ◌≢◌, min, ⊤, true, false, zero, [], map, length, IsTrue, OnOk, IfOk, IfErr, IfSome, IsErrOf};
ghost use Rattle.std.specs.Option.{option_map};
ghost use Rattle.ziti_outside.specs.declared.desk.Part.TheVariants.{One, Mark};
ghost use Rattle.ziti_outside.specs.Causes.{HasCause};
ghost use Rattle.ziti_outside.specs.Images.{Image, Else, After};
ghost use Rattle.ziti_outside.specs.Moments.{Remembers, Leaves};
ghost use Rattle.ziti_outside.specs.Untouched.{OnlyDisk, OnlyReads};
ghost use Rattle.journal_core.specs.Room.{empty_size, HoldsRoom};
ghost use Rattle.slot_files.specs.FolderImage.{StandsAsBefore};
ghost use Rattle.slot_files.specs.OpenedSlots.{Opens};
ghost use Rattle.row_codec.specs.NarrowedRows.{narrowed};
ghost use Rattle.row_codec.specs.RowDifference.{Rises, value_at, IsTrueDifference};
ghost use Rattle.row_codec.specs.Batches.{bytes_cmp, IsBatch, entries_of};
ghost use Rattle.ctrl_model.specs.declared.formats.Format.TheVariants as formats;
ghost use Rattle.row_store.specs.AddedBatches.{AddsBatch};
ghost use Rattle.slot_reading.specs.BatchRows.{ByteRows, MayLead, AreNarrow, rows_after, rows_in, puts, puts_of};
ghost use Rattle.row_store.specs.OpenedRows.{OpensTo};
ghost use Rattle.row_store.specs.StoredRows.{IsStoreOf, ReadsAs, spent_of, with_ops, without_rows};
ghost use Rattle.row_store.specs.Faults.{disk_failure, OpenFails, MayCommit, CommitFails};
ghost use Rattle.row_store.specs.GateBatches.{IsGateOf, GateHas, GateFails};
ghost use Rattle.row_store.specs.RewrittenStores.{compacted_size, rewritten_of, IsRewritten, MayRewrite, RewriteFails};
ghost use Rattle.row_store.specs.WrittenRows.{IsSlotOf};

use crate::bounds::StoreBounds;
use crate::committing::{keep, pack};
use crate::compacting::{narrowed_rows, replaced_slot, rows_of, written_slot};
use crate::faults::{StoreFault, in_part};
use crate::moving::move_to;
use crate::opening::{load, look, settle};
use crate::scanning::{puts, puts_of};
use crate::sizing::has_room;
use crate::writing::Writing;
use ctrl_model::{Bytes, Format};
use journal_core::HEADER_LEN;
use row_codec::Batch;
use slot_files::Standing;
use slot_reading::{Rows, batch_behind};
use std::alloc::{AllocError, Global};
use std::marker::Model;
use ziti_outside::{Desk, Part};

/// The bounds of a store that is only read.
const NO_BOUNDS: StoreBounds = StoreBounds { slot: 0, mark: 0 };

/// The rows that a folder keeps, with the place at which they go on.
///
/// Contracts see its format; its rows, which rise by the bytes of their keys; the slot that stands and the place of its closed gate; the mark's
/// length; the bounds, which a store that `peek` gave has not; whether `open` gave it; and whether it is spent.
#[derive(Drop)]
pub struct Store {
    alloc: Global,
    format: Format,
    rows: Rows,
    part: Part,
    end: u64,
    mark: u64,
    bounds: StoreBounds,
    opened: bool,
    spent: bool,
}

impl Model for Store {
    ghost use Rattle.std.specs.Prelude.{◌≡◌, ◌≤◌, ◌^◌, true, false};
    ghost use Rattle.slot_files.specs.OpenedSlots.{IsNamed};
    ghost use Rattle.row_codec.specs.RowDifference.{Rises};
    ghost use Rattle.row_codec.specs.Batches.{bytes_cmp};
    ghost use Rattle.slot_reading.specs.BatchRows.{ArePuttable, rows_in};
    ghost use Rattle.row_store.specs.StoredRows.{Stored};

    ghost Value = { Stored };

    ghost view = { λ s. record { format = s.format; rows = rows_in s.rows.entries; part = s.part; end = s.end; mark = s.mark; bounds = s.bounds; opened = s.opened; spent = s.spent } };

    ghost invariant = { λ s. Rises bytes_cmp (rows_in s.rows.entries) × (s.bounds.slot ≤ 2 ^ 30)
        × (s.spent ≡ false → ArePuttable (rows_in s.rows.entries)) × (s.opened ≡ true → IsNamed (record { part = s.part; mark = s.mark; format = s.format })) };
}

impl Store {
    /// The rows of a folder, in the format in which it keeps them. Where its mark is empty it is created, in the format that is given.
    /// `bounds` are those of the later changes; a slot or a mark that has more bytes already is found as well.
    ///
    /// `Damaged` comes exactly where the folder opens to no rows, with the first place at which it is damaged, and then it reads as
    /// before. At every moment of the call, and after it, an image that a stop may leave stands for what an image of its start stood
    /// for. `Full`, `MarkFull` and `Spent` never come.
    pub fn open<D: Desk>(
        alloc: Global,
        desk: &mut D,
        format: Format,
        bounds: StoreBounds,
    ) -> Result<Store, StoreFault>
        requires { bounds.slot ≤ 2 ^ 30 }
        ensures opens { IfOk result (λ store. IsTrue D.tells → OpensTo store.format (D.seen desk.old).reads store.rows) }
        ensures stands { IfOk result (λ store. IsTrue D.tells → ReadsAs store (D.seen desk.new).reads (D.stopped desk.new).images) }
        ensures opened { IfOk result (λ store. (store.bounds ≡ bounds) × (store.opened ≡ true) × (store.spent ≡ false)) }
        ensures created { OnOk result (IsTrue D.tells → Opens format (length ((D.seen desk.old).reads Mark)) (D.seen desk.old).reads (D.seen desk.new).reads) }
        ensures format { IfOk result (λ store. IsTrue D.tells → length ((D.seen desk.old).reads Mark) ≡ 0 → store.format ≡ format) }

        // A folder whose mark is not empty reads as before, whatever comes of the call; and the second slot always does.
        ensures kept { IsTrue D.tells → 0 < length ((D.seen desk.old).reads Mark) → (D.seen desk.new).reads ≡ (D.seen desk.old).reads }
        ensures second { (D.seen desk.new).reads One ≡ (D.seen desk.old).reads One }

        // Nor does a stop leave anything else of such a folder: each image, at every moment of the call and after it, is one that a stop
        // might have left before.
        ensures unwritten { IsTrue D.tells → 0 < length ((D.seen desk.old).reads Mark) → Leaves D.seen D.stopped desk.old desk.new (D.stopped desk.old).images }

        ensures fault { IfErr result (λ fault. OpenFails D.tells (D.seen desk.old).reads fault) }
        ensures cause { HasCause (D.seen desk.old).disk_faults (D.seen desk.new).disk_faults (disk_failure result) }
        ensures others { OnlyDisk D.seen desk.old desk.new }
        ensures quiet { Leaves D.seen D.stopped desk.old desk.new (λ image. ⊤) }
        ensures stops { IsTrue D.tells → Leaves D.seen D.stopped desk.old desk.new (After (StandsAsBefore format) (D.stopped desk.old).images) }
        ensures remembers { Remembers (D.stopped desk.old) (D.stopped desk.new) }

        // No slot grows past the size of one without a record, neither as the desk reads nor in what a stop leaves.
        ensures room { HoldsRoom D.tells empty_size D.seen D.stopped desk.old desk.new }
    {
        let standing = settle(desk, format)?;
        let (rows, end) = load(alloc, desk, standing)?;
        Ok(Store {
            alloc,
            format: standing.format,
            rows,
            part: standing.part,
            end,
            mark: standing.mark,
            bounds,
            opened: true,
            spent: false,
        })
    }

    /// The rows of a folder, which is left as it is: `open` without creating it and without making it stable. Such a store is read
    /// alone. Over an empty mark it has the format that is given and no rows, and ends at place 8 of the first slot.
    ///
    /// `Damaged` comes exactly where the folder opens to no rows, with the first place at which it is damaged. `Full`, `MarkFull` and
    /// `Spent` never come.
    pub fn peek<D: Desk>(alloc: Global, desk: &mut D, format: Format) -> Result<Store, StoreFault>
        ensures opens { IfOk result (λ store. IsTrue D.tells → IsStoreOf (D.seen desk.old).reads store) }
        ensures empty { IfOk result (λ store. store.mark ≡ 0 → store ≡ without_rows format) }
        ensures peeked { IfOk result (λ store. (store.opened ≡ false) × (store.spent ≡ false)) }
        ensures fault { IfErr result (λ fault. OpenFails D.tells (D.seen desk.old).reads fault) }
        ensures cause { HasCause (D.seen desk.old).disk_faults (D.seen desk.new).disk_faults (disk_failure result) }
        ensures reads { OnlyReads D.seen D.stopped desk.old desk.new }
    {
        match look(desk)? {
            None => Ok(Store::without_rows(alloc, format)),
            Some(standing) => {
                let (rows, end) = load(alloc, desk, standing)?;
                Ok(Store {
                    alloc,
                    format: standing.format,
                    rows,
                    part: standing.part,
                    end,
                    mark: standing.mark,
                    bounds: NO_BOUNDS,
                    opened: false,
                    spent: false,
                })
            }
        }
    }

    // The store of a format over a folder whose mark is empty.
    fn without_rows(alloc: Global, format: Format) -> Store
        ensures { result ≡ without_rows format }
    {
        Store {
            alloc,
            format,
            rows: Rows::new(alloc),
            part: Part::Zero,
            end: HEADER_LEN,
            mark: 0,
            bounds: NO_BOUNDS,
            opened: false,
            spent: false,
        }
    }

    /// The value at a key, or none where the key is absent.
    pub fn get(&self, key: &[u8]) -> Option<&Bytes>
        ensures { option_map (λ value. value.now) result ≡ value_at bytes_cmp self.now.rows key.now }
    {
        self.rows.get(key)
    }

    /// The rows of a table as puts, in the order of their keys. The table's number is the first byte of its keys.
    pub fn scan(&self, table: u8) -> Result<Batch, AllocError>
        ensures puts { IfOk result (λ batch. batch ≡ puts_of table self.now.rows) }
        ensures rises { Rises bytes_cmp self.now.rows }
    {
        puts_of(self.alloc, &self.rows, table)
    }

    /// All rows as puts, in the order of their keys.
    pub fn all(&self) -> Result<Batch, AllocError>
        ensures puts { IfOk result (λ batch. batch ≡ puts self.now.rows) }
    {
        puts(self.alloc, &self.rows, Writing::Same)
    }

    /// All rows as puts, in the order of their keys, as the second format has the rows of the first: of each count two bytes.
    pub fn narrowed(&self) -> Result<Batch, AllocError>
        ensures puts { IfOk result (λ batch. batch ≡ puts (map narrowed self.now.rows)) }
        ensures batch { self.now.spent ≡ false → IfOk result IsBatch }
    {
        puts(self.alloc, &self.rows, Writing::Narrowed)
    }

    /// The format in which the folder keeps the rows; over an empty mark that which was given.
    pub fn format(&self) -> Format
        ensures { result ≡ self.now.format }
    {
        self.format
    }

    /// The slot that stands and the place of its closed gate; the first slot and place 8 over an empty mark.
    pub fn end(&self) -> (Part, u64)
        ensures { (result.0 ≡ self.now.part) × (result.1 ≡ self.now.end) }
    {
        (self.part, self.end)
    }

    /// Whether an earlier call spent the store.
    pub fn is_spent(&self) -> bool
        ensures { result ≡ self.now.spent }
    {
        self.spent
    }

    /// Keeps a batch of changes, which in the second format raises the serial where another batch stands in the slot before it: appends it to
    /// the slot that stands, and makes its changes in the rows. The folder stands for this one
    /// batch more, and of its bytes no others are changed; the other slot and the mark read as before, whatever comes of the call.
    ///
    /// Whatever comes of it, a stop at any moment of the call leaves a folder that opens to the rows before it or to those after it.
    /// Spent comes exactly where the store is spent, and Full exactly where it is not and the slot would pass its bound, before any
    /// memory is taken; nothing was done on either. A fault of the disk leaves the rows and spends the store. Want of memory before
    /// the first call on the disk leaves all as it was; behind it the folder has the batch, the rows are not told any more, and the
    /// store is spent. `Damaged` and `MarkFull` never come. A spent store may be asked again with any batch.
    pub fn commit<D: Desk>(&mut self, desk: &mut D, batch: &Batch) -> Result<(), StoreFault>
        requires opened { self.old.opened ≡ true }
        requires batch { IsBatch batch.now }
        requires changes { self.old.spent ≡ false → IsTrueDifference bytes_cmp self.old.rows (entries_of batch.now) }
        requires leads { self.old.spent ≡ false → MayLead self.old.format self.old.end self.old.rows (rows_after self.old.rows batch.now) }
        requires stands { self.old.spent ≡ false → IsTrue D.tells → ReadsAs self.old (D.seen desk.old).reads (D.stopped desk.old).images }

        ensures kept { OnOk result (MayCommit self.old batch.now × (self.new ≡ with_ops self.old batch.now)) }
        ensures added { OnOk result (IsTrue D.tells → AddsBatch batch.now (D.seen desk.old).reads (D.seen desk.new).reads) }
        ensures elsewhere { Else self.old.part (D.seen desk.old).reads (D.seen desk.new).reads }
        ensures fault { IfErr result (λ fault. CommitFails batch.now self.old self.new desk.old desk.new fault) }
        ensures stands { self.new.spent ≡ false → IsTrue D.tells → ReadsAs self.new (D.seen desk.new).reads (D.stopped desk.new).images }
        ensures behind { IsErrOf result StoreFault.NoMemory → self.old.spent ≡ false → self.new.spent ≡ true → IsTrue D.tells → (image : Image)
            → (D.stopped desk.new).images image → OpensTo self.old.format image (rows_after self.old.rows batch.now) }
        ensures cause { HasCause (D.seen desk.old).disk_faults (D.seen desk.new).disk_faults (disk_failure result) }
        ensures others { OnlyDisk D.seen desk.old desk.new }
        ensures quiet { Leaves D.seen D.stopped desk.old desk.new (λ image. ⊤) }
        ensures stops { self.old.spent ≡ false → IsTrue D.tells → Leaves D.seen D.stopped desk.old desk.new
            (λ image. OpensTo self.old.format image self.old.rows ⊎ OpensTo self.old.format image (rows_after self.old.rows batch.now)) }
        ensures remembers { Remembers (D.stopped desk.old) (D.stopped desk.new) }

        // No slot grows past its bound, neither as the desk reads nor in what a stop leaves.
        ensures room { HoldsRoom D.tells self.old.bounds.slot D.seen D.stopped desk.old desk.new }
    {
        if self.spent {
            return Err(StoreFault::Spent);
        }
        if !has_room(batch.as_slice(), self.end, self.bounds.slot) {
            return Err(StoreFault::Full);
        }
        let packed = pack(self.alloc, batch)?;
        self.spent = true;
        self.end = keep(
            self.alloc,
            desk,
            self.part,
            self.end,
            &packed,
            self.bounds.slot,
            &mut self.rows,
            batch.as_slice(),
        )?;
        self.spent = false;
        Ok(())
    }

    /// The batch behind the gate at a place, and the place of the next gate; none exactly at the closed gate. It changes nothing, and never
    /// spends the store.
    ///
    /// Where the folder is told, only a fault of the disk and want of memory come.
    pub fn batch_at<D: Desk>(
        &self,
        desk: &mut D,
        at: u64,
    ) -> Result<Option<(Batch, u64)>, StoreFault>
        requires gate { IsTrue D.tells → IsGateOf self.now (D.seen desk.old).reads at }
        ensures found { IfOk result (λ found. IsTrue D.tells → GateHas self.now (D.seen desk.old).reads at found) }
        ensures batch { IfOk result (λ found. IfSome found (λ x. IsBatch x.0)) }
        ensures further { IfOk result (λ found. IfSome found (λ x. min (at + 1) (2 ^ 64 - 1) ≤ x.1)) }
        ensures fault { IfErr result (λ fault. GateFails D.tells fault) }
        ensures cause { HasCause (D.seen desk.old).disk_faults (D.seen desk.new).disk_faults (disk_failure result) }
        ensures reads { OnlyReads D.seen D.stopped desk.old desk.new }
    {
        if at == self.end {
            return Ok(None);
        }
        match batch_behind(self.alloc, desk, self.part, at) {
            Ok(found) => Ok(found),
            Err(fault) => Err(in_part(self.part, fault)),
        }
    }

    // Lets a slot in which rows of a format stand compacted stand in place of the one that stands, which is cut. The rows stay; its only
    // fault is that of the disk, which spends the store.
    fn rewrite<D: Desk>(
        &mut self,
        desk: &mut D,
        format: Format,
        slot: &[u8],
    ) -> Result<(), StoreFault>
        requires opened { self.old.opened ≡ true }
        requires fresh { self.old.spent ≡ false }
        requires room { (length slot.now ≤ self.old.bounds.slot) × (self.old.mark < self.old.bounds.mark) }
        requires slot { (rows : ByteRows) × IsSlotOf format rows slot.now }
        requires stands { IsTrue D.tells → ReadsAs self.old (D.seen desk.old).reads (D.stopped desk.old).images }
        ensures rewritten { OnOk result ((rows : ByteRows) → IsSlotOf format rows slot.now → self.new ≡ record (rewritten_of format rows self.old) { rows = self.old.rows }) }
        ensures folder { OnOk result (IsTrue D.tells → (rows : ByteRows) → IsSlotOf format rows slot.now → IsRewritten format rows self.old (D.seen desk.old).reads (D.seen desk.new).reads) }
        ensures fault { IfErr result (λ fault. (fault ≡ StoreFault.Disk) × (self.new ≡ spent_of self.old)) }
        ensures stands { OnOk result (IsTrue D.tells → (rows : ByteRows) → IsSlotOf format rows slot.now
            → ReadsAs (rewritten_of format rows self.old) (D.seen desk.new).reads (D.stopped desk.new).images) }
        ensures cause { HasCause (D.seen desk.old).disk_faults (D.seen desk.new).disk_faults (disk_failure result) }
        ensures others { OnlyDisk D.seen desk.old desk.new }
        ensures quiet { Leaves D.seen D.stopped desk.old desk.new (λ image. ⊤) }
        ensures stops { IsTrue D.tells → (rows : ByteRows) → IsSlotOf format rows slot.now → Leaves D.seen D.stopped desk.old desk.new
            (λ image. OpensTo self.old.format image self.old.rows ⊎ OpensTo format image rows) }
        ensures remembers { Remembers (D.stopped desk.old) (D.stopped desk.new) }
        ensures slots { HoldsRoom D.tells self.old.bounds.slot D.seen D.stopped desk.old desk.new }
    {
        let standing = Standing {
            part: self.part,
            mark: self.mark,
            format: self.format,
        };
        let moved = move_to(desk, standing, format, self.bounds.mark, slot);
        self.spent = moved.is_err();
        let now = moved?;
        self.part = now.part;
        self.mark = now.mark;
        self.format = now.format;
        self.end = slot.len() as u64 - 1;
        Ok(())
    }

    // Lets a slot in which rows of the second format stand compacted stand in place of the one that stands, which is cut, and takes these rows.
    // Its only fault is that of the disk, which leaves the rows and spends the store.
    fn stand_with<D: Desk>(
        &mut self,
        desk: &mut D,
        rows: Rows,
        slot: &[u8],
    ) -> Result<(), StoreFault>
        requires opened { self.old.opened ≡ true }
        requires fresh { self.old.spent ≡ false }
        requires room { (length slot.now ≤ self.old.bounds.slot) × (self.old.mark < self.old.bounds.mark) }
        requires slot { IsSlotOf formats.Two (rows_in rows.entries) slot.now }
        requires stands { IsTrue D.tells → ReadsAs self.old (D.seen desk.old).reads (D.stopped desk.old).images }
        ensures rewritten { OnOk result (self.new ≡ rewritten_of formats.Two (rows_in rows.entries) self.old) }
        ensures folder { OnOk result (IsTrue D.tells → IsRewritten formats.Two (rows_in rows.entries) self.old (D.seen desk.old).reads (D.seen desk.new).reads) }
        ensures fault { IfErr result (λ fault. (fault ≡ StoreFault.Disk) × (self.new ≡ spent_of self.old)) }
        ensures stands { OnOk result (IsTrue D.tells → ReadsAs self.new (D.seen desk.new).reads (D.stopped desk.new).images) }
        ensures cause { HasCause (D.seen desk.old).disk_faults (D.seen desk.new).disk_faults (disk_failure result) }
        ensures others { OnlyDisk D.seen desk.old desk.new }
        ensures quiet { Leaves D.seen D.stopped desk.old desk.new (λ image. ⊤) }
        ensures stops { IsTrue D.tells → Leaves D.seen D.stopped desk.old desk.new
            (λ image. OpensTo self.old.format image self.old.rows ⊎ OpensTo formats.Two image (rows_in rows.entries)) }
        ensures remembers { Remembers (D.stopped desk.old) (D.stopped desk.new) }
        ensures slots { HoldsRoom D.tells self.old.bounds.slot D.seen D.stopped desk.old desk.new }
    {
        self.rewrite(desk, Format::Two, slot)?;
        self.rows = rows;
        Ok(())
    }

    /// Compacts the store: its rows stand in the other slot, in their format, as one batch that puts them all, or as none where there are no
    /// rows; and the slot that stood is cut to nothing.
    ///
    /// Whatever comes of it, a stop at any moment of the call leaves a folder that opens to the same rows. Spent comes exactly where
    /// the store is spent. Full comes exactly where it is not and the other slot would pass its bound, which the exact size decides;
    /// MarkFull comes exactly where the store is not spent, that slot keeps its bound, and the mark has as many bytes as it may have.
    /// Nothing was done on any of the three, and none takes memory. Want of memory comes before the first call on the disk and
    /// leaves all as it was. A fault of the disk leaves the rows and spends the store, also where only the slot that stood was not
    /// cut. `Damaged` never comes.
    pub fn compact<D: Desk>(&mut self, desk: &mut D) -> Result<(), StoreFault>
        requires opened { self.old.opened ≡ true }
        requires stands { self.old.spent ≡ false → IsTrue D.tells → ReadsAs self.old (D.seen desk.old).reads (D.stopped desk.old).images }

        ensures compacted { OnOk result (MayRewrite (compacted_size self.old.rows) self.old × (self.new ≡ rewritten_of self.old.format self.old.rows self.old)) }
        ensures folder { OnOk result (IsTrue D.tells → IsRewritten self.old.format self.old.rows self.old (D.seen desk.old).reads (D.seen desk.new).reads) }
        ensures fault { IfErr result (λ fault. RewriteFails (compacted_size self.old.rows) self.old self.new desk.old desk.new fault) }
        ensures stands { self.new.spent ≡ false → IsTrue D.tells → ReadsAs self.new (D.seen desk.new).reads (D.stopped desk.new).images }
        ensures cause { HasCause (D.seen desk.old).disk_faults (D.seen desk.new).disk_faults (disk_failure result) }
        ensures others { OnlyDisk D.seen desk.old desk.new }
        ensures quiet { Leaves D.seen D.stopped desk.old desk.new (λ image. ⊤) }
        ensures stops { self.old.spent ≡ false → IsTrue D.tells → Leaves D.seen D.stopped desk.old desk.new
            (λ image. OpensTo self.old.format image self.old.rows) }
        ensures remembers { Remembers (D.stopped desk.old) (D.stopped desk.new) }

        // No slot grows past its bound, neither as the desk reads nor in what a stop leaves.
        ensures room { HoldsRoom D.tells self.old.bounds.slot D.seen D.stopped desk.old desk.new }
    {
        if self.spent {
            return Err(StoreFault::Spent);
        }
        let slot = written_slot(
            self.alloc,
            self.format,
            &self.rows,
            Writing::Same,
            self.mark,
            self.bounds,
        )?;
        let format = self.format;
        self.rewrite(desk, format, slot.as_slice())
    }

    /// Migrates a store of the first format, each count of which two bytes hold, to the second one: its rows stand in the other slot with narrowed
    /// counts, as one batch that puts them all, or as none where there are no rows; and the slot that stood is cut to nothing.
    ///
    /// Whatever comes of it, a stop at any moment of the call leaves a folder that opens to the rows of the first format, or to the narrowed ones
    /// of the second. It fails as `compact` does, by the size of the narrowed rows, which is no larger than that of the slot that gave them.
    pub fn migrate<D: Desk>(&mut self, desk: &mut D) -> Result<(), StoreFault>
        requires opened { self.old.opened ≡ true }
        requires first { self.old.format ≡ formats.One }
        requires narrow { self.old.spent ≡ false → AreNarrow self.old.rows }
        requires stands { self.old.spent ≡ false → IsTrue D.tells → ReadsAs self.old (D.seen desk.old).reads (D.stopped desk.old).images }

        ensures migrated { OnOk result (MayRewrite (compacted_size (map narrowed self.old.rows)) self.old
            × (self.new ≡ rewritten_of formats.Two (map narrowed self.old.rows) self.old)) }
        ensures folder { OnOk result (IsTrue D.tells → IsRewritten formats.Two (map narrowed self.old.rows) self.old (D.seen desk.old).reads (D.seen desk.new).reads) }
        ensures fault { IfErr result (λ fault. RewriteFails (compacted_size (map narrowed self.old.rows)) self.old self.new desk.old desk.new fault) }
        ensures stands { self.new.spent ≡ false → IsTrue D.tells → ReadsAs self.new (D.seen desk.new).reads (D.stopped desk.new).images }
        ensures cause { HasCause (D.seen desk.old).disk_faults (D.seen desk.new).disk_faults (disk_failure result) }
        ensures others { OnlyDisk D.seen desk.old desk.new }
        ensures quiet { Leaves D.seen D.stopped desk.old desk.new (λ image. ⊤) }
        ensures stops { self.old.spent ≡ false → IsTrue D.tells → Leaves D.seen D.stopped desk.old desk.new
            (λ image. OpensTo formats.One image self.old.rows ⊎ OpensTo formats.Two image (map narrowed self.old.rows)) }
        ensures remembers { Remembers (D.stopped desk.old) (D.stopped desk.new) }

        // No slot grows past its bound, neither as the desk reads nor in what a stop leaves.
        ensures room { HoldsRoom D.tells self.old.bounds.slot D.seen D.stopped desk.old desk.new }
    {
        if self.spent {
            return Err(StoreFault::Spent);
        }
        let slot = written_slot(
            self.alloc,
            Format::Two,
            &self.rows,
            Writing::Narrowed,
            self.mark,
            self.bounds,
        )?;
        let rows = narrowed_rows(self.alloc, &self.rows)?;
        self.stand_with(desk, rows, slot.as_slice())
    }

    /// Gives the store other rows, those that a batch puts where none were: they stand in the other slot, in the second format, as that one
    /// batch; and the slot that stood is cut to nothing.
    ///
    /// Whatever comes of it, a stop at any moment of the call leaves a folder that opens to the rows before it or to the new ones. It fails as
    /// `compact` does, by the size of the new rows.
    pub fn replace<D: Desk>(&mut self, desk: &mut D, batch: &Batch) -> Result<(), StoreFault>
        requires opened { self.old.opened ≡ true }
        requires batch { IsBatch batch.now }
        requires changes { IsTrueDifference bytes_cmp [] (entries_of batch.now) }
        requires stands { self.old.spent ≡ false → IsTrue D.tells → ReadsAs self.old (D.seen desk.old).reads (D.stopped desk.old).images }

        ensures replaced { OnOk result (MayRewrite (compacted_size (rows_after [] batch.now)) self.old × (self.new ≡ rewritten_of formats.Two (rows_after [] batch.now) self.old)) }
        ensures folder { OnOk result (IsTrue D.tells → IsRewritten formats.Two (rows_after [] batch.now) self.old (D.seen desk.old).reads (D.seen desk.new).reads) }
        ensures fault { IfErr result (λ fault. RewriteFails (compacted_size (rows_after [] batch.now)) self.old self.new desk.old desk.new fault) }
        ensures stands { self.new.spent ≡ false → IsTrue D.tells → ReadsAs self.new (D.seen desk.new).reads (D.stopped desk.new).images }
        ensures cause { HasCause (D.seen desk.old).disk_faults (D.seen desk.new).disk_faults (disk_failure result) }
        ensures others { OnlyDisk D.seen desk.old desk.new }
        ensures quiet { Leaves D.seen D.stopped desk.old desk.new (λ image. ⊤) }
        ensures stops { self.old.spent ≡ false → IsTrue D.tells → Leaves D.seen D.stopped desk.old desk.new
            (λ image. OpensTo self.old.format image self.old.rows ⊎ OpensTo formats.Two image (rows_after [] batch.now)) }
        ensures remembers { Remembers (D.stopped desk.old) (D.stopped desk.new) }

        // No slot grows past its bound, neither as the desk reads nor in what a stop leaves.
        ensures room { HoldsRoom D.tells self.old.bounds.slot D.seen D.stopped desk.old desk.new }
    {
        if self.spent {
            return Err(StoreFault::Spent);
        }
        let slot = replaced_slot(self.alloc, batch, self.mark, self.bounds)?;
        let rows = rows_of(self.alloc, batch)?;
        self.stand_with(desk, rows, slot.as_slice())
    }
}
