use crate::mem_desk::MemDesk;
use desk_base::Drive;
use ziti_outside::{Desk, Failed, Part};

// The folder of a desk over memory: what a stop finds of it is what it finds of that desk, whatever that desk said.
impl Drive for MemDesk {
    ghost use Rattle.std.specs.Prelude.{◌≡◌, true, List, ℕ, []};
    ghost use Rattle.desk_base.specs.MemEvents.{image_of, logged};
    ghost use Rattle.desk_base.specs.MemStops.{counts, now_only, own_image};

    ghost tells = { true };

    ghost reads = { λ d. (⟦<MemDesk as Desk>⟧.seen d).reads };

    ghost may_leave = { λ d image. (⟦<MemDesk as Desk>⟧.stopped d).images image };

    ghost moment = { λ d. (⟦<MemDesk as Desk>⟧.stopped d).moment };

    ghost since = { λ d time image. (taken : List ℕ) × (⟦<MemDesk as Desk>⟧.stopped d).since time image taken };

    ghost faults = { λ d. (⟦<MemDesk as Desk>⟧.seen d).disk_faults };

    ghost counts_now = { λ d time image early leaves. (
      d.said.items,
      counts (image_of d.first) (λ i. i ≡ image_of d.first) [] (logged d.log d.said.items) time image d.said.items leaves d.replayed.taken,
    ) };

    ghost only_now = { λ d image since.
        (now_only (image_of d.first) (logged d.log d.said.items) d.said.items image since.0 d.replayed.taken since.1).found };

    ghost is_own = { λ d told. own_image (image_of d.first) (image_of d.held) (logged d.log d.said.items) d.replayed.reads };

    fn len(&mut self, part: Part) -> Result<u64, Failed> {
        Desk::len(self, part)
    }

    fn read_at(&mut self, part: Part, at: u64, buf: &mut [u8]) -> Result<(), Failed> {
        Desk::read_at(self, part, at, buf)
    }

    fn write_at(&mut self, part: Part, at: u64, bytes: &[u8]) -> Result<(), Failed> {
        Desk::write_at(self, part, at, bytes)
    }

    fn cut(&mut self, part: Part, len: u64) -> Result<(), Failed> {
        Desk::cut(self, part, len)
    }

    fn sync(&mut self, part: Part) -> Result<(), Failed> {
        Desk::sync(self, part)
    }
}
