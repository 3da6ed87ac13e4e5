ghost use Rattle.std.specs.Prelude.{◌≡◌};

use ziti_outside::{Failed, Source};

/// Input that lies in memory whole. No take of it fails, and each gives as much as its buffer holds.
#[derive(Drop)]
pub struct Given<'b> {
    rest: &'b [u8],
}

impl<'b> Given<'b> {
    /// The source of these bytes.
    pub fn new(bytes: &'b [u8]) -> Given<'b>
        ensures { result.rest.now ≡ bytes.now }
    {
        Given { rest: bytes }
    }
}

impl<'b> Source for Given<'b> {
    ghost use Rattle.std.specs.Prelude.{Some};

    ghost left = { λ s. Some s.rest.now };

    ghost faults = { λ s. 0 };

    fn take(&mut self, buf: &mut [u8]) -> Result<usize, Failed> {
        let rest = self.rest;
        let count = rest.len().min(buf.len());
        let (front, behind) = rest.split_at(count);
        let (place, _) = buf.split_at_mut(count);
        place.copy_from_slice(front);
        self.rest = behind;
        Ok(count)
    }
}
