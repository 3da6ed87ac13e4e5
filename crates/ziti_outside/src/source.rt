ghost use Rattle.std.specs.Prelude.{List, ℕ, ◌<◌, length};
ghost use Rattle.std.specs.declared.option.Option.{Option};
ghost use Rattle.ziti_outside.specs.Told.{Takes};
ghost use Rattle.ziti_outside.specs.Causes.{HasCause};

use crate::failed::Failed;

/// The input of a run.
///
/// Contracts see two things of a source: the bytes that are still left in it, where it tells them, and the number of its
/// faults, which never falls.
pub trait Source {
    ghost left: { Self → Option (List ℕ) };

    ghost faults: { Self → ℕ };

    /// Takes the next bytes into the front of `buf`, which is not empty, and answers how many they are.
    ///
    /// `Ok(0)` is the end of the input: nothing is left. Of a failed call nothing is gone, and `faults` has risen.
    fn take(&mut self, buf: &mut [u8]) -> Result<usize, Failed>
        requires { 0 < length buf.old }
        ensures bytes { Takes (left self.old) (left self.new) result buf.new }
        ensures cause { HasCause (faults self.old) (faults self.new) result };
}
