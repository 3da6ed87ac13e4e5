ghost use Rattle.std.specs.Prelude.{◌≡◌, ◌<◌, ◌++◌, ◌∷◌, [], length};
ghost use Rattle.ziti_outside.specs.Causes.{HasCause};
ghost use Rattle.ziti_outside.specs.Told.{Takes};
ghost use Rattle.live_lines.specs.Exchanges.{source_of, starts_of, ends_of};

use http_server::Log;
use ziti_outside::{Failed, Source};

/// The input of a run and the desk at which it hands out, with a history of which a program keeps nothing: at each take of the input, what
/// they were at its start and at its end. Nothing else takes of the input.
#[derive(Drop)]
pub struct Exchange<S, D> {
    pub desk: D,
    source: S,
    starts: Log<S, D>,
    ends: Log<S, D>,
}

impl<S, D> Exchange<S, D> {
    /// The exchange of which nothing was taken.
    pub fn new(source: S, desk: D) -> Exchange<S, D>
        ensures source { source_of result ≡ source }
        ensures desk { result.desk ≡ desk }
        ensures starts { starts_of result ≡ [] }
        ensures ends { ends_of result ≡ [] }
    {
        Exchange {
            desk,
            source,
            starts: Log::new(),
            ends: Log::new(),
        }
    }
}

impl<S: Source, D> Exchange<S, D> {
    /// Takes the next bytes into the front of `buf`, as `Source::take` does. The start and the end of the take are remembered.
    pub fn take(&mut self, buf: &mut [u8]) -> Result<usize, Failed>
        requires { 0 < length buf.old }
        ensures bytes { Takes (S.left (source_of self.old)) (S.left (source_of self.new)) result buf.new }
        ensures cause { HasCause (S.faults (source_of self.old)) (S.faults (source_of self.new)) result }
        ensures room { length buf.new ≡ length buf.old }
        ensures desk { self.new.desk ≡ self.old.desk }
        ensures starts { starts_of self.new ≡ starts_of self.old ++ (source_of self.old, self.old.desk) ∷ [] }
        ensures ends { ends_of self.new ≡ ends_of self.old ++ (source_of self.new, self.new.desk) ∷ [] }
    {
        self.starts = self.starts.and(&self.source, &self.desk);
        let taken = self.source.take(buf);
        self.ends = self.ends.and(&self.source, &self.desk);
        taken
    }
}
