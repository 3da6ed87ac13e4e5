ghost use Rattle.std.specs.Prelude.{◌≡◌, ◌||◌, not, nat_lt, nat_le, None};
ghost use Rattle.state_building.specs.declared.flaws.Flaw.TheVariants.{OutOfOrder, NoRecord, NameTaken, TooMany};
ghost use Rattle.state_building.specs.JoinedRecords.{flaw_if, unsupported};

use ctrl_model::Kind;
use state_building::Flaw;

/// A record that comes next, as it is judged: its number, the next number that its kind will have in the end, and whether it is
/// valid as far as that can be told of it alone.
#[derive(Clone, Copy)]
pub struct Coming {
    pub number: u32,
    pub end: u32,
    pub sound: bool,
}

/// What was found of a record that comes next.
#[derive(Clone, Copy)]
pub struct Findings {
    /// Its number is below the next number so far, or not below that in the end.
    pub out_of_order: bool,
    /// It is valid as far as that can be told of it alone.
    pub sound: bool,
    /// A record of its kind has its name.
    pub taken: bool,
    /// What it stands on is there.
    pub supported: bool,
    /// Its kind, or attributes, would be more than may be.
    pub too_many: bool,
}

impl Coming {
    /// Whether the number is out of order where the kind has this next number so far.
    pub fn is_out_of_order(&self, next: u32) -> bool
        ensures { result ≡ (nat_lt self.now.number next || nat_le self.now.end self.now.number) }
    {
        self.number < next || self.end <= self.number
    }
}

impl Findings {
    /// The first flaw, in the order in which they are told.
    pub fn flaw(&self, kind: Kind) -> Option<Flaw>
        ensures { result ≡ flaw_if self.now.out_of_order OutOfOrder (flaw_if (not self.now.sound) NoRecord (flaw_if self.now.taken NameTaken
            (flaw_if (not self.now.supported) (unsupported kind) (flaw_if self.now.too_many TooMany None)))) }
    {
        if self.out_of_order {
            return Some(Flaw::OutOfOrder);
        }
        if !self.sound {
            return Some(Flaw::NoRecord);
        }
        if self.taken {
            return Some(Flaw::NameTaken);
        }
        if !self.supported {
            return Some(unsupported(kind));
        }
        if self.too_many {
            return Some(Flaw::TooMany);
        }
        None
    }
}

// The flaw of a record that is not supported.
fn unsupported(kind: Kind) -> Flaw
    ensures { result ≡ unsupported kind }
{
    match kind {
        Kind::Circuit => Flaw::Unsettled,
        _ => Flaw::Hanging,
    }
}
