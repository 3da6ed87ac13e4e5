ghost use Rattle.std.specs.Prelude.{◌≡◌};
ghost use Rattle.std.specs.Option.{option_map};
ghost use Rattle.entity_store.specs.ChangedNumbers.{is_one_kind, turn_of};

use crate::changes::EntityChange;
use ctrl_model::Kind;
use record_tables::Turn;

// Whether two kinds are one kind of entity.
fn is_one_kind(kind: Kind, other: Kind) -> bool
    ensures { result ≡ is_one_kind kind other }
{
    match kind {
        Kind::Identity => matches!(other, Kind::Identity),
        Kind::Service => matches!(other, Kind::Service),
        Kind::Router => matches!(other, Kind::Router),
        _ => false,
    }
}

/// What a change does to the numbers of a kind, if there is one.
pub fn turn_of(kind: Kind, change: Option<&EntityChange>) -> Turn<()>
    ensures { result ≡ turn_of kind (option_map (λ c. c.now) change.entry) }
{
    match change {
        Some(EntityChange::Add { kind: added, .. }) if is_one_kind(kind, *added) => Turn::Adds(()),
        Some(EntityChange::AddRouter { .. }) if is_one_kind(kind, Kind::Router) => Turn::Adds(()),
        Some(
            EntityChange::Remove {
                kind: gone,
                number,
                ..
            },
        ) if is_one_kind(kind, *gone) => Turn::Removes(*number),
        _ => Turn::Keeps,
    }
}
