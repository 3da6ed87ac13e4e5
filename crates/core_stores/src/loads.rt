ghost use Rattle.std.specs.Prelude.{◌≡◌, ℕ, ◌<◌, ◌≤◌, true, OnOk, OnErr};
ghost use Rattle.ctrl_model.specs.declared.kinds.Kind.TheVariants as kind;
ghost use Rattle.ctrl_model.specs.Limits.{limit};
ghost use Rattle.ctrl_model.specs.Membership.{Among};
ghost use Rattle.ctrl_model.specs.Numbered.{is_present};
ghost use Rattle.grant_denorm.specs.PairCounts.{count_of};
ghost use Rattle.terminators.specs.TermTables.{open_at};
ghost use Rattle.core_stores.specs.OpenCircuits.{ChangesLoads, CountsAnew, CountsBut, CountsMore, CountsOpen, EndThere, SetsEach, loads_after};
ghost use Rattle.core_stores.specs.StoredState.{state_of};

use crate::changes::Change;
use crate::settled::Settled;
use crate::stores::Stores;
use circuits::CircuitChange;
use ctrl_model::TermNo;
use grant_denorm::Counted;
use std::alloc::{AllocError, Global};
use terminators::Terminators;

// Sets the loads of the terminators of some numbers.
fn set_each(terminators: &mut Terminators, numbers: &[u32], loads: &Counted)
    requires there { (n : ℕ) → Among n numbers.now → is_present terminators.old.terminators.rows n ≡ true }
    requires most { (n : ℕ) → count_of loads.now n 0 ≤ limit kind.Circuit }
    ensures { SetsEach (λ n. count_of loads.now n 0) numbers.now terminators.old terminators.new }
{
    'numbers: for number in numbers {
        terminators.set_open(TermNo(*number), loads.count(*number, 0));
    }
}

// Counts the circuits that are open at each terminator anew. For want of memory nothing is set.
fn count_open(alloc: Global, stores: &mut Stores) -> Result<(), AllocError>
    ensures ok { OnOk result (CountsAnew stores.old stores.new) }
    ensures err { OnErr result (stores.new ≡ stores.old) }
{
    let loads = stores.circuits.tally(alloc)?;
    let numbers = stores.terminators.numbers(alloc)?;
    set_each(&mut stores.terminators, numbers.as_slice(), &loads);
    Ok(())
}

// Raises the load of a present terminator by one.
fn count_more(stores: &mut Stores, no: TermNo)
    requires there { is_present stores.old.terminators.terminators.rows no.0 ≡ true }
    requires room { open_at stores.old.terminators no.0 < limit kind.Circuit }
    ensures { CountsMore no.0 stores.old stores.new }
{
    let load = stores.terminators.open_circuits(no);
    stores.terminators.set_open(no, load + 1);
}

/// Where the loads of terminators change.
#[derive(Clone, Copy, PartialEq, Eq)]
pub enum Loads {
    /// Nowhere.
    Same,
    /// At this terminator there is one more.
    More(TermNo),
    /// Anywhere.
    Any,
}

/// Where loads change by a change and what settles with it: nowhere, where no circuit comes, goes or is moved (none is open at a terminator
/// that comes); at its terminator, where a circuit comes and nothing settles; and else anywhere.
pub fn loads_after(change: &Change, settled: &Settled) -> Loads
    ensures { result ≡ loads_after change.now settled.now }
{
    if !settled.terminators.is_empty() || !settled.going.is_empty() {
        return Loads::Any;
    }
    match change {
        Change::Circuit(CircuitChange::Add(circuit)) => Loads::More(circuit.terminator),
        Change::Circuit(CircuitChange::Remove(_)) => Loads::Any,
        _ => Loads::Same,
    }
}

/// Brings the loads up to date: behind it each terminator has as many circuits open as there are circuits to it, and nothing else has
/// changed. It is told where the loads that are kept are not the circuits that there are: one more is added at its own terminator, and where they
/// may be any, all circuits are counted. For want of memory no load changes.
pub fn count_loads(alloc: Global, stores: &mut Stores, loads: Loads) -> Result<(), AllocError>
    requires ends { EndThere (state_of stores.old) }
    requires but { CountsBut loads stores.old }
    ensures counts { OnOk result (CountsOpen stores.new) }
    ensures changes { OnOk result (ChangesLoads stores.old stores.new) }
    ensures err { OnErr result (stores.new ≡ stores.old) }
{
    match loads {
        Loads::Same => (),
        Loads::More(no) => count_more(stores, no),
        Loads::Any => count_open(alloc, stores)?,
    }
    Ok(())
}
