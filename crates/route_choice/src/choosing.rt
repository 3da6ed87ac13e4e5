ghost use Rattle.std.specs.Prelude.{◌≡◌, ◌<◌, ◌≤◌, ℕ, All, length, None};
ghost use Rattle.ctrl_model.specs.Limits.{most_terminator_cost};
ghost use Rattle.route_choice.specs.RouteChoices.{costs_to, AreSmall, is_before, choice_at, keep, first_of, first_of_all};

use ctrl_model::{Potentials, Precedence, RouterNo, TermNo};

/// A router where a circuit may enter, and its place.
#[derive(Clone, Copy, PartialEq, Eq)]
pub struct Entry {
    pub place: u16,
    pub router: RouterNo,
}

/// A terminator where a circuit may end, and the place of its router.
#[derive(Clone, Copy, PartialEq, Eq)]
pub struct Exit {
    pub place: u16,
    pub terminator: TermNo,
    pub cost: u32,
    pub precedence: Precedence,
}

/// A terminator and an ingress with a path between them, which costs this much in all. The fields stand in the order in which
/// choices are compared; the last two, the places of ingress and terminator, only go with the two before.
#[derive(Clone, Copy, PartialEq, Eq, PartialOrd, Ord)]
pub struct Choice {
    pub precedence: Precedence,
    pub total: u32,
    pub terminator: u32,
    pub ingress: u32,
    pub from: u16,
    pub to: u16,
}

// Whether one choice comes before another.
fn is_before(choice: &Choice, other: &Choice) -> bool
    ensures { result ≡ is_before choice.now other.now }
{
    choice.cmp(other).is_lt()
}

// The choice of an exit and an entry, if there is a path between them.
fn choice_at(costs: &[u64], exit: &Exit, entry: &Entry) -> Option<Choice>
    requires costs { AreSmall (length costs.now) costs.now }
    requires place { entry.now.place < length costs.now }
    requires cost { exit.now.cost ≤ most_terminator_cost }
    ensures { result ≡ choice_at costs.now exit.now entry.now }
{
    let cost = costs[entry.place as usize];
    if cost == u64::MAX {
        return None;
    }
    Some(Choice {
        precedence: exit.precedence,
        total: exit.cost + cost as u32,
        terminator: exit.terminator.0,
        ingress: entry.router.0,
        from: entry.place,
        to: exit.place,
    })
}

// The first of two choices that may be there.
fn keep(best: Option<Choice>, other: Option<Choice>) -> Option<Choice>
    ensures { result ≡ keep best other }
{
    match (best, other) {
        (best, None) => best,
        (None, other) => other,
        (Some(best), Some(other)) => Some(if is_before(&other, &best) {
            other
        } else {
            best
        }),
    }
}

// The first of a choice and those of one exit.
fn first_of(costs: &[u64], exit: &Exit, best: Option<Choice>, entries: &[Entry]) -> Option<Choice>
    requires costs { AreSmall (length costs.now) costs.now }
    requires places { All (λ x. x.place < length costs.now) entries.now }
    requires cost { exit.now.cost ≤ most_terminator_cost }
    ensures { result ≡ first_of costs.now exit.now best entries.now }
{
    let mut best = best;
    'entries: for entry in entries {
        let other = choice_at(costs, exit, entry);
        best = keep(best, other);
    }
    best
}

/// The first of all choices, if there is one.
pub fn first_of_all(
    costs: &[Potentials],
    entries: &[Entry],
    exits: &[Exit],
    places: usize,
) -> Option<Choice>
    requires places { All (λ x. x.place < places) entries.now }
    requires exits { All (λ o. o.place < length costs.now) exits.now }
    requires small { All (λ o. AreSmall places (costs_to costs.now o.place)) exits.now }
    requires costs { All (λ o. o.cost ≤ most_terminator_cost) exits.now }
    ensures { result ≡ first_of_all costs.now entries.now None exits.now }
{
    let mut best = None;
    'exits: for exit in exits {
        let costs = costs[exit.place as usize].as_slice();
        best = first_of(costs, exit, best, entries);
    }
    best
}
