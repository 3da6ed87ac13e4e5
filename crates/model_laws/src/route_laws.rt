ghost use Rattle.std.specs.Prelude.{◌≡◌, ◌<◌, ◌≤◌, ◌↔◌, ℕ, List, map, true, false, None, Some};
ghost use Rattle.ctrl_model.specs.declared.claims.Explanation.{Explanation};
ghost use Rattle.ctrl_model.specs.declared.refusals.Denial.{Denial};
ghost use Rattle.ctrl_model.specs.Membership.{Among};
ghost use Rattle.ctrl_model.specs.Numbered.{at, numbers};
ghost use Rattle.ctrl_model.specs.State.{State, Terminator};
ghost use Rattle.ctrl_model.specs.Walks.{Hops, goes, cost_along};
ghost use Rattle.ctrl_model.specs.Mirrors.{Mirrors, ArePlaces};
ghost use Rattle.ctrl_model.specs.Networks.{Network, network_of, is_path, paths, least_path, IsLeastPath};
ghost use Rattle.ctrl_model.specs.PlainPaths.{NoneTwice, IsPlainPath};
ghost use Rattle.ctrl_model.specs.Choices.{Ask, Candidate, IsCandidate, IsBest, IsGranted, place_of, best, first_rule};
ghost use Rattle.ctrl_model.specs.Claims.{justified, explanation_of};
ghost use Rattle.model_laws.specs.Denials.{IsDenied};
ghost use Rattle.model_laws.specs.ClaimedRoutes.{has_small_costs, NoneIsBetter, claimed_candidate};
ghost use Rattle.ctrl_model.specs.ValidState.{ValidState};

/// A list of links is among the enumerated paths exactly where it is a path.
pub fn each_path()
    ensures { (w : Network) (r t : ℕ) (links : List ℕ) → (Among links (paths w r t) ↔ (is_path w r links t ≡ true)) }
{}

/// The test of a path says what a path is by the routers that it visits: each link is usable and leads on from the router
/// before, no router is visited twice, both ends are present and connected, and each one between may be passed through.
pub fn plain_path()
    ensures { (w : Network) (r t : ℕ) (links : List ℕ) → ((is_path w r links t ≡ true) ↔ IsPlainPath w r links t) }
{}

/// The least path is a path that no path comes before, any such path is it, and there is none exactly where there is no path.
pub fn the_least_path()
    ensures is { (w : Network) (r t : ℕ) (links : List ℕ) → ((least_path w r t ≡ Some links) ↔ IsLeastPath w r t links) }
    ensures none { (w : Network) (r t : ℕ) → ((least_path w r t ≡ None) ↔ ((links : List ℕ) → is_path w r links t ≡ false)) }
{}

/// The best candidate is a candidate that none precedes, any candidate that none precedes is it, and there is none exactly
/// where there is no candidate.
pub fn the_best()
    ensures is { (w : Network) (ask : Ask) (c : Candidate) → ((best w ask ≡ Some c) ↔ IsBest w ask c) }
    ensures none { (w : Network) (ask : Ask) → ((best w ask ≡ None) ↔ ((c : Candidate) → IsCandidate w ask c → ⊥)) }
{}

/// No rule of a request fails exactly where its identity has Dial on its service, a best candidate exists and circuits are
/// not full.
pub fn the_rule()
    ensures { (w : Network) (ask : Ask) → ((first_rule w ask ≡ None) ↔ IsGranted w ask) }
{}

/// What each denial says: it is the first rule of a request that fails exactly where the rules before hold and what this one asks
/// for is not there. So a request without a path has a possible ingress and an admissible terminator, and no candidate.
pub fn the_denial()
    ensures { (w : Network) (ask : Ask) (d : Denial) → ((first_rule w ask ≡ Some d) ↔ IsDenied w ask d) }
{}

/// No candidate is better than a justified claim: none has an earlier precedence than the terminator that the claim names,
/// or the same precedence and a lower total. Costs have to be so small that no path costs as much as the number that stands
/// for no path; those of a valid state are.
pub fn no_better()
    ensures small { (w : Network) (ask : Ask) (claim : Explanation) (e : Terminator) → has_small_costs w ≡ true → at w.terminators claim.terminator.0 ≡ Some e → justified w ask claim ≡ true → NoneIsBetter w ask (place_of e.precedence) claim.total }
    ensures valid { (s : State) (ask : Ask) (claim : Explanation) (e : Terminator) → ValidState s → at s.terminators.rows claim.terminator.0 ≡ Some e → justified (network_of s) ask claim ≡ true → NoneIsBetter (network_of s) ask (place_of e.precedence) claim.total }
{}

/// The route of a justified claim is a candidate itself, with the links and the total that the claim gives. Entering a router
/// has to cost something, and terminators to have different numbers, as in a valid state.
pub fn claimed_route()
    ensures apart { (w : Network) (ask : Ask) (claim : Explanation) (e : Terminator) → 1 ≤ w.least → NoneTwice (numbers w.terminators) → at w.terminators claim.terminator.0 ≡ Some e → justified w ask claim ≡ true → IsCandidate w ask (claimed_candidate claim e) }
    ensures valid { (s : State) (ask : Ask) (claim : Explanation) (e : Terminator) → ValidState s → at s.terminators.rows claim.terminator.0 ≡ Some e → justified (network_of s) ask claim ≡ true → IsCandidate (network_of s) ask (claimed_candidate claim e) }
{}

/// The explanation of the best candidate is justified, where no rule of the request fails. So a controller that gives
/// explanations and one that checks claims agree. Costs have to be small and terminators to have different numbers, as in a
/// valid state.
pub fn explanations_are_justified()
    ensures apart { (w : Network) (ask : Ask) (service : ℕ) (c : Candidate) → has_small_costs w ≡ true → NoneTwice (numbers w.terminators) → first_rule w ask ≡ None → ask.service ≡ Some service → best w ask ≡ Some c → justified w ask (explanation_of w ask service c) ≡ true }
    ensures valid { (s : State) (ask : Ask) (service : ℕ) (c : Candidate) → ValidState s → first_rule (network_of s) ask ≡ None → ask.service ≡ Some service → best (network_of s) ask ≡ Some c → justified (network_of s) ask (explanation_of (network_of s) ask service c) ≡ true }
{}

/// Where one rule of hops mirrors another, the same links are walks, and they cost the same. So what is found of paths in a
/// graph by places holds of a network by router numbers.
pub fn mirrored_walks()
    ensures same_walks { (places : ℕ) (rename : ℕ → ℕ) (a b : Hops) (t v : ℕ) (seen links : List ℕ) → Mirrors places rename a b → t < places → v < places → ArePlaces places seen → goes b (rename t) (map rename seen) (rename v) links ≡ goes a t seen v links }
    ensures same_costs { (places : ℕ) (rename : ℕ → ℕ) (a b : Hops) (v : ℕ) (links : List ℕ) → Mirrors places rename a b → v < places → cost_along b (rename v) links ≡ cost_along a v links }
{}
