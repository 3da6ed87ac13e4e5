ghost use Rattle.std.specs.Prelude.{◌≡◌, option_map};
ghost use Rattle.core_stores.specs.ChangeParts.{entity_part, policy_part, link_part, term_part, circuit_part, intercept_part};

use crate::changes::Change;
use circuits::CircuitChange;
use entity_store::EntityChange;
use fabric_graph::LinkChange;
use intercepts::InterceptChange;
use policy_store::PolicyChange;
use terminators::TermChange;

impl Change {
    /// The change of the entities, if it is one.
    pub fn of_entities(&self) -> Option<&EntityChange>
        ensures { option_map (λ c. c.now) result ≡ entity_part self.now }
    {
        match self {
            Change::Entity(change) => Some(change),
            _ => None,
        }
    }

    /// The change of the policies, if it is one.
    pub fn of_policies(&self) -> Option<&PolicyChange>
        ensures { option_map (λ c. c.now) result ≡ policy_part self.now }
    {
        match self {
            Change::Policy(change) => Some(change),
            _ => None,
        }
    }

    /// The change of the links, if it is one.
    pub fn of_links(&self) -> Option<&LinkChange>
        ensures { option_map (λ c. c.now) result ≡ link_part self.now }
    {
        match self {
            Change::Link(change) => Some(change),
            _ => None,
        }
    }

    /// The change of the terminators, if it is one.
    pub fn of_terminators(&self) -> Option<&TermChange>
        ensures { option_map (λ c. c.now) result ≡ term_part self.now }
    {
        match self {
            Change::Terminator(change) => Some(change),
            _ => None,
        }
    }

    /// The change of the circuits, if it is one.
    pub fn of_circuits(&self) -> Option<&CircuitChange>
        ensures { option_map (λ c. c.now) result ≡ circuit_part self.now }
    {
        match self {
            Change::Circuit(change) => Some(change),
            _ => None,
        }
    }

    /// The change of the intercepts, if it is one.
    pub fn of_intercepts(&self) -> Option<&InterceptChange>
        ensures { option_map (λ c. c.now) result ≡ intercept_part self.now }
    {
        match self {
            Change::Intercept(change) => Some(change),
            _ => None,
        }
    }
}
