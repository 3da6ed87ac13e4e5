ghost use Rattle.std.specs.Prelude.{is_some, ◌≡◌, ◌≤◌, ◌&&◌, cond, true, length, MatchOption, IfOk, OnErr};
ghost use Rattle.std.specs.Option.{option_map};
ghost use Rattle.std.specs.Result.{result_map_both};
ghost use Rattle.ctrl_model.specs.Limits as limits;
ghost use Rattle.ctrl_model.specs.Numbered.{at, numbers, no_rows};
ghost use Rattle.ctrl_model.specs.Tables.{is_entity_kind};
ghost use Rattle.policy_store.specs.PolicyTables.{no_policies, is_policy_kind, policies_of, policies, next_of, number_of, without_policy, with_next, forgetting};
ghost use Rattle.policy_store.specs.PolicyRules.{has_kind_room, found, is_there, can_put, put_in, put_number, KeepsNumbers};

use crate::records::{Hand, Policy, forget_in, put_in};
use ctrl_model::{Kind, Name, Numbers, PolicyNo, limit};
use record_tables::NamedTable;
use std::alloc::{AllocError, Global};
use std::marker::Model;
use thiserror::Error;

/// Why a policy is not put or not found.
#[derive(Clone, Copy, Debug, PartialEq, Eq, Error)]
pub enum PolicyFault {
    /// A policy of the kind has the name already.
    #[error("the name is taken")]
    Exists,
    /// No policy of the kind has the name.
    #[error("nothing has the name")]
    Unknown,
    /// No entity has the `@` name at a place, counted from 0, of the left or the right side.
    #[error("nothing has a name of a side")]
    UnknownRef { right: bool, place: u32 },
    /// No policy of the kind can be added.
    #[error("the kind is full")]
    Full(Kind),
}

/// The policies of a controller. Contracts see them as tables (`PolicyTables`).
///
/// A kind of policy is ServicePolicy, EdgeRouterPolicy or ServiceEdgeRouterPolicy. Other kinds have no policies.
#[derive(Drop)]
pub struct Policies {
    service_policies: NamedTable<Policy>,
    edge_router_policies: NamedTable<Policy>,
    service_edge_router_policies: NamedTable<Policy>,
}

impl Model for Policies {
    ghost use Rattle.std.specs.Prelude.{◌≤◌, length};
    ghost use Rattle.ctrl_model.specs.declared.kinds.Kind.TheVariants as kind;
    ghost use Rattle.ctrl_model.specs.Limits.{limit};
    ghost use Rattle.policy_store.specs.PolicyTables.{PolicyTables};

    ghost Value = { PolicyTables };

    ghost view = { λ p. record { service_policies = p.service_policies; edge_router_policies = p.edge_router_policies; service_edge_router_policies = p.service_edge_router_policies } };

    ghost invariant = { λ p. (length p.service_policies.rows ≤ limit kind.ServicePolicy) × (length p.edge_router_policies.rows ≤ limit kind.EdgeRouterPolicy) × (length p.service_edge_router_policies.rows ≤ limit kind.ServiceEdgeRouterPolicy) };
}

impl Policies {
    /// The table of a kind. None exactly where it is no kind of policy.
    pub fn table(&self, kind: Kind) -> Option<&NamedTable<Policy>>
        ensures kind { is_some result ≡ is_policy_kind kind }
        ensures table { MatchOption result (policies_of kind self.now ≡ no_rows) (λ t. t.now ≡ policies_of kind self.now) }
        ensures few { length (policies kind self.now) ≤ limits.limit kind }
    {
        match kind {
            Kind::ServicePolicy => Some(&self.service_policies),
            Kind::EdgeRouterPolicy => Some(&self.edge_router_policies),
            Kind::ServiceEdgeRouterPolicy => Some(&self.service_edge_router_policies),
            _ => None,
        }
    }

    /// The number of the policy that has the name, if one has it.
    pub fn number_of(&self, kind: Kind, name: &Name) -> Option<u32>
        ensures found { result ≡ number_of kind name.now self.now }
        // The numbers ascend from 1 below the next one, and the kind keeps its limit.
        ensures numbers { KeepsNumbers kind self.now }
    {
        self.table(kind)?.find(name.bytes())
    }

    /// Whether one more policy of a kind can be put.
    pub fn has_room(&self, kind: Kind) -> bool
        ensures { result ≡ has_kind_room kind self.now }
    {
        match self.table(kind) {
            Some(table) => table.has_room(limit(kind)),
            None => false,
        }
    }

    /// A store without policies.
    pub fn new(alloc: Global) -> Policies
        ensures { result ≡ no_policies }
    {
        Policies {
            service_policies: NamedTable::new(alloc),
            edge_router_policies: NamedTable::new(alloc),
            service_edge_router_policies: NamedTable::new(alloc),
        }
    }

    /// Puts a policy and answers its number: a fresh one under the next number, another in place of the one that has its name,
    /// of which nothing but name and number stay.
    pub fn put(&mut self, kind: Kind, policy: Policy, fresh: bool) -> Result<PolicyNo, AllocError>
        requires kind { is_policy_kind kind ≡ true }
        requires can { can_put kind policy.name fresh self.old ≡ true }
        ensures ok { IfOk result (λ n. (n.0 ≡ put_number kind policy.name fresh self.old) × (self.new ≡ put_in kind policy fresh self.old)) }
        ensures err { OnErr result (self.new ≡ self.old) }
    {
        let number = match kind {
            Kind::ServicePolicy => put_in(&mut self.service_policies, policy, fresh)?,
            Kind::EdgeRouterPolicy => put_in(&mut self.edge_router_policies, policy, fresh)?,
            Kind::ServiceEdgeRouterPolicy => put_in(
                &mut self.service_edge_router_policies,
                policy,
                fresh,
            )?,
            _ => unreachable!(),
        };
        Ok(PolicyNo(number))
    }

    /// The number of the policy that has the name. `Unknown` comes exactly where none has it.
    pub fn find(&self, kind: Kind, name: &Name) -> Result<PolicyNo, PolicyFault>
        ensures found { result_map_both (λ n. n.0) (λ f. f) result ≡ found kind name.now self.now }
        // The numbers ascend from 1 below the next one, and the kind keeps its limit.
        ensures numbers { KeepsNumbers kind self.now }
    {
        let number = self.number_of(kind, name).ok_or(PolicyFault::Unknown)?;
        Ok(PolicyNo(number))
    }

    /// The policy that has the number. None exactly where it is absent.
    pub fn get(&self, kind: Kind, no: PolicyNo) -> Option<&Policy>
        ensures { option_map (λ p. p.now) result ≡ at (policies kind self.now) no.0 }
    {
        self.table(kind)?.get(no.0)
    }

    /// Removes a present policy.
    pub fn remove(&mut self, kind: Kind, no: PolicyNo)
        requires there { is_there kind no.0 self.old ≡ true }
        ensures { self.new ≡ without_policy kind no.0 self.old }
    {
        match kind {
            Kind::ServicePolicy => self.service_policies.remove(no.0),
            Kind::EdgeRouterPolicy => self.edge_router_policies.remove(no.0),
            Kind::ServiceEdgeRouterPolicy => self.service_edge_router_policies.remove(no.0),
            _ => unreachable!(),
        }
    }

    /// Takes an `@` name out of each side that may name entities of a kind: Identity, Service or Router.
    pub fn forget(&mut self, kind: Kind, name: &Name)
        requires { is_entity_kind kind ≡ true }
        ensures { self.new ≡ forgetting kind name.now self.old }
    {
        match kind {
            Kind::Identity => {
                forget_in(&mut self.service_policies, Hand::Left, name);
                forget_in(&mut self.edge_router_policies, Hand::Left, name);
            }
            Kind::Service => {
                forget_in(&mut self.service_policies, Hand::Right, name);
                forget_in(&mut self.service_edge_router_policies, Hand::Left, name);
            }
            Kind::Router => {
                forget_in(&mut self.edge_router_policies, Hand::Right, name);
                forget_in(&mut self.service_edge_router_policies, Hand::Right, name);
            }
            _ => unreachable!(),
        }
    }

    /// The numbers of the present policies of a kind, ascending.
    pub fn numbers(&self, alloc: Global, kind: Kind) -> Result<Numbers, AllocError>
        ensures all { IfOk result (λ ns. ns ≡ numbers (policies kind self.now)) }
        // The numbers ascend from 1 below the next one, and the kind keeps its limit.
        ensures numbers { KeepsNumbers kind self.now }
    {
        match self.table(kind) {
            Some(table) => table.numbers(alloc),
            None => Ok(Numbers::of(Vec::new(alloc))),
        }
    }

    /// How many policies of a kind there are.
    pub fn count(&self, kind: Kind) -> usize
        ensures count { result ≡ length (policies kind self.now) }
        ensures few { result ≤ limits.limit kind }
    {
        match self.table(kind) {
            Some(table) => table.len(),
            None => 0,
        }
    }

    /// The number that the next policy of a kind gets, 1 in a new store and for a kind that is no kind of policy.
    pub fn next(&self, kind: Kind) -> u32
        ensures next { result ≡ next_of kind self.now }
        // The numbers ascend from 1 below it, and the kind keeps its limit.
        ensures numbers { KeepsNumbers kind self.now }
    {
        match self.table(kind) {
            Some(table) => table.next(),
            None => 1,
        }
    }

    /// Raises the next number of a kind. A kind that is no kind of policy has none, and nothing changes.
    pub fn skip(&mut self, kind: Kind, next: u32)
        requires later { next_of kind self.old ≤ next }
        ensures { self.new ≡ with_next kind next self.old }
    {
        match kind {
            Kind::ServicePolicy => self.service_policies.skip(next),
            Kind::EdgeRouterPolicy => self.edge_router_policies.skip(next),
            Kind::ServiceEdgeRouterPolicy => self.service_edge_router_policies.skip(next),
            _ => {}
        }
    }
}
