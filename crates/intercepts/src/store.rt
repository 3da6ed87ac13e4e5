ghost use Rattle.std.specs.Prelude.{◌≡◌, ◌==◌, [], None, true, filter, IfOk, IsOk, OnOk, OnErr};
ghost use Rattle.std.specs.List.{list_any, last_or};
ghost use Rattle.std.specs.Option.{option_map};
ghost use Rattle.ctrl_model.specs.Hits.{hits_of, picked, clashes_with, clashes};
ghost use Rattle.ctrl_model.specs.Numbered.{at, is_present, numbers, with_at, without, Between};
ghost use Rattle.intercepts.specs.FirstHits.{first_with};

use crate::clashing::do_clash;
use crate::hits::{Destination, Picked, first_in};
use ctrl_model::{Address, Intercept};
use std::alloc::{AllocError, Global};
use std::collections::BTreeMap;
use std::collections::btree_map::Iter;
use std::marker::Model;

// Intercepts by the numbers of their services.
type Claims = BTreeMap<u32, Intercept>;

/// The intercepts of services, each under the number of its service. Contracts see them in the order of the numbers.
#[derive(Drop)]
pub struct Intercepts {
    claims: Claims,
}

impl Model for Intercepts {
    ghost use Rattle.std.specs.Prelude.{List, ℕ};
    ghost use Rattle.ctrl_model.specs.declared.intercepts.Intercept.{Intercept};
    ghost use Rattle.ctrl_model.specs.Numbered.{Between};

    ghost Value = { List (ℕ × Intercept) };

    ghost view = { λ s. s.claims.entries };

    ghost invariant = { λ s. Between 0 4294967296 s.claims.entries };
}

// The intercept of a service, if it has one.
fn claim_of(claims: &Claims, service: u32) -> Option<&Intercept>
    ensures { option_map (λ i. i.now) result ≡ at claims.now.entries service }
{
    claims.get(&service)
}

// The first of a hit, if there is one, and those of a service.
fn first_of_service<'a>(
    claims: &'a Claims,
    best: Option<Picked<'a>>,
    service: u32,
    to: Destination,
) -> Option<Picked<'a>>
    ensures { result ≡ first_with best.entry (hits_of claims.now.entries to.entry.udp to.entry.address.now to.entry.port service) }
{
    match claim_of(claims, service) {
        Some(intercept) => first_in(best, service, intercept, to),
        None => best,
    }
}

// The first of the hits of some services.
fn picked_in<'a>(claims: &'a Claims, dialled: &[u32], to: Destination) -> Option<Picked<'a>>
    ensures { result ≡ picked claims.now.entries dialled.now to.entry.udp to.entry.address.now to.entry.port }
{
    let mut best = None;
    'services: for service in dialled {
        best = first_of_service(claims, best, *service, to);
    }
    best
}

// Whether a service other than a given one has an intercept that clashes with its own.
fn clashes_with(claims: &Claims, service: u32, intercept: &Intercept, other: u32) -> bool
    ensures { result ≡ clashes_with claims.now.entries service intercept.now other }
{
    if other == service {
        return false;
    }
    match claim_of(claims, other) {
        Some(others) => do_clash(intercept, others),
        None => false,
    }
}

// Those of some services that clash with one by its intercept.
fn clashing(
    alloc: Global,
    claims: &Claims,
    dialled: &[u32],
    service: u32,
    intercept: &Intercept,
) -> Result<Vec<u32>, AllocError>
    ensures { IfOk result (λ v. v.items ≡ filter (clashes_with claims.now.entries service intercept.now) dialled.now) }
{
    let mut found = Vec::new(alloc);
    'services: for other in dialled {
        if clashes_with(claims, service, intercept, *other) {
            found.push(*other)?;
        }
    }
    Ok(found)
}

// Whether a service is one of some.
fn is_dialled(service: u32, dialled: &[u32]) -> bool
    ensures { result ≡ list_any (λ n. n == service) dialled.now }
{
    dialled.iter().any(|number| *number == service)
}

// The clashes of a service.
fn clashes_in(
    alloc: Global,
    claims: &Claims,
    dialled: &[u32],
    service: u32,
) -> Result<Vec<u32>, AllocError>
    ensures { IfOk result (λ v. v.items ≡ clashes claims.now.entries dialled.now service) }
{
    match claim_of(claims, service) {
        Some(intercept) if is_dialled(service, dialled) => {
            clashing(alloc, claims, dialled, service, intercept)
        }
        _ => Ok(Vec::new(alloc)),
    }
}

impl Intercepts {
    /// A store without intercepts.
    pub fn new(alloc: Global) -> Intercepts
        ensures { result ≡ [] }
    {
        Intercepts {
            claims: BTreeMap::new(alloc),
        }
    }

    /// The intercept of a service. None exactly where it has none.
    pub fn get(&self, service: u32) -> Option<&Intercept>
        ensures { option_map (λ i. i.now) result ≡ at self.now service }
    {
        claim_of(&self.claims, service)
    }

    /// The intercepts under the numbers of their services, ascending.
    pub fn rows(&self) -> Iter<'_, u32, Intercept>
        ensures rows { result ≡ self.now }
        ensures rises { Between 0 4294967296 self.now }
    {
        self.claims.iter()
    }

    /// The last service that has an intercept, if one has.
    pub fn last(&self) -> Option<u32>
        ensures { result ≡ last_or None (numbers self.now) }
    {
        match self.claims.last_key_value() {
            Some((service, _)) => Some(*service),
            None => None,
        }
    }

    /// Sets the intercept of a service, in the place of the one that it has, if it has one. Where it has one it takes no memory and
    /// answers Ok.
    pub fn set(&mut self, service: u32, intercept: Intercept) -> Result<(), AllocError>
        ensures ok { OnOk result (self.new ≡ with_at service intercept self.old) }
        ensures err { OnErr result (self.new ≡ self.old) }
        ensures there { is_present self.old service ≡ true → IsOk result }
    {
        self.claims.insert(service, intercept)?;
        Ok(())
    }

    /// Takes the intercept of a service away, if it has one.
    pub fn remove(&mut self, service: u32)
        ensures { self.new ≡ without self.old service }
    {
        let _removed = self.claims.remove(&service);
    }

    /// The hit of a destination that is picked, of those of the services that an identity may dial: the nearest address, then the narrowest
    /// range of ports with the port, then the lowest, then the lowest service. None exactly where there is no hit. No memory is taken.
    pub fn pick(&self, dialled: &[u32], udp: bool, to: &Address, port: u32) -> Option<Picked<'_>>
        ensures { result ≡ picked self.now dialled.now udp to.now port }
    {
        picked_in(
            &self.claims,
            dialled,
            Destination {
                udp,
                address: to,
                port,
            },
        )
    }

    /// The services that clash with one, of those that an identity may dial, in their order there. An Err is want of memory.
    pub fn clashes(
        &self,
        alloc: Global,
        dialled: &[u32],
        service: u32,
    ) -> Result<Vec<u32>, AllocError>
        ensures { IfOk result (λ v. v.items ≡ clashes self.now dialled.now service) }
    {
        clashes_in(alloc, &self.claims, dialled, service)
    }
}
