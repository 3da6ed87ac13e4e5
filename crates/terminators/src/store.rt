ghost use Rattle.std.specs.Prelude.{◌≡◌, ◌≤◌, true, length, IfOk, OnErr, filter};
ghost use Rattle.std.specs.Option.{ok_or};
ghost use Rattle.std.specs.Result.{result_map_both};
ghost use Rattle.ctrl_model.specs.declared.kinds.Kind.TheVariants as kind;
ghost use Rattle.ctrl_model.specs.ValueForms.{is_cost};
ghost use Rattle.ctrl_model.specs.Limits as limits;
ghost use Rattle.ctrl_model.specs.Networks.{admissible};
ghost use Rattle.ctrl_model.specs.Numbered.{at, is_present, numbers};
ghost use Rattle.grant_denorm.specs.PairCounts.{count_of};
ghost use Rattle.terminators.specs.NamedTerms.{stands_on};
ghost use Rattle.terminators.specs.TermChanges.{without_terms};
ghost use Rattle.terminators.specs.TermTables.{no_terminators, with_term, with_set, without_term, with_next, with_open, open_at, cost_at, KeepsTerms};
ghost use Rattle.terminators.specs.TermRules.{has_term_room, may_add, network, granted, is_admissible};

use crate::admitting::{Grants, is_admissible};
use crate::kept::{KeptTerm, cost_of};
use crate::naming::standing_in;
use crate::offers::{Term, TermView, is_not_bindable};
use ctrl_model::{Instance, Kind, Numbers, Precedence, RouterSeen, ServiceNo, TermNo, limit};
use grant_denorm::{Counted, CountedAfter};
use record_tables::NumberedTable;
use std::alloc::{AllocError, Global};
use std::marker::Model;
use thiserror::Error;

/// Why a terminator is not added or not found.
#[derive(Clone, Copy, Debug, PartialEq, Eq, Error)]
pub enum TermFault {
    /// No terminator has the number.
    #[error("nothing has the number")]
    Unknown,
    /// The host lacks Bind on the service.
    #[error("the host lacks Bind on the service")]
    NotBindable,
    /// No terminator can be added.
    #[error("no terminator can be added")]
    Full,
}

/// The terminators of a controller, each with the number of circuits that are open at it. Contracts see them as a table, and these
/// numbers beside it (`TermTables`).
#[derive(Drop)]
pub struct Terminators {
    terms: NumberedTable<KeptTerm>,
}

impl Model for Terminators {
    ghost use Rattle.terminators.specs.TermTables.{TermTables, tables_of, AreFit};

    ghost Value = { TermTables };

    ghost view = { λ t. tables_of t.terms };

    ghost invariant = { λ t. AreFit t.terms };
}

// The numbers of the admissible terminators of a service and an instance, ascending.
fn admissible_in(
    alloc: Global,
    terms: &NumberedTable<KeptTerm>,
    grants: &Grants,
    service: ServiceNo,
    instance: &Instance,
) -> Result<Numbers, AllocError>
    ensures { IfOk result (λ ns. ns ≡ numbers (filter (λ row. is_admissible (granted grants.now) service.0 instance.now (row.0, row.1.term)) terms.now.rows)) }
{
    let mut found = Vec::new(alloc);
    'terms: for (number, kept) in terms.rows() {
        if is_admissible(grants, service, instance, &TermView::of(&kept.term)) {
            found.push(*number)?;
        }
    }
    Ok(Numbers::of(found))
}

impl Terminators {
    /// A store without terminators. The first gets the number 1.
    pub fn new(alloc: Global) -> Terminators
        ensures { result ≡ no_terminators }
    {
        Terminators {
            terms: NumberedTable::new(alloc),
        }
    }

    /// Whether a terminator may be added, whose instance is lent: `Full` comes exactly where as many as may be are present or their numbers
    /// have run out, and else `NotBindable` exactly where a host is named that lacks Bind on the service (docs/RULES.md, "Commands on
    /// terminators").
    pub fn may_add(&self, term: &TermView, bind: &Counted) -> Result<(), TermFault>
        ensures { result ≡ may_add term.now self.now bind.now }
    {
        if !self.terms.has_room(limit(Kind::Terminator)) {
            return Err(TermFault::Full);
        }
        if is_not_bindable(term, bind) {
            return Err(TermFault::NotBindable);
        }
        Ok(())
    }

    /// Adds a terminator under the next number, which it answers. Its cost is from 0 to 65,535, and no circuit is open at it.
    pub fn add(&mut self, term: Term) -> Result<TermNo, AllocError>
        requires room { has_term_room self.old ≡ true }
        requires cost { is_cost term.cost ≡ true }
        ensures ok { IfOk result (λ n. (n.0 ≡ self.old.terminators.next) × (self.new ≡ with_term term self.old)) }
        ensures err { OnErr result (self.new ≡ self.old) }
    {
        let number = self.terms.add(KeptTerm { term, load: 0 })?;
        Ok(TermNo(number))
    }

    /// The terminator that has the number. `Unknown` comes exactly where none has it.
    pub fn get(&self, no: TermNo) -> Result<&Term, TermFault>
        ensures { result_map_both (λ t. t.now) (λ fault. fault) result ≡ ok_or (at self.now.terminators.rows no.0) TermFault.Unknown }
    {
        match self.terms.get(no.0) {
            Some(kept) => Ok(&kept.term),
            None => Err(TermFault::Unknown),
        }
    }

    /// The terminator that has the number, lent. None exactly where none has it.
    pub fn seen(&self, no: TermNo) -> Option<TermView<'_>>
        ensures { result ≡ at self.now.terminators.rows no.0 }
    {
        match self.terms.get(no.0) {
            Some(kept) => Some(TermView::of(&kept.term)),
            None => None,
        }
    }

    /// Sets the cost, 0 to 65,535, and the precedence of a present terminator.
    pub fn set(&mut self, no: TermNo, cost: u32, precedence: Precedence)
        requires there { is_present self.old.terminators.rows no.0 ≡ true }
        requires cost { is_cost cost ≡ true }
        ensures { self.new ≡ with_set no.0 cost precedence self.old }
    {
        self.terms.edit(no.0, |kept| {
            kept.term.cost = cost;
            kept.term.precedence = precedence;
        });
    }

    /// How many circuits are open at a present terminator, as `set_open` last said: 0 at a new one.
    pub fn open_circuits(&self, no: TermNo) -> u32
        requires { is_present self.now.terminators.rows no.0 ≡ true }
        ensures { result ≡ open_at self.now no.0 }
    {
        let Some(kept) = self.terms.get(no.0) else {
            unreachable!()
        };
        kept.load
    }

    /// What a present terminator costs: its static cost, and 1 for each circuit that is open at it (docs/RULES.md, "Terminators").
    pub fn term_cost(&self, no: TermNo) -> u32
        requires { is_present self.now.terminators.rows no.0 ≡ true }
        ensures { result ≡ cost_at self.now no.0 }
    {
        let Some(kept) = self.terms.get(no.0) else {
            unreachable!()
        };
        cost_of(kept)
    }

    /// Sets how many circuits, at most 16,384, are open at a present terminator.
    pub fn set_open(&mut self, no: TermNo, count: u32)
        requires there { is_present self.old.terminators.rows no.0 ≡ true }
        requires most { count ≤ limits.limit kind.Circuit }
        ensures set { self.new ≡ with_open no.0 count self.old }
        ensures open { open_at self.new no.0 ≡ count }
    {
        self.terms.edit(no.0, |kept| kept.load = count);
    }

    /// Removes a present terminator.
    pub fn remove(&mut self, no: TermNo)
        requires { is_present self.old.terminators.rows no.0 ≡ true }
        ensures { self.new ≡ without_term no.0 self.old }
    {
        self.terms.remove(no.0);
    }

    /// Removes the terminators of some numbers, where one is there.
    pub fn remove_each(&mut self, gone: &Numbers)
        ensures { self.new ≡ without_terms gone.now self.old }
    {
        self.terms.remove_each(gone);
    }

    /// The numbers of the present terminators, ascending.
    pub fn numbers(&self, alloc: Global) -> Result<Numbers, AllocError>
        ensures all { IfOk result (λ ns. ns ≡ numbers self.now.terminators.rows) }
        // The numbers ascend from 1 below the next one, the limit is kept, and each cost and each load is in its range.
        ensures keeps { KeepsTerms self.now }
    {
        self.terms.numbers(alloc)
    }

    /// The numbers of the terminators that stand on an entity of a kind and number, ascending: that have it as host, are of the
    /// service, or are on the router.
    pub fn standing_on(&self, alloc: Global, kind: Kind, number: u32) -> Result<Numbers, AllocError>
        ensures { IfOk result (λ ns. ns ≡ numbers (filter (λ row. stands_on kind number row.1) self.now.terminators.rows)) }
    {
        standing_in(alloc, &self.terms, kind, number)
    }

    /// How many terminators there are.
    pub fn count(&self) -> usize
        ensures count { result ≡ length self.now.terminators.rows }
        ensures few { result ≤ limits.limit kind.Terminator }
    {
        self.terms.len()
    }

    /// The number that the next terminator gets, 1 in a new store.
    pub fn next(&self) -> u32
        ensures next { result ≡ self.now.terminators.next }
        // The numbers ascend from 1 below it, the limit is kept, and each cost and each load is in its range.
        ensures keeps { KeepsTerms self.now }
    {
        self.terms.next()
    }

    /// Raises the next number.
    pub fn skip(&mut self, next: u32)
        requires { self.old.terminators.next ≤ next }
        ensures { self.new ≡ with_next next self.old }
    {
        self.terms.skip(next);
    }

    /// Equal terminators, and the same next number.
    pub fn copy(&self) -> Result<Terminators, AllocError>
        ensures { IfOk result (λ t. t ≡ self.now) }
    {
        let terms = self.terms.copy()?;
        Ok(Terminators { terms })
    }

    /// The numbers of the admissible terminators of a service and an instance, ascending: they are the service's, have exactly
    /// the instance, their router is connected, and their host, if they have one, has Bind on the service and shares the router
    /// with it (docs/RULES.md, "Terminators"). The counts are those of Bind, of routers of identities and of routers of services.
    pub fn admissible(
        &self,
        alloc: Global,
        service: ServiceNo,
        instance: &Instance,
        bind: &Counted,
        identity_router: &Counted,
        service_router: &Counted,
        routers: &[RouterSeen],
    ) -> Result<Numbers, AllocError>
        ensures { IfOk result (λ ns. ns ≡ numbers (admissible (network self.now (count_of bind.now) (count_of identity_router.now) (count_of service_router.now) routers.now) service.0 instance.now)) }
    {
        let bind = CountedAfter::unchanged(alloc, bind);
        let identity_router = CountedAfter::unchanged(alloc, identity_router);
        let service_router = CountedAfter::unchanged(alloc, service_router);
        let grants = Grants {
            bind: &bind,
            identity_router: &identity_router,
            service_router: &service_router,
            routers,
        };
        admissible_in(alloc, &self.terms, &grants, service, instance)
    }
}
