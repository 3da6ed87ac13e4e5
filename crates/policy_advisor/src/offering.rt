ghost use Rattle.std.specs.Prelude.{◌≡◌, [], filter, IfOk};
ghost use Rattle.std.specs.Option.{option_map_or};
ghost use Rattle.ctrl_model.specs.Networks.{is_counted, counted, admissible};
ghost use Rattle.ctrl_model.specs.Numbered.{numbers};
ghost use Rattle.circuit_rules.specs.Views.{network};
ghost use Rattle.policy_advisor.specs.Steps.{counts};

use circuit_rules::View;
use ctrl_model::{Instance, NameFault, Numbers, ServiceNo, TermNo};
use std::alloc::{AllocError, Global};
use terminators::Term;

/// Where a circuit may end, by numbers of terminators.
#[derive(Drop)]
pub struct Offers {
    /// The terminators of the service and the instance.
    pub terminators: Numbers,
    /// Those of them that can be used.
    pub admissible: Numbers,
}

// The empty instance.
fn no_instance(alloc: Global) -> Result<Instance, AllocError>
    ensures { IfOk result (λ i. i ≡ []) }
{
    match Instance::of(alloc, b"") {
        Ok(instance) => Ok(instance),
        Err(NameFault::NoMemory) => Err(AllocError),
        Err(NameFault::BadName) => unreachable!(),
    }
}

// Whether a request for the service and the instance counts the terminator.
fn is_counted(service: ServiceNo, instance: &Instance, term: &Term) -> bool
    ensures { result ≡ is_counted service.0 instance.now (0, term.now) }
{
    term.service.0 == service.0 && term.instance.bytes() == instance.bytes()
}

// Whether it counts the terminator of a number.
fn counts(view: &View, service: ServiceNo, instance: &Instance, number: u32) -> bool
    ensures { result ≡ counts (network view.now) service.0 instance.now number }
{
    match view.terminators.get(TermNo(number)) {
        Ok(term) => is_counted(service, instance, term),
        Err(_) => false,
    }
}

// Those of some terminators that it counts.
fn counted_of(
    alloc: Global,
    view: &View,
    service: ServiceNo,
    instance: &Instance,
    numbers: &[u32],
) -> Result<Vec<u32>, AllocError>
    ensures { IfOk result (λ v. v.items ≡ filter (counts (network view.now) service.0 instance.now) numbers.now) }
{
    numbers
        .iter()
        .copied()
        .filter(|number| counts(view, service, instance, *number))
        .collect(alloc)
}

// The terminators that a request for a service and an instance counts.
fn counted(
    alloc: Global,
    view: &View,
    service: ServiceNo,
    instance: &Instance,
) -> Result<Numbers, AllocError>
    ensures { IfOk result (λ ns. ns ≡ numbers (counted (network view.now) service.0 instance.now)) }
{
    let numbers = view.terminators.numbers(alloc)?;
    let found = counted_of(alloc, view, service, instance, numbers.as_slice())?;
    Ok(Numbers::of(found))
}

// Where a circuit to a service may end, by the empty instance.
fn offers_to(alloc: Global, view: &View, service: ServiceNo) -> Result<Offers, AllocError>
    ensures terminators { IfOk result (λ o. o.terminators ≡ numbers (counted (network view.now) service.0 [])) }
    ensures admissible { IfOk result (λ o. o.admissible ≡ numbers (admissible (network view.now) service.0 [])) }
{
    let instance = no_instance(alloc)?;
    let terminators = counted(alloc, view, service, &instance)?;
    let admissible = view.terminators.admissible(
        alloc,
        service,
        &instance,
        view.bind,
        view.identity_router,
        view.service_router,
        view.routers,
    )?;
    Ok(Offers {
        terminators,
        admissible,
    })
}

/// Where a circuit to a service may end, by the empty instance; nowhere if the service is absent.
pub(crate) fn offers_for(
    alloc: Global,
    view: &View,
    service: Option<u32>,
) -> Result<Offers, AllocError>
    ensures terminators { IfOk result (λ o. o.terminators ≡ option_map_or (λ s. numbers (counted (network view.now) s [])) service []) }
    ensures admissible { IfOk result (λ o. o.admissible ≡ option_map_or (λ s. numbers (admissible (network view.now) s [])) service []) }
{
    match service {
        Some(service) => offers_to(alloc, view, ServiceNo(service)),
        None => Ok(Offers {
            terminators: Numbers::of(Vec::new(alloc)),
            admissible: Numbers::of(Vec::new(alloc)),
        }),
    }
}
