use crate::items::Items;

/// The number of an identity: identities are numbered from 1 in order of creation, and no number is used again.
#[derive(Clone, Copy, PartialEq, Eq)]
pub struct IdentityNo(pub u32);

/// The number of a service, as that of an identity.
#[derive(Clone, Copy, PartialEq, Eq)]
pub struct ServiceNo(pub u32);

/// The number of an edge router, as that of an identity.
#[derive(Clone, Copy, PartialEq, Eq)]
pub struct RouterNo(pub u32);

/// The number of a link, as that of an identity.
#[derive(Clone, Copy, PartialEq, Eq)]
pub struct LinkNo(pub u32);

/// The number of a policy within its kind, as that of an identity.
#[derive(Clone, Copy, PartialEq, Eq)]
pub struct PolicyNo(pub u32);

/// The number of a terminator, as that of an identity.
#[derive(Clone, Copy, PartialEq, Eq)]
pub struct TermNo(pub u32);

/// The number of a circuit, as that of an identity.
#[derive(Clone, Copy, PartialEq, Eq)]
pub struct CircuitNo(pub u32);

/// A list of numbers of records.
pub type Numbers = Items<u32>;
