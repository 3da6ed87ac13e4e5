use ctrl_model::{Kind, Name, Names};

/// One change of the entities.
#[derive(Drop)]
pub enum EntityChange {
    /// One more identity or service.
    Add {
        kind: Kind,
        name: Name,
        attributes: Names,
    },
    /// One more router, not connected.
    AddRouter {
        name: Name,
        attributes: Names,
        cost: u32,
        through: bool,
    },
    /// Other attributes of an identity or a service.
    Describe {
        kind: Kind,
        number: u32,
        attributes: Names,
    },
    /// Other attributes of a router, its cost and its marks.
    DescribeRouter {
        number: u32,
        attributes: Names,
        cost: u32,
        through: bool,
        connected: bool,
    },
    /// The cost and the marks of a router.
    Mark {
        number: u32,
        cost: u32,
        through: bool,
        connected: bool,
    },
    /// An entity goes, and its name out of the sides of policies.
    Remove {
        kind: Kind,
        number: u32,
        name: Name,
    },
}
