use ctrl_model::{Denial, Items, Name, Numbers};

/// What a policy that grants Dial says of an identity and a service.
#[derive(Drop)]
pub struct Marked {
    /// The policy's name.
    pub name: Name,
    /// Whether its identity side matches the identity; false where that is absent.
    pub left: bool,
    /// Whether its service side matches the service; false where that is absent.
    pub right: bool,
}

/// The policies that grant Dial, by ascending number, each with what it says.
pub type Marks = Items<Marked>;

/// The advice on an identity and a service (docs/RULES.md, "Advice"). Where one of them is absent the counts are 0 and the lists of
/// routers empty; where the service is, those of terminators are too.
#[derive(Drop)]
pub struct Advice {
    /// How many policies grant the identity Dial on the service.
    pub dial: u32,
    /// How many policies grant it Bind.
    pub bind: u32,
    /// The routers that both are granted, ascending.
    pub common: Numbers,
    /// Those of them that are connected.
    pub online: Numbers,
    /// The service's terminators of the empty instance, ascending.
    pub terminators: Numbers,
    /// Those of them that a circuit may end at.
    pub admissible: Numbers,
    /// What each policy that grants Dial says.
    pub policies: Marks,
    /// The first rule that denies a circuit. With none a circuit may still be denied for want of a path or of room for circuits.
    pub rule: Option<Denial>,
}
