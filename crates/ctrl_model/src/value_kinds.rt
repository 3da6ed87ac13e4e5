/// The kinds of the values that commands have in their fields (docs/FORMATS.md, "Commands").
#[derive(Clone, Copy)]
pub enum ValueKind {
    Name,
    /// A name that may be left out.
    NameOrNone,
    Attributes,
    Side,
    /// A whole number from the first to the second, both included.
    Number(u32, u32),
    Flag,
    Relation,
    Semantic,
    Precedence,
    Instance,
    /// The numbers of records, at most so many.
    Numbers(usize),
    Potentials,
    Protocol,
    Protocols,
    /// An address that is one place.
    Destination,
    Addresses,
    /// Ranges of ports.
    Ranges,
}
