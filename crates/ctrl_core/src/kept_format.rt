use ctrl_model::Format;

/// The format of the batches of a core's plans: `kept_format` of contracts.
pub const KEPT_FORMAT: Format = Format::Two;
