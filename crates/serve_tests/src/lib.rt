//! Tests of whole runs without a folder, or from an empty one: over rows of commands and replies of every family, over plain input, traces and loads,
//! over the adapters, over commands that give attributes and take them, and of a realistic network.
#![tactic(auto)]

#[cfg(test)]
mod adapters;
#[cfg(test)]
mod attribute_rows;
#[cfg(test)]
mod cases;
#[cfg(test)]
mod checks;
#[cfg(test)]
mod circuit_rows;
#[cfg(test)]
mod command_rows;
#[cfg(test)]
mod interleaving;
#[cfg(test)]
mod model_runs;
#[cfg(test)]
mod network_rows;
#[cfg(test)]
mod plain_runs;
#[cfg(test)]
mod rerouted_rows;
#[cfg(test)]
mod revoked_rows;
#[cfg(test)]
mod traces;
#[cfg(test)]
mod usages;
