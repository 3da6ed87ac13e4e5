//! Tests of what is read and written where no run of the other crates of tests does so: a frame alone, lines, records and traces told, networks drawn, a row alone,
//! and bodies that no run writes. What a run reads and writes is shown by its replies and its folder.
#![tactic(auto)]

#[cfg(test)]
mod answers;
#[cfg(test)]
mod bodies;
#[cfg(test)]
mod checks;
#[cfg(test)]
mod frames;
#[cfg(test)]
mod lines;
#[cfg(test)]
mod pictures;
#[cfg(test)]
mod records;
#[cfg(test)]
mod rows;
#[cfg(test)]
mod samples;
#[cfg(test)]
mod traces;
