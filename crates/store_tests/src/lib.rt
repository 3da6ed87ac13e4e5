//! Tests of the stores where no run of the other crates of tests makes the call: their copies, lists of numbers, and a request where
//! circuits are full. What a run asks of them is shown by its replies.
#![tactic(auto)]

#[cfg(test)]
mod checks;
#[cfg(test)]
mod copies;
#[cfg(test)]
mod decisions;
#[cfg(test)]
mod lines;
#[cfg(test)]
mod numbers;
