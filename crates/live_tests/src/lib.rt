//! Tests of lines that come in time, by a reader that waits for them.
#![tactic(auto)]

#[cfg(test)]
mod waiting;
