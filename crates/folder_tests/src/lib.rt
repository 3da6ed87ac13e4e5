//! Tests of the desks over real files and over memory, and of stops of the latter. What a store keeps in a folder, and where hostile ones
//! are damaged, is shown by runs.
#![tactic(auto)]

#[cfg(test)]
mod checks;
#[cfg(test)]
mod folders;
#[cfg(test)]
mod stops;
