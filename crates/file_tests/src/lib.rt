//! Tests of the folder over real files, what each call asks of the system and in which order, and each refusal of the system in turn;
//! and of the desk of the program over a drive in memory.
#![tactic(auto)]

#[cfg(test)]
mod calls;
#[cfg(test)]
mod checks;
#[cfg(test)]
mod drives;
