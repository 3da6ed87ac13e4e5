//! Tests of whole runs on folders that are given byte by byte: what each word does on them, where they are damaged, what is advised by them, what is
//! shipped of them, and what is followed into them.
#![tactic(auto)]

#[cfg(test)]
mod checks;
#[cfg(test)]
mod damaged_folders;
#[cfg(test)]
mod folder_cases;
#[cfg(test)]
mod follows;
#[cfg(test)]
mod reports;
#[cfg(test)]
mod ships;
