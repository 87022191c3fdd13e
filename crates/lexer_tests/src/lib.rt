//! Tests of the two token sources on sound and damaged input.
#![tactic(auto)]

#[cfg(test)]
mod files;
#[cfg(test)]
mod given;
#[cfg(test)]
mod tables;
