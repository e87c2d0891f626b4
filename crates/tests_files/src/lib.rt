//! Tests of files over a store in memory, beside plain lists of bytes. Calls on files ask for much; `guarded` has them behind a look
//! at the store, so that tests and measurements may make them in any order.
#![tactic(auto)]

#[cfg(test)]
mod cuts;
pub mod directories;
pub mod dropping;
#[cfg(test)]
mod drops;
pub mod guarded;
#[cfg(test)]
mod names;
#[cfg(test)]
mod owners;
#[cfg(test)]
mod pieces;
#[cfg(test)]
mod plain;
#[cfg(test)]
mod room;
#[cfg(test)]
mod walk;
