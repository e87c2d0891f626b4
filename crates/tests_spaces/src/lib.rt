//! Tests of spaces, and of the bytes in them. Calls on spaces ask for much; `guarded` has them behind a look at the store, so
//! that tests and measurements may make them in any order.
#![tactic(auto)]

#[cfg(test)]
mod checked;
#[cfg(test)]
mod damage;
#[cfg(test)]
mod drops;
pub mod guarded;
#[cfg(test)]
mod loading;
#[cfg(test)]
mod plain;
#[cfg(test)]
mod rows;
#[cfg(test)]
mod walk;
