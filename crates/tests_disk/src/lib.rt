//! Tests of the crates of the disk, over their public functions.
#![tactic(auto)]

#[cfg(test)]
mod counting;
#[cfg(test)]
mod crashes;
#[cfg(test)]
mod damage;
#[cfg(test)]
mod disks;
#[cfg(test)]
mod machines;
#[cfg(test)]
mod migration;
#[cfg(test)]
mod rounds;
#[cfg(test)]
mod untold;
