//! Tests of the kernel: keys and rows, spelled by hand, with all that spells none; which blocks of a store are marked; the
//! shapes in which code over a store is written, on a small store; the bank, until it is empty and full again; and the
//! tables of files, likewise.
#![tactic(auto)]

#[cfg(test)]
mod bank;
#[cfg(test)]
mod calls;
#[cfg(test)]
mod files;
#[cfg(test)]
mod keys;
#[cfg(test)]
mod patterns;
#[cfg(test)]
mod rows;
#[cfg(test)]
mod store;
