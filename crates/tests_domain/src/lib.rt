//! Tests of domains: one is made in an empty machine and read back, each field is set and read back beside all others, and
//! calls one after the other are proved from what each promises.
#![tactic(auto)]

#[cfg(test)]
mod alone;
mod buffers;
mod checked;
#[cfg(test)]
mod damage;
mod dying;
#[cfg(test)]
mod ends;
#[cfg(test)]
mod fields;
mod first;
#[cfg(test)]
mod held;
#[cfg(test)]
mod reading;
mod services;
#[cfg(test)]
mod serving;
mod setting;
#[cfg(test)]
mod steps;
#[cfg(test)]
mod values;
#[cfg(test)]
mod waiting;

pub use buffers::{buffered_domain, first_bytes, give_buffer};
pub use checked::{
    key_there, keys_in_range, looks_damaged, looks_right, looks_with, node_number, put_low, raised,
};
pub use dying::{dead_domain, drop_dead};
pub use first::{SLOT, first_domain};
pub use services::{DIRECTORIES, PIPES, running_service};
pub use setting::{make_request, other_space, ten_phases};
