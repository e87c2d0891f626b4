//! Domains: the state of each process, in three nodes of the store.
//!
//! A domain is known by its root. The table of all domains is read from the keys of their nodes, and each call that writes in
//! one changes that one domain in the table and nothing else.
#![tactic(auto)]

mod checks;
mod ends;
mod keys;
mod laws;
mod life;
mod readers;
mod setters;
mod steps;
mod types;

pub use checks::check_domain;
pub use ends::{drop_domain, make_zombie};
pub use laws::{fields_are_good, services_are_there, untaken_rows_are_good};
pub use life::new_domain;
pub use readers::buffer::read_buffer;
pub use readers::life::{count_of, state_of};
pub use readers::slots::root_of;
pub use readers::words::{descriptor, regs_of};
pub use readers::{answer_of, heads_of, mark_words, phase_of, request_of, space_of};
pub use setters::buffer::{drop_buffer, write_buffer};
pub use setters::life::set_state;
pub use setters::space::set_space;
pub use setters::words::{set_descriptor, set_regs};
pub use setters::{set_answer, set_heads, set_mark_words, set_phase, set_request};
pub use types::{Answer, Heads, Phase, State};
