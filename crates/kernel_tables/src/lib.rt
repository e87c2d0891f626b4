//! What the fixed pages of a machine stand for, as typed tables over any store: the machine page, the entries of inodes,
//! open descriptions, pages and nodes, the pages of the bank, and all keys. The crates above read and write these tables by their rows alone.
#![tactic(auto)]

mod bank;
mod description;
mod entry;
mod files;
mod inode;
mod machine;
mod row;

pub use bank::{
    bank_size, clear_bank_page, copy_bank_page, first_bank_page, key_at, node_entry, page_entry,
    read_bank_page, read_memory_page, set_key_at, set_node_entry, set_page_entry, write_bank_page,
};
pub use description::{Description, description_bytes, description_entry_in};
pub use entry::{Entry, NodeOwner, PageOwner};
pub use files::{description_entry, inode_entry, set_description_entry, set_inode_entry};
pub use inode::{Inode, InodeKind, inode_bytes, inode_entry_in};
pub use machine::{
    Machine, free_node, free_page, memory_taken, next_pid, nodes_taken, pages_taken, position,
    promised, quantum, set_free_node, set_free_page, set_memory_taken, set_next_pid,
    set_nodes_taken, set_pages_taken, set_position, set_promised, set_quantum, set_size, size,
};
pub use row::Row;
