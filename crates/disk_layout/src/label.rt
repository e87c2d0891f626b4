//! What a label says.

/// What the label of a disk says.
#[derive(Clone, Copy, Debug, PartialEq, Eq)]
pub enum Label {
    /// That there is no machine.
    Absent,
    /// That there is one, and it is damaged.
    Wrong,
    /// How many bank pages a machine has, and how many turns each process gets in a round.
    Names { pages: u32, quantum: u32 },
}
