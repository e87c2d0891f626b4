//! Counts of what was run.

/// How many sessions were run, how many values they gave, and how many sessions went otherwise than they say.
#[derive(Clone, Copy, Debug)]
pub(crate) struct Tally {
    pub sessions: u64,
    pub values: u64,
    pub wrong: u64,
}

impl Tally {
    pub(crate) fn new() -> Tally {
        Tally {
            sessions: 0,
            values: 0,
            wrong: 0,
        }
    }

    /// One session more, with so many values.
    pub(crate) fn count(&mut self, values: usize, is_right: bool) {
        self.sessions = self.sessions.saturating_add(1);
        self.values = self.values.saturating_add(values as u64);
        if !is_right {
            self.wrong = self.wrong.saturating_add(1);
        }
    }
}
