//! Runs sessions of the plain machine, from files of its folder `data`: each boots a machine with files of its own, whose
//! first program makes system calls, and says what each of them gives. Prints what came otherwise, and then how many
//! sessions and values there were. `data/README` describes the form of the files.
#![tactic(auto)]

mod boot;
mod calls;
mod escapes;
mod program;
mod running;
mod session;
mod tally;

use crate::session::run_sessions;
use crate::tally::Tally;
use std::{env, fs, io};

fn main(rt: HostRuntime) -> io::Result<()> {
    let mut tally = Tally::new();
    for path in env::args(&rt)?.skip(1) {
        let text = fs::read_to_string(&rt, path.as_str())?;
        run_sessions(&rt, text.as_str(), &mut tally)?;
    }
    let Tally {
        sessions,
        values,
        wrong,
    } = tally;
    println!(rt; "{sessions} sessions, {values} values, {wrong} wrong")?;
    Ok(())
}
