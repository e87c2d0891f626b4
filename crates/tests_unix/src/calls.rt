//! The names of the system calls.

/// The number of the call of this name.
pub(crate) fn call_number(name: &str) -> Option<u32> {
    const NAMES: [&str; 25] = [
        "exit",
        "fork",
        "exec",
        "wait",
        "waitpid",
        "getpid",
        "getppid",
        "brk",
        "open",
        "close",
        "read",
        "write",
        "lseek",
        "dup",
        "dup2",
        "pipe",
        "mkdir",
        "rmdir",
        "unlink",
        "link",
        "rename",
        "fstat",
        "getdents",
        "ftruncate",
        "kill",
    ];
    match NAMES.iter().position(|known| *known == name) {
        Some(place) => Some(place as u32 + 1),
        None => match name.strip_prefix("call") {
            Some(number) => number.parse::<u32>().ok(),
            None => None,
        },
    }
}
