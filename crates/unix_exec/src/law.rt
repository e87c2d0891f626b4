//! What the parts of loading make of a space's memory is the memory of the loaded program.

ghost use Rattle.unix_exec.specs.Loaded.{LoadingLaw};

/// The pages that a program needs mapped, the bytes of each load and its stack put, and the pages that no load makes writable made
/// read-only: that is the memory of the program at its start (System V gABI, program loading).
pub fn loading_is_image()
    ensures { LoadingLaw }
{}
