//! The programs of the machine's `/bin`, and its first one, as sources of the assembly language.
#![tactic(auto)]

mod cat;
mod echo;
mod init;
mod ls;
mod pump;
mod tee;
mod wc;

ghost use Rattle.std.specs.Prelude.{◌≡◌, option_map};
ghost use Rattle.userland.specs.Programs.{source_named};

pub use cat::CAT;
pub use echo::ECHO;
pub use init::INIT;
pub use ls::LS;
pub use pump::PUMP;
pub use tee::TEE;
pub use wc::WC;

/// The source of the program of this name; None where no program has it.
#[tactic(auto, unfolding(crate::specs::Programs::source_named))]
pub fn program(name: &[u8]) -> Option<&'static [u8]>
    ensures { option_map (λ source. source.now) result ≡ source_named name.now }
{
    match name {
        b"init" => Some(INIT),
        b"echo" => Some(ECHO),
        b"cat" => Some(CAT),
        b"tee" => Some(TEE),
        b"wc" => Some(WC),
        b"ls" => Some(LS),
        b"pump" => Some(PUMP),
        _ => None,
    }
}
