//! The bytes of a source.

ghost use Rattle.std.specs.Prelude.{◌≡◌, ◌<◌, IfSome, length, position};
ghost use Rattle.rv_asm.specs.Letters as model;

/// A space or a tab.
pub fn is_blank(byte: u8) -> bool
    ensures { result ≡ model.is_blank byte }
{
    byte == b' ' || byte == b'\t'
}

/// A letter, a digit or `_`.
pub fn is_name_byte(byte: u8) -> bool
    ensures { result ≡ model.is_name_byte byte }
{
    byte.is_ascii_alphabetic() || byte.is_ascii_digit() || byte == b'_'
}

/// Any other byte.
pub fn is_other(byte: u8) -> bool
    ensures { result ≡ model.is_other byte }
{
    !is_name_byte(byte)
}

/// Where the first byte stands that names don't have.
pub fn first_other(text: &[u8]) -> Option<usize>
    ensures place { result ≡ position model.is_other text.now }
    ensures inside { IfSome result (λ place. place < length text.now) }
{
    text.iter().position(|byte| is_other(*byte))
}

/// Where the first blank stands.
pub fn first_blank(text: &[u8]) -> Option<usize>
    ensures place { result ≡ position model.is_blank text.now }
    ensures inside { IfSome result (λ place. place < length text.now) }
{
    text.iter().position(|byte| is_blank(*byte))
}

/// Whether a text is the name of a label: 1 to 64 letters, digits and `_`, of which the first is no digit.
#[tactic(auto, unfolding(crate::specs::Letters::is_label))]
pub fn is_label(text: &[u8]) -> bool
    ensures { result ≡ model.is_label text.now }
{
    match text {
        [] => false,
        [first, ..] => !first.is_ascii_digit() && first_other(text).is_none() && text.len() <= 64,
    }
}
