//! The lines of a text in memory.

ghost use Rattle.std.specs.Prelude.{◌≡◌, ◌≢◌, ◌<◌, [], ◌∷◌, length};
ghost use Rattle.std.specs.List.{position};
ghost use Rattle.unix_model.specs.Texts.{ends_line, IsLine, line_front, line_rest, lines_of};

/// The first line of a text, without its line feed, and what follows that. Of a text without bytes both are empty.
#[tactic(auto, using(crate::proofs::Splitting::splitting))]
pub fn split_line(text: &[u8]) -> (&[u8], &[u8])
    ensures line { result.0.now ≡ line_front text.now }
    ensures rest { result.1.now ≡ line_rest text.now }
    ensures lines { text.now ≢ [] → lines_of text.now ≡ result.0.now ∷ lines_of result.1.now }
    ensures shorter { text.now ≢ [] → length result.1.now < length text.now }
    ensures unbroken { IsLine result.0.now }
{
    match line_end(text) {
        Some(at) => (&text[..at], &text[at + 1..]),
        None => (text, &[]),
    }
}

// Where the first line feed stands.
fn line_end(text: &[u8]) -> Option<usize>
    ensures { result ≡ position ends_line text.now }
{
    text.iter().position(|byte| *byte == b'\n')
}
