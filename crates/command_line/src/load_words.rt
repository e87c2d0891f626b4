//! The words behind `work`.

ghost use Rattle.std.specs.Prelude.{◌≡◌, ◌≤◌, Some, IfSome, codes, map, option_map, string_bytes};
ghost use Rattle.command_line.specs.Words as model;
ghost use Rattle.command_line.specs.WordsView.{load_options_view, load_view};

use crate::options::LoadOptions;
use crate::setup::Load;
use kn_text::number_of;

/// The seed where no option says it, and the most that one may say.
const DEFAULT_SEED: u32 = 1;

const MOST_SEED: u64 = 4_294_967_295;

/// The lines where no option says how many, and the most that one may say.
const DEFAULT_LINES: u32 = 1_000;

const MOST_LINES: u64 = 100_000;

/// The seed that a text spells: plain decimal, and a word.
fn seed_of(text: &[u8]) -> Option<u32>
    ensures { result ≡ model.seed_of text.now }
{
    match number_of(text, MOST_SEED) {
        Ok(seed) => Some(seed as u32),
        Err(_) => None,
    }
}

/// The number of lines that a text spells: plain decimal, from 1 to 100,000.
#[tactic(auto, unfolding(crate::specs::Words::most_lines))]
fn lines_of(text: &[u8]) -> Option<u32>
    ensures value { result ≡ model.lines_of text.now }
    ensures fits { IfSome result (λ lines. (1 ≤ lines) × (lines ≤ 100000)) }
{
    match number_of(text, MOST_LINES) {
        Ok(lines) => {
            if lines == 0 {
                return None;
            }
            Some(lines as u32)
        }
        Err(_) => None,
    }
}

/// What follows `--seed=` in a word.
fn after_seed(word: &[u8]) -> Option<&[u8]>
    ensures { option_map (λ text. text.now) result ≡ model.after_prefix (codes "--seed=") word.now }
{
    match word {
        [b'-', b'-', b's', b'e', b'e', b'd', b'=', text @ ..] => Some(text),
        _ => None,
    }
}

/// What follows `--lines=` in a word.
fn after_lines(word: &[u8]) -> Option<&[u8]>
    ensures { option_map (λ text. text.now) result ≡ model.after_prefix (codes "--lines=") word.now }
{
    match word {
        [b'-', b'-', b'l', b'i', b'n', b'e', b's', b'=', text @ ..] => Some(text),
        _ => None,
    }
}

impl LoadOptions {
    /// No option was given.
    pub fn none() -> LoadOptions
        ensures { load_options_view result ≡ model.no_load_options }
    {
        LoadOptions {
            seed: None,
            lines: None,
        }
    }

    /// The options with the seed, where it wasn't given yet.
    fn with_seed(self, text: &[u8]) -> Option<LoadOptions>
        ensures { option_map load_options_view result ≡ model.with_seed (load_options_view self) text.now }
    {
        match (self.seed, seed_of(text)) {
            (None, Some(seed)) => Some(LoadOptions {
                seed: Some(seed),
                lines: self.lines,
            }),
            _ => None,
        }
    }

    /// The options with the lines, where they weren't given yet.
    fn with_lines(self, text: &[u8]) -> Option<LoadOptions>
        ensures { option_map load_options_view result ≡ model.with_lines (load_options_view self) text.now }
    {
        match (self.lines, lines_of(text)) {
            (None, Some(lines)) => Some(LoadOptions {
                seed: self.seed,
                lines: Some(lines),
            }),
            _ => None,
        }
    }

    /// The options with one word more, where it is an option that wasn't given yet.
    fn with_option(self, word: &[u8]) -> Option<LoadOptions>
        ensures { option_map load_options_view result ≡ model.with_load_option (load_options_view self) word.now }
    {
        match after_seed(word) {
            Some(text) => return self.with_seed(text),
            None => {}
        }
        match after_lines(word) {
            Some(text) => self.with_lines(text),
            None => None,
        }
    }

    /// The options that the words after the command give.
    pub fn read(words: &[String]) -> Option<LoadOptions>
        ensures { option_map load_options_view result ≡ model.load_options_of (map string_bytes words.now) (Some model.no_load_options) }
    {
        let mut options = LoadOptions::none();
        for word in words {
            options = match options.with_option(word.as_bytes()) {
                Some(options) => options,
                None => return None,
            };
        }
        Some(options)
    }

    /// What the options say of the load.
    #[tactic(auto, unfolding(crate::specs::Words::default_seed, crate::specs::Words::default_lines))]
    pub fn load(self) -> Load
        ensures { load_view result ≡ model.load_of (load_options_view self) }
    {
        Load {
            seed: self.seed.unwrap_or(DEFAULT_SEED),
            lines: self.lines.unwrap_or(DEFAULT_LINES),
        }
    }
}
