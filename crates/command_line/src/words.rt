//! The words of the command line.

ghost use Rattle.std.specs.Prelude.{◌≡◌, ◌≤◌, Some, IfSome, codes, map, option_map, string_bytes};
ghost use Rattle.command_line.specs.Words as model;
ghost use Rattle.command_line.specs.WordsView.{command_view, options_view, plan_view, setup_view};

use crate::options::{LoadOptions, Options};
use crate::setup::{Load, Plan, Setup};
use kn_text::number_of;

/// A command with its options.
#[derive(Clone, Copy, Debug, PartialEq, Eq)]
pub enum Command {
    /// Boot the input in memory and run it.
    Once(Setup),
    /// Boot a load of its own in memory, run it, and sum up what it put.
    Work(Load),
    /// Assemble the input, and write the ELF file.
    Asm,
}

/// The turns of a run where no option says how many, and the most that one may say.
const DEFAULT_TURNS: u64 = 100_000_000;

const MOST_TURNS: u64 = 1_000_000_000_000;

/// The pages of a machine where no option says how many, and the least and the most that one may say. They are a multiple
/// of 64.
const DEFAULT_PAGES: u32 = 2_048;

const LEAST_PAGES: u64 = 64;

const MOST_PAGES: u64 = 16_384;

/// The quantum of a machine where no option says it, and the most that one may say.
const DEFAULT_QUANTUM: u32 = 100;

const MOST_QUANTUM: u64 = 10_000;

/// Whether a word can name a disk: it isn't empty and doesn't begin with `-`.
fn is_disk(word: &str) -> bool
    ensures { result ≡ model.is_disk word.now }
{
    match word.as_bytes() {
        [] => false,
        [first, ..] => *first != b'-',
    }
}

/// The number of pages that a text spells: plain decimal, from 64 to 16,384, and a multiple of 64.
fn pages_of(text: &[u8]) -> Option<u32>
    ensures value { result ≡ model.pages_of text.now }
    ensures fits { IfSome result (λ pages. (64 ≤ pages) × (pages ≤ 16384)) }
{
    match number_of(text, MOST_PAGES) {
        Ok(pages) => {
            if pages < LEAST_PAGES || pages % 64 != 0 {
                return None;
            }
            Some(pages as u32)
        }
        Err(_) => None,
    }
}

/// The quantum that a text spells: plain decimal, from 1 to 10,000.
fn quantum_of(text: &[u8]) -> Option<u32>
    ensures value { result ≡ model.quantum_of text.now }
    ensures fits { IfSome result (λ quantum. (1 ≤ quantum) × (quantum ≤ 10000)) }
{
    match number_of(text, MOST_QUANTUM) {
        Ok(quantum) => {
            if quantum == 0 {
                return None;
            }
            Some(quantum as u32)
        }
        Err(_) => None,
    }
}

/// The number of turns that a text spells: plain decimal, and not above the limit.
#[tactic(auto, unfolding(crate::specs::Words::most_turns))]
fn turns_of(text: &[u8]) -> Option<u64>
    ensures { result ≡ model.turns_of text.now }
{
    number_of(text, MOST_TURNS).ok()
}

/// Who says whose turns they are, by a word.
fn plan_of(text: &[u8]) -> Option<Plan>
    ensures { option_map plan_view result ≡ model.plan_of text.now }
{
    if text == b"round".as_slice() {
        Some(Plan::Round)
    } else if text == b"given".as_slice() {
        Some(Plan::Given)
    } else {
        None
    }
}

/// What follows `--pages=` in a word.
fn after_pages(word: &[u8]) -> Option<&[u8]>
    ensures { option_map (λ text. text.now) result ≡ model.after_prefix (codes "--pages=") word.now }
{
    match word {
        [b'-', b'-', b'p', b'a', b'g', b'e', b's', b'=', text @ ..] => Some(text),
        _ => None,
    }
}

/// What follows `--quantum=` in a word.
fn after_quantum(word: &[u8]) -> Option<&[u8]>
    ensures { option_map (λ text. text.now) result ≡ model.after_prefix (codes "--quantum=") word.now }
{
    match word {
        [
            b'-',
            b'-',
            b'q',
            b'u',
            b'a',
            b'n',
            b't',
            b'u',
            b'm',
            b'=',
            text @ ..,
        ] => Some(text),
        _ => None,
    }
}

/// What follows `--turns=` in a word.
fn after_turns(word: &[u8]) -> Option<&[u8]>
    ensures { option_map (λ text. text.now) result ≡ model.after_prefix (codes "--turns=") word.now }
{
    match word {
        [b'-', b'-', b't', b'u', b'r', b'n', b's', b'=', text @ ..] => Some(text),
        _ => None,
    }
}

/// What follows `--plan=` in a word.
fn after_plan(word: &[u8]) -> Option<&[u8]>
    ensures { option_map (λ text. text.now) result ≡ model.after_prefix (codes "--plan=") word.now }
{
    match word {
        [b'-', b'-', b'p', b'l', b'a', b'n', b'=', text @ ..] => Some(text),
        _ => None,
    }
}

impl Options {
    /// No option was given.
    fn none() -> Options
        ensures { options_view result ≡ model.no_options }
    {
        Options {
            pages: None,
            quantum: None,
            turns: None,
            plan: None,
        }
    }

    /// The options with the pages, where they weren't given yet.
    fn with_pages(self, text: &[u8]) -> Option<Options>
        ensures { option_map options_view result ≡ model.with_pages (options_view self) text.now }
    {
        match (self.pages, pages_of(text)) {
            (None, Some(pages)) => Some(Options {
                pages: Some(pages),
                quantum: self.quantum,
                turns: self.turns,
                plan: self.plan,
            }),
            _ => None,
        }
    }

    /// The options with the quantum, where it wasn't given yet.
    fn with_quantum(self, text: &[u8]) -> Option<Options>
        ensures { option_map options_view result ≡ model.with_quantum (options_view self) text.now }
    {
        match (self.quantum, quantum_of(text)) {
            (None, Some(quantum)) => Some(Options {
                pages: self.pages,
                quantum: Some(quantum),
                turns: self.turns,
                plan: self.plan,
            }),
            _ => None,
        }
    }

    /// The options with the turns, where they weren't given yet.
    fn with_turns(self, text: &[u8]) -> Option<Options>
        ensures { option_map options_view result ≡ model.with_turns (options_view self) text.now }
    {
        match (self.turns, turns_of(text)) {
            (None, Some(turns)) => Some(Options {
                pages: self.pages,
                quantum: self.quantum,
                turns: Some(turns),
                plan: self.plan,
            }),
            _ => None,
        }
    }

    /// The options with the plan, where it wasn't given yet.
    fn with_plan(self, text: &[u8]) -> Option<Options>
        ensures { option_map options_view result ≡ model.with_plan (options_view self) text.now }
    {
        match (self.plan, plan_of(text)) {
            (None, Some(plan)) => Some(Options {
                pages: self.pages,
                quantum: self.quantum,
                turns: self.turns,
                plan: Some(plan),
            }),
            _ => None,
        }
    }

    /// The options with one word more, where it is an option that wasn't given yet.
    fn with_option(self, word: &[u8]) -> Option<Options>
        ensures { option_map options_view result ≡ model.with_option (options_view self) word.now }
    {
        match after_pages(word) {
            Some(text) => return self.with_pages(text),
            None => {}
        }
        match after_quantum(word) {
            Some(text) => return self.with_quantum(text),
            None => {}
        }
        match after_turns(word) {
            Some(text) => return self.with_turns(text),
            None => {}
        }
        match after_plan(word) {
            Some(text) => self.with_plan(text),
            None => None,
        }
    }

    /// What the options say of a run.
    #[tactic(auto, unfolding(crate::specs::Words::default_pages, crate::specs::Words::default_quantum, crate::specs::Words::default_turns))]
    fn setup(self) -> Setup
        ensures { setup_view result ≡ model.setup_of (options_view self) }
    {
        Setup {
            pages: self.pages.unwrap_or(DEFAULT_PAGES),
            quantum: self.quantum.unwrap_or(DEFAULT_QUANTUM),
            turns: self.turns.unwrap_or(DEFAULT_TURNS),
            plan: self.plan.unwrap_or(Plan::Round),
        }
    }
}

/// The machine and the run of a command without an option for it.
pub fn default_setup() -> Setup
    ensures { setup_view result ≡ model.default_setup }
{
    Options::none().setup()
}

/// The options that the words after a command give.
fn read_options(words: &[String]) -> Option<Options>
    ensures { option_map options_view result ≡ model.options_of (map string_bytes words.now) (Some model.no_options) }
{
    let mut options = Options::none();
    for word in words {
        options = match options.with_option(word.as_bytes()) {
            Some(options) => options,
            None => return None,
        };
    }
    Some(options)
}

/// The command of a word, with the words after it.
fn command_named(word: &str, words: &[String]) -> Option<Command>
    ensures { option_map command_view result ≡ model.command_named word.now (map string_bytes words.now) }
{
    if word == "once" {
        match read_options(words) {
            Some(options) => Some(Command::Once(options.setup())),
            None => None,
        }
    } else if word == "work" {
        match LoadOptions::read(words) {
            Some(options) => Some(Command::Work(options.load())),
            None => None,
        }
    } else if word == "asm" {
        match words {
            [] => Some(Command::Asm),
            _ => None,
        }
    } else {
        None
    }
}

/// The command that the words give, or None where they give none.
pub fn parse(words: &[String]) -> Option<Command>
    ensures { option_map command_view result ≡ model.command_of (map string_bytes words.now) }
{
    match words {
        [disk, word, words @ ..] => {
            if is_disk(disk.as_str()) {
                command_named(word.as_str(), words)
            } else {
                None
            }
        }
        _ => None,
    }
}
