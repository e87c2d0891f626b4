//! Where statements stand.

ghost use Rattle.std.specs.Prelude.{◌≡◌, ◌+◌, ◌*◌, ◌≤◌, ◌<◌, ◌^◌};
ghost use Rattle.rv_asm.specs.Layout as model;
ghost use Rattle.rv_asm.specs.Views.{statement_view, IsReady};

use crate::mnemonics::Part;
use crate::quoted::text_length;
use crate::statement::Statement;

/// How far the parts are, and which of them goes on.
#[derive(Clone, Copy)]
pub struct Position {
    pub part: Part,
    pub text_bytes: u64,
    pub data_bytes: u64,
}

/// The zeros behind so many bytes, up to a multiple of 2^exponent.
#[tactic(auto, using(crate::proofs::LayoutLaws::few_zeros))]
pub fn padding(exponent: u32, bytes: u64) -> u64
    requires { exponent ≤ 12 }
    ensures zeros { result ≡ model.padding exponent bytes }
    ensures few { result ≤ 4096 }
{
    let unit = 2u64.pow(exponent);
    (unit - bytes % unit) % unit
}

/// How many bytes a statement adds to a part of so many bytes.
#[tactic(auto, unfolding(crate::specs::Layout::size_of))]
fn size_of(statement: &Statement<'_>, bytes: u64) -> u64
    requires { IsReady statement.now }
    ensures size { result ≡ model.size_of (statement_view statement.now) bytes }
    ensures bound { result ≤ 4294967296 }
{
    match *statement {
        Statement::Nothing | Statement::Switch(_) => 0,
        Statement::Single(_)
        | Statement::Jump { .. }
        | Statement::Branch { .. }
        | Statement::Word(_) => 4,
        Statement::Double(_) | Statement::Address { .. } => 8,
        Statement::Byte(_) => 1,
        Statement::Ascii(behind) => text_length(behind).unwrap_or(0) as u64,
        Statement::Space(zeros) => zeros.unwrap_or(0),
        Statement::Align(None) => 0,
        Statement::Align(Some(exponent)) => padding(exponent, bytes),
    }
}

/// The address at which the text begins.
pub const TEXT_START: u32 = 0x1_0000;

/// The address at which data begin behind a text of so many bytes: the next multiple of 4,096.
#[tactic(auto, unfolding(crate::specs::Layout::data_start, crate::specs::Layout::text_start))]
pub fn data_start(text_bytes: u64) -> u128
    ensures address { result ≡ model.data_start text_bytes }
    ensures bound { result ≤ text_bytes + 69631 }
{
    (u128::from(TEXT_START) + u128::from(text_bytes) + 4095) / 4096 * 4096
}

/// The address of a place, where the text has so many bytes.
#[tactic(auto, unfolding(crate::specs::Layout::text_start))]
pub fn address_of(place: Place, text_bytes: u64) -> u128
    ensures address { result ≡ model.address_of text_bytes place }
    ensures bound { result ≤ 2 ^ 66 }
{
    match place.part {
        Part::Text => u128::from(TEXT_START) + u128::from(place.offset),
        Part::Data => data_start(text_bytes) + u128::from(place.offset),
    }
}

/// A place in a part.
#[derive(Clone, Copy)]
pub struct Place {
    pub part: Part,
    /// In bytes from the part's beginning.
    pub offset: u64,
}

impl Position {
    /// Where the parts begin.
    pub fn start() -> Position
        ensures { result ≡ model.start }
    {
        Position {
            part: Part::Text,
            text_bytes: 0,
            data_bytes: 0,
        }
    }

    /// The bytes of a part.
    pub fn bytes_of(&self, part: Part) -> u64
        ensures { result ≡ model.bytes_in part self.now }
    {
        match part {
            Part::Text => self.text_bytes,
            Part::Data => self.data_bytes,
        }
    }

    /// The place at which the next byte will stand.
    pub fn place(&self) -> Place
        ensures { result ≡ model.place_of self.now }
    {
        Place {
            part: self.part,
            offset: self.bytes_of(self.part),
        }
    }
}

impl Position {
    /// The position behind a statement.
    #[tactic(auto, unfolding(crate::specs::Layout::moved))]
    pub fn after(self, statement: &Statement<'_>) -> Position
        requires ready { IsReady statement.now }
        requires text_fits { self.text_bytes ≤ 2305843009213693952 }
        requires data_fits { self.data_bytes ≤ 2305843009213693952 }
        ensures moved { result ≡ model.moved (statement_view statement.now) self }
        ensures text_bound { result.text_bytes ≤ self.text_bytes + 4294967296 }
        ensures data_bound { result.data_bytes ≤ self.data_bytes + 4294967296 }
    {
        let size = size_of(statement, self.bytes_of(self.part));
        let part = match *statement {
            Statement::Switch(other) => other,
            _ => self.part,
        };
        match self.part {
            Part::Text => Position {
                part,
                text_bytes: self.text_bytes + size,
                data_bytes: self.data_bytes,
            },
            Part::Data => Position {
                part,
                text_bytes: self.text_bytes,
                data_bytes: self.data_bytes + size,
            },
        }
    }
}
