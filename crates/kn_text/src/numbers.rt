//! Numbers in plain decimal.

ghost use Rattle.std.specs.Prelude.{◌≡◌};
ghost use Rattle.unix_model.specs.Texts.{digits_after};
ghost use Rattle.kn_text.specs.Numbers.{number_within, IsCut};

/// Why a text is no number that is asked for.
#[derive(Clone, Copy, Debug, PartialEq, Eq)]
pub enum NumberFault {
    /// It is neither `0` nor a digit from 1 to 9 and any digits after it.
    NotANumber,
    /// The number is above the limit.
    TooLarge,
}

/// Where a number is cut while it is read: above every limit.
const CUT: u128 = 1 << 64;

/// The number that a text spells in plain decimal: `0`, or a digit from 1 to 9 and any digits after it.
///
/// # Errors
///
/// `NotANumber` exactly for any other text, the empty one among them. `TooLarge` exactly for a number above `most`, however
/// many digits it has.
pub fn number_of(text: &[u8], most: u64) -> Result<u64, NumberFault>
    ensures { result ≡ number_within most text.now }
{
    match text {
        [] => Err(NumberFault::NotANumber),
        [b'0', _, ..] => Err(NumberFault::NotANumber),
        _ => match digits(text) {
            Some(number) => {
                if number <= u128::from(most) {
                    Ok(number as u64)
                } else {
                    Err(NumberFault::TooLarge)
                }
            }
            None => Err(NumberFault::NotANumber),
        },
    }
}

/// The number that digits spell, cut where it is above every limit; None where a byte is no digit.
fn digits(text: &[u8]) -> Option<u128>
    ensures { IsCut (digits_after 0 text.now) result }
{
    let mut number = 0;
    for byte in text {
        if !byte.is_ascii_digit() {
            return None;
        }
        number = (10 * number + u128::from(byte - b'0')).min(CUT);
    }
    Some(number)
}
