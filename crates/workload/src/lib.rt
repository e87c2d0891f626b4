//! The load of the command `work`: a bundle whose program copies a file of numbers to the console, and what is told of its run.
#![tactic(auto)]

ghost use Rattle.std.specs.Prelude.{◌≡◌, ◌<◌, ◌++◌, IfOk, OnOk, string_bytes};
ghost use Rattle.std.specs.Fmt.{decimal};
ghost use Rattle.workload.specs.Workload as model;

use std::alloc::{AllocError, Global};

/// The bundle for a seed and a number of lines: the file `/data`, whose lines are the last three digits of the numbers that follow
/// the seed in a linear congruential generator (multiplier 1,664,525, increment 1,013,904,223, modulus 2^32), and `/init`, the
/// program `pump`.
#[tactic(auto, unfolding(crate::specs::Workload::work_bundle))]
pub fn work_bundle(alloc: Global, seed: u32, lines: u32) -> Result<Vec<u8>, AllocError>
    ensures { IfOk result (λ bundle. bundle.items ≡ model.work_bundle seed lines) }
{
    let head = format!(in alloc; "keynix bundle 1\ntext /data {lines}\n")?;
    let mut bundle = head.into_bytes();
    put_lines(&mut bundle, seed, lines)?;
    bundle.extend_from_slice(b"user /init pump\nend\n")?;
    Ok(bundle)
}

/// What is told of a run of that bundle: the seed and the number of lines, how many bytes the console got, and their sum modulo
/// 2^32.
#[tactic(auto, unfolding(crate::specs::Workload::summary))]
pub fn summary(
    alloc: Global,
    seed: u32,
    lines: u32,
    console: u64,
    sum: u32,
) -> Result<String, AllocError>
    ensures { IfOk result (λ text. string_bytes text ≡ model.summary seed lines console sum) }
{
    let mut text = labelled(alloc, "work seed ", u64::from(seed))?;
    text.push_str(labelled(alloc, " lines ", u64::from(lines))?.as_str())?;
    text.push_str(labelled(alloc, " console ", console)?.as_str())?;
    text.push_str(labelled(alloc, " sum ", u64::from(sum))?.as_str())?;
    text.push('\n')?;
    Ok(text)
}

// A label and a number.
fn labelled(alloc: Global, label: &str, number: u64) -> Result<String, AllocError>
    ensures { IfOk result (λ text. string_bytes text ≡ label.now ++ decimal number) }
{
    format!(in alloc; "{label}{number}")
}

// Puts so many lines behind the bytes, of the numbers that follow a seed.
fn put_lines(bytes: &mut Vec<u8>, seed: u32, lines: u32) -> Result<(), AllocError>
    ensures { OnOk result (bytes.new.items ≡ bytes.old.items ++ model.data_lines lines seed) }
{
    let mut number = seed;
    for _ in 0..lines {
        number = next_number(number);
        let line = data_line(number);
        bytes.extend_from_slice(line.as_slice())?;
    }
    Ok(())
}

// The number that follows another.
#[tactic(auto, using(crate::proofs::Numbers::steps))]
fn next_number(number: u32) -> u32
    ensures { result ≡ model.next_number number }
{
    number.wrapping_mul(1_664_525).wrapping_add(1_013_904_223)
}

// The line of a number: its last three digits.
#[tactic(auto, unfolding(crate::specs::Workload::data_line))]
fn data_line(number: u32) -> [u8; 4]
    ensures { result ≡ model.data_line number }
{
    let last = number % 1_000;
    [
        digit(last / 100),
        digit(last / 10 % 10),
        digit(last % 10),
        b'\n',
    ]
}

// The digit of a number (ASCII).
fn digit(number: u32) -> u8
    requires { number < 10 }
    ensures { result ≡ model.digit number }
{
    b'0' + number as u8
}
