//! Bundles: every refusal at every place where it can stand, limits from both sides, what is left behind, and failing sources.
//!
//! A table is one text. A row of it is a bundle, ` => ` and what it gives: each entry with the number of its line and `;`, and
//! then the refusal with its line, or `end`, a space and what is left. In a row, `|` stands for a line feed, and `{3*ab}` for
//! `ababab`.

ghost use Rattle.std.specs.Prelude.{◌≡◌, ◌≤◌, List, ℕ};
ghost use Rattle.bundle.specs.Views.{IsOpen};

use crate::assembling::{file_of, joined, sides};
use crate::streams::{byte_source, mem_source, rest_of_bytes};
use crate::tables::{Case, Table, check_tables};
use bundle::{BundleFault, BundleKind, BundleReader, Entry, next_entry};
use kn_io::{ByteSource, MemSource, Source};
use std::alloc::{AllocError, Global};
use std::test::Fail;

// Adds a number of at most nine digits in decimal.
fn put_number(bytes: &mut Vec<u8>, number: u32) -> Result<(), AllocError> {
    let mut is_begun = false;
    for unit in [
        100_000_000,
        10_000_000,
        1_000_000,
        100_000,
        10_000,
        1000,
        100,
        10,
        1,
    ] {
        let digit = number / unit % 10;
        if is_begun || digit != 0 || unit == 1 {
            bytes.push(b'0' + digit as u8)?;
            is_begun = true;
        }
    }
    Ok(())
}

// The name of a refusal.
fn kind_name(kind: BundleKind) -> &'static [u8] {
    match kind {
        BundleKind::Syntax => b"Syntax",
        BundleKind::BadPath => b"BadPath",
        BundleKind::Twice => b"Twice",
        BundleKind::NoParent => b"NoParent",
        BundleKind::TooLong => b"TooLong",
        BundleKind::BadAsm => b"BadAsm",
        BundleKind::BadHex => b"BadHex",
        BundleKind::NoInit => b"NoInit",
    }
}

// Adds the bytes of a file; of an ELF file its name and its length.
fn put_file(told: &mut Vec<u8>, file: &[u8]) -> Result<(), AllocError> {
    if let [0x7F, b'E', b'L', b'F', ..] = file {
        told.extend_from_slice(b"elf ")?;
        put_number(told, file.len().min(4_000_000) as u32)
    } else {
        told.extend_from_slice(file)
    }
}

// Adds an entry.
fn put_entry(told: &mut Vec<u8>, entry: &Entry) -> Result<(), AllocError> {
    match entry {
        Entry::Dir { path, line } => {
            put_number(told, *line)?;
            told.extend_from_slice(b" dir ")?;
            told.extend_from_slice(path.as_slice())?;
        }
        Entry::File { path, bytes, line } => {
            put_number(told, *line)?;
            told.extend_from_slice(b" file ")?;
            told.extend_from_slice(path.as_slice())?;
            told.push(b' ')?;
            put_file(told, bytes.as_slice())?;
        }
    }
    told.push(b';')?;
    Ok(())
}

// Adds a fault.
fn put_fault(told: &mut Vec<u8>, fault: BundleFault) -> Result<(), AllocError> {
    match fault {
        BundleFault::At { kind, line } => {
            told.extend_from_slice(kind_name(kind))?;
            told.push(b' ')?;
            put_number(told, line)
        }
        BundleFault::ReadFault => told.extend_from_slice(b"read fault"),
        BundleFault::NoMemory => told.extend_from_slice(b"no memory"),
    }
}

// What a bundle gives, up to its end or its refusal; and whether it has ended.
fn told<S: Source>(
    alloc: Global,
    first: Option<u8>,
    from: &mut S,
) -> Result<(Vec<u8>, bool), Fail> {
    let mut reader = match BundleReader::new(alloc, first) {
        Ok(reader) => reader,
        Err(_) => return Err(Fail::new("no memory")),
    };
    let mut told = Vec::new(alloc);
    'reading: for _ in 0..5000u32 {
        match next_entry(alloc, &mut reader, from) {
            Ok(Some(entry)) => put_entry(&mut told, &entry)?,
            Ok(None) => return Ok((told, true)),
            Err(fault) => {
                put_fault(&mut told, fault)?;
                return Ok((told, false));
            }
        }
    }
    Err(Fail::new("no end"))
}

// What a bundle gives, and what is left behind it.
fn given(alloc: Global, first: Option<u8>, bytes: &[u8]) -> Result<Vec<u8>, Fail> {
    let mut source = byte_source(alloc, bytes)?;
    let (mut told, has_ended) = told(alloc, first, &mut source)?;
    if has_ended {
        told.extend_from_slice(b"end ")?;
        told.extend_from_slice(rest_of_bytes(&source))?;
    }
    Ok(told)
}

// Whether a row's bundle gives what the row says, whole and with its first byte read before.
pub fn holds_entries(alloc: Global, before: &[u8], row: &[u8]) -> Result<bool, Fail> {
    let (bytes, expected) = sides(row).ok_or("no row")?;
    let bytes = joined(alloc, before, bytes)?;
    let expected = joined(alloc, b"", expected)?;
    if given(alloc, None, bytes.as_slice())?.as_slice() != expected.as_slice() {
        return Ok(false);
    }
    match bytes.as_slice() {
        [first, rest @ ..] => Ok(
            given(alloc, Some(*first), rest)?.as_slice() == expected.as_slice(),
        ),
        _ => Ok(true),
    }
}

const FIRST: &[u8] = b"keynix bundle 1\n";

const FIRST_LINES: &[u8] = b"\
\x20=> Syntax 1\n\
| => Syntax 1\n\
end => Syntax 1\n\
keynix bundle => Syntax 1\n\
keynix bundle 2 => Syntax 1\n\
keynix bundle 1  => Syntax 1\n\
\x20keynix bundle 1 => Syntax 1\n\
Keynix bundle 1 => Syntax 1\n\
keynix bundle 1\r| => Syntax 1\n\
keynix bundle 1 => Syntax 2\n\
keynix bundle 1| => Syntax 2\n\
keynix bundle 1|| => Syntax 2\n\
keynix bundle 1|end => NoInit 2\n\
keynix bundle 1|end| => NoInit 2\n\
keynix bundle 1|keynix bundle 1| => Syntax 2\n\
{1024*k}| => Syntax 1\n\
{1025*k}| => TooLong 1\n\
{1025*k} => TooLong 1\n\
\x7FELF => Syntax 1\n\
";

const ENDS: &[u8] = b"\
text /init 0|end => 2 file /init ;end \n\
text /init 0|end| => 2 file /init ;end \n\
text /init 0|end|hi => 2 file /init ;end hi\n\
text /init 0|end||x|| => 2 file /init ;end |x||\n\
text /init 0|end|end|  => 2 file /init ;end end| \n\
dir /init|end| => 2 dir /init;NoInit 3\n\
dir /a|text /a/init 0|end| => 2 dir /a;3 file /a/init ;NoInit 4\n\
hex /init 0|end|x => 2 file /init ;end x\n\
text /init 0|End => 2 file /init ;Syntax 3\n\
text /init 0|end  => 2 file /init ;Syntax 3\n\
text /init 0|end\r| => 2 file /init ;Syntax 3\n\
text /init 0|en => 2 file /init ;Syntax 3\n\
text /init 0| => 2 file /init ;Syntax 3\n\
text /init 0 => 2 file /init ;Syntax 3\n\
text /init 2|end|end|end|end => 2 file /init end|end|;end end\n\
";

const LINES: &[u8] = b"\
dir => Syntax 2\n\
dir  => Syntax 2\n\
dir  /a => Syntax 2\n\
dir /a  => Syntax 2\n\
dir /a b => Syntax 2\n\
dir /a 0 => Syntax 2\n\
\x20dir /a => Syntax 2\n\
dirs /a => Syntax 2\n\
DIR /a => Syntax 2\n\
text => Syntax 2\n\
text /a => Syntax 2\n\
text  0 => Syntax 2\n\
text /a  0 => Syntax 2\n\
text /a 0  => Syntax 2\n\
text /a 0 0 => Syntax 2\n\
text /a 00 => Syntax 2\n\
text /a 01 => Syntax 2\n\
text /a -1 => Syntax 2\n\
text /a +1 => Syntax 2\n\
text /a x => Syntax 2\n\
text /a 0x1 => Syntax 2\n\
text /a 100001 => Syntax 2\n\
text /a 18446744073709551616 => Syntax 2\n\
text a 100001 => Syntax 2\n\
text a x => Syntax 2\n\
text a 0 => BadPath 2\n\
hex /a => Syntax 2\n\
hex /a 100001 => Syntax 2\n\
asm /a => Syntax 2\n\
asm /a 100001 => Syntax 2\n\
user /a => Syntax 2\n\
user /init nobody => Syntax 2\n\
user a nobody => Syntax 2\n\
user a cat => BadPath 2\n\
user /a cat  => Syntax 2\n\
user /a  cat => Syntax 2\n\
user /a cat 0 => Syntax 2\n\
user /a Cat => Syntax 2\n\
user /a  => Syntax 2\n\
file /a 0 => Syntax 2\n\
dir /a|| => 2 dir /a;Syntax 3\n\
dir /a|dir /b => 2 dir /a;3 dir /b;Syntax 4\n\
text /a 1|x|foo => 2 file /a x|;Syntax 4\n\
dir /a|text /b 3|x|y|z|hex /c 1|4142|foo => 2 dir /a;3 file /b x|y|z|;7 file /c AB;Syntax 9\n\
{1024*d}| => Syntax 2\n\
{1025*d}| => TooLong 2\n\
{1025*d} => TooLong 2\n\
dir {1021*/}| => TooLong 2\n\
dir {1020*/}| => BadPath 2\n\
text /{1017*a} 0| => TooLong 2\n\
end{1022* }| => TooLong 2\n\
";

const PATHS: &[u8] = b"\
dir / => BadPath 2\n\
dir a => BadPath 2\n\
dir a/b => BadPath 2\n\
dir //a => BadPath 2\n\
dir /a/ => BadPath 2\n\
dir /a//b => BadPath 2\n\
dir /. => BadPath 2\n\
dir /.. => BadPath 2\n\
dir /./a => BadPath 2\n\
dir /../a => BadPath 2\n\
dir /a/. => BadPath 2\n\
dir /a/.. => BadPath 2\n\
dir /a\0b => BadPath 2\n\
dir /\0 => BadPath 2\n\
dir /... => 2 dir /...;Syntax 3\n\
dir /.a => 2 dir /.a;Syntax 3\n\
dir /a. => 2 dir /a.;Syntax 3\n\
dir /a\tb\r\x7F\xFF => 2 dir /a\tb\r\x7F\xFF;Syntax 3\n\
dir /{27*a} => 2 dir /{27*a};Syntax 3\n\
dir /{28*a} => TooLong 2\n\
dir /{28*a}/b => TooLong 2\n\
dir /b/{28*a} => TooLong 2\n\
dir /{28*a}/ => BadPath 2\n\
dir /{28*a}/. => BadPath 2\n\
dir {28*a} => BadPath 2\n\
dir /{28*.} => TooLong 2\n\
dir {127*/a} => NoParent 2\n\
dir {127*/a}b => NoParent 2\n\
dir {127*/a}bc => TooLong 2\n\
dir {128*/a} => TooLong 2\n\
dir {127*/a}// => BadPath 2\n\
dir /a/b => NoParent 2\n\
text /b/c 0 => NoParent 2\n\
dir /a|dir /a/b|dir /a/b/c => 2 dir /a;3 dir /a/b;4 dir /a/b/c;Syntax 5\n\
dir /a|dir /a/b/c => 2 dir /a;NoParent 3\n\
dir /a|dir /b/c => 2 dir /a;NoParent 3\n\
dir /aa|dir /a/c => 2 dir /aa;NoParent 3\n\
text /a 0|dir /a/b => 2 file /a ;NoParent 3\n\
text /a 0|text /a/a 0 => 2 file /a ;NoParent 3\n\
dir /a/b|dir /a => NoParent 2\n\
dir /a|dir /a => 2 dir /a;Twice 3\n\
dir /a|text /a 0 => 2 dir /a;Twice 3\n\
text /a 0|dir /a => 2 file /a ;Twice 3\n\
text /a 0|text /a 0 => 2 file /a ;Twice 3\n\
dir /a|dir /b|dir /a/a|dir /b/a|dir /a/a => 2 dir /a;3 dir /b;4 dir /a/a;5 dir /b/a;Twice 6\n\
dir /a|dir /A => 2 dir /a;3 dir /A;Syntax 4\n\
text /a 2|text /b 1|dir /b|dir /b => 2 file /a text /b 1|dir /b|;5 dir /b;Syntax 6\n\
user /{28*a} cat => TooLong 2\n\
user /a/b cat => NoParent 2\n\
dir /a|user /a cat => 2 dir /a;Twice 3\n\
hex /a/b 1 => NoParent 2\n\
asm /a/b 1 => NoParent 2\n\
";

const PARTS: &[u8] = b"\
text /a 1|x => 2 file /a x|;Syntax 4\n\
text /a 1|x| => 2 file /a x|;Syntax 4\n\
text /a 1|| => 2 file /a |;Syntax 4\n\
text /a 3||| b| => 2 file /a || b|;Syntax 6\n\
text /a 2|x|\0\xFF\r|end => 2 file /a x|\0\xFF\r|;NoInit 5\n\
text /a 1| => Syntax 3\n\
text /a 1 => Syntax 3\n\
text /a 2|x => Syntax 4\n\
text /a 2|x| => Syntax 4\n\
text /a 100000|x|y| => Syntax 5\n\
text /a 1|{1024*x}|end => 2 file /a {1024*x}|;NoInit 4\n\
text /a 1|{1025*x}|end => TooLong 3\n\
text /a 3|x|y|{1025*x}|end => TooLong 5\n\
text /a 1|x|{1025*x}|end => 2 file /a x|;TooLong 4\n\
hex /a 1|4142 => 2 file /a AB;Syntax 4\n\
hex /a 2|41|42| => 2 file /a AB;Syntax 5\n\
hex /a 3||41||end => 2 file /a A;NoInit 6\n\
hex /a 1|4a4B6c6D| => 2 file /a JKlm;Syntax 4\n\
hex /a 1|007fFf| => 2 file /a \0\x7F\xFF;Syntax 4\n\
hex /a 1|{512*41}| => 2 file /a {512*A};Syntax 4\n\
hex /a 1|{512*41}4| => TooLong 3\n\
hex /a 1|{511*41}4| => BadHex 3\n\
hex /a 1|4|end => BadHex 3\n\
hex /a 1|4g| => BadHex 3\n\
hex /a 1|41 42| => BadHex 3\n\
hex /a 1| 41| => BadHex 3\n\
hex /a 1|0x41| => BadHex 3\n\
hex /a 1|41\r| => BadHex 3\n\
hex /a 1|4: => BadHex 3\n\
hex /a 1|@1 => BadHex 3\n\
hex /a 1|`1 => BadHex 3\n\
hex /a 1|/1 => BadHex 3\n\
hex /a 3|41|4|{1025*4}| => BadHex 4\n\
hex /a 3|41|4 => BadHex 4\n\
hex /a 3|41|42 => Syntax 5\n\
hex /a 3|41|{1025*4}|4| => TooLong 4\n\
hex /a 2|4|4| => BadHex 3\n\
hex /a 1| => Syntax 3\n\
hex /a 0|end => 2 file /a ;NoInit 3\n\
";

const SOURCES: &[u8] = b"\
asm /init 1|nop|end|hi => 2 file /init elf 120;end hi\n\
asm /init 3|li a0, 7|li a7, 1|ecall|end => 2 file /init elf 128;end \n\
asm /init 3|li a7, 1|li a0, 0|ecall|end|hi| => 2 file /init elf 128;end hi|\n\
asm /init 3|li a7, 1|foo|ecall|end|hi| => BadAsm 4\n\
asm /init 3|li a0, 7|foo|ecall|end => BadAsm 4\n\
asm /a 0|end => BadAsm 3\n\
asm /a 2||# c|end => BadAsm 5\n\
asm /a 1|.data| => BadAsm 4\n\
asm /a 2|j b|nop|end => BadAsm 3\n\
asm /a 2|nop|j b|end => BadAsm 4\n\
asm /a 2|li a0, 4294967296|foo| => BadAsm 4\n\
asm /a 2|a:|a:| => BadAsm 4\n\
asm /a 3|nop|foo => BadAsm 4\n\
asm /a 3|a: nop|a: nop => BadAsm 4\n\
asm /a 3|nop|nop => Syntax 5\n\
asm /a 3|nop => Syntax 4\n\
asm /a 3 => Syntax 3\n\
asm /a 3| => Syntax 3\n\
asm /a 3|j b => Syntax 4\n\
asm /a 3|li a0, 4294967296| => Syntax 4\n\
asm /a 3|.data => Syntax 4\n\
asm /a 3|nop|{1025*#}|nop| => TooLong 4\n\
asm /a 3|foo|{1025*#}|nop| => BadAsm 3\n\
asm /a 3|j b|{1025*#}|nop| => TooLong 4\n\
asm /a 3|{1025*#}|foo|nop| => TooLong 3\n\
asm /a 1|{1024*#}|end => BadAsm 4\n\
asm /a 2|nop|{1024*#}|end => 2 file /a elf 120;NoInit 5\n\
dir /b|asm /b/a 2|nop|foo|end => 2 dir /b;BadAsm 5\n\
asm /a 100000|{100000*nop|}end => 2 file /a elf 400116;NoInit 100003\n\
asm /a 100000|{99999*nop|}foo|end => BadAsm 100002\n\
asm /a 100000|{99999*nop|}j x|end => BadAsm 100002\n\
asm /a 100000|{99999*nop|} => Syntax 100002\n\
text /a 100000|{99999*|} => Syntax 100002\n\
hex /a 100000|{99999*41|}4|end => BadHex 100002\n\
text /a 100000|{100000*|}end => 2 file /a {100000*|};NoInit 100003\n\
";

const TABLES: &[Table] = &[
    (Case::Bundle(b""), FIRST_LINES),
    (Case::Bundle(FIRST), ENDS),
    (Case::Bundle(FIRST), LINES),
    (Case::Bundle(FIRST), PATHS),
    (Case::Bundle(FIRST), PARTS),
    (Case::Bundle(FIRST), SOURCES),
];

#[test]
fn bundles_give_their_entries_and_refusals(rt: HostRuntime) -> Result<(), Fail> {
    check_tables(rt.alloc(), TABLES)
}

// The file of the first entry of a bundle with one.
fn first_file(alloc: Global, bytes: &[u8]) -> Result<Vec<u8>, Fail> {
    let mut source = byte_source(alloc, bytes)?;
    let mut reader = match BundleReader::new(alloc, None) {
        Ok(reader) => reader,
        Err(_) => return Err(Fail::new("no memory")),
    };
    match next_entry(alloc, &mut reader, &mut source) {
        Ok(Some(Entry::File { bytes, .. })) => Ok(bytes.into_vec()),
        _ => Err(Fail::new("no file")),
    }
}

// A bundle with one entry, and the source of its program.
const PROGRAMS: &[(&[u8], &[u8])] = &[
    (
        b"keynix bundle 1\nasm /a 6\nj end\n\n.data # b\ntext: .ascii \"x # y\"\n.text\nend: la a0, text",
        b"j end\n\n.data # b\ntext: .ascii \"x # y\"\n.text\nend: la a0, text\n",
    ),
    (b"keynix bundle 1\nuser /bin cat", userland::CAT),
];

const USERS: &[&[u8]] = &[b"init", b"echo", b"cat", b"tee", b"wc", b"ls", b"pump"];

// How many bytes the file of a program of the userland has.
fn length_of_user(alloc: Global, name: &[u8]) -> Result<usize, Fail> {
    let mut bundle = Vec::from_slice(alloc, b"keynix bundle 1\nuser /a ")?;
    bundle.extend_from_slice(name)?;
    Ok(first_file(alloc, bundle.as_slice())?.len())
}

#[test]
fn programs_are_what_the_assembler_makes(rt: HostRuntime) -> Result<(), Fail> {
    let alloc = rt.alloc();
    for (bundle, source) in PROGRAMS {
        let expected = file_of(alloc, source)?;
        assert!(rt; first_file(alloc, bundle)?.as_slice() == expected.as_slice());
    }
    for name in USERS {
        assert!(rt; length_of_user(alloc, name)? > 116);
    }
    Ok(())
}

// How many directories a bundle has, what is behind them, and the last that is given.
const CROWDS: &[(u32, &[u8], &[u8])] = &[
    (4095, b"text /init 1\nx\nend\nin", b"end"),
    (4096, b"end\n", b"NoInit 4098"),
    (4096, b"dir /x\nend\n", b"TooLong 4098"),
    (4096, b"foo\nend\n", b"TooLong 4098"),
    (4096, b"", b"Syntax 4098"),
];

// A bundle with so many directories, and this behind them.
fn crowded(alloc: Global, count: u32, last: &[u8]) -> Result<Vec<u8>, Fail> {
    let mut bundle = Vec::from_slice(alloc, FIRST)?;
    for number in 0..count {
        bundle.extend_from_slice(b"dir /d")?;
        put_number(&mut bundle, number)?;
        bundle.push(b'\n')?;
    }
    bundle.extend_from_slice(last)?;
    Ok(bundle)
}

// The last that a bundle gives.
fn last_told(alloc: Global, bundle: &[u8]) -> Result<Vec<u8>, Fail> {
    let mut source = byte_source(alloc, bundle)?;
    let (told, has_ended) = told(alloc, None, &mut source)?;
    let mut last = Vec::new(alloc);
    for byte in told.as_slice() {
        if *byte == b';' {
            last = Vec::new(alloc);
        } else {
            last.push(*byte)?;
        }
    }
    if has_ended {
        last.extend_from_slice(b"end")?;
    }
    Ok(last)
}

#[test]
fn no_line_but_the_end_follows_4096_entries(rt: HostRuntime) -> Result<(), Fail> {
    let alloc = rt.alloc();
    for (count, last, told) in CROWDS {
        let bundle = crowded(alloc, *count, last)?;
        assert!(rt; last_told(alloc, bundle.as_slice())?.as_slice() == *told);
    }
    Ok(())
}

const SESSION: &[u8] = b"\
keynix bundle 1
dir /etc
text /etc/motd 1
hi
hex /h 2
41
42
asm /init 2
nop
ecall
end
input
";

// What a bundle gives where the call of this number fails, and whether the next call gives what came next.
fn failing(alloc: Global, number: u32) -> Result<(Vec<u8>, usize), Fail> {
    let mut source = mem_source(alloc, SESSION, &[number])?;
    let (told, _) = told(alloc, None, &mut source)?;
    let left = source.rest().len();
    Ok((told, left))
}

// Whether the last of it is a read fault.
fn is_read_fault(told: &[u8]) -> bool {
    told.ends_with(b"read fault")
}

#[test]
fn a_source_that_fails_ends_the_reading(rt: HostRuntime) -> Result<(), Fail> {
    let alloc = rt.alloc();
    let needed = SESSION.len() - b"input\n".len();
    for number in 0..SESSION.len() {
        let (told, left) = failing(alloc, number.min(4000) as u32)?;
        if number < needed {
            assert!(rt; is_read_fault(told.as_slice()));
            assert!(rt; left == SESSION.len() - number);
        } else {
            assert!(rt; told.ends_with(b"8 file /init elf 124;"));
            assert!(rt; left == b"input\n".len());
        }
    }
    Ok(())
}

// The bundle of a session with a pipeline, without its last line feed.
const PIPELINE: &[u8] = b"\
keynix bundle 1
dir /bin
dir /etc
user /init init
user /bin/cat cat
user /bin/wc wc
text /etc/motd 2
hello there
second line
end";

#[test]
fn a_bundle_that_is_cut_short_is_refused(rt: HostRuntime) -> Result<(), Fail> {
    let alloc = rt.alloc();
    assert!(rt; PIPELINE.len() == 128);
    for length in 0..PIPELINE.len() {
        let mut source = byte_source(alloc, &PIPELINE[..length])?;
        let (told, has_ended) = told(alloc, None, &mut source)?;
        assert!(rt; !has_ended && !is_read_fault(told.as_slice()));
    }
    let mut source = byte_source(alloc, PIPELINE)?;
    let (told, has_ended) = told(alloc, None, &mut source)?;
    assert!(rt; has_ended && told.starts_with(b"2 dir /bin;3 dir /etc;4 file /init elf "));
    assert!(rt; told.ends_with(b";7 file /etc/motd hello there\nsecond line\n;"));
    Ok(())
}
