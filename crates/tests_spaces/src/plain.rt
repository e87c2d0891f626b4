//! What eight spaces are to map and to take, beside the spaces themselves.
//!
//! Each page and each node below a root has a number of its own here, so that two spaces share what has the same number in
//! both. A call on a page gives new numbers to what it has to copy.

ghost use Rattle.std.specs.Prelude.{ℕ, ◌<◌, ◌^◌};

/// What a space is to have at a page.
#[derive(Clone, Copy, Debug, PartialEq, Eq)]
pub struct Line {
    /// The first byte of the page.
    pub byte: u8,
    pub writable: bool,
    /// The page's number, and 0 for the page of zeros.
    pub page: u32,
}

/// The plain maps of eight spaces, eight pages each, and the numbers of the four nodes on the way to each page.
#[derive(Clone, Copy)]
pub struct Plain {
    lines: [Option<Line>; 64],
    nodes: [u32; 256],
    last: u32,
}

/// Eight spaces in which nothing is mapped.
pub fn empty() -> Plain {
    Plain {
        lines: [None; 64],
        nodes: [0; 256],
        last: 0,
    }
}

/// The pages of the walk: some share their nodes at each level, and some share none.
pub fn page_number(index: usize) -> u32
    ensures { result < 2 ^ 19 }
{
    match index {
        0 => 0,
        1 => 1,
        2 => 16,
        3 => 255,
        4 => 256,
        5 => 4096,
        6 => 65_536,
        _ => 524_287,
    }
}

// How many pages a node of a level stands above, where levels are 0 to 3 from the root down.
fn pages_below(level: usize) -> u32
    ensures { 0 < result }
{
    match level {
        0 => 65_536,
        1 => 4096,
        2 => 256,
        _ => 16,
    }
}

// Whether the ways to two pages go through the same node of a level.
fn same_node(first: usize, second: usize, level: usize) -> bool {
    let pages = pages_below(level);
    page_number(first) / pages == page_number(second) / pages
}

/// What a space is to have at the page of an index.
pub fn line_of(plain: &Plain, space: usize, index: usize) -> Option<Line>
    requires space { space < 8 }
    requires index { index < 8 }
{
    plain.lines[8 * space + index]
}

fn set_line(plain: &mut Plain, space: usize, index: usize, line: Option<Line>)
    requires space { space < 8 }
    requires index { index < 8 }
{
    plain.lines[8 * space + index] = line;
}

fn node_of(plain: &Plain, space: usize, index: usize, level: usize) -> u32
    requires space { space < 8 }
    requires index { index < 8 }
    requires level { level < 4 }
{
    plain.nodes[32 * space + 4 * index + level]
}

fn set_node(plain: &mut Plain, space: usize, index: usize, level: usize, number: u32)
    requires space { space < 8 }
    requires index { index < 8 }
    requires level { level < 4 }
{
    plain.nodes[32 * space + 4 * index + level] = number;
}

// A number that nothing has yet.
fn new_number(plain: &mut Plain) -> u32 {
    plain.last = plain.last.wrapping_add(1);
    plain.last
}

// The node of a level on the way to a page, and 0 where none is.
fn node_on_way(plain: &Plain, space: usize, index: usize, level: usize) -> u32
    requires space { space < 8 }
    requires index { index < 8 }
    requires level { level < 4 }
{
    let mut found = 0;
    for other in 0..8 {
        if same_node(index, other, level) {
            found = found.max(node_of(plain, space, other, level));
        }
    }
    found
}

// Whether a node is in another space too.
fn is_shared(plain: &Plain, space: usize, level: usize, number: u32) -> bool
    requires level { level < 4 }
{
    let mut shared = false;
    for place in 0..64usize {
        let other = place / 8;
        shared = shared || other != space && node_of(plain, other, place % 8, level) == number;
    }
    shared
}

// The node of a level on the way to a page has another number, for all mapped pages whose ways go through it, and for this one.
fn renumber(plain: &mut Plain, space: usize, index: usize, level: usize, number: u32)
    requires space { space < 8 }
    requires index { index < 8 }
    requires level { level < 4 }
{
    for other in 0..8 {
        let there = same_node(index, other, level) && line_of(plain, space, other).is_some();
        if there || other == index {
            set_node(plain, space, other, level, number);
        }
    }
}

// The way to a page becomes own: what is shared on it is copied, and what is missing is made.
fn own_way(plain: &mut Plain, space: usize, index: usize)
    requires space { space < 8 }
    requires index { index < 8 }
{
    for level in 0..4 {
        let found = node_on_way(plain, space, index, level);
        if found == 0 || is_shared(plain, space, level, found) {
            let number = new_number(plain);
            renumber(plain, space, index, level, number);
        } else {
            renumber(plain, space, index, level, found);
        }
    }
}

// How many spaces have a page.
fn count_of(plain: &Plain, number: u32) -> u32 {
    let mut count = 0u32;
    for place in 0..64usize {
        if plain.lines[place].is_some_and(|line| line.page == number) {
            count = count.wrapping_add(1);
        }
    }
    count
}

/// The page of zeros is mapped at the page of an index.
pub fn add_page(plain: &mut Plain, space: usize, index: usize, writable: bool)
    requires space { space < 8 }
    requires index { index < 8 }
{
    own_way(plain, space, index);
    let line = Line {
        byte: 0,
        writable,
        page: 0,
    };
    set_line(plain, space, index, Some(line));
}

/// The page of an index becomes own, if it may be written, and gets a first byte if there is one.
pub fn own_page(plain: &mut Plain, space: usize, index: usize, byte: Option<u8>)
    requires space { space < 8 }
    requires index { index < 8 }
{
    match line_of(plain, space, index) {
        Some(line) => {
            if line.writable {
                own_way(plain, space, index);
                let page = if line.page != 0 && count_of(plain, line.page) == 1 {
                    line.page
                } else {
                    new_number(plain)
                };
                let now = Line {
                    byte: byte.unwrap_or(line.byte),
                    writable: true,
                    page,
                };
                set_line(plain, space, index, Some(now));
            }
        }
        None => {}
    }
}

/// The page of an index becomes read-only, if it is mapped.
pub fn seal_page(plain: &mut Plain, space: usize, index: usize)
    requires space { space < 8 }
    requires index { index < 8 }
{
    match line_of(plain, space, index) {
        Some(line) => {
            own_way(plain, space, index);
            let now = Line {
                writable: false,
                ..line
            };
            set_line(plain, space, index, Some(now));
        }
        None => {}
    }
}

// Nothing is mapped at the page of an index.
fn forget_page(plain: &mut Plain, space: usize, index: usize)
    requires space { space < 8 }
    requires index { index < 8 }
{
    set_line(plain, space, index, None);
    for level in 0..4 {
        set_node(plain, space, index, level, 0);
    }
}

/// The page of an index is unmapped, if it is mapped.
pub fn take_page(plain: &mut Plain, space: usize, index: usize)
    requires space { space < 8 }
    requires index { index < 8 }
{
    if line_of(plain, space, index).is_some() {
        own_way(plain, space, index);
        forget_page(plain, space, index);
    }
}

// A space gets what another one has at the page of an index.
fn copy_page(plain: &mut Plain, from: usize, to: usize, index: usize)
    requires from { from < 8 }
    requires to { to < 8 }
    requires index { index < 8 }
{
    let line = line_of(plain, from, index);
    set_line(plain, to, index, line);
    for level in 0..4 {
        let number = node_of(plain, from, index, level);
        set_node(plain, to, index, level, number);
    }
}

/// A space gets the map of another one, and shares all of it. Where both are the same, nothing is mapped in it.
pub fn renew_space(plain: &mut Plain, space: usize, from: usize)
    requires space { space < 8 }
    requires from { from < 8 }
{
    for index in 0..8 {
        if from == space {
            forget_page(plain, space, index);
        } else {
            copy_page(plain, from, space, index);
        }
    }
}

/// How many pages a space is to map.
pub fn count_lines(plain: &Plain, space: usize) -> u32
    requires space { space < 8 }
{
    let mut count = 0u32;
    for index in 0..8 {
        if line_of(plain, space, index).is_some() {
            count = count.wrapping_add(1);
        }
    }
    count
}

// How many different numbers there are beside 0.
fn different(numbers: &[u32]) -> u32 {
    let mut count = 0u32;
    for (place, number) in numbers.iter().enumerate() {
        if *number != 0 && !numbers[..place].contains(number) {
            count = count.wrapping_add(1);
        }
    }
    count
}

/// How many pages are to be taken: each that a space maps, once.
pub fn pages_taken(plain: &Plain) -> u32 {
    let mut pages = [0; 64];
    for place in 0..64usize {
        match plain.lines[place] {
            Some(line) => pages[place] = line.page,
            None => {}
        }
    }
    different(&pages)
}

/// How many nodes are to be taken below the roots: each on the way to a page, once.
pub fn nodes_taken(plain: &Plain) -> u32 {
    different(&plain.nodes)
}
