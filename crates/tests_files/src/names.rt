//! Names in directories: full ones, holes, and random calls beside a plain list of places.

ghost use Rattle.std.specs.Prelude.{◌≡◌, ◌<◌, ◌≤◌, ℕ, length};
ghost use Rattle.kn_base.specs.Memory.{Memory};
ghost use Rattle.kernel_tables.specs.Kernel.{Kernel, kernel_of};
ghost use Rattle.file_trees.specs.Good.{FilesGood};

use crate::directories::{add, add_directory, find, list, numbered, remove, replace};
use crate::guarded::{Pages, length_of, pages_of, write};
use crate::plain::next;
use crate::room::{machine, new_file};
use kn_base::Store;
use std::alloc::AllocError;
use std::process::Abort;
use std::test::Fail;
use unix_model::Errno;

/// A new directory.
pub fn new_directory<T: Store>(rt: &impl Abort, store: &mut T) -> u32
    requires good { FilesGood (kernel_of (T.memory store.old)) }
    ensures good { FilesGood (kernel_of (T.memory store.new)) }
{
    match add_directory(store) {
        Some(number) => number,
        None => panic!(rt; "no number"),
    }
}

/// Adds so many names.
pub fn add_names<T: Store>(rt: &impl Abort, store: &mut T, dir: u32, inode: u32, count: u32)
    requires good { FilesGood (kernel_of (T.memory store.old)) }
    ensures good { FilesGood (kernel_of (T.memory store.new)) }
{
    for number in 0..count {
        assert!(rt; add(store, dir, &numbered(number), inode) == Ok(()));
    }
}

// A call with a name.
#[derive(Clone, Copy)]
enum Call {
    Add,
    Remove,
    Replace,
}

// Makes a call, with a file that the name is given to.
fn make<T: Store>(store: &mut T, dir: u32, file: u32, call: Call, name: &[u8]) -> Result<(), Errno>
    requires good { FilesGood (kernel_of (T.memory store.old)) }
    ensures good { FilesGood (kernel_of (T.memory store.new)) }
{
    match call {
        Call::Add => add(store, dir, name, file),
        Call::Remove => remove(store, dir, name).map(|_inode| ()),
        Call::Replace => replace(store, dir, name, file).map(|_inode| ()),
    }
}

// Makes calls one after the other, and finds each answered as its row says, and no more promised or taken.
fn make_all<T: Store>(
    rt: &impl Abort,
    store: &mut T,
    dir: u32,
    file: u32,
    rows: &[(Call, &'static [u8], Result<(), Errno>)],
)
    requires good { FilesGood (kernel_of (T.memory store.old)) }
    ensures good { FilesGood (kernel_of (T.memory store.new)) }
{
    let length = length_of(store, dir);
    let pages = pages_of(store);
    for row in rows {
        assert!(rt; make(store, dir, file, row.0, row.1) == row.2);
        assert!(rt; length_of(store, dir) == length);
        assert!(rt; pages_of(store) == pages);
    }
}

#[test]
fn a_full_directory_takes_a_name_where_one_went(rt: HostRuntime) -> Result<(), Fail> {
    let mut store = machine(rt.alloc(), 64)?;
    let file = new_file(&rt, &mut store);
    let dir = new_directory(&rt, &mut store);
    add_names(&rt, &mut store, dir, file, 1024);
    assert!(rt; length_of(&store, dir) == Ok(32_768));
    assert!(rt;
        pages_of(&store)
            == Pages {
                promised: 9,
                taken: 8
            }
    );
    let rows = [
        (Call::Add, b"more".as_slice(), Err(Errno::Enospc)),
        (Call::Add, b"n0005".as_slice(), Err(Errno::Eexist)),
        (Call::Remove, b"n0002".as_slice(), Ok(())),
        (Call::Remove, b"n0002".as_slice(), Err(Errno::Enoent)),
        (Call::Replace, b"n0002".as_slice(), Err(Errno::Enoent)),
        (Call::Add, b"more".as_slice(), Ok(())),
        (Call::Replace, b"more".as_slice(), Ok(())),
        (Call::Add, b"again".as_slice(), Err(Errno::Enospc)),
    ];
    make_all(&rt, &mut store, dir, file, &rows);
    assert!(rt; find(&store, dir, b"n0002") == None);
    let mut entry = [0; 32];
    assert!(rt; list(&store, dir, 2, &mut entry) == Ok((32, 3)));
    assert!(rt; entry == entry_of(b"more", file));
    Ok(())
}

#[test]
fn a_directory_has_no_room_for_a_page_more_than_the_machine_has(
    rt: HostRuntime,
) -> Result<(), Fail> {
    let mut store = machine(rt.alloc(), 64)?;
    let file = new_file(&rt, &mut store);
    let dir = new_directory(&rt, &mut store);
    add_names(&rt, &mut store, dir, file, 128);
    assert!(rt; write(&mut store, file, 253_951, b"x") == Ok(1));
    assert!(rt;
        pages_of(&store)
            == Pages {
                promised: 64,
                taken: 2
            }
    );
    let rows = [
        (Call::Add, b"more".as_slice(), Err(Errno::Enospc)),
        (Call::Add, b"n0005".as_slice(), Err(Errno::Eexist)),
        (Call::Remove, b"n0002".as_slice(), Ok(())),
        (Call::Add, b"more".as_slice(), Ok(())),
        (Call::Add, b"again".as_slice(), Err(Errno::Enospc)),
    ];
    make_all(&rt, &mut store, dir, file, &rows);
    Ok(())
}

// Adds names of one letter.
fn add_letters<T: Store>(rt: &impl Abort, store: &mut T, dir: u32, inode: u32, letters: &[u8])
    requires good { FilesGood (kernel_of (T.memory store.old)) }
    ensures good { FilesGood (kernel_of (T.memory store.new)) }
{
    for letter in letters {
        assert!(rt; add(store, dir, &[*letter], inode) == Ok(()));
    }
}

// Each row is a place, how much room there is, how many bytes are written, the next place, and the letters of the entries: of five
// places that had a to e the second and the fourth are holes.
fn listings() -> [(u32, usize, u32, u32, [u8; 2]); 12] {
    [
        (0, 0, 0, 0, *b".."),
        (0, 31, 0, 0, *b".."),
        (0, 32, 32, 1, *b"a."),
        (0, 63, 32, 1, *b"a."),
        (0, 64, 64, 3, *b"ac"),
        (1, 31, 0, 1, *b".."),
        (1, 32, 32, 3, *b"c."),
        (1, 64, 64, 5, *b"ce"),
        (3, 63, 32, 5, *b"e."),
        (3, 64, 32, 5, *b"e."),
        (5, 64, 0, 5, *b".."),
        (9, 64, 0, 9, *b".."),
    ]
}

// The bytes of an entry: the number of its inode, how many bytes its name has, and the name with zeros behind it.
fn entry_of(name: &[u8], inode: u32) -> [u8; 32]
    requires { length name.now ≤ 27 }
{
    let mut entry = [0; 32];
    entry[..4].copy_from_slice(&inode.to_le_bytes());
    entry[4] = name.len() as u8;
    entry[5..5 + name.len()].copy_from_slice(name);
    entry
}

// The bytes of the entry of a letter, or dots where it is one.
fn letter_entry(letter: u8, inode: u32) -> [u8; 32] {
    if letter == b'.' {
        [b'.'; 32]
    } else {
        entry_of(&[letter], inode)
    }
}

// The bytes of two such entries.
fn letter_entries(letters: [u8; 2], inode: u32) -> [u8; 64] {
    let mut entries = [0; 64];
    entries[..32].copy_from_slice(&letter_entry(letters[0], inode));
    entries[32..].copy_from_slice(&letter_entry(letters[1], inode));
    entries
}

// Lists by all rows.
fn list_all<T: Store>(rt: &impl Abort, store: &T, dir: u32, inode: u32)
    requires good { FilesGood (kernel_of (T.memory store.now)) }
{
    for (place, room, count, after, letters) in listings() {
        let mut into = [b'.'; 64];
        let told = list(store, dir, place, &mut into[..room.min(64)]);
        assert!(rt; told == Ok((count, after)), "{place} {room}");
        assert!(rt; into == letter_entries(letters, inode), "{place} {room}");
    }
}

#[test]
fn listings_pass_over_holes_and_end_where_no_entry_fits(rt: HostRuntime) -> Result<(), Fail> {
    let mut store = machine(rt.alloc(), 64)?;
    let file = new_file(&rt, &mut store);
    let dir = new_directory(&rt, &mut store);
    add_letters(&rt, &mut store, dir, file, b"abcde");
    let rows = [
        (Call::Remove, b"b".as_slice(), Ok(())),
        (Call::Remove, b"d".as_slice(), Ok(())),
    ];
    make_all(&rt, &mut store, dir, file, &rows);
    list_all(&rt, &store, dir, file);
    Ok(())
}

// A place of a directory as a plain value: the number of a name and its inode.
#[derive(Clone, Copy, Debug, PartialEq, Eq)]
struct Named {
    name: u32,
    inode: u32,
}

// The place of a name.
fn place_of(places: &[Option<Named>], name: u32) -> Option<usize> {
    for place in 0..places.len() {
        match places[place] {
            Some(named) => {
                if named.name == name {
                    return Some(place);
                }
            }
            None => {}
        }
    }
    None
}

// The inode of a name.
fn inode_of_name(places: &[Option<Named>], name: u32) -> Option<u32> {
    match place_of(places, name) {
        Some(place) => places
            .get(place)
            .copied()
            .flatten()
            .map(|named| named.inode),
        None => None,
    }
}

// The first hole.
fn hole_of(places: &[Option<Named>]) -> Option<usize> {
    for place in 0..places.len() {
        if places[place].is_none() {
            return Some(place);
        }
    }
    None
}

// Writes a place of the list that is there.
fn set_place(places: &mut Vec<Option<Named>>, place: usize, value: Option<Named>) {
    match places.get_mut(place) {
        Some(there) => *there = value,
        None => {}
    }
}

// Adds a name to a directory and to the list.
fn add_one<T: Store>(
    rt: &impl Abort,
    store: &mut T,
    dir: u32,
    places: &mut Vec<Option<Named>>,
    named: Named,
) -> Result<(), AllocError>
    requires good { FilesGood (kernel_of (T.memory store.old)) }
    ensures good { FilesGood (kernel_of (T.memory store.new)) }
{
    let answer = add(store, dir, &numbered(named.name), named.inode);
    if place_of(places, named.name).is_some() {
        assert!(rt; answer == Err(Errno::Eexist));
        return Ok(());
    }
    assert!(rt; answer == Ok(()));
    match hole_of(places) {
        Some(place) => set_place(places, place, Some(named)),
        None => places.push(Some(named))?,
    }
    Ok(())
}

// Takes a name away, or gives it another inode.
fn change_one<T: Store>(
    rt: &impl Abort,
    store: &mut T,
    dir: u32,
    places: &mut Vec<Option<Named>>,
    named: Named,
    goes: bool,
)
    requires good { FilesGood (kernel_of (T.memory store.old)) }
    ensures good { FilesGood (kernel_of (T.memory store.new)) }
{
    let answer = if goes {
        remove(store, dir, &numbered(named.name))
    } else {
        replace(store, dir, &numbered(named.name), named.inode)
    };
    match place_of(places, named.name) {
        Some(place) => {
            assert!(rt; answer.ok() == inode_of_name(places, named.name));
            set_place(places, place, if goes { None } else { Some(named) });
        }
        None => assert!(rt; answer == Err(Errno::Enoent)),
    }
}

// One call on a directory.
fn act<T: Store>(
    rt: &impl Abort,
    store: &mut T,
    dir: u32,
    places: &mut Vec<Option<Named>>,
    files: &[u32; 2],
    random: &mut u32,
) -> Result<(), AllocError>
    requires good { FilesGood (kernel_of (T.memory store.old)) }
    ensures good { FilesGood (kernel_of (T.memory store.new)) }
{
    let named = Named {
        name: next(random, 300),
        inode: files[next(random, 2) as usize],
    };
    let choice = next(random, 8);
    if choice < 4 {
        return add_one(rt, store, dir, places, named);
    }
    change_one(rt, store, dir, places, named, choice < 7);
    Ok(())
}

// The directory has just the places of the list.
fn compare<T: Store>(rt: &impl Abort, store: &T, dir: u32, places: &[Option<Named>])
    requires good { FilesGood (kernel_of (T.memory store.now)) }
{
    assert!(rt; length_of(store, dir).ok() == Some((places.len() % 1025 * 32) as u32));
    for name in 0..300 {
        assert!(rt; find(store, dir, &numbered(name)) == inode_of_name(places, name));
    }
}

// So many calls.
fn walks<T: Store>(
    rt: &impl Abort,
    store: &mut T,
    dir: u32,
    places: &mut Vec<Option<Named>>,
    files: &[u32; 2],
) -> Result<(), AllocError>
    requires good { FilesGood (kernel_of (T.memory store.old)) }
    ensures good { FilesGood (kernel_of (T.memory store.new)) }
{
    let mut random = 1;
    for round in 0..3000 {
        act(rt, store, dir, places, files, &mut random)?;
        if round % 100 == 99 {
            compare(rt, store, dir, places);
        }
    }
    Ok(())
}

#[test]
fn a_directory_is_as_a_plain_list_of_places_after_3000_calls(rt: HostRuntime) -> Result<(), Fail> {
    let mut store = machine(rt.alloc(), 64)?;
    let files = [new_file(&rt, &mut store), new_file(&rt, &mut store)];
    let dir = new_directory(&rt, &mut store);
    let mut places = Vec::new(rt.alloc());
    walks(&rt, &mut store, dir, &mut places, &files)?;
    assert!(rt; places.len() > 128);
    Ok(())
}
