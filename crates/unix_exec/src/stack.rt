//! The bytes of the stack of a program at its start.

ghost use Rattle.std.specs.Prelude.{◌≡◌, ℕ, ◌+◌, ◌≤◌, ◌^◌, List, ◌++◌, [], true, if◌then◌else◌, length};
ghost use Rattle.std.specs.Int.{to_le_bytes, w32};
ghost use Rattle.arrayvec.specs.ArrayVec.{array_vec_len};
ghost use Rattle.unix_model.specs.Loading.{stack_bytes};
ghost use Rattle.unix_exec.specs.Start.{AreStrings};
ghost use Rattle.unix_exec.specs.Addresses.{addresses_from};

use arrayvec::ArrayVec;

// Appends bytes, for which there is room.
fn append(bytes: &mut ArrayVec<u8, 4192>, more: &[u8])
    requires room { array_vec_len bytes.old + length more.now ≤ 4192 }
    ensures items { bytes.new.items ≡ bytes.old.items ++ more.now }
    ensures len { array_vec_len bytes.new ≡ array_vec_len bytes.old + length more.now }
{
    match bytes.try_extend_from_slice(more) {
        Ok(()) => {}
        Err(_full) => {}
    }
}

// Appends an address where a string begins.
fn append_address(bytes: &mut ArrayVec<u8, 4192>, begins: bool, address: u32)
    requires room { array_vec_len bytes.old + 4 ≤ 4192 }
    ensures items { bytes.new.items ≡ bytes.old.items ++ (if begins then to_le_bytes w32 address else []) }
{
    if begins {
        append(bytes, &address.to_le_bytes());
    }
}

// Appends the address of each string, where the first one begins at an address.
fn append_addresses(bytes: &mut ArrayVec<u8, 4192>, start: u32, strings: &[u8])
    requires room { array_vec_len bytes.old + length (addresses_from true start strings.now) + 4 ≤ 4192 }
    requires low { start + length strings.now ≤ 2 ^ 31 }
    ensures items { bytes.new.items ≡ bytes.old.items ++ addresses_from true start strings.now }
{
    let mut begins = true;
    let mut address = start;
    for byte in strings {
        append_address(bytes, begins, address);
        begins = *byte == 0;
        address += 1;
    }
}

/// The bytes of the stack of a program, from its stack pointer to the end, with these strings, each of which has a NUL after it:
/// their number, their addresses, two zero words, zeros up to the strings, and the strings.
pub fn start_bytes(count: u8, strings: &[u8]) -> ArrayVec<u8, 4192>
    requires strings { (list : List (List ℕ)) × AreStrings strings.now count list }
    requires few { count ≤ 16 }
    requires short { length strings.now ≤ 4096 }
    ensures { (list : List (List ℕ)) → AreStrings strings.now count list → result.items ≡ stack_bytes list }
{
    let start = 0x8000_0000 - strings.len() as u32;
    let mut bytes = ArrayVec::new();
    append(&mut bytes, &(count as u32).to_le_bytes());
    append_addresses(&mut bytes, start, strings);
    append(&mut bytes, &[0; 8]);
    let between = (start as usize - bytes.len()) % 16;
    let zeros = [0; 16];
    append(&mut bytes, &zeros[..between]);
    append(&mut bytes, strings);
    bytes
}
