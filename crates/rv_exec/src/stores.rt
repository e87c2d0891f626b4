//! Sizes and values of stores (RISC-V Unprivileged ISA, 2.6).

ghost use Rattle.std.specs.Prelude.{◌≡◌, ◌*◌, ◌^◌, ◌<◌};
ghost use Rattle.unix_model.specs.Execution.{store_size as store_size_of, store_value as store_value_of};
ghost use Rattle.rv_exec.specs.Asked.{IsSize};

use unix_model::StoreOp;

/// How many bytes a store writes.
pub fn store_size(op: StoreOp) -> u8
    ensures size { result ≡ store_size_of op }
    ensures range { IsSize result }
{
    match op {
        StoreOp::Sb => 1,
        StoreOp::Sh => 2,
        StoreOp::Sw => 4,
    }
}

/// The bytes that a store writes, as a number.
pub fn store_value(op: StoreOp, word: u32) -> u32
    ensures value { result ≡ store_value_of op word }
    ensures range { result < 2 ^ (8 * store_size_of op) }
{
    match op {
        StoreOp::Sb => word % 0x100,
        StoreOp::Sh => word % 0x1_0000,
        StoreOp::Sw => word,
    }
}
