//! Words of each format (RISC-V Unprivileged ISA, 2.2 and 2.3).

ghost use Rattle.std.specs.Prelude.{◌<◌};
ghost use Rattle.rv_decode.specs.Fits.{IsRegister, IsSigned, IsEven, IsUpper, IsAmount};
ghost use Rattle.rv_decode.specs.Spelled.{SpellsR, SpellsI, SpellsS, SpellsB, SpellsU, SpellsJ, SpellsShift};

/// A word of format R.
pub fn format_r(opcode: u32, upper: u32, number: u32, rd: u8, rs1: u8, rs2: u8) -> u32
    requires opcode_fits { opcode < 128 }
    requires upper_fits { upper < 128 }
    requires number_fits { number < 8 }
    requires rd_fits { IsRegister rd }
    requires rs1_fits { IsRegister rs1 }
    requires rs2_fits { IsRegister rs2 }
    ensures { SpellsR result opcode upper number rd rs1 rs2 }
{
    upper * 33554432
        + u32::from(rs2) * 1048576
        + u32::from(rs1) * 32768
        + number * 4096
        + u32::from(rd) * 128
        + opcode
}

/// A word of a shift by an immediate: format R with the amount in the place of `rs2`.
pub fn format_shift(opcode: u32, upper: u32, number: u32, rd: u8, rs1: u8, imm: i32) -> u32
    requires opcode_fits { opcode < 128 }
    requires upper_fits { upper < 128 }
    requires number_fits { number < 8 }
    requires rd_fits { IsRegister rd }
    requires rs1_fits { IsRegister rs1 }
    requires imm_fits { IsAmount imm }
    ensures { SpellsShift result opcode upper number rd rs1 imm }
{
    upper * 33554432
        + imm.cast_unsigned() * 1048576
        + u32::from(rs1) * 32768
        + number * 4096
        + u32::from(rd) * 128
        + opcode
}

/// A word of format I.
pub fn format_i(opcode: u32, number: u32, rd: u8, rs1: u8, imm: i32) -> u32
    requires opcode_fits { opcode < 128 }
    requires number_fits { number < 8 }
    requires rd_fits { IsRegister rd }
    requires rs1_fits { IsRegister rs1 }
    requires imm_fits { IsSigned 12 imm }
    ensures { SpellsI result opcode number rd rs1 imm }
{
    let bits = imm.cast_unsigned() % 4096;
    bits * 1048576 + u32::from(rs1) * 32768 + number * 4096 + u32::from(rd) * 128 + opcode
}

/// A word of format S.
pub fn format_s(opcode: u32, number: u32, rs1: u8, rs2: u8, imm: i32) -> u32
    requires opcode_fits { opcode < 128 }
    requires number_fits { number < 8 }
    requires rs1_fits { IsRegister rs1 }
    requires rs2_fits { IsRegister rs2 }
    requires imm_fits { IsSigned 12 imm }
    ensures { SpellsS result opcode number rs1 rs2 imm }
{
    let bits = imm.cast_unsigned() % 4096;
    bits / 32 * 33554432
        + u32::from(rs2) * 1048576
        + u32::from(rs1) * 32768
        + number * 4096
        + bits % 32 * 128
        + opcode
}

/// A word of format B.
pub fn format_b(opcode: u32, number: u32, rs1: u8, rs2: u8, imm: i32) -> u32
    requires opcode_fits { opcode < 128 }
    requires number_fits { number < 8 }
    requires rs1_fits { IsRegister rs1 }
    requires rs2_fits { IsRegister rs2 }
    requires imm_fits { IsSigned 13 imm }
    requires imm_even { IsEven imm }
    ensures { SpellsB result opcode number rs1 rs2 imm }
{
    let bits = imm.cast_unsigned() % 8192;
    bits / 4096 * 2147483648
        + bits / 32 % 64 * 33554432
        + u32::from(rs2) * 1048576
        + u32::from(rs1) * 32768
        + number * 4096
        + bits / 2 % 16 * 256
        + bits / 2048 % 2 * 128
        + opcode
}

/// A word of format U.
pub fn format_u(opcode: u32, rd: u8, imm: u32) -> u32
    requires opcode_fits { opcode < 128 }
    requires rd_fits { IsRegister rd }
    requires imm_fits { IsUpper imm }
    ensures { SpellsU result opcode rd imm }
{
    imm / 4096 * 4096 + u32::from(rd) * 128 + opcode
}

/// A word of format J.
pub fn format_j(opcode: u32, rd: u8, imm: i32) -> u32
    requires opcode_fits { opcode < 128 }
    requires rd_fits { IsRegister rd }
    requires imm_fits { IsSigned 21 imm }
    requires imm_even { IsEven imm }
    ensures { SpellsJ result opcode rd imm }
{
    let bits = imm.cast_unsigned() % 2097152;
    bits / 1048576 * 2147483648
        + bits / 2 % 1024 * 2097152
        + bits / 2048 % 2 * 1048576
        + bits / 4096 % 256 * 4096
        + u32::from(rd) * 128
        + opcode
}
