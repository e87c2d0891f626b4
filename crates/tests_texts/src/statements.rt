//! Lines of each form, and lines of none.
//!
//! Words of instructions and bytes of data are what LLVM's assembler (`llvm-mc` 14.0.6, `--arch=riscv32 --mattr=-c,-relax`)
//! makes of the same lines, but where a comment says that they are read otherwise there. The GNU assembler
//! (`riscv64-unknown-elf-as` 2.40, `-march=rv32i -mno-relax`, linked at 0x10000) makes the same words but for `call`, which
//! is two instructions there, `la`, which counts from the instruction there, and `li` where one instruction is enough there.

use crate::assembling::Form;
use crate::tables::{Case, Table, check_tables};
use rv_asm::AsmKind;
use std::test::Fail;

const WORDS_OF_UPPER_PARTS_LOADS_AND_STORES: &[u8] = b"\
lui a0, 0 => 00000537\n\
lui a0, 0xFFFFF => FFFFF537\n\
lui x31,1048575 => FFFFFFB7\n\
auipc x31,1 => 00001F97\n\
auipc\tsp, 0xabcde => ABCDE117\n\
jalr ra, -4(s11) => FFCD80E7\n\
jalr x0, 2047(x1) => 7FF08067\n\
jalr zero, 0(ra) => 00008067\n\
jalr t0 ,\t-0(t1) => 000302E7\n\
lb a0, 0(a1) => 00058503\n\
lh a2, -1(a3) => FFF69603\n\
lw t6, 2047(sp) => 7FF12F83\n\
lbu tp, 0x10(gp) => 0101C203\n\
lhu s4, -2048(s5) => 800ADA03\n\
lw x10, 0x000007fF(x10) => 7FF52503\n\
sb a0, 0(a1) => 00A58023\n\
sh s0 , -2048(a7) => 80889023\n\
sw ra, 2047(sp) => 7E112FA3\n\
sw x5,31(x6) => 00532FA3\n\
sb s9, -33(s10) => FD9D0FA3\n\
lui a0, -0 => 00000537\n\
";

const WORDS_OF_OPERATIONS: &[u8] = b"\
addi a0, a0, -1 => FFF50513\n\
addi sp, sp, -2048 => 80010113\n\
addi sp,sp,2047 => 7FF10113\n\
addi x1, x2, 0x7ff => 7FF10093\n\
slti a0, a1, 2 => 0025A513\n\
sltiu a2, a3, -2 => FFE6B613\n\
xori t0, t1, -1 => FFF34293\n\
ori t3, t4, 0x555 => 555EEE13\n\
andi s6, s7, 255 => 0FFBFB13\n\
slli a0, a0, 0 => 00051513\n\
slli a0, a0, 31 => 01F51513\n\
srli t0, t1, 1 => 00135293\n\
srli t5, t6, 0x1F => 01FFDF13\n\
srai s2, s3, 31 => 41F9D913\n\
srai a4, a5, 16 => 4107D713\n\
add a0, a1, a2 => 00C58533\n\
sub\ta1,\ta2 ,a3 => 40D605B3\n\
sll t0, t1, t2 => 007312B3\n\
slt a3, a4, a5 => 00F726B3\n\
sltu a6, a7, s2 => 0128B833\n\
xor s3, s4, s5 => 015A49B3\n\
srl s6, s7, s8 => 018BDB33\n\
sra s9, s10, s11 => 41BD5CB3\n\
or t3, t4, t5 => 01EEEE33\n\
and t6, zero, ra => 00107FB3\n\
sub x31, x30, x29 => 41DF0FB3\n\
slli a0, a0, -0 => 00051513\n\
sltiu a0, a0, 0xa => 00A53513\n\
";

const WORDS_OF_SYSTEM_INSTRUCTIONS_AND_SHORT_FORMS: &[u8] = b"\
fence => 0FF0000F\n\
ecall => 00000073\n\
ebreak => 00100073\n\
nop => 00000013\n\
ret => 00008067\n\
mv t2, x8 => 00040393\n\
mv a0, zero => 00000513\n\
li a0, 0 => 00000513\n\
li a0, -0 => 00000513\n\
li a0, 2047 => 7FF00513\n\
li a0, -2048 => 80000513\n\
li t6, 0x7FF => 7FF00F93\n\
";

const BLANKS_COMMENTS_AND_LABELS_AROUND_A_STATEMENT: &[u8] = b"\
\x20 nop => 00000013\n\
\tnop\t => 00000013\n\
\x20\t nop \t# and a comment => 00000013\n\
nop# => 00000013\n\
nop #\tli a0, 1 => 00000013\n\
nop # \" => 00000013\n\
_: nop => 00000013\n\
loop:nop => 00000013\n\
# only: a comment|nop => 00000013\n\
\x20loop:\t nop # : => 00000013\n\
";

const REGISTERS_BY_NUMBER_AND_BY_NAME: &[u8] = b"\
mv x0, zero => 00000013\n\
mv x1, ra => 00008093\n\
mv x2, sp => 00010113\n\
mv x3, gp => 00018193\n\
mv x4, tp => 00020213\n\
mv x5, t0 => 00028293\n\
mv x6, t1 => 00030313\n\
mv x7, t2 => 00038393\n\
mv x8, s0 => 00040413\n\
mv x9, s1 => 00048493\n\
mv x10, a0 => 00050513\n\
mv x11, a1 => 00058593\n\
mv x12, a2 => 00060613\n\
mv x13, a3 => 00068693\n\
mv x14, a4 => 00070713\n\
mv x15, a5 => 00078793\n\
mv x16, a6 => 00080813\n\
mv x17, a7 => 00088893\n\
mv x18, s2 => 00090913\n\
mv x19, s3 => 00098993\n\
mv x20, s4 => 000A0A13\n\
mv x21, s5 => 000A8A93\n\
mv x22, s6 => 000B0B13\n\
mv x23, s7 => 000B8B93\n\
mv x24, s8 => 000C0C13\n\
mv x25, s9 => 000C8C93\n\
mv x26, s10 => 000D0D13\n\
mv x27, s11 => 000D8D93\n\
mv x28, t3 => 000E0E13\n\
mv x29, t4 => 000E8E93\n\
mv x30, t5 => 000F0F13\n\
mv x31, t6 => 000F8F93\n\
";

// `call` is read there as `jal ra`. A label that has the name of a register is another name there.
const WORDS_OF_JUMPS_AND_BRANCHES: &[u8] = b"\
a: j a => 0000006F\n\
a:|j a => 0000006F\n\
j a|a: nop => 0040006F 00000013\n\
nop|a: nop|jal t0, a => 00000013 00000013 FFDFF2EF\n\
jal x31, b|nop|nop|b: nop => 00C00FEF 00000013 00000013 00000013\n\
beq a0, a1, a|nop|a: nop => 00B50463 00000013 00000013\n\
a: bne s0, s1, a => 00941063\n\
a: nop|blt t0, t1, a => 00000013 FE62CEE3\n\
bge t2, t3, z_9|z_9: nop => 01C3D263 00000013\n\
nop|b0: nop|bltu t4, t5, b0 => 00000013 00000013 FFEEEEE3\n\
bgeu a0, a1, end|nop|nop|end: ebreak => 00B57663 00000013 00000013 00100073\n\
beqz a0, end|end: nop => 00050263 00000013\n\
a: nop|bnez t6, a => 00000013 FE0F9EE3\n\
A: nop|a: j A => 00000013 FFDFF06F\n\
add: add a0, a1, a2|j add => 00C58533 FFDFF06F\n\
f: call f => 000000EF\n\
call main|main: ret => 004000EF 00008067\n\
a0: nop|jal a0, a0 => 00000013 FFDFF56F\n\
j x32|x32: nop => 0040006F 00000013\n\
j _x9|_x9:nop => 0040006F 00000013\n\
j nnnnnnnnnnnnnnnnnnnnnnnnnnnnnnnnnnnnnnnnnnnnnnnnnnnnnnnnnnnnnnnn|nnnnnnnnnnnnnnnnnnnnnnnnnnnnnnnnnnnnnnnnnnnnnnnnnnnnnnnnnnnnnnnn: nop => 0040006F 00000013\n\
";

// The lui and addi of each `li` and `la` are worked out by hand, since LLVM leaves one away where it is not needed: lui has
// the upper twenty bits of the number plus 0x800, and addi what is lacking. LLVM gives their words.
const NUMBERS_AND_ADDRESSES_IN_TWO_INSTRUCTIONS: &[u8] = b"\
li t0, 2048 => 000012B7 80028293\n\
li t0, 0x1000 => 000012B7 00028293\n\
li t0, 4095 => 000012B7 FFF28293\n\
li t0, -2049 => FFFFF2B7 7FF28293\n\
li t0, 0x7FFFFFFF => 800002B7 FFF28293\n\
li t0, 2147483648 => 800002B7 00028293\n\
li t0, -2147483648 => 800002B7 00028293\n\
li t0, 4294967295 => 000002B7 FFF28293\n\
li t0, 0xFFFFFFFF => 000002B7 FFF28293\n\
li t0, 0xFFFFF800 => 000002B7 80028293\n\
li t0, 0xFFFFF7FF => FFFFF2B7 7FF28293\n\
li t0, 0x12345FFF => 123462B7 FFF28293\n\
li t0, 0xdeadBEEF => DEADC2B7 EEF28293\n\
li zero, 0x0000000000001800 => 00002037 80000013\n\
a: la a0, a => 00010537 00050513\n\
la s11, b|b: nop => 00010DB7 008D8D93 00000013\n\
nop|c: nop|la a0, c => 00000013 00000013 00010537 00450513\n\
li a0, 4096|j a|a: nop => 00001537 00050513 0040006F 00000013\n\
la a0, a|beq a0, a1, a|a: nop => 00010537 00C50513 00B50263 00000013\n\
";

const BYTES_OF_NUMBERS_AND_ZEROS: &[u8] = b"\
.word 0xdeadBEEF => EF BE AD DE\n\
.word -1 => FF FF FF FF\n\
.word -2147483648 => 00 00 00 80\n\
.word 4294967295 => FF FF FF FF\n\
.word 0 => 00 00 00 00\n\
.word\t-0 => 00 00 00 00\n\
.byte -128 => 80\n\
.byte 255 => FF\n\
.byte 0x7F # c => 7F\n\
d: .byte 1|.align 0|.byte 2 => 01 02\n\
.byte 1|.align 1|.byte 2 => 01 00 02\n\
.byte 1|.align 2|.word 2 => 01 00 00 00 02 00 00 00\n\
.align\t12 => \n\
.byte 1|.align\t3 => 01 00 00 00 00 00 00 00\n\
.word 1|.align 2|.byte 3 => 01 00 00 00 03\n\
.align 12 => \n\
.space 0 => \n\
.space 5 => 00 00 00 00 00\n\
.space 0x3|.byte 1 => 00 00 00 01\n\
# only|| \t|.byte 9 => 09\n\
.data => \n\
.byte 1|.data|.byte 2 => 01 02\n\
x:|y: .byte 1|X: # c => 01\n\
.space -0|.byte 1 => 01\n\
.align -0|.byte 1 => 01\n\
.byte -1|.byte 1|.byte 0xfF => FF 01 FF\n\
";

const BYTES_OF_TEXT_BETWEEN_QUOTES: &[u8] = b"\
.ascii \"\" => \n\
.ascii \"a\" => a\n\
.ascii \"a, #b ~\" => a, #b ~\n\
.ascii \"a#b\" # c => a#b\n\
.ascii \"\\n\\\\\\\"\" => |\\\"\n\
.ascii \"\\\"#\" # \" => \"#\n\
.ascii \"\\\\\"# x => \\\n\
\x20 .ascii \t \" \"\t =>  \n\
.ascii \",,\"|.ascii \"x:y\" => ,,x:y\n\
t: .ascii \"a: b\"  => a: b\n\
.ascii \"nop # \\\" .word 1\" => nop # \" .word 1\n\
.ascii \"a\\\" # \" => a\" # \n\
.ascii \"\\\\n\" => \\n\n\
.ascii \"'(),:;\" => '(),:;\n\
";

const WORDS_AND_REGISTERS_OF_NO_FORM_IN_THE_TEXT: &[u8] = b"\
NOP\n\
Nop\n\
nop a0\n\
nop,\n\
, nop\n\
nop;nop\n\
nop // c\n\
nop nop\n\
add\n\
add a0, a1\n\
add a0, a1, a2, a3\n\
add a0 a1 a2\n\
add a0, a1 a2\n\
add a0,, a2\n\
add a0, a1,\n\
add ,a1, a2\n\
add,a0, a1, a2\n\
adda0, a1, a2\n\
add a0, a1, 1\n\
add fp, a1, a2\n\
add x00, a1, a2\n\
add a1, x01, a2\n\
add a1, a2, x32\n\
add x32, a1, a2\n\
add X1, a1, a2\n\
add A0, a1, a2\n\
add a8, a1, a2\n\
add t7, a1, a2\n\
add s12, a1, a2\n\
add x, a1, a2\n\
add x-1, a1, a2\n\
add 1, a1, a2\n\
";

const NUMBERS_OF_NO_FORM_IN_THE_TEXT: &[u8] = b"\
addi a0, a0\n\
addi a0, a0,\n\
addi a0, a0, a1\n\
addi a0, a0, a\n\
addi a0, a0, 00\n\
addi a0, a0, 01\n\
addi a0, a0, -01\n\
addi a0, a0, +1\n\
addi a0, a0, - 1\n\
addi a0, a0, --1\n\
addi a0, a0, -\n\
addi a0, a0, 0X1\n\
addi a0, a0, -0x1\n\
addi a0, a0, 0x\n\
addi a0, a0, 0xg\n\
addi a0, a0, 1_0\n\
addi a0, a0, 0b1\n\
addi a0, a0, 'a'\n\
addi a0, a0, 1 2\n\
addi a0, a0, 1+1\n\
";

const PLACES_AND_TARGETS_OF_NO_FORM_IN_THE_TEXT: &[u8] = b"\
lw a0, (sp)\n\
lw a0, 4 (sp)\n\
lw a0, 4( sp)\n\
lw a0, 4(sp )\n\
lw a0, 4(sp\n\
lw a0, 4 sp\n\
lw a0, 4[sp]\n\
lw a0, 4(sp)a\n\
lw a0, 4((sp))\n\
lw a0, 4(sp), 0\n\
lw a0, a\n\
lw a0, a(sp)\n\
lw 4(sp), a0\n\
sw a0\n\
sw a0, 4()\n\
jalr ra\n\
jalr ra, sp, 0\n\
jal a\n\
jal ra, 8\n\
jal ra, sp, a\n\
j\n\
j a, a\n\
j 1a\n\
j a b\n\
j .\n\
j a+4\n\
j \"a\"\n\
j nnnnnnnnnnnnnnnnnnnnnnnnnnnnnnnnnnnnnnnnnnnnnnnnnnnnnnnnnnnnnnnnn\n\
call\n\
call ra, a\n\
beq a0, a\n\
beq a0, a1\n\
beq a0, a1, 8\n\
beq a0, a1, a, a\n\
beqz a\n\
beqz a0, a1, a\n\
bnez a0\n\
";

const SHORT_FORMS_AND_INSTRUCTIONS_OF_NO_FORM_IN_THE_TEXT: &[u8] = b"\
li a0\n\
li a0, a\n\
li 1, a0\n\
li a0, 1, 2\n\
la a0\n\
la a0, 4096\n\
la a, a0\n\
mv a0\n\
mv a0, 1\n\
mv a0, a1, a2\n\
ret ra\n\
fence rw, rw\n\
ecall 0\n\
ebreak 1\n\
lui a0\n\
lui a0, a\n\
auipc 1\n\
slli a0, a0, a1\n\
mul a0, a1, a2\n\
fence.i\n\
not a0, a1\n\
jr ra\n\
bgt a0, a1, a\n\
subi a0, a0, 1\n\
csrr a0, time\n\
";

const BYTES_DIRECTIVES_AND_LABELS_OF_NO_FORM_IN_THE_TEXT: &[u8] = b"\
nop\r\n\
\r\n\
nop\x00\n\
\x80\n\
n\xC3\xB6p\n\
\"nop\"\n\
.word 1\n\
.byte 1\n\
.ascii \"a\"\n\
.space 4\n\
.align 2\n\
.text 1\n\
.text,\n\
.data 0\n\
.TEXT\n\
.globl a\n\
.section .text\n\
text\n\
:nop\n\
:\n\
1b: nop\n\
b-c: nop\n\
.b: nop\n\
b : nop\n\
b c: nop\n\
b: c: nop\n\
b:: nop\n\
\"b\": nop\n\
b\xC3\xA4: nop\n\
b\n\
b :\n\
nnnnnnnnnnnnnnnnnnnnnnnnnnnnnnnnnnnnnnnnnnnnnnnnnnnnnnnnnnnnnnnnn: nop\n\
b: NOP\n\
";

const LINES_OF_NO_FORM_IN_THE_DATA: &[u8] = b"\
nop\n\
li a0, 1\n\
j a\n\
.word\n\
.word 1, 2\n\
.word a\n\
.word 1 2\n\
.word 01\n\
.word \"a\"\n\
.word1\n\
. word 1\n\
.word,1\n\
.WORD 1\n\
word 1\n\
.byte\n\
.byte 1, 2\n\
.byte 'a'\n\
.space\n\
.space 4, 0\n\
.space a\n\
.align\n\
.align 2, 0\n\
.align a\n\
.ascii\n\
.ascii a\n\
.ascii \"a\n\
.ascii a\"\n\
.ascii \"\n\
.ascii \"a\" b\n\
.ascii \"a\", \"b\"\n\
.ascii \"a\"\"b\"\n\
.ascii \"a\",\n\
.ascii \"\\t\"\n\
.ascii \"\\0\"\n\
.ascii \"\\N\"\n\
.ascii \"a\\\"\n\
.ascii \"\t\"\n\
.ascii \"\r\"\n\
.ascii \"\x1F\"\n\
.ascii \"\x7F\"\n\
.ascii \"\x80\"\n\
.ascii \"\xC3\xA4\"\n\
.ascii\"a\"\n\
.ascii 'a'\n\
.ascii \"#\n\
.ascii \"a\" \"#\"\n\
.asciz \"a\"\n\
.string \"a\"\n\
.half 1\n\
.word 1\r\n\
.data x\n\
.text x\n\
1\n\
b: .word\n\
1b: .word 1\n\
";

const NUMBERS_THAT_DO_NOT_FIT_IN_TEXT: &[u8] = b"\
addi a0, a0, 2048\n\
addi a0, a0, -2049\n\
addi a0, a0, 0xFFF\n\
addi a0, a0, 0xFFFFFFFF\n\
slti a0, a0, 2048\n\
andi a0, a0, -2049\n\
lw a0, 2048(sp)\n\
lbu a0, -2049(sp)\n\
lw a0, -2049(sp)\n\
sw a0, 2048(sp)\n\
sb a0, -2049(sp)\n\
jalr ra, 0x800(ra)\n\
slli a0, a0, 32\n\
srli a0, a0, 0x20\n\
srai a0, a0, -1\n\
lui a0, 0x100000\n\
lui a0, -1\n\
auipc a0, 1048576\n\
auipc a0, -1\n\
li a0, 4294967296\n\
li a0, 0x100000000\n\
li a0, -2147483649\n\
li a0, 123456789012345678901234567890\n\
li a0, -123456789012345678901234567890\n\
li a0, 0x000123456789012345678901234567890\n\
li a0, 18446744073709551616\n\
li a0, 0x10000000000000000\n\
";

const NUMBERS_THAT_DO_NOT_FIT_IN_DATA: &[u8] = b"\
.word 4294967296\n\
.word 0x100000000\n\
.word -2147483649\n\
.word 18446744073709551617\n\
.byte 256\n\
.byte 0x100\n\
.byte -129\n\
.byte 4294967297\n\
.space -1\n\
.space 1048577\n\
.space 4294967296\n\
.space 18446744073709551616\n\
.align 13\n\
.align -1\n\
.align 32\n\
.align 4294967296\n\
";

const LABELS_THAT_NO_LINE_HAS: &[u8] = b"\
j b\n\
jal ra, b\n\
call b\n\
beq a0, a1, b\n\
beqz a0, b\n\
bnez a0, b\n\
la a0, b\n\
j A\n\
j aa\n\
";

const TABLES: &[Table] = &[
    (
        Case::Parts(Form::Parts),
        WORDS_OF_UPPER_PARTS_LOADS_AND_STORES,
    ),
    (Case::Parts(Form::Parts), WORDS_OF_OPERATIONS),
    (
        Case::Parts(Form::Parts),
        WORDS_OF_SYSTEM_INSTRUCTIONS_AND_SHORT_FORMS,
    ),
    (
        Case::Parts(Form::Parts),
        BLANKS_COMMENTS_AND_LABELS_AROUND_A_STATEMENT,
    ),
    (Case::Parts(Form::Parts), REGISTERS_BY_NUMBER_AND_BY_NAME),
    (Case::Parts(Form::Parts), WORDS_OF_JUMPS_AND_BRANCHES),
    (
        Case::Parts(Form::Parts),
        NUMBERS_AND_ADDRESSES_IN_TWO_INSTRUCTIONS,
    ),
    (Case::Parts(Form::Bytes), BYTES_OF_NUMBERS_AND_ZEROS),
    (Case::Parts(Form::Text), BYTES_OF_TEXT_BETWEEN_QUOTES),
    (
        Case::Refused(b"a: nop\n", AsmKind::Syntax, 2),
        WORDS_AND_REGISTERS_OF_NO_FORM_IN_THE_TEXT,
    ),
    (
        Case::Refused(b"a: nop\n", AsmKind::Syntax, 2),
        NUMBERS_OF_NO_FORM_IN_THE_TEXT,
    ),
    (
        Case::Refused(b"a: nop\n", AsmKind::Syntax, 2),
        PLACES_AND_TARGETS_OF_NO_FORM_IN_THE_TEXT,
    ),
    (
        Case::Refused(b"a: nop\n", AsmKind::Syntax, 2),
        SHORT_FORMS_AND_INSTRUCTIONS_OF_NO_FORM_IN_THE_TEXT,
    ),
    (
        Case::Refused(b"a: nop\n", AsmKind::Syntax, 2),
        BYTES_DIRECTIVES_AND_LABELS_OF_NO_FORM_IN_THE_TEXT,
    ),
    (
        Case::Refused(b"a: nop\n.data\n", AsmKind::Syntax, 3),
        LINES_OF_NO_FORM_IN_THE_DATA,
    ),
    (
        Case::Refused(b"a: nop\n", AsmKind::OutOfRange, 2),
        NUMBERS_THAT_DO_NOT_FIT_IN_TEXT,
    ),
    (
        Case::Refused(b"a: nop\n.data\n", AsmKind::OutOfRange, 3),
        NUMBERS_THAT_DO_NOT_FIT_IN_DATA,
    ),
    (
        Case::Refused(b"a: nop\n", AsmKind::UnknownLabel, 2),
        LABELS_THAT_NO_LINE_HAS,
    ),
];

#[test]
fn statements_become_their_parts_or_are_refused(rt: HostRuntime) -> Result<(), Fail> {
    check_tables(rt.alloc(), TABLES)
}
