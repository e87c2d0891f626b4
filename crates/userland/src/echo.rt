//! A program that writes its arguments.

/// Writes its arguments after the first as a line.
pub const ECHO: &[u8] = b"\
# echo: writes its arguments after the first, with one space between them, and a line feed.
#
#   sp          the line: all strings of a process have at most 4,096 bytes with the zeros behind them
#   s0          how many arguments are left
#   s1          where the next one's address stands
#   s2          where the line's next byte goes

        addi s0, a0, -1
        addi s1, a1, 4
        li   t0, 4096
        sub  sp, sp, t0
        mv   s2, sp
        li   s3, 32             # a space
        bge  zero, s0, line

word:   lw   t0, 0(s1)
byte:   lbu  t1, 0(t0)
        beqz t1, next
        sb   t1, 0(s2)
        addi t0, t0, 1
        addi s2, s2, 1
        j    byte
next:   addi s1, s1, 4
        addi s0, s0, -1
        beqz s0, line
        sb   s3, 0(s2)
        addi s2, s2, 1
        j    word

line:   li   t0, 10             # a line feed
        sb   t0, 0(s2)
        mv   a1, sp
        addi a2, s2, 1
        sub  a2, a2, sp
write:  li   a0, 1
        li   a7, 12             # write
        ecall
        blt  a0, zero, refused
        add  a1, a1, a0
        sub  a2, a2, a0
        bnez a2, write
        li   a0, 0
exit:   li   a7, 1              # exit
        ecall

refused:
        li   a0, 1
        j    exit
";
