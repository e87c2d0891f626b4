//! A program that counts.

/// Counts the lines, words and bytes of its input.
pub const WC: &[u8] = b"\
# wc: writes how many line feeds, words and bytes its input has, in decimal, with a space between them and a line feed
# behind. Words stand between spaces, tabs and line feeds.
#
#   sp          the line that it writes: three numbers of at most ten digits
#   sp + 48     the buffer, 4,096 bytes
#   s0, s1, s2  the line feeds, words and bytes
#   s3          1 where a word would begin at the next byte, else 0
#   s4          where the next byte of the line goes

        li   t0, 4144
        sub  sp, sp, t0
        li   s0, 0
        li   s1, 0
        li   s2, 0
        li   s3, 1
        li   t4, 10             # a line feed
        li   t5, 32             # a space
        li   t6, 9              # a tab

read:   li   a0, 0
        addi a1, sp, 48
        li   a2, 4096
        li   a7, 11             # read
        ecall
        beqz a0, tell
        blt  a0, zero, refused
        add  s2, s2, a0
        add  a0, a1, a0         # where the bytes end
byte:   lbu  t1, 0(a1)
        addi a1, a1, 1
        beq  t1, t4, feed
        beq  t1, t5, blank
        beq  t1, t6, blank
        add  s1, s1, s3
        li   s3, 0
        bne  a1, a0, byte
        j    read
feed:   addi s0, s0, 1
blank:  li   s3, 1
        bne  a1, a0, byte
        j    read

tell:   mv   s4, sp
        mv   a0, s0
        mv   a1, t5
        call number
        mv   a0, s1
        call number
        mv   a0, s2
        mv   a1, t4
        call number
        mv   a1, sp
        sub  a2, s4, sp
write:  li   a0, 1
        li   a7, 12             # write
        ecall
        blt  a0, zero, refused
        add  a1, a1, a0
        sub  a2, a2, a0
        bnez a2, write
        li   a0, 0
exit:   li   a7, 1              # exit
        ecall

refused:
        li   a0, 1
        j    exit

# Adds the number a0 in decimal, and the byte a1, to the line. A digit is how often its power of ten can be taken away.
number: la   t0, powers
        li   t3, 0              # whether a digit was written
power:  lw   t1, 0(t0)
        beqz t1, units
        addi t0, t0, 4
        li   t2, 48             # the digit 0
        bltu a0, t1, digit
take:   sub  a0, a0, t1
        addi t2, t2, 1
        bgeu a0, t1, take
        li   t3, 1
digit:  beqz t3, power          # no zeros before the first other digit
        sb   t2, 0(s4)
        addi s4, s4, 1
        j    power
units:  addi a0, a0, 48
        sb   a0, 0(s4)
        sb   a1, 1(s4)
        addi s4, s4, 2
        ret

        .data
powers: .word 1000000000
        .word 100000000
        .word 10000000
        .word 1000000
        .word 100000
        .word 10000
        .word 1000
        .word 100
        .word 10
        .word 0
";
