//! A program that lists a directory.

/// Writes the names of a directory's entries.
pub const LS: &[u8] = b"\
# ls: writes the names of the entries of the directory that its first argument names, or of the root, with a line feed
# behind each, in the order of their places.
#
#   sp          entries as getdents gives them, 32 bytes each: an inode, the length of the name, the name. A name and its
#               line feed have at most 28 bytes, so the names are moved to the front of the same buffer
#   sp + 4096   the path of the root
#   s0          the directory's descriptor

        li   t0, 4112
        sub  sp, sp, t0
        li   t1, 2
        blt  a0, t1, root
        lw   a0, 4(a1)
        j    open
root:   addi a0, sp, 2047
        addi a0, a0, 2047
        li   t1, 47             # a slash
        sb   t1, 2(a0)
        sb   zero, 3(a0)
        addi a0, a0, 2
open:   li   a1, 0              # to read
        li   a7, 9              # open
        ecall
        blt  a0, zero, refused
        mv   s0, a0

list:   mv   a0, s0
        mv   a1, sp
        li   a2, 4096
        li   a7, 23             # getdents
        ecall
        beqz a0, exit
        blt  a0, zero, refused
        add  t0, sp, a0         # where the entries end
        mv   t1, sp             # the next entry
        mv   t2, sp             # where the next name goes
        li   t3, 10             # a line feed
entry:  lbu  t4, 4(t1)
        addi t5, t1, 5
        add  t4, t5, t4         # where the name ends
byte:   lbu  t6, 0(t5)
        sb   t6, 0(t2)
        addi t5, t5, 1
        addi t2, t2, 1
        bne  t5, t4, byte
        sb   t3, 0(t2)
        addi t2, t2, 1
        addi t1, t1, 32
        bne  t1, t0, entry

        mv   a1, sp
        sub  a2, t2, sp
write:  li   a0, 1
        li   a7, 12             # write
        ecall
        blt  a0, zero, refused
        add  a1, a1, a0
        sub  a2, a2, a0
        bnez a2, write
        j    list

refused:
        li   a0, 1
exit:   li   a7, 1              # exit
        ecall
";
