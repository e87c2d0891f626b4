//! A program that writes files one after the other.

/// Writes the files that are named, or its input.
pub const CAT: &[u8] = b"\
# cat: writes the files that its arguments name, in their order, or its input where none is named. It passes over a file
# that it can't open or read, and exits with 1 at the end.
#
#   sp          the buffer, 4,096 bytes
#   s0          how many files are left
#   s1          where the next one's address stands
#   s2          the status
#   s3          the descriptor that is copied

        addi s0, a0, -1
        addi s1, a1, 4
        li   t0, 4096
        sub  sp, sp, t0
        li   s2, 0
        li   s3, 0
        blt  zero, s0, file
        call copy
        j    end

file:   lw   a0, 0(s1)
        li   a1, 0              # to read
        li   a7, 9              # open
        ecall
        blt  a0, zero, unopened
        mv   s3, a0
        call copy
        mv   a0, s3
        li   a7, 10             # close
        ecall
        j    next
unopened:
        li   s2, 1
next:   addi s1, s1, 4
        addi s0, s0, -1
        bnez s0, file

end:    mv   a0, s2
exit:   li   a7, 1              # exit
        ecall

# Writes what descriptor s3 has, up to its end.
copy:   mv   a0, s3
        mv   a1, sp
        li   a2, 4096
        li   a7, 11             # read
        ecall
        beqz a0, copied
        blt  a0, zero, unread
        mv   a1, sp
        mv   a2, a0
write:  li   a0, 1
        li   a7, 12             # write
        ecall
        blt  a0, zero, refused
        add  a1, a1, a0
        sub  a2, a2, a0
        bnez a2, write
        j    copy
unread: li   s2, 1
copied: ret

refused:
        li   a0, 1
        j    exit
";
