//! A program whose child feeds it.

/// Writes the file `/data` by way of a pipe from its child.
pub const PUMP: &[u8] = b"\
# pump: makes a pipe and a child. The child copies the file /data to the pipe, and its parent the pipe to the output, by
# 512 bytes each. Then the parent waits for the child, and exits with 0.
#
#   sp          the two ends of the pipe
#   sp + 16     the buffer, 512 bytes
#   s0          the child's pid
#   s1          the descriptor that is copied from
#   s2          the descriptor that is copied to

        addi sp, sp, -528
        mv   a0, sp
        li   a7, 16             # pipe
        ecall
        blt  a0, zero, refused
        li   a7, 2              # fork
        ecall
        blt  a0, zero, refused
        mv   s0, a0
        beqz s0, child

        lw   a0, 4(sp)
        li   a7, 10             # close
        ecall
        lw   s1, 0(sp)
        li   s2, 1
        call copy
        mv   a0, s0
        li   a1, 0
        li   a2, 0
        li   a7, 5              # waitpid
        ecall
        li   a0, 0
        j    exit

child:  lw   a0, 0(sp)
        li   a7, 10             # close
        ecall
        la   a0, path
        li   a1, 0              # to read
        li   a7, 9              # open
        ecall
        blt  a0, zero, refused
        mv   s1, a0
        lw   s2, 4(sp)
        call copy
        li   a0, 0
exit:   li   a7, 1              # exit
        ecall

refused:
        li   a0, 1
        j    exit

# Copies descriptor s1 to descriptor s2, up to its end.
copy:   mv   a0, s1
        addi a1, sp, 16
        li   a2, 512
        li   a7, 11             # read
        ecall
        beqz a0, copied
        blt  a0, zero, refused
        addi a1, sp, 16
        mv   a2, a0
write:  mv   a0, s2
        li   a7, 12             # write
        ecall
        blt  a0, zero, refused
        add  a1, a1, a0
        sub  a2, a2, a0
        bnez a2, write
        j    copy
copied: ret

        .data
path:   .ascii \"/data\"
        .byte 0
";
