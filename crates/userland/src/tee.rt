//! A program that copies its input to two places.

/// Writes its input to its output and to a file.
pub const TEE: &[u8] = b"\
# tee: writes its input to its output and to the file that its first argument names, which is made or begun anew. Where
# that file can't be opened or written it goes on without it, and exits with 1 at the end.
#
#   sp          the buffer, 4,096 bytes
#   s0          the file's descriptor; below 0 where there is none
#   s1          the status
#   s2          how many bytes the buffer has

        li   t0, 4096
        sub  sp, sp, t0
        li   s1, 0
        li   s0, -1
        li   t0, 2
        blt  a0, t0, read
        lw   a0, 4(a1)
        li   a1, 81             # to write, create and truncate
        li   a7, 9              # open
        ecall
        mv   s0, a0
        bge  s0, zero, read
        li   s1, 1

read:   li   a0, 0
        mv   a1, sp
        li   a2, 4096
        li   a7, 11             # read
        ecall
        beqz a0, end
        blt  a0, zero, refused
        mv   s2, a0
        li   a0, 1
        call put
        bnez a0, refused
        blt  s0, zero, read
        mv   a0, s0
        call put
        beqz a0, read
        li   s0, -1
        li   s1, 1
        j    read

end:    mv   a0, s1
exit:   li   a7, 1              # exit
        ecall

refused:
        li   a0, 1
        j    exit

# Writes the buffer to descriptor a0. Gives 0, or another number where a write is refused.
put:    mv   t0, a0
        mv   a1, sp
        mv   a2, s2
write:  mv   a0, t0
        li   a7, 12             # write
        ecall
        blt  a0, zero, done
        add  a1, a1, a0
        sub  a2, a2, a0
        bnez a2, write
        li   a0, 0
done:   ret
";
