//! The first program: a shell of pipelines.

/// Reads lines and runs them, until its input ends.
pub const INIT: &[u8] = b"\
# init: reads lines from its input until that ends, runs each, and exits with 0.
#
# A line is what one read gives. It is a pipeline of commands with ` | ` between them, and a command's words have one
# space between them. A command runs the program in /bin that its first word names, with all its words as arguments.
# All commands of a line are started, and then waited for. An empty line has no command.
#
#   sp          the two ends of a pipe
#   sp + 16     the addresses of a command's words, at most 17, and a zero behind them
#   sp + 96     the pids of a line's commands, at most 63: there are 64 processes
#   sp + 512    the line, at most 4,096 bytes. A command's path is made in place, so /bin/ may begin before it
#   s0, s4      where the next command begins and ends
#   s1          where the line ends
#   s2          the descriptor that is the next command's input; 0 where no pipe is
#   s3          where the next pid goes
#   s5, s6      the ends of the pipe behind the command, to read and to write; s5 is 0 where it is the last one

        li   t0, 4624
        sub  sp, sp, t0
        li   s8, 32             # a space
        li   s9, 124            # a bar

line:   li   a0, 0
        addi a1, sp, 512
        li   a2, 4096
        li   a7, 11             # read
        ecall
        bge  zero, a0, end
        addi s0, sp, 512
        add  s1, s0, a0
        lbu  t0, -1(s1)
        li   t1, 10
        bne  t0, t1, whole      # the last line may lack its line feed
        addi s1, s1, -1
whole:  beq  s0, s1, line
        li   s2, 0
        addi s3, sp, 96

# Looks for the end of the command at s0: the next ` | `, or the end of the line.
command:
        mv   s4, s0
        addi t0, s1, -2         # a ` | ` begins before this place
find:   bgeu s4, t0, last
        lbu  t1, 0(s4)
        bne  t1, s8, on
        lbu  t1, 1(s4)
        bne  t1, s9, on
        lbu  t1, 2(s4)
        beq  t1, s8, piped
on:     addi s4, s4, 1
        j    find

last:   mv   s4, s1
        li   s5, 0
        j    start

piped:  mv   a0, sp
        li   a7, 16             # pipe
        ecall
        blt  a0, zero, cut
        lw   s5, 0(sp)
        lw   s6, 4(sp)

start:  li   a7, 2              # fork
        ecall
        beqz a0, child
        blt  a0, zero, keep     # the command is left out
        sw   a0, 0(s3)
        addi s3, s3, 4

# Closes what the next command doesn't need.
keep:   beqz s2, first
        mv   a0, s2
        li   a7, 10             # close
        ecall
first:  beqz s5, wait
        mv   a0, s6
        li   a7, 10             # close
        ecall
        mv   s2, s5
        addi s0, s4, 3
        j    command

# There is no room for a pipe: the command and those behind it are left out.
cut:    li   s5, 0
        j    keep

# Waits for the commands by their pids.
wait:   addi s4, sp, 96
next:   beq  s4, s3, line
        lw   a0, 0(s4)
        li   a1, 0
        li   a2, 0
        li   a7, 5              # waitpid
        ecall
        addi s4, s4, 4
        j    next

# The command itself: the pipes become its input and output, and their other ends are closed.
child:  beqz s2, output
        mv   a0, s2
        li   a1, 0
        li   a7, 15             # dup2
        ecall
        mv   a0, s2
        li   a7, 10             # close
        ecall
output: beqz s5, words
        mv   a0, s6
        li   a1, 1
        li   a7, 15             # dup2
        ecall
        mv   a0, s6
        li   a7, 10             # close
        ecall
        mv   a0, s5
        li   a7, 10             # close
        ecall

# Puts a zero behind each word and its address into the table. Of more than 16 words, which exec refuses, 17 are enough.
words:  addi t0, sp, 16
        addi t1, sp, 84         # where an 18th address would go
        mv   t2, s0
        sb   zero, 0(s4)
word:   sw   t2, 0(t0)
        addi t0, t0, 4
        beq  t0, t1, run
byte:   beq  t2, s4, run
        lbu  t3, 0(t2)
        addi t2, t2, 1
        bne  t3, s8, byte
        sb   zero, -1(t2)
        j    word

# Writes /bin/ before the first word, and becomes that program.
run:    sw   zero, 0(t0)
        li   t0, 47             # a slash
        sb   t0, -5(s0)
        sb   t0, -1(s0)
        li   t0, 98             # b
        sb   t0, -4(s0)
        li   t0, 105            # i
        sb   t0, -3(s0)
        li   t0, 110            # n
        sb   t0, -2(s0)
        addi a0, s0, -5
        addi a1, sp, 16
        li   a7, 3              # exec
        ecall
        li   a0, 127
        j    exit

end:    li   a0, 0
exit:   li   a7, 1              # exit
        ecall
";
