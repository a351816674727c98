//! Names of other machines, and what is written in their place here.
//!
//! Each table has a row a line: names of one thing with a space between two, and after `=` what is said of them. It is one
//! text, since each text costs the prover time.

/// Operations of other machines, and how to write them.
const OPERATIONS: &str = "MOV MOVE MV CPY COPY=ADD r1, r2, 0 copies r2 to r1; LIT r1, 5 sets r1 to 5
LI LDI MOVI LOADI SET=LIT r1, 5 sets r1 to 5
LA LEA ADR=LIT r1, 8 sets r1 to the address of the second data word
LW LD LDR LB LH LBU LHU GET READ=LOAD.N r1, r0, 2 reads the word [16]
SW SD ST STR SB SH PUT WRITE=STORE.N r1, r0, 2 writes the word [16]
ADDI ADDU ADDIU PLUS=write ADD: its last operand may be 0 to 31
SUBI SUBU SBC MINUS=write SUB: its last operand may be 0 to 31
MULT IMUL MULU=write MUL
DIV DIVU IDIV MOD REM=no operation divides: SHR r1, r1, 1 halves, AND r1, r1, 1 is the remainder by 2
INC=ADD r1, r1, 1 adds 1 to r1
DEC=SUB r1, r1, 1 subtracts 1 from r1
NEG=SUB r1, r0, r1 negates r1
NOT INV COM=SUB r2, r0, 1 and then XOR r1, r1, r2 inverts all bits of r1
CLR CLEAR ZERO=LIT r1, 0 sets r1 to 0
CMP COMP TST TEST=SUB.T r0, r1, r2 compares, and a later SKIP asks its code
BEQ BEQZ BZ JE JZ=SUB.T r0, r1, r2 and then SKIP EQ, 0, label
BNE BNEZ BNZ JNE JNZ=SUB.T r0, r1, r2 and then SKIP NE, 0, label
BLT BLTZ JL JLT=SUB.T r0, r1, r2 and then SKIP LT, 0, label
BGE BGEZ JGE=SUB.T r0, r1, r2 and then SKIP GE, 0, label
BGT BGTZ JG JGT=SUB.T r0, r1, r2 and then SKIP GT, 0, label
BLE BLEZ JLE=SUB.T r0, r1, r2 and then SKIP LE, 0, label
BLTU JB BLO=SUB.T r0, r1, r2 and then SKIP LTU, 0, label
BGEU JAE BHS=SUB.T r0, r1, r2 and then SKIP GEU, 0, label
J B JMP BR BRA GOTO GO=SKIP ALWAYS, 0, label goes to a label
JAL BL JSR BSR=TLIT t1, label and then CALL t1, t2 calls a routine
RET RTS JR RETURN=JUMP ALWAYS, 0, t2 goes back after CALL t1, t2
HALT HLT STOP EXIT END DONE=QUIT ends a stream
SLL LSL SHLI SLLI=write SHL, which shifts to the left
SRL LSR SHRI SRLI=write SHR, which shifts to the right
SRA ASR SRAI=write SAR, which shifts to the right and keeps the sign
SLT SLTI=write LTS, which is 1 if the one is below the other
ORR ORI ANDI XORI EOR=write OR, AND or XOR
PUSH POP=no operation has a stack: STORE.N and LOAD.N use a pointer of your own
LOCK ACQUIRE WAIT TAKE=LOAD.S waits until a word is full and leaves it empty: so it takes a lock
UNLOCK RELEASE SIGNAL GIVE=STORE.S waits until a word is empty and leaves it full: so it releases a lock
FORK SPAWN START=RESERVE and then CREATE start a stream
CAS SWAP TAS LL SC XADD FAA=FADD.N adds at once, and LOAD.S and STORE.S take a word and release it";

/// Operations that nothing stands for.
const NEEDLESS: &str =
    "FENCE SYNC MFENCE MEMBAR BARRIER DMB=leave it out: each step of a stream is done before its next
PRINT OUT SYSCALL ECALL INT ECHO=a program prints nothing: STORE.N leaves a result in memory";

/// Directives of other machines, and how to write them.
const DIRECTIVES: &str =
    ".text .code .section .bss .rodata=leave it out: instructions and .data may stand in any order
.global .globl .extern .start .main .begin=write .entry and a label: a processor begins there
.byte .half .long .quad .int .dword .dw .db .dq .var=write .data and a number: each data word has 64 bits
.space .zero .skip .res .ds .array=write .fill 10, 0, 1 for ten full words of value 0
.org .align .balign .p2align=leave it out: data words are at [0], [8], [16] and so on, in their order
.ascii .asciiz .string .char=there are no texts: write a .data line for each number
.equ .set .define .const=there are no names for numbers: write the number, and its name in a comment
.end .exit .halt=leave it out: QUIT ends a stream";

/// Conditions of other machines, and their names here.
const CONDITIONS: &str = "Z ZERO EQUAL E=EQ
NZ NONZERO NEQ=NE
LTE LEQ=LE
GTE GEQ=GE
AL TRUE 1=ALWAYS
N MI MINUS=NEG
PL PLUS=POS
V VS=OV
LO B=LTU
HS AE=GEU
HI A=GTU";

/// What to write in place of an operation of another machine.
pub(crate) fn foreign_operation(name: &[u8]) -> Option<&'static str> {
    said_of(OPERATIONS, name).or(said_of(NEEDLESS, name))
}

/// What to write in place of a directive of another machine.
pub(crate) fn foreign_directive(name: &[u8]) -> Option<&'static str> {
    said_of(DIRECTIVES, name)
}

/// The condition that another machine calls so.
pub(crate) fn foreign_condition(name: &[u8]) -> Option<&'static str> {
    said_of(CONDITIONS, name)
}

/// What a table says of a name, in letters of either case.
fn said_of(table: &'static str, name: &[u8]) -> Option<&'static str> {
    for row in table.split('\n') {
        match row.split_once('=') {
            Some((names, said)) if has_name(names, name) => return Some(said),
            _ => {}
        }
    }
    None
}

/// Whether a name is among some names, in letters of either case.
fn has_name(names: &str, name: &[u8]) -> bool {
    for known in names.split(' ') {
        if known.as_bytes().eq_ignore_ascii_case(name) {
            return true;
        }
    }
    false
}
