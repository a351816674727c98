//! Pages of `explain`: docs/words/accesses.txt. Made by docs/words/make.py.

pub(crate) const TEXT: &str = r"= .N normal
An access .N is normal: it never waits. A load leaves the full bit as it is; a store and FADD leave the word full.

= .F future
An access .F is future: it waits until the word is full, and leaves it full.

A result that one stream stores once and many read: the readers use LOAD.F, the writer STORE.N or STORE.S.

> .entry put
> .entry get
> .data 0, 0
> put: LIT r1, 7
>  STORE.S r1, r0, 0
>  QUIT
> get: LOAD.F r2, r0, 0
>  QUIT

= .S sync
An access .S is sync: it waits until the word is full, and STORE.S until it is empty. LOAD.S and STORE.S then change that.

  LOAD.S   waits until the word is full, and leaves it empty
  STORE.S  waits until the word is empty, and leaves it full
  FADD.S   waits until the word is full, and leaves it full

> .entry put
> .entry take
> .data 0, 0
> put: LIT r1, 7
>  STORE.S r1, r0, 0
>  QUIT
> take: LOAD.S r2, r0, 0
>  QUIT

A lock is a full word: LOAD.S takes it, STORE.S releases it.

= .T test
The suffix .T of an arithmetic operation makes a condition code. SKIP and JUMP of later words ask it.

> .entry start
> .data 0
> start: ADD r1, r1, 1
>  SUB.T r0, r1, 10
>  SKIP NE, 0, start
>  QUIT

A stream keeps its four newest codes: 0 is the newest, 3 the oldest.

= full empty full/empty
Each word of memory is full or empty, beside its value. .F and .S accesses wait for it.

  .data 0       a word that begins full
  .data 0, 0    a word that begins empty

> .entry start
> .data 0, 0
> start: LIT r1, 1
>  STORE.S r1, r0, 0
>  QUIT

= r0
r0 is always 0. What is written to it is lost.

So LOAD.N r1, r0, 2 reads the word [16], and SUB.T r0, r1, r2 makes a code and keeps no result.

= t0
t0 is the target register of traps. It begins with the trap handler (.trap). A trap exchanges it with the status word.

= SSW status
The status word of a stream: pc in bits 0 to 31, codes from 32 on (four bits each, the newest first), mask 48 to 50,
in-trap 56.

= pointer
A pointer is a number of 64 bits in a register.

  bits 0 to 47    the byte address: 0, 8, 16 and so on
  bits 59, 60     the control: 0 normal, 2 future, 3 sync; 1 traps
  bit 61          a forwarding word is read itself
  bits 62, 63     trap0, trap1 of the word are disabled

LIT r1, 16 makes a pointer to the word [16]. PTR sets the high bits.
";
