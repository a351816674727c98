//! Pages of `explain`: docs/words/control.txt. Made by docs/words/make.py.

pub(crate) const TEXT: &str = r"= JUMP
JUMP c, k, t goes to the target register t if condition c holds on code k. Code 0 is the newest.

> .entry start
> .data 0
> start: TLIT t1, over
>  JUMP ALWAYS, 0, t1
> over: QUIT

It takes no label: TLIT t1, label comes first. To a label nearby, SKIP is shorter.

= SKIP
SKIP c, k, n goes on n words after the next one, or to a label, if condition c holds on code k.

Code 0 is the newest. A label may be 128 words on or 127 back.

> .entry start
> .data 0
> start: ADD r1, r1, 1
>  SUB.T r0, r1, 10
>  SKIP NE, 0, start
>  QUIT

If it never goes, or always: did an earlier word make the code, by .T? A code of its own word counts later.

= CALL
CALL t, u goes to the target register t. The target register u becomes the address after the CALL.

> .entry start
> .data 0
> start: TLIT t1, routine
>  CALL t1, t2
>  QUIT
> routine: ADD r1, r1, 1
>  JUMP ALWAYS, 0, t2

A routine that calls another one needs a second register for its return address.

= XCHG
XCHG t exchanges the status word and the target register t. A trap handler goes back by XCHG t0.

> .trap handler
> .entry start
> .data 0
> start: LOAD.N r1, r0, 5
>  QUIT
> handler: TGET r2, t0
>  ADD r2, r2, 1
>  TSET t0, r2
>  XCHG t0

Here the handler adds 1 to the address that trapped, so the stream goes on after that word.

= TSET TGET
TSET t, ra moves a register to a target register. TGET rd, t moves a target register to a register.

> .entry start
> .data 0
> start: TLIT t1, start
>  TGET r1, t1
>  TSET t2, r1
>  QUIT

= XGET XR
XGET rd reads the trap register XR: why and where the stream trapped last.

XR is the number of the trap plus 256 times the address. explain 0x806 reads such a value.

> .trap handler
> .entry start
> .data 0
> start: LOAD.N r1, r0, 1
> handler: XGET r2
>  QUIT

Here r2 becomes 806 in hexadecimal: trap 6, RANGE, at [8].

= RESERVE
RESERVE rd, ra asks for ra more streams of this processor. rd becomes how many it granted.

> .slim 4
> .entry start
> .data 0
> start: LIT r2, 3
>  RESERVE r3, r2
>  QUIT

It grants at most what .slim leaves: look at rd before you CREATE so many.

= CREATE
CREATE t, ra starts a stream at the target register t. Its r1 becomes ra. It has the t0 (trap handler) and the trap mask of
its creator, and all other registers are 0.

> .slim 2
> .entry start
> .data 0
> start: LIT r2, 1
>  RESERVE r3, r2
>  TLIT t1, worker
>  CREATE t1, r2
>  QUIT
> worker: STORE.N r1, r0, 0
>  QUIT

RESERVE comes first. If no reserved stream is free, CREATE traps (trap 3).

= QUIT QUITP
QUIT ends the stream. Its slot can be reserved by another RESERVE.
QUITP ends the stream too, and its slot stays reserved for a CREATE to come.

> .entry start
> .data 0
> start: QUIT

Without it a stream runs on into the next words, and past the last one it traps (trap 1).

= MASK
MASK m disables traps: m is a sum of 1 for TRAP0, 2 for TRAP1 and 4 for BLOCKED.

> .entry start
> .data 0
> start: MASK 4
>  QUIT

= NOP
NOP does nothing. The stream goes on.

> .entry start
> .data 0
> start: NOP
>  QUIT

= LIT
LIT rd, n sets rd to a number of 32 bits. The high half of rd becomes 0.

> .entry start
> .data 0
> start: LIT r1, 100000
>  QUIT

There is no sign: LIT r1, 5 and then SUB r1, r0, r1 makes -5. A label of data is no address: write the number.

= LITH
LITH rd, n sets the high 32 bits of rd. The low half stays.

> .entry start
> .data 0
> start: LIT r1, 0x89ABCDEF
>  LITH r1, 0x01234567
>  QUIT

LIT comes first, since it clears the high half.

= TLIT
TLIT t, label sets a target register to the address of a label, for JUMP, CALL and CREATE.

> .entry start
> .data 0
> start: TLIT t1, over
>  JUMP ALWAYS, 0, t1
> over: QUIT
";
