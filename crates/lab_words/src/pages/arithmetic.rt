//! Pages of `explain`: docs/words/arithmetic.txt. Made by docs/words/make.py.

pub(crate) const TEXT: &str = r"= ADD
ADD rd, ra, b puts ra + b into rd, modulo 2^64. b is a register or a number 0 to 31.

ADD r2, r1, 0 copies r1 to r2. ADD.T also makes a condition code.

> .entry start
> .data 0
> start: LIT r1, 1000
>  ADD r2, r1, 1
>  QUIT

For a number above 31: LIT r3, 1000 and then ADD r1, r1, r3.

= SUB
SUB rd, ra, b puts ra - b into rd, modulo 2^64. b is a register or a number 0 to 31.

SUB.T r0, r1, r2 compares r1 with r2: it makes a condition code and keeps no result.

> .entry start
> .data 0
> start: ADD r1, r1, 1
>  SUB.T r0, r1, 10
>  SKIP NE, 0, start
>  QUIT

Without .T it makes no code, and a SKIP after it asks an older one.

= MUL
MUL rd, ra, b puts ra times b into rd, modulo 2^64. b is a register or a number 0 to 31.

> .entry start
> .data 0
> start: LIT r1, 6
>  MUL r1, r1, 7
>  QUIT

No operation divides. SHR r1, r1, 1 halves an unsigned number.

= AND OR XOR ANDN
AND, OR and XOR rd, ra, b combine two values bit by bit. ANDN is a and not b.

> .entry start
> .data 0
> start: LIT r1, 13
>  AND r2, r1, 1
>  ANDN r3, r1, 1
>  QUIT

AND r2, r1, 1 is the remainder by 2, AND r2, r1, 7 by 8.

= SHL SHR SAR
SHL shifts ra to the left by b, SHR to the right. SAR shifts to the right and keeps the sign.

> .entry start
> .data 0
> start: LIT r1, 3
>  SHL r2, r1, 3
>  QUIT

SHL r2, r1, 3 is r1 times 8: the number of a word becomes its address.

= TALLY
TALLY rd, ra counts the ones in ra. It has two operands.

> .entry start
> .data 0
> start: LIT r1, 255
>  TALLY r2, r1
>  QUIT

= LTS LTU
LTS rd, ra, b puts 1 into rd if ra is below b as signed numbers, else 0. LTU compares unsigned numbers.

> .entry start
> .data 0
> start: LIT r1, 3
>  LTS r2, r1, 10
>  QUIT

LTU is also a condition of SKIP and JUMP.

= PTR
PTR rd, ra, b replaces the bits 63 to 59 of ra by the five low bits of b: what a pointer asks for.

  2    future control     4   no forwarding     8   trap0 disabled
  3    sync control                            16   trap1 disabled

> .entry start
> .data 7
> start: PTR r1, r0, 3
>  LOAD r2, r1, 0
>  QUIT

The LOAD has no suffix, so it obeys the pointer: here it is a sync load.
";
