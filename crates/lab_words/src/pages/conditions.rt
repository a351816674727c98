//! Pages of `explain`: docs/words/conditions.txt. Made by docs/words/make.py.

pub(crate) const TEXT: &str = r"= ALWAYS
The condition ALWAYS holds whatever the code is. Write 0 for the code.

> .entry start
> .data 0
> start: SKIP ALWAYS, 0, end
> end: QUIT

= EQ NE
EQ holds if the result was 0 (Z). NE holds if it was not. After SUB.T r0, a, b: a is b, a is not b.

> .entry start
> .data 0
> start: ADD r1, r1, 1
>  SUB.T r0, r1, 10
>  SKIP NE, 0, start
>  QUIT

= LT GE LE GT
Signed comparisons after SUB.T r0, a, b: LT a below b, GE a at least b, LE a at most b, GT a above b.

  LT  N differs from V             GE  N is V
  LE  Z, or N differs from V       GT  not Z, and N is V

> .entry start
> .data 0
> start: ADD r1, r1, 1
>  SUB.T r0, r1, 10
>  SKIP LT, 0, start
>  QUIT

= LTU GEU LEU GTU
Unsigned comparisons after SUB.T r0, a, b: LTU a below b, GEU a at least b, LEU a at most b, GTU a above b.

  LTU  C          GEU  not C
  LEU  C or Z     GTU  neither C nor Z

> .entry start
> .data 0
> start: ADD r1, r1, 1
>  SUB.T r0, r1, 10
>  SKIP LTU, 0, start
>  QUIT

= NEG POS
NEG holds if the result was negative (N). POS holds if it was not.

> .entry start
> .data 0
> start: SUB.T r1, r1, 1
>  SKIP NEG, 0, end
>  NOP
> end: QUIT

= OV NOV
OV holds if the signed result did not fit 64 bits (V). NOV holds if it did.

= Z N C V
The letters of a condition code. Each is a bit; the code is their sum.

  Z 1  the result is 0
  N 2  the result is negative: its bit 63 is set
  C 4  ADD: a carry; SUB: a is below b, unsigned; MUL: the unsigned product does not fit
  V 8  the signed result does not fit 64 bits

Only an operation with .T makes a code.
";
