//! Pages of `explain`: docs/words/directives.txt. Made by docs/words/make.py.

pub(crate) const TEXT: &str = r"= .entry
.entry LABEL says where a processor begins. The first is of processor 0, the next of processor 1. 1 to 16 may stand.

> .entry start
> .entry start
> .data 0
> start: QUIT

= .data
.data N adds a data word of value N that begins full. .data N, 0 adds one that begins empty.

Data words are at [0], [8], [16] and so on, in the order of their lines. LOAD.N r1, r0, 2 reads the third.

> .entry start
> .data 5
> .data 0, 0
> start: LOAD.N r1, r0, 0
>  STORE.S r1, r0, 1
>  QUIT

= .fill
.fill COUNT, N, TAGS adds so many equal data words. TAGS is 1 for full, 0 for empty.

> .entry start
> .fill 10, 0, 1
> start: LOAD.N r1, r0, 9
>  QUIT

= .word
.word N adds an instruction by its number. It is no data: write .data for data.

> .entry start
> .data 0
> start: .word 0x8010000000000005
>  QUIT

word 0x8010000000000005 says which instruction that is.

= .slim
.slim N is the most streams of a processor: 1 to 128, and 8 if it is absent.

= .retry
.retry N: a reference that was blocked N times traps at the next block. 0, if it is absent, tries forever.

= .trap
.trap LABEL names the trap handler of all streams. Without it a trap stops the stream.

= .profile
.profile 2 asks for Profile 2, which has PURGE and .chain besides. It is 1 if it is absent.

= .chain
.chain N: how many words may forward one reference, 0 to 64, and 8 if it is absent. Only Profile 2 has it.
";
