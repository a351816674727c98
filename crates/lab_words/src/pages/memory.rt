//! Pages of `explain`: docs/words/memory.txt. Made by docs/words/make.py.

pub(crate) const TEXT: &str = r"= LOAD
LOAD rd, base, d reads a word of memory into register rd.

The word is at the address in base plus d words of 8 bytes.

  LOAD.N  reads the word, full or empty
  LOAD.F  waits until the word is full, and leaves it full
  LOAD.S  waits until the word is full, and leaves it empty
  LOAD    does what bits 59 and 60 of the pointer say: normal, if nobody set them

> .entry start
> .data 7
> start: LOAD.N r1, r0, 0
>  QUIT

If it waits forever: nothing fills the word. Fill it by STORE.S or STORE.N, or begin it full (.data 7).

= STORE
STORE rd, base, d writes register rd into a word of memory. Note the order: the value comes first.

  STORE.N  writes the word and leaves it full
  STORE.F  waits until the word is full, writes it, and leaves it full
  STORE.S  waits until the word is empty, writes it, and leaves it full
  STORE    does what bits 59 and 60 of the pointer say: normal, if nobody set them

> .entry start
> .data 0, 0
> start: LIT r1, 7
>  STORE.S r1, r0, 0
>  QUIT

If it waits forever: the word is full. Data begins full; write .data 0, 0 for a word that begins empty.

= FADD
FADD rd, base, d adds rd to a word, and rd becomes the old value. No other stream comes between.

  FADD.N  adds, and leaves the word full
  FADD.F  waits until the word is full
  FADD.S  waits until the word is full

> .entry start
> .data 5
> start: LIT r1, 1
>  FADD.N r1, r0, 0
>  QUIT

Here r1 becomes 5 and the word 6. With LOAD, ADD and STORE instead, another stream's count can be lost.

= TAGGET
TAGGET rd, base, d reads the four tags of a word, and never waits.

The number is a sum: full 1, forward 2, trap0 4, trap1 8. 0 is an empty word.

> .entry start
> .data 7
> start: TAGGET r1, r0, 0
>  QUIT

After it another stream may fill or empty the word: TAGGET and then STORE is no lock. LOAD.S is one.

= TAGSET
TAGSET rd, base, d sets the tags of a word to the low four bits of rd. The value stays.

TAGSET r0, r0, 0 makes the word [0] empty, whatever it is.

> .entry start
> .data 7
> start: TAGSET r0, r0, 0
>  QUIT

It never waits, so two streams can both set a word empty. To take a lock use LOAD.S.

= PURGE
PURGE rd, base, d writes rd into a word and leaves it empty. Only Profile 2 has it.

> .profile 2
> .entry start
> .data 7
> start: PURGE r0, r0, 0
>  QUIT

If it is refused: write .profile 2 on a line of its own.
";
