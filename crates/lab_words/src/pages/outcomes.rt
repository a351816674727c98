//! Pages of `explain`: docs/words/outcomes.txt. Made by docs/words/make.py.

pub(crate) const TEXT: &str = r"= 1 PROGRAM
Trap 1, PROGRAM: the pc is past the program's end.

What to do: end the stream by QUIT, or look which SKIP or JUMP goes too far.

= 2 ILLEGAL
Trap 2, ILLEGAL: the word is no instruction.

What to do: .word adds an instruction; for data write .data.

= 3 TRAP3 CREATE
Trap 3, CREATE: every reserved stream is in use.

What to do: RESERVE first, and CREATE at most as many streams as it granted. .slim bounds them.

= 4 TRAP4 POINTER
Trap 4, POINTER: no reference may use this pointer. A bit of 48 to 58 is set, or its control is 1.

What to do: look at what the base register holds. A large or negative number is no address.

= 5 ALIGN
Trap 5, ALIGN: the address is no multiple of 8.

What to do: an address counts bytes. SHL r2, r1, 3 makes the address of word number r1.

= 6 RANGE
Trap 6, RANGE: there is no word at the address.

What to do: a displacement counts words (LOAD.N r1, r0, 8 reads [64]). Add data lines, or mend the address.

= 7 TRAP0
Trap 7, TRAP0: the word's trap0 bit is set. Mask bit 0 and bit 62 of the pointer disable it.

= 8 TRAP1
Trap 8, TRAP1: the word's trap1 bit is set. Mask bit 1 and bit 63 of the pointer disable it.

= 9 FORWARD
Trap 9, FORWARD: forwarded too often. Too many words forward this reference, one to the next.

What to do: look for a circle of forwarding words. Tag 2 in .data says that a word forwards.

= 10 TRAP10
Trap 10, BLOCKED: tried too often. The reference was blocked more often than .retry allows. Mask bit 2 disables it.

= DONE
Outcome DONE: the step did all that its word says.

= BLOCKED
Outcome BLOCKED: the reference waits for its word to be full, or to be empty. The next step of the stream tries it again.

view and explore say who waits for which word, and since when.

= TRAPPED STOPPED
Outcome TRAPPED: the step trapped, and the stream goes on at its handler.
Outcome STOPPED: the step trapped, and the stream stops: it has no handler, or the trap came inside its handler.

explain XR, with XR as 0x806, says why.

= SKIPPED
Outcome SKIPPED: the schedule names a stream that does not run, and nothing changes.

= deadlock
Deadlock: every running stream is blocked forever. No schedule goes on from there.

What to do: view names who waits for whom. Take locks in one order, or release what is held before you wait.

= starvation starving starve
Starvation: a stream waits forever while others go on. Its steps come, and each of them is blocked.

What to do: mta_lab explore lock.asm --waiting says who can wait forever, and shows how. A file of --expect asks it by the
line never starved. A ticket, or a turnstile through which all go, lets each come in its turn.

= fairness fair
Fairness: what is asked of a schedule before one says that a stream waits forever. By words: each stream has its steps, and
one that waits for a word which is in the right state again and again gets it at last. A stream need not have steps where a
line of a file of --expect lets it rest, as 1.0 may rest in outside.

What to do: mta_lab explore lock.asm --waiting looks for rounds that are fair by words.

= response
Response: what a stream asks for comes at last, if the schedule is fair: whoever waits for a lock gets it, and whoever has a
question gets an answer.

What to do: write 0.0 in try leads to 0.0 in inside in a file of --expect. mta_lab explore decides it, and shows a run that
never comes there; --waiting says whether a stream can be blocked forever. explain fairness says what is fair.

= overtaking overtake overtakes
Overtaking: a stream that came later gets a lock before one that waits for it. If others can overtake it again and again, the
one that waits may never get it.

What to do: let each take a number by FADD, and enter in the order of the numbers. mta_lab new turns --from ticket writes
such a lock. 0.0 in wait is overtaken at most 1 times by 1.0 at inside in a file of --expect asks how often it comes to that.

= livelock
Livelock: streams take steps forever, and none of them comes any further, as two that step aside for each other.

What to do: mta_lab explore says livelock below an endless loop in which no step changes a word. Where words change, a line as
0.0 in try leads to 0.0 in inside in a file of --expect says what has to come.

= spinning
Spinning: streams go on forever and nothing new happens, as a loop that polls a word that nobody changes.

What to do: wait by LOAD.F or LOAD.S, and not in a loop.
";
