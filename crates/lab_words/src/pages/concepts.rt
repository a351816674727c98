//! Pages of `explain`: docs/words/concepts.txt. Made by docs/words/make.py.

pub(crate) const TEXT: &str = r"= stream
Stream: one thread of a processor. It has registers, a pc, which says which word comes next, and a status: idle, running
or stopped. 2.0 is stream 0 of processor 2.

What to do: RESERVE and CREATE start another stream, and QUIT ends one. explain CREATE says how.

= processor
Processor: it has streams, up to 128 of them. A machine has 1 to 16 processors, which share one memory.

At the start stream 0 of each processor runs, from the label of its line .entry on.

= schedule
Schedule: it says which stream takes each step. A line 1 0 4 means: processor 1, stream 0, four steps.

What to do: mta_lab schedule fair lock.asm prints one. mta_lab explore lock.asm tries all of them.

= seed
Seed: the number that a random schedule is made from. The same seed gives the same run on every machine.

What to do: mta_lab survey lock.asm --seeds 100 shows a seed for each end, and mta_lab view lock.asm --seed 7 a run.

= state
State: all that a machine holds between two steps: the words of the memory, the streams, the counts of the processors.

explore finds every state that a schedule can reach, or as many as the ends need.

= race
Race: the end depends on which of two streams uses a word first. Some schedules end well, and others go wrong.

What to do: mta_lab explore finds every end, and a schedule to each. Take a lock by LOAD.S before you use the word.

= lost_update lost
Lost update: a stream stores over a change that it did not see. Two streams read 0, both add 1, and both store 1.

What to do: add by FADD, which is one step. Or read by LOAD.S, which empties the word, and write by STORE.S.

= unread_store unread
Unread store: a stream stores over what another stream stored, and nobody had read it. So that value is lost.

What to do: let the writer wait until the word is empty. STORE.S does that, and LOAD.S empties the word when it reads.

= torn_read torn
Torn read: a stream reads two words that belong together, and another one writes both in between. So it has one old value
and one new one.

What to do: read and write both words while you hold one lock.

= finding
Finding: what went wrong in a run: a lost update, an unread store or a torn read. view, survey, explore and the pages show
it with its steps.

What to do: explain lost update, explain unread store and explain torn read say what each of them is.

= waiting waits
Waiting: a stream waits if its reference finds the word in the wrong state, and tries again. If nobody else can turn that
word, the stream waits forever: see explain deadlock.

What to do: mta_lab view shows at the end who waits, for which word, and who turned it last.

= trap
Trap: a stream can't do its next instruction, so nothing of it is done. The trap stops the stream, or the stream goes on
at its trap handler, if it has one.

What to do: explain 6 says what trap 6 is, and explain 0x806 what a trap register says. mta_lab view shows where a trap
came.

= word
Word: 64 bits of the memory, with a full/empty bit, a forward bit and two trap bits. [8] is the word at address 8. An
instruction is a word too.

What to do: .data adds a word to the memory. mta_lab word decodes and encodes instructions.

= displacement
Displacement: the number behind the register of a reference. It counts words of 8 bytes: LOAD.N r1, r0, 2 reads [16].

= pc
Pc: the place of a stream in the program. It counts the words of the program, from 0, and not bytes.

What to do: a label stands for such a place. count+2 is the second word after the one at the label count.

= lock
Lock: a word that only one stream at a time can take. LOAD.S waits until it is full and leaves it empty, so the next one
waits. STORE.S fills it again.

What to do: begin with .data 0, which is full: a lock that begins empty lets nobody in.

= complete
Complete: explore has found the ends of every schedule, so no other end can come. If a search ends before, at its bound,
it says not complete, and nothing of the others.

= expectation expect
Expectation: a line of a file that says what an end has to be, as word 8 2 full, or finished. explore, survey, grade and
play take the file by --expect.

What to do: mta_lab check FILE.expect looks for slips in it. mta_lab new first writes a program with such a file.

= claim
Claim: a line about every state of a run, and not its end alone. always at most 1 of 0.0 1.0 in enter..leave says that
never two streams are inside at once.

What to do: mta_lab explore FILE --expect CLAIMS judges it in every schedule, and shows a schedule that breaks it.
";
