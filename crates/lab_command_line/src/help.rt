//! What `--help` says of the commands, beside what the parser of the command line prints by itself.

/// How a command ends: the end of each help text.
pub(crate) const STATUSES: &str = "\
Exit status:
  0  done, and all is as expected
  1  an error: standard error says what is wrong
  2  the command line asks for no command
  3  some end is not as expected, or a submission of grade is no program or not read
  4  some end is a deadlock
  5  some run ran out of steps, a loop never ends (spinning), or a search did not come to its end";

pub(crate) const TOOL: &str = "\
Shows what programs of the Tera MTA do: what is wrong with a source text, a run step by step,
where two runs first differ, and which ends schedules can reach. A PROGRAM is a source text or
an image, and - is standard input.

Example:
  mta_lab check lock.asm
  mta_lab survey lock.asm --seeds 100
  mta_lab view lock.asm --seed 7";

/// What is said of a line that is the program's name alone.
pub(crate) const FIRST_COMMANDS: &str = "\
there is no command. To begin with:
  mta_lab new count                                writes a program, and what its ends have to be
  mta_lab explore count.asm --expect count.expect  shows every end that its schedules can reach
  mta_lab exercise                                 lists programs to write, and which are done";

pub(crate) const CHECK: &str = "\
Judges source texts, images, schedules and files of expectations. Each message is a line
FILE:LINE:COLUMN: error: WORDS. The source line follows, with a mark under the spot, and how to
correct it. check also warns about what only mta_lab reads: letters beyond ASCII in comments, and *
in schedules. Each file is judged alone, schedules and expectations for a program with --program.

Examples:
  mta_lab check lock.asm
  mta_lab check lock.expect --program lock.asm";

pub(crate) const FMT: &str = "\
Lays source texts out: labels in column 1, statements in column 9, comments in column 33, or 49
after a long statement, one blank after commas and around bars. No line moves up or down, and
comments keep their words. Lines end by LF; CR LF becomes LF, and a byte order mark is dropped.

fmt writes each file that changes, and names it. Without FILE, or with -, it lays standard input
out to standard output. If a text has an error, it writes nothing. The image stays the same.
With --check it writes nothing, and the status is 1 if a file would change.

Examples:
  mta_lab fmt lock.asm
  mta_lab fmt --check examples/*.asm";

pub(crate) const SCHEDULE: &str = "\
Makes a schedule of a program and prints it. rounds takes the running streams in the order of
processor and stream. fair takes the processors in turn, and in each its streams in turn. random
takes any running stream. The schedule ends when no stream runs, when no stream can go on, or
after --steps. Standard error says which.

The seed modulo 8 is the rule of random. 0: any running stream at each step. 1 and 5: a stream
goes on for 8 steps on average. 2 and 6: for 32 steps. 3 and 7: by priorities, of which two fall
during the run. 4: for up to 7500 steps one stream does not step while another can. In 1 to 7 a
blocked stream does not step while another can.

Example:
  mta_lab schedule random lock.asm --seed 7 > found.schedule";

pub(crate) const VIEW: &str = "\
Shows a run, a line for each step: its number, the stream, the address, the instruction, and
what it read and changed. Then it says how the run ends, who waits for what, and which words
differ from the start. A loop whose lines repeat is folded; --all shows each step. Without a
schedule the processors step in turn.

Example:
  mta_lab view lock.asm lock.lost_update.schedule";

pub(crate) const DEBUG: &str = "\
Goes forward and back in a run. Each line of standard input is a command: step, next, back,
continue, reverse-continue, until, break, watch, delete, info, print, list, why, try, undo, run,
where, x or save. It is answered before the next is read. An empty line repeats the last. help
lists all commands; most words of gdb work too. With rlwrap the words are completed.

Example:
  mta_lab debug lock.asm --seed 7";

pub(crate) const DAP: &str = "\
Lets an editor debug a program: it reads requests of the Debug Adapter Protocol from standard
input, and answers on standard output. The editor starts it; its launch request names the program
and the schedule. docs/EDITORS.md says what to set in VS Code, Neovim and Emacs.

Example:
  mta_lab dap";

pub(crate) const LSP: &str = "\
Answers an editor while source texts are written: it reads messages of the Language Server
Protocol from standard input, and answers on standard output. The editor shows what
check says, what words mean and where labels stand, completes and renames them, and lays texts out
as fmt does. The editor starts it. docs/EDITORS.md says what to set.

Example:
  mta_lab lsp";

pub(crate) const COMPARE: &str = "\
Shows the first step at which two schedules of a program differ, the first position at which
the states differ, and in what, and both ends. With --seeds ONE and OTHER are seeds of random
schedules.

Examples:
  mta_lab compare lock.asm lock.ends.schedule lock.lost_update.schedule
  mta_lab compare lock.asm --seeds 3 8";

pub(crate) const SURVEY: &str = "\
Runs a program by many random schedules, on all cores, and counts their ends. Each end has a
seed that reaches it. The seed says how its schedule is made (mta_lab schedule --help).

Example:
  mta_lab survey lock.asm --seeds 1000";

pub(crate) const EXPLORE: &str = "\
Shows every end that schedules of a program can reach: how many states, the number of steps of a
schedule (a shortest one, unless the line says otherwise), who waits or was stopped, and the words
that changed. If it says complete, no schedule of any length ends differently.

Some steps concern their own stream alone. A QUIT or QUITP is such a step too, if no other running
stream of its processor can come to a RESERVE or CREATE. If such a step leads to a state that is
still to be explored, the other streams wait: their steps commute with it. So fewer states are
explored. If --expect claims something about streams at some addresses, steps from and to these are
not explored so. --plain explores all states.

Beside lines about ends the file of --expect may have claims: always, never or some, and then
word ADDRESS is|above|below VALUE, word ADDRESS is|above|below word ADDRESS [+ NUMBER], word ADDRESS
full|empty, or at most|least N of P.S .. in FIRST..LAST, perhaps with a comma and another such group.
above and below compare signed if VALUE has a sign (-1, +3), or if signed follows it (below 0
signed). Else a word is a number from 0 on: -1 is above 5, and none is below 0.

Of an endless loop it says what it is: a livelock, in which no step changes a word any more, or one
in which a stream can wait forever, or one in which each stream goes on.

--waiting says of every program who can wait forever. It explores all states, and looks for rounds:
steps that come back to the same state, and so can be taken again and again. A round is fair by
words if each stream that runs has a step in it, and each that is not always blocked completes one.
A stream can wait forever if it is blocked at each of its steps in such a round.

--keep FOLDER writes the schedule to each end as FOLDER/1.schedule and so on. --pages FOLDER writes
the page of its run (mta_lab page --help), as FOLDER/1_deadlock.html and so on.

--dot FILE writes the explored states, up to 2000, as a graph for Graphviz. The colour of a state
says which ends can still be reached, and the schedules to the ends are bold. --plain shows all.

Examples:
  mta_lab explore lock.asm
  mta_lab explore lock.asm --waiting
  mta_lab explore race.asm --plain --dot race.dot && dot -Tsvg race.dot > race.svg";

pub(crate) const GRADE: &str = "\
Judges submissions, a line for each: right, wrong, a deadlock, a trap, out of steps, a source with
errors or not read, and what shows it. Each runs by many random schedules; the first seed whose run
is not right decides. --explore tries every schedule. If its bounds end that search before it finds
anything, the submission runs by the random schedules too. --thorough runs the random schedules
first, and tries every schedule of what they find right.

A file of --expect has lines about the end of a run, lines always .. and never .. about every state
of the run, and lines some .. that one state has to show (mta_lab explore --help). With --cases each
submission is judged by every case of a folder, in the order of their names: NAME.data replaces
words of it, by their names if it has these, and NAME.expect says what the end has to be. All have
to be right. Only regular files are read, and - is standard input.

--pages FOLDER writes the run that shows why a submission is not right as a page for a browser,
FOLDER/NAME.html of NAME.asm. With --explore it is a page of all schedules (mta_lab play), if the
program has no more than 100000 states.

A case has the points that a line points N of its NAME.expect says, and one without such a line.
After a line hidden no text for students has its values. --feedback FOLDER writes a text for the
student of each submission, FOLDER/NAME.txt, and its page beside it.

--results FILE.jsonl keeps each result with checksums of all that it depends on. A call that finds
results there takes those that still hold, and judges the others: so a call that was stopped goes
on. --part 2/8 judges the second of eight parts. --merge makes one table of such files.

Examples:
  mta_lab grade --expect wanted.expect submissions/*.asm
  mta_lab grade --cases cases --thorough submissions/*.asm
  mta_lab grade --cases cases --explore --seconds 10 --format junit submissions/*.asm";

pub(crate) const EXERCISE: &str = "\
Lists the exercises of a folder, and which are done. With a number it judges your program: the file
start.asm in the folder of that exercise, which you edit. It is tried with all cases, by every
schedule. If it is not right, a schedule shows why, with the commands to view that run. Each
exercise has a task, task.md, and hints. --page FILE writes a page of that run, and --play FILE a page
on which you choose each step, opened after that run. --reset makes start.asm what it was at first,
and keeps yours as start.old.asm. --watch judges it again each time that you save it, until you type q.

Examples:
  mta_lab exercise
  mta_lab exercise 3
  mta_lab exercise lock --hint 1
  mta_lab exercise 3 --page run.html";

pub(crate) const ASM: &str = "\
Assembles a source text, and writes the image. The image is written under another name and then
renamed. So if anything fails, the old file stays as it was.

Example:
  mta_lab asm lock.asm --out lock.image";

pub(crate) const EXPLAIN: &str = "\
Says what a word means: an operation, an access as .S, a condition, a directive, a trap by its
number, a value of the trap register as 0x806, the letters of a code, a fault as E2 or a warning as
101, or a word of the field, as race or stream. Each page has the meaning, an example that runs or a
command, and what to do. Without WORD it lists all words that have a page.

Example:
  mta_lab explain LOAD.S";

pub(crate) const WORD: &str = "\
Says what an instruction word says: its text, its hexadecimal digits and its fields. Digits begin
with 0x or are sixteen; all else is the text of an instruction. After ssw stand the digits of a status
word, as mta_sim prints it.

Examples:
  mta_lab word 0x28000
  mta_lab word ADD r1, r1, 1
  mta_lab word ssw 0000000600000001";

pub(crate) const NEW: &str = "\
Writes NAME.asm, a program of two processors to begin with, and NAME.expect, which says what each
of its ends has to be. With --from it is a lock, a semaphore that does not poll, a mailbox, a ticket
lock, a barrier, or a switch by which a group shares a room. It never writes over a file.

Examples:
  mta_lab new count
  mta_lab new door --from ticket";

pub(crate) const PAGE: &str = "\
Writes a page that shows a run, for a browser: the lanes of streams and words over time, the
source, each step forwards and backwards, who waits for whom, what was lost. The page is one
file, which needs no network. The run may have up to 100000 steps.

With OTHER the page shows two runs of the program, one above the other, up to 50000 steps each:
it opens where they first differ. With --seeds both are random schedules of these seeds.

Examples:
  mta_lab page lock.asm lock.lost_update.schedule --out lock.html
  mta_lab page lock.asm --seeds 3 8 --out both.html";

pub(crate) const PICTURE: &str = "\
Writes the lanes of a run as a picture, an SVG file: a lane a stream and a lane a word over
time, with a legend. It draws up to 500 steps: of a longer run those from --from to --to.

Examples:
  mta_lab picture lock.asm lock.lost_update.schedule --out lock.svg
  mta_lab picture lock.asm --seed 3 --from 10 --to 30 --out part.svg";

pub(crate) const PLAY: &str = "\
Writes a page on which the reader is the scheduler, for a browser: at each step the reader
chooses which stream goes on, forwards and back. The page shows which ends can still come, and
after which step the right one can no longer be reached. It is one file, which needs no network,
and has every state that a schedule of the program can reach, up to 100000. With --expect ends are
right or wrong. Up to eight ends are goals, and --goal can name any.

If a program has more states, let its loops repeat less often, or give a beginning by --from.

Examples:
  mta_lab play lock.asm --out lock.html --expect lock.expect
  mta_lab play dinner.asm --out dinner.html --goal deadlock";

pub(crate) const GALLERY: &str = "\
Writes pages of all examples and exercises into a folder, and index.html, which leads to them: a
card for each, with a picture, what it teaches, a page on which you are the scheduler, the run in
which it goes wrong, and all ends. Of an exercise it shows one wrong program, and no solution.
Levels in an order ask you to break each. The browser keeps which of them you have done. The pages
need no network: put the folder on any web server, or open index.html.

Examples:
  mta_lab gallery pages
  mta_lab gallery pages --examples . --exercises exercises";

pub(crate) const PROGRAM: &str = "the program: a source text or an image";

pub(crate) const FAIR: &str = "the processors step in turn, and within each its streams";

pub(crate) const SCHEDULE_FILE: &str =
    "its schedule: lines of processor, stream and number of steps, or * until it is blocked";

pub(crate) const PAGE_SCHEDULE: &str =
    "its schedule: lines of processor, stream and number of steps, or * until it is blocked; with --seeds its seed";

pub(crate) const SEEDS: &str = "how many random schedules, 1 to 100000000 [200]";

pub(crate) const STEPS: &str =
    "the most steps of a schedule that mta_lab makes, 1 to 1000000 [10000]";

pub(crate) const SEED: &str = "steps are random, by the rule and the generator of this seed";

pub(crate) const BEGIN: &str = "a schedule: only those that begin with it [none]";

pub(crate) const STATES: &str = "of every schedule, the most states that are explored [5000000]";

pub(crate) const SECONDS: &str = "of every schedule, the most seconds of the search [none]";

pub(crate) const MEMORY: &str = "of every schedule, the most megabytes of the search [2000]";

pub(crate) const GRADE_MEMORY: &str =
    "of every schedule, the most megabytes of all searches at a time [2000]";

pub(crate) const PART: &str = "judges part I of N of the submissions, in the order of their names";

pub(crate) const PLAIN: &str = "explores all states, even if the ends need fewer";

pub(crate) const JSON: &str = "prints JSON, an object a line";

pub(crate) const COLOUR: &str = "\
colours, auto: on a terminal, unless NO_COLOR is set [auto]";

pub(crate) const HEX: &str = "prints numbers in hexadecimal digits";

pub(crate) const EXPECT: &str = "what each end has to be: word ADDRESS VALUE [full|empty], ..";

pub(crate) const ROUND: &str =
    "marks the last N steps as a round: they come back to the same state";

pub(crate) const GIVEN: &str =
    "the words of a case, .data and .fill lines, in place of the program's own";

pub(crate) const TITLE: &str = "what the program is called [the name of its file]";
