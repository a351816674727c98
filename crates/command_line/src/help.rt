//! What `--help` says of the commands, beside what the parser of the command line prints by itself.

/// How a command ends, and where its faults are explained: the end of each help text.
pub(crate) const STATUSES: &str = "\
Exit status:
  0  the command is done
  1  a fault: one line on standard error, explained in WRITING_PROGRAMS.md (source texts)
     and in FORMATS.md (everything else)
  2  the command line asks for no command, or for help or the version";

pub(crate) const TOOL: &str = "\
Simulates processors of the Tera MTA: assembles a program to an image, and runs it by a
schedule, on threads, or in a debugger that goes back and forth.

Example:
  mta_sim asm lock.asm lock.image
  mta_sim run lock.image lock.ends.schedule";

pub(crate) const WORDS: &str = "\
Runs program words from standard input, one a line as 16 hexadecimal digits, each a step of
one stream over a memory of one full word 0, and prints the stream's state.

Example:
  printf '8010000000000005\\n' | mta_sim words";

pub(crate) const ASM: &str = "\
Assembles a source text, and writes the image. The image file is made, or emptied, before the
source is read: the two have to be different files.

Example:
  mta_sim asm lock.asm lock.image";

pub(crate) const LIST: &str = "\
Prints the source text that means just this image.

Example:
  mta_sim list lock.image";

pub(crate) const RUN: &str = "\
Runs an image by a schedule. Prints a line for each step (its number, processor, stream, the
pc before it, the outcome), and what the machine came to.

Example:
  mta_sim run lock.image lock.ends.schedule";

pub(crate) const THREADS: &str = "\
Runs an image's processors at once, each on a thread of its own. Writes a schedule that does
the same, and prints a line for each request of the memory, and what the machine came to.

Example:
  mta_sim threads lock.image 100 found.schedule
  mta_sim run lock.image found.schedule";

pub(crate) const DEBUG: &str = "\
Answers the debugger's commands from standard input, a line each, over an image's run by a
schedule: s n, c, back, g k, b p pc, w a, wt a, d n, r p s, m a n (FORMATS.md, \"Debugger\").

Example:
  mta_sim debug lock.image lock.lost_update.schedule";

pub(crate) const SOURCE: &str = "the source text to assemble";

pub(crate) const IMAGE_TO_WRITE: &str = "the image file to write; what it held is lost";

pub(crate) const IMAGE: &str = "an image file, as asm writes it";

pub(crate) const SCHEDULE: &str =
    "whose turn it is: lines of processor, stream and number of steps (1 where it is left out)";

pub(crate) const SCHEDULE_TO_WRITE: &str = "the schedule file to write; what it held is lost";

pub(crate) const FUEL: &str = "the most steps that each processor takes, 1 to 1000000";
