//! The command `exercise --watch`: the program of an exercise is judged each time that its file changes.

use crate::asked_pages::ExercisePages;
use crate::exercising::place_of;
use crate::hints::show_hint;
use crate::reporting::{AskedExercise, answer_exercise, answer_of};
use crate::shown_answers::show;
use crate::typed_keys::{ReadKey, TypedKey, read_keys_if_first};
use crossbeam_channel::{Receiver, RecvTimeoutError};
use editor_wire::{has_begun, has_second_thread};
use exercise_advice::searches::Console;
use exercise_files::parts::{CommandAnswer, Inputs, LabFault, Status};
use exercise_files::{Exercise, read_exercises, read_part_or_why};
use lab_requests::{ExerciseRequest, ExerciseTask};
use plain_text::TextWriter;
use printed_lines::Printer;
use std::alloc::{AllocError, Global};
use std::io::{Read, Write};
use std::marker::Send;
use std::rt::Files;
use std::sync::Wait;
use std::sync::atomic::AtomicBool;
use std::thread;
use std::thread::Threads;
use std::time::{Clock, Duration};

/// How many seconds pass between two looks at the file.
const REST: u64 = 1;

/// How many lines wait at most while a program is judged.
const WAITING: usize = 4;

/// The file of the page that is asked for by a key.
const PAGE: &str = "run.html";

/// What the keys are.
const KEYS: &str =
    "Type h for a hint, p for a page of the run, n for the next exercise, or q to end; then Enter.\n";

/// Why nothing is watched where the system starts no thread.
const NO_THREAD: &str = "--watch takes a second thread, and the system starts none";

/// Judges the program of an exercise each time that its file changes, and says what comes of it, up to a line that asks for
/// the end, or to the end of standard input. A thread reads the lines. If standard input can't be read, that is the fault.
pub fn watch_exercise<
    X: Threads + Wait + Sync + Clock,
    F: Files,
    R: Read + Send,
    W: Write,
    E: Write,
    P: ExercisePages,
>(
    rt: &X,
    alloc: Global,
    inputs: &mut Inputs<'_, F, R>,
    request: &ExerciseRequest,
    printer: &mut Printer<'_, W>,
    pages: &P,
    console: &mut Console<'_, X, E>,
) -> Result<Status, LabFault> {
    let exercises = read_exercises(alloc, inputs, request.folder)?;
    let place = place_of(alloc, &exercises, request)?;
    let watched = WatchedExercise {
        request: *request,
        exercises: &exercises,
        place,
        seen: None,
        hints: 0,
    };
    watch_on_threads(rt, alloc, inputs, watched, printer, pages, console)
}

/// Watches on one thread, while another one reads.
fn watch_on_threads<
    X: Threads + Wait + Sync + Clock,
    F: Files,
    R: Read + Send,
    W: Write,
    E: Write,
    P: ExercisePages,
>(
    rt: &X,
    alloc: Global,
    inputs: &mut Inputs<'_, F, R>,
    watched: WatchedExercise<'_, '_>,
    printer: &mut Printer<'_, W>,
    pages: &P,
    console: &mut Console<'_, X, E>,
) -> Result<Status, LabFault> {
    if !has_second_thread(rt) {
        return Err(no_thread(alloc));
    }
    let (sender, keys) = crossbeam_channel::bounded(alloc, WAITING)?;
    let is_begun = AtomicBool::new(false);
    let files = inputs.files;
    let input = &mut *inputs.input;
    let (_, ended) = thread::join(
        rt,
        || read_keys_if_first(rt, &is_begun, input, sender),
        || {
            let ports = WatchPorts {
                files,
                keys,
                printer,
                pages,
                console,
            };
            watch_if_begun(rt, alloc, &is_begun, watched, ports)
        },
    );
    ended
}

/// Watches, if the thread that reads begins.
fn watch_if_begun<X: Threads + Wait + Sync + Clock, F: Files, W: Write, E: Write, P: ExercisePages>(
    rt: &X,
    alloc: Global,
    is_begun: &AtomicBool,
    watched: WatchedExercise<'_, '_>,
    ports: WatchPorts<'_, '_, '_, F, W, P, X, E>,
) -> Result<Status, LabFault> {
    if !has_begun(rt, is_begun) {
        return Err(no_thread(alloc));
    }
    let (mut watched, mut ports) = (watched, ports);
    watched.watch(rt, alloc, &mut ports)
}

/// That the system starts no thread.
fn no_thread(alloc: Global) -> LabFault {
    match String::from_str(alloc, NO_THREAD) {
        Ok(words) => LabFault::Words(words),
        Err(_) => LabFault::NoMemory,
    }
}

/// Where what is watched comes from, and where answers go.
#[derive(Drop)]
struct WatchPorts<'p, 'w, 'c, F, W, P, X, E> {
    files: &'p F,
    keys: Receiver<ReadKey, Global>,
    printer: &'p mut Printer<'w, W>,
    pages: &'p P,
    console: &'p mut Console<'c, X, E>,
}

/// The exercise that is watched.
#[derive(Drop)]
struct WatchedExercise<'e, 'r> {
    request: ExerciseRequest<'r>,
    exercises: &'e [Exercise],
    /// Its place among all.
    place: usize,
    /// The text of its program that was judged last.
    seen: Option<Vec<u8>>,
    /// How many of its hints were shown.
    hints: usize,
}

impl WatchedExercise<'_, '_> {
    /// Looks at the file again and again, and answers what is typed.
    fn watch<X: Threads + Wait + Sync + Clock, F: Files, W: Write, E: Write, P: ExercisePages>(
        &mut self,
        rt: &X,
        alloc: Global,
        ports: &mut WatchPorts<'_, '_, '_, F, W, P, X, E>,
    ) -> Result<Status, LabFault> {
        print_keys(alloc, ports.printer)?;
        for _ in rt.forever() {
            self.look(
                rt,
                alloc,
                ports.files,
                ports.printer,
                ports.pages,
                ports.console,
            )?;
            let key = match ports.keys.recv_timeout(rt, Duration::from_secs(REST)) {
                Ok(Ok(TypedKey::Quit)) | Err(RecvTimeoutError::Disconnected) => {
                    return Ok(Status::Done);
                }
                Ok(Ok(key)) => key,
                Ok(Err(error)) => {
                    return Err(LabFault::Words(format!(in alloc; "-: read failed: {error}")?));
                }
                Err(RecvTimeoutError::Timeout) => continue,
            };
            self.react(
                rt,
                alloc,
                ports.files,
                key,
                ports.printer,
                ports.pages,
                ports.console,
            )?;
        }
        unreachable!()
    }

    /// Says what comes of the program, if its text has changed.
    fn look<X: Threads + Sync + Clock, F: Files, W: Write, E: Write, P: ExercisePages>(
        &mut self,
        rt: &X,
        alloc: Global,
        files: &F,
        printer: &mut Printer<'_, W>,
        pages: &P,
        console: &mut Console<'_, X, E>,
    ) -> Result<(), LabFault> {
        let mut nothing: &[u8] = b"";
        let mut inputs = Inputs::new(alloc, files, &mut nothing);
        if !self.has_changed(alloc, &mut inputs)? {
            return Ok(());
        }
        let task = ExerciseTask::Judge;
        let answered = self.judged(rt, alloc, &mut inputs, task, pages, console);
        show(alloc, answered, printer, console)
    }

    /// Answers what is typed.
    fn react<X: Threads + Sync + Clock, F: Files, W: Write, E: Write, P: ExercisePages>(
        &mut self,
        rt: &X,
        alloc: Global,
        files: &F,
        key: TypedKey,
        printer: &mut Printer<'_, W>,
        pages: &P,
        console: &mut Console<'_, X, E>,
    ) -> Result<(), LabFault> {
        let mut nothing: &[u8] = b"";
        let mut inputs = Inputs::new(alloc, files, &mut nothing);
        let answered = self.answer(rt, alloc, &mut inputs, key, pages, console);
        show(alloc, answered, printer, console)
    }

    /// Whether the text of the program is another one than that which was judged last, which it then is. One that can't
    /// be read counts as empty, and an empty one as no other: it may be a file that is just being written.
    fn has_changed<F: Files, R: Read>(
        &mut self,
        alloc: Global,
        inputs: &mut Inputs<'_, F, R>,
    ) -> Result<bool, AllocError> {
        let Some(exercise) = self.exercises.get(self.place) else {
            return Ok(false);
        };
        let start = exercise.file(alloc, "start.asm")?;
        let text = match read_part_or_why(alloc, inputs, &start)? {
            Ok(text) => text,
            Err(_) => Vec::new(alloc),
        };
        if let Some(seen) = &self.seen
            && (text.is_empty() || seen.as_slice() == text.as_slice())
        {
            return Ok(false);
        }
        self.seen = Some(text);
        Ok(true)
    }

    /// What is said of the program; and if it is right, how many exercises are done.
    fn judged<X: Threads + Sync + Clock, F: Files, R: Read, E: Write, P: ExercisePages>(
        &self,
        rt: &X,
        alloc: Global,
        inputs: &mut Inputs<'_, F, R>,
        task: ExerciseTask<'_>,
        pages: &P,
        console: &mut Console<'_, X, E>,
    ) -> Result<CommandAnswer, LabFault> {
        let Some(exercise) = self.exercises.get(self.place) else {
            return Err(LabFault::Closed);
        };
        let asked = AskedExercise {
            exercise,
            next: self.exercises.get(self.place.saturating_add(1)),
            all: self.exercises,
            names_page: false,
            counts_done: true,
        };
        let request = ExerciseRequest {
            folder: self.request.folder,
            which: self.request.which,
            task,
        };
        answer_exercise(rt, alloc, inputs, &request, asked, pages, console)
    }

    /// What is answered to a line.
    fn answer<X: Threads + Sync + Clock, F: Files, R: Read, E: Write, P: ExercisePages>(
        &mut self,
        rt: &X,
        alloc: Global,
        inputs: &mut Inputs<'_, F, R>,
        key: TypedKey,
        pages: &P,
        console: &mut Console<'_, X, E>,
    ) -> Result<CommandAnswer, LabFault> {
        match key {
            TypedKey::Hint => self.next_hint(alloc, inputs),
            TypedKey::Page => {
                let task = ExerciseTask::Page(PAGE);
                self.judged(rt, alloc, inputs, task, pages, console)
            }
            TypedKey::Next => self.next_exercise(alloc),
            TypedKey::Quit | TypedKey::Other => {
                let mut out = TextWriter::new(alloc);
                out.put(KEYS);
                answer_of(out, Status::Done, None)
            }
        }
    }

    /// The next hint.
    fn next_hint<F: Files, R: Read>(
        &mut self,
        alloc: Global,
        inputs: &mut Inputs<'_, F, R>,
    ) -> Result<CommandAnswer, LabFault> {
        let Some(exercise) = self.exercises.get(self.place) else {
            return Err(LabFault::Closed);
        };
        let hint = self.hints.saturating_add(1);
        let answer = show_hint(alloc, inputs, &self.request, exercise, hint)?;
        self.hints = hint;
        Ok(answer)
    }

    /// Goes on to the exercise that comes next, whose program is judged when it is looked at.
    fn next_exercise(&mut self, alloc: Global) -> Result<CommandAnswer, LabFault> {
        let next = self.place.saturating_add(1);
        let mut out = TextWriter::new(alloc);
        match self.exercises.get(next) {
            Some(exercise) => {
                self.place = next;
                self.seen = None;
                self.hints = 0;
                out.put_plain(&exercise.path);
                out.put("/task.md says what to do in ");
                out.put_plain(&exercise.path);
                out.put("/start.asm\n");
            }
            None => out.put("This is the last exercise.\n"),
        }
        answer_of(out, Status::Done, None)
    }
}

/// Prints what the keys are.
fn print_keys<W: Write>(alloc: Global, printer: &mut Printer<'_, W>) -> Result<(), LabFault> {
    let keys = String::from_str(alloc, KEYS)?;
    printer.print(&keys)
}
