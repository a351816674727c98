//! The programs that `new` writes: a count, or one of the ways of working together ("Idioms of synchronisation",
//! docs/WRITING_PROGRAMS.md).

use lab_requests::Idiom;

/// A program to begin with.
#[derive(Clone, Copy)]
pub(crate) struct FirstProgram {
    /// What it is.
    pub about: &'static str,
    /// Its text.
    pub source: &'static str,
    /// What each of its ends has to be.
    pub expected: &'static str,
}

/// The program that shows this, or a count.
pub(crate) fn first_program(idiom: Option<Idiom>) -> FirstProgram {
    match idiom {
        None => COUNT,
        Some(Idiom::Lock) => LOCK,
        Some(Idiom::Semaphore) => SEMAPHORE,
        Some(Idiom::Mailbox) => MAILBOX,
        Some(Idiom::Ticket) => TICKET,
        Some(Idiom::Barrier) => BARRIER,
        Some(Idiom::Switch) => SWITCH,
    }
}

/// Two processors that count.
const COUNT: FirstProgram = FirstProgram {
    about: "a program of two processors",
    source: "\
; two processors add to one count
        .slim 1
        .entry start
        .entry start
        .data 0                 ; [0] the count

start:  LIT r1, 1
        FADD.N r1, r0, 0        ; [0] becomes [0] + 1, at once
        QUIT
",
    expected: "\
word 0 2                # both have counted
finished                # all streams have finished
",
};

/// A lock.
const LOCK: FirstProgram = FirstProgram {
    about: "a lock: one at a time is inside",
    source: "\
; a lock: one at a time is inside
        .slim 1
        .entry enter
        .entry enter
        .data 0                 ; [0] the count, and the lock: empty while somebody has it

enter:  LOAD.S r1, r0, 0        ; takes the count: the others wait
        ADD r1, r1, 1
leave:  STORE.S r1, r0, 0       ; puts it back
        QUIT
",
    expected: "\
always at most 1 of 0.0 1.0 in enter+1..leave
word 0 2 full           # both have counted
finished                # all streams have finished
",
};

/// A semaphore that does not poll.
const SEMAPHORE: FirstProgram = FirstProgram {
    about: "a semaphore: two at a time are inside",
    source: "\
; a semaphore: two of three are inside at a time
        .slim 1
        .entry enter
        .entry enter
        .entry enter
        .data 2                 ; [0] the free places, less those who wait
        .data 0, 0              ; [8] a token for one who waits

enter:  SUB r1, r0, 1           ; P: takes a place, or counts as one who waits
        FADD.N r1, r0, 0
        SUB.T r0, r1, 0
        SKIP GT, 0, inside      ; a place was free
        LOAD.S r0, r0, 1        ; waits for a token
inside: NOP                     ; what two may do at a time
leave:  LIT r1, 1               ; V: releases the place
        FADD.N r1, r0, 0
        SUB.T r0, r1, 0
        SKIP GE, 0, end         ; nobody waits
        STORE.S r0, r0, 1       ; a token for one who does
end:    QUIT
",
    expected: "\
always at most 2 of 0.0 1.0 2.0 in inside..leave
some word 0 is 0        # both places can be taken
never busy              # nobody asks again and again
word 0 2                # all places are free again
word 8 0 empty          # no token is left
finished                # all streams have finished
",
};

/// A mailbox.
const MAILBOX: FirstProgram = FirstProgram {
    about: "a mailbox: one puts values in, the other takes them out",
    source: "\
; a mailbox: processor 0 puts in 3, 2, 1 and 0, and processor 1 adds them up to the 0
        .slim 1
        .entry send
        .entry receive
        .data 0, 0              ; [0] the mailbox: empty while nothing is in it
        .data 0                 ; [8] the sum

send:   LIT r1, 3
put:    STORE.S r1, r0, 0       ; waits until it is empty, and fills it
        SUB.T r1, r1, 1
        SKIP GE, 0, put
        QUIT

receive: LOAD.S r2, r0, 0       ; waits until it is full, and empties it
        ADD r3, r3, r2
        SUB.T r0, r2, 0
        SKIP NE, 0, receive
        STORE.N r3, r0, 1
        QUIT
",
    expected: "\
some word 0 full        # at some time a value is in it
word 0 0 empty          # the last one was taken out
word 8 6                # 3 and 2 and 1
finished                # all streams have finished
",
};

/// A ticket lock.
const TICKET: FirstProgram = FirstProgram {
    about: "a ticket lock: who comes first is served first",
    source: "\
; a ticket lock: who comes first is served first
        .slim 1
        .entry enter
        .entry enter
        .data 0                 ; [0] the next ticket
        .data 0                 ; [8] whose turn it is
        .data 0                 ; [16] the visits

enter:  LIT r1, 1
        FADD.N r1, r0, 0        ; r1: my ticket
ask:    LOAD.N r2, r0, 1
        SUB.T r0, r2, r1
        SKIP NE, 0, ask         ; not my turn
inside: LOAD.N r3, r0, 2
        ADD r3, r3, 1
        STORE.N r3, r0, 2
leave:  ADD r1, r1, 1
        STORE.N r1, r0, 1       ; the next one's turn
        QUIT
",
    expected: "\
always at most 1 of 0.0 1.0 in inside..leave
word 16 2               # both were inside
finished                # all streams have finished
",
};

/// A barrier.
const BARRIER: FirstProgram = FirstProgram {
    about: "a barrier: nobody goes on before all have come",
    source: "\
; a barrier: nobody goes on before both have come
        .slim 1
        .entry come
        .entry come
        .data 0                 ; [0] how many have come
        .data 0                 ; [8] the gate: 1 if it is open
        .data 0                 ; [16] what both have seen in [0], added up

come:   LIT r1, 1
        FADD.N r1, r0, 0        ; r1: how many came before
        SUB.T r0, r1, 1
        SKIP NE, 0, wait
        LIT r1, 1               ; the last one opens the gate
        STORE.N r1, r0, 1
wait:   LOAD.N r2, r0, 1
        SUB.T r0, r2, 1
        SKIP NE, 0, wait        ; the gate is shut
        LOAD.N r3, r0, 0        ; goes on: how many have come?
        FADD.N r3, r0, 2
        QUIT
",
    expected: "\
never word 16 is 1      # nobody goes on while one alone has come
word 0 2                # both have come
word 16 4               # and each has seen it
finished                # all streams have finished
",
};

/// A lightswitch.
const SWITCH: FirstProgram = FirstProgram {
    about: "a switch: a group shares a room with nobody else",
    source: "\
; a switch: the first one of a group takes the room for all of them, and the last one releases it
        .slim 1
        .entry enter
        .entry enter
        .entry alone
        .data 0                 ; [0] the room: full while nobody is in it
        .data 0                 ; [8] how many of the group are inside

enter:  LOAD.S r1, r0, 1        ; takes the count
        SUB.T r0, r1, 0
        SKIP NE, 0, more
        LOAD.S r0, r0, 0        ; the first one takes the room
more:   ADD r1, r1, 1
        STORE.S r1, r0, 1 | SKIP ALWAYS, 0, inside

alone:  LOAD.S r0, r0, 0        ; one that needs the room for itself
work:   NOP
        STORE.S r0, r0, 0 | SKIP ALWAYS, 0, end

inside: NOP                     ; what the group may do together
leave:  LOAD.S r1, r0, 1
        SUB.T r1, r1, 1
        SKIP NE, 0, rest
        STORE.S r0, r0, 0       ; the last one releases it
rest:   STORE.S r1, r0, 1
end:    QUIT
",
    expected: "\
always at most 1 of 0.0 2.0 in work..leave
always at most 1 of 1.0 2.0 in work..leave
some word 8 is 2        # two of the group are inside at a time
words 0..8 0 full       # the room is free, and nobody is inside
finished                # all streams have finished
",
};
