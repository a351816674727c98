//! Operations of other machines, as they are written here with their own operands.

use crate::marked::Marked;
use crate::pieces::{operands_of, text_of};
use crate::proposals::Proposals;
use crate::references::base_and_words;
use fault_messages::Token;
use std::alloc::AllocError;

/// What the sentences about operations of other machines begin with, and after `=` how the operation is written here: `%1`
/// to `%3` are its operands, and `%b` is the second one as base and words. What stands before a bar is on a line of its
/// own. It is one text, since each text costs the prover time.
const CURES: &str = "ADD r1, r2, 0 copies =ADD %1, %2, 0
ADD r1, r2, 0 copies =LIT %1, %2
LIT r1, 5 sets r1 to 5=LIT %1, %2
LOAD.N r1, r0, 2 reads =LOAD.N %1, %b
STORE.N r1, r0, 2 writes =STORE.N %1, %b
ADD r1, r1, 1 adds 1 =ADD %1, %1, 1
SUB r1, r1, 1 subtracts 1 =SUB %1, %1, 1
SUB r1, r0, r1 negates =SUB %1, r0, %1
SUB r1, r0, r1 negates =SUB %1, r0, %2
LIT r1, 0 sets r1 to 0=LIT %1, 0
SUB.T r0, r1, r2 compares,=SUB.T r0, %1, %2
SUB.T r0, r1, r2 and then SKIP EQ,=SUB.T r0, %1, %2|SKIP EQ, 0, %3
SUB.T r0, r1, r2 and then SKIP NE,=SUB.T r0, %1, %2|SKIP NE, 0, %3
SUB.T r0, r1, r2 and then SKIP LT,=SUB.T r0, %1, %2|SKIP LT, 0, %3
SUB.T r0, r1, r2 and then SKIP GE,=SUB.T r0, %1, %2|SKIP GE, 0, %3
SUB.T r0, r1, r2 and then SKIP GT,=SUB.T r0, %1, %2|SKIP GT, 0, %3
SUB.T r0, r1, r2 and then SKIP LE,=SUB.T r0, %1, %2|SKIP LE, 0, %3
SUB.T r0, r1, r2 and then SKIP LTU,=SUB.T r0, %1, %2|SKIP LTU, 0, %3
SUB.T r0, r1, r2 and then SKIP GEU,=SUB.T r0, %1, %2|SKIP GEU, 0, %3
SKIP ALWAYS, 0, label goes =SKIP ALWAYS, 0, %1
TLIT t1, label and then CALL t1, t2=TLIT t1, %1|CALL t1, t2
JUMP ALWAYS, 0, t2 goes back =JUMP ALWAYS, 0, t2
QUIT ends a stream=QUIT";

/// Proposes how an operation of another machine is written here, where it has as many operands as are used.
pub(crate) fn propose_foreign(out: &mut Proposals, marked: &Marked) -> Result<(), AllocError> {
    let operands = operands_of(out.alloc(), marked.operation())?;
    for row in CURES.split('\n') {
        match row.split_once('=') {
            Some((sentence, written)) if marked.help.starts_with(sentence) => {
                propose_row(out, marked, &operands, written)?
            }
            _ => {}
        }
    }
    Ok(())
}

/// Proposes what a row of the table has.
fn propose_row(
    out: &mut Proposals,
    marked: &Marked,
    operands: &[Token],
    written: &str,
) -> Result<(), AllocError> {
    let Some(text) = filled(out, operands, written)? else {
        return Ok(());
    };
    match text.as_str().split_once('|') {
        Some((first, second)) => out.write_after(&marked.line, first, marked.operation(), second),
        None => out.write(&marked.line, marked.operation(), text.as_str()),
    }
}

/// A row with these operands; None where it uses more of them, or fewer.
fn filled(
    out: &Proposals,
    operands: &[Token],
    written: &str,
) -> Result<Option<String>, AllocError> {
    let mut text = String::new(out.alloc());
    let mut used: usize = 0;
    for (number, part) in written.split('%').enumerate() {
        if number == 0 {
            text.push_str(part)?;
            continue;
        }
        let place = place_of(part);
        used = used.max(place.saturating_add(1));
        let Some(operand) = operands.get(place) else {
            return Ok(None);
        };
        if !push_operand(out, &mut text, *operand, part)? {
            return Ok(None);
        }
        text.push_str(part.get(1..).unwrap_or(""))?;
    }
    if used == operands.len() {
        Ok(Some(text))
    } else {
        Ok(None)
    }
}

/// Which operand the part after `%` stands for, from 0.
fn place_of(part: &str) -> usize {
    if part.starts_with('1') {
        0
    } else if part.starts_with('3') {
        2
    } else {
        1
    }
}

/// Adds an operand as the letter after `%` has it, and answers whether it can be written so.
fn push_operand(
    out: &Proposals,
    text: &mut String,
    operand: Token,
    part: &str,
) -> Result<bool, AllocError> {
    if !part.starts_with('b') {
        text.push_str(text_of(operand))?;
        return Ok(true);
    }
    match base_and_words(out.alloc(), operand)? {
        Some(written) => {
            text.push_str(written.as_str())?;
            Ok(true)
        }
        None => Ok(false),
    }
}
