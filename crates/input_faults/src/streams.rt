//! The processors and streams that a schedule names.

use crate::schedule_notes::ScheduleLine;
use fault_messages::{Notes, TextLine, Token};
use image_file::Image;
use plain_text::TextWriter;
use std::alloc::{AllocError, Global};

/// How many pairs of a processor's and a stream's number there are.
const PAIRS: usize = 65_536;

/// The processors and streams of a program, and which streams of a schedule are reported as missing.
#[derive(Drop)]
pub(crate) struct Streams {
    processors: usize,
    slim: u16,
    reported: Vec<bool>,
}

impl Streams {
    /// Of this image; without one, no stream is missing.
    pub(crate) fn of(alloc: Global, image: Option<&Image>) -> Result<Streams, AllocError> {
        Ok(match image {
            Some(image) => Streams {
                processors: image.processors(),
                slim: image.slim(),
                reported: vec![in alloc; false; PAIRS]?,
            },
            None => Streams {
                processors: 256,
                slim: 256,
                reported: Vec::new(alloc),
            },
        })
    }

    /// Warns of a stream that is not there, where it is named first.
    pub(crate) fn see(
        &mut self,
        notes: &mut Notes,
        line: &TextLine,
        fields: ScheduleLine,
    ) -> Result<(), AllocError> {
        let ScheduleLine {
            processor,
            stream,
            ..
        } = fields;
        let is_there = usize::from(processor) < self.processors && u16::from(stream) < self.slim;
        if is_there || self.is_reported(processor, stream) {
            return Ok(());
        }
        if usize::from(processor) < self.processors {
            self.note_stream(notes, line, fields)
        } else {
            self.note_processor(notes, line, fields)
        }
    }

    /// Whether a stream was reported already; from now on it is.
    fn is_reported(&mut self, processor: u8, stream: u8) -> bool {
        let place = usize::from(processor) * 256 + usize::from(stream);
        if place < self.reported.len() {
            let is_reported = self.reported[place];
            self.reported[place] = true;
            is_reported
        } else {
            false
        }
    }

    fn note_processor(
        &self,
        notes: &mut Notes,
        line: &TextLine,
        fields: ScheduleLine,
    ) -> Result<(), AllocError> {
        notes.words.put("processor ");
        notes.words.put_number(u64::from(fields.processor));
        notes.words.put(" is not there");
        if self.processors == 1 {
            notes.help.put("the program has processor 0 alone");
        } else {
            notes.help.put("the program has the processors 0 to ");
            notes
                .help
                .put_number(self.processors.saturating_sub(1) as u64);
        }
        let field = Token::of_line(line.bytes).cut(b' ').0;
        notes.add(line.spot(field))
    }

    fn note_stream(
        &self,
        notes: &mut Notes,
        line: &TextLine,
        fields: ScheduleLine,
    ) -> Result<(), AllocError> {
        notes.words.put("stream ");
        notes.words.put_number(u64::from(fields.stream));
        notes.words.put(" of processor ");
        notes.words.put_number(u64::from(fields.processor));
        notes.words.put(" is not there");
        put_streams(&mut notes.help, self.slim);
        let (first, rest) = Token::of_line(line.bytes).cut(b' ');
        let field = rest.unwrap_or(first).cut(b' ').0;
        notes.add(line.spot(field))
    }
}

/// Adds which streams a processor has.
fn put_streams(help: &mut TextWriter, slim: u16) {
    help.put("a processor has ");
    if slim == 1 {
        help.put("stream 0 alone (.slim 1)");
    } else {
        help.put("the streams 0 to ");
        help.put_number(u64::from(slim.saturating_sub(1)));
        help.put(" (.slim ");
        help.put_number(u64::from(slim));
        help.put(")");
    }
}
