//! What names and expressions stand for.

use crate::adapter::Adapter;
use crate::refusals::Refusal;
use crate::variables::style_of;
use adapter_messages::DapRequest;
use editor_wire::Json;
use lab_texts::{NumberStyle, push_word};
use named_session::{UserName, read_name};
use processor::Step;
use step_views::{Place, StreamPart};

impl<'a, 'i, 't> Adapter<'a, 'i, 't> {
    /// What an expression stands for: a register, a word, a stream, a label or a line.
    pub(crate) fn evaluate(&self, request: &DapRequest, body: &mut Json) -> Result<(), Refusal> {
        let stream = match request.number("frameId") {
            Some(id) => self.stream_of(id)?,
            None => self.last_stream,
        };
        let style = style_of(request);
        let text = request.text("expression").unwrap_or("").trim();
        let mut out = String::new(self.alloc);
        match read_name(text) {
            Some(UserName::Word(address)) => self.push_word_at(&mut out, style, address)?,
            Some(
                UserName::Register {
                    stream: other,
                    register,
                },
            ) => {
                let step = other.unwrap_or(stream);
                self.push_stream_part(&mut out, style, step, StreamPart::Register(register))?;
            }
            Some(UserName::Stream(step)) => {
                self.push_stream_part(&mut out, style, step, StreamPart::Pc)?;
            }
            Some(UserName::Line(line)) => {
                self.push_program_word(&mut out, self.named.word_of_line(line))?;
            }
            Some(UserName::Label(name)) => match self.names.address_named(name) {
                Some(address) => self.push_word_at(&mut out, style, address)?,
                None => self.push_program_word(&mut out, self.named.word_of_label(name))?,
            },
            None => match self.names.address_of(text) {
                Some(address) => self.push_word_at(&mut out, style, address)?,
                None => return Err(Refusal::Words(
                    "r1, 2.0.r1, [8], the name of a word, 2.0, a label or a line is shown",
                )),
            },
        }
        body.open();
        body.text_of("result", &out);
        body.number_of("variablesReference", 0);
        body.close();
        Ok(())
    }

    /// Adds a word of the memory.
    fn push_word_at(
        &self,
        out: &mut String,
        style: NumberStyle,
        address: u64,
    ) -> Result<(), Refusal> {
        match self.named.session.machine().word(address) {
            Some(word) => Ok(push_word(out, style, word)?),
            None => Err(Refusal::Words("there is no word at this address")),
        }
    }

    /// Adds what stands in a part of a stream.
    fn push_stream_part(
        &self,
        out: &mut String,
        style: NumberStyle,
        step: Step,
        part: StreamPart,
    ) -> Result<(), Refusal> {
        let place = Place::Stream {
            p: step.p,
            s: step.s,
            part,
        };
        match self.named.value(place) {
            Some(content) => self.push_content(out, style, part, content),
            None => Err(Refusal::Words("there is no such stream")),
        }
    }

    /// Adds a program word: its place and its instruction.
    fn push_program_word(&self, out: &mut String, word: Option<u32>) -> Result<(), Refusal> {
        let Some(word) = word else {
            return Err(Refusal::Words("the program has no such label or line"));
        };
        self.names.push_place(out, word)?;
        out.push_str(": ")?;
        Ok(out.push_str(self.names.statement(word))?)
    }
}
