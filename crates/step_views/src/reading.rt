//! What stands in the places of a machine's world.

ghost use Rattle.std.specs.Prelude.{◌≡◌};
ghost use Rattle.std.specs.Option.{option_copied};
ghost use Rattle.step_views.specs.Places.{content_of, part_content, used_stream};

use crate::places::{Content, Place, StreamPart};
use machine::Machine;
use stream_core::Stream;

/// What stands in a place of the machine's world; None where it has no such place.
#[tactic(auto, unfolding(crate::specs::Places::content_of))]
pub fn content_of<const S: usize>(machine: &Machine<'_, S>, place: Place) -> Option<Content>
    ensures { result ≡ content_of machine.now.world place }
{
    match place {
        Place::Stream { p, s, part } => {
            let stream = stream_of(machine, p, s)?;
            part_content(stream, part)
        }
        Place::Current { p } => {
            let (current, _) = machine.counts(p)?;
            Some(Content::Number(u64::from(current)))
        }
        Place::Reserved { p } => {
            let (_, reserved) = machine.counts(p)?;
            Some(Content::Number(u64::from(reserved)))
        }
        Place::Value { address } => {
            let word = machine.word(address)?;
            Some(Content::Number(word.value()))
        }
        Place::Tags { address } => {
            let word = machine.word(address)?;
            Some(Content::Tags(word.tags()))
        }
    }
}

/// What stands in a part of a stream; None in a register past the last one.
pub(crate) fn part_content(stream: &Stream, part: StreamPart) -> Option<Content>
    ensures { result ≡ part_content stream.now part }
{
    let ssw = stream.ssw();
    match part {
        StreamPart::Pc => Some(Content::Number(u64::from(ssw.pc))),
        StreamPart::Codes => Some(Content::Codes(ssw.codes)),
        StreamPart::Mask => Some(Content::Mask(ssw.mask)),
        StreamPart::InTrap => Some(Content::InTrap(ssw.in_trap)),
        StreamPart::TrapRegister => Some(Content::Number(stream.xr())),
        StreamPart::Retries => Some(Content::Number(u64::from(stream.retries()))),
        StreamPart::Status => Some(Content::Status(stream.status())),
        StreamPart::Register(register) => stream.reg(register).map(Content::Number),
        StreamPart::Target(target) => stream.target(target).map(Content::Target),
    }
}

/// The stream of these numbers; None where there is no such processor, and from the image's slim on.
pub(crate) fn stream_of<'m, const S: usize>(
    machine: &'m Machine<'_, S>,
    p: u8,
    s: u8,
) -> Option<&'m Stream>
    ensures { option_copied result ≡ used_stream machine.now.world p s }
{
    if u16::from(s) >= machine.image().slim() {
        return None;
    }
    machine.stream(p, s)
}
