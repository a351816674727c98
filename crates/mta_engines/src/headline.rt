//! The first half of the headline: assembler, loader, lister and debugger give the same machine.
ghost use Rattle.std.specs.Prelude.{◌≡◌, ◌≤◌, length, IfOk, MatchResult, string_bytes};
ghost use Rattle.image_file.specs.ImageValue.{ImageValue};
ghost use Rattle.image_file.specs.Spelling.{Stands};
ghost use Rattle.asm_text.specs.Sources.{Means, HasFault};
ghost use Rattle.replay_debugger.specs.Sessions.{session_at_start};
ghost use Rattle.mta_engines.specs.OneMachine.{IsOneMachine};

use crate::loading::{begun, loaded};
use asm_text::{AsmFault, Fault, assemble, listing, listings_are_read_back};
use debug_commands::{Command, DebugFault};
use image_file::{Image, ImageFault, image_bytes_laws, read_image, write_image};
use machine::Machine;
use processor::Step;
use replay_debugger::Session;
use std::alloc::{AllocError, Global};

/// What an image, and a text that may mean it, come to by each of the tools.
#[derive(Drop)]
pub struct OneMachine<'i, const S: usize> {
    /// What the text is assembled to, or its fault.
    pub assembled: Result<Image, AsmFault>,
    /// The image's bytes.
    pub bytes: Vec<u8>,
    /// What they are read as.
    pub read: Image,
    /// The image's listing.
    pub listing: String,
    /// What it is assembled to.
    pub listed: Image,
    /// The image, loaded.
    pub loaded: Machine<'i, S>,
    /// The same, after the steps of a schedule.
    pub after: Machine<'i, S>,
    /// A session of the debugger over the image and the schedule, at a position.
    pub session: Session<'i, S>,
    /// The machine that the session shows there, cloned.
    pub shown: Machine<'i, S>,
}

/// Takes an image along every way there is: a text is assembled, to the image exactly where it means it; the image is
/// written and read; it is listed, and the listing assembled; it is loaded, and a machine takes a schedule; and the
/// debugger goes to a position of it. The clause says that they all come to the same, which is the first half of the
/// headline (docs/PROMISES.md). Only want of memory stops it.
pub fn one_machine<'i, const S: usize>(
    alloc: Global,
    text: &[u8],
    image: &'i Image,
    schedule: Vec<Step>,
    position: u64,
) -> Result<OneMachine<'i, S>, AllocError>
    requires room { image.now.slim ≤ S }
    requires within { position ≤ length schedule.items }
    ensures { IfOk result (λ one. IsOneMachine text.now image.entry.now schedule.items position one.assembled
        one.read one.listed one.bytes.items (string_bytes one.listing) one.loaded one.after one.session one.shown) }
{
    image_bytes_laws();
    listings_are_read_back();
    let assembled = assembled(alloc, text)?;
    let bytes = write_image(alloc, image)?;
    let read = written_image(alloc, &bytes)?;
    let listing = listing(alloc, image)?;
    let listed = listed_image(alloc, &listing)?;
    let loaded = loaded(alloc, image)?;
    let mut after = loaded.try_clone()?;
    after.run(&schedule);
    let session = session_at(alloc, image, schedule, position)?;
    let shown = session.machine().try_clone()?;
    Ok(OneMachine {
        assembled,
        bytes,
        read,
        listing,
        listed,
        loaded,
        after,
        session,
        shown,
    })
}

/// The image that a text means, or its fault.
fn assembled(alloc: Global, text: &[u8]) -> Result<Result<Image, AsmFault>, AllocError>
    ensures { IfOk result (λ told. MatchResult told (Means text.now) (HasFault text.now)) }
{
    match assemble(alloc, text) {
        Ok(image) => Ok(Ok(image)),
        Err(fault) => match fault.kind {
            Fault::NoMemory => Err(AllocError),
            _ => Ok(Err(fault)),
        },
    }
}

/// The image that a listing means.
fn listed_image(alloc: Global, listing: &str) -> Result<Image, AllocError>
    requires some { (image : ImageValue) × Means listing.now image }
    ensures { IfOk result (Means listing.now) }
{
    match assembled(alloc, listing.as_bytes())? {
        Ok(image) => Ok(image),
        Err(_) => unreachable!(),
    }
}

/// The image that bytes stand for.
fn written_image(alloc: Global, bytes: &[u8]) -> Result<Image, AllocError>
    requires some { (image : ImageValue) × Stands bytes.now image }
    ensures { IfOk result (Stands bytes.now) }
{
    match read_image(alloc, bytes) {
        Ok(image) => Ok(image),
        Err(ImageFault::NoMemory) => Err(AllocError),
        Err(_) => unreachable!(),
    }
}

/// A session of the debugger, gone to a position.
fn session_at<'i, const S: usize>(
    alloc: Global,
    image: &'i Image,
    schedule: Vec<Step>,
    position: u64,
) -> Result<Session<'i, S>, AllocError>
    requires room { image.now.slim ≤ S }
    requires within { position ≤ length schedule.items }
    ensures { IfOk result (λ s.
        s ≡ record (session_at_start image.entry.now schedule.items) { position = position }) }
{
    let mut session = begun(alloc, image, schedule)?;
    match session.command(&Command::Go(position)) {
        Ok(_) => Ok(session),
        Err(DebugFault::NoMemory) => Err(AllocError),
        Err(_) => unreachable!(),
    }
}
