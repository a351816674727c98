//! A memory that keeps its history.

ghost use Rattle.std.specs.Prelude.{◌≡◌, ◌<◌, ◌-◌, ◌++◌, ◌∷◌, [], ◌↔◌, length, IfOk, OnErr, IsErr};
ghost use Rattle.tag_memory.specs.Storage.{cell_at};
ghost use Rattle.tag_memory.specs.Answer.{answer};
ghost use Rattle.processor.specs.Histories.{replay};
ghost use Rattle.shared_history.specs.SharedMemory.{IsKeptHistory};

use image_file::Image;
use processor::Entry;
use std::alloc::{AllocError, Global};
use std::marker::Model;
use tag_memory::{Memory, Reply, Request, Word};

/// There is no room for another entry of the history.
#[derive(Clone, Copy, Debug, PartialEq, Eq)]
pub struct NoRoom;

/// The memory of an image beside the history of what was asked of it, with room for so many more entries.
///
/// At every moment the words are what the history makes of the image's, each reply of it is the one that the memory
/// gave, and each entry is of a processor of the image.
#[derive(Drop)]
pub struct SharedMemory<'i> {
    // what each request writes stands together, and in front, next to the lock of the memory where it has one
    history: Vec<Entry>,
    spare: usize,
    image: &'i Image,
    memory: Memory,
}

impl<'i> Model for SharedMemory<'i> {
    ghost use Rattle.std.specs.Prelude.{◌≤◌, ◌+◌, vec_len, vec_capacity};
    ghost use Rattle.shared_history.specs.SharedMemory.{SharedValue, IsReplayed};

    ghost Value = { SharedValue };

    ghost view = { λ m. record { image = m.image.now; history = m.history.items; spare = m.spare } };

    ghost invariant = { λ m.
        IsReplayed m.image.now m.history.items m.memory
        × (vec_len m.history + m.spare ≤ vec_capacity m.history) };
}

impl<'i> SharedMemory<'i> {
    /// The image's memory with an empty history, and room for so many entries.
    pub fn new(alloc: Global, image: &'i Image, room: usize) -> Result<SharedMemory<'i>, AllocError>
        ensures { IfOk result (λ m. m ≡ record { image = image.entry.now; history = []; spare = room }) }
    {
        let memory = Memory::with_chain(alloc, image.cells(), image.chain_limit())?;
        let history = Vec::with_capacity(alloc, room)?;
        Ok(SharedMemory {
            image,
            memory,
            history,
            spare: room,
        })
    }

    /// Answers a request of stream `s` of processor `p`, and keeps both as the last entry of the history, whatever
    /// the reply is. `NoRoom` exactly where there is no room for an entry: then nothing is asked and nothing changes.
    pub fn ask(&mut self, p: u8, s: u8, request: &Request) -> Result<Reply, NoRoom>
        requires { p < length self.old.image.entries }
        ensures entry { IfOk result (λ reply. self.new ≡ record self.old {
          history = self.old.history ++ record { p = p; s = s; request = request.now; reply = reply } ∷ [];
          spare = self.old.spare - 1;
        }) }
        ensures reply { IfOk result (λ reply.
            reply ≡ (answer (replay self.old.image self.old.history) request.now).1) }
        ensures full { IsErr result ↔ (self.old.spare ≡ 0) }
        ensures err { OnErr result (self.new ≡ self.old) }
    {
        if self.spare == 0 {
            return Err(NoRoom);
        }
        let reply = self.memory.serve(request);
        self.history.push_reserved(Entry {
            p,
            s,
            request: *request,
            reply,
        });
        self.spare -= 1;
        Ok(reply)
    }

    /// The history: what was asked, in order, with the replies.
    pub fn entries(&self) -> &[Entry]
        ensures is { result.now ≡ self.now.history }
        ensures kept { IsKeptHistory self.now }
    {
        &self.history
    }

    /// The image whose memory it was at first.
    pub fn image(&self) -> &'i Image
        ensures { result.now ≡ self.now.image }
    {
        self.image
    }

    /// The word at a byte address; None where the address is not a multiple of 8, or past the last word.
    pub fn word(&self, address: u64) -> Option<Word>
        ensures { result ≡ cell_at (replay self.now.image self.now.history) address }
    {
        self.memory.word(address)
    }

    /// For how many more entries there is room.
    pub fn spare(&self) -> usize
        ensures { result ≡ self.now.spare }
    {
        self.spare
    }
}
