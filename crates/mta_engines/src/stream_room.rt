//! Which room for streams the machine of an image has.
ghost use Rattle.std.specs.Prelude.{◌≡◌, ◌≤◌};
ghost use Rattle.mta_engines.specs.Rooms.{room_for, room_size};

use image_file::Image;

/// The most streams of a processor that a machine has room for, `S` of [`Machine`](machine::Machine). A machine with
/// less room takes less memory.
#[derive(Clone, Copy)]
pub(crate) enum StreamRoom {
    /// 8 streams.
    Small,
    /// 128 streams, which are as many as an image can ask for.
    Large,
}

impl StreamRoom {
    /// The room of an image's machine: 8 streams where its slim is at most 8, else 128.
    pub(crate) fn of(image: &Image) -> StreamRoom
        ensures is { result ≡ room_for image.now.slim }
        ensures fits { image.now.slim ≤ room_size result }
    {
        // the clauses of `slim` say that it is at most 128
        if image.slim() <= 8 {
            StreamRoom::Small
        } else {
            StreamRoom::Large
        }
    }
}
