//! How the tool ends.
ghost use Rattle.std.specs.Prelude.{◌≡◌};
ghost use Rattle.mta_sim.specs.Statuses.{exit_status_of};

/// How the tool ended ("The command line", docs/FORMATS.md).
#[derive(Clone, Copy, Debug, PartialEq, Eq)]
pub enum ExitStatus {
    /// The command is done.
    Done,
    /// The command met a fault.
    Fault,
    /// The command line asks for no command; it may ask for help.
    NoCommand,
}

impl ExitStatus {
    /// The number that the program exits with: 0, 1 and 2 in the order of the variants.
    pub fn number(self) -> u8
        ensures { result ≡ exit_status_of self }
    {
        match self {
            ExitStatus::Done => 0,
            ExitStatus::Fault => 1,
            ExitStatus::NoCommand => 2,
        }
    }
}
