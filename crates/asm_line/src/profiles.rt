//! The profile that a line says.

ghost use Rattle.std.specs.Prelude.{◌≡◌};
ghost use Rattle.asm_line.specs.Profiles.{profile_or_one, profile_named};
ghost use Rattle.asm_line.specs.SourceLines.{line_seen};

use crate::arguments::read_arguments;
use crate::directive::read_profile;
use crate::fault::Fault;
use crate::lines::SourceLine;
use crate::names;
use crate::operation::Directive;
use crate::text::{begins, split_head, tail};
use insn_word::Profile;

/// The profile that a line says, if its statement is a `.profile`: that of its number, or Profile 1 where it has a
/// fault. The first line of a text that says one decides its profile ("Profile 2", docs/WRITING_PROGRAMS.md).
#[tactic(auto, unfolding(crate::specs::Profiles::profile_named))]
pub fn profile_named(line: &SourceLine) -> Option<Profile>
    ensures { result ≡ profile_named (line_seen line.now) }
{
    // Most lines are told apart by their first byte or two.
    if !begins(line.statement, b'.') {
        return None;
    }
    if !begins(tail(line.statement), b'p') {
        return None;
    }
    let (head, behind) = split_head(line.statement);
    if head == names::directive(Directive::Profile).as_bytes() {
        Some(profile_or_one(read_profile(&read_arguments(behind))))
    } else {
        None
    }
}

fn profile_or_one(profile: Result<Profile, Fault>) -> Profile
    ensures { result ≡ profile_or_one profile }
{
    profile.unwrap_or(Profile::One)
}
