//! What depends on the version of an image file ("Version 2", docs/FORMATS.md).

ghost use Rattle.std.specs.Prelude.{◌≡◌, ◌≤◌};
ghost use Rattle.image_file.specs.Versions.{version_of, profile_of_version, chain_place, tail_place, header_length};

use insn_word::Profile;

/// Where the chain limit stands, in a version that has the field.
pub(crate) const CHAIN_PLACE: usize = 10;

const _: () = prove!(CHAIN_PLACE == 10);

/// The version of the files of images of a profile.
pub(crate) fn version_of(profile: Profile) -> u16
    ensures { result ≡ version_of profile }
{
    match profile {
        Profile::One => 1,
        Profile::Two => 2,
    }
}

/// The profile whose images a version has; `None` where no images have it.
pub(crate) fn profile_of_version(version: u16) -> Option<Profile>
    ensures { result ≡ profile_of_version version }
{
    match version {
        1 => Some(Profile::One),
        2 => Some(Profile::Two),
        _ => None,
    }
}

/// Where the retry limit stands, and after it the trap entry and the numbers of program and data words.
pub(crate) fn tail_place(profile: Profile) -> usize
    ensures is { result ≡ tail_place profile }
    ensures few { result ≤ 12 }
{
    match profile {
        Profile::One => CHAIN_PLACE,
        Profile::Two => CHAIN_PLACE + 2,
    }
}

/// The number of bytes of a header, 26 or 28.
pub(crate) fn header_length(profile: Profile) -> usize
    ensures is { result ≡ header_length profile }
    ensures some { 26 ≤ result }
    ensures few { result ≤ 28 }
{
    match profile {
        Profile::One => 26,
        Profile::Two => 28,
    }
}
