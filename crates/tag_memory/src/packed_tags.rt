//! Tags packed in numbers of 64 bits, four bits a place.
ghost use Rattle.std.specs.Prelude.{◌≡◌, ℕ, ◌<◌, ◌≢◌};
ghost use Rattle.tag_memory.specs.Banks.{element_tags};

/// How many places' tags an element keeps.
pub(crate) const PLACES_PER_ELEMENT: usize = 16;

const _: () = prove!(PLACES_PER_ELEMENT == 16);

/// How many bits the tags of a place take.
const TAG_BITS: usize = 4;

/// As many ones.
const TAG_MASK: u64 = 0xF;

/// The tags of place `i` of the sixteen of an element.
#[tactic(auto, unfolding(crate::specs::Banks::element_tags))]
pub(crate) fn element_tags(element: u64, i: usize) -> u8
    requires { i < 16 }
    ensures is { result ≡ element_tags element i }
    ensures few { result < 16 }
{
    (element >> (TAG_BITS * i) & TAG_MASK) as u8
}

/// The element with other tags at place `i` of its sixteen, and each other place as it is.
pub(crate) fn with_element_tags(element: u64, i: usize, tags: u8) -> u64
    requires within { i < 16 }
    requires few { tags < 16 }
    ensures here { element_tags result i ≡ tags }
    ensures others { (j : ℕ) → j < 16 → j ≢ i → element_tags result j ≡ element_tags element j }
{
    let shift = TAG_BITS * i;
    element & !(TAG_MASK << shift) | u64::from(tags) << shift
}
