//! Runs of equal things.

ghost use Rattle.std.specs.Prelude.{◌≡◌, ◌≤◌, length};
ghost use Rattle.text_parts.specs.Runs.{run_length};

/// How many things in front are this one.
pub fn run_length<T: PartialEq>(things: &[T], thing: &T) -> usize
    ensures count { result ≡ run_length T.eq thing.now things.now }
    ensures bound { result ≤ length things.now }
{
    let mut count = 0;
    for next in things {
        if next != thing {
            return count;
        }
        count += 1;
    }
    count
}
