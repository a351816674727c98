//! A few numbers, of which a register holds one.

ghost use Rattle.std.specs.Prelude.{◌≡◌, ℕ, IsTrue};
ghost use Rattle.touched_words.specs.TouchTables.{IsOneOf};

/// Four numbers, some of which may be the same.
#[derive(Clone, Copy, Debug, PartialEq, Eq)]
pub(crate) struct Few {
    pub(crate) first: u64,
    pub(crate) second: u64,
    pub(crate) third: u64,
    pub(crate) fourth: u64,
}

impl Few {
    /// One number.
    pub(crate) fn one(number: u64) -> Few
        ensures is { (n : ℕ) → n ≡ number → IsOneOf result n }
        ensures first { result.first ≡ number }
    {
        Few {
            first: number,
            second: number,
            third: number,
            fourth: number,
        }
    }

    /// Whether a number is one of these.
    pub(crate) fn has(self, number: u64) -> bool
        ensures { IsTrue result → IsOneOf self number }
    {
        number == self.first
            || number == self.second
            || number == self.third
            || number == self.fourth
    }

    /// Whether these are one number, the first.
    pub(crate) fn is_one(self) -> bool
        ensures { IsTrue result → (n : ℕ) → IsOneOf self n → n ≡ self.first }
    {
        self.second == self.first && self.third == self.first && self.fourth == self.first
    }

    /// Whether each of these is one of others.
    pub(crate) fn is_among(self, others: Few) -> bool
        ensures { IsTrue result → (n : ℕ) → IsOneOf self n → IsOneOf others n }
    {
        others.has(self.first)
            && others.has(self.second)
            && others.has(self.third)
            && others.has(self.fourth)
    }

    /// These and others; None where they are too many.
    pub(crate) fn with(self, others: Few) -> Option<Few> {
        let mut all = [self.first; 4];
        let mut count = 1;
        let numbers = [
            self.second,
            self.third,
            self.fourth,
            others.first,
            others.second,
            others.third,
            others.fourth,
        ];
        for number in numbers {
            if all.contains(&number) {
                continue;
            }
            *all.get_mut(count)? = number;
            count += 1;
        }
        Some(Few {
            first: all[0],
            second: all[1],
            third: all[2],
            fourth: all[3],
        })
    }
}
