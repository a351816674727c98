//! How a call ends.

/// How a call ended.
#[derive(Clone, Copy)]
pub enum Ended {
    /// With the right answer.
    Done,
    /// Memory was refused, and what the call may change is as before or handed back.
    Refused,
    /// With another answer, or it changed something all the same.
    Wrong,
    /// It was not made, since there was no memory for its arguments.
    NotMade,
}

impl Ended {
    pub fn text(self) -> &'static str {
        match self {
            Ended::Done => "done",
            Ended::Refused => "refused, all as before",
            Ended::Wrong => "wrong",
            Ended::NotMade => "not made, since its arguments found no memory",
        }
    }

    /// The ending of a call that was answered.
    pub fn answered(is_right: bool) -> Ended {
        if is_right { Ended::Done } else { Ended::Wrong }
    }

    /// The ending of a call that was refused memory.
    pub fn refused(is_as_before: bool) -> Ended {
        if is_as_before {
            Ended::Refused
        } else {
            Ended::Wrong
        }
    }

    /// The ending of this call and of a later one: the first that was not done, or was wrong.
    pub fn and(self, later: Ended) -> Ended {
        match (self, later) {
            (Ended::Done, _) | (_, Ended::Wrong) => later,
            _ => self,
        }
    }
}
