//! What the calls answer.

ghost use Rattle.std.specs.Prelude.{◌≡◌};
ghost use Rattle.planner_c.specs.Replies.{reply, reply_done};

use view::Refusal;

/// The number of the refusal and its place, or 0 and what the call answers; nothing more is 0.
#[repr(C)]
#[derive(Clone, Copy, PartialEq, Eq, Debug)]
pub struct Reply {
    pub refusal: u32,
    pub value: usize,
}

impl Reply {
    /// The reply to a call that answers how much or which.
    pub(crate) fn of(answer: Result<usize, Refusal>) -> Reply
        ensures { result ≡ reply answer }
    {
        match answer {
            Ok(value) => Reply { refusal: 0, value },
            Err(refusal) => Reply {
                refusal: u32::from(refusal.number()),
                value: refusal.place(),
            },
        }
    }

    /// The reply to a call that answers nothing more.
    pub(crate) fn done(answer: Result<(), Refusal>) -> Reply
        ensures { result ≡ reply_done answer }
    {
        Reply::of(answer.map(|_| 0))
    }
}

/// The counts of a level.
#[repr(C)]
#[derive(Clone, Copy, Default, PartialEq, Eq, Debug)]
pub struct Level {
    /// How many stations the level has.
    pub members: u32,
    /// How many links have both ends in it.
    pub inside: u32,
    /// How many links have one end in it.
    pub boundary: u32,
}
