//! What is said of a text.

/// What is said of a text, as that of a run of a script.
#[derive(Clone, Copy, PartialEq, Eq)]
pub enum Judgement {
    /// It is that of a whole run, with so many events.
    Sound(u64),
    /// The event of this number is the first with which no run begins.
    Wrong(u64),
    /// Its events, of which there are so many, end before the run does.
    Short(u64),
    /// Its events are those of a whole run, and this line, from 1, is the first that differs from the run's.
    Tail(u64),
    /// It is no history's: it isn't one from this byte on.
    Bad(u64),
}

impl Judgement {
    /// Its word.
    pub fn word(self) -> &'static str {
        match self {
            Judgement::Sound(_) => "sound",
            Judgement::Wrong(_) => "wrong",
            Judgement::Short(_) => "short",
            Judgement::Tail(_) => "tail",
            Judgement::Bad(_) => "bad",
        }
    }

    /// Its number.
    pub fn number(self) -> u64 {
        match self {
            Judgement::Sound(number)
            | Judgement::Wrong(number)
            | Judgement::Short(number)
            | Judgement::Tail(number)
            | Judgement::Bad(number) => number,
        }
    }
}
