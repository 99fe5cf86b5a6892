// Columns, states, captures and readings: the types. An upper end is a column or without end; it stands inside the interval,
// the interval inside the state, the state inside the outcome's Success case.
#![tactic(auto)]

// An upper end. Endless lies above every column, where the `None` of an `Option` orders below.
#[derive(Clone, Copy, Debug, PartialEq, Eq)]
pub enum Upper {
    At(u32),
    Endless,
}

// The columns from a lower column to an upper end.
#[derive(Clone, Copy, Debug, PartialEq, Eq)]
pub struct Interval {
    pub lower: u32,
    pub upper: Upper,
}

// The place in the token list, the farthest place that a terminal was tried at so far, the start's if none was (02, Note 7),
// the interval and the alignment flag.
#[derive(Clone, Copy, Debug, PartialEq, Eq)]
pub struct State {
    pub place: u32,
    pub farthest: u32,
    pub interval: Interval,
    pub flag: bool,
}

// What a run ends in: a failure with the farthest place alone. A failure is no error to hand on by `?`: a choice, a not and a
// repeat go on from it.
#[derive(Clone, Copy, Debug, PartialEq, Eq)]
pub enum Outcome {
    Success(State),
    Failure(u32),
}

// Where a run begins: a node, a token place, an interval, a flag and a mode.
#[derive(Clone, Copy, Debug, PartialEq, Eq)]
pub struct Start {
    pub node: u16,
    pub place: u32,
    pub interval: Interval,
    pub flag: bool,
    pub mode: u16,
}

// Which paper a run is read by (02, Note 5): 001, of 2017, or 000, of 2014.
#[derive(Clone, Copy, Debug, PartialEq, Eq)]
pub enum Reading {
    By2017,
    By2014,
}

// What a rule read (02, Note 2): the rule, its first token, the token after its last, and the number of captures around it.
#[derive(Clone, Copy, Debug, PartialEq, Eq)]
pub struct Capture {
    pub rule: u32,
    pub first: u32,
    pub after: u32,
    pub around: u32,
}
