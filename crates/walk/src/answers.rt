// What the calls on a walk answer.

// How an advance ended.
#[derive(Clone, Copy, PartialEq, Eq, Debug)]
pub enum Word {
    // No exchange is left.
    Finished,
    // The collector has no spare left.
    Full,
    // The allowance is used up.
    Spent,
}

// How many exchanges an advance handed on, and how it ended.
#[derive(Clone, Copy, PartialEq, Eq, Debug)]
pub struct Advance {
    pub count: u64,
    pub word: Word,
}

// The settings told and the exchanges told so far, and whether no exchange is left.
#[derive(Clone, Copy, PartialEq, Eq, Debug)]
pub struct Look {
    pub settings: u64,
    pub exchanges: u64,
    pub finished: bool,
}
