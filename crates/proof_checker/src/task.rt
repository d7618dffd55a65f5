//! What is left to check.

/// What a premise adds to one side, the newest first.
#[derive(Clone, Copy, Debug)]
pub enum Adds {
    Nothing,
    One(u64),
    Both(u64, u64),
}

/// What a premise adds to the two sides of its sequent.
#[derive(Clone, Copy, Debug)]
pub struct Premise {
    pub left: Adds,
    pub right: Adds,
}

/// The premises of a step.
#[derive(Clone, Copy, Debug)]
pub enum Plan {
    Closed,
    Single(Premise),
    Pair(Premise, Premise),
}

/// A side: what stands on its trail from `base` up to `count`, and what is to be added.
#[derive(Clone, Copy, Debug)]
pub struct Part {
    pub base: u64,
    pub count: u64,
    pub adds: Adds,
}

/// A step that is to prove a sequent.
#[derive(Clone, Copy, Debug)]
pub struct Task {
    pub step: u64,
    pub left: Part,
    pub right: Part,
}
