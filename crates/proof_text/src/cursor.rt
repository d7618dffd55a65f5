//! The numbers that are left to be read.
ghost use Rattle.std.specs.Prelude.{◌≡◌, [], ◌∷◌, length, MatchOption};
ghost use Rattle.proof_text.specs.Reading.{tested, number, rest_of, Reads};
ghost use Rattle.proof_text.specs.Readers.{passes};

use std::alloc::{AllocError, AllocFailed};
use std::marker::Model;

/// Why nothing is read.
#[derive(Clone, Copy, Debug)]
pub enum Fault {
    /// Nothing goes on with the next number; so many numbers are left with it, none where the list ends.
    Bad(usize),
    /// There was no memory.
    Memory,
}

impl From<AllocError> for Fault {
    ghost use Rattle.std.specs.Prelude.{◌≡◌};
    ghost use Rattle.proof_text.specs.declared.cursor.Fault.TheVariants as fault;

    ghost from_gives = { λ _ e. e ≡ fault.Memory };

    fn from(_: AllocError) -> Fault {
        Fault::Memory
    }
}

impl<T: Drop> From<AllocFailed<T>> for Fault {
    ghost use Rattle.std.specs.Prelude.{◌≡◌};
    ghost use Rattle.proof_text.specs.declared.cursor.Fault.TheVariants as fault;

    ghost from_gives = { λ _ e. e ≡ fault.Memory };

    fn from(_: AllocFailed<T>) -> Fault {
        Fault::Memory
    }
}

/// Which numbers may stand at a place.
#[derive(Clone, Copy, Debug)]
pub enum Test {
    /// Any.
    Any,
    /// Any but 0.
    Positive,
    /// Those below a number.
    Below(u64),
}

impl Test {
    /// Whether the number may stand there.
    fn passes(self, x: u64) -> bool
        ensures { result ≡ passes self x }
    {
        match self {
            Test::Any => true,
            Test::Positive => 0 < x,
            Test::Below(k) => x < k,
        }
    }
}

/// The numbers that are left.
#[derive(Drop)]
pub struct Cursor<'a> {
    rest: &'a [u64],
}

impl<'a> Model for Cursor<'a> {
    ghost use Rattle.std.specs.Prelude.{List, ℕ};

    ghost Value = { List ℕ };

    ghost view = { λ c. c.rest.now };
}

impl<'a> Cursor<'a> {
    /// At the first of these numbers.
    pub fn new(rest: &'a [u64]) -> Cursor<'a>
        ensures { result ≡ rest.now }
    {
        Cursor { rest }
    }

    /// How many numbers are left.
    pub fn left(&self) -> usize
        ensures { result ≡ length self.now }
    {
        self.rest.len()
    }

    /// The next number.
    pub fn first(&self) -> Option<u64>
        ensures { MatchOption result (self.now ≡ []) (λ x. self.now ≡ x ∷ rest_of self.now) }
    {
        match self.rest {
            [] => None,
            [first, ..] => Some(*first),
        }
    }

    /// Goes past the next number where it is lawful there.
    pub fn tested(&mut self, x: u64, passes: bool) -> Result<u64, Fault>
        requires { self.old ≡ x ∷ rest_of self.old }
        ensures { Reads result (tested passes x (rest_of self.old)) self.new }
    {
        if !passes {
            return Err(Fault::Bad(self.rest.len()));
        }
        self.rest = &self.rest[1..];
        Ok(x)
    }

    /// The next number, which passes the test.
    pub fn number(&mut self, test: Test) -> Result<u64, Fault>
        ensures { Reads result (number (passes test) self.old) self.new }
    {
        match self.first() {
            None => Err(Fault::Bad(0)),
            Some(x) => self.tested(x, test.passes(x)),
        }
    }
}
