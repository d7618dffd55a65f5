//! How levels depend on parameters.

ghost use Rattle.std.specs.Prelude.{◌≡◌, ◌||◌, [], map, get_or, IfOk, OnOk};
ghost use Rattle.expression_level.specs.Levels as levels;
ghost use Rattle.expression_level.specs.Weights as spec;
ghost use Rattle.expression_level.specs.Store.{changed};

use core_expr::Memory;
use sqlite_items::Items;
use std::alloc::Global;
use std::marker::Model;
use tla_ast::Place;

/// The higher of two levels.
pub fn higher(first: u64, second: u64) -> u64
    ensures { result ≡ levels.higher first second }
{
    if first < second { second } else { first }
}

/// The level of an expression of this level, once it is primed.
pub fn raised(level: u64) -> u64
    ensures { result ≡ levels.raised level }
{
    if 0 < level { 2 } else { 0 }
}

/// The stricter of two limits.
fn stricter(first: Option<u64>, second: Option<u64>) -> Option<u64>
    ensures { result ≡ spec.stricter first second }
{
    match (first, second) {
        (None, limit) => limit,
        (limit, None) => limit,
        (Some(first), Some(second)) => Some(if first < second { first } else { second }),
    }
}

/// How a parameter counts in the level of an expression: as it is, raised as by a prime, and the greatest level that is lawful
/// for it; and whether it stands in its text, and is primed there.
#[derive(Clone, Copy, Debug)]
pub struct Use {
    pub plain: bool,
    pub raised: bool,
    pub limit: Option<u64>,
    pub held: bool,
    pub primed: bool,
}

/// What is made of how parameters count.
#[derive(Clone, Copy, Debug)]
pub enum Change {
    /// No level is left.
    Kept,
    /// The level must not be over this one.
    Capped(u64),
    /// The level of the expression is that of a primed one.
    Raised,
    /// The limits are left aside.
    Unlimited,
    /// All that stands in the expression is primed.
    Primed,
    /// The expression has a name, which primes nothing.
    Named,
    /// The expression is an argument that is used so.
    Passed(Use),
}

impl Use {
    /// Two uses of one parameter.
    fn both(self, other: Use) -> Use
        ensures { result ≡ spec.both self other }
    {
        Use {
            plain: self.plain || other.plain,
            raised: self.raised || other.raised,
            limit: stricter(self.limit, other.limit),
            held: self.held || other.held,
            primed: self.primed || other.primed,
        }
    }

    /// A parameter that is not used.
    pub fn unused() -> Use
        ensures { result ≡ spec.unused }
    {
        Use {
            plain: false,
            raised: false,
            limit: None,
            held: false,
            primed: false,
        }
    }

    /// The level that a parameter of this level gives.
    fn counted(self, level: u64) -> u64
        ensures { result ≡ spec.counted self level }
    {
        let plain = if self.plain { level } else { 0 };
        let lifted = if self.raised { raised(level) } else { 0 };
        higher(plain, lifted)
    }

    /// What is asked of the parameter where what it gives must not be over a level.
    fn asked(self, limit: u64) -> Option<u64>
        ensures { result ≡ spec.asked limit self }
    {
        let plain = if self.plain { Some(limit) } else { None };
        let lifted = if self.raised && limit < 2 {
            Some(0)
        } else {
            None
        };
        stricter(plain, lifted)
    }

    /// Whether a parameter of this level is over its limit.
    pub fn is_over(self, level: u64) -> bool
        ensures { result ≡ spec.is_over self.limit level }
    {
        match self.limit {
            None => false,
            Some(limit) => limit < level,
        }
    }

    /// How the parameter of an argument counts where the argument is used so.
    fn passed(self, inner: Use) -> Use
        ensures { result ≡ spec.passed self inner }
    {
        Use {
            plain: self.plain && inner.plain,
            raised: self.plain && inner.raised || self.raised && (inner.plain || inner.raised),
            limit: match self.limit {
                None => None,
                Some(limit) => inner.asked(limit),
            },
            held: false,
            primed: false,
        }
    }

    /// A change of how a parameter counts.
    fn changed(self, change: Change) -> Use
        ensures { result ≡ changed change self }
    {
        match change {
            Change::Kept => Use {
                plain: false,
                raised: false,
                ..self
            },
            Change::Capped(limit) => Use {
                limit: stricter(self.limit, self.asked(limit)),
                ..self
            },
            Change::Raised => Use {
                plain: false,
                raised: self.plain || self.raised,
                ..self
            },
            Change::Unlimited => Use {
                limit: None,
                ..self
            },
            Change::Primed => Use {
                primed: self.held,
                ..self
            },
            Change::Named => Use {
                primed: false,
                ..self
            },
            Change::Passed(outer) => outer.passed(self),
        }
    }
}

/// Changes how each parameter counts.
pub fn change_all(uses: &mut Vec<Use>, change: Change)
    ensures { uses.new.items ≡ map (changed change) uses.old.items }
{
    for index in 0..uses.len() {
        uses[index] = uses[index].changed(change);
    }
}

/// Joins uses to others.
fn join_uses(uses: &mut Vec<Use>, others: &[Use]) -> Result<(), Memory>
    ensures { OnOk result (uses.new.items ≡ spec.all_uses uses.old.items others.now) }
{
    for index in 0..others.len() {
        if index < uses.len() {
            uses[index] = uses[index].both(others[index]);
        } else {
            uses.push(others[index])?;
        }
    }
    Ok(())
}

/// Whether the parameter at a position is primed.
fn is_primed(uses: &[Use], position: usize) -> bool
    ensures { result ≡ (get_or uses.now position spec.unused).primed }
{
    match uses.get(position) {
        None => false,
        Some(found) => found.primed,
    }
}

/// How the level of an expression depends on the levels of the parameters round it: the level where all have level 0, how each
/// counts, the outermost first, and the places of the faults that stand whatever they have.
#[derive(Debug, Drop)]
pub struct Weight {
    pub least: u64,
    pub uses: Vec<Use>,
    pub faults: Vec<Place>,
}

impl Model for Weight {
    ghost use Rattle.expression_level.specs.Weights.{Weight as Seen};

    ghost Value = { Seen };

    ghost view = { λ w. record { least = w.least; uses = w.uses.items; faults = w.faults.items } };
}

impl Weight {
    /// No level and no fault.
    pub fn nothing(alloc: Global) -> Weight
        ensures { result ≡ spec.nothing }
    {
        Weight {
            least: 0,
            uses: Vec::new(alloc),
            faults: Vec::new(alloc),
        }
    }

    /// For each of the first so many parameters whether it is primed.
    pub fn primed(&self, alloc: Global, count: usize) -> Result<Items<bool>, Memory>
        ensures { IfOk result (λ flags. flags ≡ spec.primed_first self.now.uses count) }
    {
        let mut flags = Vec::new(alloc);
        for position in 0..count {
            flags.push(is_primed(&self.uses, position))?;
        }
        Ok(Items::from_vec(flags))
    }

    /// Two expressions side by side.
    pub fn join(&mut self, mut other: Weight) -> Result<(), Memory>
        ensures { OnOk result (self.new ≡ spec.join self.old other) }
    {
        self.least = higher(self.least, other.least);
        join_uses(&mut self.uses, &other.uses)?;
        self.faults.append(&mut other.faults)?;
        Ok(())
    }

    /// A level whatever the parameters have.
    pub fn fix(&mut self, level: u64)
        ensures { self.new ≡ spec.fixed level self.old }
    {
        self.least = level;
        change_all(&mut self.uses, Change::Kept);
    }

    /// Notes a fault, if there is one.
    pub fn note(&mut self, is_fault: bool, place: Place) -> Result<(), Memory>
        ensures { OnOk result (self.new ≡ spec.with_fault is_fault place self.old) }
    {
        if is_fault {
            self.faults.push(place)?;
        }
        Ok(())
    }

    /// Asks of the parameters that the level is not over a limit.
    pub fn cap(&mut self, limit: u64)
        ensures { self.new ≡ spec.capped limit self.old }
    {
        change_all(&mut self.uses, Change::Capped(limit));
    }

    /// The level must not be over a limit; a fault at the place where it is in any case.
    pub fn limit(&mut self, limit: u64, place: Place) -> Result<(), Memory>
        ensures { OnOk result (self.new ≡ spec.limited limit place self.old) }
    {
        let is_fault = limit < self.least;
        self.cap(limit);
        self.note(is_fault, place)
    }

    /// The expression, once it is primed.
    pub fn lift(&mut self)
        ensures { self.new ≡ spec.lifted self.old }
    {
        self.least = raised(self.least);
        change_all(&mut self.uses, Change::Raised);
    }

    /// All that stands in the expression is primed, if so.
    pub fn prime(&mut self, is_so: bool)
        ensures { self.new ≡ spec.primed_if is_so self.old }
    {
        if is_so {
            change_all(&mut self.uses, Change::Primed);
        }
    }

    /// What an argument gives where it is used so, with a fault at the place if it is over its limit.
    pub fn argument(&self, alloc: Global, outer: Use, place: Place) -> Result<Weight, Memory>
        ensures { IfOk result (λ weight. weight ≡ spec.argument place outer self.now) }
    {
        let mut uses = Vec::new(alloc);
        uses.extend_from_slice(&self.uses)?;
        change_all(&mut uses, Change::Passed(outer));
        let mut given = Weight {
            least: outer.counted(self.least),
            uses,
            faults: Vec::new(alloc),
        };
        given.note(outer.is_over(self.least), place)?;
        Ok(given)
    }

    /// Gives up its faults. Answers whether there was one.
    pub fn settle(&mut self) -> bool
        ensures settled { self.new ≡ record { least = self.old.least; uses = self.old.uses; faults = [] } }
        ensures found { result ≡ levels.has_fault self.old.faults }
    {
        let found = !self.faults.is_empty();
        self.faults.clear();
        found
    }
}
