//! What is known of a name, and what an application of it gives.

ghost use Rattle.std.specs.Prelude.{◌≡◌, false, [], map, take, drop, IfOk};
ghost use Rattle.expression_level.specs.Levels.{has_fault};
ghost use Rattle.expression_level.specs.Weights as spec;
ghost use Rattle.expression_level.specs.Weights.{Known as seen};
ghost use Rattle.expression_level.specs.Store.{changed, found};

use crate::weight::{Change, Use, Weight, change_all};
use core_expr::Memory;
use std::alloc::Global;
use std::marker::Model;
use tla_ast::Place;

/// A definition: how many parameters are bound round it, then the level where all parameters have level 0, how each counts, those
/// round it first, and whether a fault is found whatever they have.
#[derive(Debug, Drop)]
pub struct Definition {
    pub depth: usize,
    pub least: u64,
    pub uses: Vec<Use>,
    pub has_fault: bool,
}

/// What a name has: what a definition says, or else the greatest level of its arguments.
#[derive(Debug, Drop)]
pub struct Known {
    pub definition: Option<Definition>,
}

impl Model for Known {
    ghost use Rattle.expression_level.specs.Weights.{Known as Seen};
    ghost use Rattle.expression_level.specs.Store.{known_of};

    ghost Value = { Seen };

    ghost view = { λ k. known_of k.definition };
}

/// The first uses, changed.
fn copied(alloc: Global, uses: &[Use], depth: usize, change: Change) -> Result<Vec<Use>, Memory>
    ensures { IfOk result (λ made. made.items ≡ map (changed change) (take depth uses.now)) }
{
    let mut made = Vec::new(alloc);
    made.extend_from_slice(uses)?;
    made.truncate(depth);
    change_all(&mut made, change);
    Ok(made)
}

/// The uses behind the first.
fn behind(uses: &[Use], depth: usize) -> &[Use]
    ensures { result.now ≡ drop depth uses.now }
{
    if depth < uses.len() {
        &uses[depth..]
    } else {
        &[]
    }
}

impl Known {
    /// A name that has the greatest level of its arguments.
    pub fn arguments() -> Known
        ensures { result ≡ seen.arguments }
    {
        Known { definition: None }
    }

    /// A name of this level.
    pub fn constant(alloc: Global, level: u64) -> Known
        ensures { result ≡ seen.defined 0 level [] false }
    {
        Known {
            definition: Some(Definition {
                depth: 0,
                least: level,
                uses: Vec::new(alloc),
                has_fault: false,
            }),
        }
    }

    /// The parameter at a position.
    #[tactic(auto, using(crate::proofs::Puts::uses_of_is))]
    pub fn parameter(alloc: Global, position: usize) -> Result<Known, Memory>
        ensures { IfOk result (λ known. known ≡ spec.parameter position) }
    {
        let mut uses = Vec::new(alloc);
        uses.resize(position, Use::unused())?;
        uses.push(Use {
            plain: true,
            raised: false,
            limit: None,
            held: true,
            primed: false,
        })?;
        let depth = position.checked_add(1).ok_or(Memory)?;
        Ok(Known {
            definition: Some(Definition {
                depth,
                least: 0,
                uses,
                has_fault: false,
            }),
        })
    }

    /// What `@` stands for, where the result so far weighs this, among so many parameters.
    pub fn result_so_far(alloc: Global, depth: usize, weight: &Weight) -> Result<Known, Memory>
        ensures { IfOk result (λ known. known ≡ spec.result_so_far depth weight.now) }
    {
        Ok(Known {
            definition: Some(Definition {
                depth,
                least: weight.least,
                uses: copied(alloc, &weight.uses, depth, Change::Unlimited)?,
                has_fault: false,
            }),
        })
    }
}

/// A definition among so many parameters, which are so many with its own, whose body weighs this; and what the body asks of the
/// parameters round it.
pub fn defined(
    alloc: Global,
    depth: usize,
    inner: usize,
    body: Weight,
) -> Result<(Known, Weight), Memory>
    ensures known { IfOk result (λ made. made.0
        ≡ seen.defined depth body.least (take inner body.uses) (has_fault body.faults)) }
    ensures asked { IfOk result (λ made. made.1 ≡ spec.asked_round depth body) }
{
    let Weight {
        least,
        mut uses,
        faults,
    } = body;
    let round = copied(alloc, &uses, depth, Change::Kept)?;
    uses.truncate(inner);
    let known = Known {
        definition: Some(Definition {
            depth,
            least,
            uses,
            has_fault: !faults.is_empty(),
        }),
    };
    let asked = Weight {
        least: 0,
        uses: round,
        faults,
    };
    Ok((known, asked))
}

/// Several expressions together.
pub fn total(alloc: Global, weights: Vec<Weight>) -> Result<Weight, Memory>
    ensures { IfOk result (λ all. all ≡ spec.total weights.items) }
{
    let mut all = Weight::nothing(alloc);
    for weight in weights {
        all.join(weight)?;
    }
    Ok(all)
}

/// What arguments give where they are used so, with a fault at the place for each that is over its limit.
fn put(alloc: Global, own: &[Use], args: &[Weight], place: Place) -> Result<Weight, Memory>
    ensures { IfOk result (λ all. all ≡ spec.put place own.now args.now) }
{
    let mut all = Weight::nothing(alloc);
    for index in 0..own.len().min(args.len()) {
        let arg = &args[index];
        let given = arg.argument(alloc, own[index], place)?;
        all.join(given)?;
    }
    Ok(all)
}

impl Definition {
    /// What it gives without its arguments.
    fn outer(&self, alloc: Global) -> Result<Weight, Memory>
        ensures { IfOk result (λ weight. weight
            ≡ record { least = self.now.least; uses = map spec.named (take self.now.depth self.now.uses.items); faults = [] }) }
    {
        Ok(Weight {
            least: self.least,
            uses: copied(alloc, &self.uses, self.depth, Change::Named)?,
            faults: Vec::new(alloc),
        })
    }

    /// An application at a place to arguments that weigh so.
    fn applied(&self, alloc: Global, args: Vec<Weight>, place: Place) -> Result<Weight, Memory>
        ensures { IfOk result (λ weight. weight ≡ spec.at_name place
            (seen.defined self.now.depth self.now.least self.now.uses.items self.now.has_fault) args.items) }
    {
        let mut given = put(alloc, behind(&self.uses, self.depth), &args, place)?;
        let is_over = given.settle();
        let is_fault = self.has_fault || is_over;
        let mut outer = self.outer(alloc)?;
        outer.join(given)?;
        let mut all = total(alloc, args)?;
        all.fix(0);
        all.join(outer)?;
        all.note(is_fault, place)?;
        Ok(all)
    }
}

/// A name at a place, with arguments that weigh so; one that is not known has the level of its arguments.
pub fn at_name(
    alloc: Global,
    known: Option<&Known>,
    args: Vec<Weight>,
    place: Place,
) -> Result<Weight, Memory>
    ensures { IfOk result (λ weight. weight ≡ spec.at_name place (found known.entry) args.items) }
{
    match known {
        None => total(alloc, args),
        Some(known) => match &known.definition {
            None => total(alloc, args),
            Some(definition) => definition.applied(alloc, args, place),
        },
    }
}
