//! Proofs and steps. The rules take the reader of proofs of a further nesting as a parameter: so each is proved by itself, and one
//! function alone recurses.

ghost use Rattle.std.specs.Prelude.{◌≡◌, ◌∷◌, IfOk};
ghost use Rattle.token_reader.specs.Input as input;
ghost use Rattle.tla_ast.specs.Answers.{Told, Reads};
ghost use Rattle.proof_parser.specs.Modules as spec;
ghost use Rattle.proof_parser.specs.Nests.{Nests};

use crate::clause::Clauses;
use crate::fact::{label, level};
use crate::kind::{has_proof, is_qed};
use crate::name::outside;
use core_expr::Memory;
use sqlite_items::Items;
use std::alloc::Global;
use tla_ast::{Fault, Kind, Proof, Step, StepKind};
use token_reader::{Cursor, Mark, Stop};

/// The rules of proofs.
#[derive(Clone, Copy)]
pub struct Proofs<F> {
    pub clauses: Clauses,
    /// How many further nestings may begin.
    pub left: usize,
    /// Reads a proof in a further nesting.
    pub read: F,
}

/// Whether a level is deeper than that of the innermost of these unfinished proofs, which stands first, if there is one.
fn is_deeper(level: u128, levels: &[u128]) -> bool
    ensures { result ≡ spec.is_deeper level levels.now }
{
    match levels {
        [] => true,
        [innermost, ..] => *innermost < level,
    }
}

/// Whether a level is that of one of these unfinished proofs.
fn is_open(levels: &[u128], level: u128) -> bool
    ensures { result ≡ spec.is_open level levels.now }
{
    levels.iter().any(|n| *n == level)
}

/// The fault at a step token that doesn't go on with the innermost unfinished proof.
#[tactic(auto, unfolding(crate::specs::Modules::misplaced))]
fn misplaced(cursor: &Cursor<'_>, levels: &[u128]) -> Fault
    ensures { result ≡ spec.misplaced levels.now cursor.now }
{
    let kind = if is_open(levels, level(cursor)) {
        Kind::NoQed
    } else {
        Kind::StepLevel
    };
    let place = cursor.place();
    Fault::At { place, kind }
}

/// Whether a proof without QED ends at a token with this mark, since a unit, a rule or the end token may follow a proof.
fn ends_early(mark: Mark) -> bool
    ensures { result ≡ spec.ends_early mark }
{
    matches!(
        mark,
        Mark::Name
            | Mark::Constant
            | Mark::Constants
            | Mark::Variable
            | Mark::Variables
            | Mark::Assume
            | Mark::Assumption
            | Mark::Theorem
            | Mark::Rule
            | Mark::End
    )
}

/// The fault where no step follows in an unfinished proof.
fn unfinished(alloc: Global, cursor: &Cursor<'_>) -> Fault
    ensures { Told (spec.unfinished cursor.now) result }
{
    if !ends_early(cursor.mark()) {
        return cursor.refusal(alloc, outside(), Stop::Other);
    }
    let place = cursor.place();
    let kind = Kind::NoQed;
    Fault::At { place, kind }
}

/// Whether a proof begins with the next token.
fn begins_proof(cursor: &Cursor<'_>, levels: &[u128]) -> bool
    ensures { result ≡ spec.begins_proof levels.now (input.mark cursor.now) (input.first cursor.now).tok }
{
    match cursor.mark() {
        Mark::Proof | Mark::Obvious | Mark::Omitted | Mark::By => true,
        Mark::Step => is_deeper(level(cursor), levels),
        _ => false,
    }
}

/// The levels behind one more.
fn with_level(alloc: Global, level: u128, levels: &[u128]) -> Result<Vec<u128>, Memory>
    ensures { IfOk result (λ all. all.items ≡ level ∷ levels.now) }
{
    let mut all = vec![in alloc; level]?;
    all.extend_from_slice(levels)?;
    Ok(all)
}

impl<F: Fn(Global, &mut Cursor<'_>, usize, &[u128]) -> Result<Proof, Fault>> Proofs<F> {
    /// BY.
    #[tactic(auto, unfolding(crate::specs::Modules::by))]
    fn by(&self, cursor: &mut Cursor<'_>) -> Result<Proof, Fault>
        requires { Nests self.now.left (F.pre self.now.read) (F.post self.now.read) }
        ensures { Reads (spec.by self.now.clauses.nestings (spec.subproof self.now.left) cursor.old) result cursor.new }
    {
        let place = cursor.take();
        let only = cursor.eat(outside(), Mark::Only);
        let (facts, defs) = self.clauses.cited(cursor, false)?;
        Ok(Proof::By {
            place,
            only,
            facts,
            defs,
        })
    }

    /// The proof of a step, if it has one.
    #[tactic(auto, unfolding(crate::specs::Modules::step_proof))]
    fn step_proof(
        &self,
        cursor: &mut Cursor<'_>,
        kind: &StepKind,
        levels: &[u128],
    ) -> Result<Proof, Fault>
        requires { Nests self.now.left (F.pre self.now.read) (F.post self.now.read) }
        ensures { Reads (spec.step_proof self.now.clauses.nestings (spec.subproof self.now.left) kind.now levels.now cursor.old) result cursor.new }
    {
        if has_proof(kind) && begins_proof(cursor, levels) {
            (self.read)(self.clauses.alloc, cursor, self.left, levels)
        } else {
            Ok(Proof::Missing)
        }
    }

    /// A step.
    #[tactic(auto, unfolding(crate::specs::Modules::step))]
    fn step(&self, cursor: &mut Cursor<'_>, levels: &[u128]) -> Result<Step, Fault>
        requires { Nests self.now.left (F.pre self.now.read) (F.post self.now.read) }
        ensures { Reads (spec.step self.now.clauses.nestings (spec.subproof self.now.left) levels.now cursor.old) result cursor.new }
    {
        let level = level(cursor);
        let label = label(self.clauses.alloc, cursor)?;
        let place = cursor.take();
        let kind = self.clauses.kind(cursor)?;
        let proof = self.step_proof(cursor, &kind, levels)?;
        Ok(Step {
            place,
            level,
            label,
            kind,
            proof,
        })
    }

    /// The steps of a proof of this level, from the next one on.
    #[tactic(auto, using(token_reader::proofs::Turns::turn), unfolding(crate::specs::Modules::steps_from))]
    fn steps_of(
        &self,
        cursor: &mut Cursor<'_>,
        level_of: u128,
        levels: &[u128],
    ) -> Result<Items<Step>, Fault>
        requires { Nests self.now.left (F.pre self.now.read) (F.post self.now.read) }
        ensures { Reads (spec.steps_of self.now.clauses.nestings (spec.subproof self.now.left) level_of levels.now cursor.old) result cursor.new }
    {
        let mut found = Items::new(self.clauses.alloc);
        for _turn in 0..cursor.left() {
            let step = self.step(cursor, levels)?;
            let is_last = is_qed(&step.kind);
            found.push(step)?;
            if is_last {
                return Ok(found);
            }
            if !cursor.sees(outside(), Mark::Step) {
                return Err(unfinished(self.clauses.alloc, cursor));
            }
            let goes_on = level(cursor) == level_of;
            if !goes_on {
                return Err(misplaced(cursor, levels));
            }
        }
        Err(cursor.exhausted())
    }

    /// A proof by steps.
    #[tactic(auto, unfolding(crate::specs::Modules::steps))]
    fn steps(&self, cursor: &mut Cursor<'_>, levels: &[u128]) -> Result<Proof, Fault>
        requires { Nests self.now.left (F.pre self.now.read) (F.post self.now.read) }
        ensures { Reads (spec.steps self.now.clauses.nestings (spec.subproof self.now.left) levels.now cursor.old) result cursor.new }
    {
        let level = level(cursor);
        if !is_deeper(level, levels) {
            let place = cursor.place();
            let kind = Kind::StepLevel;
            return Err(Fault::At { place, kind });
        }
        let levels = with_level(self.clauses.alloc, level, levels)?;
        let steps = self.steps_of(cursor, level, levels.as_slice())?;
        Ok(Proof::Steps(steps))
    }

    /// A proof, with or without the word PROOF.
    #[tactic(auto, unfolding(crate::specs::Modules::proof_of, token_reader::specs::Input::after))]
    pub fn proof(&self, cursor: &mut Cursor<'_>, levels: &[u128]) -> Result<Proof, Fault>
        requires { Nests self.now.left (F.pre self.now.read) (F.post self.now.read) }
        ensures { Reads (spec.proof_of self.now.clauses.nestings (spec.subproof self.now.left) levels.now cursor.old) result cursor.new }
    {
        cursor.eat(outside(), Mark::Proof);
        match cursor.mark() {
            Mark::Obvious => Ok(Proof::Obvious(cursor.take())),
            Mark::Omitted => Ok(Proof::Omitted(cursor.take())),
            Mark::By => self.by(cursor),
            Mark::Step => self.steps(cursor, levels),
            _ => Err(cursor.refusal(self.clauses.alloc, outside(), Stop::Other)),
        }
    }
}

/// Reads a proof in a further nesting, where so many nestings may begin.
pub fn read_proof(
    alloc: Global,
    cursor: &mut Cursor<'_>,
    left: usize,
    levels: &[u128],
) -> Result<Proof, Fault>
    ensures { Reads (spec.subproof left levels.now cursor.old) result cursor.new }
{
    if left == 0 {
        let place = cursor.place();
        let kind = Kind::TooDeep;
        return Err(Fault::At { place, kind });
    }
    let nestings = left;
    let rules = Proofs {
        clauses: Clauses { alloc, nestings },
        left: left - 1,
        read: read_proof,
    };
    rules.proof(cursor, levels)
}

/// The proof of a theorem, if it has one.
pub fn theorem_proof(alloc: Global, cursor: &mut Cursor<'_>) -> Result<Proof, Fault>
    ensures { Reads (spec.theorem_proof cursor.old) result cursor.new }
{
    if begins_proof(cursor, &[]) {
        read_proof(alloc, cursor, 201, &[])
    } else {
        Ok(Proof::Missing)
    }
}
