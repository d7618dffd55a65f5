//! The walk over a theorem's proof.

ghost use Rattle.std.specs.Prelude.{◌≡◌, OnOk, IfOk};
ghost use Rattle.known_facts.specs.Shown.{context_of};
ghost use Rattle.known_facts.specs.Clean.{HasSuspects};
ghost use Rattle.known_facts.specs.Grown.{Grown};
ghost use Rattle.theorem_leaves.specs.Walks.{stand_of, AnswersBy, MakesAll, Claims, Visits, VisitsAll, Answers};

use crate::home::Home;
use crate::key::label_key;
use crate::number::number_after;
use crate::step::Written;
use core_expr::Memory;
use known_facts::{Context, Table};
use proof_contexts::Leaf;
use proof_leaves::{
    Claim, Move, by_facts, conclude, enter, leave, make, missing, obvious, omitted,
};
use proof_outline::Outline;
use sqlite_items::Items;
use tla_ast::{Decl, Fact, Place, Proof, Step};
/// Where the proof of a theorem stands: its module, the definitions of all modules, and what its step names mean.
#[derive(Clone, Copy)]
pub struct Walker<'a> {
    pub home: Home<'a>,
    pub table: &'a Table,
    pub outline: &'a Outline,
}

/// Where a step stands: its place, the number by which it is cited, that of the first step of its own proof, and that of the step
/// after it.
#[derive(Clone, Copy)]
struct Stand {
    place: Place,
    label: Option<u64>,
    first: u64,
    next: u64,
}

/// Where a step with this number stands.
fn stand_of(number: u64, step: &Step) -> Result<Stand, Memory>
    ensures { IfOk result (λ s. s ≡ stand_of number step.now) }
{
    let first = number.checked_add(1).ok_or(Memory)?;
    Ok(Stand {
        place: step.place,
        label: label_key(number, step.label.bytes())?,
        first,
        next: number_after(first, &step.proof)?,
    })
}

impl Walker<'_> {
    /// The leaves of BY.
    fn by(
        &self,
        context: &Context,
        place: Place,
        only: bool,
        facts: &[Fact],
        names: &[Decl],
        leaves: &mut Items<Leaf>,
    ) -> Result<(), Memory>
        requires { HasSuspects self.now.table.now }
        ensures { OnOk result (AnswersBy self.now place only facts.now names.now
            (context_of context.now) leaves.old leaves.new) }
    {
        let alloc = self.home.alloc;
        let facts = self.home.facts(self.outline, facts)?;
        let numbers = self.home.numbers(names)?;
        let (facts, numbers) = (facts.as_slice(), numbers.as_slice());
        by_facts(
            alloc, self.table, context, place, only, facts, numbers, leaves,
        )
    }

    /// Steps without proofs of their own, one after another. Says whether the proof goes on.
    fn make_all(
        &self,
        context: &mut Context,
        stand: Stand,
        steps: &[Move],
        leaves: &mut Items<Leaf>,
    ) -> Result<bool, Memory>
        requires { HasSuspects self.now.table.now }
        ensures acts { IfOk result (λ on. MakesAll self.now stand steps.now
            (context_of context.old) leaves.old on (context_of context.new) leaves.new) }
        ensures grown { OnOk result
            (Grown (context_of context.old).known (context_of context.new).known) }
    {
        let alloc = self.home.alloc;
        for step in steps {
            if !make(
                alloc,
                self.table,
                context,
                stand.place,
                stand.label,
                step,
                leaves,
            )? {
                return Ok(false);
            }
        }
        Ok(true)
    }

    /// A step with a proof of its own.
    #[cycle(proofs)]
    fn claim(
        &self,
        context: &mut Context,
        stand: Stand,
        claim: Claim,
        own: &Proof,
        leaves: &mut Items<Leaf>,
    ) -> Result<(), Memory>
        requires { HasSuspects self.now.table.now }
        ensures acts { OnOk result (Claims self.now stand claim own.now
            (context_of context.old) leaves.old (context_of context.new) leaves.new) }
        ensures grown { OnOk result
            (Grown (context_of context.old).known (context_of context.new).known) }
    {
        let entered = enter(self.home.alloc, context, stand.label, &claim)?;
        self.proof(context, stand.place, stand.first, own, leaves)?;
        leave(context, entered);
        conclude(self.home.alloc, context, stand.label, claim)
    }

    /// A step, of which this is the number. Gives the number of the next step, if the proof goes on.
    #[cycle(proofs)]
    fn step(
        &self,
        context: &mut Context,
        number: u64,
        step: &Step,
        leaves: &mut Items<Leaf>,
    ) -> Result<Option<u64>, Memory>
        requires { HasSuspects self.now.table.now }
        ensures visits { IfOk result (λ next. Visits self.now step.now number
            (context_of context.old) leaves.old next (context_of context.new) leaves.new) }
        ensures grown { OnOk result
            (Grown (context_of context.old).known (context_of context.new).known) }
    {
        let stand = stand_of(number, step)?;
        match self.home.written(self.outline, &step.kind)? {
            Written::Qed => {
                self.proof(context, stand.place, stand.first, &step.proof, leaves)?;
                Ok(None)
            }
            Written::Claimed(claim) => {
                self.claim(context, stand, claim, &step.proof, leaves)?;
                Ok(Some(stand.next))
            }
            Written::Moves(steps) => {
                if !self.make_all(context, stand, steps.as_slice(), leaves)? {
                    return Ok(None);
                }
                Ok(Some(stand.next))
            }
        }
    }

    /// The steps of a proof at this place, the first of which has this number.
    #[cycle(proofs)]
    fn steps(
        &self,
        context: &mut Context,
        place: Place,
        first: u64,
        steps: &[Step],
        leaves: &mut Items<Leaf>,
    ) -> Result<(), Memory>
        requires { HasSuspects self.now.table.now }
        ensures visits { OnOk result (VisitsAll self.now place first steps.now
            (context_of context.old) leaves.old leaves.new) }
        ensures grown { OnOk result
            (Grown (context_of context.old).known (context_of context.new).known) }
    {
        let mut number = first;
        for step in steps {
            let Some(next) = self.step(context, number, step, leaves)? else {
                return Ok(());
            };
            number = next;
        }
        missing(place, leaves)
    }

    /// The leaves of a proof at this place, whose first step has this number, behind others. The context stays.
    #[cycle(proofs)]
    pub fn proof(
        &self,
        context: &mut Context,
        place: Place,
        first: u64,
        proof: &Proof,
        leaves: &mut Items<Leaf>,
    ) -> Result<(), Memory>
        requires { HasSuspects self.now.table.now }
        ensures leaves { OnOk result (Answers self.now place first proof.now
            (context_of context.old) leaves.old leaves.new) }
        ensures kept { OnOk result (context_of context.new ≡ context_of context.old) }
    {
        let alloc = self.home.alloc;
        match proof {
            Proof::Missing => missing(place, leaves),
            Proof::Obvious(at) => obvious(alloc, self.table, context, *at, leaves),
            Proof::Omitted(at) => omitted(*at, leaves),
            Proof::By {
                place: at,
                only,
                facts,
                defs,
            } => self.by(
                context,
                *at,
                *only,
                facts.as_slice(),
                defs.as_slice(),
                leaves,
            ),
            Proof::Steps(steps) => {
                let saved = context.save(alloc)?;
                self.steps(context, place, first, steps.as_slice(), leaves)?;
                context.restore(saved);
                Ok(())
            }
        }
    }
}
