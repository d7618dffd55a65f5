//! Obligations and proofs, read from lists of numbers.
ghost use Rattle.std.specs.Prelude.{◌≡◌, length, map, IfOk, IfErr};
ghost use Rattle.seq_calculus.specs.Lists.{AreLists, written};
ghost use Rattle.proof_text.specs.Reading.{Reads, ReadsAs, text_fault, IsBadText};
ghost use Rattle.core_expr.specs.Nodes.{AreBelow, AreNodes, picked};
ghost use Rattle.seq_calculus.specs.Lists.{node_of};
ghost use Rattle.proof_text.specs.Readers.{proof, formulas, obligation};
ghost use Rattle.proof_text.specs.Texts.{trees_in, IsObligation, written_obligation, canon_of, Shows, IsCanonicalForm, IsCanonText, IsProofText};
ghost use Rattle.proof_text.specs.Given.{given_of};

use crate::cursor::{Cursor, Fault, Test};
use crate::fault::TextFault;
use crate::frames::expr_at;
use crate::operands::counted;
use crate::steps::counted_steps;
use crate::table::table;
use core_expr::theorems::node_is_canonical;
use core_expr::{Canon, Expr, Memory};
use seq_calculus::{ProofNode, SeqProof};
use sqlite_items::Items;
use std::alloc::Global;

/// Why the list is not read.
fn text_fault(list: &[u64], fault: Fault) -> TextFault
    ensures { result ≡ text_fault (length list.now) fault }
{
    match fault {
        Fault::Bad(left) => TextFault::BadText(list.len().saturating_sub(left) as u64),
        Fault::Memory => TextFault::Memory,
    }
}

/// A proof.
#[tactic(auto, unfolding(crate::specs::Readers::proof))]
fn proof(cursor: &mut Cursor, alloc: Global) -> Result<SeqProof, Fault>
    ensures { Reads result (proof cursor.old) cursor.new }
{
    let nodes = table(cursor, alloc, Test::Any)?;
    let steps = counted_steps(cursor, alloc, nodes.len() as u64)?;
    Ok(SeqProof::of(nodes, steps))
}

/// An obligation as it is written: a table, the places of its facts, and that of its goal.
#[derive(Drop)]
pub struct Given {
    pub nodes: Vec<ProofNode>,
    pub facts: Items<u64>,
    pub goal: u64,
}

/// The facts and the goal behind their table.
#[tactic(auto, unfolding(crate::specs::Readers::formulas))]
fn formulas(cursor: &mut Cursor, alloc: Global, nodes: Vec<ProofNode>) -> Result<Given, Fault>
    ensures { ReadsAs result given_of (formulas nodes.items cursor.old) cursor.new }
{
    let count = nodes.as_slice().len() as u64;
    let facts = counted(cursor, alloc, count)?;
    let goal = cursor.number(Test::Below(count))?;
    Ok(Given { nodes, facts, goal })
}

/// An obligation.
#[tactic(auto, unfolding(crate::specs::Readers::obligation))]
fn obligation(cursor: &mut Cursor, alloc: Global) -> Result<Given, Fault>
    ensures { ReadsAs result given_of (obligation cursor.old) cursor.new }
{
    let nodes = table(cursor, alloc, Test::Positive)?;
    formulas(cursor, alloc, nodes)
}

/// The expressions at these places of the table.
fn exprs_at(alloc: Global, nodes: &[ProofNode], places: &[u64]) -> Result<Items<Expr>, Memory>
    requires nodes { AreNodes 0 (map node_of nodes.now) }
    requires places { AreBelow (length nodes.now) places.now }
    ensures { IfOk result (λ es. es ≡ picked (trees_in nodes.now) places.now) }
{
    let mut exprs = Items::new(alloc);
    for place in places {
        exprs.push(expr_at(alloc, nodes, *place)?)?;
    }
    Ok(exprs)
}

/// The canonical form that an obligation stands for.
fn canon(alloc: Global, given: &Given) -> Result<Canon, Memory>
    requires { IsObligation (given_of given.now) }
    ensures { IfOk result (λ c. c ≡ canon_of (given_of given.now)) }
{
    let nodes = given.nodes.as_slice();
    let facts = exprs_at(alloc, nodes, given.facts.as_slice())?;
    let goal = expr_at(alloc, nodes, given.goal)?;
    Ok(Canon { facts, goal })
}

/// The obligation that the list is how it is written.
fn whole(alloc: Global, list: &[u64]) -> Result<Given, TextFault>
    ensures read { IfOk result (λ g. IsObligation (given_of g)
        × (written_obligation (given_of g) ≡ list.now)) }
    ensures bad { IfErr result (λ e. IsBadText IsCanonText list.now e) }
{
    let mut cursor = Cursor::new(list);
    match obligation(&mut cursor, alloc) {
        Err(fault) => Err(text_fault(list, fault)),
        Ok(given) => {
            let left = cursor.left();
            if left > 0 {
                return Err(text_fault(list, Fault::Bad(left)));
            }
            Ok(given)
        }
    }
}

/// The canonical form that the list is how it is written. A list that is none is refused at the first index such that no
/// obligation's list goes on with the numbers up to and with it, its length where it only ends early.
pub fn read_canon(alloc: Global, list: &[u64]) -> Result<Canon, TextFault>
    ensures read { IfOk result (λ c. Shows list.now c) }
    ensures canonical { IfOk result (λ c. IsCanonicalForm c) }
    ensures bad { IfErr result (λ e. IsBadText IsCanonText list.now e) }
{
    node_is_canonical();
    let given = whole(alloc, list)?;
    let canon = canon(alloc, &given)?;
    Ok(canon)
}

/// The proof that the list is how it is written. A list that is none is refused at the first index such that no proof's list
/// goes on with the numbers up to and with it, its length where it only ends early.
pub fn read_proof(alloc: Global, list: &[u64]) -> Result<SeqProof, TextFault>
    ensures allowed { IfOk result (λ p. AreLists p) }
    ensures read { IfOk result (λ p. written p ≡ list.now) }
    ensures bad { IfErr result (λ e. IsBadText IsProofText list.now e) }
{
    let mut cursor = Cursor::new(list);
    match proof(&mut cursor, alloc) {
        Err(fault) => Err(text_fault(list, fault)),
        Ok(proof) => {
            let left = cursor.left();
            if left > 0 {
                return Err(text_fault(list, Fault::Bad(left)));
            }
            Ok(proof)
        }
    }
}
