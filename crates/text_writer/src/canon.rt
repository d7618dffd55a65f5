//! Obligations as they are written.
ghost use Rattle.std.specs.Prelude.{◌≡◌, ◌++◌, IfOk, OnOk};
ghost use Rattle.std.specs.List.{flat_map};
ghost use Rattle.seq_calculus.specs.Lists.{written_node};
ghost use Rattle.proof_text.specs.Texts.{written_obligation};
ghost use Rattle.text_writer.specs.Tables.{canon_list};

use crate::node::Node;
use crate::table::{enter, enter_all};
use core_expr::{Canon, Memory};
use indexmap::IndexSet;
use sqlite_items::Items;
use std::alloc::Global;

/// Writes nodes, one after another.
pub fn write_nodes(list: &mut Vec<u64>, nodes: &[Node]) -> Result<(), Memory>
    ensures { OnOk result (list.new.items ≡ list.old.items ++ flat_map written_node nodes.now) }
{
    for node in nodes {
        node.write(list)?;
    }
    Ok(())
}

/// The list of an obligation: a count and the nodes, a count and the facts, the goal.
#[tactic(auto, unfolding(proof_text::specs::Texts::written_obligation))]
fn write_obligation(
    alloc: Global,
    nodes: &[Node],
    facts: &[u64],
    goal: u64,
) -> Result<Items<u64>, Memory>
    ensures { IfOk result (λ l.
        l ≡ written_obligation (record { nodes = nodes.now; facts = facts.now; goal = goal })) }
{
    let mut list = Vec::new(alloc);
    list.push(nodes.len() as u64)?;
    write_nodes(&mut list, nodes)?;
    list.push(facts.len() as u64)?;
    list.extend_from_slice(facts)?;
    list.push(goal)?;
    Ok(Items::from_vec(list))
}

/// The list of the obligation that stands for a canonical form. Want of memory is the only other answer.
#[tactic(auto, unfolding(crate::specs::Tables::canon_list, crate::specs::Tables::obligation_of))]
pub fn write_canon(alloc: Global, canon: &Canon) -> Result<Items<u64>, Memory>
    ensures { IfOk result (λ l. l ≡ canon_list canon.now) }
{
    let mut nodes = IndexSet::new(alloc);
    let facts = enter_all(alloc, &mut nodes, canon.facts.as_slice())?;
    let goal = enter(alloc, &mut nodes, &canon.goal)?;
    write_obligation(alloc, nodes.as_slice(), facts.as_slice(), goal)
}
