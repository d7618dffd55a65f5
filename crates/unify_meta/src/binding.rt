//! Metavariables with their terms.
ghost use Rattle.std.specs.Prelude.{◌≡◌, ◌<◌, ℕ, List, IfSome};
ghost use Rattle.core_expr.specs.Tree.{Tree};
ghost use Rattle.core_expr.specs.Nodes.{canon_sym};
ghost use Rattle.unifier_definition.specs.Unify.{bound_to};
ghost use Rattle.unify_meta.specs.Bindings.{bindings, TermsBelow};
ghost use Rattle.term_walks.specs.Walks.{tree_for};

/// A metavariable with its term: its number, and the index of the term.
#[derive(Clone, Copy, Debug)]
pub struct BoundMeta {
    pub name: u64,
    pub term: u64,
}

/// The index of the term of the metavariable with this number.
pub fn bound_to(bound: &[BoundMeta], name: u64) -> Option<u64>
    ensures tree { (ts : List Tree) → tree_for ts result
        ≡ bound_to (canon_sym name 0) (bindings ts bound.now) }
    ensures below { IfSome result (λ k. (n : ℕ) → TermsBelow n bound.now → k < n) }
{
    for b in bound {
        if b.name == name {
            return Some(b.term);
        }
    }
    None
}
