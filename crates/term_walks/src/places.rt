//! Where two lists of indices first differ.
ghost use Rattle.term_walks.specs.Places.{IsPlace};

/// The first place of both lists at which they differ.
pub fn first_apart(a: &[u64], b: &[u64]) -> Option<usize>
    ensures { IsPlace a.now b.now result }
{
    for k in 0..a.len().min(b.len()) {
        if a[k] != b[k] {
            return Some(k);
        }
    }
    None
}
