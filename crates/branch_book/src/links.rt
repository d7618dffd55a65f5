//! The links of the lists of live entries by class.
ghost use Rattle.std.specs.Prelude.{◌≡◌, ◌<◌, ◌≤◌, ◌-◌, ◌⊎◌, length};
ghost use Rattle.branch_book.specs.Links.{none, chain_of, with_after, with_before, next_of, prev_of};

/// Links of the lists of classes. A link to the younger side is an entry, or `NONE`; one to the older side is one more than
/// an entry, or 0.
#[derive(Debug, Drop)]
pub struct Links {
    /// The oldest live entry of each class.
    pub firsts: Vec<u64>,
    /// The youngest live entry of each class.
    pub lasts: Vec<u64>,
    /// The next younger live entry of its class, for each live entry.
    pub afters: Vec<u64>,
    /// The next older live entry of its class, for each live entry.
    pub befores: Vec<u64>,
}

/// No entry, as a link to the younger side.
pub const NONE: u64 = 18446744073709551615;

/// What comes after a stop of the class: after its start, or after an entry.
pub fn set_after(links: &mut Links, class: u64, stop: u64, after: u64)
    requires class { class < length links.old.firsts.items }
    requires stop { stop ≤ length links.old.afters.items }
    ensures chain { chain_of links.new ≡ with_after (chain_of links.old) class stop after }
    ensures firsts { length links.new.firsts.items ≡ length links.old.firsts.items }
    ensures lasts { length links.new.lasts.items ≡ length links.old.lasts.items }
    ensures afters { length links.new.afters.items ≡ length links.old.afters.items }
    ensures befores { length links.new.befores.items ≡ length links.old.befores.items }
{
    if stop == 0 {
        links.firsts[class as usize] = after;
    } else {
        links.afters[(stop - 1) as usize] = after;
    }
}

/// What comes before a halt of the class: before its end, or before an entry.
pub fn set_before(links: &mut Links, class: u64, halt: u64, before: u64)
    requires class { class < length links.old.lasts.items }
    requires halt { halt ≡ none ⊎ (halt < length links.old.befores.items) }
    ensures chain { chain_of links.new ≡ with_before (chain_of links.old) class halt before }
    ensures firsts { length links.new.firsts.items ≡ length links.old.firsts.items }
    ensures lasts { length links.new.lasts.items ≡ length links.old.lasts.items }
    ensures afters { length links.new.afters.items ≡ length links.old.afters.items }
    ensures befores { length links.new.befores.items ≡ length links.old.befores.items }
{
    if halt == NONE {
        links.lasts[class as usize] = before;
    } else {
        links.befores[halt as usize] = before;
    }
}

/// What stands after a stop of the class.
pub fn after_of(links: &Links, class: u64, stop: u64) -> u64
    requires class { class < length links.now.firsts.items }
    requires stop { stop ≤ length links.now.afters.items }
    ensures { result ≡ next_of (chain_of links.now) class stop }
{
    if stop == 0 {
        links.firsts[class as usize]
    } else {
        links.afters[(stop - 1) as usize]
    }
}

/// What stands before a halt of the class.
pub fn before_of(links: &Links, class: u64, halt: u64) -> u64
    requires class { class < length links.now.lasts.items }
    requires halt { halt ≡ none ⊎ (halt < length links.now.befores.items) }
    ensures { result ≡ prev_of (chain_of links.now) class halt }
{
    if halt == NONE {
        links.lasts[class as usize]
    } else {
        links.befores[halt as usize]
    }
}
