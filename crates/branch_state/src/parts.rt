//! The branch that is worked on, with what waits: its fields, and what changes it.
ghost use Rattle.std.specs.Prelude.{◌≡◌, ◌<◌, ◌≤◌, ◌∷◌, [], ◌++◌, length, map, take, IfOk, OnOk, OnErr};
ghost use Rattle.branch_state.specs.Shown.{Falls, added, all_added, killed, counted, kept_set, put_off, moved, used_at, live_at, count_at, Reopens};
ghost use Rattle.branch_state.specs.Parts.{Holds, AreClassed, wait_at, shown, core_of, taken_back, wait_of};

use branch_book::Book;
use std::alloc::{AllocError, Global};

/// A formula that is to be added, with its class.
#[derive(Clone, Copy, Debug, PartialEq, Eq)]
pub struct New {
    pub formula: u64,
    pub class: u64,
}

/// A branch that waits: the state of the book with this number, to which these formulas come with these needs; and how many
/// sets there were when it was put off.
#[derive(Debug, Drop)]
pub struct Waiting {
    pub mark: u64,
    pub added: Vec<New>,
    pub needs: u64,
    pub sets: u64,
}

/// The book, the number of each entry's set of needs, the sets, which are falling lists, and the branches that wait.
#[derive(Debug, Drop)]
pub struct Parts {
    pub book: Book,
    pub links: Vec<u64>,
    pub sets: Vec<Vec<u64>>,
    pub waits: Vec<Waiting>,
}

/// The link comes to this place, and what was from there on goes.
fn set_link(links: &mut Vec<u64>, at: u64, link: u64) -> Result<(), AllocError>
    ensures ok { OnOk result (links.new.items ≡ take at links.old.items ++ link ∷ []) }
    ensures err { OnErr result (links.new.items ≡ take at links.old.items) }
{
    links.truncate(at as usize);
    links.push(link)?;
    Ok(())
}

/// The formula comes to the end, where it does not stand.
pub fn add(parts: &mut Parts, new: New, needs: u64) -> Result<(), AllocError>
    requires held { Holds parts.old }
    requires class { new.class < 68 }
    requires needs { needs < length (shown parts.old).sets }
    ensures held { Holds parts.new }
    ensures ok { OnOk result (shown parts.new ≡ added (shown parts.old) new needs) }
{
    let length = parts.book.length();
    set_link(&mut parts.links, length, needs)?;
    parts.book.add(new.formula, new.class)?;
    Ok(())
}

/// The entry dies.
pub fn kill(parts: &mut Parts, entry: u64) -> Result<(), AllocError>
    requires held { Holds parts.old }
    requires within { entry < length (shown parts.old).now }
    ensures held { Holds parts.new }
    ensures ok { OnOk result (shown parts.new ≡ killed (shown parts.old) entry) }
{
    parts.book.kill(entry)?;
    Ok(())
}

/// The count of the entry is one more.
pub fn raise(parts: &mut Parts, entry: u64) -> Result<(), AllocError>
    requires held { Holds parts.old }
    requires within { entry < length (shown parts.old).now }
    ensures held { Holds parts.new }
    ensures ok { OnOk result (shown parts.new ≡ counted (shown parts.old) entry) }
{
    parts.book.count(entry)?;
    Ok(())
}

/// The formulas come to the end one after the other, where they do not stand.
pub fn add_all(parts: &mut Parts, news: &[New], needs: u64) -> Result<(), AllocError>
    requires held { Holds parts.old }
    requires classed { AreClassed news.now }
    requires needs { needs < length (shown parts.old).sets }
    ensures held { Holds parts.new }
    ensures ok { OnOk result (shown parts.new ≡ all_added (shown parts.old) news.now needs) }
{
    for new in news {
        add(parts, *new, needs)?;
    }
    Ok(())
}

/// Keeps a set of needs. The answer is its number.
pub fn keep_set(parts: &mut Parts, set: Vec<u64>) -> Result<u64, AllocError>
    requires held { Holds parts.old }
    requires falls { Falls set.items }
    ensures held { Holds parts.new }
    ensures number { IfOk result (λ n. n ≡ length (shown parts.old).sets) }
    ensures ok { OnOk result (shown parts.new ≡ kept_set (shown parts.old) set.items) }
{
    let number = parts.sets.len() as u64;
    parts.sets.push(set)?;
    Ok(number)
}

/// The branch with these formulas added waits. The answer is its place among those that wait.
pub fn put_off(parts: &mut Parts, added: Vec<New>, needs: u64) -> Result<u64, AllocError>
    requires held { Holds parts.old }
    requires classed { AreClassed added.items }
    requires needs { needs < length (shown parts.old).sets }
    ensures held { Holds parts.new }
    ensures place { IfOk result (λ n. n ≡ length (shown parts.old).waits) }
    ensures ok { OnOk result (shown parts.new ≡ put_off (shown parts.old) added.items needs) }
{
    let place = parts.waits.len() as u64;
    let mark = parts.book.mark();
    let sets = parts.sets.len() as u64;
    parts.waits.push(Waiting {
        mark,
        added,
        needs,
        sets,
    })?;
    Ok(place)
}

/// Takes the branch that waits at this place, and those behind it.
fn take_waiting(waits: &mut Vec<Waiting>, at: u64) -> Waiting
    requires { at < length waits.old.items }
    ensures waits { waits.new.items ≡ take at waits.old.items }
    ensures waiting { wait_of result ≡ wait_at (map wait_of waits.old.items) at }
{
    waits.truncate(at as usize + 1);
    waits.pop().unwrap()
}

/// The state of the book with this number comes back, with the links of its entries and the first so many sets.
fn take_back(parts: &mut Parts, mark: u64, sets: u64)
    requires { mark ≤ length parts.old.book.past }
    ensures { core_of parts.new ≡ taken_back (core_of parts.old) mark sets }
{
    parts.book.undo(mark);
    let length = parts.book.length();
    parts.links.truncate(length as usize);
    parts.sets.truncate(sets as usize);
}

/// Works on the branch that waits at this place. Those before it wait on.
pub fn reopen(parts: &mut Parts, at: u64) -> Result<(), AllocError>
    requires held { Holds parts.old }
    requires within { at < length (shown parts.old).waits }
    ensures held { Holds parts.new }
    ensures ok { OnOk result (Reopens at (shown parts.old) (shown parts.new)) }
{
    let waiting = take_waiting(&mut parts.waits, at);
    take_back(parts, waiting.mark, waiting.sets);
    add_all(parts, &waiting.added, waiting.needs)?;
    Ok(())
}

/// No entries, and nothing that waits.
pub fn empty(alloc: Global) -> Result<Parts, AllocError>
    ensures held { IfOk result Holds }
    ensures shown { IfOk result (λ p. shown p ≡ record { now = []; waits = []; sets = [] }) }
{
    let book = Book::new(alloc)?;
    Ok(Parts {
        book,
        links: Vec::new(alloc),
        sets: Vec::new(alloc),
        waits: Vec::new(alloc),
    })
}

/// The entry dies, unless it stays live.
fn kill_unless(parts: &mut Parts, entry: u64, stays: bool) -> Result<(), AllocError>
    requires held { Holds parts.old }
    requires within { entry < length (shown parts.old).now }
    ensures held { Holds parts.new }
    ensures ok { OnOk result (shown parts.new
        ≡ moved (shown parts.old) (live_at stays (shown parts.old).now entry)) }
{
    if stays {
        return Ok(());
    }
    kill(parts, entry)
}

/// The count of the entry is one more, where it rises.
fn raise_where(parts: &mut Parts, entry: u64, rises: bool) -> Result<(), AllocError>
    requires held { Holds parts.old }
    requires within { entry < length (shown parts.old).now }
    ensures held { Holds parts.new }
    ensures ok { OnOk result (shown parts.new
        ≡ moved (shown parts.old) (count_at rises (shown parts.old).now entry)) }
{
    if rises {
        return raise(parts, entry);
    }
    Ok(())
}

/// A rule uses the entry.
pub fn use_entry(parts: &mut Parts, entry: u64, stays: bool, rises: bool) -> Result<(), AllocError>
    requires held { Holds parts.old }
    requires within { entry < length (shown parts.old).now }
    ensures held { Holds parts.new }
    ensures ok { OnOk result (shown parts.new
        ≡ moved (shown parts.old) (used_at stays rises (shown parts.old).now entry)) }
{
    kill_unless(parts, entry, stays)?;
    raise_where(parts, entry, rises)
}
