//! Marks of formulas, by their numbers.
ghost use Rattle.std.specs.Prelude.{◌≡◌, ◌||◌, false, slice_set, slice_index_or};
ghost use Rattle.seq_translate.specs.Marks.{set_marks, clear_marks, any_mark};

/// The mark of a number, where there is such a number.
fn set(marks: &mut Vec<bool>, place: usize, mark: bool)
    ensures { marks.new.items ≡ slice_set marks.old.items place mark }
{
    if place < marks.len() {
        marks[place] = mark;
    }
}

/// Whether a number is marked.
fn is_marked(marks: &[bool], place: usize) -> bool
    ensures { result ≡ slice_index_or marks.now place false }
{
    match marks.get(place) {
        Some(mark) => *mark,
        None => false,
    }
}

/// The first or the second.
pub fn either(a: bool, b: bool) -> bool
    ensures { result ≡ (a || b) }
{
    a || b
}

/// Marks all of these.
pub fn set_all(marks: &mut Vec<bool>, places: &[u64])
    ensures { marks.new.items ≡ set_marks marks.old.items places.now }
{
    for place in places {
        set(marks, *place as usize, true);
    }
}

/// Takes the marks of all of these away.
pub fn clear_all(marks: &mut Vec<bool>, places: &[u64])
    ensures { marks.new.items ≡ clear_marks marks.old.items places.now }
{
    for place in places {
        set(marks, *place as usize, false);
    }
}

/// Whether one of these is marked.
pub fn any(marks: &[bool], places: &[u64]) -> bool
    ensures { result ≡ any_mark marks.now places.now }
{
    let mut found = false;
    for place in places {
        found = either(found, is_marked(marks, *place as usize));
    }
    found
}
