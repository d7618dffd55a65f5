//! A law of the rules that look at a formula alone. The function does nothing: its contract is the law.
ghost use Rattle.formula_rules.specs.Laws.{AddedIsClosed};

/// What a rule that looks at a formula alone adds to a closed formula is closed.
pub fn added_is_closed()
    ensures { AddedIsClosed }
{}
