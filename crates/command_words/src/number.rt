//! Numbers in the words.
ghost use Rattle.std.specs.Prelude.{ℕ, option_map, IfSome, IfNone};
ghost use Rattle.command_words.specs.Words.{IsNumber};

/// The number that a text gives, from 1 to the greatest, or the other one where there is no text.
pub fn number(text: Option<&str>, other: u64, greatest: u64) -> Option<u64>
    ensures some { IfSome result (IsNumber other greatest (option_map (λ s. s.now) text.entry)) }
    ensures none { IfNone result ((n : ℕ)
        → IsNumber other greatest (option_map (λ s. s.now) text.entry) n → ⊥) }
{
    let Some(text) = text else {
        return Some(other);
    };
    match text.parse::<u64>() {
        Ok(number) if number > 0 && number <= greatest => Some(number),
        _ => None,
    }
}
