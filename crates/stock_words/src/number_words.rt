//! Words that tell a number.
ghost use Rattle.std.specs.Prelude.{MatchOption};
ghost use Rattle.stock_words.specs.NumberWords.{IsNumber, IsNoNumber};

/// The most digits of a number.
pub(crate) const MAX_DIGITS: usize = 10;

/// The number from 1 to the greatest that the word tells, if it tells one.
pub(crate) fn number_in(word: &str, most: u32) -> Option<u32>
    ensures { MatchOption result (IsNoNumber most word.now) (IsNumber most word.now) }
{
    if word.len() > MAX_DIGITS || !word.as_bytes().iter().all(|b| b.is_ascii_digit()) {
        return None;
    }
    match word.parse::<u32>() {
        Ok(number) if 0 < number && number <= most => Some(number),
        _ => None,
    }
}
