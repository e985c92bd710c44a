//! The number that a word means to an option.
ghost use Rattle.command_words.specs.Line.{Spells, Means, Finds, range, either};
ghost use Rattle.command_words.specs.View.{values_seen};

use crate::table::Values;

/// The most digits of a number.
const MOST_DIGITS: usize = 10;

// The number that one to ten digits spell.
fn digits(word: &str) -> Option<u64>
    ensures { Finds result (Spells word.now) }
{
    if word.len() > MOST_DIGITS || word.starts_with('+') {
        return None;
    }
    word.parse().ok()
}

// The number in this range that a word spells.
fn in_range(least: u32, most: u32, word: &str) -> Option<u32>
    ensures { Finds result (Means (range least most) word.now) }
{
    let number = digits(word)?;
    if number < u64::from(least) || number > u64::from(most) {
        return None;
    }
    u32::try_from(number).ok()
}

// 0 for the first word and 1 for the second.
fn place_of(first: &str, second: &str, word: &str) -> Option<u32>
    ensures { Finds result (Means (either first.now second.now) word.now) }
{
    if word == first {
        Some(0)
    } else if word == second {
        Some(1)
    } else {
        None
    }
}

/// What a word means to an option that takes these values, if it is one of them.
pub(crate) fn meaning(values: Values, word: &str) -> Option<u32>
    ensures { Finds result (Means (values_seen values) word.now) }
{
    match values {
        Values::Numbers { least, most } => in_range(least, most, word),
        Values::Either(first, second) => place_of(first, second, word),
    }
}
