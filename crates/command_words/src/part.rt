//! The parts of the words behind a command's name.
ghost use Rattle.std.specs.Prelude.{◌≡◌, ◌<◌, ◌++◌, ◌↔◌, [], ◌∷◌, IsTrue, length, IfSome, IfNone, Any, map, slice_get};
ghost use Rattle.std.specs.Option.{option_copied, option_to_list};
ghost use Rattle.command_words.specs.Line.{IsPart, OfParts, words_of, operands_of, values_of, names_option, Finds, Follow, ComesTo};
ghost use Rattle.command_words.specs.Command.{texts_of};
ghost use Rattle.command_words.specs.View.{part_seen, option_seen};

use crate::number::meaning;
use crate::table::{OptionRow, Row};

/// A part of a line.
#[derive(Clone, Copy)]
pub(crate) enum Part<'a> {
    Operand(&'a str),
    Given { name: &'a str, value: &'a str },
}

fn names_option(word: &str) -> bool
    ensures { result ≡ names_option word.now }
{
    word.starts_with("--")
}

// The first part, and the words behind it. There is none where no word is left, and where the last word
// names an option.
fn first_part(words: &[String]) -> Option<(Part<'_>, &[String])>
    ensures part { IfSome result (λ t. IsPart (part_seen t.0)) }
    ensures words { IfSome result (λ t.
        texts_of words.now ≡ words_of (part_seen t.0 ∷ []) ++ texts_of t.1.now) }
    ensures shorter { IfSome result (λ t. length t.1.now < length words.now) }
    ensures none { IfNone result (OfParts (texts_of words.now) (λ parts. parts ≡ [])) }
{
    let [word, rest @ ..] = words else {
        return None;
    };
    let word = word.as_str();
    if !names_option(word) {
        return Some((Part::Operand(word), rest));
    }
    let [value, rest @ ..] = rest else {
        return None;
    };
    let value = value.as_str();
    Some((Part::Given { name: word, value }, rest))
}

fn is_known(options: &[OptionRow], name: &str) -> bool
    ensures { IsTrue result ↔ Any (λ option. option.name.now ≡ name.now) options.now }
{
    options.iter().any(|option| option.name == name)
}

/// Whether the words fall into parts: as many operands as the row has, and options that are the row's.
pub(crate) fn follow(words: &[String], row: &Row) -> bool
    ensures { IsTrue result
        ↔ Follow row.now.operands (map option_seen row.now.options.now) (texts_of words.now) }
{
    let mut left = row.operands;
    let mut rest = words;
    'parts: while let Some((part, behind)) = first_part(rest) {
        match part {
            Part::Operand(_) if left == 0 => return false,
            Part::Operand(_) => left -= 1,
            Part::Given { name, .. } if !is_known(row.options, name) => return false,
            Part::Given { .. } => {}
        }
        rest = behind;
    }
    rest.is_empty() && left == 0
}

/// The operand at a place, counted from 0.
pub(crate) fn operand(words: &[String], place: usize) -> Option<&str>
    ensures { OfParts (texts_of words.now) (λ parts.
        option_copied result ≡ slice_get (operands_of parts) place) }
{
    let mut before = place;
    let mut rest = words;
    'parts: loop {
        let (part, behind) = first_part(rest)?;
        match part {
            Part::Operand(word) if before == 0 => return Some(word),
            Part::Operand(_) => before -= 1,
            Part::Given { .. } => {}
        }
        rest = behind;
    }
}

// The value that a part gives to the option of this name.
fn value_in<'a>(part: Part<'a>, option: &str) -> Option<&'a str>
    ensures { values_of option.now (part_seen part.entry ∷ [])
        ≡ option_to_list (option_copied result) }
{
    match part {
        Part::Given { name, value } if name == option => Some(value),
        _ => None,
    }
}

/// What an option comes to in a line: its default where it isn't given, and nothing where it is given
/// twice or with a word that it doesn't take.
pub(crate) fn value_of(words: &[String], option: &OptionRow) -> Option<u32>
    ensures { OfParts (texts_of words.now) (λ parts.
        Finds result (ComesTo (option_seen option.now) (values_of option.now.name.now parts))) }
{
    let mut found = None;
    let mut rest = words;
    'parts: while let Some((part, behind)) = first_part(rest) {
        let value = value_in(part, option.name);
        if value.is_some() && found.is_some() {
            return None;
        }
        found = found.or(value);
        rest = behind;
    }
    match found {
        None => Some(option.default),
        Some(value) => meaning(option.values, value),
    }
}
