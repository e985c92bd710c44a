//! The tokens of a text, one after another.
ghost use Rattle.std.specs.Prelude.{◌≡◌, ℕ, ◌+◌, ◌<◌, ◌^◌, ◌∷◌, length};
ghost use Rattle.std.specs.List.{prefix_len};
ghost use Rattle.bool_query.specs.Token.{is_blank, is_word_byte, word_token};
ghost use Rattle.bool_query.specs.Scan.{BeginsWithBlank, IsPastBlanks, IsWordSplit};
ghost use Rattle.bool_query.specs.Scanned.{token_seen, IsScanned};

/// A token. A term is lent from the text.
#[derive(Clone, Copy)]
pub(crate) enum Token<'a> {
    Term(&'a str),
    OpenParen,
    CloseParen,
    And,
    Or,
    Not,
}

/// What stands first in a text behind blanks.
#[derive(Clone, Copy)]
pub(crate) enum Scanned<'a> {
    /// A token, the place of its first byte, and the text behind it.
    Token {
        token: Token<'a>,
        at: usize,
        behind: &'a str,
    },
    /// A `"` that has no later one, at this place.
    OpenQuote {
        at: usize,
    },
    /// Nothing.
    End,
}

fn is_blank(byte: u8) -> bool
    ensures { result ≡ is_blank byte }
{
    byte == b' ' || byte == b'\t'
}

fn is_word_byte(byte: u8) -> bool
    ensures { result ≡ is_word_byte byte }
{
    !(is_blank(byte) || byte == b'(' || byte == b')' || byte == b'"')
}

// How many blanks stand first.
fn blanks_of(bytes: &[u8]) -> usize
    ensures { result ≡ prefix_len is_blank bytes.now }
{
    bytes.iter().take_while(|byte| is_blank(**byte)).count()
}

// How many bytes of a word stand first.
fn word_bytes_of(bytes: &[u8]) -> usize
    ensures { result ≡ prefix_len is_word_byte bytes.now }
{
    bytes.iter().take_while(|byte| is_word_byte(**byte)).count()
}

// The text behind the blanks at its front.
fn past_blanks(text: &str) -> &str
    ensures { IsPastBlanks text.now result.now }
{
    let (_, rest) = text.split_at(blanks_of(text.as_bytes()));
    rest
}

// The longest word at the front, and the text behind it.
fn word_split(text: &str) -> (&str, &str)
    ensures { IsWordSplit text.now result.0.now result.1.now }
{
    text.split_at(word_bytes_of(text.as_bytes()))
}

// What a word is: a keyword, or a term.
fn word_token(word: &str) -> Token<'_>
    ensures { (at : ℕ) → token_seen result at ≡ word_token word.now at }
{
    match word {
        "AND" => Token::And,
        "OR" => Token::Or,
        "NOT" => Token::Not,
        _ => Token::Term(word),
    }
}

// The token that begins with a `"` at a place, of which the text behind is given.
fn quoted(text: &str, at: usize) -> Scanned<'_>
    ensures { IsScanned (34 ∷ text.now) at result }
{
    match text.split_once('"') {
        None => Scanned::OpenQuote { at },
        Some((term, behind)) => Scanned::Token {
            token: Token::Term(term),
            at,
            behind,
        },
    }
}

// The token at the front of a text that begins at a place.
fn first_token(text: &str, at: usize) -> Scanned<'_>
    requires { ¬ BeginsWithBlank text.now }
    ensures { IsScanned text.now at result }
{
    if text.is_empty() {
        return Scanned::End;
    }
    if let Some(behind) = text.strip_prefix('(') {
        let token = Token::OpenParen;
        return Scanned::Token { token, at, behind };
    }
    if let Some(behind) = text.strip_prefix(')') {
        let token = Token::CloseParen;
        return Scanned::Token { token, at, behind };
    }
    if let Some(behind) = text.strip_prefix('"') {
        return quoted(behind, at);
    }
    let (word, behind) = word_split(text);
    let token = word_token(word);
    Scanned::Token { token, at, behind }
}

/// What stands first behind blanks in a text that begins at a place, which counts bytes.
pub(crate) fn next_token(text: &str, from: usize) -> Scanned<'_>
    requires { from + length text.now < 2 ^ 64 }
    ensures { IsScanned text.now from result }
{
    let rest = past_blanks(text);
    first_token(rest, from + (text.len() - rest.len()))
}
