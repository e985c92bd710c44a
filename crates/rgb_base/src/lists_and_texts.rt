//! Small types over std's strings and vectors, which contracts see as lists.
ghost use Rattle.std.specs.Prelude.{◌≡◌, string_bytes};

use crate::parts::Posting;
use std::marker::Model;

/// A text. Contracts see the list of its bytes, which is valid UTF-8.
#[derive(Debug, Drop)]
pub struct Text {
    value: String,
}

impl Model for Text {
    ghost use Rattle.std.specs.Prelude.{ℕ, List, string_bytes};

    ghost Value = { List ℕ };

    ghost view = { λ t. string_bytes t.value };
}

impl Text {
    /// The text of a string, which keeps its room.
    pub fn of(value: String) -> Text
        ensures same { result ≡ string_bytes value }
    {
        Text { value }
    }

    /// Lends the text.
    pub fn as_str(&self) -> &str
        ensures same { result.now ≡ self.now }
    {
        self.value.as_str()
    }
}

/// The postings of one list. Contracts see the list of them.
#[derive(Debug, Drop)]
pub struct Postings {
    value: Vec<Posting>,
}

impl Model for Postings {
    ghost use Rattle.std.specs.Prelude.{List};
    ghost use Rattle.rgb_base.specs.declared.parts.Posting.{Posting};

    ghost Value = { List Posting };

    ghost view = { λ p. p.value.items };
}

impl Postings {
    /// The postings of a vector, which keeps its room.
    pub fn of(value: Vec<Posting>) -> Postings
        ensures same { result ≡ value.items }
    {
        Postings { value }
    }

    /// Lends the postings.
    pub fn as_slice(&self) -> &[Posting]
        ensures same { result.now ≡ self.now }
    {
        &self.value
    }
}

/// Numbers of documents, lists or terms. Contracts see the list of them.
#[derive(Debug, Drop)]
pub struct Ids {
    value: Vec<u32>,
}

impl Model for Ids {
    ghost use Rattle.std.specs.Prelude.{ℕ, List};

    ghost Value = { List ℕ };

    ghost view = { λ i. i.value.items };
}

impl Ids {
    /// The numbers of a vector, which keeps its room.
    pub fn of(value: Vec<u32>) -> Ids
        ensures same { result ≡ value.items }
    {
        Ids { value }
    }

    /// Lends the numbers.
    pub fn as_slice(&self) -> &[u32]
        ensures same { result.now ≡ self.now }
    {
        &self.value
    }
}
