//! Queries.
ghost use Rattle.std.specs.Prelude.{◌≡◌};
ghost use Rattle.bool_query.specs.View.{queries_of};

use rgb_base::Text;

/// What is asked of documents. A chain of `AND`s or of `OR`s is one list, in order.
#[cycle(query)]
#[derive(Debug, Drop)]
pub enum Query {
    /// The documents of the term's list, and none where no list has the term.
    Term(Text),
    /// The documents of every part: at least two parts.
    All(Parts),
    /// The documents of some part: at least two parts.
    Any(Parts),
    /// All documents of the index but those of the part.
    Not(Box<Query>),
}

/// The parts of a query in order.
#[cycle(query)]
#[derive(Debug, Drop)]
pub struct Parts {
    value: Vec<Query>,
}

impl Parts {
    /// The queries of a vector, which keeps its room.
    pub fn of(value: Vec<Query>) -> Parts
        ensures same { queries_of result ≡ value.items }
    {
        Parts { value }
    }

    /// Lends the queries.
    pub fn as_slice(&self) -> &[Query]
        ensures same { result.now ≡ queries_of self.now }
    {
        &self.value
    }
}
