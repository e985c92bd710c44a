//! A list of whole numbers, as contracts see it.
ghost use Rattle.std.specs.Prelude.{◌≡◌};

use std::marker::Model;

/// Whole numbers. Contracts see the list of them.
#[derive(Debug, Drop)]
pub struct Numbers {
    value: Vec<u64>,
}

impl Model for Numbers {
    ghost use Rattle.std.specs.Prelude.{ℕ, List};

    ghost Value = { List ℕ };

    ghost view = { λ n. n.value.items };
}

impl Numbers {
    /// The numbers of a vector, which keeps its room.
    pub fn of(value: Vec<u64>) -> Numbers
        ensures same { result ≡ value.items }
    {
        Numbers { value }
    }

    /// Lends the numbers.
    pub fn as_slice(&self) -> &[u64]
        ensures same { result.now ≡ self.now }
    {
        &self.value
    }
}
