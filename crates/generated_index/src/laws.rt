//! What holds of generated indexes, as the contract of a function that does nothing.
ghost use Rattle.generated_index.specs.Laws.{GeneratedIsIndex};

/// The generated index of at most a million documents is an index.
pub fn generated_is_index()
    ensures law { GeneratedIsIndex }
{}
