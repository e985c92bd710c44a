//! Which numbering may be published as which version.
ghost use Rattle.std.specs.Prelude.{ℕ, List};
ghost use Rattle.rgb_base.specs.Parts.{IndexParts};

use rgb_base::Permutation;

/// Says which numbering may be published as which version, from its value and the base alone. It has
/// no calls: contracts alone read it.
pub trait Plan: Copy + Send + Sync {
    /// How many versions are planned over a base.
    ghost versions: { Self → IndexParts → ℕ };

    /// The numbering that may be published over a base as a version, for the versions that are planned.
    /// A numbering is the list of the old number at each new one.
    ghost planned: { Self → IndexParts → ℕ → List ℕ → Type 0 };
}

/// The plan whose versions are these numberings, in order.
#[derive(Clone, Copy)]
pub struct Listed<'a> {
    pub numberings: &'a [Permutation],
}

impl<'a> Plan for Listed<'a> {
    ghost use Rattle.live_index.specs.Listed.{listed_versions, is_listed};

    ghost versions = { listed_versions };

    ghost planned = { is_listed };
}
