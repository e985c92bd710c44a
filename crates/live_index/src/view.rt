//! What is published: a version with its numbering and its store, which all that see it share.
ghost use Rattle.std.specs.Arc.{arc_value};

use left_right::Absorb;
use postings_rewrite::BlockStore;
use rgb_base::Permutation;
use std::alloc::AllocError;
use std::sync::Arc;

/// A version with its numbering, and the store of the base renumbered by it.
#[derive(Drop)]
pub struct View {
    pub(crate) version: u32,
    pub(crate) numbering: Permutation,
    pub(crate) store: BlockStore,
}

/// What each of the two copies holds, and what is put in its place. Before the first publishing it
/// isn't open, and no reader is there.
#[derive(Drop)]
pub struct Shown {
    pub(crate) view: Arc<View>,
    pub(crate) is_open: bool,
}

impl Absorb<Shown> for Shown {
    type State = (View, bool);

    ghost state = { λ shown. (arc_value shown.view, shown.is_open) };

    ghost applied = { λ _ entry. (arc_value entry.view, entry.is_open) };

    // It copies the pointer alone.
    fn absorb_first(&mut self, operation: &Shown, _other: &Shown) -> Result<(), AllocError> {
        let view = Arc::try_clone(&operation.view)?;
        self.view = view;
        self.is_open = operation.is_open;
        Ok(())
    }
}
