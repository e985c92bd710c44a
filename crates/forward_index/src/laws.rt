//! What holds of forward indexes, as the contracts of functions that do nothing.
ghost use Rattle.forward_index.specs.Laws.{ForwardIsOne, CellIsOne, CellOfACell, StartByNameIsOne};
ghost use Rattle.forward_index.specs.Laws.{ForwardIsThere, StartIsThere};

/// An index has one forward index over a start order, and a cell one of its own.
pub fn forward_is_one()
    ensures law { ForwardIsOne }
    ensures cell { CellIsOne }
{}

/// A cell of a cell is a cell of the whole: its rows may be taken from its parent's.
pub fn cell_of_a_cell()
    ensures law { CellOfACell }
{}

/// An index has one start order by name.
pub fn start_by_name_is_one()
    ensures law { StartByNameIsOne }
{}

/// Each index has a forward index over each start order.
pub fn forward_is_there()
    ensures law { ForwardIsThere }
{}

/// Each index has a start order by name.
pub fn start_by_name_is_there()
    ensures law { StartIsThere }
{}
