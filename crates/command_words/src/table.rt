//! The table of commands, each with its operands and its options.

/// Which words an option takes.
#[derive(Clone, Copy)]
pub(crate) enum Values {
    /// One to ten decimal digits, of a number in this range.
    Numbers { least: u32, most: u32 },
    /// One of these two words, of which the first means 0 and the second 1.
    Either(&'static str, &'static str),
}

/// An option of a command.
#[derive(Clone, Copy)]
pub(crate) struct OptionRow {
    pub(crate) name: &'static str,
    pub(crate) values: Values,
    /// What the option is where it isn't given.
    pub(crate) default: u32,
}

/// A command. Its operands and its options may stand in any order behind its name.
#[derive(Clone, Copy)]
pub(crate) struct Row {
    pub(crate) name: &'static str,
    pub(crate) operands: usize,
    pub(crate) options: &'static [OptionRow],
}

/// How many threads work.
pub(crate) const WORKERS: OptionRow = OptionRow {
    name: "--workers",
    values: Values::Numbers { least: 1, most: 64 },
    default: 1,
};

/// How many levels of halving a reordering makes at most.
pub(crate) const DEPTH: OptionRow = OptionRow {
    name: "--depth",
    values: Values::Numbers { least: 0, most: 31 },
    default: 31,
};

/// How many rounds of exchanges a halving makes at most.
pub(crate) const ROUNDS: OptionRow = OptionRow {
    name: "--rounds",
    values: Values::Numbers {
        least: 0,
        most: 100,
    },
    default: 20,
};

/// A cell of so many documents or fewer isn't halved.
pub(crate) const LEAF: OptionRow = OptionRow {
    name: "--leaf",
    values: Values::Numbers {
        least: 1,
        most: 2147483647,
    },
    default: 16,
};

/// How many levels a slab has.
pub(crate) const STEP: OptionRow = OptionRow {
    name: "--step",
    values: Values::Numbers { least: 1, most: 31 },
    default: 4,
};

/// A list of fewer postings has no part in costs and gains.
pub(crate) const MIN_DF: OptionRow = OptionRow {
    name: "--min-df",
    values: Values::Numbers {
        least: 1,
        most: 2147483647,
    },
    default: 1,
};

/// The order in which the documents stand at the start.
pub(crate) const START: OptionRow = OptionRow {
    name: "--start",
    values: Values::Either("number", "name"),
    default: 0,
};

/// The number that a generated index is drawn from.
pub(crate) const NUMBER: OptionRow = OptionRow {
    name: "--number",
    values: Values::Numbers {
        least: 0,
        most: u32::MAX,
    },
    default: 1,
};

/// How many readers ask beside a reordering.
pub(crate) const READERS: OptionRow = OptionRow {
    name: "--readers",
    values: Values::Numbers { least: 1, most: 16 },
    default: 2,
};

/// How many documents a generated index has.
pub(crate) const DOCUMENTS: Values = Values::Numbers {
    least: 0,
    most: 1000000,
};

/// The options of a reordering.
pub(crate) const REORDERING: &[OptionRow] = &[DEPTH, ROUNDS, LEAF, WORKERS, STEP, MIN_DF, START];

/// `copy IN OUT`
pub(crate) const COPY: Row = Row {
    name: "copy",
    operands: 2,
    options: &[],
};

/// `report IN`
pub(crate) const REPORT: Row = Row {
    name: "report",
    operands: 1,
    options: &[WORKERS],
};

/// `reorder IN OUT`
pub(crate) const REORDER: Row = Row {
    name: "reorder",
    operands: 2,
    options: REORDERING,
};

/// `query IN QUERIES`
pub(crate) const QUERY: Row = Row {
    name: "query",
    operands: 2,
    options: &[],
};

/// `make N OUT`
pub(crate) const MAKE: Row = Row {
    name: "make",
    operands: 2,
    options: &[NUMBER, DEPTH, ROUNDS, LEAF, WORKERS, STEP, MIN_DF, START],
};

/// `live IN OUT QUERIES`
pub(crate) const LIVE: Row = Row {
    name: "live",
    operands: 3,
    options: &[READERS, DEPTH, ROUNDS, LEAF, WORKERS, STEP, MIN_DF, START],
};
