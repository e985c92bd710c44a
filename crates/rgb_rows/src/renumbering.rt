//! A small index renumbered, byte by byte.
use ciff_reader::read_index;
use ciff_writer::write_index;
use postings_rewrite::renumber;
use rgb_base::Permutation;
use rgb_host::Host;
use rgb_runs::{ALL_WELL, SIX, bytes_of, has_file, host_with};
use std::test::Fail;

/// The term `a` in the documents 0, 1 and 2, and `b` in 3, 4 and 5, where the documents are `d0`,
/// `d1`, `d3`, `d2`, `d4` and `d5`.
const RENUMBERED: &str =
    "06 08 01 10 02 18 06 17 0a 01 61 10 03 18 03 22 02 10 01 22 04 08 01 10 01 22 04 08 01 10 01 19 \
    0a 01 62 10 03 18 03 22 04 08 03 10 01 22 04 08 01 10 01 22 04 08 01 10 01 06 12 02 64 30 18 01 \
    08 08 01 12 02 64 31 18 01 08 08 02 12 02 64 33 18 01 08 08 03 12 02 64 32 18 01 08 08 04 12 02 \
    64 34 18 01 08 08 05 12 02 64 35 18 01";

#[test]
fn two_documents_change_places(rt: HostRuntime) -> Result<(), Fail> {
    let alloc = rt.alloc();
    let six = bytes_of(alloc, SIX)?;
    let wanted = bytes_of(alloc, RENUMBERED)?;
    let mut host = host_with(alloc, &six, ALL_WELL)?;
    let index = read_index(alloc, &mut host, "in")?;
    let by = Permutation::from_order(alloc, vec![in alloc; 0, 1, 3, 2, 4, 5]?)?;
    assert_eq!(rt; by.len(), index.documents());
    let new = renumber(&rt, alloc, &index, &by, 2)?;
    host.create("out")?;
    assert_eq!(rt; write_index(&new, &mut host, "out"), Ok(109));
    assert!(rt; has_file(&host, "out", Some(&wanted)));
    Ok(())
}
