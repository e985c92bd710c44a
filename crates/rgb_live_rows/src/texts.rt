//! Which texts are told to be those of runs of `live`, over two documents that change places twice.
use rgb_live_runs::Live;
use std::alloc::Global;
use std::test::Fail;

const LIVE: Live<'static> = Live {
    reordered: "text of reorder\n",
    readers: 2,
    queries: &[(1, 0b01), (2, 0b11), (5, 0b01)],
    versions: 3,
    documents: 2,
    orders: &[0, 1, 1, 0, 0, 1],
    names: "x y",
};

const FINALS: &str = "final 1 version 2 matches 1\n0 x\nfinal 2 version 2 matches 2\n0 x\n1 y\n\
    final 5 version 2 matches 1\n0 x\n";

/// Live blocks of the first reader, the other one and the first again.
const GOOD: [&str; 3] = [
    "live 1 version 0 matches 1\n0 x\nlive 2 version 0 matches 2\n0 x\n1 y\n\
        live 5 version 0 matches 1\n0 x\n",
    "live 1 version 1 matches 1\n1 x\nlive 2 version 0 matches 2\n0 x\n1 y\n\
        live 5 version 1 matches 1\n1 x\n",
    "live 1 version 0 matches 1\n0 x\nlive 2 version 1 matches 2\n0 y\n1 x\n\
        live 5 version 2 matches 1\n0 x\n",
];

const BAD: [&str; 8] = [
    // The first reader's version falls.
    "live 1 version 1 matches 1\n1 x\nlive 2 version 0 matches 2\n0 x\n1 y\n\
        live 5 version 0 matches 1\n0 x\n",
    // There is no version 3.
    "live 1 version 0 matches 1\n0 x\nlive 2 version 0 matches 2\n0 x\n1 y\n\
        live 5 version 3 matches 1\n0 x\n",
    // A number, and then names, of another version.
    "live 1 version 1 matches 1\n0 x\nlive 2 version 1 matches 2\n0 y\n1 x\n\
        live 5 version 1 matches 1\n1 x\n",
    "live 1 version 1 matches 1\n1 x\nlive 2 version 1 matches 2\n0 x\n1 y\n\
        live 5 version 1 matches 1\n1 x\n",
    // A document too few, and one that isn't meant.
    "live 1 version 0 matches 1\n0 x\nlive 2 version 0 matches 1\n0 x\n\
        live 5 version 0 matches 1\n0 x\n",
    "live 1 version 0 matches 1\n1 y\nlive 2 version 0 matches 2\n0 x\n1 y\n\
        live 5 version 0 matches 1\n0 x\n",
    // A block too few, and one too many.
    "live 1 version 0 matches 1\n0 x\nlive 2 version 0 matches 2\n0 x\n1 y\n",
    "live 1 version 0 matches 1\n0 x\nlive 2 version 0 matches 2\n0 x\n1 y\n\
        live 5 version 0 matches 1\n0 x\nlive 5 version 0 matches 1\n0 x\n",
];

/// The text with these live blocks.
fn text_with(alloc: Global, blocks: &str) -> Result<String, Fail> {
    Ok(format!(in alloc; "text of reorder\nreaders 2\n{blocks}{FINALS}")?)
}

#[test]
fn texts_of_runs(rt: HostRuntime) -> Result<(), Fail> {
    for blocks in GOOD {
        let text = text_with(rt.alloc(), blocks)?;
        assert!(rt; LIVE.is_text(rt.alloc(), text.as_bytes())?, "{blocks}");
    }
    for blocks in BAD {
        let text = text_with(rt.alloc(), blocks)?;
        assert!(rt; !LIVE.is_text(rt.alloc(), text.as_bytes())?, "{blocks}");
    }
    Ok(())
}

/// Each front of such a text is one, whole only where it has all bytes.
#[test]
fn fronts_of_texts(rt: HostRuntime) -> Result<(), Fail> {
    for blocks in GOOD {
        let text = text_with(rt.alloc(), blocks)?;
        for size in 0..text.len() {
            let (front, _) = text.as_bytes().split_at(size);
            assert!(rt; LIVE.is_front(rt.alloc(), front)?, "{size}: {blocks}");
            assert!(rt; !LIVE.is_text(rt.alloc(), front)?, "{size}: {blocks}");
        }
    }
    Ok(())
}

const NO_FRONTS: [&str; 4] = [
    "text of another\n",
    "text of reorder\nreaders 3\n",
    "text of reorder\nreaders 2\nlive 1 version 1 matches 1\n0 x",
    "text of reorder\nreaders 2\nlive 1 version 1 matches 1\n1 x\nlive 2 version 0 matches 2\n\
        0 x\n1 y\nlive 5 version 0",
];

#[test]
fn texts_that_begin_no_run(rt: HostRuntime) -> Result<(), Fail> {
    for text in NO_FRONTS {
        assert!(rt; !LIVE.is_front(rt.alloc(), text.as_bytes())?, "{text}");
    }
    Ok(())
}
