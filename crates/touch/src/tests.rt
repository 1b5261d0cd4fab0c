// Jobs and their reports.
use super::job::answer;
use std::alloc::Global;
use std::process::Abort;
use std::test::Fail;

const MOVED: &str = " facets 1 0 0 0 40 0 0 0 40 0 ties 0";

const STANDING: &str = " facets 1 0 0 9 40 0 9 0 40 9 ties 0";

const UNTURNED: &str = " 1048576 0 0 0 1048576 0 0 0 1048576";

const LARGER: &str = "this version compares single facets without ties only\n";

// The parts of a job, and its report.
type Case = (&'static [&'static str], &'static str);

const WRONG_WORDS: [Case; 17] = [
    (&["Kind box"], "refused 12 in kind, word 1\n"),
    (&["kind cube"], "refused 12 in kind, word 2\n"),
    (&["kind box\tfacets 1"], "refused 12 in kind, word 2\n"),
    (&["kind box\r\nfacets 1"], "refused 12 in kind, word 2\n"),
    (&["kind box facets -0"], "refused 12 in facets, word 2\n"),
    (
        &["kind box facets 12345678901"],
        "refused 12 in facets, word 2\n",
    ),
    (&["kind box facets 1 +5"], "refused 12 in facets, word 3\n"),
    (&["kind box facets 1 -"], "refused 12 in facets, word 3\n"),
    (&["kind box facets 1 --1"], "refused 12 in facets, word 3\n"),
    (&["kind box facets 1 1.0"], "refused 12 in facets, word 3\n"),
    (
        &["kind box facets 1 0 0 0 40 0 0 0 40 ties 0"],
        "refused 12 in facets, word 11\n",
    ),
    (
        &["kind box facets 1 0 0 0 32768 0 0 0 40 x"],
        "refused 12 in facets, word 11\n",
    ),
    (
        &["kind box facets 1 0 0 0 12345678901 0 0 0 40 0"],
        "refused 12 in facets, word 6\n",
    ),
    (
        &["kind box facets 1 0 0 0 40 0 0 0 40 0 7 ties 0"],
        "refused 12 in ties, word 1\n",
    ),
    (
        &["kind box", MOVED, " facets2 1"],
        "refused 12 in facets2, word 1\n",
    ),
    (
        &["kind box", MOVED, " facets 1 0 0 9 40 0 9 0 40 9 ties x"],
        "refused 12 in ties2, word 2\n",
    ),
    (
        &["kind box", MOVED, STANDING, " placements -0"],
        "refused 12 in placements, word 2\n",
    ),
];

const WRONG_LENGTHS: [Case; 8] = [
    (&[""], "refused 13 in kind, word 1\n"),
    (&[" \n\n "], "refused 13 in kind, word 1\n"),
    (&["kind"], "refused 13 in kind, word 2\n"),
    (&["kind box"], "refused 13 in facets, word 1\n"),
    (&["kind box", MOVED], "refused 13 in facets2, word 1\n"),
    (
        &[
            "kind box",
            MOVED,
            STANDING,
            " placements 2",
            UNTURNED,
            " 0 0 32768",
        ],
        "placement 0: 1 pairs, 1 tests\n0 0\nrefused 13 in placements, word 15\n",
    ),
    (
        &[
            "kind box",
            MOVED,
            STANDING,
            " placements 1",
            UNTURNED,
            " 0 0 32768 5",
        ],
        "placement 0: 1 pairs, 1 tests\n0 0\nrefused 13 in placements, word 15\n",
    ),
    (
        &["kind box", MOVED, STANDING, " placements 0 5"],
        "refused 13 in placements, word 3\n",
    ),
];

const OUT_OF_RANGE: [Case; 6] = [
    (
        &["kind box facets 1 0 0 0 32768 0 0 0 40 0"],
        "refused 4 in facets, word 11\n",
    ),
    (
        &["kind many facets 1 0 0 0 1234567890 0 0 0 40 0"],
        "refused 4 in facets, word 11\n",
    ),
    (
        &["kind ball facets 1 0 0 0 -32768 0 0 0 40 0"],
        "refused 4 in facets, word 11\n",
    ),
    (
        &["kind box", MOVED, " facets 1 0 0 0 40000 0 0 0 40 0"],
        "refused 4 in facets2, word 11\n",
    ),
    (
        &[
            "kind box",
            MOVED,
            STANDING,
            " placements 1 1048577 0 0 0 1048576 0 0 0 1048576 0 0 0",
        ],
        "refused 10 in placements, word 14\n",
    ),
    (
        &[
            "kind box",
            MOVED,
            STANDING,
            " placements 2",
            UNTURNED,
            " 0 0 32768",
            UNTURNED,
            " 0 0 536870913",
        ],
        "placement 0: 1 pairs, 1 tests\n0 0\nrefused 10 in placements, word 26\n",
    ),
];

const ACCEPTED: [Case; 9] = [
    (&["kind box facets 0"], LARGER),
    (&["kind box facets 9999999999"], LARGER),
    (&["kind box facets 1 0 0 0 40 0 0 0 40 0 ties 1"], LARGER),
    (&["kind box", MOVED, " facets 2 x"], LARGER),
    (&["kind box", MOVED, STANDING, " placements 0"], ""),
    (
        &[
            " kind\nbox facets 0000000001 -0 00 -00 -32767 0 0 0 32767 0\n\nties 00",
            STANDING,
            " placements 0 ",
        ],
        "",
    ),
    (
        &[
            "kind box",
            MOVED,
            STANDING,
            " placements 1",
            UNTURNED,
            " 0 0 49152",
        ],
        "placement 0: 1 pairs, 1 tests\n0 0\n",
    ),
    (
        &[
            "kind many",
            MOVED,
            STANDING,
            " placements 1",
            UNTURNED,
            " 0 0 28672",
        ],
        "placement 0: 0 pairs, 1 tests\n",
    ),
    (
        &[
            "kind ball",
            MOVED,
            STANDING,
            " placements 1",
            UNTURNED,
            " 0 0 28672",
        ],
        "placement 0: 1 pairs, 1 tests\n0 0\n",
    ),
];

// The parts joined after so many spaces.
fn join(heap: Global, spaces: usize, parts: &[&str]) -> Result<Vec<u8>, Fail> {
    let mut job = vec![in heap; b' '; spaces]?;
    for part in parts {
        job.extend_from_slice(part.as_bytes())?;
    }
    Ok(job)
}

fn gives(rt: &impl Abort, heap: Global, job: &[u8], report: &str) -> Result<(), Fail> {
    assert_eq!(rt; answer(heap, job)?.as_str(), report);
    Ok(())
}

fn all_give(rt: &impl Abort, heap: Global, cases: &[Case]) -> Result<(), Fail> {
    for (parts, report) in cases {
        gives(rt, heap, join(heap, 0, parts)?.as_slice(), report)?;
    }
    Ok(())
}

#[test]
fn tables(rt: HostRuntime) -> Result<(), Fail> {
    let heap = rt.alloc();
    all_give(&rt, heap, &WRONG_WORDS)?;
    all_give(&rt, heap, &WRONG_LENGTHS)?;
    all_give(&rt, heap, &OUT_OF_RANGE)?;
    all_give(&rt, heap, &ACCEPTED)
}

#[test]
fn longest(rt: HostRuntime) -> Result<(), Fail> {
    let heap = rt.alloc();
    let parts = [
        "kind box",
        MOVED,
        STANDING,
        " placements 1",
        UNTURNED,
        " 0 0 28672",
    ];
    let length = join(heap, 0, &parts)?.len();
    assert!(rt; length <= 65536);
    let longest = join(heap, 65536 - length, &parts)?;
    assert_eq!(rt; longest.len(), 65536);
    gives(
        &rt,
        heap,
        longest.as_slice(),
        "placement 0: 0 pairs, 1 tests\n",
    )?;
    let too_long = join(heap, 65537 - length, &parts)?;
    gives(
        &rt,
        heap,
        too_long.as_slice(),
        "refused 13 in kind, word 0\n",
    )
}
