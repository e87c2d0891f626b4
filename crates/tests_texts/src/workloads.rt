//! The load of the command `work`.

use std::alloc::{AllocError, Global};
use std::test::Fail;
use workload::{summary, work_bundle};

// A seed, a number of lines and their bundle.
const BUNDLES: &[(u32, u32, &str)] = &[
    (
        1,
        3,
        "keynix bundle 1\ntext /data 3\n748\n467\n038\nuser /init pump\nend\n",
    ),
    (
        0,
        1,
        "keynix bundle 1\ntext /data 1\n223\nuser /init pump\nend\n",
    ),
    (
        u32::MAX,
        2,
        "keynix bundle 1\ntext /data 2\n698\n057\nuser /init pump\nend\n",
    ),
];

// The bundle of a seed and a number of lines. What it is is not said, here and below, so that the test is proved quickly.
fn bundle_of(alloc: Global, seed: u32, lines: u32) -> Result<Vec<u8>, AllocError> {
    work_bundle(alloc, seed, lines)
}

// How many bytes a bundle has, and all of them added up.
fn count_and_sum(bundle: &[u8]) -> (usize, u32) {
    let mut sum = 0u32;
    for byte in bundle {
        sum = sum.wrapping_add(u32::from(*byte));
    }
    (bundle.len(), sum)
}

// What is told of a load.
fn told(alloc: Global, [seed, lines, sum]: [u32; 3], count: u64) -> Result<String, AllocError> {
    summary(alloc, seed, lines, count, sum)
}

#[test]
fn the_bundle_of_a_load_and_what_is_told_of_it(rt: HostRuntime) -> Result<(), Fail> {
    let alloc = rt.alloc();
    for (seed, lines, text) in BUNDLES {
        assert!(rt; bundle_of(alloc, *seed, *lines)?.as_slice() == text.as_bytes());
    }
    // The last of 100,000 lines, and all bytes added up.
    let bundle = bundle_of(alloc, 1, 100_000)?;
    assert!(rt; count_and_sum(bundle.as_slice()) == (400_054, 16_754_530));
    let few = told(alloc, [1, 3, 509], 12)?;
    assert!(rt; few.as_str() == "work seed 1 lines 3 console 12 sum 509\n");
    let most = told(alloc, [u32::MAX, 100_000, u32::MAX], u64::MAX)?;
    assert!(rt;
        most.as_str()
            == "work seed 4294967295 lines 100000 console 18446744073709551615 sum 4294967295\n"
    );
    Ok(())
}
