use cache_space::{CacheSpace, are_maximal, blocks_needed, have_blocks};
use site_types::Run;
use std::alloc::{AllocError, Global};
use std::test::Fail;

fn run(first: u32, count: u32) -> Run {
    Run { first, count }
}

fn space_with(alloc: Global, blocks: u32, held: &[Run]) -> Result<CacheSpace, AllocError> {
    let mut space = CacheSpace::new(alloc, blocks)?;
    space.hold(held);
    Ok(space)
}

/// The lowest free blocks beside held runs and runs to pass over, by hand.
#[test]
fn lowest_free_blocks(rt: HostRuntime) -> Result<(), Fail> {
    let held = [run(0, 2), run(3, 1), run(6, 2)];
    let space = space_with(rt.alloc(), 10, &held)?;
    let free = [run(2, 1), run(4, 2), run(8, 2)];
    let but = [run(5, 1), run(9, 9)];
    let table = [
        (0, &but[..0], &free[..0]),
        (1, &but[..0], &free[..1]),
        (3, &but[..0], &free[..2]),
        (5, &but[..0], &free[..]),
        (2, &but[..], &[run(2, 1), run(4, 1)][..]),
        (3, &but[..], &[run(2, 1), run(4, 1), run(8, 1)][..]),
    ];
    for (wanted, but, expected) in table {
        let runs = space.lowest(wanted, but).ok().ok_or("refused")?;
        assert_eq!(rt; runs.as_slice(), expected, "{wanted} blocks");
    }
    assert!(rt; space.lowest(6, &but[..0]).is_err() && space.lowest(4, &but).is_err());
    Ok(())
}

/// Free blocks over groups that are held in part or whole, by hand.
#[test]
fn lowest_free_blocks_of_groups(rt: HostRuntime) -> Result<(), Fail> {
    let held = [run(2, 3), run(4095, 4098), run(8196, 1), run(12286, 2)];
    let space = space_with(rt.alloc(), 12289, &held)?;
    let free = [
        run(0, 2),
        run(5, 4090),
        run(8193, 3),
        run(8197, 4089),
        run(12288, 1),
    ];
    let table = [
        (0, &free[..0]),
        (1, &[run(0, 1)][..]),
        (2, &free[..1]),
        (3, &[run(0, 2), run(5, 1)][..]),
        (4092, &free[..2]),
        (4093, &[run(0, 2), run(5, 4090), run(8193, 1)][..]),
        (8185, &free[..]),
    ];
    for (wanted, expected) in table {
        let runs = space.lowest(wanted, &[]).ok().ok_or("refused")?;
        assert_eq!(rt; runs.as_slice(), expected, "{wanted} blocks");
    }
    assert_eq!(rt; space.free(), 8185);
    Ok(())
}

/// A search passes over full groups, and comes back to one where a block is given back.
#[test]
fn full_groups(rt: HostRuntime) -> Result<(), Fail> {
    let mut space = space_with(rt.alloc(), 12289, &[run(0, 8192)])?;
    let table = [
        (run(0, 0), 4097, 1, run(8192, 1)),
        (run(4096, 1), 4098, 1, run(4096, 1)),
        (run(4095, 1), 4099, 2, run(4095, 2)),
        (run(8191, 1), 4100, 1, run(4095, 1)),
        (run(0, 8192), 12289, 12289, run(0, 12289)),
    ];
    for (given, free, wanted, expected) in table {
        space.give(&[given]);
        assert_eq!(rt; space.free(), free, "after {given:?}");
        let runs = space.lowest(wanted, &[]).ok().ok_or("refused")?;
        assert_eq!(rt; runs.as_slice(), [expected].as_slice(), "after {given:?}");
        assert!(rt; space.all_free(&[given]));
    }
    assert!(rt; !space.all_free(&[run(12288, 2)]));
    Ok(())
}

/// What runs are, and how many blocks bytes need.
#[test]
fn runs_and_bytes(rt: HostRuntime) {
    let table = [
        ([run(0, 1), run(2, 3)], true, 4),
        ([run(0, 2), run(2, 3)], false, 5),
        ([run(2, 3), run(0, 1)], false, 4),
        ([run(1, 0), run(9, 1)], false, 1),
        ([run(0, u32::MAX), run(1, u32::MAX)], false, 9),
    ];
    for (runs, maximal, blocks) in table {
        assert_eq!(rt; are_maximal(&runs), maximal, "{runs:?}");
        assert_eq!(rt; have_blocks(&runs, blocks), blocks < 9, "{runs:?}");
    }
    for (bytes, blocks) in [(0, 0), (1, 1), (4096, 1), (4097, 2), (16777216, 4096)] {
        assert_eq!(rt; blocks_needed(bytes), blocks, "{bytes} bytes");
    }
}
