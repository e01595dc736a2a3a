//! Shares of amounts are rounded as the worked examples say.

use stock_nums::half_up::half_up;
use stock_nums::numbers::{Minor, Qty};
use stock_nums::part::part;

// What some of the units cost at their average, where there are so many.
fn average_cost(value: u32, take: u32, whole: u32) -> Option<Minor> {
    if take == 0 || take > whole {
        return None;
    }
    let cost = half_up(
        Minor(i64::from(value)),
        Qty(u64::from(take)),
        Qty(u64::from(whole)),
    );
    Some(cost)
}

// What some of the units have of a total after those before them, where there are so many.
fn part_after(total: u32, before: u32, take: u32, whole: u32) -> Option<Minor> {
    let (before, take, whole) = (u64::from(before), u64::from(take), u64::from(whole));
    if whole == 0 || before + take > whole {
        return None;
    }
    Some(part(Minor(i64::from(total)), Qty(before), Qty(take), Qty(whole)))
}

#[test]
fn are_rounded_half_up(rt: HostRuntime) {
    let table = [
        (10_600, 10, 40, 2_650),
        (1_100, 4, 10, 440),
        (100, 1, 3, 33),
        (67, 1, 2, 34),
        (33, 1, 1, 33),
    ];
    for (value, take, whole, want) in table {
        assert_eq!(rt;
            average_cost(value, take, whole),
            Some(Minor(want)),
            "at {take} of {whole} for {value}"
        );
    }
}

#[test]
fn are_parted_with_the_whole_rounded_down(rt: HostRuntime) {
    let table = [
        (1_000, 0, 10, 30, 333),
        (1_000, 10, 2, 30, 67),
        (1_000, 12, 18, 30, 600),
        (100, 1, 1, 3, 33),
        (100, 2, 1, 3, 34),
        (100, 2, 0, 3, 0),
        (100, 0, 3, 3, 100),
    ];
    for (total, before, take, whole, want) in table {
        assert_eq!(rt;
            part_after(total, before, take, whole),
            Some(Minor(want)),
            "at {take} of {whole} for {total} after {before}"
        );
    }
}
