//! Moments are read from their texts and written as them.

use std::test::Fail;
use stock_nums::moment::Moment;
use stock_nums::moment_text::{MomentFault, moment_text, read_moment};

// The date and the second that a text spells.
fn spelled(text: &str) -> Result<(u32, u32), MomentFault> {
    let moment = read_moment(text.as_bytes())?;
    Ok((moment.date, moment.second))
}

#[test]
fn are_read(rt: HostRuntime) {
    let table = [
        ("2024-02-29T23:59:59", Ok((20_240_229, 86_399))),
        ("0001-01-01T00:00:00", Ok((10_101, 0))),
        ("2026-01-03T07:08:09", Ok((20_260_103, 25_689))),
        ("2026-02-29T00:00:00", Err(MomentFault::Range)),
        ("0000-01-01T00:00:00", Err(MomentFault::Range)),
        ("2026-01-01T24:00:00", Err(MomentFault::Range)),
        ("2026-01-01T00:60:00", Err(MomentFault::Range)),
        ("2026-01-01T00:00:60", Err(MomentFault::Range)),
        ("2026-1-03T00:00:00", Err(MomentFault::Shape)),
        ("2026-01-03 00:00:00", Err(MomentFault::Shape)),
        ("2026-01-03T00:00:00Z", Err(MomentFault::Shape)),
        ("+026-01-03T00:00:00", Err(MomentFault::Shape)),
    ];
    for (text, want) in table {
        assert_eq!(rt; spelled(text), want, "at {text}");
    }
}

#[test]
fn are_written(rt: HostRuntime) -> Result<(), Fail> {
    let nine_in_the_morning = Moment {
        date: 20_260_105,
        second: 32_400,
    };
    let last_second_of_leap_day = Moment {
        date: 20_240_229,
        second: 86_399,
    };
    let table = [
        (nine_in_the_morning, "2026-01-05T09:00:00"),
        (last_second_of_leap_day, "2024-02-29T23:59:59"),
    ];
    for (moment, want) in table {
        let text = moment_text(rt.alloc(), moment)?;
        assert_eq!(rt; text.as_slice(), want.as_bytes());
        assert_eq!(rt; read_moment(text.as_slice()), Ok(moment), "at {want}");
    }
    Ok(())
}
