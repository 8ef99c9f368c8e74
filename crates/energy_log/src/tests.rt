// The cursor, run: nobody steps by `next` alone today.
use crate::{Walk, index_of, next, walk_day};
use calendar::Date;
use log_header::Header;
use std::test::Fail;

// From a day's first slot to its second, and at its end no further.
#[test]
fn steps(rt: HostRuntime) -> Result<(), Fail> {
    let h = Header {
        start: Date {
            year: 24,
            month: 5,
            day: 17,
        },
        days: 2,
        minutes: 30,
        ke: 100,
        seasons: 1,
    };
    let first = walk_day(h, 1);
    let index = index_of(first);
    assert_eq!(rt; index, 48);
    let second = index_of(next(first));
    assert_eq!(rt; second, 49);
    let end = Walk { slot: 48, ..first };
    let stays = index_of(next(end));
    assert_eq!(rt; stays, 96);
    Ok(())
}
