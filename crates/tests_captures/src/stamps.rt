//! Time stamps of several resolutions.

use crate::facts::equal_at;
use pcapng_reader::{Stamp, Time};

/// Units, resolution, offset, seconds and nanoseconds.
const STAMPS: [(u64, u8, i64, i64, u32); 13] = [
    (1_700_000_000_000_001, 6, 0, 1_700_000_000, 1_000),
    (1_500_000_000_123_456_789, 9, 0, 1_500_000_000, 123_456_789),
    (1_500_000_000, 0, 3_600, 1_500_003_600, 0),
    (12_345, 3, -100, -88, 345_000_000),
    (1_999_999_999_999, 12, 0, 1, 999_999_999),
    (18_446_744_073_709_551_615, 19, 0, 1, 844_674_407),
    (18_446_744_073_709_551_615, 20, 0, 0, 184_467_440),
    (18_446_744_073_709_551_615, 127, 7, 7, 0),
    (52_223, 138, -100, -50, 999_023_437),
    (18_446_744_073_709_551_615, 128, 0, i64::MAX, 0),
    (18_446_744_073_709_551_615, 192, 0, 0, 999_999_999),
    (18_446_744_073_709_551_615, 255, -1, -1, 0),
    (1, 128, i64::MIN, i64::MIN + 1, 0),
];

#[test]
fn resolutions(rt: HostRuntime) {
    for (units, resolution, offset, seconds, nanoseconds) in STAMPS {
        let time = Time {
            units,
            resolution,
            offset,
        };
        let want = Stamp {
            seconds,
            nanoseconds,
        };
        equal_at(&rt, time.stamp(), want, &time);
    }
}
