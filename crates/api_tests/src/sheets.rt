// A printed sheet of more slots than their column has room for.
use crate::setting::SLOTS;
use sheet::write;
use slot::counts::Counts;
use slot::ending::{End, Report};

const REPORT: Report = Report {
    end: End::Whole,
    counts: Counts {
        lone: 2,
        silent: 0,
        clash: 1,
        commands: 6,
    },
};

// 999,999 lines of 25 bytes, one of 26, and the last of 31.
const LENGTH: usize = 25_000_032;

// The lines from slot 999,998 on, whose last number does not fit in its column.
const TAIL: &str = "999998     0     2     0
999999     0     2     0
1000000     0     2     0
     0     2     0     1     6
";

#[test]
fn a_million_slots(rt: HostRuntime) {
    let alloc = rt.alloc();
    let slots = vec![in alloc; SLOTS[0]; 1_000_000].expect(&rt, "memory");
    let mut buffer = vec![in alloc; 0xa5; LENGTH + 1].expect(&rt, "memory");
    let answer = write(&slots, &[], &REPORT, &mut buffer);
    assert!(rt; answer == Ok(LENGTH));
    let tail = buffer
        .get(LENGTH - TAIL.len()..)
        .expect(&rt, "so long a sheet");
    let (sheet, behind) = tail
        .split_at_checked(TAIL.len())
        .expect(&rt, "so long a text");
    assert!(rt; sheet == TAIL.as_bytes());
    assert!(rt; behind == [0xa5].as_slice());
}
