// The numbers of stops, and the report of one.
use slot::counts::Counts;
use slot::ending::{End, Report, Stop, Stopped};

#[test]
fn numbers(rt: HostRuntime) {
    let counts = Counts {
        lone: 1,
        silent: 2,
        clash: 3,
        commands: 4,
    };
    for (stop, number) in [(Stop::Deep, 7), (Stop::Spent, 8), (Stop::Full, 9)] {
        let report = Report::from(Stopped { stop, counts });
        assert!(rt; (stop.number(), report.end.number()) == (number, number));
        assert!(rt; report.counts == counts);
    }
    assert!(rt; End::Whole.number() == 0);
}
