// What only the calls show that go slot by slot.
use crate::setting::*;
use protocol::refusal::Refusal;
use record::State;
use slot::counts::Counts;
use slot::kinds::Unsplit;
use slot::listed::BLANK;
use slot::working::open;

// One clash and one lone slot, each opened by a command.
const SPLIT_ONCE: Counts = Counts {
    lone: 1,
    silent: 0,
    clash: 1,
    commands: 2,
};

// Nothing is sent to the tag, and its serial number is not listed.
#[test]
fn given_up(rt: HostRuntime) {
    let (mut slots, mut serials) = ([BLANK; 5], [[0; 8]; 2]);
    let mut lists = lists_in(&mut slots, &mut serials);
    let mut table = two_tags();
    let mut bench = bench_over(&mut table);
    let slot = clash(&rt, open(&mut bench, 2, &mut lists));
    let given_up = lone(&rt, slot.split(&mut bench, &COINS, &mut lists)).give_up();
    assert!(rt; given_up.serial == FIRST);
    assert!(rt; given_up.counts == SPLIT_ONCE);
    assert!(rt; lists.slots.as_slice() == &SLOTS[..2]);
    assert!(rt; lists.serials.as_slice().is_empty());
    let [first, second] = table;
    assert!(rt; (first.state, first.counter) == (State::Singulation, 0));
    assert!(rt; (second.state, second.counter) == (State::Singulation, 1));
}

// The slot is handed back, all else is as it was, and the slot can be split by good rows afterwards.
#[test]
fn no_rows_and_65_are_refused(rt: HostRuntime) {
    let (mut slots, mut serials) = ([BLANK; 5], [[0; 8]; 2]);
    let mut lists = lists_in(&mut slots, &mut serials);
    let mut table = two_tags();
    let mut slot = clash(&rt, open(&mut bench_over(&mut table), 2, &mut lists));
    let before = table;
    for coins in [&[][..], &[2; 65][..]] {
        let result = slot.split(&mut bench_over(&mut table), coins, &mut lists);
        let Err(Unsplit::Refused(declined)) = result else {
            panic!(rt; "no refusal");
        };
        assert!(rt; declined.refusal == Refusal::Coins);
        assert!(rt; (lists.slots.len(), lists.serials.len()) == (1, 0));
        assert!(rt; table == before);
        slot = declined.given;
    }
    let result = slot.split(&mut bench_over(&mut table), &[2; 64], &mut lists);
    let given_up = lone(&rt, result).give_up();
    assert!(rt; given_up.serial == FIRST);
    assert!(rt; given_up.counts == SPLIT_ONCE);
    assert!(rt; lists.slots.as_slice() == &SLOTS[..2]);
}

// The second split draws the second row of its own, and the third the first again.
#[test]
fn other_rows_at_each_split(rt: HostRuntime) {
    let (mut slots, mut serials) = ([BLANK; 5], [[0; 8]; 2]);
    let mut lists = lists_in(&mut slots, &mut serials);
    let mut table = two_tags();
    let mut bench = bench_over(&mut table);
    let mut slot = clash(&rt, open(&mut bench, 100, &mut lists));
    for coins in [[0, 2], [2, 0]] {
        slot = clash(&rt, slot.split(&mut bench, &coins, &mut lists));
    }
    let given_up = lone(&rt, slot.split(&mut bench, &[2, 0], &mut lists)).give_up();
    let counts = Counts {
        lone: 1,
        silent: 0,
        clash: 3,
        commands: 4,
    };
    assert!(rt; given_up.counts == counts);
}

// What is listed goes into the lists that each call is given.
#[test]
fn into_other_lists(rt: HostRuntime) {
    let (mut slots, mut later, mut read) = ([BLANK], [BLANK], [[0; 8]]);
    let mut lists = lists_in(&mut slots, &mut []);
    let mut other = lists_in(&mut later, &mut read);
    let mut table = two_tags();
    let mut bench = bench_over(&mut table);
    let slot = clash(&rt, open(&mut bench, 100, &mut lists));
    let slot = lone(&rt, slot.split(&mut bench, &COINS, &mut other));
    assert!(rt; slot.read(&mut bench, &mut other).is_ok());
    assert!(rt; [slots[0], later[0]] == [SLOTS[0], SLOTS[1]]);
    assert!(rt; read == [FIRST]);
}
