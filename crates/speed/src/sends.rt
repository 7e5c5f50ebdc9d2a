// Many sends to 64 tags, on a bench or in a pair of two benches of 32.
use crate::load::Load;
use crate::tally::Tally;
use anyhow::Context;
use bench::bench::Bench;
use composite_fields::pair::Pair;
use field::field::{Field, ROOM};
use notation::encoding::make_frame;
use notation::sample::numbered_tag;
use protocol::command::{Command, OWN};
use record::Tag;
use std::alloc::Global;
use std::array;

// The byte that is summed up: the last one of a reply to a READ.
const SUMMED: usize = 9;

// To a bench.
pub(crate) fn run(heap: Global, load: Load, sends: usize) -> anyhow::Result<Tally> {
    let mut table = full_table();
    send_all(heap, &mut bench_over(&mut table)?, load, sends)
}

// To a pair.
pub(crate) fn run_paired(heap: Global, load: Load, sends: usize) -> anyhow::Result<Tally> {
    let mut table = full_table();
    let (left, right) = table.split_at_mut(32);
    let mut pair = pair_of(bench_over(left)?, bench_over(right)?)?;
    send_all(heap, &mut pair, load, sends)
}

fn full_table() -> [Tag; 64] {
    array::from_fn(|place| numbered_tag(place as u8))
}

fn bench_over(table: &mut [Tag]) -> anyhow::Result<Bench<'_>> {
    let mut bench = Bench::new();
    bench.set_table(table).ok().context("too long a table")?;
    Ok(bench)
}

// Generic, since taking a field out of its result gets no proof where a bench is below.
fn pair_of<L: Field + Drop, R: Field + Drop>(left: L, right: R) -> anyhow::Result<Pair<L, R>> {
    Pair::new(left, right).ok().context("too many places")
}

// Brings the tags to SINGULATION, and sends them the frames of a load, over and over.
fn send_all<F: Field>(
    heap: Global,
    field: &mut F,
    load: Load,
    sends: usize,
) -> anyhow::Result<Tally> {
    let mut buffer = [0; ROOM];
    let select = make_frame(heap, Command::Select.code(), &OWN)?;
    field.send(select.as_slice(), 0, &mut buffer)?;
    let frames = load.frames(heap)?;
    let mut tally = Tally::default();
    for frame in frames.iter().cycle().take(sends) {
        let hearing = field.send(frame.as_slice(), 0, &mut buffer)?;
        tally.take(hearing, buffer[SUMMED]);
    }
    Ok(tally)
}
