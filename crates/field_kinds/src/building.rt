// The tags, and fields of each kind over them.
use anyhow::Context;
use bench::bench::Bench;
use composite_fields::pair::Pair;
use composite_fields::spoiler::Spoiler;
use field::field::Field;
use notation::sample::numbered_tag;
use record::Tag;
use std::array;

// The tags of each field: numbers 1 to 4 at places 0 to 3.
pub(crate) fn crowd() -> [Tag; 4] {
    array::from_fn(|place| numbered_tag(place as u8 + 1))
}

pub(crate) fn bench_over(table: &mut [Tag]) -> anyhow::Result<Bench<'_>> {
    let mut bench = Bench::new();
    bench.set_table(table).ok().context("too long a table")?;
    Ok(bench)
}

// Two fields as one. This and the next are generic, since taking a field out of its result gets no proof where a bench
// is below.
pub(crate) fn pair_of<L: Field + Drop, R: Field + Drop>(
    left: L,
    right: R,
) -> anyhow::Result<Pair<L, R>> {
    Pair::new(left, right).ok().context("too many places")
}

pub(crate) fn spoiler_of<F: Field + Drop>(field: F, period: u16) -> anyhow::Result<Spoiler<F>> {
    Spoiler::new(field, period).ok().context("a period of 0")
}
