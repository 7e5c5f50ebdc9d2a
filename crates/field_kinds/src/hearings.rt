// Sends the same few frames to a bench, a pair and a spoiler over four tags each, and prints what each hears.
use crate::building::{bench_over, crowd, pair_of, spoiler_of};
use crate::heard::hear;
use crate::transmissions::TRANSMISSIONS;
use bench::single::Single;
use field::field::Field;
use notation::encoding::make_frame;
use two_fields::agreement::agree;

// Sends a frame to a field, and prints what it hears.
fn tell<F: Field>(
    rt: &HostRuntime,
    name: &str,
    field: &mut F,
    frame: &[u8],
    row: u64,
) -> anyhow::Result<()> {
    let heard = hear(field, frame, row)?;
    println!(rt; "  {name:<8} {heard}")?;
    Ok(())
}

// Sends the frames to each of three fields. They are of any kinds here, which makes the proof short.
fn send_all<B: Field, P: Field, S: Field>(
    rt: &HostRuntime,
    bench: &mut B,
    pair: &mut P,
    spoiler: &mut S,
) -> anyhow::Result<()> {
    for (command, parameters, row) in TRANSMISSIONS {
        let frame = make_frame(rt.alloc(), command.code(), parameters)?;
        println!(rt; "{command} with coins {row:04b}")?;
        tell(rt, "bench", bench, &frame, row)?;
        tell(rt, "pair", pair, &frame, row)?;
        tell(rt, "spoiler", spoiler, &frame, row)?;
    }
    Ok(())
}

pub(crate) fn show(rt: &HostRuntime) -> anyhow::Result<()> {
    let mut parted = crowd();
    let mut below = crowd();
    let mut table = crowd();
    let mut bench = bench_over(&mut table)?;
    let mut pair = pair_of(Single::new(parted[0]), bench_over(&mut parted[1..])?)?;
    let mut spoiler = spoiler_of(bench_over(&mut below)?, 2)?;
    println!(rt;
        "four tags: on a bench, in a pair of one and three, and where each second lone reply is spoiled"
    )?;
    send_all(rt, &mut bench, &mut pair, &mut spoiler)?;
    let agree = agree(&bench, &pair) && agree(&bench, &spoiler);
    println!(rt; "tags agree: {}", if agree { "yes" } else { "no" })?;
    Ok(())
}
