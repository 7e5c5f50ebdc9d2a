// What is timed, as words say it.
use crate::load::Load;
use crate::{sends, sweeps};

#[derive(Clone, Copy)]
enum Kind {
    // Sends to a bench.
    Sends(Load),
    // Sends to a pair.
    Paired(Load),
    Sweeps,
}

// So much of one kind.
#[derive(Clone, Copy)]
pub(crate) struct Race {
    kind: Kind,
    times: usize,
}

// What is wrong with a word.
#[derive(Clone, Copy)]
pub(crate) struct Fault<'a> {
    pub(crate) problem: &'static str,
    pub(crate) word: &'a str,
}

impl Race {
    // By two words, KIND NUMBER.
    pub(crate) fn read(pair: &[String]) -> Result<Race, Fault<'_>> {
        let word = word_at(pair, 0);
        let kind = read_kind(word)?;
        let times = word_at(pair, 1).parse::<usize>().or(Err(Fault {
            problem: "no number behind",
            word,
        }))?;
        Ok(Race { kind, times })
    }

    pub(crate) fn run(self, rt: &HostRuntime) -> anyhow::Result<()> {
        let Race { kind, times } = self;
        match kind {
            Kind::Sends(load) => println!(rt; "{}", sends::run(rt.alloc(), load, times)?)?,
            Kind::Paired(load) => println!(rt; "{}", sends::run_paired(rt.alloc(), load, times)?)?,
            Kind::Sweeps => println!(rt; "{}", sweeps::run(times)?)?,
        }
        Ok(())
    }
}

// No letters where there is no word.
fn word_at(words: &[String], place: usize) -> &str {
    words.get(place).map_or("", |word| word.as_str())
}

fn read_kind(word: &str) -> Result<Kind, Fault<'_>> {
    match word {
        "query" => Ok(Kind::Sends(Load::Query)),
        "read" => Ok(Kind::Sends(Load::Read)),
        "paired-query" => Ok(Kind::Paired(Load::Query)),
        "paired-read" => Ok(Kind::Paired(Load::Read)),
        "sweeps" => Ok(Kind::Sweeps),
        _ => Err(Fault {
            problem: "unknown word",
            word,
        }),
    }
}
