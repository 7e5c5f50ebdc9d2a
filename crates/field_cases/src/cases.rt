// Cases, line by line: `tag STATE FLAG COUNTER MARK PERMISSION LOCKS MEMORY` and `find SERIAL` about a table, then
// `field NESTING` over it, then questions to that field, then `end`.
ghost use Rattle.std.specs.Prelude.{◌≡◌, [], ◌∷◌, ◌++◌, IfOk};
ghost use Rattle.record.specs.declared.Tag.{Tag};
ghost use Rattle.field_cases.specs.Questions.{Sends, Passes, Asks};

use crate::asking::{AskedField, SendQuestion};
use crate::building::{Build, Trouble, built, built_leaf};
use crate::nesting::Below;
use crate::reading::{read_tag, split_word};
use crate::showing::of_tags;
use crate::storage::Storage;
use anyhow::{Context, bail, ensure};
use bench::bench::{Bench, place_of};
use field::field::Field;
use field::lending::Lending;
use notation::hexadecimal::read_bytes;
use notation::line::Line;
use record::Tag;
use std::io::{BufRead, BufReader};

// The answer to a question. Where there is none, nothing is said of the field: its answer may have gone unprinted.
fn answer<F: Lending>(
    rt: &HostRuntime,
    asked: &mut AskedField<F>,
    storage: &mut Option<Storage>,
    verb: &str,
    rest: &str,
) -> anyhow::Result<()>
    ensures { IfOk result
        (λ _. Asks verb.now rest.now (F.tags asked.old.field) (F.tags asked.new.field)) }
{
    // A match and no table of closures, since each verb has words of its own.
    match verb {
        "send" => answer_send(rt, asked, rest),
        "gap" => answer_gap(rt, asked, rest),
        "sweep" => storage
            .get_or_insert_with(Storage::new)
            .sweep(rt, &mut asked.field, rest),
        _ => bail!("no question to a field, as `send ROW ROOM FRAME` is"),
    }
}

fn answer_send<F: Lending>(
    rt: &HostRuntime,
    asked: &mut AskedField<F>,
    text: &str,
) -> anyhow::Result<()>
    ensures { IfOk result (λ _. Sends text.now (F.tags asked.old.field) (F.tags asked.new.field)) }
{
    let sending = SendQuestion::read(rt.alloc(), text)?;
    println!(rt; "{}", asked.send(&sending))?;
    Ok(())
}

fn answer_gap<F: Lending>(
    rt: &HostRuntime,
    asked: &mut AskedField<F>,
    text: &str,
) -> anyhow::Result<()>
    ensures { IfOk result (λ _. Passes text.now (F.tags asked.old.field) (F.tags asked.new.field)) }
{
    println!(rt; "gap {}", asked.pass(text.parse::<u32>()?))?;
    Ok(())
}

// What a case begins with: a table, which is filled tag by tag.
#[derive(Drop)]
struct CaseTable<'a> {
    rt: &'a HostRuntime,
    table: Vec<Tag>,
}

impl CaseTable<'_> {
    // A question before there is a field: one tag more, or where a serial number is.
    fn prepare(&mut self, question: &str) -> anyhow::Result<()> {
        let (verb, rest) = split_word(question)?;
        // A match and no table of closures, since each verb has words of its own.
        match verb {
            "tag" => self.add(rest),
            "find" => self.find(rest),
            _ => bail!(
                "no question about a table: `tag STATE ..`, `find SERIAL` or `field NESTING`"
            ),
        }
    }

    fn add(&mut self, text: &str) -> anyhow::Result<()>
        ensures { IfOk result (λ _. (tag : Tag) × (self.new.table.items ≡ self.old.table.items ++ tag ∷ [])) }
    {
        self.table.push(read_tag(self.rt.alloc(), text)?)?;
        println!(self.rt; "{}", self.table.len())?;
        Ok(())
    }

    fn find(&self, text: &str) -> anyhow::Result<()> {
        let serial = read_bytes(self.rt.alloc(), text)?;
        match place_of(self.table.as_slice(), serial.as_slice()) {
            Some(place) => println!(self.rt; "{place}")?,
            None => println!(self.rt; "-")?,
        }
        Ok(())
    }
}

fn answer_all<F: Lending + Drop>(
    rt: &HostRuntime,
    field: F,
    questions: &[String],
) -> anyhow::Result<()> {
    let mut asked = AskedField::new(field);
    // Made at the first sweep: most cases have none, and to fill it would add two fifths to a short case.
    let mut storage = None;
    for question in questions {
        let (verb, rest) = split_word(question.as_str())?;
        answer(rt, &mut asked, &mut storage, verb, rest)?;
    }
    Ok(())
}

// Puts the questions to the field of a case. A refused field is one of no tags.
fn answer_built<F: Lending + Drop>(
    rt: &HostRuntime,
    built: Result<F, Trouble>,
    questions: &[String],
) -> anyhow::Result<()> {
    match built {
        Ok(field) => {
            println!(rt; "places {} {}", field.places(), of_tags(&field))?;
            answer_all(rt, field, questions)
        }
        Err(Trouble::Refused(refusal)) => {
            println!(rt; "refused {}", refusal.number())?;
            answer_all(rt, Bench::new(), questions)
        }
        Err(Trouble::Words(error)) => Err(error),
    }
}

// Builds the field of a case, and puts the questions to it. What stands below the outermost layer is a parameter, since
// the toolchain proves this for any such field, and not at a nesting written out. A field without a layer is built as
// what it is: as large as three layers it would be moved about for longer than a short case takes.
fn perform<'a, F: Build<'a> + Drop>(
    rt: &HostRuntime,
    table: &'a mut [Tag],
    nesting: &str,
    questions: &[String],
) -> anyhow::Result<()> {
    match nesting.split_whitespace().next() {
        Some("pair" | "spoiler") => answer_built(rt, built::<F>(nesting, table), questions),
        _ => answer_built(rt, built_leaf(nesting, table), questions),
    }
}

fn answer_case(rt: &HostRuntime, lines: &[String]) -> anyhow::Result<()> {
    let mut stage = CaseTable {
        rt,
        table: Vec::new(rt.alloc()),
    };
    let mut lines = lines;
    while let [line, questions @ ..] = lines {
        if let Some(nesting) = line.as_str().strip_prefix("field ") {
            return perform::<Below>(rt, stage.table.as_mut_slice(), nesting, questions);
        }
        stage.prepare(line.as_str())?;
        lines = questions;
    }
    bail!("no line `field NESTING`")
}

// Answers what stands in the input, case after case.
pub(crate) fn answer_cases(rt: &HostRuntime) -> anyhow::Result<()> {
    let mut lines = Vec::new(rt.alloc());
    let input = BufReader::new(rt.alloc(), rt.reader())?.lines(rt.alloc());
    for (number, line) in (1..).zip(input) {
        let line = line?;
        if line.as_str() == "end" {
            answer_case(rt, lines.as_slice())
                .context("the case that ends here")
                .context(Line { number })?;
            println!(rt; "end")?;
            lines.clear();
        } else {
            lines.push(line)?;
        }
    }
    ensure!(lines.is_empty(), "no line `end` behind the last case");
    Ok(())
}
