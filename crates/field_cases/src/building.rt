// A field, built as words say: `bench N`, `single`, `pair LEFT RIGHT`, `spoiler K BELOW`.
ghost use Rattle.std.specs.Prelude.{◌≡◌, ◌<◌, [], ◌++◌, length, IfOk, OnOk, OnErr};
ghost use Rattle.field_cases.specs.Builds.{parts_tags};
ghost use Rattle.field_cases.specs.Nestings.{leaf_tags, node_tags};

use crate::nesting::{Leaf, Node};
use anyhow::{Context, anyhow};
use bench::bench::Bench;
use bench::single::Single;
use composite_fields::pair::Pair;
use composite_fields::spoiler::Spoiler;
use field::declined::Declined;
use field::field::Field;
use field::lending::Lending;
use notation::words::word;
use protocol::refusal::Refusal;
use record::Tag;
use std::iter::Peekable;
use std::mem;
use std::num::ParseIntError;
use std::str::{FromStr, SplitWhitespace};

/// Why there is no field.
#[derive(Drop)]
pub enum Trouble {
    /// A part of it was refused.
    Refused(Refusal),
    /// The words make no sense.
    Words(anyhow::Error),
}

impl From<anyhow::Error> for Trouble {
    fn from(error: anyhow::Error) -> Trouble {
        Trouble::Words(error)
    }
}

impl<T: Drop> From<Declined<T>> for Trouble {
    fn from(declined: Declined<T>) -> Trouble {
        Trouble::Refused(declined.refusal)
    }
}

/// What fields are built from: the words of a nesting, one after the other, and the tags that none has yet.
#[derive(Drop)]
pub struct Source<'w, 'a> {
    words: Peekable<SplitWhitespace<'w>>,
    tags: &'a mut [Tag],
}

impl<'w, 'a> Source<'w, 'a> {
    // Whether the next word is this one, which is then taken.
    fn takes(&mut self, word: &str) -> bool
        ensures { self.new.tags ≡ self.old.tags }
    {
        self.words.next_if(|next| *next == word).is_some()
    }

    fn word(&mut self) -> anyhow::Result<&'w str>
        ensures { self.new.tags ≡ self.old.tags }
    {
        Ok(word(self.words.next())?)
    }

    fn number<T: FromStr<Err = ParseIntError>>(&mut self) -> anyhow::Result<T>
        ensures { self.new.tags ≡ self.old.tags }
    {
        Ok(self.word()?.parse::<T>()?)
    }

    // So many of the tags, the first of them.
    fn table(&mut self, places: usize) -> anyhow::Result<&'a mut [Tag]>
        ensures tags { IfOk result (λ front. self.old.tags.now ≡ front.now ++ self.new.tags.now) }
        ensures places { IfOk result (λ front. length front.now ≡ places) }
        ensures short { OnErr result (length self.old.tags.now < places) }
    {
        let tags = mem::replace(&mut self.tags, &mut []);
        let (front, rest) = tags.split_at_mut_checked(places).context("too few tags")?;
        self.tags = rest;
        Ok(front)
    }
}

// The field that a nesting means, of all tags of a table.
pub(crate) fn built<'a, F: Build<'a> + Drop>(
    nesting: &str,
    tags: &'a mut [Tag],
) -> Result<Node<F>, Trouble>
    ensures { IfOk result (λ n. node_tags F.tags n ≡ tags.old) }
{
    let mut source = Source {
        words: nesting.split_whitespace().peekable(),
        tags,
    };
    let parts = Parts::<F>::read(&mut source)?;
    all_used(&source)?;
    parts.joined()
}

// The same of a nesting without a layer, which so is no larger than what stands at the bottom.
pub(crate) fn built_leaf<'a>(nesting: &str, tags: &'a mut [Tag]) -> Result<Leaf<'a>, Trouble>
    ensures { IfOk result (λ leaf. leaf_tags leaf ≡ tags.old) }
{
    let mut source = Source {
        words: nesting.split_whitespace().peekable(),
        tags,
    };
    let leaf = Leaf::build(&mut source)?;
    all_used(&source)?;
    Ok(leaf)
}

// That each tag is some field's.
fn all_used(source: &Source<'_, '_>) -> Result<(), Trouble>
    ensures { OnOk result (source.now.tags.now ≡ []) }
{
    if source.tags.is_empty() {
        Ok(())
    } else {
        Err(Trouble::Words(anyhow!("too many tags")))
    }
}

/// A kind of field that words can tell. It is built of the first tags, and the others stay.
pub trait Build<'a>: Lending + Sized {
    /// Builds a field of the next words, or says why there is none.
    fn build(source: &mut Source<'_, 'a>) -> Result<Self, Trouble>
        ensures { IfOk result (λ f. source.old.tags.now ≡ Self.tags f ++ source.new.tags.now) };
}

impl<'a> Build<'a> for Leaf<'a> {
    /// Builds a field of the next words, or says why there is none.
    fn build(source: &mut Source<'_, 'a>) -> Result<Leaf<'a>, Trouble> {
        match source.word()? {
            "bench" => bench_leaf(source),
            "single" => single_leaf(source),
            _ => Err(Trouble::Words(anyhow!(
                "no field: `bench PLACES`, `single`, `pair LEFT RIGHT` or `spoiler PERIOD BELOW`"
            ))),
        }
    }
}

fn bench_leaf<'a>(source: &mut Source<'_, 'a>) -> Result<Leaf<'a>, Trouble>
    ensures { IfOk result (λ leaf. source.old.tags.now ≡ leaf_tags leaf ++ source.new.tags.now) }
{
    let places = source.number::<usize>()?;
    let mut bench = Bench::new();
    bench.set_table(source.table(places)?)?;
    Ok(Leaf::Table(bench))
}

fn single_leaf<'a>(source: &mut Source<'_, 'a>) -> Result<Leaf<'a>, Trouble>
    ensures tags { IfOk result (λ leaf. source.old.tags.now ≡ leaf_tags leaf ++ source.new.tags.now) }
    ensures short { OnErr result (source.old.tags.now ≡ []) }
{
    let tag = source.table(1)?.first().context("too few tags")?;
    Ok(Leaf::Lone(Single::new(*tag)))
}

// What the outermost layer is made of, before it is put on: tags left over are told first. Both steps are inlined,
// since a field is large and each call moves it.
#[derive(Drop)]
enum Parts<F> {
    Bare(F),
    Spoiled(F, u16),
    Paired(F, F),
}

impl<F> Parts<F> {
    #[inline(always)]
    fn read<'a>(source: &mut Source<'_, 'a>) -> Result<Parts<F>, Trouble>
    where
        F: Build<'a> + Drop,
        ensures { IfOk result (λ parts. source.old.tags.now ≡ parts_tags F.tags parts ++ source.new.tags.now) }
    {
        if source.takes("pair") {
            let left = F::build(source)?;
            return Ok(Parts::Paired(left, F::build(source)?));
        }
        if source.takes("spoiler") {
            let period = source.number::<u16>()?;
            return Ok(Parts::Spoiled(F::build(source)?, period));
        }
        Ok(Parts::Bare(F::build(source)?))
    }

    #[inline(always)]
    fn joined(self) -> Result<Node<F>, Trouble>
    where
        F: Field + Drop,
        ensures tags { IfOk result (λ n. node_tags F.tags n ≡ parts_tags F.tags self) }
    {
        Ok(match self {
            Parts::Bare(field) => Node::Bare(field),
            Parts::Spoiled(field, period) => Node::Spoiled(Spoiler::new(field, period)?),
            Parts::Paired(left, right) => Node::Paired(Pair::new(left, right)?),
        })
    }
}

impl<'a, F: Build<'a> + Drop> Build<'a> for Node<F> {
    /// Builds a field of the next words, or says why there is none.
    fn build(source: &mut Source<'_, 'a>) -> Result<Node<F>, Trouble> {
        // Not by way of its parts, which would be moved once more.
        if source.takes("pair") {
            let left = F::build(source)?;
            let right = F::build(source)?;
            return Ok(Node::Paired(Pair::new(left, right)?));
        }
        if source.takes("spoiler") {
            let period = source.number::<u16>()?;
            let below = F::build(source)?;
            return Ok(Node::Spoiled(Spoiler::new(below, period)?));
        }
        Ok(Node::Bare(F::build(source)?))
    }
}
