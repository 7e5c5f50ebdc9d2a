// Fields of every nesting, up to some layers: kinds of field like any other.
ghost use Rattle.field_cases.specs.Nestings.{leaf_tags, leaf_faithful, leaf_hears, leaf_passes};
ghost use Rattle.field_cases.specs.Nestings.{node_tags, node_faithful, node_hears, node_passes};
ghost use Rattle.field_cases.specs.declared.nesting.Leaf.TheVariants as leaf;
ghost use Rattle.field_cases.specs.declared.nesting.Node.TheVariants as node;

use bench::bench::Bench;
use bench::single::Single;
use composite_fields::pair::Pair;
use composite_fields::spoiler::Spoiler;
use field::field::Field;
use field::hearing::Hearing;
use field::lending::Lending;
use protocol::refusal::Refusal;
use record::Tag;

/// What stands below the outermost layer of a nesting of at most three.
pub type Below<'a> = Node<Node<Leaf<'a>>>;

/// What stands at the bottom. An enum hands each call on by a match: a boxed `dyn` would need the same calls handed on
/// for the box, and an allocation for each layer.
#[derive(Drop)]
pub enum Leaf<'a> {
    Table(Bench<'a>),
    Lone(Single),
}

impl<'a> Field for Leaf<'a> {
    ghost tags = { leaf_tags };

    ghost few = { elim [
      | leaf.Table b ↦ ⟦<Bench<'a> as Field>⟧.few b
      | leaf.Lone s ↦ ⟦<Single as Field>⟧.few s
    ] };

    ghost sized = { elim [
      | leaf.Table b ↦ ⟦<Bench<'a> as Field>⟧.sized b
      | leaf.Lone s ↦ ⟦<Single as Field>⟧.sized s
    ] };

    ghost faithful = { leaf_faithful ⟦<Bench<'a> as Field>⟧ ⟦<Single as Field>⟧ };

    // It promises what the field in it does, and stays of its kind.
    ghost hears = { leaf_hears ⟦<Bench<'a> as Field>⟧ ⟦<Single as Field>⟧ };

    ghost passes = { leaf_passes ⟦<Bench<'a> as Field>⟧ ⟦<Single as Field>⟧ };

    fn places(&self) -> usize {
        match self {
            Leaf::Table(bench) => bench.places(),
            Leaf::Lone(single) => single.places(),
        }
    }

    fn pass(&mut self, microseconds: u32) {
        match self {
            Leaf::Table(bench) => bench.pass(microseconds),
            Leaf::Lone(single) => single.pass(microseconds),
        }
    }

    fn send(&mut self, bytes: &[u8], row: u64, buffer: &mut [u8]) -> Result<Hearing, Refusal> {
        match self {
            Leaf::Table(bench) => bench.send(bytes, row, buffer),
            Leaf::Lone(single) => single.send(bytes, row, buffer),
        }
    }
}

impl<'a> Lending for Leaf<'a> {
    fn tag(&self, place: usize) -> Option<&Tag> {
        match self {
            Leaf::Table(bench) => bench.tag(place),
            Leaf::Lone(single) => single.tag(place),
        }
    }
}

/// A field with at most one layer more over it, as an enum for the same reason.
#[derive(Drop)]
pub enum Node<F> {
    Bare(F),
    Spoiled(Spoiler<F>),
    Paired(Pair<F, F>),
}

impl<F: Field> Field for Node<F> {
    ghost tags = { node_tags F.Field.tags };

    ghost few = { elim [
      | node.Bare f ↦ F.Field.few f
      | node.Spoiled s ↦ ⟦<Spoiler<F> as Field>⟧.few s
      | node.Paired p ↦ ⟦<Pair<F, F> as Field>⟧.few p
    ] };

    ghost sized = { elim [
      | node.Bare f ↦ F.Field.sized f
      | node.Spoiled s ↦ ⟦<Spoiler<F> as Field>⟧.sized s
      | node.Paired p ↦ ⟦<Pair<F, F> as Field>⟧.sized p
    ] };

    // Whether it hears every lone reply as lone is known of the field in it, and not of its type.
    ghost faithful = { node_faithful F.Field ⟦<Spoiler<F> as Field>⟧ ⟦<Pair<F, F> as Field>⟧ };

    ghost hears = { node_hears F.Field ⟦<Spoiler<F> as Field>⟧ ⟦<Pair<F, F> as Field>⟧ };

    ghost passes = { node_passes F.Field ⟦<Spoiler<F> as Field>⟧ ⟦<Pair<F, F> as Field>⟧ };

    fn places(&self) -> usize {
        match self {
            Node::Bare(field) => field.places(),
            Node::Spoiled(spoiler) => spoiler.places(),
            Node::Paired(pair) => pair.places(),
        }
    }

    fn pass(&mut self, microseconds: u32) {
        match self {
            Node::Bare(field) => field.pass(microseconds),
            Node::Spoiled(spoiler) => spoiler.pass(microseconds),
            Node::Paired(pair) => pair.pass(microseconds),
        }
    }

    fn send(&mut self, bytes: &[u8], row: u64, buffer: &mut [u8]) -> Result<Hearing, Refusal> {
        match self {
            Node::Bare(field) => field.send(bytes, row, buffer),
            Node::Spoiled(spoiler) => spoiler.send(bytes, row, buffer),
            Node::Paired(pair) => pair.send(bytes, row, buffer),
        }
    }
}

impl<F: Lending> Lending for Node<F> {
    fn tag(&self, place: usize) -> Option<&Tag> {
        match self {
            Node::Bare(field) => field.tag(place),
            Node::Spoiled(spoiler) => spoiler.tag(place),
            Node::Paired(pair) => pair.tag(place),
        }
    }
}
