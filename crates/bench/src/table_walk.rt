// What is done to each tag of a table, from the first to the last.
ghost use Rattle.std.specs.Prelude.{◌≡◌, ◌≤◌, ◌++◌, Ok, length, drop};
ghost use Rattle.std.specs.Option.{option_map};
ghost use Rattle.frame.specs.Openings.{opening, opening_of};
ghost use Rattle.reply.specs.Replies.{longest_reply};
ghost use Rattle.tag.specs.Steps.{stepped};
ghost use Rattle.field.specs.Airs.{only_reply, plain_hearing, MayHear};
ghost use Rattle.field.specs.Sends.{coin_at, stepped_all, on_air, after_gap_all, padded, buffer_after_send};
ghost use Rattle.field.specs.Sends.{InPlace, Sized};
ghost use Rattle.bench.specs.Heard.{hearing_with, replier_with, replied_bytes, air_so_far};

use field::buffer::clear;
use field::hearing::Hearing;
use frame::opening::{Frame, open};
use frame::request::Request;
use protocol::refusal::Refusal;
use record::Tag;
use reply::Reply;
use tag::step;

// Sends a frame to a table, with a buffer that has room for every reply.
#[tactic(auto, using(field::proofs::Airs::may_hear_plainly, field::proofs::Airs::caught_plainly, field::proofs::Sizes::sized_stepped, field::proofs::Walks::stepped_in_place))]
pub(crate) fn send_all(table: &mut [Tag], bytes: &[u8], row: u64, buffer: &mut [u8]) -> Hearing
    requires { longest_reply ≤ length buffer.old }
    ensures tags { table.new ≡ stepped_all (opening bytes.now) row table.old }
    ensures hearing { MayHear (on_air (opening bytes.now) row table.old) result }
    ensures plain { result ≡ plain_hearing (on_air (opening bytes.now) row table.old) }
    ensures buffer { buffer.new ≡ buffer_after_send (Ok result) (on_air (opening bytes.now) row table.old) buffer.old }
    ensures places { InPlace (λ place. stepped (opening bytes.now) (coin_at row place)) table.old table.new }
    ensures sized { Sized table.old → Sized table.new }
{
    let heard = step_all(table, &open(bytes), row);
    heard.write(table, buffer);
    heard.hearing
}

// What is heard of the tags so far, and which of them replied last, with what: of a lone reply it is the one that did.
#[derive(Clone, Copy)]
struct Heard {
    hearing: Hearing,
    replier: Option<(usize, Reply)>,
}

impl Heard {
    // With what one tag more replies, if it does.
    #[inline(always)]
    fn with(self, place: usize, reply: Option<Reply>) -> Heard
        ensures hearing { result.hearing ≡ hearing_with self.hearing reply }
        ensures replier { result.replier ≡ replier_with self.replier place reply }
    {
        let Some(reply) = reply else { return self };
        Heard {
            hearing: self.hearing.with(Hearing::Lone),
            replier: Some((place, reply)),
        }
    }

    // Writes the lone reply, if it is one, and 00 behind it.
    #[tactic(auto, using(field::proofs::Buffers::cleared_long))]
    fn write(self, table: &[Tag], buffer: &mut [u8])
        requires { longest_reply ≤ length buffer.old }
        ensures { buffer.new
            ≡ padded longest_reply (only_reply (air_so_far self.hearing self.replier table.now))
            ++ drop longest_reply buffer.old }
    {
        match (self.hearing, self.replier) {
            (Hearing::Lone, Some((place, reply))) => deliver(table.get(place), reply, buffer),
            _ => clear(buffer),
        }
    }
}

// Writes the reply of a tag, and 00 behind it.
#[tactic(auto, using(field::proofs::Buffers::cleared_long, field::proofs::Buffers::written_cleared))]
fn deliver(replier: Option<&Tag>, reply: Reply, buffer: &mut [u8])
    requires { longest_reply ≤ length buffer.old }
    ensures { buffer.new
        ≡ padded longest_reply (replied_bytes (option_map (λ x. x.now) replier.entry) reply)
        ++ drop longest_reply buffer.old }
{
    clear(buffer);
    if let Some(tag) = replier {
        let _ = reply.write(tag, buffer);
    }
}

// Steps each tag in its place, with its own coin. All arms do the same. The commands of which a sweep has most get a
// loop of their own in the compiled program, so that what is asked is looked at once there and not at every tag.
fn step_all(table: &mut [Tag], opened: &Result<Frame<'_>, Refusal>, row: u64) -> Heard
    ensures tags { table.new ≡ stepped_all (opening_of opened.now) row table.old }
    ensures air { air_so_far result.hearing result.replier table.new ≡ on_air (opening_of opened.now) row table.old }
    ensures plain { result.hearing ≡ plain_hearing (on_air (opening_of opened.now) row table.old) }
{
    match opened {
        Ok(frame) => match frame.request() {
            Request::Query => step_each(table, opened, row),
            Request::Scroll => step_each(table, opened, row),
            Request::Read(_) => step_each(table, opened, row),
            _ => step_each(table, opened, row),
        },
        Err(_) => step_each(table, opened, row),
    }
}

// The same, whatever is asked.
#[inline(always)]
fn step_each(table: &mut [Tag], opened: &Result<Frame<'_>, Refusal>, row: u64) -> Heard
    ensures tags { table.new ≡ stepped_all (opening_of opened.now) row table.old }
    ensures air { air_so_far result.hearing result.replier table.new ≡ on_air (opening_of opened.now) row table.old }
    ensures plain { result.hearing ≡ plain_hearing (on_air (opening_of opened.now) row table.old) }
{
    let mut heard = Heard {
        hearing: Hearing::Silence,
        replier: None,
    };
    // The coins fall off the row one by one, as its definition has it; a shift by the place would need a bound.
    let mut coins = row;
    for (place, tag) in table.iter_mut().enumerate() {
        heard = heard.with(place, step(tag, opened, coins % 2 == 1));
        coins /= 2;
    }
    heard
}

pub(crate) fn pass_all(table: &mut [Tag], microseconds: u32)
    ensures tags { table.new ≡ after_gap_all microseconds table.old }
{
    for tag in table.iter_mut() {
        tag.pass(microseconds);
    }
}
