// What one tag of the chip SL3ICS31 does with a frame. Tag, what was opened and coin are three parameters: the tag is
// the receiver, one opening serves a crowd, and each tag has a coin of its own.
#![tactic(auto)]

ghost use Rattle.std.specs.Prelude.{◌≡◌, length};
ghost use Rattle.frame.specs.Openings.{opening, opening_of};
ghost use Rattle.frame.specs.Requests.{command_of, parts_of};
ghost use Rattle.reply.specs.Replies.{data_in, sealed_reply, Residual};
ghost use Rattle.tag.specs.Cases.{FullCounters};
ghost use Rattle.tag.specs.FlagLaws.{FlagLaw};
ghost use Rattle.tag.specs.MarkLaws.{MarkLaw};
ghost use Rattle.tag.specs.MemoryLaws.{MemoryLaw};
ghost use Rattle.tag.specs.Orders.{order_of};
ghost use Rattle.tag.specs.PermissionLaws.{PermissionLaw};
ghost use Rattle.tag.specs.Steps.{has_serial, obeyed, answered, stepped, replied};

mod commands;

use commands::{
    is_matching, lock, qlock, query, read, read_eight, reply_in_turn, reset, scroll, select,
    unselect_id_flag, unselect_ne, unselect_noid_flag, verify, write,
};
use frame::opening::{Frame, open};
use frame::request::{Request, Target};
use protocol::refusal::Refusal;
use record::{State, Tag};
use reply::Reply;

/// Steps a tag on the bytes of a frame.
pub fn hear(tag: &mut Tag, bytes: &[u8], coin: bool) -> Option<Reply>
    ensures after { tag.new ≡ stepped (opening bytes.now) coin tag.old }
    ensures reply { sealed_reply (data_in tag.new result) ≡ replied (opening bytes.now) coin tag.old }
{
    step(tag, &open(bytes), coin)
}

/// Steps a tag on what opening a frame gave, and tells what it replies. The coin is what the tag draws at a QUERY: with
/// 1 it lets the others go first. A loop over tags spends its time here, so that a call would be felt; and where the
/// loop is for one command, the others fall away. docs/tags.md has what each command does.
#[inline(always)]
pub fn step(tag: &mut Tag, opened: &Result<Frame<'_>, Refusal>, coin: bool) -> Option<Reply>
    ensures after { tag.new ≡ stepped (opening_of opened.now) coin tag.old }
    ensures reply { sealed_reply (data_in tag.new result) ≡ replied (opening_of opened.now) coin tag.old }
    ensures memory { MemoryLaw (opening_of opened.now) tag.old tag.new }
    ensures flag { FlagLaw (opening_of opened.now) tag.old tag.new }
    ensures permission { PermissionLaw (opening_of opened.now) tag.old tag.new }
    ensures mark { MarkLaw (opening_of opened.now) tag.old tag.new }
    ensures residue { Residual (replied (opening_of opened.now) coin tag.old) }
    ensures counters { FullCounters }
{
    laws(tag, opened, coin);
    advance(tag, opened, coin)
}

// What holds of every step, for the proof of the above: it does nothing.
fn laws(tag: &Tag, opened: &Result<Frame<'_>, Refusal>, coin: bool)
    ensures memory { MemoryLaw (opening_of opened.now) tag.now (stepped (opening_of opened.now) coin tag.now) }
    ensures flag { FlagLaw (opening_of opened.now) tag.now (stepped (opening_of opened.now) coin tag.now) }
    ensures permission { PermissionLaw (opening_of opened.now) tag.now (stepped (opening_of opened.now) coin tag.now) }
    ensures mark { MarkLaw (opening_of opened.now) tag.now (stepped (opening_of opened.now) coin tag.now) }
    ensures residue { Residual (replied (opening_of opened.now) coin tag.now) }
    ensures counters { FullCounters }
{
    lengths(tag);
}

// Both lists of a record are as long as their types say, which a proof knows of a slice alone.
fn lengths(tag: &Tag)
    ensures memory { length tag.now.memory ≡ 56 }
    ensures locks { length tag.now.locks ≡ 56 }
{
    let _: &[u8] = &tag.memory;
    let _: &[bool] = &tag.locks;
}

// First the mark falls and the permission is cleared, and then the frame is obeyed.
#[inline(always)]
fn advance(tag: &mut Tag, opened: &Result<Frame<'_>, Refusal>, coin: bool) -> Option<Reply>
    ensures after { tag.new ≡ stepped (opening_of opened.now) coin tag.old }
    ensures reply { sealed_reply (data_in tag.new result) ≡ replied (opening_of opened.now) coin tag.old }
{
    let permitted = tag.permission;
    tag.permission = None;
    tag.mark = tag.mark.fallen();
    match opened {
        Ok(frame) => obey(tag, frame.request(), coin, permitted),
        Err(Refusal::Stub | Refusal::Check) => {
            tag.state = State::Ready;
            None
        }
        Err(_) => None,
    }
}

// Obeys a command, if it concerns a tag in this state.
#[inline(always)]
fn obey(tag: &mut Tag, request: Request<'_>, coin: bool, permitted: Option<u8>) -> Option<Reply>
    ensures after { tag.new
        ≡ obeyed (order_of (command_of request.entry) (parts_of request.entry)) coin permitted tag.old }
    ensures reply { data_in tag.new result
        ≡ answered (order_of (command_of request.entry) (parts_of request.entry)) coin tag.old }
{
    match (tag.state, request) {
        (State::Ready, Request::Select(wanted)) if is_matching(tag, wanted) => select(tag),
        (State::Singulation, Request::Select(_)) => select(tag),
        (State::Singulation, Request::UnselectNe(wanted)) => unselect_ne(tag, wanted),
        (State::Singulation, Request::UnselectIdFlag(_)) => unselect_id_flag(tag),
        (State::Singulation, Request::UnselectNoidFlag(_)) => unselect_noid_flag(tag),
        (State::Singulation, Request::Query) => query(tag, coin),
        (State::Singulation, Request::Scroll) => scroll(tag),
        (State::Singulation, Request::Repeat) => reply_in_turn(tag),
        (_, Request::Reset) => reset(tag),
        (_, Request::Read(target)) if has_serial(tag, target) => read_eight(
            tag,
            *target.address.part,
        ),
        (_, Request::ReadFlexible(target, length)) if has_serial(tag, target) => {
            read(tag, *target.address.part, *length.part)
        }
        (_, Request::Verify(target)) if has_serial(tag, target) => verify(
            tag,
            *target.address.part,
        ),
        (_, Request::Write(target, mask, bytes)) if has_serial(tag, target) => {
            write(tag, *target.address.part, *mask.part, bytes.part)
        }
        (State::Inventoried, Request::Lock(target)) if has_serial(tag, target) => {
            lock(tag, *target.address.part, permitted)
        }
        (_, Request::Qlock(target)) if has_serial(tag, target) => qlock(tag, *target.address.part),
        _ => None,
    }
}

// Whether a tag has the frame's serial number.
fn has_serial(tag: &Tag, target: Target<'_>) -> bool
    ensures { result ≡ has_serial tag.now target.entry.serial.part.now }
{
    tag.has_serial(target.serial.part)
}
