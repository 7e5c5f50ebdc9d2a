// What each command does to a tag that it concerns. Tag and coin, tag and address are a receiver and its argument:
// methods would have to stand in the crate of the tag's type, which knows nothing of replies.
ghost use Rattle.std.specs.Prelude.{◌≡◌, ◌-◌, false, not, if◌then◌else◌, Some, None};
ghost use Rattle.record.specs.declared.State.TheVariants.{Ready};
ghost use Rattle.record.specs.Records.{is_write_ok, bytes_from, locked_at};
ghost use Rattle.reply.specs.Replies.{data_in};
ghost use Rattle.tag.specs.Orders.{is_matching};
ghost use Rattle.tag.specs.Steps.{selected, unselected, unselect_reply, counter_after_query, reply_in_turn};
ghost use Rattle.tag.specs.Steps.{dealt_with, verified};
ghost use Rattle.tag.specs.Steps.{is_writable, written, locked};
ghost use Rattle.tag.specs.Steps.{lock_status};

use frame::request::Comparison;
use record::{MEMORY_LENGTH, State, Tag, WriteMark};
use reply::Reply;

// Is selected from now on, and answers at once.
pub(crate) fn select(tag: &mut Tag) -> Option<Reply>
    ensures after { tag.new ≡ selected tag.old }
    ensures reply { result ≡ Some Reply.Serial }
{
    tag.state = State::Singulation;
    tag.counter = 0;
    Some(Reply::Serial)
}

// Whether the masked bytes of a tag are those of the frame.
pub(crate) fn is_matching(tag: &Tag, wanted: Comparison<'_>) -> bool
    ensures { result ≡ is_matching tag.now wanted.entry }
{
    tag.matches(*wanted.address.part, *wanted.mask.part, wanted.word.part)
}

pub(crate) fn unselect_ne(tag: &mut Tag, wanted: Comparison<'_>) -> Option<Reply>
    ensures after { tag.new ≡ unselected (not (is_matching tag.old wanted.entry)) tag.old }
    ensures reply { data_in tag.new result ≡ unselect_reply (not (is_matching tag.old wanted.entry)) tag.old }
{
    let differs = !is_matching(tag, wanted);
    unselect(tag, differs)
}

pub(crate) fn unselect_id_flag(tag: &mut Tag) -> Option<Reply>
    ensures after { tag.new ≡ unselected tag.old.identified tag.old }
    ensures reply { data_in tag.new result ≡ unselect_reply tag.old.identified tag.old }
{
    let is_set = tag.identified;
    unselect(tag, is_set)
}

pub(crate) fn unselect_noid_flag(tag: &mut Tag) -> Option<Reply>
    ensures after { tag.new ≡ unselected (not tag.old.identified) tag.old }
    ensures reply { data_in tag.new result ≡ unselect_reply (not tag.old.identified) tag.old }
{
    let is_clear = !tag.identified;
    unselect(tag, is_clear)
}

// Leaves silently, or stays and answers at once.
fn unselect(tag: &mut Tag, leaves: bool) -> Option<Reply>
    ensures after { tag.new ≡ unselected leaves tag.old }
    ensures reply { data_in tag.new result ≡ unselect_reply leaves tag.old }
{
    if !leaves {
        return select(tag);
    }
    tag.state = State::Ready;
    None
}

pub(crate) fn query(tag: &mut Tag, coin: bool) -> Option<Reply>
    ensures after { tag.new ≡ record tag.old { counter = counter_after_query coin tag.old.counter } }
    ensures reply { data_in tag.new result ≡ reply_in_turn (counter_after_query coin tag.old.counter) tag.old }
{
    if tag.counter > 0 || coin {
        tag.counter = tag.counter.saturating_add(1);
    }
    reply_in_turn(tag)
}

pub(crate) fn scroll(tag: &mut Tag) -> Option<Reply>
    ensures after { tag.new ≡ record tag.old { counter = tag.old.counter - 1 } }
    ensures reply { data_in tag.new result ≡ reply_in_turn (tag.old.counter - 1) tag.old }
{
    tag.counter = tag.counter.saturating_sub(1);
    reply_in_turn(tag)
}

// Answers if its counter is 0.
pub(crate) fn reply_in_turn(tag: &Tag) -> Option<Reply>
    ensures { data_in tag.now result ≡ reply_in_turn tag.now.counter tag.now }
{
    if tag.counter == 0 {
        Some(Reply::Serial)
    } else {
        None
    }
}

pub(crate) fn reset(tag: &mut Tag) -> Option<Reply>
    ensures after { tag.new ≡ record tag.old { state = Ready; identified = false } }
    ensures reply { result ≡ None }
{
    tag.state = State::Ready;
    tag.identified = false;
    None
}

// READ: the byte at an address and seven more.
pub(crate) fn read_eight(tag: &mut Tag, address: u8) -> Option<Reply>
    ensures after { tag.new ≡ record (dealt_with tag.old) { permission = Some address } }
    ensures reply { result ≡ Some (Reply.Memory address 7) }
{
    read(tag, address, 7)
}

// READ_FLEXIBLE: the byte at an address and so many more.
pub(crate) fn read(tag: &mut Tag, address: u8, more: u8) -> Option<Reply>
    ensures after { tag.new ≡ record (dealt_with tag.old) { permission = Some address } }
    ensures reply { result ≡ Some (Reply.Memory address more) }
{
    deal_with(tag);
    tag.permission = Some(address);
    Some(Reply::Memory { address, more })
}

pub(crate) fn verify(tag: &mut Tag, address: u8) -> Option<Reply>
    ensures after { tag.new ≡ verified tag.old }
    ensures reply { data_in tag.new result
        ≡ (if is_write_ok tag.old.mark then Some (bytes_from tag.old.memory address 4) else None) }
{
    if !tag.mark.is_ok() {
        return None;
    }
    deal_with(tag);
    Some(Reply::Memory { address, more: 3 })
}

pub(crate) fn write(tag: &mut Tag, address: u8, mask: u8, bytes: &[u8]) -> Option<Reply>
    ensures after { tag.new ≡ written address mask bytes.now tag.old }
    ensures reply { result ≡ Some (Reply.Status (if is_writable tag.old address then 0x00 else 0xff)) }
{
    deal_with(tag);
    if !is_writable(tag, address) {
        tag.mark = WriteMark::Clear;
        return Some(Reply::Status(0xff));
    }
    tag.store(address, mask, bytes);
    tag.mark = WriteMark::Fresh;
    tag.permission = Some(address);
    Some(Reply::Status(0x00))
}

// Whether an address is a multiple of 4, with four bytes of which none is locked.
fn is_writable(tag: &Tag, address: u8) -> bool
    ensures { result ≡ is_writable tag.now address }
{
    let start = usize::from(address);
    address % 4 == 0 && !(start..start + 4).any(|place| tag.is_locked(place))
}

// Locks a byte that is there and was permitted, and no other.
pub(crate) fn lock(tag: &mut Tag, address: u8, permitted: Option<u8>) -> Option<Reply>
    ensures after { tag.new ≡ locked permitted address tag.old }
    ensures reply { result ≡ Some (Reply.Status 0x00) }
{
    let place = usize::from(address);
    if permitted == Some(address) && place < MEMORY_LENGTH {
        tag.locks[place] = true;
        tag.mark = WriteMark::Fresh;
    } else {
        tag.mark = WriteMark::Clear;
    }
    Some(Reply::Status(0x00))
}

pub(crate) fn qlock(tag: &mut Tag, address: u8) -> Option<Reply>
    ensures after { tag.new ≡ record (dealt_with tag.old) { permission = Some address } }
    ensures reply { result ≡ Some (Reply.Status (lock_status (locked_at tag.old address) (is_write_ok tag.old.mark))) }
{
    deal_with(tag);
    tag.permission = Some(address);
    let is_locked = tag.is_locked(usize::from(address));
    Some(Reply::Status(lock_status(is_locked, tag.mark.is_ok())))
}

// Counts the tag among those that the reader has dealt with.
fn deal_with(tag: &mut Tag)
    ensures { tag.new ≡ dealt_with tag.old }
{
    tag.state = State::Inventoried;
    tag.identified = true;
}

// What QLOCK tells of a byte, as it goes on the air.
fn lock_status(is_locked: bool, write_ok: bool) -> u8
    ensures { result ≡ lock_status is_locked write_ok }
{
    match (is_locked, write_ok) {
        (false, true) => 0x01,
        (false, false) => 0x00,
        (true, true) => 0xff,
        (true, false) => 0xfe,
    }
}
