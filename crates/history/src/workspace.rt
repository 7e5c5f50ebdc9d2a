// What one field has of its own for a call.
ghost use Rattle.std.specs.Prelude.{◌≡◌, [], None};
ghost use Rattle.slice_vec.specs.Filling.{capacity_of};

use field::hearing::Hearing;
use protocol::refusal::Refusal;
use slice_vec::vec::SliceVec;
use slot::ending::Report;
use slot::lists::Lists;

/// What a call has come to. What a sweep has listed stands in the lists of its workspace.
#[derive(Clone, Copy, PartialEq, Eq, Debug)]
pub enum Answer {
    Refused(Refusal),
    Heard(Hearing),
    Passed,
    Swept(Report),
}

/// The coins, the budget and the lists of a sweep, which other calls leave as they are, and a place for the answer.
#[derive(Drop)]
pub struct Workspace<'a> {
    pub coins: &'a [u64],
    pub budget: u16,
    pub lists: Lists<'a>,
    pub answer: Option<Answer>,
}

impl<'a> Workspace<'a> {
    /// A workspace for any call.
    pub fn new(coins: &'a [u64], budget: u16, lists: Lists<'a>) -> Workspace<'a>
        ensures coins { result.coins.now ≡ coins.now }
        ensures budget { result.budget ≡ budget }
        ensures lists { result.lists ≡ lists.entry }
        ensures answer { result.answer ≡ None }
    {
        Workspace {
            coins,
            budget,
            lists,
            answer: None,
        }
    }

    /// A workspace for a call that is no sweep: no coins, no commands, and lists without room.
    pub fn bare() -> Workspace<'a>
        ensures coins { result.coins.now ≡ [] }
        ensures budget { result.budget ≡ 0 }
        ensures slots { capacity_of result.lists.slots ≡ 0 }
        ensures serials { capacity_of result.lists.serials ≡ 0 }
        ensures answer { result.answer ≡ None }
    {
        let lists = Lists {
            slots: SliceVec::new(&mut []),
            serials: SliceVec::new(&mut []),
        };
        Workspace::new(&[], 0, lists)
    }
}
