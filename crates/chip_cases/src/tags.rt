// The questions about one tag.
use crate::QUESTIONS;
use crate::showing::TagAnswer;
use anyhow::bail;
use frame::opening::open;
use notation::encoding::write_reply;
use notation::hexadecimal::{read_array, read_bytes};
use notation::words::{no_word, read_bit, read_locks, read_parts, word};
use record::{MEMORY_LENGTH, Tag};
use reply::Reply;
use tag::step;

// A tag that is asked, and where its answers are printed.
#[derive(Drop)]
pub(crate) struct AskedTag<'a> {
    pub(crate) rt: &'a HostRuntime,
    pub(crate) tag: Tag,
}

impl AskedTag<'_> {
    pub(crate) fn answer(&mut self, verb: &str, rest: &str) -> anyhow::Result<()> {
        let before = self.tag;
        let reply = self.put(verb, rest)?;
        let bytes = write_reply(self.rt.alloc(), &self.tag, reply)?;
        let answer = TagAnswer {
            before: &before,
            after: &self.tag,
            reply: bytes.as_slice(),
        };
        println!(self.rt; "{answer}")?;
        Ok(())
    }

    // Does to the tag what a question says, and tells its reply if it gives one.
    fn put(&mut self, verb: &str, rest: &str) -> anyhow::Result<Option<Reply>> {
        // A match and no table of closures, since each verb has words of its own.
        match verb {
            "new" => self.tag = Tag::new(read_array::<MEMORY_LENGTH>(rest)?),
            "locks" => self.tag.locks = read_locks(rest)?,
            "set" => self.set(rest)?,
            "step" => return self.send(rest),
            "gap" => self.tag.pass(rest.parse::<u32>()?),
            _ => bail!("{QUESTIONS}"),
        }
        Ok(None)
    }

    fn set(&mut self, rest: &str) -> anyhow::Result<()> {
        let mut words = rest.split_whitespace();
        let tag = read_parts(&mut words, self.tag)?;
        no_word(words.next())?;
        self.tag = tag;
        Ok(())
    }

    fn send(&mut self, rest: &str) -> anyhow::Result<Option<Reply>> {
        let mut words = rest.split_whitespace();
        let coin = read_bit(word(words.next())?)?;
        let frame = read_bytes(self.rt.alloc(), word(words.next())?)?;
        no_word(words.next())?;
        Ok(step(&mut self.tag, &open(frame.as_slice()), coin))
    }
}
