// Answers, as they are written.
use notation::hexadecimal::Hex;
use record::Tag;
use std::fmt;

// A tag's record, where it is no longer what it was, and its reply.
#[derive(Drop)]
pub(crate) struct TagAnswer<'a> {
    pub(crate) before: &'a Tag,
    pub(crate) after: &'a Tag,
    pub(crate) reply: &'a [u8],
}

impl fmt::Display for TagAnswer<'_> {
    fn fmt<W: fmt::Write>(&self, f: &mut fmt::Formatter<W>) -> fmt::Result {
        let state = self.after.state;
        let flag = u8::from(self.after.identified);
        let counter = self.after.counter;
        let mark = self.after.mark.number();
        write!(f, "{state} {flag} {counter:02X} {mark} ")?;
        match self.after.permission {
            Some(address) => write!(f, "{address:02X} ")?,
            None => write!(f, "- ")?,
        }
        if self.after.memory == self.before.memory {
            write!(f, "= ")?;
        } else {
            write!(f, "{} ", Hex::new(&self.after.memory))?;
        }
        if self.after.locks == self.before.locks {
            write!(f, "= ")?;
        } else {
            let bits = &self.after.locks;
            write!(f, "{} ", Bits { bits })?;
        }
        write!(f, "{}", Hex::new(self.reply))
    }
}

// Bits in hexadecimal, eight to a byte, the highest for the first.
#[derive(Drop)]
struct Bits<'a> {
    bits: &'a [bool],
}

impl fmt::Display for Bits<'_> {
    fn fmt<W: fmt::Write>(&self, f: &mut fmt::Formatter<W>) -> fmt::Result {
        for eight in self.bits.chunks(8) {
            write!(f, "{:02X}", packed(eight))?;
        }
        Ok(())
    }
}

fn packed(bits: &[bool]) -> u8 {
    let mut byte = 0;
    for bit in bits {
        byte = byte << 1 | u8::from(*bit);
    }
    byte
}
