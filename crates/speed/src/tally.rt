// What came of all the sends.
use field::hearing::Hearing;
use std::fmt;

#[derive(Clone, Copy, Default)]
pub(crate) struct Tally {
    silent: u64,
    lone: u64,
    clash: u64,
    sum: u64,
}

impl Tally {
    // A send, and a byte of what stands in the buffer after it.
    pub(crate) fn take(&mut self, hearing: Hearing, byte: u8) {
        let count = match hearing {
            Hearing::Silence => &mut self.silent,
            Hearing::Lone => &mut self.lone,
            Hearing::Clash => &mut self.clash,
        };
        *count = count.saturating_add(1);
        self.sum = self.sum.wrapping_add(u64::from(byte));
    }
}

impl fmt::Display for Tally {
    fn fmt<W: fmt::Write>(&self, f: &mut fmt::Formatter<W>) -> fmt::Result {
        let Tally {
            silent,
            lone,
            clash,
            sum,
        } = *self;
        let sends = silent.saturating_add(lone).saturating_add(clash);
        write!(
            f,
            "{sends} sends: {silent} silent, {lone} lone, {clash} clash, sum {sum}"
        )
    }
}
