// What is sent.
use notation::encoding::make_frame;
use notation::sample::numbered_serial;
use protocol::command::Command;
use std::alloc::Global;

#[derive(Clone, Copy)]
pub(crate) enum Load {
    // A QUERY, to which all reply every time.
    Query,
    // The READ of one tag after the other.
    Read,
}

impl Load {
    // The frames, each of which has its turn.
    pub(crate) fn frames(self, heap: Global) -> anyhow::Result<Vec<Vec<u8>>> {
        match self {
            Load::Query => Ok(vec![in heap; make_frame(heap, Command::Query.code(), &[])?]?),
            Load::Read => (0..64).map(|number| read(heap, number)).try_collect(heap),
        }
    }
}

// The READ at 00 of the tag of a number.
fn read(heap: Global, number: u8) -> anyhow::Result<Vec<u8>> {
    let mut parameters = [0; 9];
    parameters[..8].copy_from_slice(&numbered_serial(number));
    Ok(make_frame(heap, Command::Read.code(), &parameters)?)
}
