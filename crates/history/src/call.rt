/// What a field is asked, call by call.
#[derive(Clone, Copy)]
pub enum Call<'a> {
    /// A frame with its row of coins, and how long the reply buffer is.
    Send {
        frame: &'a [u8],
        row: u64,
        room: usize,
    },
    Gap {
        microseconds: u32,
    },
    /// A sweep, with the coins, the budget and the lists of the workspace.
    Sweep,
}
