// Prints the frame of each of the fourteen commands, for a sample serial number.
#![tactic(auto)]

ghost use Rattle.std.specs.Prelude.{◌≡◌, IfOk, vec_len};
ghost use Rattle.protocol.specs.Commands.{layout, sizes};

use frame::making::LONGEST_FRAME;
use frame::opening::{Frame, open};
use notation::encoding::make_frame;
use notation::hexadecimal::Hex;
use notation::sample::to_tag;
use protocol::command::{COMMANDS, Command, Entry, OWN, PARAMETERS};
use std::alloc::{AllocError, Global};
use std::fmt;
use std::process::ExitCode;

const USAGE: &str = "usage: frame_table
Prints the frame of each command, and where its parameters lie in it.";

// A frame without parameters.
const BARE: usize = 3;

// A line of the table.
#[derive(Drop)]
struct TableLine<'a> {
    frame: Frame<'a>,
}

impl fmt::Display for TableLine<'_> {
    fn fmt<W: fmt::Write>(&self, f: &mut fmt::Formatter<W>) -> fmt::Result {
        let code = self.frame.code();
        let command = self.frame.request().command();
        let length = self.frame.bytes().len();
        let bytes = Hex::spaced(self.frame.bytes());
        write!(f, "{code:02X}   {command:<18}  {length:>2}  {bytes}")?;
        if length == BARE {
            return Ok(());
        }
        let missing = LONGEST_FRAME.saturating_sub(length) * 3;
        write!(f, "{:missing$}", "")?;
        for parameter in PARAMETERS {
            if let Some(span) = self.frame.request().span(parameter) {
                write!(f, "  {parameter} at {}", span.offset)?;
            }
        }
        Ok(())
    }
}

// Parameters for a command, as a reader might send them.
fn sample(heap: Global, command: Command) -> Result<Vec<u8>, AllocError>
    ensures { IfOk result (λ bytes. vec_len bytes ≡ sizes (layout command)) }
{
    match command {
        Command::Select | Command::UnselectNe => Vec::from_slice(heap, &OWN),
        Command::UnselectIdFlag | Command::UnselectNoidFlag => Vec::from_slice(heap, &[0x01, 0x01]),
        Command::Query | Command::Scroll | Command::Repeat | Command::Reset => Ok(Vec::new(heap)),
        Command::Read | Command::Verify | Command::Lock | Command::Qlock => to_tag(heap, &[0x08]),
        Command::ReadFlexible => to_tag(heap, &[0x08, 0x0f]),
        Command::Write => to_tag(heap, &[0x08, 0xf0, 0x11, 0x22, 0x33, 0x44]),
    }
}

fn print_line(rt: &HostRuntime, entry: Entry) -> anyhow::Result<()> {
    let parameters = sample(rt.alloc(), entry.command)?;
    let bytes = make_frame(rt.alloc(), entry.code, parameters.as_slice())?;
    let frame = open(bytes.as_slice())?;
    println!(rt; "{}", TableLine { frame })?;
    Ok(())
}

fn run(rt: &HostRuntime) -> anyhow::Result<()> {
    println!(rt;
        "code command        length  bytes                                               parameters and their offsets"
    )?;
    for entry in COMMANDS {
        print_line(rt, entry)?;
    }
    Ok(())
}

fn main(rt: HostRuntime) -> anyhow::Result<ExitCode> {
    if let Some(code) = usage::answer(&rt, USAGE)? {
        return Ok(code);
    }
    run(&rt)?;
    Ok(ExitCode::SUCCESS)
}
