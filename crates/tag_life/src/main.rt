// Shows the life of one tag: prints what it is sent, what it replies, and its record after that.
#![tactic(auto)]

use notation::encoding::{make_frame, write_reply};
use notation::hexadecimal::Hex;
use notation::sample::{sample_tag, to_tag};
use protocol::command::{Command, OWN};
use record::Tag;
use reply::Reply;
use std::process::ExitCode;
use tag::hear;

const USAGE: &str = "usage: tag_life
Shows the life of one tag: prints what it is sent, what it replies, and its record after that.";

// How this tag's coin always falls.
const COIN: bool = true;

// What can happen to a tag.
#[derive(Clone, Copy)]
enum Event {
    // A command to all tags, with its parameters.
    ToAll(Command, &'static [u8]),
    // A command to this tag, with what stands behind the serial number.
    ToTag(Command, &'static [u8]),
    // A command without parameters, whose last bit is wrong.
    Damaged(Command),
    // Nothing for so many microseconds.
    Gap(u32),
}

// All tags whose memory begins with EF 05.
const FOREIGN: [u8; 10] = [0x00, 0xc0, 0xef, 0x05, 0x00, 0x00, 0x00, 0x00, 0x00, 0x00];

const LIFE: [Event; 28] = [
    Event::ToAll(Command::Select, &OWN),
    Event::ToAll(Command::Query, &[]),
    Event::ToAll(Command::Scroll, &[]),
    Event::ToAll(Command::Repeat, &[]),
    Event::ToTag(Command::Read, &[0x00]),
    Event::ToTag(Command::Write, &[0x34, 0xf0, 0xde, 0xad, 0xbe, 0xef]),
    Event::ToTag(Command::Verify, &[0x34]),
    Event::ToTag(Command::Qlock, &[0x34]),
    Event::ToTag(Command::Lock, &[0x34]),
    Event::ToTag(Command::Qlock, &[0x34]),
    Event::ToTag(Command::Write, &[0x34, 0xf0, 0xde, 0xad, 0xbe, 0xef]),
    Event::ToTag(Command::Write, &[0x38, 0xf0, 0xde, 0xad, 0xbe, 0xef]),
    Event::ToTag(Command::Write, &[0x02, 0xf0, 0xde, 0xad, 0xbe, 0xef]),
    Event::ToTag(Command::Read, &[0x37]),
    Event::ToTag(Command::ReadFlexible, &[0x34, 0x03]),
    Event::Damaged(Command::Scroll),
    Event::ToAll(Command::Select, &OWN),
    Event::Gap(249),
    Event::Gap(250),
    Event::Gap(3_999_999),
    Event::Gap(4_000_000),
    Event::ToAll(Command::Select, &OWN),
    Event::ToAll(Command::UnselectIdFlag, &[0x00, 0x00]),
    Event::ToAll(Command::Select, &OWN),
    Event::ToAll(Command::UnselectNoidFlag, &[0x00, 0x00]),
    Event::ToAll(Command::Select, &OWN),
    Event::ToAll(Command::UnselectNe, &FOREIGN),
    Event::ToAll(Command::Reset, &[]),
];

// A tag, and where its life is printed.
#[derive(Drop)]
struct LifePrinter<'a> {
    rt: &'a HostRuntime,
    tag: Tag,
}

impl LifePrinter<'_> {
    fn print_event(&mut self, event: Event) -> anyhow::Result<()> {
        // A match and no closure in each event, since a life is a constant table.
        match event {
            Event::ToAll(command, parameters) => self.send(command, parameters),
            Event::ToTag(command, rest) => {
                let parameters = to_tag(self.rt.alloc(), rest)?;
                self.send(command, parameters.as_slice())
            }
            Event::Damaged(command) => self.send_damaged(command),
            Event::Gap(microseconds) => self.wait(microseconds),
        }
    }

    fn send(&mut self, command: Command, parameters: &[u8]) -> anyhow::Result<()> {
        let frame = make_frame(self.rt.alloc(), command.code(), parameters)?;
        self.say(command.name(), frame.as_slice())
    }

    fn send_damaged(&mut self, command: Command) -> anyhow::Result<()> {
        let mut frame = make_frame(self.rt.alloc(), command.code(), &[])?;
        if let Some(last) = frame.last_mut() {
            *last ^= 1;
        }
        self.say("damaged", frame.as_slice())
    }

    fn say(&mut self, name: &str, bytes: &[u8]) -> anyhow::Result<()> {
        let reply = hear(&mut self.tag, bytes, COIN);
        let frame = Hex::spaced(bytes);
        let sent = format!(in self.rt.alloc(); "{name:<18}  {frame}")?;
        self.print(sent.as_str(), reply)
    }

    fn wait(&mut self, microseconds: u32) -> anyhow::Result<()> {
        self.tag.pass(microseconds);
        let sent = format!(in self.rt.alloc(); "gap {microseconds} us")?;
        self.print(sent.as_str(), None)
    }

    // Prints what was sent, the reply to it, and the tag's record now.
    fn print(&self, sent: &str, reply: Option<Reply>) -> anyhow::Result<()> {
        let bytes = write_reply(self.rt.alloc(), &self.tag, reply)?;
        let reply = format!(in self.rt.alloc(); "{}", Hex::spaced(bytes.as_slice()))?;
        let state = self.tag.state;
        let flag = u8::from(self.tag.identified);
        let counter = self.tag.counter;
        let mark = self.tag.mark.number();
        println!(self.rt;
            "{sent:<70}  {reply:<29}  {state:<11}  {flag}     {counter:02X}       {mark}"
        )?;
        Ok(())
    }
}

fn run(rt: &HostRuntime) -> anyhow::Result<()> {
    let mut printer = LifePrinter {
        rt,
        tag: sample_tag(),
    };
    println!(rt;
        "sent                                                                    reply                          state        flag  counter  mark"
    )?;
    for event in LIFE {
        printer.print_event(event)?;
    }
    Ok(())
}

fn main(rt: HostRuntime) -> anyhow::Result<ExitCode> {
    if let Some(code) = usage::answer(&rt, USAGE)? {
        return Ok(code);
    }
    run(&rt)?;
    Ok(ExitCode::SUCCESS)
}
