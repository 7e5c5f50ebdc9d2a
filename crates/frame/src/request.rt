// What a frame asks, with its parameters as parts of the frame's own bytes.
ghost use Rattle.std.specs.Prelude.{◌≡◌, ℕ, List, [], ◌∷◌, length};
ghost use Rattle.protocol.specs.Commands.{layout, sizes};
ghost use Rattle.frame.specs.Requests.{parts_of, command_of, comparison_parts, target_parts, bytes_part};
ghost use Rattle.frame.specs.Parts.{placed, span_of};
ghost use Rattle.protocol.specs.declared.command.Parameter.TheVariants.{Serial, Address, Mask, Word};
ghost use Rattle.protocol.specs.declared.command.Parameter.TheVariants.{Length, Data, Ignored};

use protocol::command::{Command, Parameter};

/// A parameter, as a part of the frame's own bytes, and its offset in the frame.
#[derive(Clone, Copy)]
pub struct At<T> {
    pub offset: usize,
    pub part: T,
}

/// A parameter of one byte.
pub type ByteAt<'a> = At<&'a u8>;

/// A parameter of several bytes.
pub type BytesAt<'a> = At<&'a [u8]>;

/// Where a parameter lies in its frame.
#[derive(Clone, Copy, PartialEq, Eq, Debug)]
pub struct Span {
    pub offset: usize,
    pub length: usize,
}

/// What a tag's memory is compared with.
#[derive(Clone, Copy)]
pub struct Comparison<'a> {
    pub address: ByteAt<'a>,
    pub mask: ByteAt<'a>,
    pub word: BytesAt<'a>,
}

/// Which tag is meant, and where in its memory.
#[derive(Clone, Copy)]
pub struct Target<'a> {
    pub serial: BytesAt<'a>,
    pub address: ByteAt<'a>,
}

/// A command with its parameters.
#[derive(Clone, Copy)]
pub enum Request<'a> {
    Select(Comparison<'a>),
    UnselectNe(Comparison<'a>),
    UnselectIdFlag(BytesAt<'a>),
    UnselectNoidFlag(BytesAt<'a>),
    Query,
    Scroll,
    Repeat,
    Reset,
    Read(Target<'a>),
    Verify(Target<'a>),
    Lock(Target<'a>),
    Qlock(Target<'a>),
    ReadFlexible(Target<'a>, ByteAt<'a>),
    Write(Target<'a>, ByteAt<'a>, BytesAt<'a>),
}

impl<'a> Request<'a> {
    /// The command alone.
    pub fn command(&self) -> Command
        ensures { result ≡ command_of self.now }
    {
        match self {
            Request::Select(_) => Command::Select,
            Request::UnselectNe(_) => Command::UnselectNe,
            Request::UnselectIdFlag(_) => Command::UnselectIdFlag,
            Request::UnselectNoidFlag(_) => Command::UnselectNoidFlag,
            Request::Query => Command::Query,
            Request::Scroll => Command::Scroll,
            Request::Repeat => Command::Repeat,
            Request::Reset => Command::Reset,
            Request::Read(_) => Command::Read,
            Request::Verify(_) => Command::Verify,
            Request::Lock(_) => Command::Lock,
            Request::Qlock(_) => Command::Qlock,
            Request::ReadFlexible(_, _) => Command::ReadFlexible,
            Request::Write(_, _, _) => Command::Write,
        }
    }

    /// Where a parameter lies in the frame, if the command has it.
    pub fn span(&self, parameter: Parameter) -> Option<Span>
        ensures { result ≡ span_of parameter (parts_of self.now) }
    {
        match self {
            Request::Select(comparison) | Request::UnselectNe(comparison) => comparison.span(
                parameter,
            ),
            Request::UnselectIdFlag(bytes) | Request::UnselectNoidFlag(bytes) => match parameter {
                Parameter::Ignored => Some(bytes.span()),
                _ => None,
            },
            Request::Query | Request::Scroll | Request::Repeat | Request::Reset => None,
            Request::Read(target)
            | Request::Verify(target)
            | Request::Lock(target)
            | Request::Qlock(target) => target.span(parameter),
            Request::ReadFlexible(target, length) => match parameter {
                Parameter::Length => Some(length.span()),
                _ => target.span(parameter),
            },
            Request::Write(target, mask, bytes) => match parameter {
                Parameter::Mask => Some(mask.span()),
                Parameter::Data => Some(bytes.span()),
                _ => target.span(parameter),
            },
        }
    }

    // The request of a command from its parameters, which have the right length.
    pub(crate) fn of(command: Command, parameters: &'a [u8]) -> Request<'a>
        requires { length parameters.now ≡ sizes (layout command) }
        ensures command { command_of result ≡ command }
        ensures parts { parts_of result ≡ placed 1 (layout command) parameters.now }
    {
        match command {
            Command::Select => Request::Select(Comparison::of(parameters)),
            Command::UnselectNe => Request::UnselectNe(Comparison::of(parameters)),
            Command::UnselectIdFlag => Request::UnselectIdFlag(BytesAt::ignored(parameters)),
            Command::UnselectNoidFlag => Request::UnselectNoidFlag(BytesAt::ignored(parameters)),
            Command::Query => Request::Query,
            Command::Scroll => Request::Scroll,
            Command::Repeat => Request::Repeat,
            Command::Reset => Request::Reset,
            Command::Read => Request::Read(Target::of(parameters)),
            Command::Verify => Request::Verify(Target::of(parameters)),
            Command::Lock => Request::Lock(Target::of(parameters)),
            Command::Qlock => Request::Qlock(Target::of(parameters)),
            Command::ReadFlexible => Request::read_flexible(parameters),
            Command::Write => Request::write(parameters),
        }
    }

    // A target and a length byte.
    fn read_flexible(parameters: &'a [u8]) -> Request<'a>
        requires { length parameters.now ≡ 10 }
        ensures command { command_of result ≡ Command.ReadFlexible }
        ensures parts { parts_of result ≡ placed 1 (Serial ∷ Address ∷ Length ∷ []) parameters.now }
    {
        let [target @ .., length] = parameters else {
            unreachable()
        };
        Request::ReadFlexible(
            Target::of(target),
            At {
                offset: 10,
                part: length,
            },
        )
    }

    // A target, a mask and four bytes.
    fn write(parameters: &'a [u8]) -> Request<'a>
        requires { length parameters.now ≡ 14 }
        ensures command { command_of result ≡ Command.Write }
        ensures parts { parts_of result ≡ placed 1 (Serial ∷ Address ∷ Mask ∷ Data ∷ []) parameters.now }
    {
        let [target @ .., mask, _, _, _, _] = parameters else {
            unreachable()
        };
        // Again from the front: one pattern has one part of any length.
        let [_, _, _, _, _, _, _, _, _, _, bytes @ ..] = parameters else {
            unreachable()
        };
        Request::Write(
            Target::of(target),
            At {
                offset: 10,
                part: mask,
            },
            At {
                offset: 11,
                part: bytes,
            },
        )
    }
}

// What can be a part of a frame.
trait Extent {
    // The bytes that it is.
    ghost bytes: { Self → List ℕ };

    // How many these are.
    fn extent(&self) -> usize
        ensures { result ≡ length (bytes self.now) };
}

impl Extent for &u8 {
    ghost bytes = { λ b. b.now ∷ [] };

    fn extent(&self) -> usize {
        1
    }
}

impl Extent for &[u8] {
    ghost bytes = { λ b. b.now };

    fn extent(&self) -> usize {
        self.len()
    }
}

impl<T: Extent> At<T> {
    fn span(&self) -> Span
        ensures offset { result.offset ≡ self.now.offset }
        ensures length { result.length ≡ length (T.bytes self.now.part) }
    {
        Span {
            offset: self.offset,
            length: self.part.extent(),
        }
    }
}

impl<'a> BytesAt<'a> {
    // The two bytes that no tag looks at.
    fn ignored(parameters: &'a [u8]) -> BytesAt<'a>
        requires { length parameters.now ≡ 2 }
        ensures { bytes_part Ignored result ∷ [] ≡ placed 1 (Ignored ∷ []) parameters.now }
    {
        At {
            offset: 1,
            part: parameters,
        }
    }
}

impl<'a> Comparison<'a> {
    fn span(&self, parameter: Parameter) -> Option<Span>
        ensures { result ≡ span_of parameter (comparison_parts self.now) }
    {
        match parameter {
            Parameter::Address => Some(self.address.span()),
            Parameter::Mask => Some(self.mask.span()),
            Parameter::Word => Some(self.word.span()),
            _ => None,
        }
    }

    // An address, a mask and eight bytes.
    fn of(parameters: &'a [u8]) -> Comparison<'a>
        requires { length parameters.now ≡ 10 }
        ensures { comparison_parts result ≡ placed 1 (Address ∷ Mask ∷ Word ∷ []) parameters.now }
    {
        let [address, mask, word @ ..] = parameters else {
            unreachable()
        };
        Comparison {
            address: At {
                offset: 1,
                part: address,
            },
            mask: At {
                offset: 2,
                part: mask,
            },
            word: At {
                offset: 3,
                part: word,
            },
        }
    }
}

impl<'a> Target<'a> {
    fn span(&self, parameter: Parameter) -> Option<Span>
        ensures { result ≡ span_of parameter (target_parts self.now) }
    {
        match parameter {
            Parameter::Serial => Some(self.serial.span()),
            Parameter::Address => Some(self.address.span()),
            _ => None,
        }
    }

    // A serial number and an address.
    fn of(parameters: &'a [u8]) -> Target<'a>
        requires { length parameters.now ≡ 9 }
        ensures { target_parts result ≡ placed 1 (Serial ∷ Address ∷ []) parameters.now }
    {
        let [serial @ .., address] = parameters else {
            unreachable()
        };
        Target {
            serial: At {
                offset: 1,
                part: serial,
            },
            address: At {
                offset: 9,
                part: address,
            },
        }
    }
}
