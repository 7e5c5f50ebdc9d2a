// Sending one command, made from its code and parameters.
ghost use Rattle.std.specs.Prelude.{◌≡◌, ◌+◌, ◌≤◌, [], length, take};
ghost use Rattle.frame.specs.Makings.{longest_frame};
ghost use Rattle.frame.specs.Openings.{opening};
ghost use Rattle.protocol.specs.Commands.{length_of};
ghost use Rattle.field.specs.Promises.{AfterSend};
ghost use Rattle.field.specs.Sends.{on_air};
ghost use Rattle.slot.specs.Commands.{frame_of, target, serial_in};

use field::field::{Field, ROOM};
use field::hearing::Hearing;
use frame::making::{LONGEST_FRAME, make};
use protocol::command::Command;
use record::{SERIAL_LENGTH, Serial};

// What is heard, and the first bytes of what then stands in the reply buffer: a lone tag's serial number.
#[derive(Clone, Copy)]
pub(crate) struct Received {
    pub(crate) hearing: Hearing,
    pub(crate) serial: Serial,
}

// Sends a command with parameters that fit it.
pub(crate) fn ask<F: Field>(
    field: &mut F,
    command: Command,
    parameters: &[u8],
    row: u64,
) -> Received
    requires { length parameters.now + 3 ≡ length_of command }
    ensures sent { AfterSend F.Field (frame_of command parameters.now) row result.hearing field.old field.new }
    ensures serial { result.serial ≡
        serial_in result.hearing (on_air (opening (frame_of command parameters.now)) row (F.tags field.old)) }
{
    let mut frame = [0; LONGEST_FRAME];
    let length = put_frame(command, parameters, &mut frame);
    transmit(field, &frame[..length], row)
}

// Sends READ for the bytes from address 00 on of the tag with a serial number.
pub(crate) fn read<F: Field>(field: &mut F, serial: &[u8]) -> Hearing
    requires { length serial.now ≡ 8 }
    ensures { AfterSend F.Field (frame_of Command.Read (target serial.now)) 0 result field.old field.new }
{
    let mut target = [0; SERIAL_LENGTH + 1];
    target[..SERIAL_LENGTH].copy_from_slice(serial);
    ask(field, Command::Read, &target, 0).hearing
}

// Sends the closing REPEAT.
pub(crate) fn repeat<F: Field>(field: &mut F) -> Hearing
    ensures { AfterSend F.Field (frame_of Command.Repeat []) 0 result field.old field.new }
{
    ask(field, Command::Repeat, &[], 0).hearing
}

// Makes the frame of a command with parameters that fit it, and tells its length.
fn put_frame(command: Command, parameters: &[u8], frame: &mut [u8]) -> usize
    requires fits { length parameters.now + 3 ≡ length_of command }
    requires room { longest_frame ≤ length frame.old }
    ensures inside { result ≤ length frame.old }
    ensures made { take result frame.new ≡ frame_of command parameters.now }
{
    match make(command.code(), parameters, frame) {
        Ok(length) => length,
        Err(_) => 0,
    }
}

// Sends a frame, and takes the serial number from the reply.
fn transmit<F: Field>(field: &mut F, bytes: &[u8], row: u64) -> Received
    ensures sent { AfterSend F.Field bytes.now row result.hearing field.old field.new }
    ensures serial { result.serial ≡ serial_in result.hearing (on_air (opening bytes.now) row (F.tags field.old)) }
{
    let mut reply = [0; ROOM];
    let mut serial = [0; SERIAL_LENGTH];
    let heard = field.send(bytes, row, &mut reply);
    serial.copy_from_slice(&reply[..SERIAL_LENGTH]);
    // A buffer of this length is never refused.
    Received {
        hearing: heard.unwrap_or(Hearing::Silence),
        serial,
    }
}
