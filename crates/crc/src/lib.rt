// The check value of frames and replies: CRC-16/GENIBUS, with the polynomial 1021, the register preset to FFFF, no bits
// reflected, and the register inverted at the end.
#![tactic(auto)]

ghost use Rattle.std.specs.Prelude.{◌≡◌, ℕ, ◌-◌, ◌++◌, if◌then◌else◌, fold};
ghost use Rattle.crc.specs.Check.{bit_taken, byte_taken, register, check_value, high_byte_first};
ghost use Rattle.crc.specs.Standard.{CheckVector};

mod table;

use std::marker::Model;
use table::{FROM_EMPTY, FROM_TWO};

// The polynomial, without its highest term.
const POLYNOMIAL: u16 = 0x1021;

// The register's highest place.
const TOP: u16 = 0x8000;

// What the register holds before the first bit.
const PRESET: u16 = 0xffff;

// A number is inverted by taking it from this one.
const ONES: u16 = 0xffff;

/// The 16-bit register that a message goes through, bit by bit.
#[derive(Clone, Copy)]
pub struct Register {
    value: u16,
}

// To its users a register is the number that it holds.
impl Model for Register {
    ghost Value = { ℕ };

    ghost view = { λ r. r.value };

    ghost inverse = { λ n. record { value = n } };
}

impl Register {
    /// The register before any bit: all ones.
    pub fn preset() -> Register
        ensures { result ≡ 0xffff }
    {
        Register { value: PRESET }
    }

    /// One more bit, for who takes a message off the air.
    pub fn take_bit(&mut self, bit: bool)
        ensures { self.new ≡ bit_taken self.old (if bit then 1 else 0) }
    {
        self.value = after_bit(self.value, bit);
    }

    /// One more byte, its highest bit first.
    pub fn take_byte(&mut self, byte: u8)
        ensures { self.new ≡ byte_taken self.old byte }
    {
        self.value = after_byte(self.value, byte);
    }

    /// Some more bytes.
    pub fn take(&mut self, bytes: &[u8])
        ensures { self.new ≡ fold byte_taken self.old bytes.now }
    {
        self.value = after_bytes(self.value, bytes);
    }

    /// The check value of what went through: the register inverted.
    pub fn check_value(&self) -> u16
        ensures { result ≡ 0xffff - self.now }
    {
        ONES - self.value
    }
}

/// The check value of a message: the register over it, inverted. The message with it, high byte first, always leaves
/// the same value in the register. The rule is in docs/frames.md.
#[tactic(auto, using(crate::proofs::Standard::check_vector))]
pub fn check_value(message: &[u8]) -> u16
    ensures value { result ≡ check_value message.now }
    ensures residue { register (message.now ++ high_byte_first result) ≡ 0x1d0f }
    ensures standard { CheckVector }
{
    ONES - after_bytes(PRESET, message)
}

// The register after some bytes. They and the register that is then left, inverted, always lead to the same value.
fn after_bytes(register: u16, bytes: &[u8]) -> u16
    ensures value { result ≡ fold byte_taken register bytes.now }
    ensures residue { fold byte_taken register (bytes.now ++ high_byte_first (0xffff - result)) ≡ 0x1d0f }
{
    let mut value = register;
    let mut left = bytes;
    while let [first, second, rest @ ..] = left {
        value = after_two(value, *first, *second);
        left = rest;
    }
    if let [last] = left {
        after_byte(value, *last)
    } else {
        value
    }
}

// Two bytes at once, so that neither look-up waits for the other: each byte meets its half of the register.
fn after_two(register: u16, first: u8, second: u8) -> u16
    ensures { result ≡ byte_taken (byte_taken register first) second }
{
    let [high, low] = register.to_be_bytes();
    from_two(high ^ first) ^ from_empty(low ^ second)
}

// The eight bits at once: the byte meets the register's upper half, and the lower half moves up whole.
fn after_byte(register: u16, byte: u8) -> u16
    ensures { result ≡ byte_taken register byte }
{
    let [high, low] = register.to_be_bytes();
    (u16::from(low) * 256) ^ from_empty(high ^ byte)
}

fn after_bit(register: u16, bit: bool) -> u16
    ensures { result ≡ bit_taken register (if bit then 1 else 0) }
{
    let met = register ^ (u16::from(bit) * TOP);
    if met < TOP {
        met * 2
    } else {
        ((met - TOP) * 2) ^ POLYNOMIAL
    }
}

// The empty register after a byte, looked up.
fn from_empty(byte: u8) -> u16
    ensures { result ≡ byte_taken 0 byte }
{
    FROM_EMPTY[usize::from(byte)]
}

// The empty register after a byte and 00, looked up.
fn from_two(byte: u8) -> u16
    ensures { result ≡ byte_taken (byte_taken 0 byte) 0 }
{
    FROM_TWO[usize::from(byte)]
}
