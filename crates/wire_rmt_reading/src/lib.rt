// Reads a command of the remote tape protocol, for any bytes; and what its mode and its operation are to NDMP.
#![tactic(auto)]

ghost use Rattle.std.specs.Prelude.{◌≡◌, ◌+◌, ◌-◌, ◌≤◌, ◌<◌, ◌==◌, length, get_or, position, true, false, IfSome, MatchOption};
ghost use Rattle.wire_rmt.specs.Numbers.{line_feed, is_digit, ending, digits_on, number_at};
ghost use Rattle.wire_rmt.specs.Commands.{path_length, last_number, open_in, close_in, read_in, write_in, operate_in, rmt_command, tape_mode, mtio_of};

use wire_layouts::Text;
use wire_rmt::{Command, Number};

const LAST_OPERATION: u32 = 5;

// The digit at an offset. `to_digit` would have to be given a `char` made of the byte, and is no shorter.
#[tactic(auto, unfolding(xdr::specs::Choose::choose, wire_rmt::specs::Numbers::is_digit))]
fn digit_at(s: &[u8], at: usize) -> Option<u32>
    ensures { MatchOption result (is_digit (get_or s.now at 0) ≡ false) (λ d. (is_digit (get_or s.now at 0) ≡ true) × (d ≡ get_or s.now at 0 - 48) × (at < length s.now)) }
{
    let b = *s.get(at)?;
    if !b.is_ascii_digit() {
        return None;
    }
    Some(u32::from(b - b'0'))
}

// A number that has come to its end: the line feed must follow.
#[tactic(auto, unfolding(xdr::specs::Choose::choose, wire_rmt::specs::Numbers::ending))]
fn ended(value: u32, s: &[u8], at: usize) -> Option<Number>
    ensures { result ≡ ending value s.now at }
{
    if *s.get(at)? != b'\n' {
        return None;
    }
    Some(Number {
        value,
        next: at + 1,
    })
}

// Up to ten digits, and the line feed behind them. The library's `parse` takes a whole text, whose end is only found here by
// reading, and takes a sign and any number of zeros before the digits.
#[tactic(auto, using(wire_rmt::proofs::Laws::on_more), unfolding(xdr::specs::Choose::choose, wire_rmt::specs::Numbers::digits_on))]
fn digits_at(s: &[u8], from: usize) -> Option<Number>
    ensures { result ≡ digits_on 10 0 s.now from }
{
    let mut value: u32 = 0;
    let mut at = from;
    // `i` is named by the invariant alone.
    for i in 0..10usize {
        let Some(digit) = digit_at(s, at) else {
            return ended(value, s, at);
        };
        value = value.checked_mul(10)?.checked_add(digit)?;
        at += 1;
    }
    ended(value, s, at)
}

// The number at an offset, and its line feed: one digit at least.
#[tactic(auto, unfolding(xdr::specs::Choose::choose, wire_rmt::specs::Numbers::number_at))]
fn number_at(s: &[u8], at: usize) -> Option<Number>
    ensures { result ≡ number_at s.now at }
{
    digit_at(s, at)?;
    digits_at(s, at)
}

// The number at an offset, if it ends the command.
#[tactic(auto, unfolding(xdr::specs::Choose::choose, wire_rmt::specs::Commands::at_end, wire_rmt::specs::Commands::last_number))]
fn last_number(s: &[u8], at: usize) -> Option<u32>
    ensures { result ≡ last_number s.now at }
{
    let number = number_at(s, at)?;
    if number.next != s.len() {
        return None;
    }
    Some(number.value)
}

// The length of the first line, if its line feed is there.
fn line_length(s: &[u8]) -> Option<usize>
    ensures value { result ≡ position (λ b. b == line_feed) s.now }
    ensures bound { IfSome result (λ len. len < length s.now) }
{
    s.iter().position(|b| *b == b'\n')
}

// The length of the line behind the letter.
#[tactic(auto, unfolding(wire_rmt::specs::Commands::path_length))]
fn path_length(s: &[u8]) -> Option<usize>
    ensures value { result ≡ path_length s.now }
    ensures bound { IfSome result (λ len. len + 2 ≤ length s.now) }
{
    line_length(s.get(1..)?)
}

#[tactic(auto, unfolding(xdr::specs::Choose::choose, wire_rmt::specs::Commands::opened, wire_rmt::specs::Commands::open_behind, wire_rmt::specs::Commands::open_in))]
fn open_command(s: &[u8]) -> Option<Command>
    ensures { result ≡ open_in s.now }
{
    let len = path_length(s)?;
    let mode = last_number(s, len + 2)?;
    Some(Command::Open(Text { start: 1, len }, mode))
}

#[tactic(auto, unfolding(xdr::specs::Choose::choose, wire_rmt::specs::Commands::close_behind, wire_rmt::specs::Commands::close_in))]
fn close_command(s: &[u8]) -> Option<Command>
    ensures { result ≡ close_in s.now }
{
    if path_length(s)? + 2 != s.len() {
        return None;
    }
    Some(Command::Close)
}

#[tactic(auto, unfolding(wire_rmt::specs::Commands::reading, wire_rmt::specs::Commands::read_in))]
fn read_command(s: &[u8]) -> Option<Command>
    ensures { result ≡ read_in s.now }
{
    Some(Command::Read(last_number(s, 1)?))
}

#[tactic(auto, using(crate::proofs::Laws::number_within), unfolding(xdr::specs::Choose::choose, wire_rmt::specs::Commands::writing, wire_rmt::specs::Commands::write_in))]
fn write_command(s: &[u8]) -> Option<Command>
    ensures { result ≡ write_in s.now }
{
    let count = number_at(s, 1)?;
    let len = count.value as usize;
    if s.len() - count.next != len {
        return None;
    }
    Some(Command::Write(Text {
        start: count.next,
        len,
    }))
}

#[tactic(auto, unfolding(xdr::specs::Choose::choose, wire_rmt::specs::Commands::operating, wire_rmt::specs::Commands::operation, wire_rmt::specs::Commands::operate_in))]
fn operate_command(s: &[u8]) -> Option<Command>
    ensures { result ≡ operate_in s.now }
{
    let op = number_at(s, 1)?;
    if LAST_OPERATION < op.value {
        return None;
    }
    Some(Command::Operate(op.value, last_number(s, op.next)?))
}

// One whole command, by its letter.
#[tactic(auto, unfolding(xdr::specs::Choose::choose, wire_rmt::specs::Commands::rmt_command))]
pub fn command(s: &[u8]) -> Option<Command>
    ensures { result ≡ rmt_command s.now }
{
    match *s.first()? {
        b'O' => open_command(s),
        b'C' => close_command(s),
        b'R' => read_command(s),
        b'W' => write_command(s),
        b'I' => operate_command(s),
        _ => None,
    }
}

// NDMP's mode of an open.
#[tactic(auto, unfolding(xdr::specs::Choose::choose, wire_rmt::specs::Commands::tape_mode))]
pub fn tape_mode(mode: u32) -> u32
    ensures { result ≡ tape_mode mode }
{
    if mode == 2 { 1 } else { mode }
}

// NDMP's number of an operation.
#[tactic(auto, unfolding(xdr::specs::Choose::choose, wire_rmt::specs::Commands::mtio_of))]
pub fn mtio_of(op: u32) -> u32
    ensures { result ≡ mtio_of op }
{
    match op {
        0 => codes::WRITE_MARKS,
        1 => codes::FORWARD_FILES,
        2 => codes::BACK_FILES,
        3 => codes::FORWARD_RECORDS,
        4 => codes::BACK_RECORDS,
        _ => codes::REWIND_TAPE,
    }
}
