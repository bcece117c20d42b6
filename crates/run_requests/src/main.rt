// Reads lines of a name and a record in hex, and prints a line for each: its name, then what its frame is or the request that its body holds. Where the
// name begins with rmt, the bytes are a command of the remote tape protocol, and it is told what that is read as.
// A line that begins with = is passed over: there the file says what the record above is to be read as.
#![tactic(auto)]

mod shown; // shown.rt: a request with its fields

use hex_text::HexError;
use shown::{Numbered, Shown};
use std::io;
use std::io::Write;
use wire_frame::Unframed;

const LARGEST_INPUT: usize = 1_048_576;

// Any record above 36,868 bytes is broken, so that there is room for all that differ.
const ROOM: usize = 36_870;

// Any bytes: a request has its sequence number in front.
fn show_record(out: &mut impl Write, record: &[u8]) -> io::Result<()> {
    match wire_frame::read_frame(record) {
        Ok(frame) => {
            let body = &record[28..];
            let number = frame.message;
            let of = wire_decoding::decode(wire_frame::row_of(number).kind, body);
            let request = Shown { of, body };
            writeln!(out, "{} {}", frame.sequence, Numbered { number, request })
        }
        Err(Unframed::Broken) => writeln!(out, "broken"),
        Err(Unframed::NotRequest) => writeln!(out, "not a request"),
    }
}

// A command of the remote tape protocol.
fn show_command(out: &mut impl Write, body: &[u8]) -> io::Result<()> {
    match wire_rmt_reading::command(body) {
        Some(of) => writeln!(out, "{}", Shown { of, body }),
        None => writeln!(out, "bad"),
    }
}

// A name, which ends at the first space, then a record in hex, or a command by its name. One that is above the buffer is said to be so, and not
// shown in part.
fn show_vector(out: &mut impl Write, line: &[u8]) -> io::Result<()> {
    let end = line.iter().position(|b| *b == b' ').unwrap_or(line.len());
    let (name, text) = line.split_at(end);
    out.write_all(name)?;
    write!(out, ": ")?;
    let mut record = [0u8; ROOM];
    match hex_text::decode(text, &mut record) {
        Ok(len) if name.starts_with(b"rmt") => show_command(out, &record[..len]),
        Ok(len) => show_record(out, &record[..len]),
        Err(HexError::NotHex) => writeln!(out, "not hex"),
        Err(HexError::NoRoom) => writeln!(out, "above {ROOM} bytes"),
    }
}

// Any text, line by line. A line that says what is expected is not read: what is printed is of the record alone.
fn show_lines(out: &mut impl Write, text: &[u8]) -> io::Result<()> {
    for line in text.split_inclusive(|b| *b == b'\n') {
        let line = line.strip_suffix(b"\n").unwrap_or(line);
        if !line.starts_with(b"=") {
            show_vector(out, line)?;
        }
    }
    Ok(())
}

// One byte above the limit is enough to know that the input is too long. In a function of its own: where a goal can see so long an
// array, the check computes it whole, and does not end.
fn empty_input() -> [u8; LARGEST_INPUT + 1] {
    [0u8; LARGEST_INPUT + 1]
}

fn main(rt: HostRuntime) -> io::Result<()> {
    let mut out = rt.stdout();
    let mut text = empty_input();
    let n = run_reading::read_full(&mut rt.stdin(), &mut text)?;
    if LARGEST_INPUT < n {
        writeln!(out, "above {LARGEST_INPUT} bytes")?;
    } else {
        show_lines(&mut out, &text[..n])?;
    }
    out.flush()
}
