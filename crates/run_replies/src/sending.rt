// Records written into an output of the least length and printed. The output is not zero, so that a zero there is one that was written.
ghost use Rattle.std.specs.Prelude.{◌≤◌, ◌+◌};
ghost use Rattle.wire_replies.specs.Fit.{Sending};

use super::lines::put_sent;
use std::io;
use std::io::Write;
use wire_replies::{Notice, Reply};

#[tactic(auto, unfolding(wire_replies::specs::Fit::Sendable))]
fn put_reply(
    out: &mut [u8; codes::LARGEST_MESSAGE],
    sequence: u32,
    time: u32,
    message: u32,
    echo: u32,
    reply: Reply,
    image: &[u8],
) -> usize
    requires { Sending reply image.now }
    ensures { result ≤ 32804 }
{
    wire_writing::write_reply(out, sequence, time, message, echo, reply, image)
}

fn put_notice(
    out: &mut [u8; codes::LARGEST_MESSAGE],
    at: usize,
    sequence: u32,
    time: u32,
    notice: Notice,
) -> usize
    requires { at ≤ 36000 }
    ensures { result ≤ at + 40 }
{
    wire_writing::write_notice(out, at, sequence, time, notice)
}

// A record of a name: its sequence number n, and a time stamp and an echo that go with it.
pub fn send(
    out: &mut impl Write,
    name: &str,
    n: u32,
    message: u32,
    reply: Reply,
    image: &[u8],
) -> io::Result<()>
    requires { Sending reply image.now }
{
    let mut sent = [0xAAu8; codes::LARGEST_MESSAGE];
    let time = n.wrapping_add(1000);
    let echo = n.wrapping_add(500);
    let end = put_reply(&mut sent, n, time, message, echo, reply, image);
    put_sent(out, name, &sent, end)
}

// A refusal: its number, with the zero words before and after it.
pub fn refuse(
    out: &mut impl Write,
    name: &str,
    n: u32,
    message: u32,
    before: u32,
    error: u32,
    after: u32,
) -> io::Result<()>
    requires { before + after ≤ 17 }
{
    send(
        out,
        name,
        n,
        message,
        Reply::Refused(before, error, after),
        b"",
    )
}

// A refusal in the header, with the largest numbers there.
pub fn largest(out: &mut impl Write) -> io::Result<()> {
    let mut sent = [0xAAu8; codes::LARGEST_MESSAGE];
    let end = put_reply(
        &mut sent,
        u32::MAX,
        0,
        0x300,
        u32::MAX - 1,
        Reply::Header(18),
        b"",
    );
    put_sent(out, "header_bad", &sent, end)
}

pub fn notify(
    out: &mut impl Write,
    name: &str,
    sequence: u32,
    time: u32,
    notice: Notice,
) -> io::Result<()> {
    let mut sent = [0xAAu8; codes::LARGEST_MESSAGE];
    let end = put_notice(&mut sent, 0, sequence, time, notice);
    put_sent(out, name, &sent, end)
}

// A reply and the two notices behind it, as an abort sends them.
pub fn answer(out: &mut impl Write) -> io::Result<()> {
    let mut sent = [0xAAu8; codes::LARGEST_MESSAGE];
    let first = put_reply(&mut sent, 40, 1040, 0x403, 540, Reply::Plain, b"");
    let second = put_notice(&mut sent, first, 41, 1040, Notice::DataHalted(2));
    let end = put_notice(&mut sent, second, 42, 1040, Notice::MoverHalted(1));
    put_sent(out, "answer", &sent, end)
}
