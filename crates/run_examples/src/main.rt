// Runs the examples of the rules, cases a to j, and a mover by TCP, on the calls themselves, and prints what each call gave.
// `rules_cases::examples_hold` proves the same cases of the definitions.
#![tactic(auto)]

mod calls; // calls.rt: the calls of a case, each printed
mod line; // line.rt: the body of a reply

use rules_parts::types::Session;
use std::io;
use std::io::Write;

// An empty cartridge: 1, a capacity of 4, no entries, no bytes used; then room for 4 entries and 4,096 bytes.
fn blank() -> [u8; 4144] {
    let mut image = [0u8; 4144];
    image[3] = 1;
    image[7] = 4;
    image
}

// Cases a, b, d, e and f: one window.
fn window_case(out: &mut impl Write, label: &str, offset: u64, length: u64) -> io::Result<()> {
    writeln!(out, "{label}")?;
    let mut image = blank();
    let mut store = [0u8; codes::STORE_LENGTH];
    let s = calls::prepare(out, &mut image, &mut store)?;
    calls::set_window(out, s, &mut image, &mut store, offset, length)?;
    Ok(())
}

// The tape open, and a window of so many bytes from the stream's start on.
fn set_first(
    out: &mut impl Write,
    image: &mut [u8],
    store: &mut [u8],
    length: u64,
) -> io::Result<Session> {
    let s = calls::prepare(out, image, store)?;
    let opened = calls::open_tape(out, s, image, store)?;
    calls::set_window(out, opened, image, store, 0, length)
}

fn case_c(out: &mut impl Write) -> io::Result<()> {
    writeln!(out, "c")?;
    let mut image = blank();
    let mut store = [0u8; codes::STORE_LENGTH];
    let windowed = set_first(out, &mut image, &mut store, 4096)?;
    let sized = calls::set_size(out, windowed, &mut image, &mut store)?;
    calls::listen(
        out,
        "  mover listen",
        sized,
        &mut image,
        &mut store,
        codes::LOCAL_ADDRESS,
    )?;
    Ok(())
}

// Data connect at LOCAL, and start backup by `dump` with no environment.
fn start(
    out: &mut impl Write,
    s: Session,
    image: &mut [u8],
    store: &mut [u8],
) -> io::Result<Session> {
    let joined = calls::ask(out, "  data connect", s, image, store, 1034, &[0])?;
    calls::ask(
        out,
        "  start backup",
        joined,
        image,
        store,
        1025,
        &[4, 1685417328, 0],
    )
}

// A backup under way, with a window of 2,048 bytes.
fn run(out: &mut impl Write, image: &mut [u8], store: &mut [u8]) -> io::Result<Session> {
    let windowed = set_first(out, image, store, 2048)?;
    let listening = calls::listen(
        out,
        "  mover listen",
        windowed,
        image,
        store,
        codes::LOCAL_ADDRESS,
    )?;
    start(out, listening, image, store)
}

fn case_g(
    out: &mut impl Write,
    image: &mut [u8],
    store: &mut [u8],
    stream: &[u8],
) -> io::Result<Session> {
    writeln!(out, "g")?;
    let s = run(out, image, store)?;
    let one = calls::feed_from(out, s, image, stream, 0, false)?;
    let two = calls::feed_from(out, one, image, stream, 1024, false)?;
    calls::feed_from(out, two, image, stream, 2048, false)
}

fn case_h(
    out: &mut impl Write,
    s: Session,
    image: &mut [u8],
    store: &mut [u8],
    stream: &[u8],
) -> io::Result<Session> {
    writeln!(out, "h")?;
    let windowed = calls::set_window(out, s, image, store, 2048, 1024)?;
    let running = calls::ask(out, "  mover continue", windowed, image, store, 2562, &[])?;
    let done = calls::feed_from(out, running, image, stream, 2048, true)?;
    show_body(out, image, stream)?;
    Ok(done)
}

// Whether the body has the stream, and how many zeros the rest of its last record has.
fn show_body(out: &mut impl Write, image: &[u8], stream: &[u8]) -> io::Result<()> {
    if image.len() < 3120 {
        return Ok(());
    }
    if xdr::same(&image[48..3048], stream) {
        write!(out, "  on tape: the stream")?;
    }
    let zeros = image[3048..3120].iter().filter(|b| **b == 0).count();
    writeln!(out, ", then zeros: {zeros}")
}

// Cases g, h and i, one after the other.
fn cases_g_to_i(out: &mut impl Write, stream: &[u8]) -> io::Result<()> {
    let mut image = blank();
    let mut store = [0u8; codes::STORE_LENGTH];
    let s = case_g(out, &mut image, &mut store, stream)?;
    let done = case_h(out, s, &mut image, &mut store, stream)?;
    writeln!(out, "i")?;
    calls::feed_from(out, done, &mut image, stream, 3000, true)?;
    Ok(())
}

// A cartridge with the entries record, mark, record: 4 entries at most, 64 bytes.
fn case_j(out: &mut impl Write) -> io::Result<()> {
    writeln!(out, "j")?;
    let mut image = [0u8; 112];
    let words = [1, 4, 3, 3, 2, 0, 0, 2, 1, 2, 0, 0];
    xdr::write_words(&mut image, 0, &words);
    let mut store = [0u8; codes::STORE_LENGTH];
    let s = calls::login(out, &mut image, &mut store)?;
    let opened = calls::open_tape(out, s, &mut image, &mut store)?;
    let spaced = calls::ask(out, "  FSR 3", opened, &mut image, &mut store, 771, &[2, 3])?;
    writeln!(out, "  position {}", spaced.tape.position)
}

// A mover by TCP: its connection is made, a record comes, and the connection is lost.
fn case_tcp(out: &mut impl Write, stream: &[u8]) -> io::Result<()> {
    writeln!(out, "by TCP")?;
    let mut image = blank();
    let mut store = [0u8; codes::STORE_LENGTH];
    let s = set_first(out, &mut image, &mut store, 2048)?;
    let listening = calls::listen(
        out,
        "  mover listen by TCP",
        s,
        &mut image,
        &mut store,
        codes::TCP_ADDRESS,
    )?;
    let joined = calls::make(out, listening)?;
    let fed = calls::feed_from(out, joined, &mut image, stream, 0, false)?;
    calls::lose(out, fed)
}

// The cases of one request or a few, on cartridges of their own.
fn cases_a_to_f(out: &mut impl Write) -> io::Result<()> {
    window_case(out, "a", 0, 4096)?;
    window_case(out, "b", 512, 4096)?;
    case_c(out)?;
    window_case(out, "d", 0, 0)?;
    window_case(out, "d, the other", 0, 1536)?;
    window_case(out, "e", 18446744073709549568, 1024)?;
    window_case(out, "f", 18446744073709550592, 1024)
}

fn main(rt: HostRuntime) -> io::Result<()> {
    let mut out = rt.stdout();
    cases_a_to_f(&mut out)?;
    let mut stream = [0u8; 3000];
    for (i, b) in stream.iter_mut().enumerate() {
        *b = (i % 251) as u8;
    }
    cases_g_to_i(&mut out, &stream)?;
    case_j(&mut out)?;
    case_tcp(&mut out, &stream)?;
    out.flush()
}
