// The calls of a case, each printed with what it gave. The session, the cartridge and the store are passed on apart, as the calls lend them: some take no store.
ghost use Rattle.std.specs.Prelude.{◌≡◌, ◌≤◌, length};

use super::line::put_body;
use rules_parts::types::Session;
use std::io;
use std::io::Write;

// The record of a request.
fn write_request(out: &mut [u8], message: u32, body: &[u32])
    requires { (length out.old ≡ 60) × (length body.now ≤ 8) }
{
    let size = body.len() as u32 * 4;
    let header = [2147483672 + size, 7, 0, 0, message, 0, 0];
    xdr::write_words(out, 0, &header);
    xdr::write_words(out, 28, body);
}

// A request: its message number and the words of its body.
pub fn ask(
    out: &mut impl Write,
    label: &str,
    s: Session,
    image: &mut [u8],
    store: &mut [u8],
    message: u32,
    body: &[u32],
) -> io::Result<Session>
    requires { length body.now ≤ 8 }
{
    let mut record = [0u8; 60];
    write_request(&mut record, message, body);
    let end = 28 + body.len() * 4;
    write!(out, "{label}")?;
    answer(out, s, image, store, &record[..end])
}

// One account, v with the password pw by MD5: a count, the kind, the id and the password.
fn accounts() -> [u8; 24] {
    let mut lent = [0u8; 24];
    let words = [1, 2, 1, 0x7600_0000, 2, 0x7077_0000];
    xdr::write_words(&mut lent, 0, &words);
    lent
}

// The challenge, the bytes 1 to 64, so that the digest is known: a host that serves is to lend fresh randomness instead.
fn challenge() -> [u8; 64] {
    let mut lent = [0u8; 64];
    let words = [
        0x0102_0304,
        0x0506_0708,
        0x090A_0B0C,
        0x0D0E_0F10,
        0x1112_1314,
        0x1516_1718,
        0x191A_1B1C,
        0x1D1E_1F20,
        0x2122_2324,
        0x2526_2728,
        0x292A_2B2C,
        0x2D2E_2F30,
        0x3132_3334,
        0x3536_3738,
        0x393A_3B3C,
        0x3D3E_3F40,
    ];
    xdr::write_words(&mut lent, 0, &words);
    lent
}

// A record, and the body of its reply. A list of one address is lent, 127.0.0.1 and port 10,000: only a listen by TCP looks at it.
fn answer(
    out: &mut impl Write,
    s: Session,
    image: &mut [u8],
    store: &mut [u8],
    record: &[u8],
) -> io::Result<Session> {
    let mut sent = [0u8; codes::LARGEST_MESSAGE];
    let list = [0, 0, 0, 1, 127, 0, 0, 1, 0, 0, 39, 16, 0, 0, 0, 0];
    let accounts = accounts();
    let challenge = challenge();
    let a = call_request::request(
        s, &accounts, &challenge, &list, false, image, store, record, 0, &mut sent,
    );
    write!(out, ":")?;
    put_body(out, &sent, a.len)?;
    Ok(a.session)
}

// The slot list: a cartridge in the drive, and none in a slot.
const SLOTS: [u32; 9] = [1, 0, 0, 0, 0, 0, 0, 0, 0];

// A new session that was given the challenge.
fn begin(out: &mut impl Write, image: &mut [u8], store: &mut [u8]) -> io::Result<Session> {
    let mut sent = [0u8; codes::LARGEST_MESSAGE];
    let a = call_request::open(SLOTS, 0, &mut sent);
    let s = ask(out, "  connect open", a.session, image, store, 2304, &[4])?;
    ask(out, "  auth attributes", s, image, store, 259, &[2])
}

// A new session that has logged in by MD5: the digest is of pw, 60 zeros, the challenge and pw again.
pub fn login(out: &mut impl Write, image: &mut [u8], store: &mut [u8]) -> io::Result<Session> {
    let s = begin(out, image, store)?;
    ask(
        out,
        "  client auth",
        s,
        image,
        store,
        2305,
        &[
            2,
            1,
            0x7600_0000,
            0x9733_4DE0,
            0x287B_B2B9,
            0x0F66_90EF,
            0x6316_5FD9,
        ],
    )
}

// A new session that has logged in and set a record size of 1,024.
pub fn prepare(out: &mut impl Write, image: &mut [u8], store: &mut [u8]) -> io::Result<Session> {
    let s = login(out, image, store)?;
    set_size(out, s, image, store)
}

pub fn set_size(
    out: &mut impl Write,
    s: Session,
    image: &mut [u8],
    store: &mut [u8],
) -> io::Result<Session> {
    ask(
        out,
        "  set record size 1024",
        s,
        image,
        store,
        2568,
        &[1024],
    )
}

pub fn set_window(
    out: &mut impl Write,
    s: Session,
    image: &mut [u8],
    store: &mut [u8],
    offset: u64,
    length: u64,
) -> io::Result<Session> {
    write!(out, "  set window {offset} {length}")?;
    let body = [
        (offset / 4294967296) as u32,
        (offset % 4294967296) as u32,
        (length / 4294967296) as u32,
        (length % 4294967296) as u32,
    ];
    ask(out, "", s, image, store, 2565, &body)
}

// Tape open, of `tape0`, for writing.
pub fn open_tape(
    out: &mut impl Write,
    s: Session,
    image: &mut [u8],
    store: &mut [u8],
) -> io::Result<Session> {
    ask(
        out,
        "  tape open",
        s,
        image,
        store,
        768,
        &[5, 1952542821, 805306368, 1],
    )
}

// Mover listen, in mode 0, by an address of a type.
pub fn listen(
    out: &mut impl Write,
    label: &str,
    s: Session,
    image: &mut [u8],
    store: &mut [u8],
    address: u32,
) -> io::Result<Session> {
    ask(out, label, s, image, store, 2561, &[0, address])
}

// What a move or an event came to.
fn show(out: &mut impl Write, s: &Session) -> io::Result<()> {
    write!(out, ", state {}", s.mover.state)?;
    write!(out, ", pause {}", s.mover.pause)?;
    write!(out, ", halt {}", s.mover.halt)?;
    write!(out, ", moved {}", s.mover.moved)?;
    write!(out, ", processed {}", s.source.processed)?;
    writeln!(out, ", position {}", s.tape.position)
}

// A move to tape.
fn feed(
    out: &mut impl Write,
    s: Session,
    image: &mut [u8],
    stream: &[u8],
    last: bool,
) -> io::Result<Session> {
    let mut sent = [0u8; codes::LARGEST_MESSAGE];
    let r = call_moves::move_to_tape(s, image, stream, last, 0, &mut sent);
    write!(out, "  move of {}", stream.len())?;
    if last {
        write!(out, ", the last")?;
    }
    write!(out, ": taken {}", r.count)?;
    show(out, &r.session)?;
    Ok(r.session)
}

// A move to tape of the stream from a place on.
pub fn feed_from(
    out: &mut impl Write,
    s: Session,
    image: &mut [u8],
    stream: &[u8],
    at: usize,
    last: bool,
) -> io::Result<Session> {
    if stream.len() < at {
        return Ok(s);
    }
    feed(out, s, image, &stream[at..], last)
}

// The mover's connection is made.
pub fn make(out: &mut impl Write, s: Session) -> io::Result<Session> {
    let mut sent = [0u8; codes::LARGEST_MESSAGE];
    let a = call_moves::made(s, true, 0, &mut sent);
    write!(out, "  made")?;
    show(out, &a.session)?;
    Ok(a.session)
}

// The mover's connection is lost.
pub fn lose(out: &mut impl Write, s: Session) -> io::Result<()> {
    let mut sent = [0u8; codes::LARGEST_MESSAGE];
    let a = call_moves::lost(s, true, 0, &mut sent);
    write!(out, "  lost")?;
    show(out, &a.session)
}
