// Opens a session and lends it the record, in hex, of each file that an argument names: of each a line with its name, the code and the bytes sent.
#![tactic(auto)]

use hex_text::HexError;
use rules_parts::types::{Answer, Session};
use run_writing::Hex;
use std::io::Write;
use std::rt::Files;
use std::{env, fs, io};

// 1,700,000,000 seconds
const TIME: u32 = 0x6553F100;

// The accounts that are lent: vault with the password noon by text, ndmp with the password ndmp by MD5.
const ACCOUNTS: [u8; 48] =
    *b"\x00\x00\x00\x02\x00\x00\x00\x01\x00\x00\x00\x05vault\x00\x00\x00\x00\x00\x00\x04noon\x00\x00\x00\x02\x00\x00\x00\x04ndmp\x00\x00\x00\x04ndmp";

// The challenge that is lent: one that a real client was given.
const CHALLENGE: [u8; 64] =
    *b"\x2e\xed\x00\xe8\xd2\x95\x7f\x8e\xd9\x5a\xb2\x5e\xe6\x4e\xa7\x8a\x79\xa4\x17\x13\xde\x18\xe9\xf9\x6d\xeb\x0b\x69\x16\xd6\x02\x43\xa9\x6c\x5d\x5d\x70\xf8\xc0\x63\x72\x56\xa9\xa0\xab\x69\x72\x6e\x80\xe6\x64\x7e\x2f\x90\xaa\x14\xe7\x62\x10\x9a\x23\xce\x7e\xf2";

// The slot list: a cartridge in the drive, and none in a slot.
const SLOTS: [u32; 9] = [1, 0, 0, 0, 0, 0, 0, 0, 0];

const LARGEST_RECORD: usize = 20_000;

const LARGEST_TEXT: usize = 40_000;

// A session, its cartridge and its store.
#[derive(Drop)]
struct Vault {
    session: Session,
    image: [u8; 2128],
    store: [u8; codes::STORE_LENGTH],
}

// The code of an answer and the bytes sent.
fn show(out: &mut impl Write, answer: &Answer, sent: &[u8]) -> io::Result<()> {
    write!(out, ": {}", answer.code)?;
    match sent.get(..answer.len) {
        Some(sent) if !sent.is_empty() => writeln!(out, " {}", Hex(sent)),
        _ => writeln!(out),
    }
}

impl Vault {
    // A new session. The cartridge is empty: 1, a capacity of 8, no entries, no bytes used; then room for 8 entries and 2,048 bytes.
    // The store is all zeros: no pairs.
    fn open(out: &mut impl Write) -> io::Result<Vault> {
        let mut sent = [0u8; codes::LARGEST_MESSAGE];
        let answer = call_request::open(SLOTS, TIME, &mut sent);
        write!(out, "open")?;
        show(out, &answer, &sent)?;
        let mut image = [0u8; 2128];
        image[3] = 1;
        image[7] = 8;
        Ok(Vault {
            session: answer.session,
            image,
            store: [0u8; codes::STORE_LENGTH],
        })
    }

    // One record.
    fn ask(&mut self, out: &mut impl Write, input: &[u8]) -> io::Result<()> {
        let mut sent = [0u8; codes::LARGEST_MESSAGE];
        let answer = call_request::request(
            self.session,
            &ACCOUNTS,
            &CHALLENGE,
            b"",
            false,
            &mut self.image,
            &mut self.store,
            input,
            TIME,
            &mut sent,
        );
        self.session = answer.session;
        show(out, &answer, &sent)
    }

    // A record in hex. What is none, or is too long, is said, and not asked.
    fn ask_text(&mut self, out: &mut impl Write, text: &[u8]) -> io::Result<()> {
        if LARGEST_TEXT < text.len() {
            return writeln!(out, ": above {LARGEST_TEXT} bytes");
        }
        let mut record = [0u8; LARGEST_RECORD];
        match hex_text::decode(text, &mut record) {
            Ok(len) => self.ask(out, &record[..len]),
            Err(HexError::NotHex) => writeln!(out, ": not hex"),
            Err(HexError::NoRoom) => writeln!(out, ": above {LARGEST_RECORD} bytes"),
        }
    }

    // The record of a file. One that cannot be opened is told on standard error, and the session goes on.
    fn ask_file(
        &mut self,
        rt: &(impl Files + Eprint),
        out: &mut impl Write,
        path: &str,
    ) -> io::Result<()> {
        write!(out, "{path}")?;
        match fs::open(rt, path) {
            Ok(mut file) => {
                let mut text = [0u8; LARGEST_TEXT + 1];
                let n = run_reading::read_full(&mut file, &mut text)?;
                self.ask_text(out, &text[..n])
            }
            Err(e) => {
                out.flush()?;
                eprintln!(rt; "{path}: {e}")
            }
        }
    }
}

fn main(rt: HostRuntime) -> io::Result<()> {
    let mut out = rt.stdout();
    let mut vault = Vault::open(&mut out)?;
    for path in env::args(&rt)?.skip(1) {
        vault.ask_file(&rt, &mut out, path.as_str())?;
    }
    out.flush()
}
