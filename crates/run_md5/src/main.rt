// Prints the test suite of RFC 1321, appendix A.5, then messages of lengths about the end of a block, and digests of logins.
#![tactic(auto)]

ghost use Rattle.std.specs.Prelude.{◌≤◌, length};

use run_writing::Hex;
use std::io;
use std::io::Write;

const CHALLENGE: [u8; 64] = *b"0123456789ABCDEFGHIJKLMNOPQRSTUVWXYZabcdefghijklmnopqrstuvwxyz-+";

// The challenge of a login that ndmjob made; the digest that it sent is expected.
const CLIENT_CHALLENGE: [u8; 64] =
    *b"\x2E\xED\x00\xE8\xD2\x95\x7F\x8E\xD9\x5A\xB2\x5E\xE6\x4E\xA7\x8A\x79\xA4\x17\x13\xDE\x18\xE9\xF9\x6D\xEB\x0B\x69\x16\xD6\x02\x43\xA9\x6C\x5D\x5D\x70\xF8\xC0\x63\x72\x56\xA9\xA0\xAB\x69\x72\x6E\x80\xE6\x64\x7E\x2F\x90\xAA\x14\xE7\x62\x10\x9A\x23\xCE\x7E\xF2";

// A message as the test suite shows it.
fn show(out: &mut impl Write, message: &str) -> io::Result<()> {
    let digest = md5_digest::digest(message.as_bytes());
    writeln!(out, "MD5 (\"{message}\") = {}", Hex(&digest))
}

// A message by its length.
fn show_length(out: &mut impl Write, message: &[u8]) -> io::Result<()> {
    let digest = md5_digest::digest(message);
    let len = message.len();
    writeln!(out, "MD5 of {len} bytes = {}", Hex(&digest))
}

// Messages of bytes that are all "m".
fn lengths(out: &mut impl Write) -> io::Result<()> {
    let message = [b'm'; 128];
    for n in [55, 56, 63, 64, 119, 120, 128] {
        show_length(out, &message[..n])?;
    }
    Ok(())
}

fn show_login(out: &mut impl Write, password: &str, challenge: &[u8; 64]) -> io::Result<()>
    requires { length password.now ≤ 32 }
{
    let digest = md5_digest::login_digest(password.as_bytes(), challenge);
    writeln!(out, "login (\"{password}\") = {}", Hex(&digest))
}

// The test suite of RFC 1321.
const SUITE: [&str; 7] = [
    "",
    "a",
    "abc",
    "message digest",
    "abcdefghijklmnopqrstuvwxyz",
    "ABCDEFGHIJKLMNOPQRSTUVWXYZabcdefghijklmnopqrstuvwxyz0123456789",
    "12345678901234567890123456789012345678901234567890123456789012345678901234567890",
];

fn main(rt: HostRuntime) -> io::Result<()> {
    let mut out = rt.stdout();
    writeln!(out, "MD5 test suite:")?;
    for message in SUITE {
        show(&mut out, message)?;
    }
    lengths(&mut out)?;
    show_login(&mut out, "a", &CHALLENGE)?;
    show_login(&mut out, "moss", &CHALLENGE)?;
    show_login(&mut out, "0123456789abcdef0123456789ABCDEF", &CHALLENGE)?;
    show_login(&mut out, "ndmp", &CLIENT_CHALLENGE)?;
    out.flush()
}
