// The lines of a record.
ghost use Rattle.std.specs.Prelude.{◌≤◌};

use std::io;
use std::io::Write;

// The mark and the header take 28 bytes, a line; a word takes four.
fn put_gap(out: &mut impl Write, i: usize) -> io::Result<()> {
    if i % 28 == 0 {
        return writeln!(out);
    }
    if i % 4 == 0 {
        return write!(out, " ");
    }
    Ok(())
}

fn put_bytes(out: &mut impl Write, s: &[u8]) -> io::Result<()> {
    for (i, b) in s.iter().enumerate() {
        put_gap(out, i)?;
        write!(out, "{b:02x}")?;
    }
    Ok(())
}

// The first n bytes of what was sent, and four after them, which are to stay as they were.
pub fn put_sent(
    out: &mut impl Write,
    name: &str,
    sent: &[u8; codes::LARGEST_MESSAGE],
    n: usize,
) -> io::Result<()>
    requires { n ≤ 36000 }
{
    write!(out, "{name} {n}")?;
    put_bytes(out, &sent[..n + 4])?;
    writeln!(out)
}
