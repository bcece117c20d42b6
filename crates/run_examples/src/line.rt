// The body of a reply.
use std::io;
use std::io::Write;

// The words from byte 28 up to an end, or up to the last.
pub fn put_body(out: &mut impl Write, s: &[u8], end: usize) -> io::Result<()> {
    let words = end.min(s.len()).saturating_sub(28) / 4;
    for k in 0..words {
        write!(out, " {}", xdr::read_word(s, 28 + 4 * k))?;
    }
    writeln!(out)
}
