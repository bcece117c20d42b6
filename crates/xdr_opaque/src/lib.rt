// XDR (RFC 4506) in byte slices: variable-length opaque data and strings, and a word that may be missing.
#![tactic(auto)]

ghost use Rattle.std.specs.Prelude.{◌≡◌, ◌+◌, ◌*◌, ◌≤◌, ◌<◌, length, replicate};
ghost use Rattle.xdr.specs.Xdr.{be32s};
ghost use Rattle.xdr_opaque.specs.Opaque.{word_at, all_zero, opaque_at};
ghost use Rattle.xdr_opaque.specs.Put.{Put, opaque};
ghost use Rattle.xdr_opaque.specs.RoundTrip.{OpaqueRoundTrip};

// Opaque data or a string in a slice: its bytes start at start and are len long; next is past the fill.
// A start and a length in place of a slice: a decoded request keeps no borrow of its record, and its definitions speak of places.
#[derive(Clone, Copy, Debug, PartialEq, Eq)]
pub struct Opaque {
    pub start: usize,
    pub len: usize,
    pub next: usize,
}

// The word at an offset, where there is one.
pub fn word_at(s: &[u8], at: usize) -> Option<u32>
    ensures { result ≡ word_at s.now at }
{
    // at + 4 could wrap, so 4 is taken from the length
    let last = s.len().checked_sub(4)?;
    if last < at {
        return None;
    }
    Some(xdr::read_word(s, at))
}

// Every byte is zero.
pub fn all_zero(s: &[u8]) -> bool
    ensures { result ≡ all_zero s.now }
{
    s.iter().all(|b| *b == 0)
}

// The opaque data or the string at an offset.
#[tactic(auto, using(crate::proofs::Laws::word_within))]
pub fn opaque_at(s: &[u8], at: usize) -> Option<Opaque>
    ensures { result ≡ opaque_at s.now at }
{
    let len = word_at(s, at)? as usize;
    let start = at + 4;
    let full = (len + 3) / 4 * 4;
    if s.len() - start < full {
        return None;
    }
    let end = start + len;
    let next = start + full;
    if !all_zero(&s[end..next]) {
        return None;
    }
    Some(Opaque { start, len, next })
}

// Writes words at an offset; returns the offset after them.
pub fn put_words(out: &mut [u8], at: usize, ws: &[u32]) -> usize
    requires { at + 4 * length ws.now ≤ length out.old }
    ensures { Put at (be32s ws.now) out.old result out.new }
{
    xdr::write_words(out, at, ws);
    at + 4 * ws.len()
}

// Writes n zero words at an offset; returns the offset after them.
pub fn put_zero_words(out: &mut [u8], at: usize, n: usize) -> usize
    requires { at + 4 * n ≤ length out.old }
    ensures { Put at (be32s (replicate n 0)) out.old result out.new }
{
    xdr::zero_fill(out, at, 4 * n);
    at + 4 * n
}

// Writes bytes as they are, with no length and no fill, at an offset; returns the offset after them.
pub fn put_bytes(out: &mut [u8], at: usize, s: &[u8]) -> usize
    requires { at + length s.now ≤ length out.old }
    ensures { Put at s.now out.old result out.new }
{
    xdr::copy_bytes(out, at, s);
    at + s.len()
}

// Writes s as opaque data or a string at an offset; returns the offset after its fill.
pub fn put_opaque(out: &mut [u8], at: usize, s: &[u8]) -> usize
    requires { (at + length s.now + 8 ≤ length out.old) × (length s.now ≤ 65536) }
    ensures { Put at (opaque s.now) out.old result out.new }
{
    let n = s.len();
    let zeros = (4 - n % 4) % 4;
    xdr::write_word(out, at, n as u32);
    xdr::copy_bytes(out, at + 4, s);
    xdr::zero_fill(out, at + 4 + n, zeros);
    at + 4 + n + zeros
}

// No work: its contract is that opaque data that was written is read back, so that the crate is proved only with it.
pub fn opaque_round_trip()
    ensures { OpaqueRoundTrip }
{}
