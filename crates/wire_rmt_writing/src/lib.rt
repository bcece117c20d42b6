// Writes replies of the remote tape protocol into an output; and which error a number of NDMP is.
#![tactic(auto)]

ghost use Rattle.std.specs.Prelude.{◌≡◌, ◌+◌, ◌≤◌, length};
ghost use Rattle.xdr_opaque.specs.Put.{Put};
ghost use Rattle.wire_rmt.specs.Numbers.{most_digits, digit_count, decimal};
ghost use Rattle.wire_rmt.specs.Replies.{error_of, accepted, refused};
ghost use Rattle.wire_rmt_writing.specs.Errors.{number_of};

// An error, as 001 has it from Unix.
#[derive(Clone, Copy, Debug, PartialEq, Eq)]
pub enum UnixError {
    IoFailed,
    NoSuchDevice,
    Invalid,
}

impl UnixError {
    // The reply that refuses by it: `E`, 001's number of it and its text.
    #[tactic(auto, using(crate::proofs::Laws::bytes_5, crate::proofs::Laws::bytes_6, crate::proofs::Laws::bytes_22))]
    fn reply(self) -> &'static [u8]
        ensures bytes { result.now ≡ refused (number_of self) }
        ensures short { length result.now ≤ 29 }
    {
        match self {
            UnixError::IoFailed => b"E5\nI/O error\n",
            UnixError::NoSuchDevice => b"E6\nNo such device or address\n",
            UnixError::Invalid => b"E22\nInvalid argument\n",
        }
    }
}

// How many digits a number has in decimal; 0 has one, as 1 has.
#[tactic(auto, using(crate::proofs::Laws::count_is))]
fn digit_count(v: u32) -> usize
    ensures { (result ≡ digit_count v) × (result ≤ most_digits) }
{
    v.max(1).ilog10() as usize + 1
}

// Writes a number in decimal, from its last digit on; returns the offset after it. The library prints by a `Formatter`,
// not to a place of a buffer.
fn put_decimal(out: &mut [u8], at: usize, v: u32) -> usize
    requires { at + most_digits ≤ length out.old }
    ensures { Put at (decimal v) out.old result out.new }
{
    let count = digit_count(v);
    let mut left = v;
    for i in (0..count).rev() {
        out[at + i] = b'0' + (left % 10) as u8;
        left /= 10;
    }
    at + count
}

// Writes `A`, a number and its line feed; returns the offset after them, where a read's data go.
pub fn put_accepted(out: &mut [u8], at: usize, n: u32) -> usize
    requires { at + 12 ≤ length out.old }
    ensures { Put at (accepted n) out.old result out.new }
{
    out[at] = b'A';
    let next = put_decimal(out, at + 1, n);
    out[next] = b'\n';
    next + 1
}

// The error that a number of NDMP is. A number, since a reply's outcome is one too.
#[tactic(auto, unfolding(xdr::specs::Choose::choose, wire_rmt::specs::Replies::error_of))]
pub fn error_of(code: u32) -> UnixError
    ensures { number_of result ≡ error_of code }
{
    match code {
        codes::UNDECODABLE | codes::ILLEGAL_ARGUMENTS => UnixError::Invalid,
        codes::NOT_OPEN | codes::NO_DEVICE => UnixError::NoSuchDevice,
        _ => UnixError::IoFailed,
    }
}

// Writes the reply to what NDMP refuses by a number; returns the offset after it. Kept out of its callers: where the error is known
// by name, the compiler would lay out a table of the texts' addresses, which counts as data.
#[inline(never)]
pub fn put_refused(out: &mut [u8], at: usize, code: u32) -> usize
    requires { at + 29 ≤ length out.old }
    ensures { Put at (refused (error_of code)) out.old result out.new }
{
    xdr_opaque::put_bytes(out, at, error_of(code).reply())
}
