// A cartridge without a session: its entries, and reading a record to the front of a buffer. Neither asks anything of its caller: whatever is lent,
// there is an answer.
#![tactic(auto)]

ghost use Rattle.std.specs.Prelude.{◌≡◌, MatchResult};
ghost use Rattle.codes.specs.Errors.{number_of};
ghost use Rattle.tape_ops.specs.Operations.{read_part};
ghost use Rattle.tape_calls.specs.Entries.{entry, entry_told};
ghost use Rattle.tape_calls.specs.Handing.{Handed};

use codes::NdmpError;
use tape_ops::Part;

// An entry of a cartridge: of a record its length, of a mark 0; and where it starts in the body. The error, a number as C's
// struct has it, is 0, 13 past the last entry, or 15.
#[repr(C)]
#[derive(Clone, Copy)]
pub struct Entry {
    pub error: u32,
    pub len: usize,
    pub start: usize,
}

impl Entry {
    // What C gets for a refusal.
    fn refused(error: NdmpError) -> Entry
        ensures { result ≡ entry (number_of error) 0 0 }
    {
        Entry {
            error: error.number(),
            len: 0,
            start: 0,
        }
    }
}

// Entry i, or why there is none to tell.
#[tactic(auto, using(tape_image::proofs::Laws::sound_facts), unfolding(crate::specs::Entries::entry_told, xdr::specs::Choose::choose))]
fn find_entry(image: &[u8], i: usize) -> Result<Entry, NdmpError>
    ensures { MatchResult result (λ x. x ≡ entry_told image.now i) (λ e. entry (number_of e) 0 0 ≡ entry_told image.now i) }
{
    if !tape_sound::sound(image) {
        return Err(NdmpError::BadFile);
    }
    if tape_image::count(image) <= i {
        return Err(NdmpError::AtEnd);
    }
    Ok(Entry {
        error: 0,
        len: tape_image::entry_len(image, i),
        start: tape_image::entry_start(image, i),
    })
}

// Entry i of a sound image.
pub fn entry_at(image: &[u8], i: usize) -> Entry
    ensures { result ≡ entry_told image.now i }
{
    find_entry(image, i).unwrap_or_else(Entry::refused)
}

// What C gets of a read, by its place in the image. Image, position and times stay three parameters, as C gives them (`cartridge_read`).
fn read_part(image: &[u8], position: usize, times: u32) -> Part
    ensures { result ≡ read_part image.now position times }
{
    tape_ops::read(image, position, times).unwrap_or_else(|error| Part::refused(position, error))
}

// Reads the record at a position, up to a number of bytes, to the front of out. Where out is too short for them nothing is
// copied or passed, and the error is 1001.
#[tactic(auto, using(tape_ops::proofs::Reading::read_copies), unfolding(tape_ops::proofs::Reading::Copied, crate::specs::Handing::handed_part, crate::specs::Handing::handed_out, xdr::specs::Choose::choose))]
pub fn read_to(image: &[u8], position: usize, times: u32, out: &mut [u8]) -> Part
    ensures { Handed image.now position times out.old result out.new }
{
    let part = read_part(image, position, times);
    if out.len() < part.len {
        return Part {
            error: codes::SHORT_OUTPUT,
            position,
            start: 0,
            len: 0,
        };
    }
    xdr::copy_bytes(out, 0, &image[part.start..part.start + part.len]);
    part
}
