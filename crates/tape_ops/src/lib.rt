// The tape operations on a cartridge image, for any image and any position: what a session calls. An unsound image or a position
// above the number of entries is refused, as are arguments out of range; a mark and an end are outcomes of the tape.
#![tactic(auto)]

ghost use Rattle.std.specs.Prelude.{◌≡◌, ◌<◌, ◌≤◌, true, false, MatchResult};
ghost use Rattle.codes.specs.Codes.{longest_record};
ghost use Rattle.codes.specs.declared.NdmpError.TheVariants as NdmpError;
ghost use Rattle.tape_image.specs.Image.{faulty};
ghost use Rattle.tape_image.specs.Sound.{Placed};
ghost use Rattle.tape_ops.specs.Step.{Told};
ghost use Rattle.tape_ops.specs.Operations.{part, mark_step, entry_part};
ghost use Rattle.tape_ops.specs.Answers.{refused_write, refused_read, WriteGave, ReadGave, MtioGave, StateGave};
ghost use Rattle.tape_ops.specs.Promises.{TapePromises};

use codes::NdmpError;
use tape_image::Place;
use tape_spacing::Spaced;

// What a write gives: the error, the bytes written and the next position. The error is a number, here and below, as C's structs have it.
#[repr(C)]
#[derive(Clone, Copy)]
pub struct Wrote {
    pub error: u32,
    pub count: u32,
    pub position: usize,
}

// What a read gives: the error, the next position, and where the bytes lie in the image.
#[repr(C)]
#[derive(Clone, Copy)]
pub struct Part {
    pub error: u32,
    pub position: usize,
    pub start: usize,
    pub len: usize,
}

impl Wrote {
    // What C gets for a refusal at a position.
    pub fn refused(position: usize, error: NdmpError) -> Wrote
        ensures { result ≡ refused_write position error }
    {
        Wrote {
            error: error.number(),
            count: 0,
            position,
        }
    }
}

impl Part {
    // What C gets for a refusal at a position.
    pub fn refused(position: usize, error: NdmpError) -> Part
        ensures { result ≡ refused_read position error }
    {
        Part::without_bytes(error.number(), position)
    }

    // A number and a position alone.
    fn without_bytes(error: u32, position: usize) -> Part
        ensures { result ≡ part error position 0 0 }
    {
        Part {
            error,
            position,
            start: 0,
            len: 0,
        }
    }
}

// Refuses more bytes than a record may have.
fn check_length(n: usize) -> Result<(), NdmpError>
    ensures { MatchResult result (λ _. n ≤ longest_record) (λ e. (e ≡ NdmpError.IllegalArguments) × (longest_record < n)) }
{
    if codes::LONGEST_RECORD < n {
        return Err(NdmpError::IllegalArguments);
    }
    Ok(())
}

// Refuses an unsound image, and a position above its number of entries.
#[tactic(auto, using(tape_image::proofs::Laws::placed))]
fn check_position(image: &[u8], position: usize) -> Result<(), NdmpError>
    ensures { MatchResult result (λ _. (faulty image.now position ≡ false) × Placed image.now position) (λ e. (e ≡ NdmpError.IoError) × (faulty image.now position ≡ true)) }
{
    if tape_sound::is_faulty(image, position) {
        return Err(NdmpError::IoError);
    }
    Ok(())
}

// Writes a record at a position.
#[tactic(auto, using(tape_writing::proofs::Laws::fill_whole), unfolding(crate::specs::Operations::write_step, crate::specs::Answers::is_refusal, xdr::specs::Choose::choose))]
pub fn write(image: &mut [u8], position: usize, bytes: &[u8]) -> Result<Wrote, NdmpError>
    ensures { WriteGave image.old position bytes.now result image.new }
{
    let n = bytes.len();
    check_length(n)?;
    check_position(image, position)?;
    if n == 0 {
        return Ok(Wrote {
            error: 0,
            count: 0,
            position,
        });
    }
    if !tape_writing::write_filled(image, position, bytes, n) {
        return Ok(Wrote {
            error: codes::AT_END,
            count: 0,
            position,
        });
    }
    Ok(Wrote {
        error: 0,
        count: n as u32,
        position: position + 1,
    })
}

// What stands at a position that is not above the number of entries.
#[tactic(auto, using(crate::proofs::Laws::least_min), unfolding(crate::specs::Operations::entry_part, xdr::specs::Choose::choose))]
fn entry_part(image: &[u8], position: usize, times: u32) -> Part
    requires { Placed image.now position }
    ensures { result ≡ entry_part image.now position times }
{
    if position == tape_image::count(image) {
        return Part::without_bytes(codes::AT_END, position);
    }
    let len = tape_image::entry_len(image, position);
    if len == 0 {
        return Part::without_bytes(codes::AT_MARK, position + 1);
    }
    Part {
        error: 0,
        position: position + 1,
        start: tape_image::body_at(image) + tape_image::entry_start(image, position),
        len: len.min(times as usize),
    }
}

// Reads the record at a position, up to a number of bytes.
#[tactic(auto, using(crate::proofs::Answering::part_outcome), unfolding(crate::specs::Operations::read_part, crate::specs::Answers::is_refusal, xdr::specs::Choose::choose))]
pub fn read(image: &[u8], position: usize, times: u32) -> Result<Part, NdmpError>
    ensures { ReadGave image.now position times result }
{
    check_length(times as usize)?;
    check_position(image, position)?;
    if times == 0 {
        return Ok(Part::without_bytes(0, position));
    }
    Ok(entry_part(image, position, times))
}

// Writes marks at a position: all of them, or none where they do not fit.
#[tactic(auto, unfolding(crate::specs::Operations::mark_step, xdr::specs::Choose::choose))]
fn marks(image: &mut [u8], position: usize, times: u32) -> Spaced
    requires { Placed image.old position }
    ensures { Told (mark_step image.old position times) result image.new }
{
    let n = times as usize;
    if tape_image::capacity(image) < position + n {
        return Spaced {
            error: codes::AT_END,
            position,
            residue: times,
        };
    }
    tape_writing::write_marks(image, position, n);
    Spaced {
        error: 0,
        position: position + n,
        residue: 0,
    }
}

// MTIO: 0 FSF, 1 BSF, 2 FSR, 3 BSR, 4 REW, 5 write marks, 6 off, which rewinds here; its caller closes the device.
// The operation is the number that a request or C gives (`cartridge_mtio`), and `mtio_step` judges it.
#[tactic(auto, using(crate::proofs::Answering::mark_outcome, crate::proofs::Answering::space_outcome), unfolding(crate::specs::Operations::mtio_step, crate::specs::Answers::is_refusal, xdr::specs::Choose::choose))]
pub fn mtio(image: &mut [u8], op: u32, position: usize, times: u32) -> Result<Spaced, NdmpError>
    ensures { MtioGave image.old op position times result image.new }
{
    if codes::OFF_LINE < op {
        return Err(NdmpError::IllegalArguments);
    }
    check_position(image, position)?;
    Ok(match op {
        codes::WRITE_MARKS => marks(image, position, times),
        codes::REWIND_TAPE | codes::OFF_LINE => Spaced {
            error: 0,
            position: 0,
            residue: 0,
        },
        _ => tape_walking::space(image, op, position, times),
    })
}

// The file and the block number of a position.
#[tactic(auto, unfolding(crate::specs::Operations::standing_at, crate::specs::Answers::is_refusal, xdr::specs::Choose::choose))]
pub fn state(image: &[u8], position: usize) -> Result<Place, NdmpError>
    ensures { StateGave image.now position result }
{
    check_position(image, position)?;
    Ok(tape_walking::place_of(image, position))
}

// No work: its contract is the promises on the operations, so that the crate is proved only with them.
pub fn promises_hold()
    ensures { TapePromises }
{}
