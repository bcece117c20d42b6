// A cartridge without a session: whether it is sound, and its entries; and the tape operations alone, for the benchmark. None asks anything of
// its caller: whatever is lent, there is an answer.
ghost use Rattle.std.specs.Prelude.{◌≡◌};
ghost use Rattle.tape_image.specs.Image.{is_sound};
ghost use Rattle.tape_ops.specs.Step.{Told};
ghost use Rattle.tape_ops.specs.Operations.{write_step, mtio_step};
ghost use Rattle.tape_calls.specs.Entries.{entry_told};
ghost use Rattle.tape_calls.specs.Handing.{Handed};

use tape_calls::Entry;
use tape_ops::{Part, Wrote};
use tape_spacing::Spaced;

// The image is sound.
#[unsafe(no_mangle)]
pub extern "C" fn mossgoblin_sound(image: &[u8]) -> bool
    ensures { result ≡ is_sound image.now }
{
    tape_sound::sound(image)
}

// Entry i of a sound image.
#[unsafe(no_mangle)]
pub extern "C" fn mossgoblin_entry(image: &[u8], i: usize) -> Entry
    ensures { result ≡ entry_told image.now i }
{
    tape_calls::entry_at(image, i)
}

// Writes a record at a position.
#[unsafe(no_mangle)]
pub extern "C" fn cartridge_write(image: &mut [u8], position: usize, bytes: &[u8]) -> Wrote
    ensures { Told (write_step image.old position bytes.now) result image.new }
{
    tape_ops::write(image, position, bytes).unwrap_or_else(|error| Wrote::refused(position, error))
}

// MTIO: spacing, rewinding and marks.
#[unsafe(no_mangle)]
pub extern "C" fn cartridge_mtio(image: &mut [u8], op: u32, position: usize, times: u32) -> Spaced
    ensures { Told (mtio_step image.old op position times) result image.new }
{
    tape_ops::mtio(image, op, position, times).unwrap_or_else(|error| Spaced::refused(
        position, error,
    ))
}

// Reads the record at a position, up to a number of bytes, to the front of out. Where out is too short for them nothing is
// copied or passed, and the error is 1001.
#[unsafe(no_mangle)]
pub extern "C" fn cartridge_read(image: &[u8], position: usize, times: u32, out: &mut [u8]) -> Part
    ensures { Handed image.now position times out.old result out.new }
{
    tape_calls::read_to(image, position, times, out)
}
