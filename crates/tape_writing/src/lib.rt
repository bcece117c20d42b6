// Writing records and marks to a sound cartridge image.
#![tactic(auto)]

ghost use Rattle.std.specs.Prelude.{◌≡◌, ◌+◌, ◌-◌, ◌<◌, ◌≤◌, length};
ghost use Rattle.codes.specs.Codes.{longest_record};
ghost use Rattle.tape_image.specs.Image.{capacity};
ghost use Rattle.tape_image.specs.Sound.{Placed};
ghost use Rattle.tape_writing.specs.Writing.{KeptBytes, FilledWrite, with_marks};

// The bytes before a position, which a write there keeps.
fn kept_bytes(image: &[u8], position: usize) -> usize
    requires { Placed image.now position }
    ensures { KeptBytes image.now position result }
{
    if position < tape_image::count(image) {
        tape_image::entry_start(image, position)
    } else {
        tape_image::used_bytes(image)
    }
}

// Writes a record of size bytes at a position, the part and then zeros, and says whether there was room, which is all that there is to say; where there
// was none it changes nothing.
#[tactic(auto, using(crate::proofs::Laws::filled_is), unfolding(crate::specs::Writing::room_for, xdr::specs::Choose::all_of, xdr::specs::Choose::choose))]
pub fn write_filled(image: &mut [u8], position: usize, part: &[u8], size: usize) -> bool
    requires { Placed image.old position × (length part.now ≤ size) × (size ≤ longest_record) }
    ensures { FilledWrite image.old position part.now size result image.new }
{
    let keep = kept_bytes(image, position);
    let body = tape_image::body_at(image);
    if tape_image::capacity(image) <= position || image.len() - body < keep + size {
        return false;
    }
    tape_image::put_entry(image, position, keep, size);
    xdr::copy_bytes(image, body + keep, part);
    xdr::zero_fill(image, body + keep + part.len(), size - part.len());
    true
}

// Writes marks from a position on, for which there are entries free.
pub fn write_marks(image: &mut [u8], position: usize, times: usize)
    requires { Placed image.old position × (position + times ≤ capacity image.old) }
    ensures { image.new ≡ with_marks image.old position times }
{
    let keep = kept_bytes(image, position);
    for at in position..position + times {
        tape_image::put_entry(image, at, keep, 0);
    }
}
