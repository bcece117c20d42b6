// The lister: a cartridge image as text.
#![tactic(auto)]

ghost use Rattle.std.specs.Prelude.{◌≤◌, length, IfOk};
ghost use Rattle.tape_image.specs.Sound.{Sound};

use std::io;
use std::io::{Read, Write};

const LARGEST_IMAGE: usize = 65_536;

fn put_header(out: &mut impl Write, image: &[u8]) -> io::Result<()>
    requires { Sound image.now }
{
    let capacity = tape_image::capacity(image);
    let entries = tape_image::count(image);
    let used = tape_image::used_bytes(image);
    let body = image.len() - tape_image::body_at(image);
    writeln!(
        out,
        "cartridge {entries} of {capacity} entries, {used} of {body} bytes"
    )
}

fn put_entries(out: &mut impl Write, image: &[u8]) -> io::Result<()>
    requires { Sound image.now }
{
    let entries = tape_image::count(image);
    for i in 0..entries {
        let start = tape_image::entry_start(image, i);
        match tape_image::entry_len(image, i) {
            0 => writeln!(out, "{i} mark at {start}")?,
            len => writeln!(out, "{i} record {len} at {start}")?,
        }
    }
    Ok(())
}

fn refuse(out: &mut impl Write) -> io::Result<()> {
    writeln!(out, "refused 15")
}

// Lists any bytes: those that are no sound image, or are too many, are refused.
#[tactic(auto, using(tape_image::proofs::Laws::sound_facts))]
pub fn list(out: &mut impl Write, image: &[u8]) -> io::Result<()> {
    if LARGEST_IMAGE < image.len() || !tape_sound::sound(image) {
        return refuse(out);
    }
    put_header(out, image)?;
    put_entries(out, image)
}

// Lists what an input gives. One byte above the limit is enough to know that an image is too long. An input that cannot be read to its
// end is refused too: an image that was read in part may still be sound.
pub fn list_from(out: &mut impl Write, input: &mut impl Read) -> io::Result<()> {
    let mut image = [0u8; LARGEST_IMAGE + 1];
    match run_reading::read_full(input, &mut image) {
        Ok(n) => list(out, &image[..n]),
        Err(_) => refuse(out),
    }
}
