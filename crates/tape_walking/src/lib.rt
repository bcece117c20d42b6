// Walks over the entries of a sound cartridge image, where they lie: FSF, BSF, FSR and BSR, and what get state says of a position.
#![tactic(auto)]

ghost use Rattle.std.specs.Prelude.{◌≡◌};
ghost use Rattle.tape_image.specs.Sound.{Placed};
ghost use Rattle.tape_image.specs.Place.{place_at};
ghost use Rattle.tape_spacing.specs.Spacing.{ended, spacing};

use tape_image::Place;
use tape_spacing::{Direction, Spaced};

// Where a walk ended.
fn ended(error: u32, position: usize, residue: u32) -> Spaced
    ensures { result ≡ ended error position residue }
{
    Spaced {
        error,
        position,
        residue,
    }
}

// FSF 0, BSF 1, FSR 2, BSR 3: one walk over the table, forward or back, that counts marks or records. It is left by break with error, position and
// residue (docs/DECISIONS.md, D10), which a `for` cannot hand on.
// The operation is the number that a request or C gives (`cartridge_mtio`).
pub fn space(image: &[u8], op: u32, position: usize, times: u32) -> Spaced
    requires { Placed image.now position }
    ensures { result ≡ spacing image.now op position times }
{
    let n = tape_image::count(image);
    let direction = Direction::of(op);
    let marks = op < codes::FORWARD_RECORDS;
    let mut at = position;
    let mut left = times;
    let mut rest = direction.ahead(n, position);
    loop {
        if left == 0 {
            break ended(0, at, 0);
        }
        if rest == 0 {
            break ended(codes::AT_END, at, left);
        }
        let len = tape_image::entry_len(image, direction.entry_passed(at));
        at = direction.position_after(at);
        rest -= 1;
        if len == 0 {
            if !marks {
                break ended(codes::AT_MARK, at, left);
            }
            left -= 1;
        } else if !marks {
            left -= 1;
        }
    }
}

// The marks before a position, and the records since the last of them.
#[tactic(auto, unfolding(tape_image::specs::Place::marks_before, tape_image::specs::Place::records_since, xdr::specs::Choose::choose))]
pub fn place_of(image: &[u8], position: usize) -> Place
    requires { Placed image.now position }
    ensures { result ≡ place_at image.now position }
{
    let mut place = Place { file: 0, block: 0 };
    for i in 0..position {
        if tape_image::entry_len(image, i) == 0 {
            place.file += 1;
            place.block = 0;
        } else {
            place.block += 1;
        }
    }
    place
}
