// The seek position: whether it is outside the window, the walk to the record that it is in, its place there, and how much of the record is handed over.
#![tactic(auto)]

ghost use Rattle.std.specs.Prelude.{◌≡◌, ◌+◌, ◌-◌, ◌<◌, ◌≤◌};
ghost use Rattle.tape_image.specs.Image.{count, Table};
ghost use Rattle.tape_image.specs.Sound.{Sound};
ghost use Rattle.rules_parts.specs.Names.{top};
ghost use Rattle.rules_parts.specs.Parts.{window_end};
ghost use Rattle.rules_moves.specs.Moves.{outside, seek_from, in_record};
ghost use Rattle.serve_seeking.specs.Facts.{Start, Amount};

use rules_moves::Found;
use rules_parts::types::Mover;

// Whether the seek position is outside the window.
#[tactic(auto, unfolding(rules_moves::specs::Moves::outside, xdr::specs::Choose::choose))]
pub fn is_outside(seek: u64, offset: u64, length: u64) -> bool
    requires { window_end offset length ≤ top }
    ensures { result ≡ outside seek offset length }
{
    seek < offset || Mover::window_end(offset, length) <= seek
}

// Walks from an origin over k records to the one after them, in a table of n entries.
pub fn find_record(image: &[u8], n: usize, origin: usize, k: u64) -> Found
    requires { Table image.now n × (origin ≤ n) }
    ensures { result ≡ seek_from image.now (n - origin) origin k }
{
    let mut left = k;
    for at in origin..n {
        if tape_image::entry_len(image, at) == 0 {
            return Found::Mark(at + 1);
        }
        if left == 0 {
            return Found::Target(at);
        }
        left -= 1;
    }
    Found::End
}

// Where the bytes of record i begin.
pub fn record_start(image: &[u8], i: usize) -> usize
    requires { Sound image.now × (i < count image.now) }
    ensures { Start image.now i result }
{
    tape_image::body_at(image) + tape_image::entry_start(image, i)
}

// The place of the seek position in its record.
pub fn into_record(m: Mover) -> usize
    requires { (1 ≤ m.size) × (m.offset ≤ m.seek) }
    ensures { (result ≡ in_record m) × (result < m.size) }
{
    ((m.seek - m.offset) % (m.size as u64)) as usize
}

// How much is handed over where there is room for so much.
#[tactic(auto, unfolding(rules_moves::specs::Moves::amount, xdr::specs::Choose::least, xdr::specs::Choose::choose))]
pub fn amount(m: Mover, room: usize) -> usize
    requires { (1 ≤ m.size) × (m.offset ≤ m.seek) }
    ensures { Amount m room result }
{
    let rest = m.size as usize - into_record(m);
    (m.left as usize).min(rest).min(room)
}
