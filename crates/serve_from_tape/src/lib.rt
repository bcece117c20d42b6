// One move from tape: its tests, the walk to the record that the seek position is in, and the bytes of it that are handed over.
#![tactic(auto)]

ghost use Rattle.std.specs.Prelude.{◌≡◌, false, ◌+◌, ◌-◌, ◌<◌, ◌≤◌};
ghost use Rattle.tape_image.specs.Image.{count};
ghost use Rattle.rules.specs.Relation.{mover_wrong};
ghost use Rattle.rules.specs.TapeService.{moved_to};
ghost use Rattle.rules_moves.specs.Moves.{sought, pauses, reading, on_found, seeking, from_tape, HandedAs};
ghost use Rattle.serve_from_tape.specs.Facts.{Seekable};

use rules_moves::{Found, Move};
use rules_parts::types::{Data, Mover, Tape};
use serve_moves::Parts;

// Hands over what is asked for of record i. `Seekable` is of the mover and of the image that is lent, so no one type has it as its invariant.
fn read_record(i: usize, p: Parts, image: &[u8], dest: &mut [u8]) -> Move
    requires { Seekable p.mover image.now × (p.mover.offset ≤ p.mover.seek) × (i < count image.now) }
    ensures { HandedAs (reading i p.source p.mover p.tape image.now dest.old) result dest.new }
{
    let len = tape_image::entry_len(image, i);
    if len != p.mover.size as usize {
        return p.halt(Data::CONNECT_ERROR, Mover::MEDIA_ERROR);
    }
    let into = serve_seeking::into_record(p.mover);
    let n = serve_seeking::amount(p.mover, dest.len());
    let begin = serve_seeking::record_start(image, i) + into;
    let end = begin + n;
    xdr::copy_bytes(dest, 0, &image[begin..end]);
    p.hand_over(n, i)
}

// The mover pauses, and the tape stands at a position.
fn pause_there(why: u32, position: usize, p: Parts) -> Move
    ensures { result ≡ pauses why p.source p.mover (moved_to position p.tape) }
{
    let there = Parts {
        tape: Tape { position, ..p.tape },
        ..p
    };
    there.pause(why)
}

// A move after its tests: the walk, and what it comes to.
#[tactic(auto, unfolding(rules_moves::specs::Moves::on_found))]
fn walk_back(p: Parts, image: &[u8], dest: &mut [u8]) -> Move
    requires { Seekable p.mover image.now × (p.mover.offset ≤ p.mover.seek) }
    ensures { HandedAs (on_found (sought p.mover image.now) p.source p.mover p.tape image.now dest.old) result dest.new }
{
    let m = p.mover;
    let n = tape_image::count(image);
    let k = (m.seek - m.offset) / (m.size as u64);
    match serve_seeking::find_record(image, n, m.origin, k) {
        Found::Target(i) => read_record(i, p, image, dest),
        Found::Mark(j) => pause_there(Mover::END_OF_FILE, j, p),
        Found::End => pause_there(Mover::END_OF_MEDIUM, n, p),
    }
}

// The test of the seek position, and the walk.
#[tactic(auto, using(crate::proofs::Handing::inside), unfolding(rules_moves::specs::Moves::seeking, xdr::specs::Choose::choose))]
fn seek_back(p: Parts, image: &[u8], dest: &mut [u8]) -> Move
    requires { Seekable p.mover image.now }
    ensures { HandedAs (seeking p.source p.mover p.tape image.now dest.old) result dest.new }
{
    let m = p.mover;
    if serve_seeking::is_outside(m.seek, m.offset, m.length) {
        return p.pause(Mover::SEEK);
    }
    walk_back(p, image, dest)
}

// One move from tape, of a session that keeps the relation.
#[tactic(auto, unfolding(rules_moves::specs::Moves::from_tape, xdr::specs::Choose::choose))]
pub fn from_tape(p: Parts, image: &[u8], dest: &mut [u8]) -> Move
    requires { mover_wrong p.mover p.tape ≡ false }
    ensures { HandedAs (from_tape p.source p.mover p.tape image.now dest.old) result dest.new }
{
    if p.is_idle(Mover::FROM_TAPE, Data::RECOVER) {
        return p.stay();
    }
    if tape_sound::is_faulty(image, p.tape.position) {
        return p.halt(Data::CONNECT_ERROR, Mover::MEDIA_ERROR);
    }
    if p.mover.left == 0 || dest.is_empty() {
        return p.stay();
    }
    seek_back(p, image, dest)
}
