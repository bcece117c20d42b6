// One move to tape, on the parts of a session: the rules are asked in the order of `to_tape`, and the first that applies decides.
#![tactic(auto)]

ghost use Rattle.std.specs.Prelude.{◌≡◌, false, ◌≤◌};
ghost use Rattle.tape_ops.specs.Step.{Told};
ghost use Rattle.rules_parts.specs.Names.{top};
ghost use Rattle.rules_parts.specs.Parts.{window_end};
ghost use Rattle.rules.specs.Relation.{mover_wrong};
ghost use Rattle.rules_moves.specs.Moves.{scant, window_used, filling, to_tape};
ghost use Rattle.serve_to_tape.specs.Fillable.{Fillable};

use rules_moves::Move;
use rules_parts::types::{Data, Mover};
use serve_moves::Parts;

// The stream part is less than a record, and more is to come.
#[tactic(auto, unfolding(rules_moves::specs::Moves::scant, xdr::specs::Choose::choose))]
fn is_scant(last: bool, n: usize, size: usize) -> bool
    ensures { result ≡ scant last n size }
{
    !last && n < size
}

// The window is used up: its end is reached, or a whole record more would pass it.
#[tactic(auto, unfolding(rules_moves::specs::Moves::window_used, xdr::specs::Choose::choose))]
fn is_used(m: Mover) -> bool
    requires { (m.moved ≤ window_end m.offset m.length) × (window_end m.offset m.length ≤ top) }
    ensures { result ≡ window_used m.size m.offset m.length m.moved }
{
    let end = Mover::window_end(m.offset, m.length);
    m.moved == end || end - m.moved < m.size as u64
}

// Rules (4) to (7), with the tape at a position of a sound image.
#[tactic(auto, unfolding(rules_moves::specs::Moves::filling, xdr::specs::Choose::choose))]
fn fill_tape(p: Parts, image: &mut [u8], stream: &[u8], last: bool) -> Move
    requires { Fillable p.mover image.old p.tape.position }
    ensures { Told (filling p.source p.mover p.tape image.old stream.now last) result image.new }
{
    let size = p.mover.size as usize;
    let part = stream.len().min(size);
    if is_used(p.mover) {
        return p.pause(Mover::END_OF_WINDOW);
    }
    if is_scant(last, stream.len(), size) {
        return p.stay();
    }
    if !tape_writing::write_filled(image, p.tape.position, &stream[..part], size) {
        return p.pause(Mover::END_OF_MEDIUM);
    }
    p.take_record(part)
}

// One move to tape.
#[tactic(auto, unfolding(rules_moves::specs::Moves::to_tape, rules_moves::specs::Moves::stream_ends, xdr::specs::Choose::choose))]
pub fn to_tape(p: Parts, image: &mut [u8], stream: &[u8], last: bool) -> Move
    requires { mover_wrong p.mover p.tape ≡ false }
    ensures { Told (to_tape p.source p.mover p.tape image.old stream.now last) result image.new }
{
    if p.is_idle(Mover::TO_TAPE, Data::BACKUP) {
        return p.stay();
    }
    if tape_sound::is_faulty(image, p.tape.position) {
        return p.halt(Data::CONNECT_ERROR, Mover::MEDIA_ERROR);
    }
    if last && stream.is_empty() {
        return p.halt(Data::SUCCESSFUL, Mover::CONNECT_CLOSED);
    }
    fill_tape(p, image, stream, last)
}
