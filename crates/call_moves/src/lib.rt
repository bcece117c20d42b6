// The calls without a request: moves of the stream's bytes, the method's end, a connection made and one lost. No call has a requires: it refuses.
#![tactic(auto)]

ghost use Rattle.std.specs.Prelude.{List, [], ℕ, ◌≤◌, length};
ghost use Rattle.rules_parts.specs.Names.{least_room};
ghost use Rattle.rules.specs.Answer.{held};
ghost use Rattle.call_sending.specs.Call.{CallTold};
ghost use Rattle.rules_moves.specs.Events.{stamped, idling, announced, moved, moved_to_tape, moved_from_tape, method_ended, connection_made, connection_lost};
ghost use Rattle.call_moves.specs.Told.{MoveTold, event};

use rules_moves::Move;
use rules_parts::types::{Answer, Moved, Session};
use serve_moves::Parts;
use wire_replies::Notice;

// The session with a move's parts, and the notices of what it came to: data first, mover second.
fn announce(s: Session, mv: Move, time: u32, out: &mut [u8]) -> Answer
    requires { least_room ≤ length out.old }
    ensures { (before image variables : List ℕ) → CallTold (announced (held s before variables) (stamped time (length out.old)) mv image) result image variables out.old out.new }
{
    let session = s
        .with_source(mv.source)
        .with_mover(mv.mover)
        .with_tape(mv.tape);
    let sent = call_sending::quiet(0, session);
    let halted = call_sending::halts(sent, time, mv.dwhy, mv.mwhy, out);
    call_sending::notify(
        halted,
        time,
        mv.pause,
        Notice::MoverPaused(mv.pause, mv.mover.seek),
        out,
    )
}

// An event's move, announced where the session is in order. No image is handed to an event, and to no call here the store of the environment.
fn tell(s: Session, mv: Move, time: u32, out: &mut [u8]) -> Answer
    ensures { (image variables : List ℕ) → CallTold (event (held s image variables) (stamped time (length out.old)) mv) result image variables out.old out.new }
{
    if let Err(stop) = serve_relation::guard(s, out.len()) {
        return call_sending::quiet(stop.code(), s);
    }
    announce(s, mv, time, out)
}

// The end of the method that reads or writes the stream, in success or not.
pub fn end_method(s: Session, ok: bool, time: u32, out: &mut [u8]) -> Answer
    ensures { (image variables : List ℕ) → CallTold (method_ended (held s image variables) (stamped time (length out.old)) ok) result image variables out.old out.new }
{
    tell(s, Parts::of(s).method_end(ok), time, out)
}

// A connection by TCP was made, with the mover or else with the data end.
pub fn made(s: Session, mover: bool, time: u32, out: &mut [u8]) -> Answer
    ensures { (image variables : List ℕ) → CallTold (connection_made (held s image variables) (stamped time (length out.old)) mover) result image variables out.old out.new }
{
    tell(s, Parts::of(s).made_at(mover), time, out)
}

// A connection by TCP was lost, of the mover or else of the data end.
pub fn lost(s: Session, mover: bool, time: u32, out: &mut [u8]) -> Answer
    ensures { (image variables : List ℕ) → CallTold (connection_lost (held s image variables) (stamped time (length out.old)) mover) result image variables out.old out.new }
{
    tell(s, Parts::of(s).lost_at(mover), time, out)
}

// Nothing is moved or sent, and nothing changes.
fn unmoved(code: u32, s: Session) -> Moved
    ensures { (image variables dest l : List ℕ) → MoveTold (idling code (held s image variables) dest) result image variables dest l l }
{
    Moved {
        code,
        count: 0,
        len: 0,
        session: s,
    }
}

// What a move came to, with its notices.
fn report(s: Session, mv: Move, time: u32, out: &mut [u8]) -> Moved
    requires { least_room ≤ length out.old }
    ensures { (before image variables dest : List ℕ) → MoveTold (moved (held s before variables) (stamped time (length out.old)) mv image dest) result image variables dest out.old out.new }
{
    let sent = announce(s, mv, time, out);
    Moved {
        code: sent.code,
        count: mv.count,
        len: sent.len,
        session: sent.session,
    }
}

// One move to tape: the session, the cartridge, a part of the stream and whether it is the last, the time stamp and the output. It and the move
// from tape lend the cartridge and the stream in different ways, so a function for both would take the move as a closure, and be no shorter.
pub fn move_to_tape(
    s: Session,
    image: &mut [u8],
    stream: &[u8],
    last: bool,
    time: u32,
    out: &mut [u8],
) -> Moved
    ensures { (variables : List ℕ) → MoveTold (moved_to_tape (held s image.old variables) (stamped time (length out.old)) stream.now last) result image.new variables [] out.old out.new }
{
    if let Err(stop) = serve_relation::guard(s, out.len()) {
        return unmoved(stop.code(), s);
    }
    let mv = serve_to_tape::to_tape(Parts::of(s), image, stream, last);
    report(s, mv, time, out)
}

// One move from tape: the session, the cartridge, which is only read, the destination, the time stamp and the output.
pub fn move_from_tape(s: Session, image: &[u8], dest: &mut [u8], time: u32, out: &mut [u8]) -> Moved
    ensures { (variables : List ℕ) → MoveTold (moved_from_tape (held s image.now variables) (stamped time (length out.old)) dest.old) result image.now variables dest.new out.old out.new }
{
    if let Err(stop) = serve_relation::guard(s, out.len()) {
        return unmoved(stop.code(), s);
    }
    let mv = serve_from_tape::from_tape(Parts::of(s), image, dest);
    report(s, mv, time, out)
}
