// The call of a command of the remote tape protocol. It has no requires: it refuses.
#![tactic(auto)]

ghost use Rattle.std.specs.Prelude.{◌≡◌, List, ℕ, ◌≤◌, length};
ghost use Rattle.codes.specs.Codes.{longest_record};
ghost use Rattle.codes.specs.Errors.{number_of};
ghost use Rattle.xdr_opaque.specs.Put.{Put};
ghost use Rattle.wire_requests.specs.Within.{texts_within};
ghost use Rattle.wire_requests.specs.declared.Request.TheVariants as Request;
ghost use Rattle.wire_replies.specs.Fit.{Sendable};
ghost use Rattle.wire_rmt.specs.Replies.{error_of, refused};
ghost use Rattle.rules_parts.specs.Names.{least_room};
ghost use Rattle.rules.specs.Answer.{held, outcome};
ghost use Rattle.rules.specs.Rmt.{tape_request, in_record, bare, said, told, rmt_reply, saying, replied, commanded};
ghost use Rattle.call_sending.specs.Call.{CallTold};

use codes::NdmpError;
use rules_parts::types::{Answer, Session};
use wire_replies::Reply;
use wire_requests::TapeRequest;
use wire_rmt::Command;

// The tape request that a command is.
#[tactic(auto, unfolding(rules::specs::Rmt::tape_request))]
fn tape_request(q: Command) -> TapeRequest
    ensures { result ≡ tape_request q }
{
    match q {
        Command::Open(name, mode) => TapeRequest::Open(name, wire_rmt_reading::tape_mode(mode)),
        Command::Close => TapeRequest::Close,
        Command::Read(count) => TapeRequest::Read(count),
        Command::Write(bytes) => TapeRequest::Write(bytes),
        Command::Operate(op, count) => TapeRequest::Mtio(wire_rmt_reading::mtio_of(op), count),
    }
}

// Writes `A`, a number and bytes behind it; or the refusal that an outcome of the tape is. Returns its length. The outcome is the number that a reply
// carries, in which 0 is none (`told`).
#[tactic(auto, using(wire_rmt::proofs::Replies::accepted_fits), unfolding(xdr::specs::Choose::choose, rules::specs::Rmt::told))]
fn put_told(out: &mut [u8], outcome: u32, count: u32, bytes: &[u8]) -> usize
    requires { (least_room ≤ length out.old) × (length bytes.now ≤ longest_record) }
    ensures { Put 0 (told outcome count bytes.now) out.old result out.new }
{
    if outcome != 0 {
        return wire_rmt_writing::put_refused(out, 0, outcome);
    }
    let next = wire_rmt_writing::put_accepted(out, 0, count);
    xdr_opaque::put_bytes(out, next, bytes)
}

// Writes what an accepted request is told; a read's bytes lie in the image. Returns its length.
#[tactic(auto, using(wire_writing::proofs::Laws::part), unfolding(rules::specs::Rmt::rmt_reply, rules::specs::Rmt::counted_in, wire_replies::specs::Replies::number_of, wire_replies::specs::Fit::Sendable))]
fn put_reply(out: &mut [u8], reply: Reply, image: &[u8]) -> usize
    requires { (least_room ≤ length out.old) × Sendable reply image.now }
    ensures { Put 0 (rmt_reply reply image.now) out.old result out.new }
{
    match reply {
        Reply::Read(outcome, start, len) => {
            put_told(out, outcome, len as u32, &image[start..start + len])
        }
        Reply::Wrote(outcome, count) => put_told(out, outcome, count, b""),
        Reply::Mtio(outcome, _) => put_told(out, outcome, 0, b""),
        Reply::Header(error) => put_told(out, error, 0, b""),
        Reply::Refused(_, error, _) => put_told(out, error, 0, b""),
        _ => put_told(out, 0, 0, b""),
    }
}

// A refused command. Nothing changes: it takes no sequence number.
fn refuse(s: Session, error: NdmpError, out: &mut [u8]) -> Answer
    requires { least_room ≤ length out.old }
    ensures { (image variables : List ℕ) → CallTold (saying (refused (error_of (number_of error))) (held s image variables)) result image variables out.old out.new }
{
    let len = wire_rmt_writing::put_refused(out, 0, error.number());
    Answer {
        code: 0,
        len,
        session: s,
    }
}

// An accepted command, with the session and the image after it.
fn tell(s: Session, reply: Reply, image: &[u8], out: &mut [u8]) -> Answer
    requires { (least_room ≤ length out.old) × Sendable reply image.now }
    ensures { (variables : List ℕ) → CallTold (saying (rmt_reply reply image.now) (held s image.now variables)) result image.now variables out.old out.new }
{
    let len = put_reply(out, reply, image);
    Answer {
        code: 0,
        len,
        session: s,
    }
}

// A command of a client that is logged in, through the rules of the tape.
fn work(s: Session, q: TapeRequest, image: &mut [u8], command: &[u8], out: &mut [u8]) -> Answer
    requires { (least_room ≤ length out.old) × texts_within command.now (Request.Tape q) }
    ensures { (variables : List ℕ) → CallTold (replied (held s image.old variables) (outcome (held s image.old variables) bare (in_record command.now) (Request.Tape q))) result image.new variables out.old out.new }
{
    match serve_tape::serve(s.changer.slots[0], s.mover.state, s.tape, image, q, command) {
        Ok(accepted) => tell(s.with_tape(accepted.next), accepted.reply, image, out),
        Err(error) => refuse(s, error, out),
    }
}

// A command on an open session. What does not read is refused first, and then who has not logged in.
fn obey(s: Session, image: &mut [u8], command: &[u8], out: &mut [u8]) -> Answer
    requires { least_room ≤ length out.old }
    ensures { (variables : List ℕ) → CallTold (replied (held s image.old variables) (said (held s image.old variables) command.now)) result image.new variables out.old out.new }
{
    let Some(read) = wire_rmt_reading::command(command) else {
        return refuse(s, NdmpError::Undecodable, out);
    };
    if !s.login.authorized {
        return refuse(s, NdmpError::NotAuthorized, out);
    }
    work(s, tape_request(read), image, command, out)
}

// One command: the session, the cartridge, the whole command, a write with its data, and the output.
pub fn rmt(s: Session, image: &mut [u8], command: &[u8], out: &mut [u8]) -> Answer
    ensures { (variables : List ℕ) → CallTold (commanded (held s image.old variables) (length out.old) command.now) result image.new variables out.old out.new }
{
    if let Err(stop) = serve_relation::guard(s, out.len()) {
        return call_sending::quiet(stop.code(), s);
    }
    obey(s, image, command, out)
}
