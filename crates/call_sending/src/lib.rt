// What a call returns, and how it comes about: a reply, a refusal, the notices behind it, or nothing. For the calls of the crates above.
#![tactic(auto)]

ghost use Rattle.std.specs.Prelude.{◌≡◌, List, [], ℕ, ◌+◌, ◌≤◌, length};
ghost use Rattle.wire_replies.specs.Fit.{Sendable};
ghost use Rattle.rules_parts.specs.Names.{least_room};
ghost use Rattle.rules.specs.Answer.{held, Answered, silent, closing, replying, refused_in, noticed, halting};
ghost use Rattle.rules.specs.Calls.{unopened_session, opening};
ghost use Rattle.call_sending.specs.Call.{CallTold, Ready};

use rules_parts::types::{Answer, Session};
use wire_replies::{Notice, Reply};

// The reply to a record, and the session counted. For every service. Inlined, so that the frame of its caller serves it too.
// The record, the time stamp and the output are no struct: the output is lent on to the notices, so it would be taken apart at once, and contracts name each.
#[inline(always)]
pub fn finish(
    next: Session,
    input: &[u8],
    time: u32,
    reply: Reply,
    seen: &[u8],
    out: &mut [u8],
) -> Answer
    requires { Ready input.now out.old × Sendable reply seen.now }
    ensures { (result.len ≤ 32804) × ((image variables : List ℕ) → CallTold (replying input.now time reply seen.now (held next image variables)) result image variables out.old out.new) }
{
    let message = xdr::read_word(input, 16);
    let echo = xdr::read_word(input, 4);
    let len = wire_writing::write_reply(out, next.sequence, time, message, echo, reply, seen);
    let session = next.after_message(false);
    Answer {
        code: 0,
        len,
        session,
    }
}

// A refused request, of any message: its number among zero words, as the row of the message says, and the session as it was but counted.
// Any number may be handed on, so it is no NdmpError: a public function asks no less.
pub fn refuse(s: Session, error: u32, input: &[u8], time: u32, out: &mut [u8]) -> Answer
    requires { Ready input.now out.old }
    ensures { (image variables : List ℕ) → CallTold (replying input.now time (refused_in input.now error) [] (held s image variables)) result image variables out.old out.new }
{
    let message = xdr::read_word(input, 16);
    let row = wire_frame::row_of(message);
    finish(
        s,
        input,
        time,
        Reply::Refused(row.before, error, row.after),
        b"",
        out,
    )
}

// A notice behind what was sent, where there is a reason for one: in NDMP 0 is none. That the output has room each contract asks, and no type's
// invariant: it is the caller's slice, and what it holds after a call is said of it by name.
pub fn notify(sent: Answer, time: u32, why: u32, notice: Notice, out: &mut [u8]) -> Answer
    requires { (sent.len ≤ 36000) × (least_room ≤ length out.old) }
    ensures { (result.len ≤ sent.len + 40) × ((a : Answered) (image variables l : List ℕ) → CallTold a sent image variables l out.old → CallTold (noticed time why notice a) result image variables l out.new) }
{
    if why == 0 {
        return sent;
    }
    let s = sent.session;
    let len = wire_writing::write_notice(out, sent.len, s.sequence, time, notice);
    let session = s.after_message(s.first);
    Answer {
        code: sent.code,
        len,
        session,
    }
}

// The notices of what halted behind what was sent: data first, mover second.
pub fn halts(sent: Answer, time: u32, dwhy: u32, mwhy: u32, out: &mut [u8]) -> Answer
    requires { (sent.len ≤ 35000) × (least_room ≤ length out.old) }
    ensures { (result.len ≤ sent.len + 80) × ((a : Answered) (image variables l : List ℕ) → CallTold a sent image variables l out.old → CallTold (halting time dwhy mwhy a) result image variables l out.new) }
{
    let told = notify(sent, time, dwhy, Notice::DataHalted(dwhy), out);
    notify(told, time, mwhy, Notice::MoverHalted(mwhy), out)
}

// Nothing is sent and nothing changes.
pub fn quiet(code: u32, s: Session) -> Answer
    ensures { (image variables l : List ℕ) → CallTold (silent code (held s image variables)) result image variables l l }
{
    Answer {
        code,
        len: 0,
        session: s,
    }
}

// A refused open: a session that was never opened, closed and with an empty slot list.
fn unopened(code: u32) -> Answer
    ensures { (l : List ℕ) → CallTold (silent code (held unopened_session [] [])) result [] [] l l }
{
    let session = Session::begins(true, 1, [0; 9]);
    quiet(code, session)
}

// A new session with a slot list: the notice of the connection status is its message 1.
pub fn begin(slots: [u32; 9], time: u32, out: &mut [u8]) -> Answer
    ensures { CallTold (opening slots time (length out.old)) result [] [] out.old out.new }
{
    if out.len() < codes::LARGEST_MESSAGE {
        return unopened(codes::SHORT_OUTPUT);
    }
    if !changer_moves::names_none_twice(slots) {
        return unopened(codes::BROKEN_SESSION);
    }
    let len = wire_writing::write_notice(out, 0, 1, time, Notice::Connected);
    let session = Session::begins(false, 2, slots);
    Answer {
        code: 0,
        len,
        session,
    }
}

// The session is closed, with no reply.
pub fn shut(s: Session) -> Answer
    ensures { (image variables l : List ℕ) → CallTold (closing (held s image variables)) result image variables l l }
{
    Answer {
        code: 0,
        len: 0,
        session: s.shuts(),
    }
}
