// The calls of the session core. No call has a requires: it refuses.
// What a request of each service comes to is kept out of its callers: inlined, their frames add up on the stack.
#![tactic(auto)]

ghost use Rattle.std.specs.Prelude.{◌≡◌, ◌≤◌, false, List, [], ℕ, length, eqb};
ghost use Rattle.codes.specs.Codes.{store_length};
ghost use Rattle.codes.specs.Errors.{number_of};
ghost use Rattle.xdr.specs.Choose.{choose};
ghost use Rattle.xdr.specs.Xdr.{word};
ghost use Rattle.changer_elements.specs.Slots.{in_drive};
ghost use Rattle.changer_elements.specs.Status.{status_data};
ghost use Rattle.wire_frame.specs.Frame.{body_of};
ghost use Rattle.wire_requests.specs.Within.{texts_within};
ghost use Rattle.wire_requests.specs.declared.Request.{Request};
ghost use Rattle.wire_requests.specs.declared.Request.TheVariants as Request;
ghost use Rattle.wire_replies.specs.declared.Reply.TheVariants as Reply;
ghost use Rattle.rules.specs.Judge.{Accepts, onto};
ghost use Rattle.rules.specs.DataService.{data_step, data_shown};
ghost use Rattle.rules.specs.TapeService.{tape_step, mover_part_step};
ghost use Rattle.rules.specs.ScsiService.{scsi_step, scsi_shown};
ghost use Rattle.rules.specs.Joint.{joint_step};
ghost use Rattle.rules.specs.Connection.{connect_step, config_step};
ghost use Rattle.rules_parts.specs.Names.{least_room};
ghost use Rattle.rules.specs.Answer.{held, closing, replying, settled, answered, Answered, halting};
ghost use Rattle.rules.specs.Answer.{tape_part, with_data, with_part, with_tape, with_changer, with_login, with_ends};
ghost use Rattle.rules.specs.Answer.{request_in, outcome, is_unread, is_close, judged};
ghost use Rattle.rules.specs.Calls.{opening};
ghost use Rattle.rules.specs.Served.{outcome_of};
ghost use Rattle.call_sending.specs.Call.{CallTold, Ready};
ghost use Rattle.call_request.specs.Call.{lent, Sends};

use changer_elements::Asked;
use codes::NdmpError;
use rules::Served;
use rules_parts::types::{Answer, Login, Session};
use serve_changer::Accepted;
use wire_frame::Unframed;
use wire_replies::Reply;
use wire_requests::{
    ConfigRequest, ConnectRequest, DataRequest, JointRequest, MoverRequest, Request, ScsiRequest,
    TapeRequest,
};

// What is lent with a request for its answer: the accounts, the challenge to give a client that asks for one, the list that a listen by TCP answers,
// and whether the connection of a connect by TCP was made.
#[derive(Clone, Copy)]
struct Lent<'a> {
    accounts: &'a [u8],
    challenge: &'a [u8; 64],
    addresses: &'a [u8],
    made: bool,
}

// The room of a request call: the output's where the store is as long as it must be, and else none.
#[tactic(auto, unfolding(xdr::specs::Choose::choose))]
fn room_of(stored: usize, room: usize) -> usize
    ensures { result ≡ choose (eqb stored store_length) room 0 }
{
    if stored == codes::STORE_LENGTH {
        room
    } else {
        0
    }
}

// What the reply to an accepted data request shows bytes of: an environment the store, others the list.
#[tactic(auto, unfolding(rules::specs::DataService::data_shown))]
fn shown_of<'a>(q: DataRequest, list: &'a [u8], variables: &'a [u8]) -> &'a [u8]
    ensures { result.now ≡ data_shown q list.now variables.now }
{
    match q {
        DataRequest::Environment => variables,
        _ => list,
    }
}

// The calls of data, tape, mover and both ends are of one shape, but each has its own service, its own part of the session and its own bytes that the
// reply shows: a closure for each of the three would be longer than the match. None is inlined: the frames of all would add up on the stack.
#[inline(never)]
fn data_call(
    s: Session,
    q: DataRequest,
    addresses: &[u8],
    variables: &mut [u8],
    input: &[u8],
    time: u32,
    out: &mut [u8],
) -> Answer
    requires { Ready input.now out.old × texts_within (body_of input.now) (Request.Data q) × (length variables.old ≡ store_length) }
    ensures { (image : List ℕ) → CallTold (settled (held s image variables.old) time input.now (Request.Data q) (onto (with_data (held s image variables.old) q (body_of input.now) addresses.now) (data_step s.source q (body_of input.now) addresses.now variables.old))) result image variables.new out.old out.new }
{
    match serve_data::serve(s.source, q, &input[28..], addresses, variables) {
        Ok(accepted) => {
            let session = s.with_source(accepted.next);
            let shown = shown_of(q, addresses, variables);
            call_sending::finish(session, input, time, accepted.reply, shown, out)
        }
        Err(e) => call_sending::refuse(s, e.number(), input, time, out),
    }
}

// The reply to READ ELEMENT STATUS, which shows the elements. Nothing changes but the counter.
fn status_reply(s: Session, asked: Asked, input: &[u8], time: u32, out: &mut [u8]) -> Answer
    requires { Ready input.now out.old }
    ensures { (image variables : List ℕ) → CallTold (replying input.now time Reply.Elements (status_data asked s.changer.slots) (held s image variables)) result image variables out.old out.new }
{
    let mut status = [0u8; 152];
    let n = changer_status::write_status(&mut status, asked, s.changer.slots);
    call_sending::finish(s, input, time, Reply::Elements, &status[..n], out)
}

#[inline(never)]
fn scsi_call(s: Session, q: ScsiRequest, input: &[u8], time: u32, out: &mut [u8]) -> Answer
    requires { Ready input.now out.old × texts_within (body_of input.now) (Request.Scsi q) }
    ensures { (image variables : List ℕ) → CallTold (settled (held s image variables) time input.now (Request.Scsi q) (onto (with_changer (held s image variables) (scsi_shown q (body_of input.now) s.changer.slots)) (scsi_step s.tape.opened s.changer q (body_of input.now)))) result image variables out.old out.new }
{
    match serve_changer::serve(s.tape.opened, s.changer, q, &input[28..]) {
        Ok(Accepted::Replies(reply, next)) => {
            call_sending::finish(s.with_changer(next), input, time, reply, b"", out)
        }
        Ok(Accepted::Reports(asked)) => status_reply(s, asked, input, time, out),
        Err(e) => call_sending::refuse(s, e.number(), input, time, out),
    }
}

#[inline(never)]
fn tape_call(
    s: Session,
    q: TapeRequest,
    image: &mut [u8],
    input: &[u8],
    time: u32,
    out: &mut [u8],
) -> Answer
    requires { Ready input.now out.old × texts_within (body_of input.now) (Request.Tape q) }
    ensures { (variables : List ℕ) → CallTold (settled (held s image.old variables) time input.now (Request.Tape q) (onto (with_tape (held s image.old variables)) (tape_step (in_drive s.changer.slots) (tape_part (held s image.old variables)) q (body_of input.now)))) result image.new variables out.old out.new }
{
    let drive = s.changer.slots[0];
    match serve_tape::serve(drive, s.mover.state, s.tape, image, q, &input[28..]) {
        Ok(accepted) => {
            let session = s.with_tape(accepted.next);
            call_sending::finish(session, input, time, accepted.reply, image, out)
        }
        Err(e) => call_sending::refuse(s, e.number(), input, time, out),
    }
}

#[inline(never)]
fn mover_call(
    s: Session,
    q: MoverRequest,
    addresses: &[u8],
    input: &[u8],
    time: u32,
    out: &mut [u8],
) -> Answer
    requires { Ready input.now out.old }
    ensures { (image variables : List ℕ) → CallTold (settled (held s image variables) time input.now (Request.Mover q) (onto (with_part (held s image variables) addresses.now) (mover_part_step (tape_part (held s image variables)) q addresses.now))) result image variables out.old out.new }
{
    match serve_mover::serve(s.mover, s.tape, q, addresses) {
        Ok(accepted) => {
            let session = s.with_mover(accepted.next);
            call_sending::finish(session, input, time, accepted.reply, addresses, out)
        }
        Err(e) => call_sending::refuse(s, e.number(), input, time, out),
    }
}

// The notices of what halted behind a reply. Most requests halt nothing: then the answer goes back without a copy. The
// test stands here: in `halts` itself it took the moves, which call that too, from 1,848 bytes of stack to 2,632.
#[inline(always)]
fn with_halts(sent: Answer, time: u32, dwhy: u32, mwhy: u32, out: &mut [u8]) -> Answer
    requires { (sent.len ≤ 35000) × (least_room ≤ length out.old) }
    ensures { (a : Answered) (image variables l : List ℕ) → CallTold a sent image variables l out.old → CallTold (halting time dwhy mwhy a) result image variables l out.new }
{
    if dwhy == 0 && mwhy == 0 {
        return sent;
    }
    call_sending::halts(sent, time, dwhy, mwhy, out)
}

// A joint request, and the notices of what halted: data first, mover second.
#[inline(never)]
fn joint_call(
    s: Session,
    q: JointRequest,
    made: bool,
    input: &[u8],
    time: u32,
    out: &mut [u8],
) -> Answer
    requires { Ready input.now out.old }
    ensures { (image variables : List ℕ) → CallTold (settled (held s image variables) time input.now (Request.Joint q) (onto (with_ends (held s image variables)) (joint_step s.source s.mover s.tape q made))) result image variables out.old out.new }
{
    match serve_joint::serve(s.source, s.mover, s.tape, q, made) {
        Ok(accepted) => {
            let ends = accepted.next;
            let session = s.with_source(ends.source).with_mover(ends.mover);
            let sent = call_sending::finish(session, input, time, accepted.reply, b"", out);
            with_halts(sent, time, ends.dwhy, ends.mwhy, out)
        }
        Err(e) => call_sending::refuse(s, e.number(), input, time, out),
    }
}

// What CONNECT or CONFIG came to, answered, with what the reply may show.
#[inline(never)]
fn login_call(
    s: Session,
    done: Served<Login>,
    shown: &[u8],
    input: &[u8],
    time: u32,
    out: &mut [u8],
) -> Answer
    requires { Ready input.now out.old × Accepts (Sends shown.now) (outcome_of done) }
    ensures { (image variables : List ℕ) (q : Request) → is_unread q ≡ false → CallTold (settled (held s image variables) time input.now q (onto (with_login (held s image variables) shown.now) (outcome_of done))) result image variables out.old out.new }
{
    match done {
        Ok(accepted) => {
            let session = s.with_login(accepted.next);
            call_sending::finish(session, input, time, accepted.reply, shown, out)
        }
        Err(e) => call_sending::refuse(s, e.number(), input, time, out),
    }
}

// CONNECT; an accepted close has no reply.
#[inline(never)]
fn connect_call(
    s: Session,
    q: ConnectRequest,
    accounts: &[u8],
    input: &[u8],
    time: u32,
    out: &mut [u8],
) -> Answer
    requires { Ready input.now out.old × texts_within (body_of input.now) (Request.Connect q) }
    ensures { (image variables : List ℕ) → CallTold (choose (is_close (Request.Connect q)) (closing (held s image variables)) (settled (held s image variables) time input.now (Request.Connect q) (onto (with_login (held s image variables) []) (connect_step s.first s.login accounts.now q (body_of input.now))))) result image variables out.old out.new }
{
    if serve_connect::is_close(q) {
        return call_sending::shut(s);
    }
    let done = serve_connect::serve(s.first, s.login, q, &input[28..], accounts);
    login_call(s, done, b"", input, time, out)
}

// CONFIG, whose reply may show the challenge that is given.
#[inline(never)]
fn config_call(
    s: Session,
    q: ConfigRequest,
    challenge: &[u8; 64],
    input: &[u8],
    time: u32,
    out: &mut [u8],
) -> Answer
    requires { Ready input.now out.old }
    ensures { (image variables : List ℕ) → CallTold (settled (held s image variables) time input.now (Request.Config q) (onto (with_login (held s image variables) challenge.now) (config_step s.login challenge.now q))) result image variables out.old out.new }
{
    let judged = serve_connect::config(s.login, q);
    let done = serve_connect::with_challenge(s.login, challenge, judged);
    login_call(s, done, challenge, input, time, out)
}

// A record that is no request of any service, refused in the header.
#[inline(never)]
fn header_call(s: Session, error: NdmpError, input: &[u8], time: u32, out: &mut [u8]) -> Answer
    requires { Ready input.now out.old }
    ensures { (image variables : List ℕ) → CallTold (replying input.now time (Reply.Header (number_of error)) [] (held s image variables)) result image variables out.old out.new }
{
    call_sending::finish(s, input, time, Reply::Header(error.number()), b"", out)
}

// A request that is not locked, at its service. The record and its time stay apart: of a struct each of the calls above would first take them out, as
// `Lent` is here.
fn serve_call(
    s: Session,
    q: Request,
    l: Lent,
    image: &mut [u8],
    variables: &mut [u8],
    input: &[u8],
    time: u32,
    out: &mut [u8],
) -> Answer
    requires { Ready input.now out.old × texts_within (body_of input.now) q × (length variables.old ≡ store_length) }
    ensures { CallTold (choose (is_close q) (closing (held s image.old variables.old)) (settled (held s image.old variables.old) time input.now q (outcome (held s image.old variables.old) (lent l.entry.accounts.now l.entry.challenge.now l.entry.addresses.now l.entry.made time out.old) input.now q))) result image.new variables.new out.old out.new }
{
    let Lent {
        accounts,
        challenge,
        addresses,
        made,
    } = l;
    match q {
        Request::Connect(x) => connect_call(s, x, accounts, input, time, out),
        Request::Config(x) => config_call(s, x, challenge, input, time, out),
        Request::Scsi(x) => scsi_call(s, x, input, time, out),
        Request::Tape(x) => tape_call(s, x, image, input, time, out),
        Request::Data(x) => data_call(s, x, addresses, variables, input, time, out),
        Request::Mover(x) => mover_call(s, x, addresses, input, time, out),
        Request::Joint(x) => joint_call(s, x, made, input, time, out),
        Request::Unknown => header_call(s, NdmpError::NotSupported, input, time, out),
        Request::Bad => header_call(s, NdmpError::Undecodable, input, time, out),
    }
}

// A well-framed request: decoded once, and judged.
fn framed_call(
    s: Session,
    message: u32,
    l: Lent,
    image: &mut [u8],
    variables: &mut [u8],
    input: &[u8],
    time: u32,
    out: &mut [u8],
) -> Answer
    requires { Ready input.now out.old × (message ≡ word input.now 16) × (length variables.old ≡ store_length) }
    ensures { CallTold (judged (held s image.old variables.old) (lent l.entry.accounts.now l.entry.challenge.now l.entry.addresses.now l.entry.made time out.old) input.now (request_in input.now)) result image.new variables.new out.old out.new }
{
    let kind = wire_frame::row_of(message).kind;
    let q = wire_decoding::decode(kind, &input[28..]);
    if serve_connect::is_locked(s.login, q) {
        return call_sending::refuse(s, NdmpError::NotAuthorized.number(), input, time, out);
    }
    serve_call(s, q, l, image, variables, input, time, out)
}

// A new session with a slot list: the notice of the connection status is its message 1.
pub fn open(slots: [u32; 9], time: u32, out: &mut [u8]) -> Answer
    ensures { CallTold (opening slots time (length out.old)) result [] [] out.old out.new }
{
    call_sending::begin(slots, time, out)
}

// One request: the session, the accounts, the challenge to give a client that asks for one, the list that a listen by TCP answers, whether the
// connection of a connect by TCP was made, the cartridge, the store of the environment, the record, the time stamp and the output.
pub fn request(
    s: Session,
    accounts: &[u8],
    challenge: &[u8; 64],
    addresses: &[u8],
    made: bool,
    image: &mut [u8],
    variables: &mut [u8],
    input: &[u8],
    time: u32,
    out: &mut [u8],
) -> Answer
    ensures { CallTold (answered (held s image.old variables.old) (lent accounts.now challenge.now addresses.now made time out.old) input.now) result image.new variables.new out.old out.new }
{
    let room = room_of(variables.len(), out.len());
    if let Err(stop) = serve_relation::guard(s, room) {
        return call_sending::quiet(stop.code(), s);
    }
    match wire_frame::read_frame(input) {
        Ok(frame) => {
            let l = Lent {
                accounts,
                challenge,
                addresses,
                made,
            };
            framed_call(s, frame.message, l, image, variables, input, time, out)
        }
        Err(Unframed::Broken) => call_sending::shut(s),
        Err(Unframed::NotRequest) => call_sending::quiet(0, s),
    }
}
