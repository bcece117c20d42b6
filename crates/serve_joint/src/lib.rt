// The joint requests: those that read or change both ends.
#![tactic(auto)]

ghost use Rattle.std.specs.Prelude.{◌≡◌, false, [], ◌∷◌, eqb};
ghost use Rattle.codes.specs.Codes.{local_address, tcp_address, illegal_state};
ghost use Rattle.xdr.specs.Choose.{choose};
ghost use Rattle.rules_parts.specs.Names.{data_connect_error};
ghost use Rattle.rules_parts.specs.Parts.{mover_partnered};
ghost use Rattle.rules.specs.Judge.{test, accept, judge};
ghost use Rattle.wire_replies.specs.declared.Reply.TheVariants.{Plain};
ghost use Rattle.rules.specs.Joint.{joined, source_joined, mover_joins, halted, mover_alone, data_connect, mover_connect, at_rest, data_aborted, data_abort, mover_abort, mover_close, joint_step};
ghost use Rattle.rules.specs.Served.{outcome_of};

use codes::NdmpError;
use rules::{Accepted, Ends, Served};
use rules_parts::types::{Data, Mover, Tape};
use wire_replies::Reply;
use wire_requests::JointRequest;

// Both ends where neither halts.
fn go_on(source: Data, mover: Mover) -> Ends
    ensures { result ≡ record { source = source; mover = mover; dwhy = 0; mwhy = 0 } }
{
    Ends {
        source,
        mover,
        dwhy: 0,
        mwhy: 0,
    }
}

// Both ends joined, with the tape at a position. The ends stand apart here and below, as the definitions have them: a struct of both would be
// taken apart at once.
fn join(d: Data, m: Mover, mode: u32, position: usize) -> Ends
    ensures { result ≡ joined d m mode position }
{
    let source = d.goes(Data::CONNECTED, codes::LOCAL_ADDRESS);
    let mover = m.runs(mode, codes::LOCAL_ADDRESS, position);
    go_on(source, mover)
}

// Both ends halted, each for its reason.
fn halt(dwhy: u32, mwhy: u32, d: Data, m: Mover) -> Ends
    ensures { result ≡ halted dwhy mwhy d m }
{
    Ends {
        source: d.halts(dwhy),
        mover: m.halts(mwhy),
        dwhy,
        mwhy,
    }
}

// Whether an end waits for a connect by LOCAL, by that end's number of LISTEN.
#[tactic(auto, unfolding(xdr::specs::Choose::choose))]
fn is_awaiting(address: u32, state: u32, listening: u32) -> bool
    ensures { result ≡ choose (eqb address local_address) (eqb state listening) false }
{
    address == codes::LOCAL_ADDRESS && state == listening
}

// Data joined: by TCP alone, by LOCAL with the mover. The mover's twin below joins another end, in a mode that is asked for: one function would test which.
#[tactic(auto, unfolding(xdr::specs::Choose::choose))]
fn data_connected(d: Data, m: Mover, address: u32, position: usize) -> Ends
    ensures { result ≡ choose (eqb address tcp_address) (source_joined d m) (joined d m m.mode position) }
{
    if address == codes::TCP_ADDRESS {
        let source = d.goes(Data::CONNECTED, codes::TCP_ADDRESS);
        go_on(source, m)
    } else {
        join(d, m, m.mode, position)
    }
}

#[tactic(auto, unfolding(xdr::specs::Choose::choose, rules::specs::Judge::judge, rules::specs::Joint::data_connect, rules::specs::Joint::mover_awaits))]
fn data_connect(d: Data, m: Mover, t: Tape, address: u32, count: u32, made: bool) -> Served<Ends>
    ensures { outcome_of result ≡ data_connect d m t address count made }
{
    if d.state != Data::IDLE {
        return Err(NdmpError::IllegalState);
    }
    if serve_address::is_connect_wrong(address, count) {
        return Err(NdmpError::IllegalArguments);
    }
    let awaited = is_awaiting(m.address, m.state, Mover::LISTEN);
    if serve_address::is_unmet(address, awaited, made) {
        return Err(NdmpError::OtherNotListening);
    }
    let next = data_connected(d, m, address, t.position);
    Ok(Accepted {
        reply: Reply::Plain,
        next,
    })
}

// The mover joined: by TCP alone, by LOCAL with data.
#[tactic(auto, unfolding(xdr::specs::Choose::choose))]
fn mover_connected(d: Data, m: Mover, mode: u32, address: u32, position: usize) -> Ends
    ensures { result ≡ choose (eqb address tcp_address) (mover_joins d m mode position) (joined d m mode position) }
{
    if address == codes::TCP_ADDRESS {
        let mover = m.runs(mode, codes::TCP_ADDRESS, position);
        go_on(d, mover)
    } else {
        join(d, m, mode, position)
    }
}

#[tactic(auto, unfolding(xdr::specs::Choose::choose, rules::specs::Judge::judge, rules::specs::Joint::mover_connect, rules::specs::Joint::data_awaits))]
fn mover_connect(
    d: Data,
    m: Mover,
    t: Tape,
    mode: u32,
    address: u32,
    count: u32,
    made: bool,
) -> Served<Ends>
    ensures { outcome_of result ≡ mover_connect d m t mode address count made }
{
    let wrong = serve_address::is_connect_wrong(address, count);
    serve_tests::judge_join(m, t, mode, wrong)?;
    let awaited = is_awaiting(d.address, d.state, Data::LISTEN);
    if serve_address::is_unmet(address, awaited, made) {
        return Err(NdmpError::OtherNotListening);
    }
    let next = mover_connected(d, m, mode, address, t.position);
    Ok(Accepted {
        reply: Reply::Plain,
        next,
    })
}

// Whether an end is IDLE or HALTED, by the numbers of that end.
#[tactic(auto, unfolding(xdr::specs::Choose::choose, rules::specs::Joint::at_rest))]
fn is_at_rest(state: u32, idle: u32, halted: u32) -> bool
    ensures { result ≡ at_rest state idle halted }
{
    state == idle || state == halted
}

// Data aborted, and the mover with it where they are joined with each other.
#[tactic(auto, unfolding(xdr::specs::Choose::choose, rules::specs::Joint::data_aborted))]
fn data_aborted(d: Data, m: Mover) -> Ends
    ensures { result ≡ data_aborted d m }
{
    if d.is_partnered() {
        return halt(Data::ABORTED, Mover::CONNECT_CLOSED, d, m);
    }
    Ends {
        source: d.halts(Data::ABORTED),
        mover: m,
        dwhy: Data::ABORTED,
        mwhy: 0,
    }
}

// An abort or a close, which the state of its end may forbid.
#[tactic(auto, unfolding(xdr::specs::Choose::choose, rules::specs::Judge::judge))]
fn halt_unless(forbidden: bool, next: Ends) -> Served<Ends>
    ensures { outcome_of result ≡ judge (test forbidden illegal_state ∷ []) (accept Plain next) }
{
    if forbidden {
        return Err(NdmpError::IllegalState);
    }
    Ok(Accepted {
        reply: Reply::Plain,
        next,
    })
}

#[tactic(auto, unfolding(rules::specs::Joint::data_abort))]
fn data_abort(d: Data, m: Mover) -> Served<Ends>
    ensures { outcome_of result ≡ data_abort d m }
{
    let resting = is_at_rest(d.state, Data::IDLE, Data::HALTED);
    halt_unless(resting, data_aborted(d, m))
}

// The mover halted for a reason, and data with it where they are joined with each other.
#[tactic(auto, unfolding(xdr::specs::Choose::choose))]
fn mover_halted(why: u32, d: Data, m: Mover) -> Ends
    ensures { result ≡ choose (mover_partnered m) (halted data_connect_error why d m) (mover_alone why d m) }
{
    if m.is_partnered() {
        return halt(Data::CONNECT_ERROR, why, d, m);
    }
    Ends {
        source: d,
        mover: m.halts(why),
        dwhy: 0,
        mwhy: why,
    }
}

#[tactic(auto, unfolding(rules::specs::Joint::mover_abort, rules::specs::Joint::mover_aborted))]
fn mover_abort(d: Data, m: Mover) -> Served<Ends>
    ensures { outcome_of result ≡ mover_abort d m }
{
    let resting = is_at_rest(m.state, Mover::IDLE, Mover::HALTED);
    halt_unless(resting, mover_halted(Mover::ABORTED, d, m))
}

#[tactic(auto, unfolding(rules::specs::Joint::mover_close, rules::specs::Joint::mover_closed))]
fn mover_close(d: Data, m: Mover) -> Served<Ends>
    ensures { outcome_of result ≡ mover_close d m }
{
    let unpaused = m.state != Mover::PAUSED;
    halt_unless(unpaused, mover_halted(Mover::CONNECT_CLOSED, d, m))
}

// A joint request, and whether the connection of a connect by TCP was made.
#[tactic(auto, unfolding(rules::specs::Joint::joint_step))]
pub fn serve(d: Data, m: Mover, t: Tape, q: JointRequest, made: bool) -> Served<Ends>
    ensures { outcome_of result ≡ joint_step d m t q made }
{
    match q {
        JointRequest::DataAbort => data_abort(d, m),
        JointRequest::DataConnect(address, count) => data_connect(d, m, t, address, count, made),
        JointRequest::MoverAbort => mover_abort(d, m),
        JointRequest::MoverClose => mover_close(d, m),
        JointRequest::MoverConnect(mode, address, count) => {
            mover_connect(d, m, t, mode, address, count, made)
        }
    }
}
