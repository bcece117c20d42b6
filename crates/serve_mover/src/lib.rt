// The requests of the mover that are not joint.
#![tactic(auto)]

ghost use Rattle.std.specs.Prelude.{◌≡◌};
ghost use Rattle.rules.specs.MoverService.{record_number, mover_state, mover_listen, mover_continue, mover_stop, set_window, mover_read, set_size, mover_step};
ghost use Rattle.rules.specs.Served.{outcome_of};

use codes::NdmpError;
use rules::{Accepted, Served};
use rules_parts::types::{Mover, Tape};
use wire_replies::{MoverView, Reply};
use wire_requests::MoverRequest;

// The record number that is told.
#[tactic(auto, unfolding(xdr::specs::Choose::choose, rules::specs::MoverService::record_number))]
fn record_number(moved: u64, size: u32) -> u32
    ensures { result ≡ record_number moved size }
{
    if size == 0 {
        0
    } else {
        (moved / size as u64 % 4294967296) as u32
    }
}

#[tactic(auto, unfolding(xdr::specs::Choose::choose, rules::specs::Judge::judge, rules::specs::MoverService::mover_state))]
fn get_state(m: Mover) -> Served<Mover>
    ensures { outcome_of result ≡ mover_state m }
{
    let view = MoverView {
        mode: m.mode,
        state: m.state,
        pause: rules_parts::told_in(Mover::PAUSED, m.state, m.pause),
        halt: rules_parts::told_in(Mover::HALTED, m.state, m.halt),
        size: m.size,
        address: m.address,
        number: record_number(m.moved, m.size),
        moved: m.moved,
        seek: m.seek,
        left: m.left,
        offset: m.offset,
        length: m.length,
    };
    Ok(Accepted {
        reply: Reply::MoverState(view),
        next: m,
    })
}

#[tactic(auto, unfolding(xdr::specs::Choose::choose, rules::specs::Judge::judge, rules::specs::MoverService::mover_listen))]
fn listen(m: Mover, t: Tape, mode: u32, address: u32, list: &[u8]) -> Served<Mover>
    ensures { outcome_of result ≡ mover_listen m t mode address list.now }
{
    let wrong = serve_address::is_listen_wrong(address, list);
    serve_tests::judge_join(m, t, mode, wrong)?;
    let reply = serve_address::listening(address);
    let next = m.listens(mode, address);
    Ok(Accepted { reply, next })
}

#[tactic(auto, unfolding(xdr::specs::Choose::choose, rules::specs::Judge::judge, rules::specs::MoverService::mover_continue))]
fn go_on(m: Mover, t: Tape) -> Served<Mover>
    ensures { outcome_of result ≡ mover_continue m t }
{
    if !t.opened {
        return Err(NdmpError::NotOpen);
    }
    if m.state != Mover::PAUSED {
        return Err(NdmpError::IllegalState);
    }
    if Mover::is_unwritable(m.mode, t.writable) {
        return Err(NdmpError::PermissionDenied);
    }
    if m.length == 0 {
        return Err(NdmpError::Precondition);
    }
    let next = m.runs(m.mode, m.address, t.position);
    Ok(Accepted {
        reply: Reply::Plain,
        next,
    })
}

#[tactic(auto, unfolding(xdr::specs::Choose::choose, rules::specs::Judge::judge, rules::specs::MoverService::mover_stop))]
fn stop(m: Mover) -> Served<Mover>
    ensures { outcome_of result ≡ mover_stop m }
{
    if m.state != Mover::HALTED {
        return Err(NdmpError::IllegalState);
    }
    let next = m.rests();
    Ok(Accepted {
        reply: Reply::Plain,
        next,
    })
}

#[tactic(auto, unfolding(xdr::specs::Choose::choose, rules::specs::Judge::judge, rules::specs::MoverService::set_window))]
fn set_window(m: Mover, offset: u64, length: u64) -> Served<Mover>
    ensures { outcome_of result ≡ set_window m offset length }
{
    if serve_tests::is_busy(m.state) {
        return Err(NdmpError::IllegalState);
    }
    if m.size == 0 {
        return Err(NdmpError::Precondition);
    }
    if length == 0 || offset % m.size as u64 != 0 {
        return Err(NdmpError::IllegalArguments);
    }
    if Mover::is_length_wrong(m.size, offset, length)
        || serve_tests::is_elsewhere(m.state, m.mode, m.moved, offset)
    {
        return Err(NdmpError::IllegalArguments);
    }
    let next = m.windowed(offset, length);
    Ok(Accepted {
        reply: Reply::Plain,
        next,
    })
}

#[tactic(auto, unfolding(xdr::specs::Choose::choose, rules::specs::Judge::judge, rules::specs::MoverService::mover_read))]
fn mover_read(m: Mover, offset: u64, length: u64) -> Served<Mover>
    ensures { outcome_of result ≡ mover_read m offset length }
{
    if m.state != Mover::ACTIVE || m.mode != Mover::FROM_TAPE {
        return Err(NdmpError::IllegalState);
    }
    if length == 0 || Mover::is_past_top(offset, length) {
        return Err(NdmpError::IllegalArguments);
    }
    if m.left != 0 {
        return Err(NdmpError::ReadInProgress);
    }
    let next = m.seeks(offset, length);
    Ok(Accepted {
        reply: Reply::Plain,
        next,
    })
}

#[tactic(auto, unfolding(xdr::specs::Choose::choose, rules::specs::Judge::judge, rules::specs::MoverService::set_size))]
fn set_record_size(m: Mover, size: u32) -> Served<Mover>
    ensures { outcome_of result ≡ set_size m size }
{
    if m.state != Mover::IDLE {
        return Err(NdmpError::IllegalState);
    }
    if size == 0 || Mover::LARGEST_SIZE < size {
        return Err(NdmpError::IllegalArguments);
    }
    let next = m.sized(size);
    Ok(Accepted {
        reply: Reply::Plain,
        next,
    })
}

// A request of the mover, and the list that a listen by TCP is lent.
#[tactic(auto, unfolding(rules::specs::MoverService::mover_step))]
pub fn serve(m: Mover, t: Tape, q: MoverRequest, list: &[u8]) -> Served<Mover>
    ensures { outcome_of result ≡ mover_step m t q list.now }
{
    match q {
        MoverRequest::State => get_state(m),
        MoverRequest::Listen(mode, address) => listen(m, t, mode, address, list),
        MoverRequest::Continue => go_on(m, t),
        MoverRequest::Stop => stop(m),
        MoverRequest::Window(offset, length) => set_window(m, offset, length),
        MoverRequest::Read(offset, length) => mover_read(m, offset, length),
        MoverRequest::Size(size) => set_record_size(m, size),
    }
}
