// The relation of a session, decided for any session: what every call keeps.
#![tactic(auto)]

ghost use Rattle.std.specs.Prelude.{◌≡◌, ◌+◌, ◌≤◌, ltb, Some, None};
ghost use Rattle.rules.specs.Answer.{guarded};
ghost use Rattle.rules_parts.specs.Parts.{window_end};
ghost use Rattle.rules.specs.Relation.{data_wrong, numbers_wrong, window_wrong, start_wrong, hold_wrong, strays, resume_wrong, place_wrong, origin_wrong, mover_wrong, drive_wrong, slots_wrong, keeps};
ghost use Rattle.serve_relation.specs.Stops.{code_of, stopped_by};

use rules_parts::types::{Data, Mover, Session, Tape};

// Why a call stops before all else, with nothing done: too little room for an answer, a session that breaks the relation, or a closed one.
#[derive(Clone, Copy, Debug, PartialEq, Eq)]
pub enum Stop {
    ShortOutput,
    BrokenSession,
    Closed,
}

impl Stop {
    // What the call returns.
    pub fn code(self) -> u32
        ensures { result ≡ code_of self }
    {
        match self {
            Stop::ShortOutput => codes::SHORT_OUTPUT,
            Stop::BrokenSession => codes::BROKEN_SESSION,
            Stop::Closed => 0,
        }
    }
}

#[tactic(auto, unfolding(rules::specs::Relation::data_wrong, xdr::specs::Choose::choose))]
fn is_data_wrong(d: Data) -> bool
    ensures { result ≡ data_wrong d }
{
    Data::CONNECTED < d.state || rules_parts::is_address_wrong(d.address, d.state == Data::IDLE)
}

#[tactic(auto, unfolding(rules::specs::Relation::numbers_wrong, xdr::specs::Choose::choose))]
fn are_numbers_wrong(m: Mover) -> bool
    ensures { result ≡ numbers_wrong m }
{
    Mover::HALTED < m.state
        || Mover::LARGEST_SIZE < m.size
        || rules_parts::is_address_wrong(m.address, m.state == Mover::IDLE)
        || Mover::is_past_top(m.seek, m.left)
}

#[tactic(auto, unfolding(rules::specs::Relation::window_wrong, xdr::specs::Choose::choose))]
fn is_window_wrong(m: Mover) -> bool
    ensures { result ≡ window_wrong m.size m.offset m.length }
{
    m.length != 0
        && (m.size == 0
            || m.offset % m.size as u64 != 0
            || Mover::is_length_wrong(m.size, m.offset, m.length))
}

#[tactic(auto, unfolding(rules::specs::Relation::start_wrong, xdr::specs::Choose::choose))]
fn is_start_wrong(m: Mover) -> bool
    ensures { result ≡ start_wrong m }
{
    m.state <= Mover::LISTEN && m.moved != 0
}

#[tactic(auto, unfolding(rules::specs::Relation::hold_wrong, xdr::specs::Choose::choose))]
fn is_hold_wrong(m: Mover, t: Tape) -> bool
    ensures { result ≡ hold_wrong m t }
{
    Mover::holds_tape(m.state)
        && (m.length == 0 || !t.opened || Mover::is_unwritable(m.mode, t.writable))
}

// Whether the bytes moved lie past the window's end; the sum itself could be too large.
#[tactic(auto, using(rules_parts::proofs::Ending::end_endless, rules_parts::proofs::Ending::end_other))]
fn is_beyond(m: Mover) -> bool
    requires { m.offset ≤ m.moved }
    ensures { result ≡ ltb (window_end m.offset m.length) m.moved }
{
    m.length != Mover::ENDLESS && m.length < m.moved - m.offset
}

#[tactic(auto, unfolding(rules::specs::Relation::strays, xdr::specs::Choose::choose))]
fn has_strayed(m: Mover) -> bool
    ensures { result ≡ strays m.size m.offset m.length m.moved }
{
    m.size == 0 || m.moved < m.offset || is_beyond(m) || m.moved % m.size as u64 != 0
}

#[tactic(auto, unfolding(rules::specs::Relation::place_wrong, xdr::specs::Choose::choose))]
fn is_place_wrong(m: Mover) -> bool
    ensures { result ≡ place_wrong m }
{
    if m.mode != Mover::TO_TAPE {
        return false;
    }
    match m.state {
        Mover::LISTEN => m.offset != 0,
        Mover::ACTIVE => has_strayed(m),
        Mover::PAUSED => is_resume_wrong(m),
        _ => false,
    }
}

#[tactic(auto, unfolding(rules::specs::Relation::resume_wrong, xdr::specs::Choose::choose))]
fn is_resume_wrong(m: Mover) -> bool
    ensures { result ≡ resume_wrong m.length m.offset m.moved }
{
    m.length != 0 && m.offset != m.moved
}

#[tactic(auto, unfolding(rules::specs::Relation::origin_wrong, xdr::specs::Choose::choose))]
fn is_origin_wrong(m: Mover, t: Tape) -> bool
    ensures { result ≡ origin_wrong m t }
{
    m.state == Mover::ACTIVE && t.position < m.origin
}

#[tactic(auto, unfolding(rules::specs::Relation::mover_wrong, xdr::specs::Choose::choose))]
fn is_mover_wrong(m: Mover, t: Tape) -> bool
    ensures { result ≡ mover_wrong m t }
{
    are_numbers_wrong(m)
        || is_window_wrong(m)
        || is_start_wrong(m)
        || is_hold_wrong(m, t)
        || is_place_wrong(m)
        || is_origin_wrong(m, t)
}

// Whether the tape is open, and no cartridge in the drive.
#[tactic(auto, unfolding(rules::specs::Relation::drive_wrong, xdr::specs::Choose::choose))]
fn is_drive_wrong(drive: u32, t: Tape) -> bool
    ensures { result ≡ drive_wrong drive t }
{
    t.opened && drive == 0
}

// The same, or the list names a cartridge twice.
#[tactic(auto, unfolding(rules::specs::Relation::slots_wrong, xdr::specs::Choose::choose))]
fn are_slots_wrong(slots: [u32; 9], t: Tape) -> bool
    ensures { result ≡ slots_wrong slots t }
{
    is_drive_wrong(slots[0], t) || !changer_moves::names_none_twice(slots)
}

// Whether a session keeps the relation.
#[tactic(auto, unfolding(rules::specs::Relation::keeps, rules::specs::Relation::same_flag, xdr::specs::Choose::choose))]
pub fn is_kept(s: Session) -> bool
    ensures { result ≡ keeps s }
{
    !is_data_wrong(s.source)
        && !is_mover_wrong(s.mover, s.tape)
        && !are_slots_wrong(s.changer.slots, s.tape)
        && s.source.is_partnered() == s.mover.is_partnered()
}

// What comes before any call.
#[tactic(auto, unfolding(rules::specs::Answer::guarded, xdr::specs::Choose::choose))]
pub fn guard(s: Session, room: usize) -> Result<(), Stop>
    ensures { stopped_by result ≡ guarded s room Some None }
{
    if room < codes::LARGEST_MESSAGE {
        return Err(Stop::ShortOutput);
    }
    if !is_kept(s) {
        return Err(Stop::BrokenSession);
    }
    if s.closed {
        return Err(Stop::Closed);
    }
    Ok(())
}
