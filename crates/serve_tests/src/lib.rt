// Tests of the mover: what listen and connect both ask of it, and whether it is at rest for a window and where that may begin.
#![tactic(auto)]

ghost use Rattle.std.specs.Prelude.{◌≡◌};
ghost use Rattle.rules.specs.Judge.{first};
ghost use Rattle.rules.specs.Served.{error_told};
ghost use Rattle.rules.specs.MoverService.{offset_wrong, join_tests, busy, elsewhere};

use codes::NdmpError;
use rules_parts::types::{Mover, Tape};

// Whether a mode begins at 0, and the window does not.
#[tactic(auto, unfolding(xdr::specs::Choose::choose, rules::specs::MoverService::offset_wrong))]
pub fn is_offset_wrong(mode: u32, offset: u64) -> bool
    ensures { result ≡ offset_wrong mode offset }
{
    mode == Mover::TO_TAPE && offset != 0
}

// What listen and connect both ask of the mover, with whether the address is wrong: the error of the first test that applies.
#[tactic(auto, unfolding(xdr::specs::Choose::choose, rules::specs::Judge::first))]
pub fn judge_join(m: Mover, t: Tape, mode: u32, wrong: bool) -> Result<(), NdmpError>
    ensures { error_told result ≡ first (join_tests m t mode wrong) }
{
    if !t.opened {
        return Err(NdmpError::NotOpen);
    }
    if m.state != Mover::IDLE {
        return Err(NdmpError::IllegalState);
    }
    if Mover::is_unwritable(mode, t.writable) {
        return Err(NdmpError::PermissionDenied);
    }
    if m.size == 0 || m.length == 0 || is_offset_wrong(mode, m.offset) {
        return Err(NdmpError::Precondition);
    }
    if wrong || Mover::FROM_TAPE < mode {
        return Err(NdmpError::IllegalArguments);
    }
    Ok(())
}

// Whether it is neither IDLE nor PAUSED.
#[tactic(auto, unfolding(xdr::specs::Choose::choose, rules::specs::MoverService::busy))]
pub fn is_busy(state: u32) -> bool
    ensures { result ≡ busy state }
{
    state != Mover::IDLE && state != Mover::PAUSED
}

// Whether a window would leave a gap in what is written.
#[tactic(auto, unfolding(xdr::specs::Choose::choose, rules::specs::MoverService::elsewhere))]
pub fn is_elsewhere(state: u32, mode: u32, moved: u64, offset: u64) -> bool
    ensures { result ≡ elsewhere state mode moved offset }
{
    state == Mover::PAUSED && mode == Mover::TO_TAPE && offset != moved
}
