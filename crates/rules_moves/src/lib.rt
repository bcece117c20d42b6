// Moving bytes: what a move comes to, and what holds of moves. The definitions are in specs/; the code stands in the crates above.
#![tactic(auto)]

ghost use Rattle.rules_moves.specs.RecoverCases.{RecoverCasesHold};
ghost use Rattle.rules_moves.specs.Endless.{EndlessMoves};
ghost use Rattle.rules_moves.specs.Sequence.{WindowHolds};
ghost use Rattle.rules_moves.specs.Keeping.{MovesKeep};
ghost use Rattle.rules_moves.specs.Counts.{CountsHold};
ghost use Rattle.rules_moves.specs.Modes.{EachItsMode};
ghost use Rattle.rules_moves.specs.FirstSize.{FirstSize};
ghost use Rattle.rules_moves.specs.TcpCases.{TcpCasesHold};
ghost use Rattle.rules_moves.specs.Apart.{TcpApart};
ghost use Rattle.rules_moves.specs.TcpMoves.{TcpMoves};
ghost use Rattle.rules_moves.specs.StoreLeft.{StoreLeft};
ghost use Rattle.rules_moves.specs.SessionLeft.{SessionLeft};

use rules_parts::types::{Data, Mover, Tape};

// What a move comes to: the bytes taken or handed over; why the data end and the mover halted and why the mover paused, each 0 where it
// did not; and the parts of the session after it. The reasons are NDMP's, in which 0 is none, as in the session that C hands in.
#[derive(Clone, Copy, Debug, PartialEq, Eq)]
pub struct Move {
    pub count: usize,
    pub dwhy: u32,
    pub mwhy: u32,
    pub pause: u32,
    pub source: Data,
    pub mover: Mover,
    pub tape: Tape,
}

// What a walk over the tape's entries comes to: the record that is sought, the position after a mark, or the end.
#[derive(Clone, Copy, Debug, PartialEq, Eq)]
pub enum Found {
    Target(usize),
    Mark(usize),
    End,
}

// No work: its contract is a list of cases in one statement: recovers, and moves at marks, ends and faults.
pub fn recover_cases_hold()
    ensures { RecoverCasesHold }
{}

// No work: its contract is what rule (4) and the counts come to in windows with no end.
pub fn endless_moves()
    ensures { EndlessMoves }
{}

// No work: its contract is that no byte is moved outside the window in force, over any sequence of calls.
pub fn window_holds()
    ensures { WindowHolds }
{}

// No work: its contract is what moves and the method's end keep, and what they leave where they are refused.
pub fn moves_keep()
    ensures { MovesKeep }
{}

// No work: its contract is what bytes moved, bytes processed and the record number are after any sequence of moves.
pub fn counts_hold()
    ensures { CountsHold }
{}

// No work: its contract is that each of the two moves does nothing in the other's mode.
pub fn each_its_mode()
    ensures { EachItsMode }
{}

// No work: its contract is that a session begins with a record size and has one after any sequence of calls, and what one without is told.
pub fn first_size()
    ensures { FirstSize }
{}

// No work: its contract is a list of cases of ends by TCP, in one statement.
pub fn tcp_cases_hold()
    ensures { TcpCasesHold }
{}

// No work: its contract is that what happens to one end by TCP never changes the other.
pub fn tcp_apart()
    ensures { TcpApart }
{}

// No work: its contract is what moves and events of an end by TCP come to.
pub fn tcp_moves()
    ensures { TcpMoves }
{}

// No work: its contract is that calls that are not lent the store leave it.
pub fn store_left()
    ensures { StoreLeft }
{}

// No work: its contract is that calls without a request leave the login, the marks of the session and the changer.
pub fn session_left()
    ensures { SessionLeft }
{}
