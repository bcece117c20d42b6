// What a move comes to, by value, for the code that walks and copies; and the events: the method's end, a connection made and one lost. The
// definitions are those of rules_moves.
#![tactic(auto)]

ghost use Rattle.std.specs.Prelude.{◌≡◌, ◌+◌, ◌≤◌};
ghost use Rattle.rules_parts.specs.Names.{top};
ghost use Rattle.rules_moves.specs.Moves.{fed_with, still, pauses, halts, halts_source, halts_mover, halts_with, takes, hands, idle, method_end, source_made, mover_made, made_at, lost_at};

use rules_moves::Move;
use rules_parts::types::{Data, Mover, Session, Tape};

// The parts of a session that a move or an event changes.
#[derive(Clone, Copy, Debug, PartialEq, Eq)]
pub struct Parts {
    pub source: Data,
    pub mover: Mover,
    pub tape: Tape,
}

impl Parts {
    // The parts of a session.
    pub fn of(s: Session) -> Parts
        ensures source { result.source ≡ s.source }
        ensures mover { result.mover ≡ s.mover }
        ensures tape { result.tape ≡ s.tape }
    {
        Parts {
            source: s.source,
            mover: s.mover,
            tape: s.tape,
        }
    }

    // The mover is not ACTIVE in a mode, or the data end that it is joined with not ACTIVE in an operation: then nothing moves. By TCP a mover has no such end.
    #[tactic(auto, unfolding(rules_moves::specs::Moves::idle, xdr::specs::Choose::choose))]
    pub fn is_idle(self, mode: u32, operation: u32) -> bool
        ensures { result ≡ idle mode operation self.source self.mover }
    {
        let (d, m) = (self.source, self.mover);
        m.state != Mover::ACTIVE
            || m.mode != mode
            || m.address != codes::TCP_ADDRESS
                && (d.state != Data::ACTIVE || d.operation != operation)
    }

    // Nothing is moved, and nothing changes.
    pub fn stay(self) -> Move
        ensures { result ≡ still self.source self.mover self.tape }
    {
        Move {
            count: 0,
            dwhy: 0,
            mwhy: 0,
            pause: 0,
            source: self.source,
            mover: self.mover,
            tape: self.tape,
        }
    }

    // The mover pauses for a reason.
    pub fn pause(self, why: u32) -> Move
        ensures { result ≡ pauses why self.source self.mover self.tape }
    {
        Move {
            pause: why,
            mover: self.mover.pauses(why),
            ..self.stay()
        }
    }

    // Both ends halt, each for its reason.
    pub fn halt_both(self, dwhy: u32, mwhy: u32) -> Move
        ensures { result ≡ halts dwhy mwhy self.source self.mover self.tape }
    {
        Move {
            dwhy,
            mwhy,
            source: self.source.halts(dwhy),
            mover: self.mover.halts(mwhy),
            ..self.stay()
        }
    }

    // The data end halts alone.
    fn halt_source(self, why: u32) -> Move
        ensures { result ≡ halts_source why self.source self.mover self.tape }
    {
        Move {
            dwhy: why,
            source: self.source.halts(why),
            ..self.stay()
        }
    }

    // The mover halts alone.
    fn halt_mover(self, why: u32) -> Move
        ensures { result ≡ halts_mover why self.source self.mover self.tape }
    {
        Move {
            mwhy: why,
            mover: self.mover.halts(why),
            ..self.stay()
        }
    }

    // A move's halt: of both ends, or of a mover by TCP alone.
    #[tactic(auto, unfolding(rules_moves::specs::Moves::halts_with, xdr::specs::Choose::choose))]
    pub fn halt(self, dwhy: u32, mwhy: u32) -> Move
        ensures { result ≡ halts_with dwhy mwhy self.source self.mover self.tape }
    {
        if self.mover.address == codes::TCP_ADDRESS {
            self.halt_mover(mwhy)
        } else {
            self.halt_both(dwhy, mwhy)
        }
    }

    // The data end after n bytes of the stream: a mover by TCP feeds none.
    #[tactic(auto, unfolding(rules_moves::specs::Moves::fed_with, xdr::specs::Choose::choose))]
    fn feed(self, n: usize) -> Data
        ensures { result ≡ fed_with self.mover n self.source }
    {
        if self.mover.address == codes::TCP_ADDRESS {
            self.source
        } else {
            self.source.fed(n as u64)
        }
    }

    // A record went to tape, with n bytes of the stream in it.
    pub fn take_record(self, n: usize) -> Move
        requires { self.tape.position ≤ 4096 }
        ensures { result ≡ takes n self.source self.mover self.tape }
    {
        Move {
            count: n,
            source: self.feed(n),
            mover: self.mover.records(),
            tape: Tape {
                position: self.tape.position + 1,
                ..self.tape
            },
            ..self.stay()
        }
    }

    // Of record i, n bytes were handed over.
    pub fn hand_over(self, n: usize, i: usize) -> Move
        requires { (i ≤ 4096) × (n ≤ self.mover.left) × (self.mover.seek + self.mover.left ≤ top) }
        ensures { result ≡ hands n i self.source self.mover self.tape }
    {
        Move {
            count: n,
            source: self.feed(n),
            mover: self.mover.hands(n as u64),
            tape: Tape {
                position: i + 1,
                ..self.tape
            },
            ..self.stay()
        }
    }

    // The method's end, in success or not. A data end by TCP halts alone.
    #[tactic(auto, unfolding(rules_moves::specs::Moves::method_end, xdr::specs::Choose::choose))]
    pub fn method_end(self, ok: bool) -> Move
        ensures { result ≡ method_end ok self.source self.mover self.tape }
    {
        if self.source.state != Data::ACTIVE {
            return self.stay();
        }
        let why = if ok {
            Data::SUCCESSFUL
        } else {
            Data::INTERNAL_ERROR
        };
        if self.source.address == codes::TCP_ADDRESS {
            self.halt_source(why)
        } else {
            self.halt_both(why, Mover::CONNECT_CLOSED)
        }
    }

    // The data end is joined.
    fn join_source(self) -> Move
        ensures { result ≡ source_made self.source self.mover self.tape }
    {
        Move {
            source: self.source.goes(Data::CONNECTED, self.source.address),
            ..self.stay()
        }
    }

    // The mover is joined, and becomes ACTIVE.
    fn join_mover(self) -> Move
        ensures { result ≡ mover_made self.source self.mover self.tape }
    {
        let m = self.mover;
        Move {
            mover: m.runs(m.mode, m.address, self.tape.position),
            ..self.stay()
        }
    }

    // A connection was made, with the mover or else with the data end (the flag is C's): it joins the end that listens by TCP.
    #[tactic(auto, unfolding(rules_moves::specs::Moves::made_at, rules_moves::specs::Moves::at_tcp, xdr::specs::Choose::choose))]
    pub fn made_at(self, mover: bool) -> Move
        ensures { result ≡ made_at mover self.source self.mover self.tape }
    {
        let (d, m) = (self.source, self.mover);
        if mover && m.address == codes::TCP_ADDRESS && m.state == Mover::LISTEN {
            self.join_mover()
        } else if !mover && d.address == codes::TCP_ADDRESS && d.state == Data::LISTEN {
            self.join_source()
        } else {
            self.stay()
        }
    }

    // A connection was lost, of the mover or else of the data end (the flag is C's): it halts the end that is joined by TCP.
    #[tactic(auto, unfolding(rules_moves::specs::Moves::lost_at, rules_moves::specs::Moves::at_tcp, xdr::specs::Choose::choose))]
    pub fn lost_at(self, mover: bool) -> Move
        ensures { result ≡ lost_at mover self.source self.mover self.tape }
    {
        let (d, m) = (self.source, self.mover);
        if mover && m.address == codes::TCP_ADDRESS && m.is_joined() {
            self.halt_mover(Mover::CONNECT_CLOSED)
        } else if !mover && d.address == codes::TCP_ADDRESS && d.is_joined() {
            self.halt_source(Data::CONNECT_ERROR)
        } else {
            self.stay()
        }
    }
}
