// The session's parts by value: their declarations, their numbers by name, and what a request, a move or a message changes of one, each a method
// that takes the part and hands back the next. Below the definitions of requests, so that an edit of those does not prove this code again.
#![tactic(auto)]

ghost use Rattle.std.specs.Prelude.{◌≡◌, ◌+◌, ◌≤◌};
ghost use Rattle.rules_parts.specs.Parts.{clear_changer, changer_refused, changer_holds, logged_in, challenged_by, rest_data, data_to, data_starts, data_halts, rest_mover, mover_listens, mover_runs, mover_pauses, mover_halts, mover_window, mover_size, mover_seeks, data_fed, mover_records, mover_hands, new_session, with_parts, after_message, shut, window_end, is_past_top, length_wrong, told_in, data_joined, mover_joined, data_partnered, mover_partnered, address_wrong, holds_tape, unwritable};
ghost use Rattle.rules_parts.specs.Names.{NamesAre, top};
ghost use Rattle.rules_parts.specs.Holding.{PartsHold};

pub mod types;

pub use types::{Answer, Changer, Data, Login, Moved, Mover, Session, Tape};

// A reason is told in its state only.
#[tactic(auto, unfolding(crate::specs::Parts::told_in, xdr::specs::Choose::choose))]
pub fn told_in(at: u32, state: u32, reason: u32) -> u32
    ensures { result ≡ told_in at state reason }
{
    if state == at { reason } else { 0 }
}

// Whether an address type is neither LOCAL nor TCP, or is TCP where that is of no use.
#[tactic(auto, unfolding(crate::specs::Parts::address_wrong, xdr::specs::Choose::choose))]
pub fn is_address_wrong(address: u32, useless: bool) -> bool
    ensures { result ≡ address_wrong address useless }
{
    address != codes::LOCAL_ADDRESS && (address != codes::TCP_ADDRESS || useless)
}

// The states of the data end, what it runs, and why it halts.
impl Data {
    pub const IDLE: u32 = 0;

    pub const ACTIVE: u32 = 1;

    pub const HALTED: u32 = 2;

    pub const LISTEN: u32 = 3;

    pub const CONNECTED: u32 = 4;

    pub const NO_OPERATION: u32 = 0;

    pub const BACKUP: u32 = 1;

    pub const RECOVER: u32 = 2;

    pub const SUCCESSFUL: u32 = 1;

    pub const ABORTED: u32 = 2;

    pub const INTERNAL_ERROR: u32 = 3;

    pub const CONNECT_ERROR: u32 = 4;

    // Is at rest.
    pub fn rests() -> Data
        ensures { result ≡ rest_data }
    {
        Data {
            state: Data::IDLE,
            operation: Data::NO_OPERATION,
            reason: 0,
            address: codes::LOCAL_ADDRESS,
            processed: 0,
        }
    }

    // Begins an operation.
    pub fn starts(self, operation: u32) -> Data
        ensures { result ≡ data_starts operation self }
    {
        Data {
            state: Data::ACTIVE,
            operation,
            ..self
        }
    }

    // Whether it is joined, with the mover or by TCP.
    #[tactic(auto, unfolding(crate::specs::Parts::data_joined, xdr::specs::Choose::choose))]
    pub fn is_joined(self) -> bool
        ensures { result ≡ data_joined self.state }
    {
        self.state == Data::ACTIVE || self.state == Data::CONNECTED
    }

    // Whether it is joined with the mover.
    #[tactic(auto, unfolding(crate::specs::Parts::data_partnered, xdr::specs::Choose::choose))]
    pub fn is_partnered(self) -> bool
        ensures { result ≡ data_partnered self }
    {
        self.address == codes::LOCAL_ADDRESS && self.is_joined()
    }

    // Listens or is joined, by an address of a type.
    pub fn goes(self, state: u32, address: u32) -> Data
        ensures { result ≡ data_to state address self }
    {
        Data {
            state,
            address,
            ..self
        }
    }

    // Halts for a reason.
    pub fn halts(self, why: u32) -> Data
        ensures { result ≡ data_halts why self }
    {
        Data {
            state: Data::HALTED,
            reason: why,
            ..self
        }
    }

    // Has processed n bytes more.
    pub fn fed(self, n: u64) -> Data
        ensures { result ≡ data_fed n self }
    {
        Data {
            processed: self.processed.wrapping_add(n),
            ..self
        }
    }
}

// The states and modes of the mover, why it halts and pauses, and its changes: each takes the mover by value and hands back the next state.
impl Mover {
    pub const IDLE: u32 = 0;

    pub const LISTEN: u32 = 1;

    pub const ACTIVE: u32 = 2;

    pub const PAUSED: u32 = 3;

    pub const HALTED: u32 = 4;

    pub const TO_TAPE: u32 = 0;

    pub const FROM_TAPE: u32 = 1;

    pub const NO_MODE: u32 = 2;

    pub const CONNECT_CLOSED: u32 = 1;

    pub const ABORTED: u32 = 2;

    pub const MEDIA_ERROR: u32 = 5;

    pub const END_OF_MEDIUM: u32 = 1;

    pub const END_OF_FILE: u32 = 2;

    pub const SEEK: u32 = 3;

    pub const END_OF_WINDOW: u32 = 5;

    pub const LARGEST_SIZE: u32 = codes::LONGEST_RECORD as u32;

    // The record size of a new session.
    pub const FIRST_SIZE: u32 = 10240;

    // The last position of a stream, which no byte has. The number is written out: rust/core's test reads these numbers.
    pub const TOP: u64 = 18446744073709551615;

    // The length of a window with no end.
    pub const ENDLESS: u64 = 18446744073709551615;

    // Whether a part of the stream ends above 2^64 - 1. The sum itself would overflow.
    #[tactic(auto, unfolding(crate::specs::Parts::is_past_top))]
    pub fn is_past_top(offset: u64, length: u64) -> bool
        ensures { result ≡ is_past_top offset length }
    {
        Mover::TOP - offset < length
    }

    // Whether a window with this length is one that set window refuses. The window that is asked for is no mover's yet, so its numbers stand apart.
    #[tactic(auto, unfolding(crate::specs::Parts::length_wrong, xdr::specs::Choose::choose))]
    pub fn is_length_wrong(size: u32, offset: u64, length: u64) -> bool
        requires { 1 ≤ size }
        ensures { result ≡ length_wrong size offset length }
    {
        length != Mover::ENDLESS
            && (length % size as u64 != 0 || Mover::is_past_top(offset, length))
    }

    // Where a window ends.
    #[tactic(auto, using(crate::proofs::Ending::end_endless, crate::proofs::Ending::end_other))]
    pub fn window_end(offset: u64, length: u64) -> u64
        requires { window_end offset length ≤ top }
        ensures { result ≡ window_end offset length }
    {
        if length == Mover::ENDLESS {
            Mover::TOP
        } else {
            offset + length
        }
    }

    // Whether a mode goes to tape, and the tape cannot be written.
    #[tactic(auto, unfolding(crate::specs::Parts::unwritable, xdr::specs::Choose::choose))]
    pub fn is_unwritable(mode: u32, writable: bool) -> bool
        ensures { result ≡ unwritable mode writable }
    {
        mode == Mover::TO_TAPE && !writable
    }

    // Whether a mover in a state holds the tape.
    #[tactic(auto, unfolding(crate::specs::Parts::holds_tape, xdr::specs::Choose::choose))]
    pub fn holds_tape(state: u32) -> bool
        ensures { result ≡ holds_tape state }
    {
        state == Mover::LISTEN || state == Mover::ACTIVE
    }

    // Whether it is joined, with the data end or by TCP.
    #[tactic(auto, unfolding(crate::specs::Parts::mover_joined, xdr::specs::Choose::choose))]
    pub fn is_joined(self) -> bool
        ensures { result ≡ mover_joined self.state }
    {
        self.state == Mover::ACTIVE || self.state == Mover::PAUSED
    }

    // Whether it is joined with the data end.
    #[tactic(auto, unfolding(crate::specs::Parts::mover_partnered, xdr::specs::Choose::choose))]
    pub fn is_partnered(self) -> bool
        ensures { result ≡ mover_partnered self }
    {
        self.address == codes::LOCAL_ADDRESS && self.is_joined()
    }

    // Waits for its peer, in a mode, by an address of a type.
    pub fn listens(self, mode: u32, address: u32) -> Mover
        ensures { result ≡ mover_listens mode address self }
    {
        Mover {
            state: Mover::LISTEN,
            mode,
            address,
            ..self
        }
    }

    // Becomes ACTIVE by an address of a type, with the tape at a position.
    pub fn runs(self, mode: u32, address: u32, position: usize) -> Mover
        ensures { result ≡ mover_runs mode address position self }
    {
        Mover {
            state: Mover::ACTIVE,
            mode,
            pause: 0,
            address,
            origin: position,
            ..self
        }
    }

    // Pauses for a reason; the window is void.
    pub fn pauses(self, why: u32) -> Mover
        ensures { result ≡ mover_pauses why self }
    {
        Mover {
            state: Mover::PAUSED,
            pause: why,
            offset: 0,
            length: 0,
            ..self
        }
    }

    // Halts for a reason.
    pub fn halts(self, why: u32) -> Mover
        ensures { result ≡ mover_halts why self }
    {
        Mover {
            state: Mover::HALTED,
            pause: 0,
            halt: why,
            ..self
        }
    }

    // Has another window in force.
    pub fn windowed(self, offset: u64, length: u64) -> Mover
        ensures { result ≡ mover_window offset length self }
    {
        Mover {
            offset,
            length,
            ..self
        }
    }

    // Has another record size; the window is void.
    pub fn sized(self, size: u32) -> Mover
        ensures { result ≡ mover_size size self }
    {
        Mover {
            size,
            offset: 0,
            length: 0,
            ..self
        }
    }

    // Is to hand over a part of the stream.
    pub fn seeks(self, seek: u64, left: u64) -> Mover
        ensures { result ≡ mover_seeks seek left self }
    {
        Mover { seek, left, ..self }
    }

    // Has moved one record to tape.
    pub fn records(self) -> Mover
        ensures { result ≡ mover_records self }
    {
        Mover {
            moved: self.moved.wrapping_add(self.size as u64),
            ..self
        }
    }

    // Has handed over n bytes from tape.
    pub fn hands(self, n: u64) -> Mover
        requires { (n ≤ self.left) × (self.seek + self.left ≤ 18446744073709551615) }
        ensures { result ≡ mover_hands n self }
    {
        Mover {
            moved: self.moved.wrapping_add(n),
            seek: self.seek + n,
            left: self.left - n,
            ..self
        }
    }

    // Is at rest again, and keeps the record size.
    pub fn rests(self) -> Mover
        ensures { result ≡ rest_mover self.size }
    {
        Mover::at_rest(self.size)
    }

    // A mover at rest, with a record size.
    pub fn at_rest(size: u32) -> Mover
        ensures { result ≡ rest_mover size }
    {
        Mover {
            state: Mover::IDLE,
            mode: Mover::NO_MODE,
            pause: 0,
            halt: 0,
            size,
            address: codes::LOCAL_ADDRESS,
            offset: 0,
            length: 0,
            moved: 0,
            seek: 0,
            left: 0,
            origin: 0,
        }
    }
}

impl Login {
    // Has logged in; a login does not use the challenge up.
    pub fn logged_in(self) -> Login
        ensures { result ≡ logged_in self }
    {
        let challenge = self.challenge;
        Login {
            authorized: true,
            challenge,
            ..self
        }
    }

    // Was given a challenge, which takes the place of the one before.
    pub fn challenged_by(self, challenge: &[u8; 64]) -> Login
        ensures { result ≡ challenged_by challenge.now self }
    {
        Login {
            challenged: true,
            challenge: *challenge,
            ..self
        }
    }
}

impl Changer {
    // With no sense pending, open or closed.
    pub fn cleared(self, opened: bool) -> Changer
        ensures { result ≡ clear_changer opened self }
    {
        Changer {
            opened,
            key: 0,
            code: 0,
            qualifier: 0,
            ..self
        }
    }

    // With a sense pending: three fields of the session, as C has it.
    pub fn refused(self, key: u8, code: u8, qualifier: u8) -> Changer
        ensures { result ≡ changer_refused key code qualifier self }
    {
        Changer {
            key,
            code,
            qualifier,
            ..self
        }
    }

    // With another slot list.
    pub fn holds(self, slots: [u32; 9]) -> Changer
        ensures { result ≡ changer_holds slots self }
    {
        Changer { slots, ..self }
    }
}

impl Session {
    // A session with nothing in it yet but the first record size and the slot list.
    pub fn begins(closed: bool, sequence: u32, slots: [u32; 9]) -> Session
        ensures { result ≡ new_session closed sequence slots }
    {
        Session {
            closed,
            first: true,
            login: Login {
                authorized: false,
                challenged: false,
                challenge: [0; 64],
            },
            sequence,
            source: Data::rests(),
            mover: Mover::at_rest(Mover::FIRST_SIZE),
            tape: Tape {
                opened: false,
                writable: false,
                position: 0,
            },
            changer: Changer {
                opened: false,
                key: 0,
                code: 0,
                qualifier: 0,
                slots,
            },
        }
    }

    // The session with another login.
    pub fn with_login(self, login: Login) -> Session
        ensures { result ≡ with_parts self login self.source self.mover self.tape self.changer }
    {
        Session { login, ..self }
    }

    // The session with another data end.
    pub fn with_source(self, source: Data) -> Session
        ensures { result ≡ with_parts self self.login source self.mover self.tape self.changer }
    {
        Session { source, ..self }
    }

    // The session with another mover.
    pub fn with_mover(self, mover: Mover) -> Session
        ensures { result ≡ with_parts self self.login self.source mover self.tape self.changer }
    {
        Session { mover, ..self }
    }

    // The session with another tape device.
    pub fn with_tape(self, tape: Tape) -> Session
        ensures { result ≡ with_parts self self.login self.source self.mover tape self.changer }
    {
        Session { tape, ..self }
    }

    // The session with another changer device.
    pub fn with_changer(self, changer: Changer) -> Session
        ensures { result ≡ with_parts self self.login self.source self.mover self.tape changer }
    {
        Session { changer, ..self }
    }

    // The session after one message sent, with the first-request mark as told.
    pub fn after_message(self, first: bool) -> Session
        ensures { result ≡ after_message self first }
    {
        Session {
            first,
            sequence: self.sequence.wrapping_add(1),
            ..self
        }
    }

    // The session closed.
    pub fn shuts(self) -> Session
        ensures { result ≡ shut self }
    {
        Session {
            closed: true,
            ..self
        }
    }
}

// No work: its contract is that the names of states, modes, reasons and limits stand for the numbers of 004 and paper 01.
pub fn names_are()
    ensures { NamesAre }
{}

// No work: its contract is what a change of a part leaves of it.
pub fn parts_hold()
    ensures { PartsHold }
{}
