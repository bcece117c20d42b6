// The session and its parts, and what calls return, by value. This file holds nothing but the declarations, so that a host in Rust can include
// it as it is. C hands in any number and any flag here, and a broken session gets 1002: so states, modes and reasons are numbers, 0 is no reason and
// no cartridge, and `challenged` stands beside the challenge. The `code` of Answer and of Moved is C's number too.

// The data end. The reason is why it halted; address is the type of its address, LOCAL or TCP; processed counts the stream's bytes.
#[repr(C)]
#[derive(Clone, Copy, Debug, PartialEq, Eq)]
pub struct Data {
    pub state: u32,
    pub operation: u32,
    pub reason: u32,
    pub address: u32,
    pub processed: u64,
}

// The mover. A window of length 0 is none, one of length 2^64 - 1 has no end; left is what a mover read has still to be given; origin is the
// tape's position when the mover last became ACTIVE; address is the type of its address.
#[repr(C)]
#[derive(Clone, Copy, Debug, PartialEq, Eq)]
pub struct Mover {
    pub state: u32,
    pub mode: u32,
    pub pause: u32,
    pub halt: u32,
    pub size: u32,
    pub address: u32,
    pub offset: u64,
    pub length: u64,
    pub moved: u64,
    pub seek: u64,
    pub left: u64,
    pub origin: usize,
}

// The tape device; position counts the entries before it.
#[repr(C)]
#[derive(Clone, Copy, Debug, PartialEq, Eq)]
pub struct Tape {
    pub opened: bool,
    pub writable: bool,
    pub position: usize,
}

// The changer device. Key, code and qualifier are the pending sense, and are 0 where none is; slots names the cartridge in each place, the
// drive first, then the slots 16 to 23, and has 0 where none is.
#[repr(C)]
#[derive(Clone, Copy, Debug, PartialEq, Eq)]
pub struct Changer {
    pub opened: bool,
    pub key: u8,
    pub code: u8,
    pub qualifier: u8,
    pub slots: [u32; 9],
}

// What the connection knows of its client: whether it has logged in; and the newest challenge that it was given, if one was.
#[repr(C)]
#[derive(Clone, Copy, Debug, PartialEq, Eq)]
pub struct Login {
    pub authorized: bool,
    pub challenged: bool,
    pub challenge: [u8; 64],
}

// A session. First is set until a request has been answered; sequence is the number of the next message; source is the data end.
#[repr(C)]
#[derive(Clone, Copy, Debug, PartialEq, Eq)]
pub struct Session {
    pub closed: bool,
    pub first: bool,
    pub login: Login,
    pub sequence: u32,
    pub source: Data,
    pub mover: Mover,
    pub tape: Tape,
    pub changer: Changer,
}

// What a call returns: 0, 1001 or 1002; how many bytes of the output were written; and the next session.
#[repr(C)]
#[derive(Clone, Copy, Debug, PartialEq, Eq)]
pub struct Answer {
    pub code: u32,
    pub len: usize,
    pub session: Session,
}

// What a move returns: 0, 1001 or 1002; the bytes taken or handed over; how many bytes of the output were written; and the next session.
#[repr(C)]
#[derive(Clone, Copy, Debug, PartialEq, Eq)]
pub struct Moved {
    pub code: u32,
    pub count: usize,
    pub len: usize,
    pub session: Session,
}
