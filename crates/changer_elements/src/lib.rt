// The changer's elements, the slot list, moves and element status, as definitions. The list is nine words by value: the drive
// first (element 1), then the slots (elements 16 to 23); 0 is an empty place, any other word a cartridge's number:
// the session has the list as words that C hands in.
#![tactic(auto)]

ghost use Rattle.changer_elements.specs.MovesHold.{ElementsHold};
ghost use Rattle.changer_elements.specs.MoveCases.{MoveCases};
ghost use Rattle.changer_elements.specs.StatusHolds.{StatusHolds};
ghost use Rattle.changer_elements.specs.StatusCases.{StatusCases};

pub const TRANSPORT: u32 = 0;

pub const DRIVE: u32 = 1;

pub const FIRST_SLOT: u32 = 16;

pub const LAST_SLOT: u32 = 23;

// The least bytes of a CDB of the changer.
pub const CDB_BYTES: usize = 12;

// SMC's type codes: a CDB asks by them and a page's header tells them, so that an enum would be turned back into its code at both.
pub const ALL_TYPES: u32 = 0;

pub const TRANSPORT_TYPE: u32 = 1;

pub const SLOT_TYPE: u32 = 2;

pub const DRIVE_TYPE: u32 = 4;

// The bytes of a descriptor.
pub const DESCRIPTOR_BYTES: u32 = 12;

// What a refused CDB leaves pending: the sense key, its code and the code's qualifier.
#[repr(C)]
#[derive(Clone, Copy, Debug, PartialEq, Eq)]
pub struct Sense {
    pub key: u8,
    pub code: u8,
    pub qualifier: u8,
}

impl Sense {
    // A CDB under 12 bytes.
    pub const SHORT_CDB: Sense = Sense {
        key: 5,
        code: 0x24,
        qualifier: 0,
    };

    // An opcode that the changer does not know.
    pub const UNKNOWN_OPCODE: Sense = Sense {
        key: 5,
        code: 0x20,
        qualifier: 0,
    };

    // An unknown element, the transport, or a transport's field other than 0.
    pub const WRONG_ELEMENT: Sense = Sense {
        key: 5,
        code: 0x21,
        qualifier: 0x01,
    };

    pub const DESTINATION_FULL: Sense = Sense {
        key: 5,
        code: 0x3B,
        qualifier: 0x0D,
    };

    pub const SOURCE_EMPTY: Sense = Sense {
        key: 5,
        code: 0x3B,
        qualifier: 0x0E,
    };

    // A move from or to the drive while the tape is open.
    pub const DRIVE_HELD: Sense = Sense {
        key: 5,
        code: 0x53,
        qualifier: 0x02,
    };
}

// The places that a move takes the cartridge from and to, for `moved`.
#[derive(Clone, Copy, Debug, PartialEq, Eq)]
pub struct Places {
    pub from: usize,
    pub to: usize,
}

// What a CDB asks for: the type code, the least address, the number of elements, and how many bytes are handed over at the
// most.
#[derive(Clone, Copy, Debug, PartialEq, Eq)]
pub struct Asked {
    pub kind: u32,
    pub start: u32,
    pub number: u32,
    pub cut: u32,
}

// No work: its contract is what moves with their bytes written out come to, and which lists name none twice, computed.
pub fn move_cases()
    ensures { MoveCases }
{}

// No work: its contract is what holds of elements and places, of every move, and of the slot list over any moves.
pub fn elements_hold()
    ensures { ElementsHold }
{}

// No work: its contract is what CDBs ask for, and the bytes that are handed over, computed.
pub fn status_cases()
    ensures { StatusCases }
{}

// No work: its contract is what holds of every status: which elements, in which order, and what the header counts.
pub fn status_holds()
    ensures { StatusHolds }
{}
