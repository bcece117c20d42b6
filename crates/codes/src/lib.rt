// Numbers of 004 and of paper 01 by name, for every crate.
#![tactic(auto)]

ghost use Rattle.std.specs.Prelude.{◌≡◌};
ghost use Rattle.codes.specs.Codes.{AsWritten};
ghost use Rattle.codes.specs.Errors.{number_of, ErrorsNumbered};

// Refusals and outcomes, as 004 names them. Numbers beside NdmpError, since the wire, C and the definitions have numbers.
pub const NOT_SUPPORTED: u32 = 1;

pub const DEVICE_OPENED: u32 = 3;

pub const NOT_AUTHORIZED: u32 = 4;

pub const PERMISSION_DENIED: u32 = 5;

pub const NOT_OPEN: u32 = 6;

pub const IO_ERROR: u32 = 7;

pub const ILLEGAL_ARGUMENTS: u32 = 9;

pub const NO_TAPE_LOADED: u32 = 10;

pub const AT_MARK: u32 = 12;

pub const AT_END: u32 = 13;

pub const BAD_FILE: u32 = 15;

pub const NO_DEVICE: u32 = 16;

pub const UNDECODABLE: u32 = 18;

pub const ILLEGAL_STATE: u32 = 19;

pub const NO_MEMORY: u32 = 22;

pub const OTHER_NOT_LISTENING: u32 = 23;

pub const READ_IN_PROGRESS: u32 = 25;

pub const PRECONDITION: u32 = 26;

// Refusals of a call.
pub const SHORT_OUTPUT: u32 = 1001;

pub const BROKEN_SESSION: u32 = 1002;

// MTIO's operations.
pub const FORWARD_FILES: u32 = 0;

pub const BACK_FILES: u32 = 1;

pub const FORWARD_RECORDS: u32 = 2;

pub const BACK_RECORDS: u32 = 3;

pub const REWIND_TAPE: u32 = 4;

pub const WRITE_MARKS: u32 = 5;

pub const OFF_LINE: u32 = 6;

// The opcodes of the changer's CDBs.
pub const TEST_READY: u32 = 0x00;

pub const REQUEST_SENSE: u32 = 0x03;

pub const MOVE_MEDIUM: u32 = 0xA5;

pub const ELEMENT_STATUS: u32 = 0xB8;

// The most bytes of a status of elements.
pub const MOST_STATUS: usize = 152;

// The most bytes of a message, without its mark, and the least room that an output must have.
pub const LARGEST_MESSAGE: usize = 36864;

// The most bytes of a record of a cartridge.
pub const LONGEST_RECORD: usize = 32768;

// The bytes of the pending sense.
pub const SENSE_BYTES: u32 = 18;

// The most pairs of an environment, and the most names of a recover.
pub const MOST_LISTED: u32 = 64;

// The most addresses of a list, and the highest port.
pub const MOST_ADDRESSES: u32 = 16;

pub const MOST_PORT: u32 = 65535;

// The most bytes of the list that is lent to a listen by TCP.
pub const MOST_LENT: usize = 16384;

// The bytes of the store of a data end's environment.
pub const STORE_LENGTH: usize = 16384;

// The most accounts that are lent, and the most bytes of an MD5 account's password.
pub const MOST_ACCOUNTS: u32 = 8;

pub const LONGEST_PASSWORD: usize = 32;

// The bytes of a challenge, and of the digest that answers it.
pub const CHALLENGE_LENGTH: usize = 64;

pub const DIGEST_LENGTH: usize = 16;

// The address types LOCAL and TCP.
pub const LOCAL_ADDRESS: u32 = 0;

pub const TCP_ADDRESS: u32 = 1;

// The auth types of text, which is withdrawn and known to accounts alone, and of MD5.
pub const TEXT_AUTH: u32 = 1;

pub const MD5_AUTH: u32 = 2;

// The version that CONNECT open asks for.
pub const VERSION_FOUR: u32 = 4;

// No work: its contract is that the names of the definitions stand for the numbers that 004 and paper 01 write.
pub fn as_written()
    ensures { AsWritten × ErrorsNumbered }
{}

// An error of 004 by its name: what a request is refused by. Its number stands in a reply. AtMark and AtEnd are errors of 004 too,
// though an operation of the tape tells them as outcomes.
#[derive(Clone, Copy, Debug, PartialEq, Eq)]
pub enum NdmpError {
    NotSupported,
    DeviceOpened,
    NotAuthorized,
    PermissionDenied,
    NotOpen,
    IoError,
    IllegalArguments,
    NoTapeLoaded,
    AtMark,
    AtEnd,
    BadFile,
    NoDevice,
    Undecodable,
    IllegalState,
    NoMemory,
    OtherNotListening,
    ReadInProgress,
    Precondition,
}

impl NdmpError {
    // The number that 004 gives it.
    pub fn number(self) -> u32
        ensures { result ≡ number_of self }
    {
        match self {
            NdmpError::NotSupported => NOT_SUPPORTED,
            NdmpError::DeviceOpened => DEVICE_OPENED,
            NdmpError::NotAuthorized => NOT_AUTHORIZED,
            NdmpError::PermissionDenied => PERMISSION_DENIED,
            NdmpError::NotOpen => NOT_OPEN,
            NdmpError::IoError => IO_ERROR,
            NdmpError::IllegalArguments => ILLEGAL_ARGUMENTS,
            NdmpError::NoTapeLoaded => NO_TAPE_LOADED,
            NdmpError::AtMark => AT_MARK,
            NdmpError::AtEnd => AT_END,
            NdmpError::BadFile => BAD_FILE,
            NdmpError::NoDevice => NO_DEVICE,
            NdmpError::Undecodable => UNDECODABLE,
            NdmpError::IllegalState => ILLEGAL_STATE,
            NdmpError::NoMemory => NO_MEMORY,
            NdmpError::OtherNotListening => OTHER_NOT_LISTENING,
            NdmpError::ReadInProgress => READ_IN_PROGRESS,
            NdmpError::Precondition => PRECONDITION,
        }
    }
}
