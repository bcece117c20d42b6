// The requests that bodies are: what each is by its layout. `wire_decoding` decodes them. A text is its place in the body, and is compared or copied from
// there.
#![tactic(auto)]

ghost use Rattle.wire_requests.specs.RoundTrip.{RequestsBack, RequestsOneSpelling};
ghost use Rattle.wire_requests.specs.Rows.{RowsHold};

use wire_layouts::Text;

// A login by MD5 holds the id and the digest; of any other type the rest is not read.
#[derive(Clone, Copy)]
pub enum ConnectRequest {
    Open(u32),
    Md5Auth(Text, Text),
    OtherAuth,
    Close,
}

// The auth attributes are asked of an auth type. Types and modes stay numbers: any word may stand there, and the rules judge it.
#[derive(Clone, Copy)]
pub enum ConfigRequest {
    ConnectionType,
    AuthAttributes(u32),
    ServerInfo,
}

// Execute CDB holds the CDB and the data-in length.
#[derive(Clone, Copy)]
pub enum ScsiRequest {
    Open(Text),
    Close,
    State,
    Reset,
    Cdb(Text, u32),
}

#[derive(Clone, Copy)]
pub enum TapeRequest {
    Open(Text, u32),
    Close,
    State,
    Mtio(u32, u32),
    Write(Text),
    Read(u32),
}

// The pairs of a start request: where the first begins in the body, and how many they are.
#[derive(Clone, Copy)]
pub struct Pairs {
    pub start: usize,
    pub count: u32,
}

// A start request holds the name of its method and its pairs.
#[derive(Clone, Copy)]
pub enum DataRequest {
    State,
    Backup(Text, Pairs),
    Recover(Text, Pairs),
    Environment,
    Stop,
    Listen(u32),
}

// Listen holds the mode and the address type, a window its offset and its length.
#[derive(Clone, Copy)]
pub enum MoverRequest {
    State,
    Listen(u32, u32),
    Continue,
    Stop,
    Window(u64, u64),
    Read(u64, u64),
    Size(u32),
}

// A connect holds the address type and how many addresses its list has; the mover's has the mode before them.
#[derive(Clone, Copy)]
pub enum JointRequest {
    DataAbort,
    DataConnect(u32, u32),
    MoverAbort,
    MoverClose,
    MoverConnect(u32, u32, u32),
}

// A decoded request; Unknown is a message that is not handled, Bad a body that does not decode. They stay requests: the rules judge them as such
// (is_unread).
#[derive(Clone, Copy)]
pub enum Request {
    Connect(ConnectRequest),
    Config(ConfigRequest),
    Scsi(ScsiRequest),
    Tape(TapeRequest),
    Data(DataRequest),
    Mover(MoverRequest),
    Joint(JointRequest),
    Unknown,
    Bad,
}

// No work: its contract is that a body written by 004 is read as the request that it says, so that the crate is proved only with it.
pub fn requests_round_trip()
    ensures { RequestsBack }
{}

// No work: its contract is that a body that decodes, fields to their end, has no second spelling.
pub fn requests_one_spelling()
    ensures { RequestsOneSpelling }
{}

// No work: its contract is one body for each message, and bodies that are none, computed.
pub fn rows_hold()
    ensures { RowsHold }
{}
