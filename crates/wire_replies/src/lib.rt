// Replies and notices: what each is by its layout. `wire_writing` writes them.
#![tactic(auto)]

ghost use Rattle.wire_replies.specs.Fit.{AnswersFit, EnvironmentFits};
ghost use Rattle.wire_replies.specs.RoundTrip.{RepliesBack};
ghost use Rattle.wire_replies.specs.Refusals.{RefusalsAsLong};
ghost use Rattle.wire_replies.specs.Numbers.{NumbersTold};
ghost use Rattle.wire_replies.specs.Addresses.{AddressReplies};
ghost use Rattle.wire_replies.specs.AuthReplies.{AuthReplies};
ghost use Rattle.wire_replies.specs.EnvironmentReplies.{EnvironmentReplies};
ghost use Rattle.wire_replies.specs.ScsiReplies.{ScsiReplies};

// What get state tells of the data end. States and reasons are the numbers that go onto the wire.
#[repr(C)]
#[derive(Clone, Copy)]
pub struct DataView {
    pub operation: u32,
    pub state: u32,
    pub reason: u32,
    pub address: u32,
    pub processed: u64,
}

// What get state tells of the mover. Mode, state and reasons are the numbers that go onto the wire.
#[repr(C)]
#[derive(Clone, Copy)]
pub struct MoverView {
    pub mode: u32,
    pub state: u32,
    pub pause: u32,
    pub halt: u32,
    pub size: u32,
    pub address: u32,
    pub number: u32,
    pub moved: u64,
    pub seek: u64,
    pub left: u64,
    pub offset: u64,
    pub length: u64,
}

// A reply by its layout, with what it tells. Header is a refusal in the header with no body; Refused one in the body:
// so many zero words, the number, so many zero words. The others accept: Mtio, Wrote and Read begin with the tape's
// outcome (0, 12 or 13), the rest have the error 0; Plain is that error alone. ListeningTcp shows the list of
// addresses that was lent. Challenge is the auth type of MD5 and the challenge that was lent.
// Cdb is an execute CDB that hands over nothing, Sense one that hands over the first bytes of a sense (its key, code and
// qualifier) as data in, Check one that ends with status 2 and the extended sense, and Elements one that hands over what
// it was lent, the status of the changer's elements. TapeState is the file and the block, Mtio
// the residue, Wrote the count, and Read where the bytes lie in the image. Environment gives the pairs of the store
// that was lent. The numbers are those that go onto the wire, as the definitions (`number_of`, `shape_of`) have them.
#[derive(Clone, Copy)]
pub enum Reply {
    Header(u32),
    Refused(u32, u32, u32),
    Plain,
    Listening,
    ListeningTcp,
    ConnectionTypes,
    Challenge,
    ServerInfo(bool),
    ScsiState,
    Cdb,
    Sense(u32, u8, u8, u8),
    Check(u8, u8, u8),
    Elements,
    TapeState(u32, u32),
    Mtio(u32, u32),
    Wrote(u32, u32),
    Read(u32, usize, usize),
    DataState(DataView),
    Environment,
    MoverState(MoverView),
}

// What is sent unasked, by the number of its reason on the wire; a pause carries the kept seek position.
#[derive(Clone, Copy)]
pub enum Notice {
    DataHalted(u32),
    Connected,
    MoverHalted(u32),
    MoverPaused(u32, u64),
}

// No work: its contract is that the largest answer with two notices fits the output, and how long the largest environment
// is, so that the crate is proved only with it.
pub fn answers_fit()
    ensures { AnswersFit × EnvironmentFits }
{}

// The same, of what is sent being read back.
pub fn replies_round_trip()
    ensures { RepliesBack }
{}

// The same, of a refusal being as long as its message's accepted reply with nothing told.
pub fn refusals_as_long()
    ensures { RefusalsAsLong }
{}

// The same, of the error word of what is sent being the reply's number, and of a refusal's other fields being zero or empty.
pub fn numbers_told()
    ensures { NumbersTold }
{}

// The same, of the replies that tell of addresses, byte for byte.
pub fn address_replies()
    ensures { AddressReplies }
{}

// The same, of the replies that tell of auth types, byte for byte.
pub fn auth_replies()
    ensures { AuthReplies }
{}

// The same, of the reply that gives an environment, byte for byte.
pub fn environment_replies()
    ensures { EnvironmentReplies }
{}

// The same, of the replies to execute CDB, byte for byte.
pub fn scsi_replies()
    ensures { ScsiReplies }
{}
