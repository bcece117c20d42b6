// A record on the wire: its frame, and which message its number is.
#![tactic(auto)]

ghost use Rattle.std.specs.Prelude.{◌≡◌, ◌≤◌, length, IfOk};
ghost use Rattle.wire_frame.specs.Frame.{framed};
ghost use Rattle.wire_frame.specs.Messages.{row_of};

#[derive(Clone, Copy, Debug, PartialEq, Eq)]
pub enum ConnectKind {
    Open,
    Auth,
    Close,
}

#[derive(Clone, Copy, Debug, PartialEq, Eq)]
pub enum ConfigKind {
    ConnectionType,
    AuthAttributes,
    ServerInfo,
}

#[derive(Clone, Copy, Debug, PartialEq, Eq)]
pub enum ScsiKind {
    Open,
    Close,
    State,
    Reset,
    Cdb,
}

#[derive(Clone, Copy, Debug, PartialEq, Eq)]
pub enum TapeKind {
    Open,
    Close,
    State,
    Mtio,
    Write,
    Read,
}

#[derive(Clone, Copy, Debug, PartialEq, Eq)]
pub enum DataKind {
    State,
    Backup,
    Recover,
    Environment,
    Stop,
    Listen,
}

#[derive(Clone, Copy, Debug, PartialEq, Eq)]
pub enum MoverKind {
    State,
    Listen,
    Continue,
    Stop,
    Window,
    Read,
    Size,
}

#[derive(Clone, Copy, Debug, PartialEq, Eq)]
pub enum JointKind {
    DataAbort,
    DataConnect,
    MoverAbort,
    MoverClose,
    MoverConnect,
}

// A message by its interface. The joint ones can read or change both the data and the mover end.
#[derive(Clone, Copy, Debug, PartialEq, Eq)]
pub enum Message {
    Connect(ConnectKind),
    Config(ConfigKind),
    Scsi(ScsiKind),
    Tape(TapeKind),
    Data(DataKind),
    Mover(MoverKind),
    Joint(JointKind),
    Unknown,
}

// A message, and the zero words before and after the number in the body of its refusal.
#[derive(Clone, Copy, Debug, PartialEq, Eq)]
pub struct Row {
    pub kind: Message,
    pub before: u32,
    pub after: u32,
}

// A record that is a request: its sequence number, and the number of its message.
#[derive(Clone, Copy, Debug, PartialEq, Eq)]
pub struct Frame {
    pub sequence: u32,
    pub message: u32,
}

// Why a record is no request: its frame is broken, or it is of another type.
#[derive(Clone, Copy, Debug, PartialEq, Eq)]
pub enum Unframed {
    Broken,
    NotRequest,
}

// Reads the mark and the header of any bytes. A request's record has its whole header.
#[tactic(auto, unfolding(xdr::specs::Choose::choose, xdr::specs::Choose::all_of, crate::specs::Frame::well_framed, crate::specs::Frame::framed))]
pub fn read_frame(input: &[u8]) -> Result<Frame, Unframed>
    ensures read { result ≡ framed input.now }
    ensures whole { IfOk result (λ _. 28 ≤ length input.now) }
{
    if input.len() < 28 {
        return Err(Unframed::Broken);
    }
    let mark = xdr::read_word(input, 0) as usize;
    if mark < 0x8000_0000 + 24 {
        return Err(Unframed::Broken);
    }
    if 0x8000_0000 + codes::LARGEST_MESSAGE < mark {
        return Err(Unframed::Broken);
    }
    if mark - 0x8000_0000 + 4 != input.len() {
        return Err(Unframed::Broken);
    }
    if xdr::read_word(input, 12) != 0 {
        return Err(Unframed::NotRequest);
    }
    Ok(Frame {
        sequence: xdr::read_word(input, 4),
        message: xdr::read_word(input, 16),
    })
}

// A line of the table.
fn line(kind: Message, before: u32, after: u32) -> Row
    ensures { result ≡ record { kind = kind; before = before; after = after } }
{
    Row {
        kind,
        before,
        after,
    }
}

// The row of a message number. A number that names no message has a row too, as in the definitions: Unknown, which is refused by one.
#[tactic(auto, unfolding(xdr::specs::Choose::choose, crate::specs::Messages::look, crate::specs::Messages::row_of))]
pub fn row_of(number: u32) -> Row
    ensures { result ≡ row_of number }
{
    match number {
        0x900 => line(Message::Connect(ConnectKind::Open), 0, 0),
        0x901 => line(Message::Connect(ConnectKind::Auth), 0, 0),
        0x902 => line(Message::Connect(ConnectKind::Close), 0, 0),
        0x102 => line(Message::Config(ConfigKind::ConnectionType), 0, 1),
        0x103 => line(Message::Config(ConfigKind::AuthAttributes), 0, 1),
        0x108 => line(Message::Config(ConfigKind::ServerInfo), 0, 4),
        0x200 => line(Message::Scsi(ScsiKind::Open), 0, 0),
        0x201 => line(Message::Scsi(ScsiKind::Close), 0, 0),
        0x202 => line(Message::Scsi(ScsiKind::State), 0, 3),
        0x204 => line(Message::Scsi(ScsiKind::Reset), 0, 0),
        0x206 => line(Message::Scsi(ScsiKind::Cdb), 0, 4),
        0x300 => line(Message::Tape(TapeKind::Open), 0, 0),
        0x301 => line(Message::Tape(TapeKind::Close), 0, 0),
        0x302 => line(Message::Tape(TapeKind::State), 1, 9),
        0x303 => line(Message::Tape(TapeKind::Mtio), 0, 1),
        0x304 => line(Message::Tape(TapeKind::Write), 0, 1),
        0x305 => line(Message::Tape(TapeKind::Read), 0, 1),
        0x400 => line(Message::Data(DataKind::State), 1, 13),
        0x401 => line(Message::Data(DataKind::Backup), 0, 0),
        0x402 => line(Message::Data(DataKind::Recover), 0, 0),
        0x403 => line(Message::Joint(JointKind::DataAbort), 0, 0),
        0x404 => line(Message::Data(DataKind::Environment), 0, 1),
        0x407 => line(Message::Data(DataKind::Stop), 0, 0),
        0x409 => line(Message::Data(DataKind::Listen), 0, 1),
        0x40A => line(Message::Joint(JointKind::DataConnect), 0, 0),
        0xA00 => line(Message::Mover(MoverKind::State), 0, 17),
        0xA01 => line(Message::Mover(MoverKind::Listen), 0, 1),
        0xA02 => line(Message::Mover(MoverKind::Continue), 0, 0),
        0xA03 => line(Message::Joint(JointKind::MoverAbort), 0, 0),
        0xA04 => line(Message::Mover(MoverKind::Stop), 0, 0),
        0xA05 => line(Message::Mover(MoverKind::Window), 0, 0),
        0xA06 => line(Message::Mover(MoverKind::Read), 0, 0),
        0xA07 => line(Message::Joint(JointKind::MoverClose), 0, 0),
        0xA08 => line(Message::Mover(MoverKind::Size), 0, 0),
        0xA09 => line(Message::Joint(JointKind::MoverConnect), 0, 0),
        _ => line(Message::Unknown, 0, 0),
    }
}
