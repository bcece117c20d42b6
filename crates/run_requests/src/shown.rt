// A request by its message's name in 004, and a command of the remote tape protocol by its letter in 001, with their fields.
use run_writing::Hex;
use std::fmt;
use wire_layouts::Text;
use wire_requests::{
    ConfigRequest, ConnectRequest, DataRequest, JointRequest, MoverRequest, Pairs, Request,
    ScsiRequest, TapeRequest,
};
use wire_rmt::Command;

// A request, or a part of one, with the body that its texts lie in.
#[derive(Clone, Copy)]
pub struct Shown<'a, R> {
    pub of: R,
    pub body: &'a [u8],
}

fn within<R>(of: R, body: &[u8]) -> Shown<'_, R> {
    Shown { of, body }
}

// A text as its place and length in the body, and its bytes where they are few.
impl fmt::Display for Shown<'_, Text> {
    fn fmt<W: fmt::Write>(&self, f: &mut fmt::Formatter<W>) -> fmt::Result {
        let Text { start, len } = self.of;
        write!(f, "{start}+{len}")?;
        match self.body.get(start..).and_then(|rest| rest.get(..len)) {
            None => write!(f, " outside"),
            Some(bytes) if len <= 32 => write!(f, "={}", Hex(bytes)),
            Some(_) => Ok(()),
        }
    }
}

// The place of the first pair in the body, and how many they are.
impl fmt::Display for Shown<'_, Pairs> {
    fn fmt<W: fmt::Write>(&self, f: &mut fmt::Formatter<W>) -> fmt::Result {
        let Pairs { start, count } = self.of;
        write!(f, "{start}+{count}")
    }
}

impl fmt::Display for Shown<'_, ConnectRequest> {
    fn fmt<W: fmt::Write>(&self, f: &mut fmt::Formatter<W>) -> fmt::Result {
        match self.of {
            ConnectRequest::Open(version) => write!(f, "CONNECT_OPEN version {version}"),
            ConnectRequest::Md5Auth(id, digest) => {
                let (id, digest) = (within(id, self.body), within(digest, self.body));
                write!(f, "CONNECT_CLIENT_AUTH id {id} digest {digest}")
            }
            ConnectRequest::OtherAuth => write!(f, "CONNECT_CLIENT_AUTH other"),
            ConnectRequest::Close => write!(f, "CONNECT_CLOSE"),
        }
    }
}

impl fmt::Display for Shown<'_, ConfigRequest> {
    fn fmt<W: fmt::Write>(&self, f: &mut fmt::Formatter<W>) -> fmt::Result {
        match self.of {
            ConfigRequest::ConnectionType => write!(f, "CONFIG_GET_CONNECTION_TYPE"),
            ConfigRequest::AuthAttributes(kind) => write!(f, "CONFIG_GET_AUTH_ATTR type {kind}"),
            ConfigRequest::ServerInfo => write!(f, "CONFIG_GET_SERVER_INFO"),
        }
    }
}

impl fmt::Display for Shown<'_, ScsiRequest> {
    fn fmt<W: fmt::Write>(&self, f: &mut fmt::Formatter<W>) -> fmt::Result {
        match self.of {
            ScsiRequest::Open(name) => write!(f, "SCSI_OPEN device {}", within(name, self.body)),
            ScsiRequest::Close => write!(f, "SCSI_CLOSE"),
            ScsiRequest::State => write!(f, "SCSI_GET_STATE"),
            ScsiRequest::Reset => write!(f, "SCSI_RESET_DEVICE"),
            ScsiRequest::Cdb(cdb, room) => {
                let cdb = within(cdb, self.body);
                write!(f, "SCSI_EXECUTE_CDB cdb {cdb} datain_len {room}")
            }
        }
    }
}

impl fmt::Display for Shown<'_, TapeRequest> {
    fn fmt<W: fmt::Write>(&self, f: &mut fmt::Formatter<W>) -> fmt::Result {
        match self.of {
            TapeRequest::Open(name, mode) => {
                write!(
                    f,
                    "TAPE_OPEN device {} mode {mode}",
                    within(name, self.body)
                )
            }
            TapeRequest::Close => write!(f, "TAPE_CLOSE"),
            TapeRequest::State => write!(f, "TAPE_GET_STATE"),
            TapeRequest::Mtio(op, count) => write!(f, "TAPE_MTIO op {op} count {count}"),
            TapeRequest::Write(bytes) => write!(f, "TAPE_WRITE data {}", within(bytes, self.body)),
            TapeRequest::Read(count) => write!(f, "TAPE_READ count {count}"),
        }
    }
}

impl fmt::Display for Shown<'_, DataRequest> {
    fn fmt<W: fmt::Write>(&self, f: &mut fmt::Formatter<W>) -> fmt::Result {
        match self.of {
            DataRequest::State => write!(f, "DATA_GET_STATE"),
            DataRequest::Backup(method, pairs) => {
                let (method, pairs) = (within(method, self.body), within(pairs, self.body));
                write!(f, "DATA_START_BACKUP method {method} pairs {pairs}")
            }
            DataRequest::Recover(method, pairs) => {
                let (method, pairs) = (within(method, self.body), within(pairs, self.body));
                write!(f, "DATA_START_RECOVER method {method} pairs {pairs}")
            }
            DataRequest::Environment => write!(f, "DATA_GET_ENV"),
            DataRequest::Stop => write!(f, "DATA_STOP"),
            DataRequest::Listen(kind) => write!(f, "DATA_LISTEN address {kind}"),
        }
    }
}

impl fmt::Display for Shown<'_, MoverRequest> {
    fn fmt<W: fmt::Write>(&self, f: &mut fmt::Formatter<W>) -> fmt::Result {
        match self.of {
            MoverRequest::State => write!(f, "MOVER_GET_STATE"),
            MoverRequest::Listen(mode, kind) => {
                write!(f, "MOVER_LISTEN mode {mode} address {kind}")
            }
            MoverRequest::Continue => write!(f, "MOVER_CONTINUE"),
            MoverRequest::Stop => write!(f, "MOVER_STOP"),
            MoverRequest::Window(offset, length) => {
                write!(f, "MOVER_SET_WINDOW offset {offset} length {length}")
            }
            MoverRequest::Read(offset, length) => {
                write!(f, "MOVER_READ offset {offset} length {length}")
            }
            MoverRequest::Size(len) => write!(f, "MOVER_SET_RECORD_SIZE len {len}"),
        }
    }
}

impl fmt::Display for Shown<'_, JointRequest> {
    fn fmt<W: fmt::Write>(&self, f: &mut fmt::Formatter<W>) -> fmt::Result {
        match self.of {
            JointRequest::DataAbort => write!(f, "DATA_ABORT"),
            JointRequest::DataConnect(kind, count) => {
                write!(f, "DATA_CONNECT address {kind} addresses {count}")
            }
            JointRequest::MoverAbort => write!(f, "MOVER_ABORT"),
            JointRequest::MoverClose => write!(f, "MOVER_CLOSE"),
            JointRequest::MoverConnect(mode, kind, count) => {
                write!(
                    f,
                    "MOVER_CONNECT mode {mode} address {kind} addresses {count}"
                )
            }
        }
    }
}

// The request of a message's number.
#[derive(Clone, Copy)]
pub struct Numbered<'a> {
    pub number: u32,
    pub request: Shown<'a, Request>,
}

impl fmt::Display for Numbered<'_> {
    fn fmt<W: fmt::Write>(&self, f: &mut fmt::Formatter<W>) -> fmt::Result {
        let body = self.request.body;
        match self.request.of {
            Request::Connect(r) => write!(f, "{}", within(r, body)),
            Request::Config(r) => write!(f, "{}", within(r, body)),
            Request::Scsi(r) => write!(f, "{}", within(r, body)),
            Request::Tape(r) => write!(f, "{}", within(r, body)),
            Request::Data(r) => write!(f, "{}", within(r, body)),
            Request::Mover(r) => write!(f, "{}", within(r, body)),
            Request::Joint(r) => write!(f, "{}", within(r, body)),
            Request::Unknown => write!(f, "unknown 0x{:03x}", self.number),
            Request::Bad => write!(f, "bad"),
        }
    }
}

impl fmt::Display for Shown<'_, Command> {
    fn fmt<W: fmt::Write>(&self, f: &mut fmt::Formatter<W>) -> fmt::Result {
        match self.of {
            Command::Open(path, mode) => {
                write!(f, "O path {} mode {mode}", within(path, self.body))
            }
            Command::Close => write!(f, "C"),
            Command::Read(count) => write!(f, "R count {count}"),
            Command::Write(data) => write!(f, "W data {}", within(data, self.body)),
            Command::Operate(op, count) => write!(f, "I operation {op} count {count}"),
        }
    }
}
