// The bodies of requests, decoded to plain values.
#![tactic(auto)]

ghost use Rattle.std.specs.Prelude.{◌≡◌};
ghost use Rattle.wire_requests.specs.Bodies.{connect_body, config_body, scsi_body, tape_body, data_body, mover_body, joint_body};
ghost use Rattle.wire_requests.specs.Within.{Decoded};
ghost use Rattle.wire_frame.specs.declared.DataKind.TheVariants as DataKind;

mod fields; // fields.rt: what the bodies of several messages share

use fields::{DIGEST, HYPER, LOCAL, MD5, TCP, TEXT, WORD, auth, pairs_behind, scan_by_type};
use wire_frame::{
    ConfigKind, ConnectKind, DataKind, JointKind, Message, MoverKind, ScsiKind, TapeKind,
};
use wire_layouts::Field;
use wire_requests::{
    ConfigRequest, ConnectRequest, DataRequest, JointRequest, MoverRequest, Pairs, Request,
    ScsiRequest, TapeRequest,
};
use wire_scanning::scan_body;

// A decoder for each interface: of each message its layout, and the request that its fields are.
#[tactic(auto, unfolding(wire_requests::specs::Bodies::connect_body))]
pub fn decode_connect(k: ConnectKind, body: &[u8]) -> Option<ConnectRequest>
    ensures { result ≡ connect_body k body.now }
{
    match k {
        ConnectKind::Open => scan_body(&[WORD], body).map(|s| ConnectRequest::Open(s.words[0])),
        ConnectKind::Auth => scan_body(&[MD5, TEXT, DIGEST], body).map(|s| auth(
            s.words[0], s.texts[1], s.texts[2],
        )),
        ConnectKind::Close => scan_body(&[], body).map(|_| ConnectRequest::Close),
    }
}

#[tactic(auto, unfolding(wire_requests::specs::Bodies::config_body))]
pub fn decode_config(k: ConfigKind, body: &[u8]) -> Option<ConfigRequest>
    ensures { result ≡ config_body k body.now }
{
    match k {
        ConfigKind::ConnectionType => scan_body(&[], body).map(|_| ConfigRequest::ConnectionType),
        ConfigKind::AuthAttributes => {
            scan_body(&[MD5], body).map(|s| ConfigRequest::AuthAttributes(s.words[0]))
        }
        ConfigKind::ServerInfo => scan_body(&[], body).map(|_| ConfigRequest::ServerInfo),
    }
}

#[tactic(auto, unfolding(wire_requests::specs::Bodies::scsi_body))]
pub fn decode_scsi(k: ScsiKind, body: &[u8]) -> Option<ScsiRequest>
    ensures { result ≡ scsi_body k body.now }
{
    match k {
        ScsiKind::Open => scan_body(&[TEXT], body).map(|s| ScsiRequest::Open(s.texts[0])),
        ScsiKind::Close => scan_body(&[], body).map(|_| ScsiRequest::Close),
        ScsiKind::State => scan_body(&[], body).map(|_| ScsiRequest::State),
        ScsiKind::Reset => scan_body(&[], body).map(|_| ScsiRequest::Reset),
        ScsiKind::Cdb => scan_body(&[WORD, WORD, WORD, TEXT, TEXT], body).map(|s| ScsiRequest::Cdb(
            s.texts[3], s.words[2],
        )),
    }
}

#[tactic(auto, unfolding(wire_requests::specs::Bodies::tape_body))]
pub fn decode_tape(k: TapeKind, body: &[u8]) -> Option<TapeRequest>
    ensures { result ≡ tape_body k body.now }
{
    match k {
        TapeKind::Open => {
            scan_body(&[TEXT, WORD], body).map(|s| TapeRequest::Open(s.texts[0], s.words[1]))
        }
        TapeKind::Close => scan_body(&[], body).map(|_| TapeRequest::Close),
        TapeKind::State => scan_body(&[], body).map(|_| TapeRequest::State),
        TapeKind::Mtio => {
            scan_body(&[WORD, WORD], body).map(|s| TapeRequest::Mtio(s.words[0], s.words[1]))
        }
        TapeKind::Write => scan_body(&[TEXT], body).map(|s| TapeRequest::Write(s.texts[0])),
        TapeKind::Read => scan_body(&[WORD], body).map(|s| TapeRequest::Read(s.words[0])),
    }
}

#[tactic(auto, unfolding(wire_requests::specs::Bodies::data_body))]
fn start_backup(body: &[u8]) -> Option<DataRequest>
    ensures { result ≡ data_body DataKind.Backup body.now }
{
    let s = scan_body(&[TEXT, Field::Pairs], body)?;
    let method = s.texts[0];
    Some(DataRequest::Backup(method, pairs_behind(method, s.words[1])))
}

#[tactic(auto, unfolding(wire_requests::specs::Bodies::data_body))]
fn start_recover(body: &[u8]) -> Option<DataRequest>
    ensures { result ≡ data_body DataKind.Recover body.now }
{
    let s = scan_body(&[Field::Pairs, Field::Names, TEXT], body)?;
    // the list of pairs is the first field: they begin behind its count
    let pairs = Pairs {
        start: 4,
        count: s.words[0],
    };
    Some(DataRequest::Recover(s.texts[2], pairs))
}

#[tactic(auto, unfolding(wire_requests::specs::Bodies::data_body))]
pub fn decode_data(k: DataKind, body: &[u8]) -> Option<DataRequest>
    ensures { result ≡ data_body k body.now }
{
    match k {
        DataKind::State => scan_body(&[], body).map(|_| DataRequest::State),
        DataKind::Backup => start_backup(body),
        DataKind::Recover => start_recover(body),
        DataKind::Environment => scan_body(&[], body).map(|_| DataRequest::Environment),
        DataKind::Stop => scan_body(&[], body).map(|_| DataRequest::Stop),
        DataKind::Listen => {
            scan_by_type(&[TCP], &[LOCAL], body, 0).map(|s| DataRequest::Listen(s.words[0]))
        }
    }
}

#[tactic(auto, unfolding(wire_requests::specs::Bodies::mover_body))]
pub fn decode_mover(k: MoverKind, body: &[u8]) -> Option<MoverRequest>
    ensures { result ≡ mover_body k body.now }
{
    match k {
        MoverKind::State => scan_body(&[], body).map(|_| MoverRequest::State),
        MoverKind::Listen => scan_by_type(&[WORD, TCP], &[WORD, LOCAL], body, 4).map(
            |s| MoverRequest::Listen(s.words[0], s.words[1]),
        ),
        MoverKind::Continue => scan_body(&[], body).map(|_| MoverRequest::Continue),
        MoverKind::Stop => scan_body(&[], body).map(|_| MoverRequest::Stop),
        MoverKind::Window => scan_body(&[HYPER, HYPER], body).map(|s| MoverRequest::Window(
            s.hypers[0],
            s.hypers[1],
        )),
        MoverKind::Read => scan_body(&[HYPER, HYPER], body).map(|s| MoverRequest::Read(
            s.hypers[0],
            s.hypers[1],
        )),
        MoverKind::Size => scan_body(&[WORD], body).map(|s| MoverRequest::Size(s.words[0])),
    }
}

#[tactic(auto, unfolding(wire_requests::specs::Bodies::joint_body))]
pub fn decode_joint(k: JointKind, body: &[u8]) -> Option<JointRequest>
    ensures { result ≡ joint_body k body.now }
{
    match k {
        JointKind::DataAbort => scan_body(&[], body).map(|_| JointRequest::DataAbort),
        JointKind::DataConnect => scan_by_type(&[TCP, Field::Addresses], &[LOCAL], body, 0).map(
            |s| JointRequest::DataConnect(s.words[0], s.words[1]),
        ),
        JointKind::MoverAbort => scan_body(&[], body).map(|_| JointRequest::MoverAbort),
        JointKind::MoverClose => scan_body(&[], body).map(|_| JointRequest::MoverClose),
        JointKind::MoverConnect => {
            scan_by_type(&[WORD, TCP, Field::Addresses], &[WORD, LOCAL], body, 4).map(
                |s| JointRequest::MoverConnect(s.words[0], s.words[1], s.words[2]),
            )
        }
    }
}

// The request that a message and its body are. Not inlined: its frame is gone before the request is served.
#[inline(never)]
pub fn decode(m: Message, body: &[u8]) -> Request
    ensures { Decoded m body.now result }
{
    match m {
        Message::Connect(k) => decode_connect(k, body).map_or(Request::Bad, Request::Connect),
        Message::Config(k) => decode_config(k, body).map_or(Request::Bad, Request::Config),
        Message::Scsi(k) => decode_scsi(k, body).map_or(Request::Bad, Request::Scsi),
        Message::Tape(k) => decode_tape(k, body).map_or(Request::Bad, Request::Tape),
        Message::Data(k) => decode_data(k, body).map_or(Request::Bad, Request::Data),
        Message::Mover(k) => decode_mover(k, body).map_or(Request::Bad, Request::Mover),
        Message::Joint(k) => decode_joint(k, body).map_or(Request::Bad, Request::Joint),
        Message::Unknown => Request::Unknown,
    }
}
