// Prints replies and notices as they are sent: of each a name and a length, then its bytes.
#![tactic(auto)]

mod changer; // changer.rt: replies to the changer's CDBs
mod lines; // lines.rt: the lines of a record
mod sending; // sending.rt: a record written and printed

use sending::{answer, largest, notify, refuse, send};
use std::io;
use std::io::Write;
use wire_replies::{DataView, MoverView, Notice, Reply};

fn plain(out: &mut impl Write) -> io::Result<()> {
    send(out, "header_unknown", 1, 0x40B, Reply::Header(1), b"")?;
    largest(out)?;
    send(out, "plain", 3, 0x900, Reply::Plain, b"")?;
    refuse(out, "plain_refused", 4, 0xA05, 0, 26, 0)?;
    send(out, "listening", 5, 0x409, Reply::Listening, b"")?;
    refuse(out, "listening_refused", 6, 0xA01, 0, 19, 1)
}

fn config(out: &mut impl Write) -> io::Result<()> {
    send(
        out,
        "connection_types",
        7,
        0x102,
        Reply::ConnectionTypes,
        b"",
    )?;
    refuse(out, "connection_types_refused", 8, 0x102, 0, 4, 1)
}

fn server_info(out: &mut impl Write) -> io::Result<()> {
    send(
        out,
        "server_info_before_auth",
        9,
        0x108,
        Reply::ServerInfo(false),
        b"",
    )?;
    send(out, "server_info", 10, 0x108, Reply::ServerInfo(true), b"")
}

fn scsi(out: &mut impl Write) -> io::Result<()> {
    send(out, "scsi_state", 11, 0x202, Reply::ScsiState, b"")?;
    refuse(out, "scsi_state_refused", 12, 0x202, 0, 6, 3)?;
    send(out, "cdb", 13, 0x206, Reply::Cdb, b"")?;
    refuse(out, "cdb_refused", 14, 0x206, 0, 9, 4)?;
    send(out, "check", 15, 0x206, Reply::Check(5, 0x20, 0), b"")
}

fn sense(out: &mut impl Write) -> io::Result<()> {
    send(out, "sense", 16, 0x206, Reply::Sense(18, 5, 0x20, 0), b"")?;
    send(out, "sense_none", 17, 0x206, Reply::Sense(18, 0, 0, 0), b"")
}

// A length of the sense that is below 18.
fn sense_cut(out: &mut impl Write) -> io::Result<()> {
    send(out, "sense_4", 18, 0x206, Reply::Sense(4, 5, 0x20, 0), b"")?;
    send(
        out,
        "sense_13",
        19,
        0x206,
        Reply::Sense(13, 5, 0x20, 0),
        b"",
    )?;
    send(out, "sense_0", 20, 0x206, Reply::Sense(0, 5, 0x20, 0), b"")
}

fn tape(out: &mut impl Write) -> io::Result<()> {
    send(out, "tape_state", 21, 0x302, Reply::TapeState(2, 3), b"")?;
    refuse(out, "tape_state_refused", 22, 0x302, 1, 7, 9)?;
    send(out, "mtio", 23, 0x303, Reply::Mtio(0, 0), b"")?;
    send(out, "mtio_mark", 24, 0x303, Reply::Mtio(12, 2), b"")
}

fn writes(out: &mut impl Write) -> io::Result<()> {
    send(out, "wrote", 25, 0x304, Reply::Wrote(0, 32768), b"")?;
    send(out, "wrote_refused", 26, 0x304, Reply::Wrote(13, 0), b"")
}

fn reads(out: &mut impl Write) -> io::Result<()> {
    send(
        out,
        "read_5",
        27,
        0x305,
        Reply::Read(0, 3, 5),
        b"abcdefghijkl",
    )?;
    send(
        out,
        "read_8",
        28,
        0x305,
        Reply::Read(0, 4, 8),
        b"abcdefghijkl",
    )
}

fn reads_of_none(out: &mut impl Write) -> io::Result<()> {
    send(
        out,
        "read_nothing",
        29,
        0x305,
        Reply::Read(0, 12, 0),
        b"abcdefghijkl",
    )?;
    send(
        out,
        "read_refused",
        30,
        0x305,
        Reply::Read(12, 0, 0),
        b"abcdefghijkl",
    )
}

fn data_states(out: &mut impl Write) -> io::Result<()> {
    let active = DataView {
        operation: 2,
        state: 1,
        reason: 0,
        address: 0,
        processed: 0xFEDC_BA98_7654_3210,
    };
    send(out, "data_state", 31, 0x400, Reply::DataState(active), b"")?;
    let halted = DataView {
        operation: 1,
        state: 2,
        reason: 4,
        address: 0,
        processed: 3000,
    };
    send(
        out,
        "data_state_halted",
        32,
        0x400,
        Reply::DataState(halted),
        b"",
    )?;
    refuse(out, "data_state_refused", 33, 0x400, 1, 4, 13)
}

fn mover_states(out: &mut impl Write) -> io::Result<()> {
    let paused = MoverView {
        mode: 1,
        state: 3,
        pause: 5,
        halt: 0,
        size: 32768,
        address: 0,
        number: 0x8765_4321,
        moved: 0x0123_4567_89AB_CDEF,
        seek: 0xFFFF_FFFF_FFFF_FFFE,
        left: 0x0000_0001_0000_0000,
        offset: 0xFFFF_FFFF_FFFF_F800,
        length: 0x0000_0000_FFFF_FC00,
    };
    send(
        out,
        "mover_state",
        34,
        0xA00,
        Reply::MoverState(paused),
        b"",
    )?;
    refuse(out, "mover_state_refused", 35, 0xA00, 0, 4, 17)
}

fn notices(out: &mut impl Write) -> io::Result<()> {
    notify(out, "connected", 1, 1049155200, Notice::Connected)?;
    notify(out, "data_halted", 37, 1037, Notice::DataHalted(4))?;
    notify(out, "mover_halted", 38, 1038, Notice::MoverHalted(5))?;
    notify(
        out,
        "mover_paused",
        39,
        1039,
        Notice::MoverPaused(3, 0x0123_4567_89AB_CDEF),
    )
}

// Refusals of the layouts that are not above, as each message has them.
fn refusals(out: &mut impl Write) -> io::Result<()> {
    refuse(out, "server_info_refused", 43, 0x108, 0, 4, 4)?;
    refuse(out, "tape_mtio_refused", 44, 0x303, 0, 19, 1)?;
    refuse(out, "tape_write_refused", 45, 0x304, 0, 19, 1)?;
    refuse(out, "tape_read_refused", 46, 0x305, 0, 19, 1)
}

// Two addresses: 10.0.0.1 and port 10,000 with the pair of A and 1, and 192.168.1.1 and port 65,535 with none.
fn listens(out: &mut impl Write) -> io::Result<()> {
    let list =
        b"\x00\x00\x00\x02\x0A\x00\x00\x01\x00\x00\x27\x10\x00\x00\x00\x01\x00\x00\x00\x01A\x00\x00\x00\x00\x00\x00\x011\x00\x00\x00\xC0\xA8\x01\x01\x00\x00\xFF\xFF\x00\x00\x00\x00";
    send(out, "listening_tcp", 47, 0x409, Reply::ListeningTcp, list)?;
    send(
        out,
        "listening_local_lent_a_list",
        48,
        0xA01,
        Reply::Listening,
        list,
    )
}

fn data_state_by_tcp(out: &mut impl Write) -> io::Result<()> {
    let joined = DataView {
        operation: 1,
        state: 1,
        reason: 0,
        address: 1,
        processed: 0,
    };
    send(
        out,
        "data_state_tcp",
        49,
        0x400,
        Reply::DataState(joined),
        b"",
    )
}

fn mover_state_by_tcp(out: &mut impl Write) -> io::Result<()> {
    let active = MoverView {
        mode: 0,
        state: 2,
        pause: 0,
        halt: 0,
        size: 10240,
        address: 1,
        number: 7,
        moved: 71680,
        seek: 0,
        left: 0,
        offset: 0,
        length: 0xFFFF_FFFF_FFFF_FFFF,
    };
    send(
        out,
        "mover_state_tcp",
        50,
        0xA00,
        Reply::MoverState(active),
        b"",
    )
}

fn states_by_tcp(out: &mut impl Write) -> io::Result<()> {
    data_state_by_tcp(out)?;
    mover_state_by_tcp(out)
}

// Stores: no pair; TYPE=tar, FILESYSTEM=/home and a pair of empty texts, with a byte past them; PATHNAME_SEPARATOR=: and
// TYPE=tar.
#[tactic(auto, unfolding(wire_pairs::specs::Store::is_laid, wire_pairs::specs::Store::laid_from, xdr::specs::Xdr::word, xdr::specs::Choose::choose))]
fn environments(out: &mut impl Write) -> io::Result<()> {
    let none = b"\x00\x00\x00\x00";
    send(out, "environment_none", 51, 0x404, Reply::Environment, none)?;
    let kept =
        b"\x00\x00\x00\x03\x00\x00\x00\x00\x00\x00\x00\x04\x00\x00\x00\x04\x00\x00\x00\x03\x00\x00\x00\x07\x00\x00\x00\x0A\x00\x00\x00\x11\x00\x00\x00\x05\x00\x00\x00\x16\x00\x00\x00\x00\x00\x00\x00\x16\x00\x00\x00\x00TYPEtarFILESYSTEM/home!";
    send(out, "environment", 52, 0x404, Reply::Environment, kept)?;
    let named =
        b"\x00\x00\x00\x02\x00\x00\x00\x00\x00\x00\x00\x12\x00\x00\x00\x12\x00\x00\x00\x01\x00\x00\x00\x13\x00\x00\x00\x04\x00\x00\x00\x17\x00\x00\x00\x03PATHNAME_SEPARATOR:TYPEtar";
    send(
        out,
        "environment_named",
        53,
        0x404,
        Reply::Environment,
        named,
    )?;
    refuse(out, "environment_refused", 54, 0x404, 0, 19, 1)
}

// A challenge of 64 bytes, no two alike.
fn auth_types(out: &mut impl Write) -> io::Result<()> {
    let challenge = b"ABCDEFGHIJKLMNOPQRSTUVWXYZabcdefghijklmnopqrstuvwxyz0123456789+/";
    send(out, "auth_attr_md5", 56, 0x103, Reply::Challenge, challenge)?;
    refuse(out, "auth_attr_refused", 57, 0x103, 0, 9, 1)
}

fn main(rt: HostRuntime) -> io::Result<()> {
    let mut out = rt.stdout();
    plain(&mut out)?;
    config(&mut out)?;
    server_info(&mut out)?;
    scsi(&mut out)?;
    sense(&mut out)?;
    sense_cut(&mut out)?;
    tape(&mut out)?;
    writes(&mut out)?;
    reads(&mut out)?;
    reads_of_none(&mut out)?;
    data_states(&mut out)?;
    mover_states(&mut out)?;
    notices(&mut out)?;
    answer(&mut out)?;
    refusals(&mut out)?;
    listens(&mut out)?;
    states_by_tcp(&mut out)?;
    environments(&mut out)?;
    auth_types(&mut out)?;
    changer::replies(&mut out)?;
    out.flush()
}
