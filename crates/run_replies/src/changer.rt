// The replies to the changer's CDBs: each sense of a refused one, and the status of elements, whole and cut, of a slot list with the cartridge 9 in the
// drive, 3 in slot 17 and 7 in slot 23.
use super::sending::{refuse, send};
use changer_elements::Asked;
use std::io;
use std::io::Write;
use wire_replies::Reply;

fn check(out: &mut impl Write, name: &str, n: u32, code: u8, qualifier: u8) -> io::Result<()> {
    send(out, name, n, 0x206, Reply::Check(5, code, qualifier), b"")
}

fn status(out: &mut impl Write, name: &str, n: u32, asked: Asked) -> io::Result<()> {
    let mut bytes = [0xAAu8; codes::MOST_STATUS];
    let len = changer_status::write_status(&mut bytes, asked, [9, 0, 3, 0, 0, 0, 0, 0, 7]);
    send(out, name, n, 0x206, Reply::Elements, &bytes[..len])
}

fn whole(kind: u32, start: u32, cut: u32) -> Asked {
    Asked {
        kind,
        start,
        number: 10,
        cut,
    }
}

fn checks(out: &mut impl Write) -> io::Result<()> {
    check(out, "check_short", 58, 0x24, 0x00)?;
    check(out, "check_element", 59, 0x21, 0x01)?;
    check(out, "check_full", 60, 0x3B, 0x0D)?;
    check(out, "check_empty", 61, 0x3B, 0x0E)?;
    check(out, "check_held", 62, 0x53, 0x02)?;
    send(
        out,
        "sense_full_14",
        63,
        0x206,
        Reply::Sense(14, 5, 0x3B, 0x0D),
        b"",
    )
}

pub fn replies(out: &mut impl Write) -> io::Result<()> {
    checks(out)?;
    status(out, "status_all", 64, whole(0, 0, 255))?;
    status(out, "status_cut_101", 65, whole(0, 0, 101))?;
    status(out, "status_cut_8", 66, whole(0, 0, 8))?;
    status(out, "status_cut_0", 67, whole(0, 0, 0))?;
    status(out, "status_drive", 68, whole(4, 0, 255))?;
    status(out, "status_from_22", 69, whole(0, 22, 255))?;
    status(out, "status_none", 70, whole(3, 0, 255))?;
    refuse(out, "tape_open_not_loaded", 71, 0x300, 0, 10, 0)
}
