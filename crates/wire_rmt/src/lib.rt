// The remote tape protocol of source 001: commands and replies, as definitions. `wire_rmt_reading` reads the one and
// `wire_rmt_writing` writes the other.
#![tactic(auto)]

ghost use Rattle.wire_rmt.specs.Holds.{NumbersHold, CommandsHold, RepliesHold};
ghost use Rattle.wire_rmt.specs.Cases.{RmtCases};

use wire_layouts::Text;

// A number, and the offset behind its line feed.
#[derive(Clone, Copy, Debug, PartialEq, Eq)]
pub struct Number {
    pub value: u32,
    pub next: usize,
}

// A command; a path and data are their places in it. Operate holds 001's number of the operation, and its count.
#[derive(Clone, Copy)]
pub enum Command {
    Open(Text, u32),
    Close,
    Read(u32),
    Write(Text),
    Operate(u32, u32),
}

// No work: its contract is that digits are read as the number that they come to, and nothing else, and that a number which is
// written in decimal is read back.
pub fn numbers_hold()
    ensures { NumbersHold }
{}

// No work: its contract is that a command which is sent is read back, and that no other bytes are read.
pub fn commands_hold()
    ensures { CommandsHold }
{}

// No work: its contract is that the number of a reply is read back.
pub fn replies_hold()
    ensures { RepliesHold }
{}

// No work: its contract is what commands, numbers and replies that are written out come to, computed.
pub fn rmt_cases()
    ensures { RmtCases }
{}
