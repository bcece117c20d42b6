// The accounts that a host lends, listed: a line for each, by its number and its kind. No session is looked at, and no password.
#![tactic(auto)]

ghost use Rattle.std.specs.Prelude.{◌+◌, ◌≤◌, ◌<◌, length};
ghost use Rattle.xdr_opaque.specs.Put.{Put};
ghost use Rattle.codes.specs.Codes.{most_accounts};
ghost use Rattle.wire_accounts.specs.Entry.{number_of};
ghost use Rattle.wire_accounts.specs.Walk.{to_come};
ghost use Rattle.call_accounts.specs.Listing.{least_listing, line_of, lines_from, ListingTold};
ghost use Rattle.call_accounts.specs.Cases.{ListingCases};
ghost use Rattle.call_accounts.specs.Holds.{ListingHolds};

use wire_accounts::{Accounts, Kind};
use xdr_opaque::put_bytes;

// The least room that a listing must have: eight lines of twelve bytes.
pub const LEAST_LISTING: usize = 96;

// What a listing returns; code is a number, as C has it, and len is how many bytes stand at the output's start.
#[repr(C)]
#[derive(Clone, Copy)]
pub struct Listed {
    pub code: u32,
    pub len: usize,
}

// Writes an account's line; returns the offset after it.
fn put_line(out: &mut [u8], at: usize, number: u8, kind: Kind) -> usize
    requires { (at + 12 ≤ length out.old) × (number < 10) }
    ensures { Put at (line_of number (number_of kind)) out.old result out.new }
{
    out[at] = b'0' + number;
    match kind {
        Kind::Md5 => put_bytes(out, at + 1, b" md5\n"),
        Kind::Text => put_bytes(out, at + 1, b" withdrawn\n"),
    }
}

// Writes the lines of accounts, in their order; returns the offset after them.
fn put_lines(out: &mut [u8], accounts: Accounts<'_>) -> usize
    requires { (least_listing ≤ length out.old) × (length (to_come accounts) ≤ most_accounts) }
    ensures { Put 0 (lines_from 0 (to_come accounts.entry)) out.old result out.new }
{
    let mut next: usize = 0;
    // A byte, of which the line's digit is made: `enumerate` counts as `usize`, which would have to be narrowed at each line.
    let mut number: u8 = 0;
    for account in accounts {
        next = put_line(out, next, number, account.kind);
        number += 1;
    }
    next
}

// Lists the accounts into the output. A buffer that is not laid out as accounts has no line.
pub fn list_accounts(accounts: &[u8], out: &mut [u8]) -> Listed
    ensures { ListingTold accounts.now out.old result out.new }
{
    if out.len() < LEAST_LISTING {
        return Listed {
            code: codes::SHORT_OUTPUT,
            len: 0,
        };
    }
    let Some(entries) = Accounts::read(accounts) else {
        return Listed { code: 0, len: 0 };
    };
    let len = put_lines(out, entries);
    Listed { code: 0, len }
}

// No work: its contract is what buffers that are written out are listed as, and into which outputs, computed.
pub fn listing_cases()
    ensures { ListingCases }
{}

// No work: its contract is what a listing says of every buffer, line by line, and what it leaves of the output.
pub fn listing_holds()
    ensures { ListingHolds }
{}
