// The calls for a host in Rust or C. None asks anything of its caller: each promises what the call of the same name below promises. Names and
// parameters are those of include/mossgoblin.h, so `made` and `lost` are two calls, and each buffer is a parameter.
#![tactic(auto)]

ghost use Rattle.std.specs.Prelude.{ℕ, ◌≡◌, List, [], length};
ghost use Rattle.rules.specs.Answer.{held, answered};
ghost use Rattle.rules.specs.Calls.{opening};
ghost use Rattle.rules.specs.Rmt.{commanded};
ghost use Rattle.call_sending.specs.Call.{CallTold};
ghost use Rattle.call_request.specs.Call.{lent};
ghost use Rattle.call_addresses.specs.Reading.{addresses_in};
ghost use Rattle.call_accounts.specs.Listing.{ListingTold};
ghost use Rattle.rules_moves.specs.Events.{stamped, moved_to_tape, moved_from_tape, method_ended, connection_made, connection_lost};
ghost use Rattle.call_moves.specs.Told.{MoveTold};

mod tape; // tape.rt: the tape operations alone

use call_accounts::Listed;
use rules_parts::types::{Answer, Moved, Session};
use wire_layouts::Addresses;

// A new session with a slot list, the drive first.
#[unsafe(no_mangle)]
pub extern "C" fn mossgoblin_open(slots: &[u32; 9], time: u32, out: &mut [u8]) -> Answer
    ensures { CallTold (opening slots.now time (length out.old)) result [] [] out.old out.new }
{
    call_request::open(*slots, time, out)
}

// One request: the session, the accounts, the challenge for a client that asks for one, the list of addresses for a listen by TCP, whether the
// connection of a connect by TCP was made, the cartridge, the store of the environment, the record, the time stamp and the output.
#[unsafe(no_mangle)]
pub extern "C" fn mossgoblin_request(
    s: Session,
    accounts: &[u8],
    challenge: &[u8; 64],
    addresses: &[u8],
    made: bool,
    image: &mut [u8],
    variables: &mut [u8],
    input: &[u8],
    time: u32,
    out: &mut [u8],
) -> Answer
    ensures { CallTold (answered (held s image.old variables.old) (lent accounts.now challenge.now addresses.now made time out.old) input.now) result image.new variables.new out.old out.new }
{
    call_request::request(
        s, accounts, challenge, addresses, made, image, variables, input, time, out,
    )
}

// One command of the remote tape protocol: the session, the cartridge, the command and the output. It is handed no store, and leaves it.
#[unsafe(no_mangle)]
pub extern "C" fn mossgoblin_rmt(
    s: Session,
    image: &mut [u8],
    command: &[u8],
    out: &mut [u8],
) -> Answer
    ensures { (variables : List ℕ) → CallTold (commanded (held s image.old variables) (length out.old) command.now) result image.new variables out.old out.new }
{
    call_rmt::rmt(s, image, command, out)
}

// The addresses of a record that is a connect by TCP, for the host to make its connection; none of any other bytes.
#[unsafe(no_mangle)]
pub extern "C" fn mossgoblin_addresses(input: &[u8]) -> Addresses
    ensures { result ≡ addresses_in input.now }
{
    call_addresses::read_addresses(input)
}

// The accounts that a request may be lent, listed into the output by number and kind.
#[unsafe(no_mangle)]
pub extern "C" fn mossgoblin_accounts(accounts: &[u8], out: &mut [u8]) -> Listed
    ensures { ListingTold accounts.now out.old result out.new }
{
    call_accounts::list_accounts(accounts, out)
}

// One move to tape: the session, the cartridge, a part of the stream and whether it is the last, the time stamp and the output.
#[unsafe(no_mangle)]
pub extern "C" fn mossgoblin_move_to_tape(
    s: Session,
    image: &mut [u8],
    stream: &[u8],
    last: bool,
    time: u32,
    out: &mut [u8],
) -> Moved
    ensures { (variables : List ℕ) → MoveTold (moved_to_tape (held s image.old variables) (stamped time (length out.old)) stream.now last) result image.new variables [] out.old out.new }
{
    call_moves::move_to_tape(s, image, stream, last, time, out)
}

// One move from tape: the session, the cartridge, which is only read, the destination, the time stamp and the output.
#[unsafe(no_mangle)]
pub extern "C" fn mossgoblin_move_from_tape(
    s: Session,
    image: &[u8],
    dest: &mut [u8],
    time: u32,
    out: &mut [u8],
) -> Moved
    ensures { (variables : List ℕ) → MoveTold (moved_from_tape (held s image.now variables) (stamped time (length out.old)) dest.old) result image.now variables dest.new out.old out.new }
{
    call_moves::move_from_tape(s, image, dest, time, out)
}

// The end of the method that reads or writes the stream, in success or not. It is handed no cartridge and no store, and leaves both.
#[unsafe(no_mangle)]
pub extern "C" fn mossgoblin_end_method(s: Session, ok: bool, time: u32, out: &mut [u8]) -> Answer
    ensures { (image variables : List ℕ) → CallTold (method_ended (held s image variables) (stamped time (length out.old)) ok) result image variables out.old out.new }
{
    call_moves::end_method(s, ok, time, out)
}

// A connection by TCP was made, with the mover or else with the data end. It is handed no cartridge and no store, and leaves both.
#[unsafe(no_mangle)]
pub extern "C" fn mossgoblin_made(s: Session, mover: bool, time: u32, out: &mut [u8]) -> Answer
    ensures { (image variables : List ℕ) → CallTold (connection_made (held s image variables) (stamped time (length out.old)) mover) result image variables out.old out.new }
{
    call_moves::made(s, mover, time, out)
}

// A connection by TCP was lost, of the mover or else of the data end. It is handed no cartridge and no store, and leaves both.
#[unsafe(no_mangle)]
pub extern "C" fn mossgoblin_lost(s: Session, mover: bool, time: u32, out: &mut [u8]) -> Answer
    ensures { (image variables : List ℕ) → CallTold (connection_lost (held s image variables) (stamped time (length out.old)) mover) result image variables out.old out.new }
{
    call_moves::lost(s, mover, time, out)
}
