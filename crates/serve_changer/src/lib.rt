// The requests of the SCSI interface: a changer that knows four opcodes and refuses the others.
#![tactic(auto)]

ghost use Rattle.std.specs.Prelude.{[], ◌≡◌};
ghost use Rattle.wire_requests.specs.Within.{texts_within};
ghost use Rattle.wire_requests.specs.declared.Request.TheVariants as Request;
ghost use Rattle.changer_elements.specs.Move.{move_medium};
ghost use Rattle.changer_elements.specs.Status.{read_status};
ghost use Rattle.rules.specs.ScsiService.{checks, scsi_open, scsi_clear, scsi_state, sense_length, moves, reports, run_cdb, scsi_cdb, scsi_step};
ghost use Rattle.rules.specs.ScsiService.{status_shown, cdb_shown, scsi_shown};
ghost use Rattle.serve_changer.specs.Done.{Shows, Tells, senses};

use changer_elements::{Asked, Sense};
use codes::NdmpError;
use rules_parts::types::Changer;
use wire_replies::Reply;
use wire_requests::ScsiRequest;

// The most bytes of a CDB.
const LONGEST_CDB: usize = 16;

// An accepted request: its reply and the changer after it; or the elements that the reply tells of, where nothing changes.
#[derive(Clone, Copy)]
pub enum Accepted {
    Replies(Reply, Changer),
    Reports(Asked),
}

// A CDB, and the data-in length that came with it.
#[derive(Clone, Copy)]
struct Cdb<'a> {
    bytes: &'a [u8],
    room: u32,
}

#[tactic(auto, unfolding(xdr::specs::Choose::choose, rules::specs::Judge::judge, rules::specs::ScsiService::scsi_open))]
fn open_changer(c: Changer, named: bool) -> Result<Accepted, NdmpError>
    ensures { Tells c (scsi_open c named) [] result }
{
    if !named {
        return Err(NdmpError::NoDevice);
    }
    if c.opened {
        return Err(NdmpError::DeviceOpened);
    }
    Ok(Accepted::Replies(Reply::Plain, c.cleared(true)))
}

// Clears the pending sense: close, and reset, which leaves the changer open.
#[tactic(auto, unfolding(xdr::specs::Choose::choose, rules::specs::Judge::judge, rules::specs::ScsiService::scsi_clear))]
fn clear(c: Changer, opened: bool) -> Result<Accepted, NdmpError>
    ensures { Tells c (scsi_clear c opened) [] result }
{
    if !c.opened {
        return Err(NdmpError::NotOpen);
    }
    Ok(Accepted::Replies(Reply::Plain, c.cleared(opened)))
}

#[tactic(auto, unfolding(xdr::specs::Choose::choose, rules::specs::Judge::judge, rules::specs::ScsiService::scsi_state))]
fn get_state(c: Changer) -> Result<Accepted, NdmpError>
    ensures { Tells c (scsi_state c) [] result }
{
    if !c.opened {
        return Err(NdmpError::NotOpen);
    }
    Ok(Accepted::Replies(Reply::ScsiState, c))
}

// How many bytes of the sense are handed over.
#[tactic(auto, unfolding(rules::specs::ScsiService::sense_length, xdr::specs::Choose::choose, xdr::specs::Choose::least))]
fn sense_length(cdb: Cdb) -> u32
    ensures { result ≡ sense_length cdb.entry.bytes.now cdb.entry.room }
{
    xdr::byte_at(cdb.bytes, 4)
        .min(cdb.room)
        .min(codes::SENSE_BYTES)
}

// REQUEST SENSE: hands over what is pending, and clears it.
fn request_sense(c: Changer, cdb: Cdb) -> Accepted
    ensures { Shows c (senses c cdb.entry.bytes.now cdb.entry.room) [] result }
{
    let n = sense_length(cdb);
    // Nothing is pending then.
    let next = c.refused(0, 0, 0);
    Accepted::Replies(Reply::Sense(n, c.key, c.code, c.qualifier), next)
}

// Status 2, and a sense that becomes pending.
#[tactic(auto, unfolding(rules::specs::ScsiService::checks))]
fn check(c: Changer, sense: Sense) -> Accepted
    ensures { Shows c (checks c sense) [] result }
{
    let next = c.refused(sense.key, sense.code, sense.qualifier);
    Accepted::Replies(Reply::Check(sense.key, sense.code, sense.qualifier), next)
}

// MOVE MEDIUM; tape is whether the tape is open. It stands beside the changer and the CDB, here and below, as the definitions
// take it: only a move looks at it.
#[tactic(auto, unfolding(rules::specs::ScsiService::moves))]
fn move_medium(tape: bool, c: Changer, cdb: Cdb) -> Accepted
    ensures { Shows c (moves c (move_medium cdb.entry.bytes.now c.slots tape)) [] result }
{
    match changer_moves::move_medium(cdb.bytes, c.slots, tape) {
        Ok(places) => Accepted::Replies(Reply::Cdb, c.holds(changer_moves::moved(c.slots, places))),
        Err(sense) => check(c, sense),
    }
}

// READ ELEMENT STATUS.
#[tactic(auto, unfolding(rules::specs::ScsiService::reports, rules::specs::ScsiService::status_shown))]
fn element_status(c: Changer, cdb: Cdb) -> Accepted
    ensures { Shows c (reports c (read_status cdb.entry.bytes.now cdb.entry.room)) (status_shown (read_status cdb.entry.bytes.now cdb.entry.room) c.slots) result }
{
    match changer_status::read_status(cdb.bytes, cdb.room) {
        Ok(asked) => Accepted::Reports(asked),
        Err(sense) => check(c, sense),
    }
}

// A CDB by its opcode.
#[tactic(auto, unfolding(rules::specs::ScsiService::run_cdb, rules::specs::ScsiService::cdb_shown, xdr::specs::Choose::choose))]
fn run_cdb(tape: bool, c: Changer, cdb: Cdb) -> Accepted
    ensures { Shows c (run_cdb tape c cdb.entry.bytes.now cdb.entry.room) (cdb_shown cdb.entry.bytes.now cdb.entry.room c.slots) result }
{
    match xdr::byte_at(cdb.bytes, 0) {
        codes::TEST_READY => Accepted::Replies(Reply::Cdb, c),
        codes::REQUEST_SENSE => request_sense(c, cdb),
        codes::MOVE_MEDIUM => move_medium(tape, c, cdb),
        codes::ELEMENT_STATUS => element_status(c, cdb),
        _ => check(c, Sense::UNKNOWN_OPCODE),
    }
}

#[tactic(auto, unfolding(rules::specs::ScsiService::scsi_cdb, rules::specs::Judge::judge, xdr::specs::Choose::choose))]
fn execute_cdb(tape: bool, c: Changer, cdb: Cdb) -> Result<Accepted, NdmpError>
    ensures { Tells c (scsi_cdb tape c cdb.entry.bytes.now cdb.entry.room) (cdb_shown cdb.entry.bytes.now cdb.entry.room c.slots) result }
{
    if !c.opened {
        return Err(NdmpError::NotOpen);
    }
    if cdb.bytes.is_empty() || LONGEST_CDB < cdb.bytes.len() {
        return Err(NdmpError::IllegalArguments);
    }
    Ok(run_cdb(tape, c, cdb))
}

// A request of the SCSI interface; tape is whether the tape is open.
#[tactic(auto, unfolding(rules::specs::ScsiService::scsi_step, rules::specs::ScsiService::scsi_shown, rules::specs::ScsiService::changer0, wire_requests::specs::Within::texts_within))]
pub fn serve(tape: bool, c: Changer, q: ScsiRequest, body: &[u8]) -> Result<Accepted, NdmpError>
    requires { texts_within body.now (Request.Scsi q) }
    ensures { Tells c (scsi_step tape c q body.now) (scsi_shown q body.now c.slots) result }
{
    match q {
        ScsiRequest::Open(name) => open_changer(c, xdr::same(name.of(body), b"changer0")),
        ScsiRequest::Close => clear(c, false),
        ScsiRequest::State => get_state(c),
        ScsiRequest::Reset => clear(c, true),
        ScsiRequest::Cdb(cdb, room) => {
            let bytes = cdb.of(body);
            execute_cdb(tape, c, Cdb { bytes, room })
        }
    }
}
