// The requests of the tape interface. The image is reached through the crate cartridge alone.
#![tactic(auto)]

ghost use Rattle.std.specs.Prelude.{◌≡◌, ℕ, List};
ghost use Rattle.wire_requests.specs.Within.{texts_within};
ghost use Rattle.wire_requests.specs.declared.Request.TheVariants as Request;
ghost use Rattle.rules.specs.Judge.{first};
ghost use Rattle.rules.specs.Served.{error_told};
ghost use Rattle.rules.specs.TapeService.{moved_to, after_mtio, protects, tape_open, tape_close, tape_state, tape_mtio, tape_write, tape_read, device_step};
ghost use Rattle.serve_tape.specs.Done.{Tells, held_tests};

use codes::NdmpError;
use rules::{Accepted, Served};
use rules_parts::types::{Mover, Tape};
use wire_replies::Reply;
use wire_requests::TapeRequest;

// The mode of a tape open that also writes.
const READ_WRITE: u32 = 1;

// Whether an MTIO would write marks to a tape that is open read-only.
#[tactic(auto, unfolding(xdr::specs::Choose::choose, rules::specs::TapeService::protects))]
fn is_protected(op: u32, writable: bool) -> bool
    ensures { result ≡ protects op writable }
{
    op == codes::WRITE_MARKS && !writable
}

fn moved_to(t: Tape, position: usize) -> Tape
    ensures { result ≡ moved_to position t }
{
    Tape { position, ..t }
}

// The device when it is not open.
const CLOSED: Tape = Tape {
    opened: false,
    writable: false,
    position: 0,
};

// MTIO 6 closes the device, as close does; the others leave it open.
#[tactic(auto, unfolding(xdr::specs::Choose::choose, rules::specs::TapeService::after_mtio))]
fn after_mtio(op: u32, t: Tape, position: usize) -> Tape
    ensures { result ≡ after_mtio op position t }
{
    if op == codes::OFF_LINE {
        CLOSED
    } else {
        moved_to(t, position)
    }
}

// What all but open and get state ask: that the device is open, and that the mover does not hold the tape.
#[tactic(auto, unfolding(xdr::specs::Choose::choose, rules::specs::Judge::first))]
fn judge_held(mover: u32, t: Tape) -> Result<(), NdmpError>
    ensures { error_told result ≡ first (held_tests mover t) }
{
    if !t.opened {
        return Err(NdmpError::NotOpen);
    }
    if Mover::holds_tape(mover) {
        return Err(NdmpError::IllegalState);
    }
    Ok(())
}

#[tactic(auto, unfolding(xdr::specs::Choose::choose, rules::specs::Judge::judge, rules::specs::TapeService::tape_open))]
fn open_tape(drive: u32, t: Tape, image: &[u8], named: bool, mode: u32) -> Served<Tape>
    ensures { Tells (tape_open drive t image.now named mode) result image.now image.now }
{
    if READ_WRITE < mode {
        return Err(NdmpError::IllegalArguments);
    }
    if !named {
        return Err(NdmpError::NoDevice);
    }
    if t.opened {
        return Err(NdmpError::DeviceOpened);
    }
    if drive == 0 {
        return Err(NdmpError::NoTapeLoaded);
    }
    if !tape_sound::sound(image) {
        return Err(NdmpError::BadFile);
    }
    let next = Tape {
        opened: true,
        writable: mode == READ_WRITE,
        position: 0,
    };
    Ok(Accepted {
        reply: Reply::Plain,
        next,
    })
}

fn close_tape(mover: u32, t: Tape) -> Served<Tape>
    ensures { (l : List ℕ) → Tells (tape_close mover t l) result l l }
{
    judge_held(mover, t)?;
    Ok(Accepted {
        reply: Reply::Plain,
        next: CLOSED,
    })
}

#[tactic(auto, unfolding(xdr::specs::Choose::choose, rules::specs::Judge::judge, rules::specs::TapeService::tape_state, tape_ops::specs::Answers::is_refusal))]
fn get_state(t: Tape, image: &[u8]) -> Served<Tape>
    ensures { Tells (tape_state t image.now) result image.now image.now }
{
    if !t.opened {
        return Err(NdmpError::NotOpen);
    }
    let s = tape_ops::state(image, t.position)?;
    Ok(Accepted {
        reply: Reply::TapeState(s.file, s.block),
        next: t,
    })
}

// The mover's state, the device and the image are no struct: of the mover only the state is looked at, and each request lends the image in its own way.
fn mtio(mover: u32, t: Tape, image: &mut [u8], op: u32, times: u32) -> Served<Tape>
    ensures { Tells (tape_mtio mover t image.old op times) result image.old image.new }
{
    judge_held(mover, t)?;
    if is_protected(op, t.writable) {
        return Err(NdmpError::PermissionDenied);
    }
    let s = tape_ops::mtio(image, op, t.position, times)?;
    let next = after_mtio(op, t, s.position);
    Ok(Accepted {
        reply: Reply::Mtio(s.error, s.residue),
        next,
    })
}

fn write(mover: u32, t: Tape, image: &mut [u8], bytes: &[u8]) -> Served<Tape>
    ensures { Tells (tape_write mover t image.old bytes.now) result image.old image.new }
{
    judge_held(mover, t)?;
    if !t.writable {
        return Err(NdmpError::PermissionDenied);
    }
    let s = tape_ops::write(image, t.position, bytes)?;
    let next = moved_to(t, s.position);
    Ok(Accepted {
        reply: Reply::Wrote(s.error, s.count),
        next,
    })
}

fn read(mover: u32, t: Tape, image: &[u8], times: u32) -> Served<Tape>
    ensures { Tells (tape_read mover t image.now times) result image.now image.now }
{
    judge_held(mover, t)?;
    let s = tape_ops::read(image, t.position, times)?;
    let next = moved_to(t, s.position);
    Ok(Accepted {
        reply: Reply::Read(s.error, s.start, s.len),
        next,
    })
}

// A request of the tape interface, with the number of the cartridge in the drive, or 0, and the mover's state.
#[tactic(auto, unfolding(rules::specs::TapeService::device_step, wire_requests::specs::Within::texts_within, rules::specs::TapeService::tape0))]
pub fn serve(
    drive: u32,
    mover: u32,
    t: Tape,
    image: &mut [u8],
    q: TapeRequest,
    body: &[u8],
) -> Served<Tape>
    requires { texts_within body.now (Request.Tape q) }
    ensures { Tells (device_step drive mover t image.old q body.now) result image.old image.new }
{
    match q {
        TapeRequest::Open(name, mode) => {
            let named = xdr::same(name.of(body), b"tape0");
            open_tape(drive, t, image, named, mode)
        }
        TapeRequest::Close => close_tape(mover, t),
        TapeRequest::State => get_state(t, image),
        TapeRequest::Mtio(op, times) => mtio(mover, t, image, op, times),
        TapeRequest::Write(bytes) => write(mover, t, image, bytes.of(body)),
        TapeRequest::Read(times) => read(mover, t, image, times),
    }
}
