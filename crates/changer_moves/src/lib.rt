// The code of the slot list and of moves: `changer_elements` has the definitions.
#![tactic(auto)]

ghost use Rattle.std.specs.Prelude.{◌≡◌, true, ◌+◌, ◌<◌, ◌≤◌, length, IfOk};
ghost use Rattle.changer_elements.specs.Elements.{has_place, place_of, half};
ghost use Rattle.changer_elements.specs.Slots.{names_none_twice, moved};
ghost use Rattle.changer_elements.specs.Move.{is_movable, is_held, judge_move, move_medium};

use changer_elements::{DRIVE, FIRST_SLOT, LAST_SLOT, Places, Sense, TRANSPORT};

// A field of two bytes.
#[tactic(auto, unfolding(changer_elements::specs::Elements::half))]
pub fn half(s: &[u8], at: usize) -> u32
    requires { at + 2 ≤ length s.now }
    ensures { (result ≡ half s.now at) × (result < 65536) }
{
    u32::from(u16::from_be_bytes([s[at], s[at + 1]]))
}

// Whether an element has a place in the list: all but the transport.
#[tactic(auto, unfolding(changer_elements::specs::Elements::has_place, xdr::specs::Choose::choose))]
pub fn has_place(element: u32) -> bool
    ensures { result ≡ has_place element }
{
    element == DRIVE || (FIRST_SLOT..=LAST_SLOT).contains(&element)
}

// The place of an element that has one.
#[tactic(auto, using(changer_elements::proofs::Laws::slot_between), unfolding(changer_elements::specs::Elements::place_of, xdr::specs::Choose::choose))]
pub fn place_of(element: u32) -> usize
    requires { has_place element ≡ true }
    ensures { (result ≡ place_of element) × (result ≤ 8) }
{
    if element == DRIVE {
        return 0;
    }
    (element - FIRST_SLOT + 1) as usize
}

// Whether a list names no cartridge twice.
pub fn names_none_twice(slots: [u32; 9]) -> bool
    ensures { result ≡ names_none_twice slots }
{
    for (place, cartridge) in slots.iter().enumerate() {
        if *cartridge != 0 && slots[place + 1..].contains(cartridge) {
            return false;
        }
    }
    true
}

// The list after a move from one place to another.
#[tactic(auto, unfolding(changer_elements::specs::Slots::moved))]
pub fn moved(mut slots: [u32; 9], places: Places) -> [u32; 9]
    requires { (places.from ≤ 8) × (places.to ≤ 8) }
    ensures { result ≡ moved places.from places.to slots }
{
    slots[places.to] = slots[places.from];
    slots[places.from] = 0;
    slots
}

// Whether the fields of a move name the transport and two elements that have places.
#[tactic(auto, unfolding(changer_elements::specs::Move::is_movable, xdr::specs::Choose::choose))]
fn is_movable(transport: u32, source: u32, destination: u32) -> bool
    ensures { result ≡ is_movable transport source destination }
{
    transport == TRANSPORT && has_place(source) && has_place(destination)
}

// Whether a move is from or to the drive while the tape is open.
#[tactic(auto, unfolding(changer_elements::specs::Move::is_held, xdr::specs::Choose::choose))]
fn is_held(opened: bool, source: u32, destination: u32) -> bool
    ensures { result ≡ is_held opened source destination }
{
    opened && (source == DRIVE || destination == DRIVE)
}

// A move by its three fields.
#[tactic(auto, using(changer_elements::proofs::Laws::movable_places), unfolding(changer_elements::specs::Move::judge_move, changer_elements::specs::Elements::is_full, xdr::specs::Choose::choose))]
fn judge_move(
    transport: u32,
    source: u32,
    destination: u32,
    slots: [u32; 9],
    opened: bool,
) -> Result<Places, Sense>
    ensures outcome { result ≡ judge_move transport source destination slots opened }
    ensures within { IfOk result (λ p. (p.from ≤ 8) × (p.to ≤ 8)) }
{
    if !is_movable(transport, source, destination) {
        return Err(Sense::WRONG_ELEMENT);
    }
    let from = place_of(source);
    let to = place_of(destination);
    if slots[to] != 0 {
        return Err(Sense::DESTINATION_FULL);
    }
    if slots[from] == 0 {
        return Err(Sense::SOURCE_EMPTY);
    }
    if is_held(opened, source, destination) {
        return Err(Sense::DRIVE_HELD);
    }
    Ok(Places { from, to })
}

// MOVE MEDIUM, judged; opened is whether the tape is.
#[tactic(auto, using(changer_elements::proofs::Laws::fields_are), unfolding(changer_elements::specs::Move::move_medium, xdr::specs::Choose::choose))]
pub fn move_medium(cdb: &[u8], slots: [u32; 9], opened: bool) -> Result<Places, Sense>
    ensures outcome { result ≡ move_medium cdb.now slots opened }
    ensures within { IfOk result (λ p. (p.from ≤ 8) × (p.to ≤ 8)) }
{
    if cdb.len() < changer_elements::CDB_BYTES {
        return Err(Sense::SHORT_CDB);
    }
    let source = half(cdb, 4);
    let destination = half(cdb, 6);
    judge_move(half(cdb, 2), source, destination, slots, opened)
}
