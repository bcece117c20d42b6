// READ ELEMENT STATUS, written: which elements a CDB asks for, and the bytes that tell of them. `changer_elements` has the
// definitions.
#![tactic(auto)]

ghost use Rattle.std.specs.Prelude.{◌≡◌, ◌+◌, ◌*◌, ◌<◌, ◌≤◌, length};
ghost use Rattle.xdr_opaque.specs.Put.{Put};
ghost use Rattle.changer_elements.specs.Status.{type_of, allocation, read_status, is_asked, reported, flags_of, descriptor_bytes};
ghost use Rattle.changer_elements.specs.Status.{descriptor, descriptors, of_type, page, first_of, status_of};
ghost use Rattle.changer_status.specs.Writers.{Few, HandsOver};

use changer_elements::{
    ALL_TYPES, Asked, CDB_BYTES, DESCRIPTOR_BYTES, DRIVE, DRIVE_TYPE, SLOT_TYPE, Sense, TRANSPORT,
    TRANSPORT_TYPE,
};
use changer_moves::half;

// The elements by rising address: the transport, the drive, the slots.
const ELEMENTS: [u16; 10] = [0, 1, 16, 17, 18, 19, 20, 21, 22, 23];

// The allocation length.
#[tactic(auto, unfolding(changer_elements::specs::Status::allocation, changer_elements::specs::Elements::half))]
fn allocation(cdb: &[u8]) -> u32
    requires { 12 ≤ length cdb.now }
    ensures { result ≡ allocation cdb.now }
{
    u32::from_be_bytes([0, cdb[7], cdb[8], cdb[9]])
}

// READ ELEMENT STATUS, judged; room is the data-in length.
#[tactic(auto, unfolding(changer_elements::specs::Status::read_status, changer_elements::specs::Status::asked_by, xdr::specs::Choose::choose, xdr::specs::Choose::least))]
pub fn read_status(cdb: &[u8], room: u32) -> Result<Asked, Sense>
    ensures { result ≡ read_status cdb.now room }
{
    if cdb.len() < CDB_BYTES {
        return Err(Sense::SHORT_CDB);
    }
    Ok(Asked {
        kind: u32::from(cdb[1] % 16),
        start: half(cdb, 2),
        number: half(cdb, 4),
        cut: allocation(cdb).min(room),
    })
}

#[tactic(auto, unfolding(changer_elements::specs::Status::type_of, xdr::specs::Choose::choose))]
fn type_of(element: u16) -> u32
    ensures { result ≡ type_of element }
{
    match u32::from(element) {
        TRANSPORT => TRANSPORT_TYPE,
        DRIVE => DRIVE_TYPE,
        _ => SLOT_TYPE,
    }
}

#[tactic(auto, unfolding(changer_elements::specs::Status::is_asked, xdr::specs::Choose::choose))]
fn is_asked(asked: Asked, element: u16) -> bool
    ensures { result ≡ is_asked asked element }
{
    asked.start <= u32::from(element) && (asked.kind == ALL_TYPES || asked.kind == type_of(element))
}

// Puts the elements to report at the front of a list.
fn report(list: &mut [u16; 10], asked: Asked) -> &[u16]
    ensures { result.now ≡ reported asked }
{
    let mut count = 0;
    for element in ELEMENTS {
        if count < asked.number as usize && is_asked(asked, element) {
            list[count] = element;
            count += 1;
        }
    }
    &list[..count]
}

// Access but at the transport, and Full.
#[tactic(auto, unfolding(changer_elements::specs::Status::flags_of, changer_elements::specs::Elements::is_full, xdr::specs::Choose::choose))]
fn flags_of(slots: [u32; 9], element: u32) -> u32
    ensures { (result ≡ flags_of slots element) × (result < 256) }
{
    if !changer_moves::has_place(element) {
        return 0;
    }
    let place = changer_moves::place_of(element);
    if slots[place] == 0 { 8 } else { 9 }
}

// Writes a descriptor at an offset; returns the offset after it.
#[tactic(auto, using(changer_elements::proofs::Bytes::descriptor_is, crate::proofs::Laws::put_same))]
fn put_descriptor(out: &mut [u8], at: usize, slots: [u32; 9], element: u16) -> usize
    requires { at + descriptor_bytes ≤ length out.old }
    ensures { Put at (descriptor slots element) out.old result out.new }
{
    let address = u32::from(element);
    let flags = flags_of(slots, address);
    xdr_opaque::put_words(out, at, &[address * 65536 + flags * 256, 0, 0])
}

// What a status tells: the elements, and the slot list, by which they are full or empty.
#[derive(Clone, Copy)]
struct Told<'a> {
    es: &'a [u16],
    slots: [u32; 9],
}

impl<'a> Told<'a> {
    // Writes the descriptors of the elements of a type.
    fn put_descriptors(self, out: &mut [u8], at: usize, kind: u32) -> usize
        requires { at + length (descriptors self.slots (of_type kind self.es.now)) ≤ length out.old }
        ensures { Put at (descriptors self.entry.slots (of_type kind self.entry.es.now)) out.old result out.new }
    {
        let mut next = at;
        for element in self.es {
            if type_of(*element) == kind {
                next = put_descriptor(out, next, self.slots, *element);
            }
        }
        next
    }

    // Writes the page of a type: its descriptors, and then its header, which counts their bytes; nothing where there are none.
    #[tactic(auto, using(changer_elements::proofs::Bytes::descriptors_length))]
    fn put_page(self, out: &mut [u8], at: usize, kind: u32) -> usize
        requires { (at + 8 + descriptor_bytes * length (of_type kind self.es.now) ≤ length out.old) × (length (of_type kind self.es.now) ≤ 10) × (kind < 256) }
        ensures { Put at (page self.entry.slots kind self.entry.es.now) out.old result out.new }
    {
        let start = at + 8;
        let end = self.put_descriptors(out, start, kind);
        if end == start {
            return at;
        }
        xdr::write_words(
            out,
            at,
            &[kind * 16777216 + DESCRIPTOR_BYTES, (end - start) as u32],
        );
        end
    }

    // The first address that is reported; 0 where there is none, as the header's field has it.
    #[tactic(auto, unfolding(changer_elements::specs::Status::first_of))]
    fn first(self) -> u32
        ensures { (result ≡ first_of self.entry.es.now) × (result < 65536) }
    {
        match self.es {
            [] => 0,
            [first, ..] => u32::from(*first),
        }
    }

    // Writes the whole status at the front of an output: the pages, and then the header, which counts their bytes.
    #[tactic(auto, using(changer_elements::proofs::Bytes::page_length))]
    fn put_status(self, out: &mut [u8]) -> usize
        requires { (152 ≤ length out.old) × Few self.es.now }
        ensures { Put 0 (status_of self.entry.slots self.entry.es.now) out.old result out.new }
    {
        let second = self.put_page(out, 8, TRANSPORT_TYPE);
        let third = self.put_page(out, second, DRIVE_TYPE);
        let end = self.put_page(out, third, SLOT_TYPE);
        let first = self.first();
        xdr::write_words(
            out,
            0,
            &[first * 65536 + self.es.len() as u32, (end - 8) as u32],
        );
        end
    }
}

// Writes what a CDB asks for at the front of an output of 152 bytes, which hold the longest; returns how many bytes of it are
// handed over. Behind those the output may be written too.
pub fn write_status(out: &mut [u8], asked: Asked, slots: [u32; 9]) -> usize
    requires { 152 ≤ length out.old }
    ensures { HandsOver asked slots result out.new }
{
    let mut list = [0u16; 10];
    let es = report(&mut list, asked);
    let whole = Told { es, slots }.put_status(out);
    (asked.cut as usize).min(whole)
}
