// Bodies by their layouts: what each is read as. `wire_scanning` reads them.
#![tactic(auto)]

ghost use Rattle.std.specs.Prelude.{◌≡◌};
ghost use Rattle.wire_layouts.specs.Texts.{bytes_at, Within};
ghost use Rattle.wire_layouts.specs.Laws.{FieldsRoundTrip, FieldsOneSpelling, UnreadRests};
ghost use Rattle.wire_layouts.specs.AddressLists.{AddressesGiven, empty_addresses};
ghost use Rattle.wire_layouts.specs.AddressCases.{AddressCases};

// A text or opaque data in the body: where it starts, and how long it is.
// A start and a length in place of a slice: a decoded request keeps no borrow of its record, and its definitions speak of places.
#[derive(Clone, Copy)]
pub struct Text {
    pub start: usize,
    pub len: usize,
}

impl Text {
    // Its bytes.
    pub fn of<'a>(self, body: &'a [u8]) -> &'a [u8]
        requires { Within body.now self }
        ensures { result.now ≡ bytes_at body.now self }
    {
        &body[self.start..self.start + self.len]
    }
}

// A part of a field: a port is an unsigned short, which takes a whole word; a digest is 16 bytes with no length before them.
#[derive(Clone, Copy)]
pub enum Part {
    Word,
    Hyper,
    Text,
    Port,
    Digest,
}

// A field of a layout: one part; the pairs of an environment, the names of a recover, or the addresses of a connect, each a counted
// list; or a tag, which is a word behind which, where it is another than this, the rest is not read.
#[derive(Clone, Copy)]
pub enum Field {
    One(Part),
    Pairs,
    Names,
    Addresses,
    Tag(u32),
}

// What is kept of the fields of a body that decodes, each at its number. An array for each kind: a decoder takes what its layout says stands
// there, with no case for the other kinds.
#[derive(Clone, Copy)]
pub struct Scan {
    pub words: [u32; 5],
    pub hypers: [u64; 5],
    pub texts: [Text; 5],
}

// The addresses of a list: a host and a port each, as many as count says. The C interface fixes this form.
#[repr(C)]
#[derive(Clone, Copy)]
pub struct Addresses {
    pub count: u32,
    pub hosts: [u32; 16],
    pub ports: [u32; 16],
}

impl Addresses {
    // So many addresses, of which none is kept yet.
    pub fn empty(count: u32) -> Addresses
        ensures { result ≡ empty_addresses count }
    {
        Addresses {
            count,
            hosts: [0; 16],
            ports: [0; 16],
        }
    }
}

// A field, and the offset after it; Stop is a tag behind which the rest is not read.
#[derive(Clone, Copy)]
pub enum Seen {
    Word(u32, usize),
    Hyper(u64, usize),
    Place(Text, usize),
    Stop(u32),
}

// No work: their contracts are that these are the addresses that the decoder reads, and what lists written out by hand are read as.
pub fn addresses_given()
    ensures { AddressesGiven }
{}

pub fn address_cases()
    ensures { AddressCases }
{}

// No work: their contracts are the laws of every layout.
pub fn round_trip()
    ensures { FieldsRoundTrip }
{}

pub fn one_spelling()
    ensures { FieldsOneSpelling }
{}

pub fn unread_rests()
    ensures { UnreadRests }
{}
