// Bodies read by their layouts.
#![tactic(auto)]

ghost use Rattle.std.specs.Prelude.{◌≡◌, ◌+◌, map, ◌≤◌, length, leb};
ghost use Rattle.wire_layouts.specs.Layout.{one, many, tag, part_at, parts_at, times_at, list_at, field_at, Got};
ghost use Rattle.wire_layouts.specs.declared.Part.TheVariants.{Word as word, Hyper as hyper, Text as text, Port as port, Digest as digest};
ghost use Rattle.wire_layouts.specs.Scans.{empty_scan, scanned, field_of, address_at, addresses, past, forget, field_seen, after_seen};
ghost use Rattle.wire_layouts.specs.AddressLists.{count_seen, addresses_at, is_tcp, lendable};
ghost use Rattle.wire_scanning.specs.Elements.{Passes};

use wire_layouts::{Addresses, Field, Part, Scan, Seen, Text};
use xdr_opaque::{opaque_at, word_at};

// The parts of the elements of lists: a pair of an environment, an ndmp_name, and the start of an ndmp_tcp_addr.
const PAIR: [Part; 2] = [Part::Text, Part::Text];

const NAME: [Part; 6] = [
    Part::Text,
    Part::Text,
    Part::Text,
    Part::Text,
    Part::Hyper,
    Part::Hyper,
];

const HOST_PORT: [Part; 2] = [Part::Word, Part::Port];

// A body and an offset stay two parameters: the offset goes on, and the body is the same.

// Nothing kept yet.
fn nothing() -> Scan
    ensures { result ≡ empty_scan }
{
    Scan {
        words: [0; 5],
        hypers: [0; 5],
        texts: [Text { start: 0, len: 0 }; 5],
    }
}

// Whether so many bytes stand at an offset.
fn stand_at(body: &[u8], at: usize, n: usize) -> bool
    ensures { result ≡ leb (at + n) (length body.now) }
{
    // at + n could wrap
    body.len().checked_sub(n).is_some_and(|last| at <= last)
}

#[tactic(auto, using(crate::proofs::Cases::sees_word, crate::proofs::Cases::misses_word, xdr_opaque::proofs::Laws::word_within))]
fn one_word(body: &[u8], at: usize) -> Option<Seen>
    ensures { result ≡ field_seen (field_at (one word) body.now at) }
{
    let v = word_at(body, at)?;
    Some(Seen::Word(v, at + 4))
}

#[tactic(auto, using(crate::proofs::Cases::sees_hyper, crate::proofs::Cases::misses_hyper))]
fn one_hyper(body: &[u8], at: usize) -> Option<Seen>
    ensures { result ≡ field_seen (field_at (one hyper) body.now at) }
{
    if !stand_at(body, at, 8) {
        return None;
    }
    Some(Seen::Hyper(xdr::read_hyper(body, at), at + 8))
}

#[tactic(auto, using(crate::proofs::Cases::sees_text, crate::proofs::Cases::misses_text))]
fn one_text(body: &[u8], at: usize) -> Option<Seen>
    ensures { result ≡ field_seen (field_at (one text) body.now at) }
{
    let o = opaque_at(body, at)?;
    let text = Text {
        start: o.start,
        len: o.len,
    };
    Some(Seen::Place(text, o.next))
}

#[tactic(auto, using(crate::proofs::Cases::sees_port, crate::proofs::Cases::misses_port, crate::proofs::Cases::no_port, xdr_opaque::proofs::Laws::word_within))]
fn one_port(body: &[u8], at: usize) -> Option<Seen>
    ensures { result ≡ field_seen (field_at (one port) body.now at) }
{
    let v = word_at(body, at)?;
    if codes::MOST_PORT < v {
        return None;
    }
    Some(Seen::Word(v, at + 4))
}

// A digest has no length before it.
#[tactic(auto, using(crate::proofs::Cases::sees_digest, crate::proofs::Cases::misses_digest))]
fn one_digest(body: &[u8], at: usize) -> Option<Seen>
    ensures { result ≡ field_seen (field_at (one digest) body.now at) }
{
    if !stand_at(body, at, codes::DIGEST_LENGTH) {
        return None;
    }
    let text = Text {
        start: at,
        len: codes::DIGEST_LENGTH,
    };
    Some(Seen::Place(text, at + codes::DIGEST_LENGTH))
}

// A field of one part. Inlined: where a part is only passed over, what it holds is then not made.
#[inline(always)]
fn one_part(part: Part, body: &[u8], at: usize) -> Option<Seen>
    ensures { result ≡ field_seen (field_at (one part) body.now at) }
{
    match part {
        Part::Word => one_word(body, at),
        Part::Hyper => one_hyper(body, at),
        Part::Text => one_text(body, at),
        Part::Port => one_port(body, at),
        Part::Digest => one_digest(body, at),
    }
}

// The offset after a field.
#[inline(always)]
#[tactic(auto, unfolding(wire_layouts::specs::Scans::after_seen))]
fn past_field(seen: Seen) -> Option<usize>
    ensures { result ≡ after_seen seen }
{
    match seen {
        Seen::Word(_, next) | Seen::Hyper(_, next) | Seen::Place(_, next) => Some(next),
        Seen::Stop(_) => None,
    }
}

// Passes over a part.
fn part_at(part: Part, body: &[u8], at: usize) -> Option<usize>
    ensures { result ≡ past (part_at part body.now at) }
{
    past_field(one_part(part, body, at)?)
}

// Passes over the parts of an element. Inlined, as the parts are constants where it is called.
#[inline(always)]
fn parts_at(parts: &[Part], body: &[u8], at: usize) -> Option<usize>
    ensures { result ≡ forget (parts_at parts.now body.now at) }
{
    let mut pos = at;
    for part in parts {
        pos = part_at(*part, body, pos)?;
    }
    Some(pos)
}

// Passes over count elements, each as element passes over one.
fn times_at<F: Fn(usize) -> Option<usize>>(element: F, count: u32, at: usize) -> Option<usize>
    requires { F.IsAlwaysCallable element }
    ensures { (e : _ → Got) → Passes (F.post element) e → result ≡ forget (times_at e count at) }
{
    let mut pos = at;
    for _ in 0..count {
        pos = element(pos)?;
    }
    Some(pos)
}

// A counted list of at most so many elements.
fn list_at<F: Fn(usize) -> Option<usize>>(
    most: u32,
    element: F,
    body: &[u8],
    at: usize,
) -> Option<Seen>
    requires { F.IsAlwaysCallable element }
    ensures { (e : _ → Got) → Passes (F.post element) e → result ≡ field_seen (list_at most e body.now at) }
{
    let count = word_at(body, at)?;
    if most < count {
        return None;
    }
    let next = times_at(element, count, at + 4)?;
    Some(Seen::Word(count, next))
}

// A counted list of at most so many elements of the same parts. Inlined, for the same reason.
#[inline(always)]
fn many_at(most: u32, parts: &[Part], body: &[u8], at: usize) -> Option<Seen>
    ensures { result ≡ field_seen (field_at (many most parts.now) body.now at) }
{
    list_at(most, |pos| parts_at(parts, body, pos), body, at)
}

// Passes over an address: its host and its port, then the pairs of its environment.
fn address_at(body: &[u8], at: usize) -> Option<usize>
    ensures { result ≡ forget (address_at body.now at) }
{
    let next = parts_at(&HOST_PORT, body, at)?;
    past_field(many_at(codes::MOST_LISTED, &PAIR, body, next)?)
}

fn address_list(body: &[u8], at: usize) -> Option<Seen>
    ensures { result ≡ field_seen (field_at addresses body.now at) }
{
    list_at(codes::MOST_ADDRESSES, |pos| address_at(body, pos), body, at)
}

#[tactic(auto, using(crate::proofs::Cases::sees_tag, crate::proofs::Cases::stops, crate::proofs::Cases::misses_tag, xdr_opaque::proofs::Laws::word_within))]
fn tagged(body: &[u8], at: usize, k: u32) -> Option<Seen>
    ensures { result ≡ field_seen (field_at (tag k) body.now at) }
{
    let v = word_at(body, at)?;
    if v != k {
        return Some(Seen::Stop(v));
    }
    Some(Seen::Word(v, at + 4))
}

fn field_at(field: Field, body: &[u8], at: usize) -> Option<Seen>
    ensures { result ≡ field_seen (field_at (field_of field) body.now at) }
{
    match field {
        Field::One(part) => one_part(part, body, at),
        Field::Pairs => many_at(codes::MOST_LISTED, &PAIR, body, at),
        Field::Names => many_at(codes::MOST_LISTED, &NAME, body, at),
        Field::Addresses => address_list(body, at),
        Field::Tag(k) => tagged(body, at, k),
    }
}

// The fields of a body by their layout; none where it does not decode.
pub fn scan_body(layout: &[Field], body: &[u8]) -> Option<Scan>
    requires { length layout.now ≤ 5 }
    ensures { result ≡ scanned (map field_of layout.now) body.now }
{
    let mut k = nothing();
    let mut at = 0;
    for (i, field) in layout.iter().enumerate() {
        match field_at(*field, body, at)? {
            Seen::Word(v, next) => {
                k.words[i] = v;
                at = next;
            }
            Seen::Hyper(v, next) => {
                k.hypers[i] = v;
                at = next;
            }
            Seen::Place(text, next) => {
                k.texts[i] = text;
                at = next;
            }
            Seen::Stop(v) => {
                k.words[i] = v;
                return Some(k);
            }
        }
    }
    if at != body.len() {
        return None;
    }
    Some(k)
}

// The count of a list; 0 where no list was seen, as `count_seen` has it.
#[tactic(auto, unfolding(wire_layouts::specs::AddressLists::count_seen))]
fn count_of(seen: Option<Seen>) -> u32
    ensures { result ≡ count_seen seen }
{
    match seen {
        Some(Seen::Word(v, _)) => v,
        _ => 0,
    }
}

// The addresses of the list at an offset; none where it does not decode.
#[tactic(auto, using(wire_layouts::proofs::AddressLists::address_within))]
pub fn addresses_at(body: &[u8], at: usize) -> Addresses
    ensures { result ≡ addresses_at body.now at }
{
    let count = count_of(address_list(body, at));
    // at + 4 could wrap
    if count == 0 {
        return Addresses::empty(0);
    }
    let mut k = Addresses::empty(count);
    let mut pos = at + 4;
    for i in 0..count as usize {
        let Some(next) = address_at(body, pos) else {
            return Addresses::empty(0);
        };
        k.hosts[i] = xdr::read_word(body, pos);
        k.ports[i] = xdr::read_word(body, pos + 4);
        pos = next;
    }
    k
}

// Whether the word at an offset is there, and is the address type TCP.
pub fn is_tcp(body: &[u8], at: usize) -> bool
    ensures { result ≡ is_tcp body.now at }
{
    word_at(body, at) == Some(codes::TCP_ADDRESS)
}

// Whether a list can be lent to a listen by TCP: not too long, of one address or more, and nothing behind them.
pub fn is_lendable(list: &[u8]) -> bool
    ensures { result ≡ lendable list.now }
{
    if codes::MOST_LENT < list.len() {
        return false;
    }
    scan_body(&[Field::Addresses], list).is_some_and(|k| k.words[0] != 0)
}
