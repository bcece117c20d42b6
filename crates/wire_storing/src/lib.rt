// The store of a data end's environment: judged, and written from the pairs of a body.
#![tactic(auto)]

ghost use Rattle.std.specs.Prelude.{◌≡◌, true, ◌+◌, ◌*◌, ◌≤◌, ◌<◌, length};
ghost use Rattle.std.specs.Iterator.{YieldsFirstBy, at_most};
ghost use Rattle.xdr.specs.Xdr.{be32s, overlay};
ghost use Rattle.codes.specs.Codes.{most_listed, store_length};
ghost use Rattle.wire_pairs.specs.Pairs.{pair, text_at, next_at, pairs_from};
ghost use Rattle.wire_pairs.specs.Store.{pair_words, pair_texts, text_bytes, storing, fits, emptied, laid_from, is_laid};
ghost use Rattle.wire_storing.specs.Sent.{sent};

use xdr_opaque::{opaque_at, put_bytes, put_words, word_at};

// Makes a store's count 0, and touches nothing else.
pub fn empty(store: &mut [u8])
    requires { 4 ≤ length store.old }
    ensures { store.new ≡ emptied store.old }
{
    xdr::write_word(store, 0, 0);
}

// Whether the words of so many pairs say texts without gaps that end within the store.
fn pairs_laid(store: &[u8], count: u32) -> bool
    requires { (4 + 16 * count ≤ length store.now) × (count ≤ most_listed) }
    ensures { result ≡ laid_from store.now count 4 0 }
{
    let mut at: usize = 4;
    let mut sum: usize = 0;
    // `i` is named by the invariant alone.
    for i in 0..count {
        let name = xdr::read_word(store, at + 4) as usize;
        let value = xdr::read_word(store, at + 12) as usize;
        if xdr::read_word(store, at) as usize != sum {
            return false;
        }
        if xdr::read_word(store, at + 8) as usize != sum + name {
            return false;
        }
        sum += name + value;
        at += 16;
    }
    at + sum <= store.len()
}

// Whether a store is laid out as one.
#[tactic(auto, using(xdr_opaque::proofs::Laws::word_within))]
pub fn is_laid(store: &[u8]) -> bool
    ensures { result ≡ is_laid store.now }
{
    let Some(count) = word_at(store, 0) else {
        return false;
    };
    if codes::MOST_LISTED < count {
        return false;
    }
    if store.len() - 4 < 16 * (count as usize) {
        return false;
    }
    pairs_laid(store, count)
}

// The text of a body at an offset, and the offset behind it; an empty one where there is none.
fn text_at<'a>(body: &'a [u8], at: usize) -> (&'a [u8], usize)
    ensures bytes { result.0.now ≡ text_at body.now at }
    ensures next { result.1 ≡ next_at body.now at }
{
    match opaque_at(body, at) {
        Some(text) => (&body[text.start..text.start + text.len], text.next),
        None => (&[], at),
    }
}

// The pairs of a body that are still to come: name and value.
#[derive(Clone, Copy)]
struct SentPairs<'a> {
    body: &'a [u8],
    at: usize,
    left: u32,
}

impl<'a> SentPairs<'a> {
    // So many pairs of a body, from an offset on.
    fn of(body: &'a [u8], at: usize, count: u32) -> SentPairs<'a>
        ensures { sent result ≡ pairs_from body.now count at }
    {
        SentPairs {
            body,
            at,
            left: count,
        }
    }
}

impl<'a> Iterator for SentPairs<'a> {
    type Item = (&'a [u8], &'a [u8]);

    ghost next_gives = { YieldsFirstBy (λ p. pair p.0.now p.1.now) sent };

    ghost remaining = { λ s. at_most s.left };

    fn next(&mut self) -> Option<(&'a [u8], &'a [u8])> {
        if self.left == 0 {
            return None;
        }
        let body = self.body;
        let (name, behind) = text_at(body, self.at);
        let (value, next) = text_at(body, behind);
        *self = SentPairs {
            body,
            at: next,
            left: self.left - 1,
        };
        Some((name, value))
    }
}

// Whether so many pairs of a body fit in a store.
pub fn fit(body: &[u8], start: usize, count: u32) -> bool
    ensures { result ≡ fits (pairs_from body.now count start) }
{
    if codes::MOST_LISTED < count {
        return false;
    }
    let mut room = codes::STORE_LENGTH - 4 - 16 * (count as usize);
    for (name, value) in SentPairs::of(body, start, count) {
        if room < name.len() {
            return false;
        }
        room -= name.len();
        if room < value.len() {
            return false;
        }
        room -= value.len();
    }
    true
}

// Writes the words of pairs, behind the count.
fn keep_words(store: &mut [u8], pairs: SentPairs<'_>)
    requires { (4 + 16 * length (sent pairs) ≤ length store.old) × (text_bytes (sent pairs) ≤ store_length) }
    ensures { store.new ≡ overlay 4 (be32s (pair_words 0 (sent pairs.entry))) store.old }
{
    let mut to: usize = 4;
    let mut from: usize = 0;
    for (name, value) in pairs {
        let second = from + name.len();
        let words = [
            from as u32,
            name.len() as u32,
            second as u32,
            value.len() as u32,
        ];
        to = put_words(store, to, &words);
        from = second + value.len();
    }
}

// Writes the texts of pairs, from an offset of the store on.
fn keep_texts(store: &mut [u8], first: usize, pairs: SentPairs<'_>)
    requires { first + text_bytes (sent pairs) ≤ length store.old }
    ensures { store.new ≡ overlay first (pair_texts (sent pairs.entry)) store.old }
{
    let mut to = first;
    for (name, value) in pairs {
        to = put_bytes(store, to, name);
        to = put_bytes(store, to, value);
    }
}

// Keeps so many pairs of a body in a store: the count, their words, then their texts. Bytes past them stay.
pub fn keep(store: &mut [u8], body: &[u8], start: usize, count: u32)
    requires { (store_length ≤ length store.old) × (fits (pairs_from body.now count start) ≡ true) }
    ensures { store.new ≡ storing (pairs_from body.now count start) store.old }
{
    let pairs = SentPairs::of(body, start, count);
    xdr::write_word(store, 0, count);
    keep_words(store, pairs);
    keep_texts(store, 4 + 16 * (count as usize), pairs);
}
