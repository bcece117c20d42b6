// The pairs of a store, as the reply to 0x404 gives them.
#![tactic(auto)]

ghost use Rattle.std.specs.Prelude.{◌≡◌, true, [], ◌∷◌, ◌+◌, ◌*◌, ◌≤◌, length};
ghost use Rattle.std.specs.Iterator.{YieldsFirstBy, at_most};
ghost use Rattle.codes.specs.Codes.{store_length};
ghost use Rattle.xdr.specs.Xdr.{word, same_bytes};
ghost use Rattle.xdr_opaque.specs.Put.{Put};
ghost use Rattle.wire_pairs.specs.Pairs.{pair, separator_name, is_named, pair_bytes};
ghost use Rattle.wire_pairs.specs.Store.{is_laid, Left, kept_pairs, environment_of};

// The pairs of a store that are still to come: name and value. The texts stand without gaps, so that each begins where the one
// before ended.
#[derive(Drop)]
pub struct KeptPairs<'a> {
    store: &'a [u8],
    left: usize,
    at: usize,
    text: usize,
    ghost walk: { Left store.now (4 + 16 * word store.now 0) left at text },
}

impl<'a> Iterator for KeptPairs<'a> {
    ghost use Rattle.wire_giving.specs.Kept.{to_come};

    type Item = (&'a [u8], &'a [u8]);

    ghost next_gives = { YieldsFirstBy (λ p. pair p.0.now p.1.now) to_come };

    ghost remaining = { λ s. at_most s.left };

    fn next(&mut self) -> Option<(&'a [u8], &'a [u8])> {
        if self.left == 0 {
            return None;
        }
        let store = self.store;
        let value = self.text + xdr::read_word(store, self.at + 4) as usize;
        let end = value + xdr::read_word(store, self.at + 12) as usize;
        let pair = (&store[self.text..value], &store[value..end]);
        *self = KeptPairs {
            store,
            left: self.left - 1,
            at: self.at + 16,
            text: end,
        };
        Some(pair)
    }
}

// A store that is laid out as one.
#[derive(Clone, Copy)]
pub struct Store<'a> {
    pub bytes: &'a [u8],
    ghost laid: { is_laid bytes.now ≡ true },
    ghost short: { length bytes.now ≤ store_length },
}

fn is_separator(name: &[u8]) -> bool
    ensures { result ≡ same_bytes name.now separator_name }
{
    xdr::same(name, b"PATHNAME_SEPARATOR")
}

// Writes one pair: its name, and its value behind it.
fn put_pair(out: &mut [u8], at: usize, name: &[u8], value: &[u8]) -> usize
    requires room { at + length (pair_bytes (pair name.now value.now ∷ [])) + 4 ≤ length out.old }
    requires short { length name.now + length value.now ≤ store_length }
    ensures { Put at (pair_bytes (pair name.now value.now ∷ [])) out.old result out.new }
{
    let next = xdr_opaque::put_opaque(out, at, name);
    xdr_opaque::put_opaque(out, next, value)
}

impl<'a> Store<'a> {
    ghost use Rattle.wire_giving.specs.Kept.{to_come};

    // The store in these bytes, which were judged before.
    pub fn new(bytes: &'a [u8]) -> Store<'a>
        requires { (is_laid bytes.now ≡ true) × (length bytes.now ≤ store_length) }
        ensures { result.bytes.now ≡ bytes.now }
    {
        Store { bytes }
    }

    // Its pairs.
    pub fn pairs(self) -> KeptPairs<'a>
        ensures { to_come result ≡ kept_pairs self.entry.bytes.now }
    {
        let left = xdr::read_word(self.bytes, 0) as usize;
        KeptPairs {
            store: self.bytes,
            left,
            at: 4,
            text: 4 + 16 * left,
        }
    }

    // Whether a pair has the separator's name.
    pub fn is_named(self) -> bool
        ensures { result ≡ is_named separator_name (kept_pairs self.entry.bytes.now) }
    {
        self.pairs().any(|(name, _)| is_separator(name))
    }

    // How many pairs the reply gives.
    pub fn count(self) -> u32
        ensures { result ≡ length (environment_of self.entry.bytes.now) }
    {
        let kept = xdr::read_word(self.bytes, 0);
        if self.is_named() { kept } else { kept + 1 }
    }

    // Writes the kept pairs; returns the offset after them.
    fn put_kept(self, out: &mut [u8], at: usize) -> usize
        requires { at + length self.bytes.now ≤ length out.old }
        ensures { Put at (pair_bytes (kept_pairs self.entry.bytes.now)) out.old result out.new }
    {
        let mut next = at;
        for (name, value) in self.pairs() {
            next = put_pair(out, next, name, value);
        }
        next
    }

    // Writes the pairs of the reply: those kept, and behind them the separator's where no name is that.
    pub fn put_pairs(self, out: &mut [u8], at: usize) -> usize
        requires { at + 16420 ≤ length out.old }
        ensures { Put at (pair_bytes (environment_of self.entry.bytes.now)) out.old result out.new }
    {
        let next = self.put_kept(out, at);
        if self.is_named() {
            return next;
        }
        put_pair(out, next, b"PATHNAME_SEPARATOR", b"/")
    }
}
