// The cartridge image in a caller's byte slice: where its words lie. No other crate knows the layout. `tape_sound` judges an image, `tape_walking` walks
// over its entries.
// What is known of an image (`Table`, `Sound`, `Placed`) is a record over its bytes: it is lent to read and to write, and a struct that keeps such a fact
// would be needed twice, for & and for &mut.
#![tactic(auto)]

ghost use Rattle.std.specs.Prelude.{◌≡◌, ◌+◌, ◌-◌, ◌*◌, ◌<◌, ◌≤◌, length};
ghost use Rattle.xdr.specs.Xdr.{word};
ghost use Rattle.tape_image.specs.Image.{header_len, capacity, count, used, entry_len, entry_start, body_at};
ghost use Rattle.tape_image.specs.Image.{FieldRead, Table, with_entry};

// The most entries of a table.
pub const MOST_ENTRIES: usize = 4096;

// The most bytes of a body.
pub const LARGEST_BODY: usize = 134217728;

// The bytes of the four words.
pub const HEADER_SIZE: usize = 16;

// The bytes of an entry.
const ENTRY_SIZE: usize = 8;

// The word at a byte offset of the image, as an index or a length.
fn field(image: &[u8], at: usize) -> usize
    requires { at + 4 ≤ length image.now }
    ensures { FieldRead (word image.now at) result }
{
    xdr::read_word(image, at) as usize
}

// The first word, which says that this is a cartridge.
pub fn first_word(image: &[u8]) -> usize
    requires { header_len ≤ length image.now }
    ensures { FieldRead (word image.now 0) result }
{
    field(image, 0)
}

// How many entries the table has room for.
pub fn capacity(image: &[u8]) -> usize
    requires { header_len ≤ length image.now }
    ensures { FieldRead (capacity image.now) result }
{
    field(image, 4)
}

// How many entries there are.
pub fn count(image: &[u8]) -> usize
    requires { header_len ≤ length image.now }
    ensures { FieldRead (count image.now) result }
{
    field(image, 8)
}

// How many bytes of the body are used.
pub fn used_bytes(image: &[u8]) -> usize
    requires { header_len ≤ length image.now }
    ensures { FieldRead (used image.now) result }
{
    field(image, 12)
}

// Where entry i lies, whatever word i is: the capacity may be unjudged.
fn entry_at(i: usize) -> usize
    requires { i < 4294967296 }
    ensures { result ≡ header_len + i * 8 }
{
    HEADER_SIZE + i * ENTRY_SIZE
}

// The length of entry i: 0 for a mark.
pub fn entry_len(image: &[u8], i: usize) -> usize
    requires { Table image.now (i + 1) }
    ensures { FieldRead (entry_len image.now i) result }
{
    field(image, entry_at(i))
}

// Where the bytes of entry i begin in the body.
pub fn entry_start(image: &[u8], i: usize) -> usize
    requires { Table image.now (i + 1) }
    ensures { FieldRead (entry_start image.now i) result }
{
    field(image, entry_at(i) + 4)
}

// Where the body begins.
pub fn body_at(image: &[u8]) -> usize
    requires { header_len ≤ length image.now }
    ensures { result ≡ body_at image.now }
{
    entry_at(capacity(image))
}

// Cuts the table at a position and writes an entry there.
#[tactic(auto, unfolding(crate::specs::Image::with_entry))]
pub fn put_entry(image: &mut [u8], position: usize, keep: usize, len: usize)
    requires { Table image.old (position + 1) × (keep + len < 4294967296) }
    ensures { image.new ≡ with_entry image.old position keep len }
{
    let at = entry_at(position);
    let counts = [(position + 1) as u32, (keep + len) as u32];
    xdr::write_words(image, 8, &counts);
    let entry = [len as u32, keep as u32];
    xdr::write_words(image, at, &entry);
}

// The file and the block number of a position.
#[derive(Clone, Copy)]
pub struct Place {
    pub file: u32,
    pub block: u32,
}
