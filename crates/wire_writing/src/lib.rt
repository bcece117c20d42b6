// Replies and notices, written into a caller's output.
#![tactic(auto)]

ghost use Rattle.std.specs.Prelude.{◌≡◌, true, [], ◌∷◌, ◌+◌, ◌*◌, ◌≤◌, length};
ghost use Rattle.codes.specs.Codes.{largest_message, sense_bytes, most_status, most_lent, store_length, md5_auth};
ghost use Rattle.xdr.specs.Xdr.{be32s, overlay};
ghost use Rattle.xdr_opaque.specs.Put.{Put};
ghost use Rattle.wire_pairs.specs.Store.{is_laid};
ghost use Rattle.wire_frame.specs.Frame.{record_bytes};
ghost use Rattle.wire_replies.specs.declared.Reply.TheVariants as Reply;
ghost use Rattle.wire_replies.specs.Replies.{high, low, words_only, sense, address_words, shape_of, body_bytes, header_error, reply_bytes, notice_bytes};
ghost use Rattle.wire_replies.specs.Fit.{Sendable};
ghost use Rattle.wire_replies.specs.Writers.{PutUpTo, header_words};

use wire_giving::Store;
use wire_replies::{DataView, MoverView, Notice, Reply};

// Each writer is handed its offset and returns the one behind what it wrote: `Put` says both in one fact, and the facts of a body chain by `then`. A
// cursor would hide the offset in a field that each clause names again.

// Writes a body of words alone; returns the offset after it.
fn put_body(out: &mut [u8], at: usize, ws: &[u32]) -> usize
    requires { at + 4 * length ws.now ≤ length out.old }
    ensures { Put at (body_bytes (words_only ws.now)) out.old result out.new }
{
    xdr_opaque::put_words(out, at, ws)
}

// Writes a refusal's number with zero words around it.
fn put_refused(out: &mut [u8], at: usize, before: u32, error: u32, after: u32) -> usize
    requires { (at + 72 ≤ length out.old) × (before + after ≤ 17) }
    ensures { Put at (body_bytes (shape_of (Reply.Refused before error after) [])) out.old result out.new }
{
    let first = xdr_opaque::put_zero_words(out, at, before as usize);
    let second = xdr_opaque::put_words(out, first, &[error]);
    xdr_opaque::put_zero_words(out, second, after as usize)
}

// Writes server info with these texts; the one auth type is MD5.
fn put_server_texts(
    out: &mut [u8],
    at: usize,
    vendor: &[u8],
    product: &[u8],
    revision: &[u8],
) -> usize
    requires { (at + 64 ≤ length out.old) × (length vendor.now ≤ 5) × (length product.now ≤ 5) × (length revision.now ≤ 5) }
    ensures { Put at (body_bytes (record { words = 0 ∷ []; raw = []; texts = vendor.now ∷ product.now ∷ revision.now ∷ []; tail = 1 ∷ md5_auth ∷ [] })) out.old result out.new }
{
    let first = xdr_opaque::put_words(out, at, &[0]);
    let second = xdr_opaque::put_opaque(out, first, vendor);
    let third = xdr_opaque::put_opaque(out, second, product);
    let end = xdr_opaque::put_opaque(out, third, revision);
    xdr_opaque::put_words(out, end, &[1, codes::MD5_AUTH])
}

// Writes server info; its texts are empty before auth.
#[tactic(auto, unfolding(wire_replies::specs::Replies::shape_of, wire_replies::specs::Replies::server_texts))]
fn put_server_info(out: &mut [u8], at: usize, known: bool) -> usize
    requires { at + 64 ≤ length out.old }
    ensures { Put at (body_bytes (shape_of (Reply.ServerInfo known) [])) out.old result out.new }
{
    if known {
        put_server_texts(out, at, b"vault", b"tape", b"1")
    } else {
        put_server_texts(out, at, b"", b"", b"")
    }
}

// Writes the reply to execute CDB: no data out is told.
#[tactic(auto, using(crate::proofs::Laws::whole), unfolding(xdr::specs::Xdr::be32s, xdr::specs::Xdr::be32))]
fn put_cdb(out: &mut [u8], at: usize, status: u32, data_in: &[u8], sense: &[u8]) -> usize
    requires { (at + 200 ≤ length out.old) × (length data_in.now ≤ most_status) × (length sense.now ≤ sense_bytes) }
    ensures { Put at (body_bytes (record { words = 0 ∷ status ∷ 0 ∷ []; raw = []; texts = data_in.now ∷ sense.now ∷ []; tail = [] })) out.old result out.new }
{
    let first = xdr_opaque::put_words(out, at, &[0, status, 0]);
    let second = xdr_opaque::put_opaque(out, first, data_in);
    xdr_opaque::put_opaque(out, second, sense)
}

// The 18 sense bytes: the key is byte 2, the code byte 12 and its qualifier byte 13.
#[tactic(auto, unfolding(wire_replies::specs::Replies::sense))]
fn sense_bytes(key: u8, code: u8, qualifier: u8) -> [u8; 18]
    ensures { result ≡ sense key code qualifier }
{
    let mut bytes = *b"\x70\x00\x00\x00\x00\x00\x00\x0A\x00\x00\x00\x00\x00\x00\x00\x00\x00\x00";
    bytes[2] = key;
    bytes[12] = code;
    bytes[13] = qualifier;
    bytes
}

// Writes the first n bytes of the sense as data in. It and the next differ in which of the two texts of put_cdb they lend.
#[tactic(auto, using(crate::proofs::Laws::sense_length_lem), unfolding(wire_replies::specs::Replies::shape_of))]
fn put_sense(out: &mut [u8], at: usize, n: u32, key: u8, code: u8, qualifier: u8) -> usize
    requires { (at + 200 ≤ length out.old) × (n ≤ sense_bytes) }
    ensures { Put at (body_bytes (shape_of (Reply.Sense n key code qualifier) [])) out.old result out.new }
{
    let bytes = sense_bytes(key, code, qualifier);
    let end = n as usize;
    put_cdb(out, at, 0, &bytes[..end], b"")
}

// Writes status 2 with the extended sense.
#[tactic(auto, unfolding(wire_replies::specs::Replies::shape_of))]
fn put_check(out: &mut [u8], at: usize, key: u8, code: u8, qualifier: u8) -> usize
    requires { at + 200 ≤ length out.old }
    ensures { Put at (body_bytes (shape_of (Reply.Check key code qualifier) [])) out.old result out.new }
{
    let bytes = sense_bytes(key, code, qualifier);
    put_cdb(out, at, 2, b"", &bytes)
}

// Writes the outcome and the bytes of a read.
fn put_read(out: &mut [u8], at: usize, outcome: u32, bytes: &[u8]) -> usize
    requires { (at + length bytes.now + 12 ≤ length out.old) × (length bytes.now ≤ 65536) }
    ensures { Put at (body_bytes (record { words = outcome ∷ []; raw = []; texts = bytes.now ∷ []; tail = [] })) out.old result out.new }
{
    let first = xdr_opaque::put_words(out, at, &[outcome]);
    xdr_opaque::put_opaque(out, first, bytes)
}

// Writes the bytes that a reply was lent, behind their type: the list of a listen by TCP, or a challenge.
fn put_lent(out: &mut [u8], at: usize, kind: u32, bytes: &[u8]) -> usize
    requires { (at + length bytes.now + 8 ≤ length out.old) × (length bytes.now ≤ most_lent) }
    ensures { Put at (body_bytes (record { words = 0 ∷ kind ∷ []; raw = bytes.now; texts = []; tail = [] })) out.old result out.new }
{
    let first = xdr_opaque::put_words(out, at, &[0, kind]);
    xdr_opaque::put_bytes(out, first, bytes)
}

// Writes an address with nothing but its type: behind TCP an empty list.
#[tactic(auto, unfolding(wire_replies::specs::Replies::address_words, xdr::specs::Choose::choose))]
fn put_address(out: &mut [u8], at: usize, address: u32) -> usize
    requires { at + 8 ≤ length out.old }
    ensures { Put at (be32s (address_words address)) out.old result out.new }
{
    if address == codes::TCP_ADDRESS {
        return xdr_opaque::put_words(out, at, &[codes::TCP_ADDRESS, 0]);
    }
    xdr_opaque::put_words(out, at, &[codes::LOCAL_ADDRESS])
}

// The first word of a hyper.
fn high(v: u64) -> u32
    ensures { result ≡ high v }
{
    (v / 4_294_967_296) as u32
}

// The second word of a hyper.
fn low(v: u64) -> u32
    ensures { result ≡ low v }
{
    (v % 4_294_967_296) as u32
}

// Writes the data end: 3 marks the two estimates unsupported; what is not kept is zero.
fn put_data_state(out: &mut [u8], at: usize, v: DataView) -> usize
    requires { at + 64 ≤ length out.old }
    ensures { Put at (body_bytes (shape_of (Reply.DataState v) [])) out.old result out.new }
{
    let first = xdr_opaque::put_words(
        out,
        at,
        &[
            3,
            0,
            v.operation,
            v.state,
            v.reason,
            high(v.processed),
            low(v.processed),
            0,
            0,
            0,
        ],
    );
    let second = put_address(out, first, v.address);
    xdr_opaque::put_words(out, second, &[0, 0, 0, 0])
}

// Writes the pairs of a store, behind their count.
fn put_environment(out: &mut [u8], at: usize, store: &[u8]) -> usize
    requires { (at + 16428 ≤ length out.old) × (is_laid store.now ≡ true) × (length store.now ≤ store_length) }
    ensures { Put at (body_bytes (shape_of Reply.Environment store.now)) out.old result out.new }
{
    let kept = Store::new(store);
    let first = xdr_opaque::put_words(out, at, &[0, kept.count()]);
    kept.put_pairs(out, first)
}

// Writes the mover; a hyper is its two words.
fn put_mover_state(out: &mut [u8], at: usize, v: MoverView) -> usize
    requires { at + 76 ≤ length out.old }
    ensures { Put at (body_bytes (shape_of (Reply.MoverState v) [])) out.old result out.new }
{
    let first = xdr_opaque::put_words(
        out,
        at,
        &[
            0,
            v.mode,
            v.state,
            v.pause,
            v.halt,
            v.size,
            v.number,
            high(v.moved),
            low(v.moved),
            high(v.seek),
            low(v.seek),
            high(v.left),
            low(v.left),
            high(v.offset),
            low(v.offset),
            high(v.length),
            low(v.length),
        ],
    );
    put_address(out, first, v.address)
}

// Writes a reply's body at an offset; returns the offset after it. The bytes of a read lie in the image; in its place a
// listen by TCP is lent its list, a challenge its bytes, an environment the store, and a status of elements its bytes.
#[tactic(auto, using(crate::proofs::Laws::part), unfolding(wire_replies::specs::Replies::shape_of, wire_replies::specs::Fit::Sendable))]
pub fn write_body(out: &mut [u8], at: usize, reply: Reply, image: &[u8]) -> usize
    requires { (at + 32800 ≤ length out.old) × Sendable reply image.now }
    ensures { Put at (body_bytes (shape_of reply image.now)) out.old result out.new }
{
    match reply {
        Reply::Header(_) => at,
        Reply::Refused(before, error, after) => put_refused(out, at, before, error, after),
        Reply::Plain => put_body(out, at, &[0]),
        Reply::Listening => put_body(out, at, &[0, codes::LOCAL_ADDRESS]),
        Reply::ListeningTcp => put_lent(out, at, codes::TCP_ADDRESS, image),
        Reply::ConnectionTypes => put_body(
            out,
            at,
            &[0, 2, codes::LOCAL_ADDRESS, codes::TCP_ADDRESS],
        ),
        Reply::Challenge => put_lent(out, at, codes::MD5_AUTH, image),
        Reply::ServerInfo(known) => put_server_info(out, at, known),
        Reply::ScsiState => put_body(out, at, &[0, 0, 0, 0]),
        Reply::Cdb => put_cdb(out, at, 0, b"", b""),
        Reply::Sense(n, key, code, qualifier) => put_sense(out, at, n, key, code, qualifier),
        Reply::Check(key, code, qualifier) => put_check(out, at, key, code, qualifier),
        Reply::Elements => put_cdb(out, at, 0, image, b""),
        Reply::TapeState(file, block) => put_body(
            out,
            at,
            &[0, 0, 0, file, 0, 0, block, 0, 0, 0, 0],
        ),
        Reply::Mtio(outcome, residue) => put_body(out, at, &[outcome, residue]),
        Reply::Wrote(outcome, count) => put_body(out, at, &[outcome, count]),
        Reply::Read(outcome, start, len) => put_read(out, at, outcome, &image[start..start + len]),
        Reply::DataState(view) => put_data_state(out, at, view),
        Reply::Environment => put_environment(out, at, image),
        Reply::MoverState(view) => put_mover_state(out, at, view),
    }
}

// The error that stands in a reply's header.
#[tactic(auto, unfolding(wire_replies::specs::Replies::header_error))]
pub fn header_error(reply: Reply) -> u32
    ensures { result ≡ header_error reply }
{
    match reply {
        Reply::Header(error) => error,
        _ => 0,
    }
}

// The six words of a header, of a request, a reply or a notice.
#[derive(Clone, Copy)]
struct Header {
    sequence: u32,
    time: u32,
    kind: u32,
    message: u32,
    echo: u32,
    error: u32,
}

impl Header {
    // Writes the mark and the header in front of a body of len bytes.
    fn write(self, out: &mut [u8], at: usize, len: usize)
        requires { (at + 28 ≤ length out.old) × (24 + len ≤ largest_message) }
        ensures { out.new ≡ overlay at (be32s (header_words len self.sequence self.time self.kind self.message self.echo self.error)) out.old }
    {
        let mark = 0x8000_0000 + (24 + len) as u32;
        let words = [
            mark,
            self.sequence,
            self.time,
            self.kind,
            self.message,
            self.echo,
            self.error,
        ];
        xdr::write_words(out, at, &words);
    }
}

// Writes a reply at the front of the output; returns its length. What the caller knows of the header stands apart, as in `reply_bytes`: the rest is the
// reply's own, and a caller has no header before it.
pub fn write_reply(
    out: &mut [u8],
    sequence: u32,
    time: u32,
    message: u32,
    echo: u32,
    reply: Reply,
    image: &[u8],
) -> usize
    requires { (largest_message ≤ length out.old) × Sendable reply image.now }
    ensures { PutUpTo 32804 0 (reply_bytes sequence time message echo reply image.now) out.old result out.new }
{
    let end = write_body(out, 28, reply, image);
    let header = Header {
        sequence,
        time,
        kind: 1,
        message,
        echo,
        error: header_error(reply),
    };
    header.write(out, 0, end - 28);
    end
}

// Writes a notice of these words: type 0, reply sequence 0, error 0.
fn put_notice(
    out: &mut [u8],
    at: usize,
    sequence: u32,
    time: u32,
    message: u32,
    ws: &[u32],
) -> usize
    requires { (at + 40 ≤ length out.old) × (length ws.now ≤ 3) }
    ensures { PutUpTo (at + 40) at (record_bytes sequence time 0 message 0 0 (be32s ws.now)) out.old result out.new }
{
    let end = xdr_opaque::put_words(out, at + 28, ws);
    let header = Header {
        sequence,
        time,
        kind: 0,
        message,
        echo: 0,
        error: 0,
    };
    header.write(out, at, 4 * ws.len());
    end
}

// Writes a notice at an offset; returns the offset after it.
#[tactic(auto, unfolding(wire_replies::specs::Replies::notice_bytes, wire_replies::specs::Replies::notice_number, wire_replies::specs::Replies::notice_words))]
pub fn write_notice(out: &mut [u8], at: usize, sequence: u32, time: u32, notice: Notice) -> usize
    requires { at + 40 ≤ length out.old }
    ensures { PutUpTo (at + 40) at (notice_bytes sequence time notice) out.old result out.new }
{
    match notice {
        Notice::DataHalted(reason) => put_notice(out, at, sequence, time, 0x501, &[reason]),
        Notice::Connected => put_notice(
            out,
            at,
            sequence,
            time,
            0x502,
            &[0, codes::VERSION_FOUR, 0],
        ),
        Notice::MoverHalted(reason) => put_notice(out, at, sequence, time, 0x503, &[reason]),
        Notice::MoverPaused(reason, seek) => put_notice(
            out,
            at,
            sequence,
            time,
            0x504,
            &[reason, high(seek), low(seek)],
        ),
    }
}
