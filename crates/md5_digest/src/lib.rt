// MD5 (RFC 1321): the digest of any message, and of the string that a login by MD5 is judged by.
// Two digests are compared by xdr::same, which looks at all bytes whatever they are.
#![tactic(auto)]

ghost use Rattle.std.specs.Prelude.{◌≡◌, ℕ, ◌+◌, ◌-◌, ◌*◌, ◌%◌, ◌<◌, ◌≤◌, length};
ghost use Rattle.codes.specs.Codes.{longest_password};
ghost use Rattle.xdr.specs.Xdr.{overlay};
ghost use Rattle.md5_digest.specs.Md5.{RoundOwn, le_word, operations, compressed, processed};
ghost use Rattle.md5_digest.specs.Md5.{le32, PaddedEnd, Blank, Padded, PaddingHolds, md5_registers, md5};
ghost use Rattle.md5_digest.specs.Login.{login_string, login_digest, LoginBlank};
ghost use Rattle.md5_digest.specs.Cases.{Md5Cases, LoginCases};

// The table T[1 .. 64] of section 3.4.
const TABLE: [u32; 64] = [
    0xd76a_a478,
    0xe8c7_b756,
    0x2420_70db,
    0xc1bd_ceee,
    0xf57c_0faf,
    0x4787_c62a,
    0xa830_4613,
    0xfd46_9501,
    0x6980_98d8,
    0x8b44_f7af,
    0xffff_5bb1,
    0x895c_d7be,
    0x6b90_1122,
    0xfd98_7193,
    0xa679_438e,
    0x49b4_0821,
    0xf61e_2562,
    0xc040_b340,
    0x265e_5a51,
    0xe9b6_c7aa,
    0xd62f_105d,
    0x0244_1453,
    0xd8a1_e681,
    0xe7d3_fbc8,
    0x21e1_cde6,
    0xc337_07d6,
    0xf4d5_0d87,
    0x455a_14ed,
    0xa9e3_e905,
    0xfcef_a3f8,
    0x676f_02d9,
    0x8d2a_4c8a,
    0xfffa_3942,
    0x8771_f681,
    0x6d9d_6122,
    0xfde5_380c,
    0xa4be_ea44,
    0x4bde_cfa9,
    0xf6bb_4b60,
    0xbebf_bc70,
    0x289b_7ec6,
    0xeaa1_27fa,
    0xd4ef_3085,
    0x0488_1d05,
    0xd9d4_d039,
    0xe6db_99e5,
    0x1fa2_7cf8,
    0xc4ac_5665,
    0xf429_2244,
    0x432a_ff97,
    0xab94_23a7,
    0xfc93_a039,
    0x655b_59c3,
    0x8f0c_cc92,
    0xffef_f47d,
    0x8584_5dd1,
    0x6fa8_7e4f,
    0xfe2c_e6e0,
    0xa301_4314,
    0x4e08_11a1,
    0xf753_7e82,
    0xbd3a_f235,
    0x2ad7_d2bb,
    0xeb86_d391,
];

// The registers A, B, C and D of section 3.3.
#[derive(Clone, Copy)]
pub struct Registers {
    pub a: u32,
    pub b: u32,
    pub c: u32,
    pub d: u32,
}

// The word at an offset, its low byte first. xdr::read_word has the other order; a parameter for it would be the same at every call.
fn read_le(s: &[u8], at: usize) -> u32
    requires { at + 4 ≤ length s.now }
    ensures { result ≡ le_word s.now at }
{
    u32::from_le_bytes([s[at], s[at + 1], s[at + 2], s[at + 3]])
}

// The 16 operations of a round, by what the round has of its own: how far each rotates its sum, again with every four, its auxiliary
// function, and which word of the block operation i takes.
// A block stays a slice, as read_le takes it: `&[u8; 64]` would only move the clause on its length into the cut in `process`.
fn one_round<M: Fn(u32, u32, u32) -> u32, W: Fn(usize) -> usize>(
    round: usize,
    shifts: [u32; 4],
    mix: M,
    word: W,
    block: &[u8],
    start: Registers,
) -> Registers
    requires mixes { M.IsAlwaysCallable mix }
    requires orders { (i : ℕ) → i < 64 → W.pre word i }
    requires own { RoundOwn round shifts (M.post mix) (W.post word) }
    requires whole { 64 ≤ length block.now }
    ensures { result ≡ operations 16 (16 * round) block.now start }
{
    let mut q = start;
    for i in 16 * round..16 * round + 16 {
        let mixed = mix(q.b, q.c, q.d);
        let given = read_le(block, 4 * word(i));
        let sum = q
            .a
            .wrapping_add(mixed)
            .wrapping_add(given.wrapping_add(TABLE[i]));
        q = Registers {
            a: q.d,
            b: q.b.wrapping_add(sum.rotate_left(shifts[i % 4])),
            c: q.b,
            d: q.c,
        };
    }
    q
}

// The 64 operations, by the auxiliary functions F, G, H and I.
fn operations(block: &[u8], start: Registers) -> Registers
    requires { 64 ≤ length block.now }
    ensures { result ≡ operations 64 0 block.now start }
{
    let q = one_round(
        0,
        [7, 12, 17, 22],
        |x, y, z| (x & y) | (!x & z),
        |i| i % 16,
        block,
        start,
    );
    let q = one_round(
        1,
        [5, 9, 14, 20],
        |x, y, z| (x & z) | (y & !z),
        |i| (5 * i + 1) % 16,
        block,
        q,
    );
    let q = one_round(
        2,
        [4, 11, 16, 23],
        |x, y, z| x ^ y ^ z,
        |i| (3 * i + 5) % 16,
        block,
        q,
    );
    one_round(
        3,
        [6, 10, 15, 21],
        |x, y, z| y ^ (x | !z),
        |i| 7 * i % 16,
        block,
        q,
    )
}

// One block.
fn compress(block: &[u8], p: Registers) -> Registers
    requires { 64 ≤ length block.now }
    ensures { result ≡ compressed block.now p }
{
    let q = operations(block, p);
    Registers {
        a: p.a.wrapping_add(q.a),
        b: p.b.wrapping_add(q.b),
        c: p.c.wrapping_add(q.c),
        d: p.d.wrapping_add(q.d),
    }
}

// The blocks at the front of a message.
// By the block's number, as the contract counts them: `chunks_exact(64)` would need a `take(count)`, and the proof the number again.
fn process(m: &[u8], count: usize, start: Registers) -> Registers
    requires { count * 64 ≤ length m.now }
    ensures { result ≡ processed count m.now start }
{
    let mut q = start;
    for k in 0..count {
        q = compress(&m[64 * k..64 * k + 64], q);
    }
    q
}

// Writes a word at an offset, its low byte first.
fn write_le(out: &mut [u8], at: usize, v: u32)
    requires { at + 4 ≤ length out.old }
    ensures { out.new ≡ overlay at (le32 v) out.old }
{
    out[at..at + 4].copy_from_slice(&v.to_le_bytes());
}

// Where the padding behind a message's last bytes ends.
fn padded_end(len: usize) -> usize
    requires { len < 64 }
    ensures { PaddedEnd len result }
{
    if len < 56 { 64 } else { 128 }
}

// The last bytes of a message of n bytes, fewer than a block, with the padding behind them. Returns where it ends.
fn pad(buffer: &mut [u8], rest: &[u8], n: usize) -> usize
    requires { Blank rest.now n buffer.old }
    ensures { Padded rest.now n result buffer.new }
{
    let len = rest.len();
    xdr::copy_bytes(buffer, 0, rest);
    buffer[len] = 128;
    let end = padded_end(len);
    let bits = (n as u64).wrapping_mul(8);
    xdr::copy_bytes(buffer, end - 8, &bits.to_le_bytes());
    end
}

// The digest of a message, as its four words.
fn registers_of(m: &[u8]) -> Registers
    ensures { result ≡ md5_registers m.now }
{
    let n = m.len();
    let whole = n / 64;
    let from = whole * 64;
    let start = Registers {
        a: 0x6745_2301,
        b: 0xefcd_ab89,
        c: 0x98ba_dcfe,
        d: 0x1032_5476,
    };
    let q = process(m, whole, start);
    let mut buffer = [0u8; 128];
    let end = pad(&mut buffer, &m[from..], n);
    process(&buffer[..end], end / 64, q)
}

// Writes the digest of a message at the front of an output.
fn write_digest(out: &mut [u8], message: &[u8])
    requires { 16 ≤ length out.old }
    ensures { out.new ≡ overlay 0 (md5 message.now) out.old }
{
    let q = registers_of(message);
    write_le(out, 0, q.a);
    write_le(out, 4, q.b);
    write_le(out, 8, q.c);
    write_le(out, 12, q.d);
}

// The digest of any message.
pub fn digest(message: &[u8]) -> [u8; 16]
    ensures { result ≡ md5 message.now }
{
    let mut out = [0u8; 16];
    write_digest(&mut out, message);
    out
}

// Writes the string of a login: the password, zeros, which stand there, the challenge, the password again.
fn write_login(string: &mut [u8], password: &[u8], challenge: &[u8])
    requires { LoginBlank password.now challenge.now string.old }
    ensures { string.new ≡ login_string password.now challenge.now }
{
    let n = password.len();
    xdr::copy_bytes(string, 0, password);
    xdr::copy_bytes(string, 64 - n, challenge);
    xdr::copy_bytes(string, 128 - n, password);
}

// The digest that a login with this password and challenge must send.
pub fn login_digest(password: &[u8], challenge: &[u8; 64]) -> [u8; 16]
    requires { length password.now ≤ longest_password }
    ensures { result ≡ login_digest password.now challenge.now }
{
    let mut string = [0u8; 128];
    write_login(&mut string, password, challenge);
    digest(&string)
}

// No work: its contract is what the padding comes to, for a message of any length.
pub fn padding_holds()
    ensures { PaddingHolds }
{}

// No work: its contract is the order of words and shifts as RFC 1321 lists it, and digests of its test suite, computed.
pub fn cases_hold()
    ensures { Md5Cases }
{}

// No work: its contract is the string of a login, byte for byte, computed, and that it has 128 bytes.
pub fn login_cases_hold()
    ensures { LoginCases }
{}
