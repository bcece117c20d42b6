// What the bodies of several messages share.
ghost use Rattle.std.specs.Prelude.{◌≡◌, map, ◌≤◌, ◌+◌, ◌^◌, ◌<◌, eqb, length};
ghost use Rattle.codes.specs.Codes.{md5_auth};
ghost use Rattle.xdr.specs.Choose.{choose};
ghost use Rattle.wire_layouts.specs.AddressLists.{is_tcp};
ghost use Rattle.wire_layouts.specs.Scans.{scanned, field_of};
ghost use Rattle.wire_requests.specs.Bodies.{behind_text, pairs_at};
ghost use Rattle.wire_requests.specs.declared.ConnectRequest.TheVariants as ConnectRequest;

use wire_layouts::{Field, Part, Scan, Text};
use wire_requests::{ConnectRequest, Pairs};
use wire_scanning::{is_tcp, scan_body};

// The fields of layouts; an auth by MD5, an address of type LOCAL and one of type TCP are tags.
pub const WORD: Field = Field::One(Part::Word);

pub const HYPER: Field = Field::One(Part::Hyper);

pub const TEXT: Field = Field::One(Part::Text);

pub const DIGEST: Field = Field::One(Part::Digest);

pub const MD5: Field = Field::Tag(codes::MD5_AUTH);

pub const LOCAL: Field = Field::Tag(codes::LOCAL_ADDRESS);

pub const TCP: Field = Field::Tag(codes::TCP_ADDRESS);

// Scans a body by the type of the address at an offset: by the one layout where that is TCP, and else by the other.
#[tactic(auto, unfolding(xdr::specs::Choose::choose))]
pub fn scan_by_type(tcp: &[Field], other: &[Field], body: &[u8], at: usize) -> Option<Scan>
    requires { (length tcp.now ≤ 5) × (length other.now ≤ 5) }
    ensures { result ≡ scanned (map field_of (choose (is_tcp body.now at) tcp.now other.now)) body.now }
{
    if is_tcp(body, at) {
        return scan_body(tcp, body);
    }
    scan_body(other, body)
}

// An auth by MD5 has an id and a digest; of another type the rest is not read.
#[tactic(auto, unfolding(xdr::specs::Choose::choose))]
pub fn auth(kind: u32, id: Text, digest: Text) -> ConnectRequest
    ensures { result ≡ choose (eqb kind md5_auth) (ConnectRequest.Md5Auth id digest) ConnectRequest.OtherAuth }
{
    if kind == codes::MD5_AUTH {
        return ConnectRequest::Md5Auth(id, digest);
    }
    ConnectRequest::OtherAuth
}

// The pairs of a list behind a text, of so many: the first stands behind the fill of the text and the count.
pub fn pairs_behind(t: Text, count: u32) -> Pairs
    requires { t.start + t.len < 2 ^ 63 }
    ensures { result ≡ pairs_at (behind_text t) count }
{
    Pairs {
        start: t.start + t.len.next_multiple_of(4) + 4,
        count,
    }
}
