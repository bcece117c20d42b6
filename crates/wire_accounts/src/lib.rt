// The accounts that a host lends: read from their buffer, and compared with a login.
#![tactic(auto)]

ghost use Rattle.std.specs.Prelude.{◌≡◌, true, false, ◌+◌, ◌≤◌, length, IfSome, MatchOption};
ghost use Rattle.std.specs.Iterator.{YieldsFirstBy, at_most};
ghost use Rattle.wire_accounts.specs.Accounts.{account_at, accounts_in, are_laid, entries_in, Laid};
ghost use Rattle.wire_accounts.specs.Accounts.{is_digest, md5_matches, any_of};
ghost use Rattle.wire_accounts.specs.Entry.{KindOf, entry_of, read_as};
ghost use Rattle.wire_accounts.specs.Cases.{AccountCases};
ghost use Rattle.wire_accounts.specs.Holds.{AccountsHold};

use xdr_opaque::{opaque_at, word_at};

// How an account was marked: its auth type.
#[derive(Clone, Copy, Debug, PartialEq, Eq)]
pub enum Kind {
    Text,
    Md5,
}

// A number that is no kind's.
#[derive(Clone, Copy, Debug, PartialEq, Eq)]
pub struct UnknownKind;

impl TryFrom<u32> for Kind {
    type Error = UnknownKind;

    ghost try_from_gives = { KindOf };

    fn try_from(number: u32) -> Result<Kind, UnknownKind> {
        match number {
            codes::TEXT_AUTH => Ok(Kind::Text),
            codes::MD5_AUTH => Ok(Kind::Md5),
            _ => Err(UnknownKind),
        }
    }
}

// An account, as it stands in its buffer.
#[derive(Clone, Copy)]
pub struct Account<'a> {
    pub kind: Kind,
    pub id: &'a [u8],
    pub password: &'a [u8],
}

// The account at an offset, and the offset behind it.
pub fn account_at<'a>(accounts: &'a [u8], at: usize) -> Option<(Account<'a>, usize)>
    requires { at ≤ length accounts.now }
    ensures read { account_at accounts.now at ≡ read_as result }
    ensures within { IfSome result (λ p. p.1 ≤ length accounts.now) }
{
    let number = word_at(accounts, at)?;
    let id = opaque_at(accounts, at + 4)?;
    let password = opaque_at(accounts, id.next)?;
    let kind = Kind::try_from(number).ok()?;
    let account = Account {
        kind,
        id: &accounts[id.start..id.start + id.len],
        password: &accounts[password.start..password.start + password.len],
    };
    Some((account, password.next))
}

// Whether a buffer is laid out as accounts, to its end.
pub fn is_laid(accounts: &[u8]) -> bool
    ensures { result ≡ are_laid (accounts_in accounts.now) }
{
    let Some(count) = word_at(accounts, 0) else {
        return false;
    };
    if codes::MOST_ACCOUNTS < count {
        return false;
    }
    let mut at: usize = 4;
    // `i` is named by the invariant alone.
    for i in 0..count {
        let Some((_, next)) = account_at(accounts, at) else {
            return false;
        };
        at = next;
    }
    at == accounts.len()
}

// The accounts that are still to come of a buffer that is laid out so.
#[derive(Drop)]
pub struct Accounts<'a> {
    buffer: &'a [u8],
    at: usize,
    left: u32,
    ghost laid: { Laid buffer.now left at },
}

impl<'a> Accounts<'a> {
    ghost use Rattle.wire_accounts.specs.Walk.{to_come};

    // The accounts in a buffer, where it is laid out as such to its end.
    pub fn read(buffer: &'a [u8]) -> Option<Accounts<'a>>
        ensures { MatchOption result (are_laid (accounts_in buffer.now) ≡ false)
            (λ a. (are_laid (accounts_in buffer.now) ≡ true) × (entries_in buffer.now ≡ to_come a)) }
    {
        if !is_laid(buffer) {
            return None;
        }
        Some(Accounts {
            buffer,
            at: 4,
            left: xdr::read_word(buffer, 0),
        })
    }
}

impl<'a> Iterator for Accounts<'a> {
    ghost use Rattle.wire_accounts.specs.Walk.{to_come};

    type Item = Account<'a>;

    ghost next_gives = { YieldsFirstBy entry_of to_come };

    ghost remaining = { λ s. at_most s.left };

    fn next(&mut self) -> Option<Account<'a>> {
        if self.left == 0 {
            return None;
        }
        let buffer = self.buffer;
        let (account, at) = account_at(buffer, self.at).unwrap();
        *self = Accounts {
            buffer,
            at,
            left: self.left - 1,
        };
        Some(account)
    }
}

// Whether a digest is that of a password. One that is empty or too long has none.
fn is_digest(password: &[u8], challenge: &[u8; 64], digest: &[u8]) -> bool
    ensures { result ≡ is_digest password.now challenge.now digest.now }
{
    if password.is_empty() {
        return false;
    }
    if codes::LONGEST_PASSWORD < password.len() {
        return false;
    }
    let wanted = md5_digest::login_digest(password, challenge);
    xdr::same(digest, &wanted)
}

// Whether an MD5 login is this account's. A text entry lets nobody in. The digest is made whatever the id is, so that the
// time tells nothing of it.
fn md5_matches(account: Account<'_>, id: &[u8], challenge: &[u8; 64], digest: &[u8]) -> bool
    ensures { result ≡ md5_matches id.now challenge.now digest.now (entry_of account.entry) }
{
    match account.kind {
        Kind::Text => false,
        Kind::Md5 => {
            let known = xdr::same(id, account.id);
            let right = is_digest(account.password, challenge, digest);
            known & right
        }
    }
}

// Whether an MD5 login lets in, judged by a challenge. All accounts are looked at, also behind one that does.
pub fn lets_in_by_md5(accounts: &[u8], id: &[u8], challenge: &[u8; 64], digest: &[u8]) -> bool
    ensures { result ≡ any_of (md5_matches id.now challenge.now digest.now) (entries_in accounts.now) }
{
    let Some(entries) = Accounts::read(accounts) else {
        return false;
    };
    let mut some = false;
    for account in entries {
        some |= md5_matches(account, id, challenge, digest);
    }
    some
}

// No work: its contract is what buffers that are written out are, and whom they let in, computed.
pub fn account_cases()
    ensures { AccountCases }
{}

// No work: its contract is what the definitions say of every buffer and every login.
pub fn accounts_hold()
    ensures { AccountsHold }
{}
