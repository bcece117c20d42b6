// The requests of CONNECT and CONFIG, and what asks for a login.
#![tactic(auto)]

ghost use Rattle.std.specs.Prelude.{◌≡◌, List, ℕ};
ghost use Rattle.wire_requests.specs.Within.{bytes_at, Within, texts_within};
ghost use Rattle.wire_requests.specs.declared.Request.TheVariants as Request;
ghost use Rattle.rules.specs.Connection.{connect_open, right_digest, client_auth, connect_step, auth_attributes, config_step};
ghost use Rattle.rules.specs.Answer.{needs_login, is_locked, is_close};
ghost use Rattle.rules.specs.Served.{outcome_of};
ghost use Rattle.serve_connect.specs.Done.{changed, outcome_with};

use codes::NdmpError;
use rules::{Accepted, Served};
use rules_parts::types::Login;
use wire_layouts::Text;
use wire_replies::Reply;
use wire_requests::{ConfigRequest, ConnectRequest, Request};

// What a request of CONFIG changes of the login: nothing, or the challenge that it keeps. It holds none, so that a request
// can be judged with none at hand.
#[derive(Clone, Copy, Debug, PartialEq, Eq)]
pub enum LoginChange {
    Nothing,
    Challenged,
}

impl LoginChange {
    // The login after it, with the challenge that was given.
    pub fn of(self, g: Login, challenge: &[u8; 64]) -> Login
        ensures { result ≡ changed g challenge.now self }
    {
        match self {
            LoginChange::Nothing => g,
            LoginChange::Challenged => g.challenged_by(challenge),
        }
    }
}

// CONNECT open, in a session that has answered no request yet, or has.
#[tactic(auto, unfolding(xdr::specs::Choose::choose, rules::specs::Judge::judge, rules::specs::Connection::connect_open))]
fn open(fresh: bool, g: Login, version: u32) -> Served<Login>
    ensures { outcome_of result ≡ connect_open fresh g version }
{
    if !fresh {
        return Err(NdmpError::IllegalState);
    }
    if version != codes::VERSION_FOUR {
        return Err(NdmpError::IllegalArguments);
    }
    Ok(Accepted {
        reply: Reply::Plain,
        next: g,
    })
}

// Whether an MD5 login is right, judged by the challenge that the client was given last. Not inlined: the digest's
// frame is gone before the reply is written.
#[inline(never)]
#[tactic(auto, unfolding(xdr::specs::Choose::choose, rules::specs::Connection::right_digest))]
fn is_digest_right(g: Login, accounts: &[u8], body: &[u8], id: Text, digest: Text) -> bool
    requires { Within body.now id × Within body.now digest }
    ensures { result ≡ right_digest g accounts.now (bytes_at body.now id) (bytes_at body.now digest) }
{
    g.challenged
        && wire_accounts::lets_in_by_md5(accounts, id.of(body), &g.challenge, digest.of(body))
}

// A login, right or wrong.
#[tactic(auto, unfolding(xdr::specs::Choose::choose, rules::specs::Judge::judge, rules::specs::Connection::client_auth))]
fn auth(g: Login, right: bool) -> Served<Login>
    ensures { outcome_of result ≡ client_auth g right }
{
    if !right {
        return Err(NdmpError::NotAuthorized);
    }
    Ok(Accepted {
        reply: Reply::Plain,
        next: g.logged_in(),
    })
}

// A request of CONNECT, with the accounts.
#[tactic(auto, unfolding(rules::specs::Connection::connect_step, wire_requests::specs::Within::texts_within))]
pub fn serve(
    fresh: bool,
    g: Login,
    q: ConnectRequest,
    body: &[u8],
    accounts: &[u8],
) -> Served<Login>
    requires { texts_within body.now (Request.Connect q) }
    ensures { outcome_of result ≡ connect_step fresh g accounts.now q body.now }
{
    match q {
        ConnectRequest::Open(version) => open(fresh, g, version),
        ConnectRequest::Md5Auth(id, digest) => {
            auth(g, is_digest_right(g, accounts, body, id, digest))
        }
        ConnectRequest::OtherAuth => Err(NdmpError::IllegalArguments),
        ConnectRequest::Close => Ok(Accepted {
            reply: Reply::Plain,
            next: g,
        }),
    }
}

// The attributes of an auth type: those of MD5 are the challenge, and every other type is refused.
#[tactic(auto, unfolding(xdr::specs::Choose::choose, rules::specs::Connection::auth_attributes, rules::specs::Judge::onto))]
fn attributes(auth: u32) -> Served<LoginChange>
    ensures { (g : Login) (challenge : List ℕ) → outcome_with g challenge result ≡ auth_attributes g challenge auth }
{
    if auth != codes::MD5_AUTH {
        return Err(NdmpError::IllegalArguments);
    }
    Ok(Accepted {
        reply: Reply::Challenge,
        next: LoginChange::Challenged,
    })
}

// A request of CONFIG. It does not look at the challenge that it gives.
#[tactic(auto, unfolding(rules::specs::Connection::config_step, rules::specs::Judge::onto))]
pub fn config(g: Login, q: ConfigRequest) -> Served<LoginChange>
    ensures { (challenge : List ℕ) → outcome_with g challenge result ≡ config_step g challenge q }
{
    match q {
        ConfigRequest::ConnectionType => Ok(Accepted {
            reply: Reply::ConnectionTypes,
            next: LoginChange::Nothing,
        }),
        ConfigRequest::AuthAttributes(auth) => attributes(auth),
        ConfigRequest::ServerInfo => Ok(Accepted {
            reply: Reply::ServerInfo(g.authorized),
            next: LoginChange::Nothing,
        }),
    }
}

// What a request of CONFIG came to, with the challenge that was lent.
#[tactic(auto, unfolding(rules::specs::Judge::onto))]
pub fn with_challenge(g: Login, challenge: &[u8; 64], done: Served<LoginChange>) -> Served<Login>
    ensures { outcome_of result ≡ outcome_with g challenge.now done }
{
    let accepted = done?;
    Ok(Accepted {
        reply: accepted.reply,
        next: accepted.next.of(g, challenge),
    })
}

// Whether a request of CONNECT closes the session, and so gets no reply.
#[tactic(auto, unfolding(rules::specs::Answer::is_close))]
pub fn is_close(q: ConnectRequest) -> bool
    ensures { result ≡ is_close (Request.Connect q) }
{
    matches!(q, ConnectRequest::Close)
}

// Whether a request is refused before auth.
#[tactic(auto, unfolding(rules::specs::Answer::needs_login))]
fn needs_login(q: Request) -> bool
    ensures { result ≡ needs_login q }
{
    match q {
        Request::Connect(_) | Request::Unknown | Request::Bad => false,
        Request::Config(c) => matches!(c, ConfigRequest::ConnectionType),
        _ => true,
    }
}

// Whether a request wants a login that the client has not made.
#[tactic(auto, unfolding(xdr::specs::Choose::choose, rules::specs::Answer::is_locked))]
pub fn is_locked(g: Login, q: Request) -> bool
    ensures { result ≡ is_locked g q }
{
    !g.authorized && needs_login(q)
}
