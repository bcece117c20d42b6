// The addresses of listens and connects, for both ends.
#![tactic(auto)]

ghost use Rattle.std.specs.Prelude.{◌≡◌};
ghost use Rattle.rules.specs.Addresses.{listen_wrong, connect_wrong, listening, unmet};

use wire_replies::Reply;

// Whether a listen by an address of this type is refused, with the list that it is lent.
pub fn is_listen_wrong(address: u32, list: &[u8]) -> bool
    ensures { result ≡ listen_wrong address list.now }
{
    let lendable = wire_scanning::is_lendable(list);
    rules_parts::is_address_wrong(address, !lendable)
}

// Whether a connect to so many addresses of this type is refused.
pub fn is_connect_wrong(address: u32, count: u32) -> bool
    ensures { result ≡ connect_wrong address count }
{
    rules_parts::is_address_wrong(address, count == 0)
}

// What an accepted listen answers.
#[tactic(auto, unfolding(xdr::specs::Choose::choose, rules::specs::Addresses::listening))]
pub fn listening(address: u32) -> Reply
    ensures { result ≡ listening address }
{
    if address == codes::TCP_ADDRESS {
        Reply::ListeningTcp
    } else {
        Reply::Listening
    }
}

// Whether a connect meets nobody: by TCP the host did not make the connection, by LOCAL the other end does not wait for it.
#[tactic(auto, unfolding(xdr::specs::Choose::choose, rules::specs::Addresses::unmet))]
pub fn is_unmet(address: u32, awaited: bool, made: bool) -> bool
    ensures { result ≡ unmet address awaited made }
{
    if address == codes::TCP_ADDRESS {
        !made
    } else {
        !awaited
    }
}
