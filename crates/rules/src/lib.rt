// What each request does to a session, and what holds of every request. The definitions are in specs/; the code that serves requests stands in the
// crates above.
#![tactic(auto)]

ghost use Rattle.rules.specs.Promises.{Promises};
ghost use Rattle.rules.specs.Order.{AnyOrder, ServicesAre};
ghost use Rattle.rules.specs.Calls.{CallsKeep};
ghost use Rattle.rules.specs.Leaving.{CallsLeave};
ghost use Rattle.rules.specs.Alike.{SpacesAlike};
ghost use Rattle.rules.specs.RmtHolds.{RmtHolds};

use codes::NdmpError;
use rules_parts::{Data, Mover};
use wire_replies::Reply;

// An accepted request: its reply, and the part of the session after it.
#[derive(Clone, Copy)]
pub struct Accepted<T> {
    pub reply: Reply,
    pub next: T,
}

// What a service answers: the error of a refusal, or what it accepted.
pub type Served<T> = Result<Accepted<T>, NdmpError>;

// Both ends after a joint request, and why each halted in it, or 0. The reasons are NDMP's, in which 0 is none, as in the session that C hands in.
#[derive(Clone, Copy, Debug, PartialEq, Eq)]
pub struct Ends {
    pub source: Data,
    pub mover: Mover,
    pub dwhy: u32,
    pub mwhy: u32,
}

// No work: its contract is what holds of every request, so that the crate is proved only with it.
pub fn promises_hold()
    ensures { Promises }
{}

// No work: its contract is that the requests of the three services may be merged in any order.
pub fn any_order()
    ensures { AnyOrder }
{}

// No work: its contract is which message numbers are joint and which are whose, so that any_order speaks of all the others.
pub fn services_are()
    ensures { ServicesAre }
{}

// No work: its contract is what opening gives, what every request call keeps, and what a refused call leaves.
pub fn calls_keep()
    ensures { CallsKeep }
{}

// No work: its contract is what every number of a reply leaves, who becomes authorized and by which challenge, and what writes to the cartridge and to the
// store and changes the slot list.
pub fn calls_leave()
    ensures { CallsLeave }
{}

// No work: its contract is that a spacing call is answered alike on two sound cartridges of one n whose entries passed agree in kind.
pub fn spaces_alike()
    ensures { SpacesAlike }
{}

// No work: its contract is what every command of the remote tape protocol leaves and is told, and that it is judged as a tape request is.
pub fn rmt_holds()
    ensures { RmtHolds }
{}
