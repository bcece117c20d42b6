// The requests of the data interface that are not joint, and the store of the data end's environment.
#![tactic(auto)]

ghost use Rattle.std.specs.Prelude.{◌≡◌, List, ℕ, length};
ghost use Rattle.codes.specs.Codes.{store_length};
ghost use Rattle.xdr.specs.Xdr.{same_bytes};
ghost use Rattle.wire_pairs.specs.Store.{fits, storing, emptied};
ghost use Rattle.wire_requests.specs.Within.{bytes_at, Within, texts_within};
ghost use Rattle.wire_requests.specs.declared.Request.TheVariants as Request;
ghost use Rattle.rules.specs.DataService.{dump, pairs_of, has_run, data_state, data_listen, data_start, data_environment, data_stop, data_step, variables_after};
ghost use Rattle.serve_data.specs.Done.{Tells};

use codes::NdmpError;
use rules::{Accepted, Served};
use rules_parts::types::Data;
use wire_layouts::Text;
use wire_replies::{DataView, Reply};
use wire_requests::{DataRequest, Pairs};

#[tactic(auto, unfolding(rules::specs::Judge::judge, rules::specs::DataService::data_state))]
fn get_state(d: Data) -> Served<Data>
    ensures { (v : List ℕ) → Tells (data_state d) result v v v }
{
    let view = DataView {
        operation: d.operation,
        state: d.state,
        reason: rules_parts::told_in(Data::HALTED, d.state, d.reason),
        address: d.address,
        processed: d.processed,
    };
    Ok(Accepted {
        reply: Reply::DataState(view),
        next: d,
    })
}

#[tactic(auto, unfolding(xdr::specs::Choose::choose, rules::specs::Judge::judge, rules::specs::DataService::data_listen))]
fn listen(d: Data, address: u32, list: &[u8]) -> Served<Data>
    ensures { (v : List ℕ) → Tells (data_listen d address list.now) result v v v }
{
    if d.state != Data::IDLE {
        return Err(NdmpError::IllegalState);
    }
    if serve_address::is_listen_wrong(address, list) {
        return Err(NdmpError::IllegalArguments);
    }
    let reply = serve_address::listening(address);
    let next = d.goes(Data::LISTEN, address);
    Ok(Accepted { reply, next })
}

// A start: it is judged first, and its pairs are kept where it is accepted.
#[tactic(auto, unfolding(xdr::specs::Choose::choose, rules::specs::Judge::judge, rules::specs::DataService::data_start, rules::specs::DataService::dump))]
fn start(
    d: Data,
    operation: u32,
    body: &[u8],
    name: Text,
    pairs: Pairs,
    variables: &mut [u8],
) -> Served<Data>
    requires { Within body.now name × (length variables.old ≡ store_length) }
    ensures { Tells (data_start d operation (same_bytes (bytes_at body.now name) dump) (fits (pairs_of body.now pairs))) result (storing (pairs_of body.now pairs) variables.old) variables.old variables.new }
{
    if d.state != Data::CONNECTED {
        return Err(NdmpError::IllegalState);
    }
    if !xdr::same(name.of(body), b"dump") {
        return Err(NdmpError::IllegalArguments);
    }
    if !wire_storing::fit(body, pairs.start, pairs.count) {
        return Err(NdmpError::NoMemory);
    }
    wire_storing::keep(variables, body, pairs.start, pairs.count);
    let next = d.starts(operation);
    Ok(Accepted {
        reply: Reply::Plain,
        next,
    })
}

// Whether the data end runs or ran.
#[tactic(auto, unfolding(xdr::specs::Choose::choose, rules::specs::DataService::has_run))]
fn has_run(state: u32) -> bool
    ensures { result ≡ has_run state }
{
    state == Data::ACTIVE || state == Data::HALTED
}

// The environment: the reply shows the store, whoever wrote it, where it is laid out as one.
#[tactic(auto, unfolding(xdr::specs::Choose::choose, rules::specs::Judge::judge, rules::specs::DataService::data_environment))]
fn get_environment(d: Data, variables: &[u8]) -> Served<Data>
    ensures { Tells (data_environment d variables.now) result variables.now variables.now variables.now }
{
    if !has_run(d.state) {
        return Err(NdmpError::IllegalState);
    }
    if !wire_storing::is_laid(variables) {
        return Err(NdmpError::IoError);
    }
    Ok(Accepted {
        reply: Reply::Environment,
        next: d,
    })
}

// A stop: its end's variables are reset, those of the environment too.
#[tactic(auto, unfolding(xdr::specs::Choose::choose, rules::specs::Judge::judge, rules::specs::DataService::data_stop))]
fn stop(d: Data, variables: &mut [u8]) -> Served<Data>
    requires { length variables.old ≡ store_length }
    ensures { Tells (data_stop d) result (emptied variables.old) variables.old variables.new }
{
    if d.state != Data::HALTED {
        return Err(NdmpError::IllegalState);
    }
    wire_storing::empty(variables);
    let next = Data::rests();
    Ok(Accepted {
        reply: Reply::Plain,
        next,
    })
}

// A request of the data interface, the list that a listen by TCP is lent, and the store. C lends a store of any length, and a request answers for a wrong
// one: so the length is said by contracts, and the store is a slice.
#[tactic(auto, unfolding(rules::specs::DataService::data_step, rules::specs::DataService::variables_after, wire_requests::specs::Within::texts_within))]
pub fn serve(
    d: Data,
    q: DataRequest,
    body: &[u8],
    list: &[u8],
    variables: &mut [u8],
) -> Served<Data>
    requires { texts_within body.now (Request.Data q) × (length variables.old ≡ store_length) }
    ensures { Tells (data_step d q body.now list.now variables.old) result (variables_after q body.now variables.old) variables.old variables.new }
{
    match q {
        DataRequest::State => get_state(d),
        DataRequest::Backup(name, pairs) => start(d, Data::BACKUP, body, name, pairs, variables),
        DataRequest::Recover(name, pairs) => start(d, Data::RECOVER, body, name, pairs, variables),
        DataRequest::Environment => get_environment(d, variables),
        DataRequest::Stop => stop(d, variables),
        DataRequest::Listen(address) => listen(d, address, list),
    }
}
