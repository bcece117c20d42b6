// The reader for the host: the addresses of a record that is a connect by TCP, to which the host makes the connection.
#![tactic(auto)]

ghost use Rattle.std.specs.Prelude.{◌≡◌};
ghost use Rattle.wire_frame.specs.Messages.{message_of};
ghost use Rattle.wire_requests.specs.Bodies.{decoded};
ghost use Rattle.call_addresses.specs.Reading.{by_type, of_joint, of_request, addresses_in, ReaderHolds};

use wire_frame::Message;
use wire_layouts::Addresses;
use wire_requests::JointRequest;

// The list at an offset of a connect's body, where its address type is TCP.
#[tactic(auto, unfolding(crate::specs::Reading::by_type, xdr::specs::Choose::choose))]
fn by_type(kind: u32, body: &[u8], at: usize) -> Addresses
    ensures { result ≡ by_type kind body.now at }
{
    if kind != codes::TCP_ADDRESS {
        return Addresses::empty(0);
    }
    wire_scanning::addresses_at(body, at)
}

// Behind the type; of the mover behind the mode and the type.
#[tactic(auto, unfolding(crate::specs::Reading::of_joint))]
fn of_joint(q: JointRequest, body: &[u8]) -> Addresses
    ensures { result ≡ of_joint q body.now }
{
    match q {
        JointRequest::DataConnect(kind, _) => by_type(kind, body, 4),
        JointRequest::MoverConnect(_, kind, _) => by_type(kind, body, 8),
        JointRequest::DataAbort | JointRequest::MoverAbort | JointRequest::MoverClose => {
            Addresses::empty(0)
        }
    }
}

// Only a body of the joint messages is decoded, as no other gives addresses.
fn of_message(m: Message, body: &[u8]) -> Addresses
    ensures { result ≡ of_request (decoded m body.now) body.now }
{
    let Message::Joint(kind) = m else {
        return Addresses::empty(0);
    };
    match wire_decoding::decode_joint(kind, body) {
        Some(q) => of_joint(q, body),
        None => Addresses::empty(0),
    }
}

#[tactic(auto, using(crate::proofs::Reading::by_number))]
fn of_request(message: u32, body: &[u8]) -> Addresses
    ensures { result ≡ of_request (decoded (message_of message) body.now) body.now }
{
    of_message(wire_frame::row_of(message).kind, body)
}

// The addresses of any bytes: none where they are no well-framed request that is a connect by TCP. No state and no login is judged.
pub fn read_addresses(input: &[u8]) -> Addresses
    ensures { result ≡ addresses_in input.now }
{
    match wire_frame::read_frame(input) {
        Ok(frame) => of_request(frame.message, &input[28..]),
        Err(_) => Addresses::empty(0),
    }
}

// No work: its contract is that these are the addresses that the decoder reads, and none of any other record.
pub fn reader_holds()
    ensures { ReaderHolds }
{}
