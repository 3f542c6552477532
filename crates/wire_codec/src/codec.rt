//! Messages as bytes, and bytes as messages.
ghost use Rattle.std.specs.Prelude.{◌≡◌, ◌∷◌, IfOk, IsErrOf, Ok};
ghost use Rattle.wire_messages.specs.declared.message.Message.{Message};
ghost use Rattle.wire_codec.specs.Decoding.{located, Decodes};
ghost use Rattle.wire_codec.specs.KindBytes.{MayTakeMemory};
ghost use Rattle.wire_messages.specs.Decoding as decoding;
ghost use Rattle.wire_messages.specs.Decoding.{of_kind, decoded};
ghost use Rattle.wire_messages.specs.Kinds.{kind_of};
ghost use Rattle.wire_messages.specs.Proper.{IsProper};
ghost use Rattle.wire_messages.specs.Spelling.{spelling};

use crate::kind::Kind;
use crate::reading::{ReadFault, Reader};
use crate::writing::put_message;
use cluster_types::{Bytes, NoMemory};
use std::alloc::Global;
use wire_messages::{DecodeFault, FieldFault, Message};

/// Few messages have more bytes.
const USUAL_SIZE: usize = 128;

/// The message's one spelling.
#[tactic(auto, unfolding(wire_messages::specs::Spelling::spelling))]
pub fn encode(alloc: Global, m: &Message) -> Result<Bytes, NoMemory>
    requires { IsProper m.now }
    ensures { IfOk result (λ bytes. bytes ≡ spelling m.now) }
{
    let mut out = Vec::with_capacity(alloc, USUAL_SIZE)?;
    put_message(&mut out, m)?;
    Ok(Bytes::from(out))
}

/// The fault of a field, with its place among so many bytes.
fn located(size: usize, fault: ReadFault) -> DecodeFault
    ensures { result ≡ located size fault }
{
    match fault {
        ReadFault::Field(FieldFault::Bad { left }) => {
            DecodeFault::BadField(size.saturating_sub(left))
        }
        ReadFault::Field(FieldFault::Short) => DecodeFault::Short,
        ReadFault::NoMemory => DecodeFault::NoMemory,
    }
}

/// The message, where no bytes follow it.
fn alone(m: Message, rest: &[u8]) -> Result<Message, DecodeFault>
    ensures { result ≡ decoding.alone m rest.now }
{
    if rest.is_empty() {
        return Ok(m);
    }
    Err(DecodeFault::Long(rest.len()))
}

/// The message whose fields stand first behind the byte of its kind, all of the bytes.
fn decode_kind(alloc: Global, byte: u8, fields: &[u8]) -> Result<Message, DecodeFault>
    ensures decodes { Decodes result (of_kind byte fields.now (kind_of byte)) }
    ensures memory { IsErrOf result DecodeFault.NoMemory
        → MayTakeMemory (byte ∷ fields.now) }
{
    let Ok(kind) = Kind::try_from(byte) else {
        return Err(DecodeFault::BadKind(byte));
    };
    let mut reader = Reader { rest: fields };
    match reader.message(alloc, kind) {
        Ok(m) => alone(m, reader.rest),
        Err(fault) => Err(located(fields.len() + 1, fault)),
    }
}

#[tactic(auto, unfolding(wire_messages::specs::Decoding::decoded))]
fn decode_whole(alloc: Global, bytes: &[u8]) -> Result<Message, DecodeFault>
    ensures decodes { Decodes result (decoded bytes.now) }
    ensures memory { IsErrOf result DecodeFault.NoMemory → MayTakeMemory bytes.now }
{
    match bytes {
        [] => Err(DecodeFault::Short),
        [byte, fields @ ..] => decode_kind(alloc, *byte, fields),
    }
}

/// The message that the bytes are. `BadKind` where no kind has the first byte, `BadField` with the
/// place of the first whole field whose value isn't allowed, `Short` where every whole field is
/// allowed and the bytes end before the message does, and `Long` where bytes follow a message.
/// `NoMemory` comes in place of these only where a message of the first byte's kind holds rows, a
/// table, records, a version or a value.
pub fn decode(alloc: Global, bytes: &[u8]) -> Result<Message, DecodeFault>
    // What is read, or the first fault, unless memory is refused.
    ensures exact { Decodes result (decoded bytes.now) }
    // What is read is spelled so.
    ensures found { IfOk result (λ m. IsProper m × (spelling m ≡ bytes.now)) }
    // What is spelled so is read, unless memory is refused.
    ensures only { (m : Message) → IsProper m → bytes.now ≡ spelling m → Decodes result (Ok m) }
    // Memory is refused only for a kind whose messages hold what takes memory: not for no bytes, nor for a byte that is no kind.
    ensures memory { IsErrOf result DecodeFault.NoMemory → MayTakeMemory bytes.now }
{
    decode_whole(alloc, bytes)
}
