//! The kinds of messages, by the byte that each begins with.
ghost use Rattle.std.specs.Prelude.{◌≡◌};
ghost use Rattle.wire_codec.specs.KindBytes.{byte_of, IsKindOf};

/// What a message begins with. A kind with roles is that of a message in which some role isn't
/// plain.
#[derive(Clone, Copy)]
pub(crate) enum Kind {
    Heartbeat = 1,
    Propose = 2,
    Accept = 3,
    Refuse = 4,
    Commit = 5,
    State = 6,
    Batch = 7,
    BatchAck = 8,
    Progress = 9,
    Repl = 10,
    ReplAck = 11,
    Ask = 12,
    Answer = 13,
    MapAsk = 14,
    MapTable = 15,
    HeartbeatWithRole = 16,
    ProposeWithRoles = 17,
    CommitWithRoles = 18,
    Proxy = 19,
    ProxyReply = 20,
    Call = 21,
    Reply = 22,
    ScanAsk = 23,
    ScanPage = 24,
    ScanNo = 25,
}

/// A byte that no kind begins with.
#[derive(Debug, Drop)]
pub(crate) struct UnknownKind(pub u8);

impl TryFrom<u8> for Kind {
    type Error = UnknownKind;

    ghost try_from_gives = { IsKindOf };

    fn try_from(byte: u8) -> Result<Kind, UnknownKind> {
        let kind = match byte {
            1 => Kind::Heartbeat,
            2 => Kind::Propose,
            3 => Kind::Accept,
            4 => Kind::Refuse,
            5 => Kind::Commit,
            6 => Kind::State,
            7 => Kind::Batch,
            8 => Kind::BatchAck,
            9 => Kind::Progress,
            10 => Kind::Repl,
            11 => Kind::ReplAck,
            12 => Kind::Ask,
            13 => Kind::Answer,
            14 => Kind::MapAsk,
            15 => Kind::MapTable,
            16 => Kind::HeartbeatWithRole,
            17 => Kind::ProposeWithRoles,
            18 => Kind::CommitWithRoles,
            19 => Kind::Proxy,
            20 => Kind::ProxyReply,
            21 => Kind::Call,
            22 => Kind::Reply,
            23 => Kind::ScanAsk,
            24 => Kind::ScanPage,
            25 => Kind::ScanNo,
            _ => return Err(UnknownKind(byte)),
        };
        Ok(kind)
    }
}

impl From<Kind> for u8 {
    ghost from_gives = { λ kind byte. byte ≡ byte_of kind };

    fn from(kind: Kind) -> u8 {
        kind as u8
    }
}
