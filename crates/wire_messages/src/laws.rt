//! What holds of all messages and their bytes.
ghost use Rattle.std.specs.Prelude.{◌≡◌, ◌<◌, ◌++◌, ◌∷◌, [], List, ℕ, length, take, true, false, Some, None, Ok, Err};
ghost use Rattle.cluster_types.specs.declared.copy_state.CopyState.TheVariants.{Whole};
ghost use Rattle.cluster_types.specs.ClusterKeys.{none};
ghost use Rattle.cluster_types.specs.Members.{plain_role};
ghost use Rattle.wire_messages.specs.declared.message.Message.{Message};
ghost use Rattle.wire_messages.specs.declared.message.Message.TheVariants as message;
ghost use Rattle.wire_messages.specs.declared.fault.DecodeFault.TheVariants as fault;
ghost use Rattle.wire_messages.specs.Proper.{IsProper};
ghost use Rattle.wire_messages.specs.Rows.{entry_field};
ghost use Rattle.wire_messages.specs.Spelling.{spelling};
ghost use Rattle.wire_messages.specs.Decoding.{decoded, are_bytes, message_of};

/// A message is read from its spelling.
pub fn spelling_is_read_back()
    ensures message { (m : Message) → IsProper m → message_of (spelling m) ≡ Some m }
    ensures bytes { (m : Message) → IsProper m → are_bytes (spelling m) ≡ true }
{}

/// What is read as a message is proper, and is the message's spelling.
pub fn what_is_read_is_spelled_so()
    ensures { (numbers : List ℕ) (m : Message) → message_of numbers ≡ Some m
        → IsProper m × (spelling m ≡ numbers) }
{}

/// No spelling begins another one: cut, it is too short, and with more behind it it is too long.
pub fn no_spelling_begins_another()
    ensures same { (m n : Message) (rest : List ℕ) → IsProper m → IsProper n
        → spelling m ++ rest ≡ spelling n → (rest ≡ []) × (m ≡ n) }
    ensures short { (m : Message) (k : ℕ) → IsProper m → k < length (spelling m)
        → decoded (take k (spelling m)) ≡ Err fault.Short }
    ensures long { (m : Message) (b : ℕ) (rest : List ℕ) → IsProper m
        → decoded (spelling m ++ b ∷ rest) ≡ Err (fault.Long (length (b ∷ rest))) }
{}

/// Some spellings, byte by byte.
pub fn worked_spellings()
    ensures heartbeat { spelling (message.Heartbeat none none [] plain_role)
        ≡ 1 ∷ 0 ∷ 0 ∷ 0 ∷ 0 ∷ 0 ∷ 0 ∷ 0 ∷ 0 ∷ 0 ∷ 0 ∷ 0 ∷ 0 ∷ 0 ∷ 0 ∷ 0 ∷ 0 ∷ 0 ∷ [] }
    ensures accept { spelling (message.Accept (record { round = 1; principal = 2 }))
        ≡ 3 ∷ 0 ∷ 0 ∷ 0 ∷ 0 ∷ 0 ∷ 1 ∷ 0 ∷ 2 ∷ [] }
    ensures refuse { spelling (message.Refuse (record { round = 1; principal = 2 })
        (record { round = 2; principal = 1 }))
        ≡ 4 ∷ 0 ∷ 0 ∷ 0 ∷ 0 ∷ 0 ∷ 1 ∷ 0 ∷ 2 ∷ 0 ∷ 0 ∷ 0 ∷ 0 ∷ 0 ∷ 2 ∷ 0 ∷ 1 ∷ [] }
    ensures batch_ack { spelling (message.BatchAck (record { round = 2; principal = 2 }) 1)
        ≡ 8 ∷ 0 ∷ 0 ∷ 0 ∷ 0 ∷ 0 ∷ 2 ∷ 0 ∷ 2 ∷ 0 ∷ 0 ∷ 0 ∷ 1 ∷ [] }
    ensures map_ask { spelling message.MapAsk ≡ 14 ∷ [] }
    ensures entry { entry_field (4095, Whole (record { round = 1; principal = 2 }) 1)
        ≡ 15 ∷ 255 ∷ 2 ∷ 0 ∷ 0 ∷ 0 ∷ 0 ∷ 0 ∷ 1 ∷ 0 ∷ 2 ∷ 0 ∷ 0 ∷ 0 ∷ 1 ∷ [] }
{}
