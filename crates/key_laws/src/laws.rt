//! The laws of keys. A call does nothing: what it ensures is the law.
ghost use Rattle.std.specs.Prelude.{slice_get, ◌≡◌, ℕ, List, Some, All};
ghost use Rattle.cluster_types.specs.declared.cluster_key.ClusterKey.{ClusterKey};
ghost use Rattle.cluster_types.specs.declared.member.Member.{Member};
ghost use Rattle.wire_messages.specs.declared.message.Message.{Message};
ghost use Rattle.wire_messages.specs.Decoding.{message_of};
ghost use Rattle.script_lang.specs.declared.script.Script.{Script};
ghost use Rattle.script_lang.specs.Proper.{IsProperHeaderLine};
ghost use Rattle.journal_lines.specs.declared.line.Line.{Line};
ghost use Rattle.cluster_rules.specs.Allowed.{AreAllowed};
ghost use Rattle.journal_readings.specs.Claims.{KeysRise};
ghost use Rattle.cluster_rules.specs.Marks as marks;
ghost use Rattle.journal_readings.specs.Messages.{Posting};
ghost use Rattle.cluster_rules.specs.Opening.{Header, declared_nodes};
ghost use Rattle.cluster_rules.specs.Runs.{RunOf, run_marks};
ghost use Rattle.cluster_rules.specs.Steps.{Step, all_lines, all_marks};
ghost use Rattle.cluster_rules.specs.World.{opened};
ghost use Rattle.key_laws.specs.Addressed.{GoesBetween, ComesFromOther};
ghost use Rattle.key_laws.specs.Ends.{IsOneOf, AllName};
ghost use Rattle.key_laws.specs.Traced.{Traced, facts_of, untouched, traced_after_all};
ghost use Rattle.key_laws.specs.Licences.{Says, LicensedMarks};
ghost use Rattle.key_laws.specs.Laws.{KeepsRanges, traced_at, EntriesAgree};
ghost use Rattle.key_laws.specs.Sound.{NodeKeys, Listed, Shown};

/// Whatever is due of an event has its licence, line by line: every mark of every run, of so many
/// partitions, has one where it stands.
pub fn what_is_due_has_its_licence()
    ensures { (n : ℕ) → (s : Script) → KeepsRanges s → (j : List Line) → (r : RunOf n s j)
        → LicensedMarks (untouched (opened s.header)) (run_marks s.header r.played) }
{}

/// What holds at every mark of every run. A node's last key is at most its promised one; its view has
/// the last key and that key's members, the node among them; its proposal is of its promised key, above the last
/// one. Every key that a node keeps or hears, that a message names or that a client's table has is at
/// most what its principal has promised. A key has one list, in which its principal stands, and every
/// message that proposes or commits the key names that list.
pub fn keys_stand_at_every_mark()
    ensures nodes { (n : ℕ) → (s : Script) → KeepsRanges s → (j : List Line) → (r : RunOf n s j)
        → (i : ℕ) → (m : ℕ)
        → NodeKeys (traced_at s.header r.played i) m (facts_of (traced_at s.header r.played i) m) }
    ensures lists { (n : ℕ) → (s : Script) → KeepsRanges s → (j : List Line) → (r : RunOf n s j)
        → (i : ℕ) → (k : ClusterKey) → (ms : List Member)
        → (traced_at s.header r.played i).lists k ≡ Some ms
        → Listed (traced_at s.header r.played i) k ms }
    ensures messages { (n : ℕ) → (s : Script) → KeepsRanges s → (j : List Line) → (r : RunOf n s j)
        → (i : ℕ) → (number : ℕ) → (p : Posting) → (m : Message)
        → slice_get (traced_at s.header r.played i).world.network.sent number ≡ Some p
        → message_of p.bytes ≡ Some m → Says (traced_at s.header r.played i) p.from m }
    ensures tables { (n : ℕ) → (s : Script) → KeepsRanges s → (j : List Line) → (r : RunOf n s j)
        → (i : ℕ)
        → Shown (traced_at s.header r.played i) (traced_at s.header r.played i).world.tables }
{}

/// In the journal of every run the promised keys of a node strictly rise, and so do the entered ones; the
/// last key is never above the promised one; every key in a line or a message is at most what its
/// principal has promised; and all that is named with a key is one list of members.
pub fn keys_rise_in_every_journal()
    ensures { (n : ℕ) → (s : Script) → KeepsRanges s → (j : List Line) → RunOf n s j → KeysRise j }
{}

/// In the journal of every run all entries of one key have one list, which falls, and the node that enters
/// is in it and enters a key once. A line of a node in its view names a view that the node has entered.
pub fn entries_agree_in_every_journal()
    ensures { (n : ℕ) → (s : Script) → KeepsRanges s → (j : List Line) → RunOf n s j
        → EntriesAgree j }
{}

/// A message of kinds State to Answer goes between two members of the list of its key, after whatever steps are
/// allowed; and one of the view of its receiver comes from another member of that view.
pub fn messages_of_a_view_go_between_its_members()
    ensures between { (n : ℕ) → (h : Header) → (ss : List Step) → All IsProperHeaderLine h
        → AreAllowed n (opened h) ss → (i : ℕ) → (p : Posting) → (m : Message)
        → slice_get (traced_after_all (untouched (opened h)) (all_marks ss)).world.network.sent i
        ≡ Some p
        → message_of p.bytes ≡ Some m
        → GoesBetween (traced_after_all (untouched (opened h)) (all_marks ss)) p.from p.to m }
    ensures at_receiver { (n : ℕ) → (h : Header) → (ss : List Step) → All IsProperHeaderLine h
        → AreAllowed n (opened h) ss → (i : ℕ) → (p : Posting) → (m : Message)
        → slice_get (marks.after_all (opened h) (all_marks ss)).network.sent i ≡ Some p
        → message_of p.bytes ≡ Some m
        → ComesFromOther ((marks.after_all (opened h) (all_marks ss)).facts p.to) p.from m }
{}

/// What is due of steps that are allowed has its licence, mark by mark.
pub fn allowed_steps_are_licensed()
    ensures { (n : ℕ) → (h : Header) → (ss : List Step) → All IsProperHeaderLine h
        → AreAllowed n (opened h) ss → LicensedMarks (untouched (opened h)) (all_marks ss) }
{}

/// Each line of steps that are allowed names declared nodes alone. Each message goes from a declared node to another
/// one or to the client, or from the client to a node that it asks for its table; and a table names declared nodes.
pub fn lines_name_declared_nodes()
    ensures { (n : ℕ) → (h : Header) → (ss : List Step) → All IsProperHeaderLine h
        → AreAllowed n (opened h) ss → AllName (IsOneOf (declared_nodes h)) (all_lines ss) }
{}
