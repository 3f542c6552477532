//! The laws of lists. A call does nothing: what it ensures is the law.
ghost use Rattle.std.specs.Prelude.{◌≡◌, ◌≢◌, ◌↔◌, ◌⊎◌, ◌++◌, ◌<◌, ℕ, true, false, List, length, drop, min, IsTrue, IsPermutation, Contains};
ghost use Rattle.cluster_types.specs.declared.member.Member.{Member};
ghost use Rattle.cluster_types.specs.Distinct.{AreDistinct, without};
ghost use Rattle.cluster_types.specs.Members.{ids_of};
ghost use Rattle.partition_lists.specs.Leaving.{members_without, HoldsNoRack, SharesRack, IsNextOfRack, IsAloneInRack, AreAllPlain};
ghost use Rattle.partition_lists.specs.Ranks.{is_repeat};
ghost use Rattle.partition_lists.specs.Lists.{list, position_of, IsListOf, replicas, is_replica_of};

/// A list has each member once, and no other node.
pub fn list_has_each_member_once()
    ensures members { (members : List Member) → (p : ℕ)
        → IsPermutation (ids_of members) (list members p) }
    ensures length { (members : List Member) → (p : ℕ) → length (list members p) ≡ length members }
    ensures contains { (members : List Member) → (p : ℕ) → (n : ℕ)
        → Contains (list members p) n ↔ Contains (ids_of members) n }
    ensures distinct { (members : List Member) → (p : ℕ) → AreDistinct (ids_of members)
        → AreDistinct (list members p) }
{}

/// Each member stands at the position that is the number of members with a smaller rank, and no
/// other list has them so.
pub fn list_goes_by_position()
    ensures placed { (members : List Member) → (p : ℕ) → AreDistinct (ids_of members)
        → IsListOf members p (list members p) }
    ensures unique { (members : List Member) → (p : ℕ) → (ids : List ℕ)
        → AreDistinct (ids_of members) → IsListOf members p ids → ids ≡ list members p }
{}

/// Members that aren't quiesced stand before those that are, and of the former the first of a rack
/// before those that repeat a rack. Of two members of one rack, one repeats it.
pub fn racks_alternate_and_quiesced_members_stand_last()
    ensures quiesced { (members : List Member) → (p : ℕ) → (a : Member) → (b : Member)
        → Contains members a → a.role.quiesced ≡ false → b.role.quiesced ≡ true
        → position_of members p a < position_of members p b }
    ensures racks { (members : List Member) → (p : ℕ) → (a : Member) → (b : Member)
        → Contains members a → a.role.quiesced ≡ false → is_repeat members p a ≡ false
        → is_repeat members p b ≡ true → position_of members p a < position_of members p b }
    ensures repeats { (members : List Member) → (p : ℕ) → (a : Member) → (b : Member)
        → Contains members a → Contains members b → a.role.quiesced ≡ false → a.role.rack ≢ 0
        → SharesRack a b → (is_repeat members p a ≡ true) ⊎ (is_repeat members p b ≡ true) }
{}

/// The replicas are the first nodes of the list, as many as the factor says or all.
pub fn replicas_stand_first()
    ensures first { (ids : List ℕ) → (factor : ℕ) → replicas ids factor ++ drop factor ids ≡ ids }
    ensures length { (ids : List ℕ) → (factor : ℕ)
        → length (replicas ids factor) ≡ min factor (length ids) }
    ensures replica { (n : ℕ) → (members : List Member) → (p : ℕ) → (factor : ℕ)
        → IsTrue (is_replica_of n members p factor)
        ↔ Contains (replicas (list members p) factor) n }
{}

/// When a member leaves, the others keep their order, but for the next of its rack where it was
/// the rack's first.
pub fn leaving_keeps_the_order()
    // it was quiesced, had no rack, or wasn't the first of its rack: the list loses it alone
    ensures without_rack { (members : List Member) → (p : ℕ) → (gone : Member)
        → AreDistinct (ids_of members) → Contains members gone → HoldsNoRack members p gone
        → list (members_without members gone.id) p ≡ without (list members p) gone.id }
    // another of its rack is left: without the next of the rack, the lists differ in the member alone
    ensures before_next { (members : List Member) → (p : ℕ) → (gone : Member) → (next : Member)
        → AreDistinct (ids_of members) → Contains members gone → IsNextOfRack members p gone next
        → without (list (members_without members gone.id) p) next.id
        ≡ without (without (list members p) gone.id) next.id }
    // no other of its rack is left: the list loses it alone
    ensures alone { (members : List Member) → (p : ℕ) → (gone : Member)
        → AreDistinct (ids_of members) → Contains members gone → IsAloneInRack members gone
        → list (members_without members gone.id) p ≡ without (list members p) gone.id }
    // all roles are plain: the list loses the node alone, whether it was a member or not
    ensures plain { (members : List Member) → (p : ℕ) → (gone : ℕ) → AreDistinct (ids_of members)
        → AreAllPlain members
        → list (members_without members gone) p ≡ without (list members p) gone }
{}
