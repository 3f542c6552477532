//! Laws of scans. A call does nothing: what it ensures is the law.
ghost use Rattle.std.specs.Prelude.{◌≡◌, ◌+◌, ◌*◌, ℕ, List, All, Some, true, nat_lt, take, drop, length, if◌then◌else◌};
ghost use Rattle.std.specs.Ordering.{nat_cmp};
ghost use Rattle.std.specs.Cmp.Lexicographic.{slice_cmp};
ghost use Rattle.std.specs.List.Sorted.{IsStrictlySortedBy};
ghost use Rattle.conflict_order.specs.Contents.{Record};
ghost use Rattle.cluster_types.specs.declared.cluster_key.ClusterKey.{ClusterKey};
ghost use Rattle.node_rules.specs.Facts.{Facts};
ghost use Rattle.request_rules.specs.declared.scanning.Scanning.{Scanning};
ghost use Rattle.request_rules.specs.declared.scanning.ScanStep.TheVariants as scan;
ghost use Rattle.request_rules.specs.Pages.{digests_behind};
ghost use Rattle.request_rules.specs.Scans.{IsNextPage, last_digest, page_front, stands_with, step_for};
ghost use Rattle.part_scan.specs.Cuts.{ShowsRecords, begun_at, digests_in, having_read, page_behind, records_held};

use request_rules::laws::pages_of_one_list_make_it_whole;

/// Of records in rising order, those above the last of the first ones are the rest.
pub fn what_is_above_the_first_ones_is_the_rest()
    ensures { (rs : List Record) → (n : ℕ)
        → IsStrictlySortedBy (slice_cmp nat_cmp) (digests_in rs)
        → digests_behind (last_digest (take n rs)) (digests_in rs) ≡ digests_in (drop n rs) }
{}

/// A page that a node cuts where the scan has come to is the next part of what the node holds, if the
/// scan has the first part of just that and the page can stand with its first page.
pub fn a_page_is_cut_where_the_scan_has_come_to()
    ensures { (f : Facts) → (from : ℕ) → (s : ℕ) → (so_far : ℕ) → (most : ℕ) → (x : Scanning)
        → x.records ≡ take so_far (records_held f x.partition)
        → stands_with (page_front from (page_behind f s x.partition most x)) x.first ≡ true
        → IsNextPage (records_held f x.partition) so_far most from x
        (page_behind f s x.partition most x) }
{}

/// Where a node holds the same records of a partition in all of these states, and tells one key and
/// one number of writes, the pages that it cuts in them, one after another, give a scan the first
/// records, so many for each page. The page that it cuts next brings as many more, or, where no more
/// than these are left, the scan has all.
pub fn pages_cut_one_after_another_give_all_records()
    ensures records { (rs : List Record) → (key : ClusterKey) → (writes : ℕ) → (p : ℕ)
        → (from : ℕ) → (s : ℕ) → (most : ℕ) → (fs : List Facts)
        → All (ShowsRecords rs key writes p) fs
        → (having_read from s most (begun_at p) fs).records ≡ take (length fs * most) rs }
    ensures step { (rs : List Record) → (key : ClusterKey) → (writes : ℕ) → (p : ℕ)
        → (from : ℕ) → (s : ℕ) → (most : ℕ) → (fs : List Facts) → (f : Facts)
        → All (ShowsRecords rs key writes p) fs
        → ShowsRecords rs key writes p f
        → step_for (Some (having_read from s most (begun_at p) fs)) from
        (page_behind f s p most (having_read from s most (begun_at p) fs))
        ≡ (if nat_lt most (length (drop (length fs * most) rs))
        then scan.More most
        else scan.Whole rs) }
{
    pages_of_one_list_make_it_whole();
}
