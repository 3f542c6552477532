//! The digests that stand for keys.
ghost use Rattle.std.specs.Prelude.{◌≡◌, List, ℕ, length, slice_index, Some, nat_eq, refl};
ghost use Rattle.std.specs.Ordering.{nat_cmp};
ghost use Rattle.std.specs.Cmp.{partial_equiv_from_equiv};
ghost use Rattle.std.specs.Cmp.Lexicographic.{pointwise, slice_cmp, nat_list_eq_equiv, nat_list_cmp_total, texts_ties, texts_po};
ghost use Rattle.cluster_types.specs.Texts.{digest_text};
ghost use Rattle.std.proofs.Common.{rules};

use item_lists::ExactClone;
use std::cmp::Ordering;
use std::fmt;
use std::marker::Model;

/// The 160-bit digest that stands for a record's key. Digests are ordered byte by byte.
#[derive(Clone, Copy, Debug, Hash)]
pub struct Digest {
    bytes: [u8; 20],
}

impl Model for Digest {
    ghost Value = { List ℕ };

    ghost view = { λ d. d.bytes };

    ghost inverse = { λ bytes. record { bytes = bytes } };
}

impl ExactClone for Digest {
    ghost equal = { Prim.search rules };
}

impl Digest {
    /// The digest of these bytes.
    pub fn new(bytes: [u8; 20]) -> Digest
        ensures { result ≡ bytes }
    {
        Digest { bytes }
    }

    /// The digest's bytes.
    pub fn bytes(&self) -> &[u8; 20]
        ensures same { result.now ≡ self.now }
        ensures size { length self.now ≡ 20 }
    {
        &self.bytes
    }

    /// The digest's bytes as a slice.
    pub fn as_slice(&self) -> &[u8]
        ensures same { result.now ≡ self.now }
        ensures size { length self.now ≡ 20 }
    {
        &self.bytes
    }
}

impl PartialEq for Digest {
    ghost eq = { pointwise nat_eq };

    ghost laws = { partial_equiv_from_equiv nat_list_eq_equiv };

    fn eq(&self, other: &Digest) -> bool {
        self.as_slice() == other.as_slice()
    }
}

impl Eq for Digest {
    ghost laws = { nat_list_eq_equiv };
}

impl PartialOrd for Digest {
    ghost partial_cmp = { λ x y. Some (slice_cmp nat_cmp x y) };

    ghost laws = { texts_po };

    fn partial_cmp(&self, other: &Digest) -> Option<Ordering> {
        Some(self.cmp(other))
    }
}

impl Ord for Digest {
    ghost cmp = { slice_cmp nat_cmp };

    ghost total = { nat_list_cmp_total };

    ghost matches_partial_cmp = { λ x y. refl };

    ghost matches_eq = { texts_ties };

    fn cmp(&self, other: &Digest) -> Ordering {
        self.as_slice().cmp(other.as_slice())
    }
}

/// Writes forty hex digits in lower case.
impl fmt::Display for Digest {
    ghost output = { λ d. Some (digest_text d) };

    fn fmt<W: fmt::Write>(&self, f: &mut fmt::Formatter<W>) -> fmt::Result {
        // There is room for two digits a byte, and digits are text: only the writer can refuse.
        let mut digits = [0; 40];
        hex::encode_to_slice(self.as_slice(), &mut digits).map_err(|_| fmt::Error)?;
        let text = str::from_utf8(&digits).map_err(|_| fmt::Error)?;
        f.write_str(text)
    }
}
