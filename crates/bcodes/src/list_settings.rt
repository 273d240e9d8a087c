ghost use Rattle.std.specs.Prelude.{◌≡◌, ◌+◌, ◌^◌, ◌<◌, ◌≤◌, map, true, false, length, Err, Some};
ghost use Rattle.std.specs.Prelude.{IsOk, OnOk, OnErr};
ghost use Rattle.bcodes.specs.Ranges.{load_limit};
ghost use Rattle.bcodes.specs.Value.{IvfValue, IsNumbering, dim_of, load_of};
ghost use Rattle.bcodes.specs.Settings.{ivf_in, with_ivf};
ghost use Rattle.bcodes.specs.Answers.{after_centroids};

use crate::{Addable, Codes, DirectError, Want};

/// The settings of an IVF, as in Faiss's `IndexBinaryIVF`, or of the IVF inside an index with outer
/// ids. Each of them leaves the rows.
pub trait ListSettings: Addable {
    /// Sets the number of inverted lists that a query reads at most.
    fn set_nprobe(&mut self, n: u64)
        requires least { 1 ≤ n }
        requires most { n < 2 ^ 63 }
        ensures { (v : IvfValue) → ivf_in (Self.value self.old) ≡ Some v
            → Self.value self.new ≡ with_ivf (record v { nprobe = n }) (Self.value self.old) };

    /// Sets the number of rows after which a query reads no further list. 0 is no limit.
    fn set_max_codes(&mut self, n: u64)
        requires { n < 2 ^ 63 }
        ensures { (v : IvfValue) → ivf_in (Self.value self.old) ≡ Some v
            → Self.value self.new ≡ with_ivf (record v { max_codes = n }) (Self.value self.old) };

    /// Appends all of the centroids, or none.
    ///
    /// # Errors
    ///
    /// If memory runs out. The index is then as before.
    fn give_all(&mut self, codes: &Codes) -> Result<(), Want>
        requires same_dim { codes.now.dim ≡ dim_of (Self.value self.old) }
        requires few { (v : IvfValue) → ivf_in (Self.value self.old) ≡ Some v
            → length v.centroids + length codes.now.codes ≤ v.nlist }
        requires load { load_of (after_centroids (Self.value self.old) codes.now.codes)
            ≤ load_limit }
        ensures ok { OnOk result
            (Self.value self.new ≡ after_centroids (Self.value self.old) codes.now.codes) }
        ensures err { OnErr result (Self.value self.new ≡ Self.value self.old) };

    /// Keeps a direct map from labels to rows, or gives it up, which takes no memory.
    ///
    /// # Errors
    ///
    /// `NotSequential` where a map is asked for and the inner labels are not the numbers below
    /// their count, each once; `Memory` if memory runs out. The index is then as before.
    fn set_direct(&mut self, on: bool) -> Result<(), DirectError>
        ensures ok { OnOk result ((v : IvfValue) → ivf_in (Self.value self.old) ≡ Some v
            → Self.value self.new ≡ with_ivf (record v { direct = on }) (Self.value self.old)) }
        ensures err { OnErr result (Self.value self.new ≡ Self.value self.old) }
        ensures only { result ≡ Err DirectError.NotSequential
            → (v : IvfValue) → ivf_in (Self.value self.old) ≡ Some v
            → (on ≡ true) × ¬ IsNumbering (map (λ row. row.label) v.rows) }
        ensures numbered { on ≡ true
            → OnOk result ((v : IvfValue) → ivf_in (Self.value self.old) ≡ Some v
            → IsNumbering (map (λ row. row.label) v.rows)) }
        ensures off { on ≡ false → IsOk result };
}
