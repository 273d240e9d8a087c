ghost use Rattle.std.specs.Prelude.{◌≡◌, ◌+◌, ◌*◌, ◌/◌, ◌<◌, ◌≤◌, List, ◌++◌, length, map, OnOk};
ghost use Rattle.std.specs.List.{All};
ghost use Rattle.bcodes.specs.declared.hit.Hit.{Hit as HitValue};
ghost use Rattle.bcodes.specs.Ranges.{raised};
ghost use Rattle.bcodes.specs.Answers.{hit_of};
ghost use Rattle.list_scan.specs.Visited.{below, first, hits_on};
ghost use Rattle.multi_hash.specs.Seen.{row_at};

use bcodes::{BinaryIndex, Hit, Ledger, Meter, Want};
use flat_index::Flat;
use hit_lists::{BestK, RangeHits};
use kernel_table::{Kernel, Prepared};

/// Offers the codes at some positions to the `k` best. The meter's `lent` rises by their number. It
/// takes no memory.
pub fn offer_met<L: Ledger>(
    storage: &Flat<L>,
    met: &[usize],
    best: &mut BestK,
    kernel: &Prepared<'_>,
    meter: &mut Meter<L>,
)
    requires known { All (λ p. p < length storage.now.codes) met.now }
    requires size { length kernel.now ≡ storage.now.dim / 8 }
    requires bits { best.old.bits ≡ 8 * length kernel.now }
    requires room { length best.old.items + length met.now ≤ best.old.most }
    ensures items { (hits : List HitValue) → best.old.items ≡ first best.old.k hits
        → best.new.items ≡ first best.old.k
        (hits ++ hits_on kernel.now (map (row_at storage.now.codes) met.now)) }
    ensures lent { meter.new
        ≡ record meter.old { lent = raised meter.old.lent (length met.now) } }
    ensures rises { meter.old.lent ≤ meter.new.lent }
{
    for i in 0..met.len() {
        let hit = hit_at(storage, met[i], kernel, meter);
        best.offer(hit);
    }
}

/// Adds the codes at some positions whose distance from the query is strictly below `radius`. The
/// meter's `lent` rises by the number of positions, and where memory ends it by no more than that.
pub fn offer_met_below<L: Ledger>(
    storage: &Flat<L>,
    met: &[usize],
    found: &mut RangeHits,
    radius: u32,
    kernel: &Prepared<'_>,
    meter: &mut Meter<L>,
) -> Result<(), Want>
    requires known { All (λ p. p < length storage.now.codes) met.now }
    requires size { length kernel.now ≡ storage.now.dim / 8 }
    ensures items { OnOk result (found.new.items ≡ found.old.items
        ++ below radius (hits_on kernel.now (map (row_at storage.now.codes) met.now))) }
    ensures lent { OnOk result (meter.new.lent ≡ raised meter.old.lent (length met.now)) }
    ensures lent_least { meter.old.lent ≤ meter.new.lent }
    ensures lent_most { meter.new.lent ≤ meter.old.lent + length met.now }
    ensures asked { meter.new.asked ≡ meter.old.asked }
{
    for i in 0..met.len() {
        let hit = hit_at(storage, met[i], kernel, meter);
        if hit.distance < radius {
            found.reserve(1)?;
            found.offer(hit);
        }
    }
    Ok(())
}

// The code at a position as a hit. The meter's `lent` rises by 1.
fn hit_at<L: Ledger>(
    storage: &Flat<L>,
    position: usize,
    kernel: &Prepared<'_>,
    meter: &mut Meter<L>,
) -> Hit
    requires known { position < length storage.now.codes }
    requires size { length kernel.now ≡ storage.now.dim / 8 }
    ensures hit { result ≡ hit_of kernel.now (row_at storage.now.codes position) }
    ensures bits { result.distance ≤ 8 * length kernel.now }
    ensures lent { meter.new ≡ record meter.old { lent = raised meter.old.lent 1 } }
{
    // For the proof that the code has the size of the query.
    let _dim = storage.dim();
    let distance = kernel.distance(storage.code(position as u64, meter));
    Hit {
        distance,
        label: position as i64,
    }
}
