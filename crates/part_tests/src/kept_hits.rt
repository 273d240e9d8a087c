ghost use Rattle.std.specs.Prelude.{◌≡◌, ◌<◌, ◌≤◌, length};
ghost use Rattle.std.specs.List.{All};

use bcodes::{Dim, Hit, Hits};
use hit_lists::{BestK, RangeHits};
use std::alloc::Global;
use std::test::Fail;

fn hit(distance: u32, label: i64) -> Hit
    ensures { result ≡ record { distance = distance; label = label } }
{
    Hit { distance, label }
}

// The first k of four hits, among them two ties and a pair that comes twice.
fn best_of(alloc: Global, k: u32) -> Result<Hits, Fail>
    requires { 1 ≤ k }
{
    let mut best = BestK::new(alloc, Dim::new(8)?, k, 4)?;
    best.offer(hit(3, 5));
    best.offer(hit(3, 2));
    best.offer(hit(1, 9));
    best.offer(hit(3, 2));
    Ok(best.into_hits())
}

#[test]
fn keeps_the_first_k(rt: HostRuntime) -> Result<(), Fail> {
    let all = [hit(1, 9), hit(3, 2), hit(3, 2), hit(3, 5)];
    assert_eq!(rt; best_of(rt.alloc(), 1)?.as_slice(), &all[..1]);
    assert_eq!(rt; best_of(rt.alloc(), 2)?.as_slice(), &all[..2]);
    assert_eq!(rt; best_of(rt.alloc(), 7)?.as_slice(), &all[..]);
    Ok(())
}

#[test]
fn hands_out_in_order(rt: HostRuntime) -> Result<(), Fail> {
    let mut all = RangeHits::new(rt.alloc());
    all.reserve(2)?;
    all.offer(hit(3, 5));
    all.reserve(3)?;
    all.offer(hit(3, 2));
    all.reserve(2)?;
    all.offer(hit(1, 9));
    all.reserve(1)?;
    all.offer(hit(3, 2));
    let expected = [hit(1, 9), hit(3, 2), hit(3, 2), hit(3, 5)];
    assert_eq!(rt; all.into_hits().as_slice(), &expected[..]);
    Ok(())
}

// Place `i` of `n` distances up to 64: falling, rising, equal, in two heaps, and scattered.
fn distance_at(form: u32, i: usize, n: usize) -> u32
    requires { 0 < n }
    ensures { result ≤ 64 }
{
    let i = i as u64;
    let n = n as u64;
    let distance = match form {
        0 => (n.saturating_sub(i)).min(1000) * 64 / n,
        1 => i.min(1000) * 64 / n,
        2 => 7,
        3 => 5 + i % 2,
        _ => i.wrapping_mul(0x9E37_79B9_7F4A_7C15) >> 58,
    };
    distance.min(64) as u32
}

fn fill(form: u32, labels: &mut [i64], distances: &mut [u32])
    requires { length labels.old ≡ length distances.old }
    ensures { All (λ d. d ≤ 64) distances.new }
{
    let n = distances.len();
    for i in 0..n {
        distances[i] = distance_at(form, i, n);
        // Some labels come twice.
        labels[i] = 20 - (i.wrapping_mul(7919) % n / 2 % 64) as i64;
    }
}

fn hits_of(alloc: Global, labels: &[i64], distances: &[u32]) -> Result<Vec<Hit>, Fail> {
    let mut hits = Vec::new(alloc);
    for (label, distance) in labels.iter().zip(distances) {
        hits.push(hit(*distance, *label))?;
    }
    Ok(hits)
}

fn offered(alloc: Global, k: u32, labels: &[i64], distances: &[u32]) -> Result<BestK, Fail>
    requires some { 1 ≤ k }
    requires same { length labels.now ≡ length distances.now }
    requires within { All (λ d. d ≤ 64) distances.now }
{
    let mut best = BestK::new(alloc, Dim::new(64)?, k, labels.len() as u64)?;
    best.offer_all(labels, distances);
    Ok(best)
}

fn below(alloc: Global, radius: u32, labels: &[i64], distances: &[u32]) -> Result<Hits, Fail>
    requires { length labels.now ≡ length distances.now }
{
    let mut found = RangeHits::new(alloc);
    found.reserve(labels.len())?;
    found.offer_below(radius, labels, distances);
    Ok(found.into_hits())
}

#[test]
fn keeps_what_a_sort_keeps(rt: HostRuntime) -> Result<(), Fail> {
    let alloc = rt.alloc();
    for form in 0..5 {
        for n in [1, 2, 5, 20, 31, 32, 33, 40, 64, 70] {
            let mut labels = vec![in alloc; 0i64; n]?;
            let mut distances = vec![in alloc; 0u32; n]?;
            fill(form, &mut labels, &mut distances);
            let mut all = hits_of(alloc, &labels, &distances)?;
            all.sort_unstable();
            for k in 1..45 {
                let best = offered(alloc, k, &labels, &distances)?;
                let first = &all[..all.len().min(k as usize)];
                let worst = if k as usize <= n { first.last() } else { None };
                assert_eq!(rt; best.worst(), worst.map(|h| h.distance));
                assert_eq!(rt; best.into_hits().as_slice(), first);
            }
            for radius in [0, 1, 6, 7, 8, 32, 65] {
                let found = below(alloc, radius, &labels, &distances)?;
                let near = all.iter().take_while(|h| h.distance < radius).count();
                assert_eq!(rt; found.as_slice(), &all[..near]);
            }
        }
    }
    Ok(())
}
