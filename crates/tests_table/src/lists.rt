//! Edits of lists and maps beside those of std's, and what no clause says.

ghost use Rattle.std.specs.Prelude.{◌<◌};

use crate::facts::{equal, holds};
use chunked::Sorted;
use std::collections::BTreeMap;
use std::test::Fail;
use tiered::Tiered;

/// The next number of a sequence without a pattern.
fn next(seed: u64) -> u64 {
    seed.wrapping_mul(6_364_136_223_846_793_005)
        .wrapping_add(1_442_695_040_888_963_407)
}

/// A number below another.
fn below(seed: u64, count: usize) -> usize
    requires { 0 < count }
    ensures { result < count }
{
    (seed >> 33) as usize % count
}

fn is_send<T: Send>(_value: &T) {}

#[test]
fn short_lists_lie_side_by_side(rt: HostRuntime) -> Result<(), Fail> {
    let mut list = Tiered::new(rt.alloc());
    is_send(&list);
    holds(&rt, list.is_empty());
    for number in 0..2048u32 {
        list.push(number)?;
    }
    equal(&rt, list.as_slice().map(|items| items.len()), Some(2048));
    list.reserve()?;
    equal(&rt, list.as_slice().map(|items| items.len()), Some(2048));
    list.insert_reserved(0, 9);
    holds(&rt, list.as_slice().is_none());
    holds(&rt, list.len() == 2049);
    equal(&rt, *list.at(0), 9);
    equal(&rt, *list.at(2048), 2047);
    list.set(2048, 7);
    equal(&rt, list.remove(2048), 7);
    holds(&rt, list.len() == 2048);
    equal(&rt, list.as_slice().map(|items| items.len()), Some(2048));
    list.set(1, 5);
    equal(&rt, *list.at(1), 5);
    list.clear();
    holds(&rt, list.is_empty());
    list.push(3)?;
    equal(&rt, list.as_slice(), Some([3u32].as_slice()));
    list.clear();
    equal(&rt, list.len(), 0);
    Ok(())
}

#[test]
fn copies_stand_alone(rt: HostRuntime) -> Result<(), Fail> {
    for count in [0usize, 1, 2048, 2049, 4096, 5000] {
        let list = Tiered::repeated(rt.alloc(), 7u32, count)?;
        holds(&rt, list.len() == count);
        equal(&rt, list.as_slice().is_some(), count <= 2048);
        let mut other = list.copy(rt.alloc())?;
        other.push(8)?;
        holds(&rt, other.len() == count + 1);
        equal(&rt, *other.at(count), 8);
        holds(&rt, list.len() == count);
    }
    let mut long = Tiered::repeated(rt.alloc(), 7u32, 2049)?;
    holds(&rt, long.len() == 2049);
    long.set(2048, 6);
    long.remove(0);
    let short = long.copy(rt.alloc())?;
    holds(&rt, short.len() == 2048);
    equal(&rt, short.as_slice(), long.as_slice());
    equal(&rt, *short.at(2047), 6);
    Ok(())
}

#[test]
fn edits_at_random_are_those_of_a_vector(rt: HostRuntime) -> Result<(), Fail> {
    let mut list = Tiered::new(rt.alloc());
    let mut plain = Vec::new(rt.alloc());
    let mut seed = 1;
    for step in 0..20_000u64 {
        seed = next(seed);
        let count = list.len();
        holds(&rt, plain.len() == count);
        let grows = if step % 10_000 < 5000 { 15 } else { 3 };
        if count == 0 || seed >> 60 < grows {
            let place = below(seed, count + 1);
            list.reserve()?;
            list.insert_reserved(place, step);
            plain.insert(place, step)?;
        } else {
            let place = below(seed, count);
            equal(&rt, list.at(place), &plain[place]);
            equal(&rt, list.remove(place), plain.remove(place));
        }
        if step % 1000 == 0 {
            holds(&rt, plain.len() == list.len());
            for place in 0..list.len() {
                equal(&rt, list.at(place), &plain[place]);
            }
        }
    }
    Ok(())
}

#[test]
fn keys_at_random_are_those_of_a_map(rt: HostRuntime) -> Result<(), Fail> {
    let mut map = Sorted::new(rt.alloc());
    is_send(&map);
    let mut plain = BTreeMap::new(rt.alloc());
    let mut seed = 1;
    for step in 0..8000u64 {
        seed = next(seed);
        let key = below(seed, 1500) as u64;
        equal(&rt, map.get(key), plain.get(&key));
        let grows = if step % 4000 < 2000 { 11 } else { 4 };
        if map.contains(key) {
            if seed >> 60 < grows {
                map.set(key, step);
                plain.insert(key, step)?;
            } else {
                equal(&rt, map.remove(key), plain.remove(&key));
            }
        } else {
            map.reserve()?;
            map.insert_reserved(key, step);
            plain.insert(key, step)?;
        }
        holds(&rt, map.chunk_count() <= map.len() / 32 + 1);
        equal(&rt, map.len(), plain.len());
        if step % 1000 == 0 {
            for (entry, (key, value)) in map.iter().zip(plain.iter()) {
                equal(&rt, entry, &(*key, *value));
            }
        }
    }
    Ok(())
}

#[test]
fn keys_with_one_prefix_are_walked(rt: HostRuntime) -> Result<(), Fail> {
    let mut children = Sorted::new(rt.alloc());
    for parent in [3u64, 1, 2] {
        for child in [9u64, 7, 8] {
            let key = parent << 32 | child;
            children.reserve()?;
            if !children.contains(key) {
                children.insert_reserved(key, ());
            }
        }
    }
    let mut found = Vec::new(rt.alloc());
    for entry in children.iter_from(2 << 32) {
        if entry.0 >> 32 != 2 {
            break;
        }
        found.push(entry.0 % 16)?;
    }
    equal(&rt, found.as_slice(), [7u64, 8, 9].as_slice());
    equal(
        &rt,
        children.first_from(2 << 32 | 8),
        Some(&(2 << 32 | 8, ())),
    );
    equal(&rt, children.first_from(4 << 32), None);
    equal(&rt, children.remove(5), None);
    equal(&rt, children.len(), 9);
    Ok(())
}
