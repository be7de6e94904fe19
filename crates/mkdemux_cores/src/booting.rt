//! How a machine comes up.

ghost use Rattle.std.specs.Prelude.{◌≡◌, ◌≢◌, ◌↔◌, ◌<◌, ◌≤◌, ◌⊎◌, All, None, Some, map, length, IfOk, IfSome, IfNone, OnSome, IsTrue, IsFalse};
ghost use Rattle.filter_table.specs.Limits.{default_limits};
ghost use Rattle.core_machine.specs.Booted.{HasDoneNothing};
ghost use Rattle.core_machine.specs.Booting.{IsMachineOf};
ghost use Rattle.mkdemux_cores.specs.Booting as spec;
ghost use Rattle.mkdemux_cores.specs.Booting.{AreClosed, AreLimits, AreOpened, cores_of};

use crate::answers::{BAD_LIMITS, DONE, NO_MEMORY, NO_ROOM, NOT_CORES, OPEN};
use crate::handle::CoreHandle;
use core_loop::{Core, RingLinks};
use core_machine::boot_machine;
use endpoint_caps::CapLimits;
use filter_table::Limits;
use monitor_2pc::{DEFAULT_MOST_CORES, MOST_CORES};
use std::alloc::{AllocError, Global};

/// Opens the cores of one machine with the default limits, as many as there are budgets: the instructions that the filters of
/// each may have together. `DONE`, else `NOT_CORES` where they aren't 1 to 8, `NO_ROOM` where there aren't as many structs, `OPEN`
/// where one of these is open, or `NO_MEMORY`, and all stay as they were.
#[unsafe(no_mangle)]
pub extern "C" fn mkdemux_boot_cores(
    alloc: Global,
    budgets: &[u32],
    cores: &mut [CoreHandle],
) -> u32
    ensures opened { result ≡ DONE → AreOpened default_limits budgets.now cores.new }
    ensures same { result ≢ DONE → cores_of cores.new ≡ cores_of cores.old }
    ensures count { result ≡ NOT_CORES ↔ ((length budgets.now ≡ 0) ⊎ (8 < length budgets.now)) }
    ensures room { result ≡ NO_ROOM → length cores.old ≢ length budgets.now }
    ensures room_first { (result ≡ DONE) ⊎ ((result ≡ OPEN) ⊎ (result ≡ NO_MEMORY)) → length cores.old ≡ length budgets.now }
    ensures open { result ≡ OPEN → AreClosed cores.old → ⊥ }
    ensures open_first { result ≡ NO_MEMORY → AreClosed cores.old }
    ensures were_closed { result ≡ DONE → AreClosed cores.old }
    ensures answers { (result ≡ DONE) ⊎ ((result ≡ NOT_CORES) ⊎ ((result ≡ NO_ROOM) ⊎ ((result ≡ OPEN) ⊎ (result ≡ NO_MEMORY)))) }
{
    if budgets.is_empty() || budgets.len() > usize::from(DEFAULT_MOST_CORES) {
        return NOT_CORES;
    }
    open_all(alloc, Limits::DEFAULT, budgets, cores)
}

/// The same with these limits, and 1 to 64 cores: the most capabilities and filters of all domains together, and the most
/// capabilities, filters and instructions of one domain, where 0 stands for all. `BAD_LIMITS` comes next after `NOT_CORES`: where
/// `caps` or `filters` is 0 or above 65,536, or a domain's share is above the whole.
#[unsafe(no_mangle)]
pub extern "C" fn mkdemux_boot_limits_cores(
    alloc: Global,
    caps: u32,
    filters: u32,
    domain_caps: u32,
    domain_filters: u32,
    domain_insns: u32,
    budgets: &[u32],
    cores: &mut [CoreHandle],
) -> u32
    ensures opened { result ≡ DONE → AreOpened (spec.limits_of caps filters domain_caps domain_filters domain_insns) budgets.now cores.new }
    ensures same { result ≢ DONE → cores_of cores.new ≡ cores_of cores.old }
    ensures count { result ≡ NOT_CORES ↔ ((length budgets.now ≡ 0) ⊎ (64 < length budgets.now)) }
    ensures bad_limits { result ≡ BAD_LIMITS → AreLimits caps filters domain_caps domain_filters → ⊥ }
    ensures good_limits { result ≡ DONE → AreLimits caps filters domain_caps domain_filters }
    ensures limits_first { (result ≡ NO_ROOM) ⊎ ((result ≡ OPEN) ⊎ (result ≡ NO_MEMORY)) → AreLimits caps filters domain_caps domain_filters }
    ensures room { result ≡ NO_ROOM → length cores.old ≢ length budgets.now }
    ensures room_first { (result ≡ DONE) ⊎ ((result ≡ OPEN) ⊎ (result ≡ NO_MEMORY)) → length cores.old ≡ length budgets.now }
    ensures open { result ≡ OPEN → AreClosed cores.old → ⊥ }
    ensures open_first { result ≡ NO_MEMORY → AreClosed cores.old }
    ensures were_closed { result ≡ DONE → AreClosed cores.old }
    ensures answers { (result ≡ DONE) ⊎ ((result ≡ NOT_CORES) ⊎ ((result ≡ BAD_LIMITS) ⊎ ((result ≡ NO_ROOM) ⊎ ((result ≡ OPEN) ⊎ (result ≡ NO_MEMORY))))) }
{
    if budgets.is_empty() || budgets.len() > usize::from(MOST_CORES) {
        return NOT_CORES;
    }
    match limits_of(caps, filters, domain_caps, domain_filters, domain_insns) {
        Some(limits) => open_all(alloc, limits, budgets, cores),
        None => BAD_LIMITS,
    }
}

/// The limits that these numbers give, if a machine may have them.
fn limits_of(
    caps: u32,
    filters: u32,
    domain_caps: u32,
    domain_filters: u32,
    domain_insns: u32,
) -> Option<Limits>
    ensures some { IfSome result (λ limits. limits ≡ spec.limits_of caps filters domain_caps domain_filters domain_insns) }
    ensures good { OnSome result (AreLimits caps filters domain_caps domain_filters) }
    ensures none { IfNone result (AreLimits caps filters domain_caps domain_filters → ⊥) }
{
    let of_caps = CapLimits::new(caps, share_of(caps, domain_caps))?;
    Limits::new(
        of_caps,
        filters,
        share_of(filters, domain_filters),
        share_of(u32::MAX, domain_insns),
    )
}

/// A domain's share, where 0 stands for all.
fn share_of(total: u32, share: u32) -> u32
    ensures { result ≡ spec.share_of total share }
{
    if share == 0 { total } else { share }
}

/// Opens the cores of one machine of 1 to 64, where there are as many closed handles.
fn open_all(alloc: Global, limits: Limits, budgets: &[u32], cores: &mut [CoreHandle]) -> u32
    requires some { 0 < length budgets.now }
    requires few { length budgets.now ≤ 64 }
    ensures opened { result ≡ DONE → AreOpened limits budgets.now cores.new }
    ensures same { result ≢ DONE → cores_of cores.new ≡ cores_of cores.old }
    ensures room { result ≡ NO_ROOM → length cores.old ≢ length budgets.now }
    ensures room_first { (result ≡ DONE) ⊎ ((result ≡ OPEN) ⊎ (result ≡ NO_MEMORY)) → length cores.old ≡ length budgets.now }
    ensures open { result ≡ OPEN → AreClosed cores.old → ⊥ }
    ensures open_first { result ≡ NO_MEMORY → AreClosed cores.old }
    ensures were_closed { result ≡ DONE → AreClosed cores.old }
    ensures answers { (result ≡ DONE) ⊎ ((result ≡ NO_ROOM) ⊎ ((result ≡ OPEN) ⊎ (result ≡ NO_MEMORY))) }
{
    if cores.len() != budgets.len() {
        return NO_ROOM;
    }
    if is_any_open(alloc, cores) {
        return OPEN;
    }
    match boot_boxed(alloc, limits, budgets) {
        Ok(booted) => {
            put_all(cores, booted);
            DONE
        }
        Err(AllocError) => NO_MEMORY,
    }
}

/// The cores of a machine of 1 to 64, each in a block of its own.
fn boot_boxed(
    alloc: Global,
    limits: Limits,
    budgets: &[u32],
) -> Result<Vec<Box<Core<RingLinks>>>, AllocError>
    ensures count { IfOk result (λ boxes. length boxes.items ≡ length budgets.now) }
    ensures machine { IfOk result (λ boxes. IsMachineOf limits budgets.now (map (λ b. b.value) boxes.items)) }
    ensures nothing { IfOk result (λ boxes. All HasDoneNothing (map (λ b. b.value) boxes.items)) }
{
    match boot_machine(alloc, limits, budgets) {
        Ok(cores) => boxed(alloc, cores),
        Err(_) => Err(AllocError),
    }
}

/// Each core in a block of its own.
#[inline(never)]
fn boxed(
    alloc: Global,
    cores: Vec<Core<RingLinks>>,
) -> Result<Vec<Box<Core<RingLinks>>>, AllocError>
    ensures { IfOk result (λ boxes. map (λ b. b.value) boxes.items ≡ cores.items) }
{
    let mut boxes = Vec::with_capacity(alloc, cores.len())?;
    for core in cores {
        let block = block_of(alloc, core)?;
        boxes.push_reserved(block);
    }
    Ok(boxes)
}

/// A core in a block of its own.
// In line, so that the core isn't copied on the stack once more.
#[inline(always)]
fn block_of(alloc: Global, core: Core<RingLinks>) -> Result<Box<Core<RingLinks>>, AllocError>
    ensures { IfOk result (λ b. b.value ≡ core) }
{
    match Box::new(alloc, core) {
        Ok(block) => Ok(block),
        Err(_) => Err(AllocError),
    }
}

/// Whether one of these is open.
fn is_any_open(alloc: Global, cores: &mut [CoreHandle]) -> bool
    ensures open { IsTrue result → AreClosed cores.old → ⊥ }
    ensures closed { IsFalse result → AreClosed cores.old }
    ensures same { cores_of cores.new ≡ cores_of cores.old }
{
    for core in cores.iter_mut() {
        if core.is_open(alloc) {
            return true;
        }
    }
    false
}

/// Each core goes to the closed handle in its place.
pub(crate) fn put_all(cores: &mut [CoreHandle], booted: Vec<Box<Core<RingLinks>>>)
    requires count { length booted.items ≡ length cores.old }
    requires closed { AreClosed cores.old }
    ensures { cores_of cores.new ≡ map (λ b. Some b.value) booted.items }
{
    let mut place = 0;
    for core in booted {
        cores[place].put(core);
        place += 1;
    }
}
