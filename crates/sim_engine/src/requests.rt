//! The requests of a script that wait to be begun.

ghost use Rattle.std.specs.Prelude.{◌≡◌, ◌+◌, ◌<◌, ◌++◌, ◌∷◌, [], ℕ, List, Option, Some, None, length, slice_get, slice_set, ◌⊎◌, MatchOption, OnOk, IfOk, IfSome, IfNone, IsTrue, IsFalse, ◌≢◌};
ghost use Rattle.filter_table.specs.Tables.{HasShortProgram};
ghost use Rattle.sim_engine.specs.Keeping.{IsKept, EmptyBefore, NoneBefore, IsFirst, IsFirstAt};
ghost use Rattle.sim_engine.specs.declared.requests.PendingRequest.{PendingRequest as GhostRequest};

use filter_table::Op;
use monitor_2pc::MOST_CORES;
use std::alloc::{AllocError, Global};
use std::marker::Model;

/// A request, and the core that it enters at.
#[derive(Drop)]
pub struct PendingRequest {
    pub home: u16,
    pub op: Op,
}

impl PendingRequest {
    /// A request of an equal operation.
    pub(crate) fn new(home: u16, op: &Op) -> Result<PendingRequest, AllocError>
        ensures { IfOk result (λ request. request ≡ record { home = home; op = op.now }) }
    {
        let op = op.clone()?;
        Ok(PendingRequest { home, op })
    }
}

/// Requests in the order in which they were asked for, seen as a list of places, of which those that were begun are empty.
/// They enter at cores below 64, and their programs are short enough to be sent.
#[derive(Drop)]
pub(crate) struct Requests {
    places: Vec<Option<PendingRequest>>,
    /// The places before this one are empty.
    first: usize,
    /// Of each core, a place before which no request enters there.
    firsts: Vec<usize>,
}

impl Model for Requests {
    ghost use Rattle.std.specs.Prelude.{List, Option};
    ghost use Rattle.sim_engine.specs.declared.requests.PendingRequest.{PendingRequest};
    ghost use Rattle.sim_engine.specs.Keeping.{IsKept};

    ghost Value = { List (Option PendingRequest) };

    ghost view = { λ r. r.places.items };

    ghost invariant = { λ r. IsKept r.places.items r.first r.firsts.items };
}

impl Requests {
    /// None.
    pub(crate) fn new(alloc: Global) -> Result<Requests, AllocError>
        ensures { IfOk result (λ requests. requests ≡ []) }
    {
        Ok(Requests {
            places: Vec::new(alloc),
            first: 0,
            firsts: vec![in alloc; 0; usize::from(MOST_CORES)]?,
        })
    }

    /// One more request, last.
    pub(crate) fn push(&mut self, request: PendingRequest) -> Result<(), AllocError>
        requires low { request.home < 64 }
        requires short { HasShortProgram request.op }
        ensures { OnOk result (self.new ≡ self.old ++ Some request ∷ []) }
    {
        self.places.push(Some(request))?;
        Ok(())
    }

    /// The request at a place.
    pub(crate) fn at(&self, place: usize) -> Option<&PendingRequest>
        ensures some { IfSome result (λ request. slice_get self.now place ≡ Some (Some request.now)) }
        ensures short { IfSome result (λ request. HasShortProgram request.now.op) }
        ensures none { IfNone result ((request : GhostRequest) → slice_get self.now place ≡ Some (Some request) → ⊥) }
    {
        self.places.get(place)?.as_ref()
    }

    /// The place of the first request.
    pub(crate) fn first(&mut self) -> Option<usize>
        ensures found { MatchOption result (EmptyBefore self.old (length self.old)) (IsFirst self.old) }
        ensures same { self.new ≡ self.old }
    {
        self.first = next_place(&self.places, self.first);
        if self.first < self.places.len() {
            Some(self.first)
        } else {
            None
        }
    }

    /// The place of the first request that enters at a core.
    pub(crate) fn first_at(&mut self, home: u16) -> Option<usize>
        ensures found { MatchOption result (NoneBefore self.old home (length self.old)) (IsFirstAt self.old home) }
        ensures same { self.new ≡ self.old }
    {
        let from = from_at(&self.firsts, home);
        // Such a core has no place to look from, and no request.
        if home >= MOST_CORES {
            return None;
        }
        let place = next_at(&self.places, home, from);
        note(&mut self.firsts, home, place);
        if place < self.places.len() {
            Some(place)
        } else {
            None
        }
    }

    /// Takes the request at a place out.
    pub(crate) fn remove(&mut self, place: usize)
        requires { place < length self.old }
        ensures { self.new ≡ slice_set self.old place None }
    {
        self.places[place] = None;
    }
}

/// The first place from this one on that isn't empty, or the end.
fn next_place(places: &[Option<PendingRequest>], from: usize) -> usize
    requires { EmptyBefore places.now from }
    ensures empty { EmptyBefore places.now result }
    ensures found { result < length places.now → IsFirst places.now result }
{
    for place in from..places.len() {
        if places[place].is_some() {
            return place;
        }
    }
    places.len()
}

/// The place to look from for a core's first request.
fn from_at(firsts: &[usize], home: u16) -> usize
    ensures { (result ≡ 0) ⊎ (slice_get firsts.now home ≡ Some result) }
{
    match firsts.get(usize::from(home)) {
        Some(from) => *from,
        None => 0,
    }
}

/// Notes the place to look from for a core's next first request.
#[tactic(auto, using(crate::proofs::Places::set_get))]
fn note(firsts: &mut Vec<usize>, home: u16, place: usize)
    ensures { (core from : ℕ) → slice_get firsts.new.items core ≡ Some from → (slice_get firsts.old.items core ≡ Some from) ⊎ ((core ≡ home) × (from ≡ place)) }
{
    let core = usize::from(home);
    if core < firsts.len() {
        firsts[core] = place;
    }
}

/// The first place from this one on whose request enters at the core, or the end.
fn next_at(places: &[Option<PendingRequest>], home: u16, from: usize) -> usize
    requires { NoneBefore places.now home from }
    ensures none { NoneBefore places.now home result }
    ensures found { result < length places.now → IsFirstAt places.now home result }
{
    for place in from..places.len() {
        if enters_at(&places[place], home) {
            return place;
        }
    }
    places.len()
}

/// Whether there is a request that enters at the core.
fn enters_at(place: &Option<PendingRequest>, home: u16) -> bool
    ensures yes { IsTrue result → (request : GhostRequest) × (place.now ≡ Some request) × (request.home ≡ home) }
    ensures no { IsFalse result → (request : GhostRequest) → place.now ≡ Some request → request.home ≢ home }
{
    match place {
        Some(request) => request.home == home,
        None => false,
    }
}
