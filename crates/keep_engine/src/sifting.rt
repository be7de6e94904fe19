//! Whole records, of which some are kept.

ghost use Rattle.std.specs.Prelude.{◌≡◌, ◌++◌, [], IfOk, OnOk};
ghost use Rattle.console.specs.Programs.{programs_of};
ghost use Rattle.keep_engine.specs.Sieving.{IsLeft, TakesRecords, TakesTo};

use crate::choice::{KeptBytes, Wanted, keep_one};
use capture_reader::savefile_link;
use console::Filter;
use pcap_reader::Header;
use savefile_front::{Front, front_of, length_of};
use std::alloc::AllocError;

/// How far bytes were taken.
#[derive(Clone, Copy, Debug)]
pub struct TakenRecords {
    /// How many bytes the whole records at their front have.
    pub count: usize,
    /// Whether a record comes next that is too long.
    pub long: bool,
}

/// Takes the whole records off the front of a part of a record and a piece after it, and appends those that are kept. What is left
/// is the new part. True where a record comes next that is too long.
///
/// Of the piece what belongs to a record that was cut is copied, and no more.
pub fn take_piece(
    filter: &Filter,
    wanted: Wanted,
    header: Header,
    part: &mut Vec<u8>,
    piece: &[u8],
    kept: &mut KeptBytes,
) -> Result<bool, AllocError>
    ensures takes { OnOk result (TakesRecords (programs_of filter.now) wanted header (part.old.items ++ piece.now) part.new.items kept.old kept.new) }
    ensures left { IfOk result (λ long. IsLeft header.big long part.new.items) }
{
    let rest = complete(header.big, part, piece)?;
    take_whole(filter, wanted, header, part, kept)?;
    if part.is_empty() {
        return take_in_place(filter, wanted, header, part, rest, kept);
    }
    part.extend_from_slice(rest)?;
    take_records(filter, wanted, header, part, kept)
}

/// Moves bytes off the front of a piece to a part of a record, up to the record's end, and answers the rest.
fn complete<'p>(big: bool, part: &mut Vec<u8>, piece: &'p [u8]) -> Result<&'p [u8], AllocError>
    ensures { IfOk result (λ rest. part.old.items ++ piece.now ≡ part.new.items ++ rest.now) }
{
    if part.is_empty() {
        return Ok(piece);
    }
    let rest = grow(part, length_of(big, part.as_slice()), piece)?;
    grow(part, length_of(big, part.as_slice()), rest)
}

/// Moves bytes off the front of a piece to a part, until that has so many, and answers the rest.
fn grow<'p>(part: &mut Vec<u8>, length: usize, piece: &'p [u8]) -> Result<&'p [u8], AllocError>
    ensures { IfOk result (λ rest. part.old.items ++ piece.now ≡ part.new.items ++ rest.now) }
{
    let count = length.saturating_sub(part.len()).min(piece.len());
    part.extend_from_slice(&piece[..count])?;
    Ok(&piece[count..])
}

/// Takes the record that a part has become, if it is whole.
fn take_whole(
    filter: &Filter,
    wanted: Wanted,
    header: Header,
    part: &mut Vec<u8>,
    kept: &mut KeptBytes,
) -> Result<(), AllocError>
    ensures { OnOk result (TakesRecords (programs_of filter.now) wanted header part.old.items part.new.items kept.old kept.new) }
{
    match front_of(header.big, part.as_slice()) {
        Front::Record { length, packet } if length == part.len() => {
            keep_one(
                filter,
                wanted,
                savefile_link(header),
                packet,
                part.as_slice(),
                kept,
            )?;
            part.clear();
            Ok(())
        }
        _ => Ok(()),
    }
}

/// The same as `take_piece` where there is no part yet.
fn take_in_place(
    filter: &Filter,
    wanted: Wanted,
    header: Header,
    part: &mut Vec<u8>,
    piece: &[u8],
    kept: &mut KeptBytes,
) -> Result<bool, AllocError>
    requires { part.old.items ≡ [] }
    ensures takes { OnOk result (TakesRecords (programs_of filter.now) wanted header piece.now part.new.items kept.old kept.new) }
    ensures left { IfOk result (λ long. IsLeft header.big long part.new.items) }
{
    let taken = sift(filter, wanted, header, piece, kept)?;
    part.extend_from_slice(&piece[taken.count..])?;
    Ok(taken.long)
}

/// Takes the whole records off the front of a part of a capture, and appends those that are kept. True where a record comes next
/// that is too long.
pub fn take_records(
    filter: &Filter,
    wanted: Wanted,
    header: Header,
    part: &mut Vec<u8>,
    kept: &mut KeptBytes,
) -> Result<bool, AllocError>
    ensures takes { OnOk result (TakesRecords (programs_of filter.now) wanted header part.old.items part.new.items kept.old kept.new) }
    ensures left { IfOk result (λ long. IsLeft header.big long part.new.items) }
{
    let taken = sift(filter, wanted, header, part.as_slice(), kept)?;
    if taken.count > 0 {
        let rest = part.split_off(taken.count)?;
        *part = rest;
    }
    Ok(taken.long)
}

/// Runs the filter on the packets of the whole records at the front of some bytes, and appends the records that are kept.
fn sift(
    filter: &Filter,
    wanted: Wanted,
    header: Header,
    bytes: &[u8],
    kept: &mut KeptBytes,
) -> Result<TakenRecords, AllocError>
    ensures { IfOk result (TakesTo (programs_of filter.now) wanted header bytes.now kept.old kept.new) }
{
    let mut count = 0;
    loop {
        let rest = &bytes[count..];
        match front_of(header.big, rest) {
            Front::Record { length, packet } => {
                keep_one(
                    filter,
                    wanted,
                    savefile_link(header),
                    packet,
                    &rest[..length],
                    kept,
                )?;
                count += length;
            }
            Front::Part => return Ok(TakenRecords { count, long: false }),
            Front::TooLong => return Ok(TakenRecords { count, long: true }),
        }
    }
}
