//! The picture of a trace as text.

ghost use Rattle.std.specs.Prelude.{◌≡◌, ◌++◌, map, codes, IfOk, OnOk};
ghost use Rattle.std.specs.List.{flat_map};
ghost use Rattle.trace_lines.specs.Views.{drawn};
ghost use Rattle.draw_engine.specs.Svg.{cores};
ghost use Rattle.draw_engine.specs.Text as spec;

use crate::svg::{core_of, kind_word, push_number};
use itoa::Buffer;
use std::alloc::{AllocError, Global};
use trace_lines::{Act, Picture, Row, TraceMessage};

const SPACES: [u8; 8] = *b"        ";

/// A column's words, with spaces up to the next column.
#[tactic(auto, unfolding(crate::specs::Text::cell))]
fn push_cell(text: &mut Vec<u8>, front: &[u8], word: &[u8]) -> Result<(), AllocError>
    ensures { OnOk result (text.new.items ≡ text.old.items ++ spec.cell front.now word.now) }
{
    let room = 8usize
        .saturating_sub(front.len())
        .saturating_sub(word.len());
    text.extend_from_slice(front)?;
    text.extend_from_slice(word)?;
    text.extend_from_slice(&SPACES[..room])
}

fn sign(refused: bool, act: Act) -> &'static [u8]
    ensures { result.now ≡ spec.sign refused act }
{
    match act {
        _ if refused => b"x",
        Act::Rx(_) => b"#",
        _ => b"*",
    }
}

/// The version that the core comes to, or the event's sign.
fn push_own_cell(text: &mut Vec<u8>, row: &Row<'_>) -> Result<(), AllocError>
    ensures { OnOk result (text.new.items ≡ text.old.items ++ spec.own_cell (drawn row.now)) }
{
    if row.line.version.is_empty() {
        push_cell(text, sign(row.line.no, row.line.event.act), b"")
    } else {
        push_cell(text, b"v", row.line.version)
    }
}

fn push_core_cell(text: &mut Vec<u8>, row: &Row<'_>, core: u16) -> Result<(), AllocError>
    ensures { OnOk result (text.new.items ≡ text.old.items ++ spec.core_cell (drawn row.now) core) }
{
    if core == core_of(row.line.event.act) {
        push_own_cell(text, row)
    } else {
        push_cell(text, b"|", b"")
    }
}

fn push_cells(text: &mut Vec<u8>, highest: u16, row: &Row<'_>) -> Result<(), AllocError>
    ensures { OnOk result (text.new.items ≡ text.old.items ++ flat_map (spec.core_cell (drawn row.now)) (cores highest)) }
{
    for core in 0..=highest {
        push_core_cell(text, row, core)?;
    }
    Ok(())
}

/// The row of the event that sent the message, from 1.
fn push_sender(text: &mut Vec<u8>, sender: Option<usize>) -> Result<(), AllocError>
    ensures { OnOk result (text.new.items ≡ text.old.items ++ spec.sender_words sender) }
{
    let Some(row) = sender else {
        return Ok(());
    };
    text.extend_from_slice(b" <- ")?;
    push_number(text, row as u128 + 1)
}

fn push_row(text: &mut Vec<u8>, highest: u16, row: &Row<'_>) -> Result<(), AllocError>
    ensures { OnOk result (text.new.items ≡ text.old.items ++ spec.text_row highest (drawn row.now)) }
{
    push_cells(text, highest, row)?;
    push_number(text, row.row as u128 + 1)?;
    text.extend_from_slice(b" ")?;
    text.extend_from_slice(row.line.text)?;
    push_sender(text, row.sender)?;
    text.extend_from_slice(b"\n")
}

fn push_rows(text: &mut Vec<u8>, highest: u16, rows: &[Row<'_>]) -> Result<(), AllocError>
    ensures { OnOk result (text.new.items ≡ text.old.items ++ flat_map (spec.text_row highest) (map drawn rows.now)) }
{
    for row in rows {
        push_row(text, highest, row)?;
    }
    Ok(())
}

/// A message that nobody took.
fn push_open_row(text: &mut Vec<u8>, message: TraceMessage) -> Result<(), AllocError>
    ensures { OnOk result (text.new.items ≡ text.old.items ++ spec.open_row message) }
{
    text.extend_from_slice(b"under way: ")?;
    text.extend_from_slice(kind_word(message.kind))?;
    text.extend_from_slice(b" to core ")?;
    push_number(text, u128::from(message.to))?;
    text.extend_from_slice(b" <- ")?;
    push_number(text, message.row as u128 + 1)?;
    text.extend_from_slice(b"\n")
}

fn push_open_rows(text: &mut Vec<u8>, left: &[TraceMessage]) -> Result<(), AllocError>
    ensures { OnOk result (text.new.items ≡ text.old.items ++ flat_map spec.open_row left.now) }
{
    for message in left {
        push_open_row(text, *message)?;
    }
    Ok(())
}

fn push_name(text: &mut Vec<u8>, core: u16) -> Result<(), AllocError>
    ensures { OnOk result (text.new.items ≡ text.old.items ++ spec.name_cell core) }
{
    let mut digits = Buffer::new();
    push_cell(text, b"core ", digits.format(core).as_bytes())
}

fn push_names(text: &mut Vec<u8>, highest: u16) -> Result<(), AllocError>
    ensures { OnOk result (text.new.items ≡ text.old.items ++ flat_map spec.name_cell (cores highest)) }
{
    for core in 0..=highest {
        push_name(text, core)?;
    }
    Ok(())
}

/// The picture as text.
pub(crate) fn draw_as_text(alloc: Global, picture: &Picture<'_>) -> Result<Vec<u8>, AllocError>
    ensures { IfOk result (λ text. text.items ≡ spec.text_of picture.now.highest (map drawn picture.now.rows.items) picture.now.left.items) }
{
    let mut text = Vec::new(alloc);
    push_names(&mut text, picture.highest)?;
    text.extend_from_slice(b"\n")?;
    push_rows(&mut text, picture.highest, picture.rows.as_slice())?;
    push_open_rows(&mut text, picture.left.as_slice())?;
    Ok(text)
}
