//! The picture of a trace as an SVG file.

ghost use Rattle.std.specs.Prelude.{◌≡◌, ◌++◌, ◌+◌, ◌*◌, ◌<◌, ◌≤◌, ◌^◌, map, length, codes, IfOk, OnOk};
ghost use Rattle.std.specs.List.{flat_map};
ghost use Rattle.std.specs.Fmt.{decimal};
ghost use Rattle.trace_lines.specs.Views.{drawn};
ghost use Rattle.draw_engine.specs.Svg as spec;

use itoa::Buffer;
use std::alloc::{AllocError, Global};
use trace_lines::{Act, MessageKind, Picture, Row, TraceMessage};

const HEAD_END: &[u8] =
    b"' font-family='monospace' font-size='11'>\n<title>Messages between cores</title>\n";

/// How it looks.
const STYLE: &[u8] =
    b"<style>text{fill:#222;stroke:#fff;stroke-width:3px;paint-order:stroke}path{fill:none;stroke:#555}.g{fill:#fff}.l{stroke:#bbb}.c{font-weight:bold;text-anchor:middle}.v{fill:#070;font-weight:bold;text-anchor:end}.a{marker-end:url(#h)}.o{stroke:#a50;stroke-dasharray:5 4;marker-end:url(#h)}.e,.p,.r{stroke-width:8px;stroke-linecap:round}.p{stroke:#06c;stroke-linecap:butt}.n,.r{stroke:#c00}.w{fill:#b00}.u{fill:#850}#h path{fill:#777;stroke:none}@media(prefers-color-scheme:dark){text{fill:#ddd;stroke:#181818}path{stroke:#aaa}.g{fill:#181818}.l{stroke:#555}.v{fill:#7d7}.o{stroke:#fb6}.p{stroke:#6bf}.n,.r{stroke:#f66}.w{fill:#f88}.u{fill:#fb6}}</style>\n<defs><marker id='h' viewBox='0 0 8 8' refX='11' refY='4' markerWidth='8' markerHeight='8' markerUnits='userSpaceOnUse' orient='auto'><path d='M0 0L8 4L0 8Z'/></marker></defs>\n<rect class='g' width='100%' height='100%'/>\n";

/// What its marks mean.
const LEGEND: &[u8] =
    b"<path class='e' d='M20 20L20 20'/><text x='28' y='24'>event</text>\n<path class='p' d='M78 20L86 20'/><text x='90' y='24'>packet</text>\n<path class='r' d='M151 20L151 20'/><text x='159' y='24'>refused, vetoed</text>\n<path class='o' d='M276 20L306 20'/><text x='310' y='24'>under way</text>\n";

fn x_of(core: u16) -> u128
    ensures { result ≡ spec.x_of core }
{
    130 * u128::from(core) + 60
}

fn y_of(row: usize) -> u128
    ensures { result ≡ spec.y_of row }
{
    22 * row as u128 + 84
}

/// Below so many rows, with so many further ones.
fn y_below(rows: usize, more: usize) -> u128
    ensures { result ≡ spec.y_below rows more }
{
    y_of(rows) + 22 * more as u128
}

pub(crate) fn core_of(act: Act) -> u16
    ensures { result ≡ spec.core_of act }
{
    match act {
        Act::Start | Act::StartFor(_) | Act::TakeUp(_) => 0,
        Act::Submit(core) | Act::TakeDown(core) | Act::Rx(core) => core,
    }
}

fn from_of(act: Act) -> u16
    ensures { result ≡ spec.from_of act }
{
    match act {
        Act::TakeUp(from) => from,
        _ => 0,
    }
}

pub(crate) fn push_number(text: &mut Vec<u8>, number: u128) -> Result<(), AllocError>
    ensures { OnOk result (text.new.items ≡ text.old.items ++ decimal number) }
{
    let mut digits = Buffer::new();
    text.extend_from_slice(digits.format(number).as_bytes())
}

/// A point of the plane.
#[derive(Clone, Copy)]
struct Point {
    x: u128,
    y: u128,
}

/// A letter of SVG's path data, and the point.
#[tactic(auto, unfolding(crate::specs::Svg::point))]
fn push_point(text: &mut Vec<u8>, letter: &[u8], at: Point) -> Result<(), AllocError>
    ensures { OnOk result (text.new.items ≡ text.old.items ++ spec.point letter.now at.x at.y) }
{
    text.extend_from_slice(letter)?;
    push_number(text, at.x)?;
    text.extend_from_slice(b" ")?;
    push_number(text, at.y)
}

/// A line from one point to another.
#[tactic(auto, unfolding(crate::specs::Svg::stroke))]
fn push_stroke(text: &mut Vec<u8>, class: &[u8], from: Point, to: Point) -> Result<(), AllocError>
    ensures { OnOk result (text.new.items ≡ text.old.items ++ spec.stroke class.now from.x from.y to.x to.y) }
{
    text.extend_from_slice(b"<path class='")?;
    text.extend_from_slice(class)?;
    text.extend_from_slice(b"' d='")?;
    push_point(text, b"M", from)?;
    push_point(text, b"L", to)?;
    text.extend_from_slice(b"'/>\n")
}

/// Words at a point begin.
#[tactic(auto, unfolding(crate::specs::Svg::text_tag))]
fn open_label(text: &mut Vec<u8>, class: &[u8], at: Point) -> Result<(), AllocError>
    ensures { OnOk result (text.new.items ≡ text.old.items ++ spec.text_tag class.now at.x at.y) }
{
    text.extend_from_slice(b"<text class='")?;
    text.extend_from_slice(class)?;
    text.extend_from_slice(b"' x='")?;
    push_number(text, at.x)?;
    text.extend_from_slice(b"' y='")?;
    push_number(text, at.y)?;
    text.extend_from_slice(b"'>")
}

fn close_label(text: &mut Vec<u8>) -> Result<(), AllocError>
    ensures { OnOk result (text.new.items ≡ text.old.items ++ codes "</text>\n") }
{
    text.extend_from_slice(b"</text>\n")
}

/// A core's name, and its line down to the end.
fn push_column(text: &mut Vec<u8>, bottom: u128, core: u16) -> Result<(), AllocError>
    ensures { OnOk result (text.new.items ≡ text.old.items ++ spec.column bottom core) }
{
    let x = x_of(core);
    open_label(text, b"c", Point { x, y: 56 })?;
    text.extend_from_slice(b"core ")?;
    push_number(text, u128::from(core))?;
    close_label(text)?;
    push_stroke(text, b"l", Point { x, y: 64 }, Point { x, y: bottom })
}

fn push_columns(text: &mut Vec<u8>, bottom: u128, highest: u16) -> Result<(), AllocError>
    ensures { OnOk result (text.new.items ≡ text.old.items ++ spec.columns bottom highest) }
{
    for core in 0..=highest {
        push_column(text, bottom, core)?;
    }
    Ok(())
}

fn arrow_class(no: bool) -> &'static [u8]
    ensures { result.now ≡ spec.arrow_class no }
{
    if no { b"a n" } else { b"a" }
}

/// The message that an event takes.
fn push_arrow(text: &mut Vec<u8>, row: &Row<'_>) -> Result<(), AllocError>
    ensures { OnOk result (text.new.items ≡ text.old.items ++ spec.arrow (drawn row.now)) }
{
    let Some(sender) = row.sender else {
        return Ok(());
    };
    let act = row.line.event.act;
    let from = Point {
        x: x_of(from_of(act)),
        y: y_of(sender),
    };
    let to = Point {
        x: x_of(core_of(act)),
        y: y_of(row.row),
    };
    push_stroke(text, arrow_class(row.line.no), from, to)
}

fn push_arrows(text: &mut Vec<u8>, rows: &[Row<'_>]) -> Result<(), AllocError>
    ensures { OnOk result (text.new.items ≡ text.old.items ++ flat_map spec.arrow (map drawn rows.now)) }
{
    for row in rows {
        push_arrow(text, row)?;
    }
    Ok(())
}

fn dot_class(no: bool, act: Act) -> &'static [u8]
    ensures { result.now ≡ spec.dot_class no act }
{
    match act {
        _ if no => b"r",
        Act::Rx(_) => b"p",
        _ => b"e",
    }
}

fn words_class(no: bool) -> &'static [u8]
    ensures { result.now ≡ spec.words_class no }
{
    if no { b"w" } else { b"t" }
}

/// How far a dot reaches to either side of its place.
fn reach(no: bool, act: Act) -> u128
    ensures is { result ≡ spec.reach no act }
    ensures bound { result ≤ 4 }
{
    match act {
        Act::Rx(_) if !no => 4,
        _ => 0,
    }
}

fn push_dot(
    text: &mut Vec<u8>,
    class: &[u8],
    reach: u128,
    core: u16,
    row: usize,
) -> Result<(), AllocError>
    requires { reach ≤ 4 }
    ensures { OnOk result (text.new.items ≡ text.old.items ++ spec.dot class.now reach core row) }
{
    let x = x_of(core);
    let y = y_of(row);
    push_stroke(
        text,
        class,
        Point { x: x - reach, y },
        Point { x: x + reach, y },
    )
}

/// The version that the core comes to.
fn push_version(
    text: &mut Vec<u8>,
    highest: u16,
    row: usize,
    number: &[u8],
) -> Result<(), AllocError>
    ensures { OnOk result (text.new.items ≡ text.old.items ++ spec.version highest row number.now) }
{
    if number.is_empty() {
        return Ok(());
    }
    let at = Point {
        x: 130 * u128::from(highest) + 100,
        y: 22 * row as u128 + 88,
    };
    open_label(text, b"v", at)?;
    text.extend_from_slice(b"v")?;
    text.extend_from_slice(number)?;
    close_label(text)
}

/// Words right of the cores begin.
fn open_words(text: &mut Vec<u8>, class: &[u8], highest: u16, y: u128) -> Result<(), AllocError>
    requires { y < 2 ^ 100 }
    ensures { OnOk result (text.new.items ≡ text.old.items ++ spec.text_tag class.now (130 * highest + 110) (y + 4)) }
{
    let at = Point {
        x: 130 * u128::from(highest) + 110,
        y: y + 4,
    };
    open_label(text, class, at)
}

/// An event's dot, version and line.
fn push_mark(text: &mut Vec<u8>, highest: u16, row: &Row<'_>) -> Result<(), AllocError>
    ensures { OnOk result (text.new.items ≡ text.old.items ++ spec.mark highest (drawn row.now)) }
{
    let line = row.line;
    let act = line.event.act;
    let class = dot_class(line.no, act);
    push_dot(text, class, reach(line.no, act), core_of(act), row.row)?;
    push_version(text, highest, row.row, line.version)?;
    open_words(text, words_class(line.no), highest, y_of(row.row))?;
    text.extend_from_slice(line.text)?;
    close_label(text)
}

fn push_marks(text: &mut Vec<u8>, highest: u16, rows: &[Row<'_>]) -> Result<(), AllocError>
    ensures { OnOk result (text.new.items ≡ text.old.items ++ flat_map (spec.mark highest) (map drawn rows.now)) }
{
    for row in rows {
        push_mark(text, highest, row)?;
    }
    Ok(())
}

pub(crate) fn kind_word(kind: MessageKind) -> &'static [u8]
    ensures { result.now ≡ spec.kind_word kind }
{
    match kind {
        MessageKind::Prepare => b"prepare",
        MessageKind::Vote => b"vote",
        MessageKind::Commit => b"commit",
        MessageKind::Abort => b"abort",
        MessageKind::Ack => b"ack",
        MessageKind::Submit => b"submit",
        MessageKind::Reply => b"reply",
    }
}

/// A message that nobody took.
fn push_open(
    text: &mut Vec<u8>,
    highest: u16,
    rows: usize,
    place: usize,
    message: TraceMessage,
) -> Result<(), AllocError>
    ensures { OnOk result (text.new.items ≡ text.old.items ++ spec.open_arrow highest rows place message) }
{
    let y = y_below(rows, place);
    let from = Point {
        x: x_of(message.from),
        y: y_of(message.row),
    };
    let to = Point {
        x: x_of(message.to),
        y,
    };
    push_stroke(text, b"o", from, to)?;
    open_words(text, b"u", highest, y)?;
    text.extend_from_slice(kind_word(message.kind))?;
    text.extend_from_slice(b" under way")?;
    close_label(text)
}

fn push_all_open(
    text: &mut Vec<u8>,
    highest: u16,
    rows: usize,
    left: &[TraceMessage],
) -> Result<(), AllocError>
    ensures { OnOk result (text.new.items ≡ text.old.items ++ spec.open_from highest rows 0 left.now) }
{
    for place in 0..left.len() {
        push_open(text, highest, rows, place, left[place])?;
    }
    Ok(())
}

/// The length of the longest line.
fn longest(rows: &[Row<'_>]) -> usize
    ensures { result ≡ spec.longest_from 0 (map drawn rows.now) }
{
    let mut longest = 0usize;
    for row in rows {
        longest = longest.max(row.line.text.len());
    }
    longest
}

fn width_of(highest: u16, longest: usize) -> u128
    ensures { result ≡ spec.width_of highest longest }
{
    (130 * u128::from(highest) + 125 + 7 * longest as u128).max(390)
}

#[tactic(auto, unfolding(crate::specs::Svg::view_box))]
fn push_view_box(text: &mut Vec<u8>, width: u128, height: u128) -> Result<(), AllocError>
    ensures { OnOk result (text.new.items ≡ text.old.items ++ spec.view_box width height) }
{
    text.extend_from_slice(b"' viewBox='0 0 ")?;
    push_number(text, width)?;
    text.extend_from_slice(b" ")?;
    push_number(text, height)
}

#[tactic(auto, unfolding(crate::specs::Svg::size))]
fn push_size(text: &mut Vec<u8>, width: u128, height: u128) -> Result<(), AllocError>
    ensures { OnOk result (text.new.items ≡ text.old.items ++ spec.size width height) }
{
    push_number(text, width)?;
    text.extend_from_slice(b"' height='")?;
    push_number(text, height)
}

#[tactic(auto, unfolding(crate::specs::Svg::head_start))]
fn push_head_start(text: &mut Vec<u8>) -> Result<(), AllocError>
    ensures { OnOk result (text.new.items ≡ text.old.items ++ spec.head_start) }
{
    text.extend_from_slice(b"<svg xmlns='http://www.w3.org/2000/svg' width='")
}

#[tactic(auto, unfolding(crate::specs::Svg::head_end))]
fn push_head_end(text: &mut Vec<u8>) -> Result<(), AllocError>
    ensures { OnOk result (text.new.items ≡ text.old.items ++ spec.head_end) }
{
    text.extend_from_slice(HEAD_END)
}

fn push_head(text: &mut Vec<u8>, width: u128, height: u128) -> Result<(), AllocError>
    ensures { OnOk result (text.new.items ≡ text.old.items ++ spec.head width height) }
{
    push_head_start(text)?;
    push_size(text, width, height)?;
    push_view_box(text, width, height)?;
    push_head_end(text)
}

#[tactic(auto, unfolding(crate::specs::Svg::style))]
fn push_style(text: &mut Vec<u8>) -> Result<(), AllocError>
    ensures { OnOk result (text.new.items ≡ text.old.items ++ spec.style) }
{
    text.extend_from_slice(STYLE)
}

#[tactic(auto, unfolding(crate::specs::Svg::legend))]
fn push_legend(text: &mut Vec<u8>) -> Result<(), AllocError>
    ensures { OnOk result (text.new.items ≡ text.old.items ++ spec.legend) }
{
    text.extend_from_slice(LEGEND)
}

/// The picture as an SVG file.
pub(crate) fn svg(alloc: Global, picture: &Picture<'_>) -> Result<Vec<u8>, AllocError>
    ensures { IfOk result (λ text. text.items ≡ spec.svg_of picture.now.highest (map drawn picture.now.rows.items) picture.now.left.items) }
{
    let mut text = Vec::new(alloc);
    let rows = picture.rows.as_slice();
    let left = picture.left.as_slice();
    let bottom = y_below(rows.len(), left.len());
    push_head(
        &mut text,
        width_of(picture.highest, longest(rows)),
        bottom + 20,
    )?;
    push_style(&mut text)?;
    push_legend(&mut text)?;
    push_columns(&mut text, bottom, picture.highest)?;
    push_arrows(&mut text, rows)?;
    push_all_open(&mut text, picture.highest, rows.len(), left)?;
    push_marks(&mut text, picture.highest, rows)?;
    text.extend_from_slice(b"</svg>\n")?;
    Ok(text)
}
