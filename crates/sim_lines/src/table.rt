//! The lines of a core's table.

ghost use Rattle.std.specs.Prelude.{◌≡◌, ◌++◌, ◌<◌, ◌^◌, length, IfOk, OnOk, string_bytes};
ghost use Rattle.table_replica.specs.Lent.{shown_filter};
ghost use Rattle.sim_lines.specs.Tables.{cap_line, filter_line, parent_word, table_text, total_line};
ghost use Rattle.sim_lines.specs.Tables as spec;

use endpoint_caps::{Cap, Parent, Rights};
use std::alloc::{AllocError, Global};
use std::fmt::Write;
use table_replica::{Filter, FilterIter, Replica};

/// The lines of a core's table, which this is the replica of.
pub fn show_core(alloc: Global, core: u16, replica: &Replica) -> Result<Vec<u8>, AllocError>
    ensures { IfOk result (λ text. text.items ≡ table_text core replica.now.shown) }
{
    let mut text = String::new(alloc);
    push_total(&mut text, core, replica)?;
    for entry in replica.caps().list() {
        push_cap(&mut text, entry.1)?;
    }
    for filter in replica.filters() {
        push_filter(&mut text, filter)?;
    }
    Ok(text.into_bytes())
}

/// Prints what a core holds in all.
fn push_total(text: &mut String, core: u16, replica: &Replica) -> Result<(), AllocError>
    ensures { OnOk result (string_bytes text.new ≡ string_bytes text.old ++ total_line core replica.now.shown) }
{
    let version = replica.version();
    let caps = replica.caps().len();
    let instructions = replica.total_instructions();
    let filters = count(replica.filters());
    writeln!(
        text,
        "show {core}: version {version} caps {caps} filters {filters} instructions {instructions}"
    )
}

/// How many filters there are.
fn count(filters: FilterIter<'_>) -> usize
    requires { length filters < 2 ^ 32 }
    ensures { result ≡ length filters.entry }
{
    filters.count()
}

/// Prints a capability.
fn push_cap(text: &mut String, cap: Cap) -> Result<(), AllocError>
    ensures { OnOk result (string_bytes text.new ≡ string_bytes text.old ++ cap_line cap) }
{
    let Cap {
        id,
        endpoint,
        holder,
        rights,
        parent,
    } = cap;
    let rights = rights_name(rights);
    write!(
        text,
        "cap {id} endpoint {endpoint} holder {holder} rights {rights} parent "
    )?;
    push_parent(text, parent)?;
    text.push_str("\n")
}

/// Prints the capability that one was minted from.
fn push_parent(text: &mut String, parent: Parent) -> Result<(), AllocError>
    ensures { OnOk result (string_bytes text.new ≡ string_bytes text.old ++ parent_word parent) }
{
    match parent.id() {
        None => text.push_str("-"),
        Some(id) => write!(text, "{id}"),
    }
}

/// Prints a filter.
fn push_filter(text: &mut String, filter: Filter<'_>) -> Result<(), AllocError>
    ensures { OnOk result (string_bytes text.new ≡ string_bytes text.old ++ filter_line (shown_filter filter.entry)) }
{
    writeln!(
        text,
        "filter {} owner {} cap {} endpoint {} instructions {}",
        filter.id,
        filter.owner,
        filter.cap,
        filter.endpoint,
        filter.program.code().len()
    )
}

/// The short name of rights.
fn rights_name(rights: Rights) -> &'static str
    ensures { result.now ≡ spec.rights_name rights }
{
    match rights {
        Rights::R => "r",
        Rights::M => "m",
        Rights::Rm => "rm",
    }
}
