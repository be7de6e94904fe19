//! The program of a filter.

ghost use Rattle.std.specs.Prelude.{◌≡◌, None, Some, MatchOption};
ghost use Rattle.filter_table.specs.Tables.{filter_at};
ghost use Rattle.mkdemux_cores.specs.Rows.{HasCode};

use bpf_insn::Insn;
use table_replica::Replica;

/// The instructions of the filter with this id, if one is listed.
pub fn filter_code(replica: &Replica, id: u32) -> Option<&[Insn]>
    ensures { MatchOption result (filter_at replica.now.shown.filters id ≡ None) (λ code. HasCode (filter_at replica.now.shown.filters id) code.now) }
{
    let filter = replica.filter(id)?;
    Some(filter.program.code())
}
