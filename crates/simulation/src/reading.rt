// Reads a script into rows.
ghost use Rattle.std.specs.Prelude.{◌≡◌, ◌≤◌, length, MatchResult};
ghost use Rattle.transcript.specs.Sessions.{RowsRead, longest_script};

use grammar::command::Command;
use grammar::fault::LineFault;
use script::commands::read_command;
use script::lines::Lines;
use std::alloc::Global;
use transcript::fault::RunFault;

// What the lines say that are left, the first of which has number 2.
pub(crate) fn read_rows(
    heap: Global,
    lines: Lines,
) -> Result<Vec<Result<Command, LineFault>>, RunFault>
    requires { length lines ≤ longest_script }
    ensures { MatchResult result (λ v. RowsRead 2 lines.entry v.items) (λ f. f ≡ RunFault.Memory) }
{
    let mut rows = Vec::new(heap);
    for (number, line) in (2..).zip(lines) {
        rows.push(read_command(line, number))?;
    }
    Ok(rows)
}
