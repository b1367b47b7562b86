// One store over lent memory.
ghost use Rattle.std.specs.Prelude.{◌≡◌, ◌≤◌, cond, length};
ghost use Rattle.simulation.specs.Vacant.{cells_for, bytes_for, even_store, odd_store, Fresh};

use cells::Cell;
use grammar::opening::Kind;
use layers::mixed::Mixed;
use layers::mixed::mark::Marked;
use log_store::Log;
use table::Table;

// Which of the two a store is, by whether its number is even.
pub(crate) fn mark(kind: Kind, even: bool) -> Marked
    ensures { result ≡ cond even (even_store kind) (odd_store kind) }
{
    match (kind, even) {
        (Kind::Table, _) | (Kind::Mixed, true) => Marked::First,
        (Kind::Log, _) | (Kind::Mixed, false) => Marked::Second,
    }
}

// A store of one kind, over the memory of both.
pub(crate) fn kept<'a, 'b>(
    cells: &'a mut [Cell],
    bytes: &'b mut [u8],
    cap: usize,
    marked: Marked,
) -> Mixed<Table<'a>, Log<'b>>
    requires limits { (1 ≤ cap) × (cap ≤ 64) }
    requires cells { length cells.old ≡ cells_for cap }
    requires bytes { length bytes.old ≡ bytes_for cap }
    ensures { Fresh cap marked result }
{
    Mixed::make(Table::make(cells, cap), Log::make(bytes, cap), marked)
}
