// Tables: one cell, no empty cell left, gone cells only, walks that wrap, refused openings.
use cells::Cell;
use store::fault::StoreFault;
use store::value::Value;
use store::{Put, Store};
use table::Table;

const ONE: Value = Value { a: 1, b: 10 };

const TWO: Value = Value { a: 2, b: 20 };

#[test]
fn one_cell_is_replaced_and_taken_again(rt: HostRuntime) {
    let mut cells = [Cell::Empty; 1];
    let mut t = Table::make(&mut cells, 1);
    assert_eq!(rt; t.put(7, ONE), Ok(Put::New));
    assert_eq!(rt; t.put(7, TWO), Ok(Put::Replaced));
    assert_eq!(rt; t.put(8, ONE), Err(StoreFault::Full));
    assert_eq!(rt; t.get(7), Some(TWO));
    assert!(rt; t.remove(7));
    assert_eq!(rt; t.put(8, ONE), Ok(Put::New));
    assert_eq!(rt; cells[0], Cell::Live { key: 8, value: ONE });
}

#[test]
fn full_table_has_no_empty_cell(rt: HostRuntime) {
    let mut cells = [Cell::Empty; 2];
    let mut t = Table::make(&mut cells, 2);
    assert_eq!(rt; t.put(0, ONE), Ok(Put::New));
    assert_eq!(rt; t.put(2, TWO), Ok(Put::New));
    assert_eq!(rt; t.get(2), Some(TWO));
    assert_eq!(rt; t.get(4), None);
    assert!(rt; !t.remove(4));
    assert_eq!(rt; t.next(1), Some(2));
    assert_eq!(rt; t.next(3), None);
    assert_eq!(rt; t.put(4, ONE), Err(StoreFault::Full));
}

#[test]
fn gone_cells_are_walked_past_and_taken(rt: HostRuntime) {
    let mut cells = [Cell::Empty; 2];
    let mut t = Table::make(&mut cells, 2);
    assert_eq!(rt; t.put(0, ONE), Ok(Put::New));
    assert_eq!(rt; t.put(1, ONE), Ok(Put::New));
    assert!(rt; t.remove(0));
    assert!(rt; t.remove(1));
    assert_eq!(rt; t.count(), 0);
    assert_eq!(rt; t.get(1), None);
    assert_eq!(rt; t.put(3, TWO), Ok(Put::New));
    assert_eq!(rt; cells[0], Cell::Gone);
    assert_eq!(rt; cells[1], Cell::Live { key: 3, value: TWO });
}

#[test]
fn walks_wrap_around(rt: HostRuntime) {
    let mut cells = [Cell::Empty; 4];
    let mut t = Table::make(&mut cells, 3);
    assert_eq!(rt; t.put(3, ONE), Ok(Put::New));
    assert_eq!(rt; t.put(7, TWO), Ok(Put::New));
    assert!(rt; t.remove(3));
    assert_eq!(rt; t.get(7), Some(TWO));
    assert_eq!(rt; cells[0], Cell::Live { key: 7, value: TWO });
    assert_eq!(rt; cells[3], Cell::Gone);
}

#[test]
fn openings_beyond_a_limit_are_refused(rt: HostRuntime) {
    let cells = [Cell::Empty; 2];
    assert_eq!(rt; Table::check(&cells, 0), Err(StoreFault::BeyondLimit));
    assert_eq!(rt; Table::check(&cells, 1), Ok(()));
    assert_eq!(rt; Table::check(&cells, 2), Ok(()));
    assert_eq!(rt; Table::check(&cells, 3), Err(StoreFault::BeyondLimit));
    assert_eq!(rt; Table::check(&cells[0..0], 1), Err(StoreFault::BeyondLimit));
    assert_eq!(rt; StoreFault::BeyondLimit.number(), 2);
}
