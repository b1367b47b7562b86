// Layers: quotas of 0 and over a filled store, a mirror, a mixed, and a stack of them.
use cells::Cell;
use layers::mirror::Mirror;
use layers::mixed::Mixed;
use layers::mixed::mark::Marked;
use layers::quota::Quota;
use stacked::try_stack;
use std::test::Fail;
use store::fault::StoreFault;
use store::value::Value;
use store::{Put, Store};
use table::Table;

const ONE: Value = Value { a: 1, b: 10 };

const TWO: Value = Value { a: 2, b: 20 };

#[test]
fn quota_of_none_takes_nothing(rt: HostRuntime) {
    let mut cells = [Cell::Empty; 2];
    let mut q = Quota::make(Table::make(&mut cells, 2), 0);
    assert_eq!(rt; q.cap(), 0);
    assert_eq!(rt; q.put(1, ONE), Err(StoreFault::Full));
    assert_eq!(rt; q.get(1), None);
    assert_eq!(rt; StoreFault::Full.number(), 4);
}

#[test]
fn quota_over_a_filled_store_answers(rt: HostRuntime) {
    let mut cells = [Cell::Empty; 3];
    let mut t = Table::make(&mut cells, 3);
    assert_eq!(rt; t.put(1, ONE), Ok(Put::New));
    assert_eq!(rt; t.put(2, ONE), Ok(Put::New));
    let mut q = Quota::make(t, 1);
    assert_eq!(rt; q.count(), 2);
    assert_eq!(rt; q.cap(), 1);
    assert_eq!(rt; q.put(3, ONE), Err(StoreFault::Full));
    assert_eq!(rt; q.put(2, TWO), Ok(Put::Replaced));
    assert!(rt; q.remove(1));
    assert_eq!(rt; q.next(0), Some(2));
}

#[test]
fn mirror_wants_empty_halves(rt: HostRuntime) {
    let mut a = [Cell::Empty; 2];
    let mut b = [Cell::Empty; 2];
    let mut left = Table::make(&mut a, 2);
    let right = Table::make(&mut b, 2);
    assert_eq!(rt; Mirror::check(&left, &right), Ok(()));
    assert_eq!(rt; left.put(1, ONE), Ok(Put::New));
    assert_eq!(rt; Mirror::check(&left, &right), Err(StoreFault::HoldsPair));
    assert_eq!(rt; StoreFault::HoldsPair.number(), 6);
}

#[test]
fn mirror_is_as_small_as_its_smaller_half(rt: HostRuntime) {
    let mut a = [Cell::Empty; 2];
    let mut b = [Cell::Empty; 1];
    let mut m = Mirror::make(Table::make(&mut a, 2), Table::make(&mut b, 1));
    assert_eq!(rt; m.cap(), 1);
    assert_eq!(rt; m.put(5, ONE), Ok(Put::New));
    assert_eq!(rt; m.put(6, ONE), Err(StoreFault::Full));
    assert_eq!(rt; m.get(6), None);
    assert!(rt; m.remove(5));
}

#[test]
fn mixed_is_the_marked_store(rt: HostRuntime) {
    let mut a = [Cell::Empty; 1];
    let mut b = [Cell::Empty; 2];
    let mut m = Mixed::make(
        Table::make(&mut a, 1),
        Table::make(&mut b, 2),
        Marked::Second,
    );
    assert_eq!(rt; m.cap(), 2);
    assert_eq!(rt; m.put(4, ONE), Ok(Put::New));
    assert_eq!(rt; m.put(5, TWO), Ok(Put::New));
    assert_eq!(rt; m.count(), 2);
    assert_eq!(rt; m.next(5), Some(5));
}

#[test]
fn a_stack_of_layers_is_a_store(rt: HostRuntime) -> Result<(), Fail> {
    let t = try_stack(1, 9, TWO)?;
    assert_eq!(rt; t.cap, 1);
    assert_eq!(rt; t.put, Ok(Put::New));
    assert_eq!(rt; t.got, Some(TWO));
    assert!(rt; t.removed);
    assert_eq!(rt; t.after, None);
    Ok(())
}
