// Banks: stores by number, past the last, and the first of a longer bank.
use bank::Bank;
use bank::beside::Beside;
use bank::empty::Empty;
use bank::first::First;
use cells::Cell;
use layers::quota::Quota;
use store::fault::StoreFault;
use store::value::Value;
use store::{Put, Store};
use table::Table;

const ONE: Value = Value { a: 1, b: 10 };

#[test]
fn bank_numbers_its_stores(rt: HostRuntime) {
    let mut a = [Cell::Empty; 1];
    let mut b = [Cell::Empty; 2];
    let second = Beside {
        store: Quota::make(Table::make(&mut b, 2), 2),
        rest: Empty {},
    };
    let mut bank = Beside {
        store: Table::make(&mut a, 1),
        rest: second,
    };
    assert_eq!(rt; bank.len(), 2);
    assert_eq!(rt; bank.put(1, 5, ONE), Ok(Put::New));
    assert_eq!(rt; bank.get(1, 5), Some(ONE));
    assert_eq!(rt; bank.count(0), 0);
    assert_eq!(rt; bank.cap(1), 2);
}

#[test]
fn past_the_last_there_is_nothing(rt: HostRuntime) {
    let mut a = [Cell::Empty; 1];
    let mut bank = Beside {
        store: Table::make(&mut a, 1),
        rest: Empty {},
    };
    assert_eq!(rt; bank.get(1, 5), None);
    assert_eq!(rt; bank.next(1, 0), None);
    assert_eq!(rt; bank.put(1, 5, ONE), Err(StoreFault::Full));
    assert!(rt; !bank.remove(1, 5));
    assert_eq!(rt; bank.count(1), 0);
    assert_eq!(rt; bank.cap(1), 0);
}

#[test]
fn first_stores_leave_the_others(rt: HostRuntime) {
    let mut a = [Cell::Empty; 1];
    let mut b = [Cell::Empty; 1];
    let second = Beside {
        store: Table::make(&mut b, 1),
        rest: Empty {},
    };
    let bank = Beside {
        store: Table::make(&mut a, 1),
        rest: second,
    };
    let mut first = First { bank, few: 1 };
    assert_eq!(rt; first.len(), 1);
    assert_eq!(rt; first.put(0, 5, ONE), Ok(Put::New));
    assert_eq!(rt; first.put(1, 5, ONE), Err(StoreFault::Full));
    assert_eq!(rt; first.bank.count(1), 0);
}
