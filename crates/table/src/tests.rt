// Tables of plain numbers, which have no key, and one that ascends.
use crate::{Record, Sorted, Table};
use std::test::Fail;

const LIMIT: usize = 5;

#[derive(Clone, Copy)]
struct Coin {
    worth: u8,
}

impl Record for Coin {
    type Key = u8;

    ghost keyed = { λ c. c.worth };

    fn key(&self) -> u8 {
        self.worth
    }
}

#[test]
fn records_without_a_key_are_copied(rt: HostRuntime) -> Result<(), Fail> {
    let mut table: Table<u32, LIMIT> = Table::new(rt.alloc())?;
    let mut other: Table<u32, LIMIT> = Table::new(rt.alloc())?;
    assert!(rt; table.push(9));
    for x in [7, 3, 7, 1, 5] {
        assert!(rt; other.push(x));
    }
    assert!(rt; !other.push(8));
    table.copy_from(&other);
    assert_eq!(rt; table.as_slice(), [7, 3, 7, 1, 5].as_slice());
    Ok(())
}

#[test]
fn marked_records_without_a_key_stay(rt: HostRuntime) -> Result<(), Fail> {
    let mut table: Table<u32, LIMIT> = Table::new(rt.alloc())?;
    for x in [7, 3, 7, 1] {
        assert!(rt; table.push(x));
    }
    table.retain_marked(&[true, false, true, true, true]);
    assert_eq!(rt; table.as_slice(), [7, 7, 1].as_slice());
    table.retain_marked(&[false, true]);
    assert_eq!(rt; table.as_slice(), [7].as_slice());
    table.retain_marked(&[]);
    assert!(rt; table.as_slice().is_empty());
    Ok(())
}

#[test]
fn every_second_record_of_those_that_ascend_stays(rt: HostRuntime) -> Result<(), Fail> {
    let mut coins: Sorted<Coin, LIMIT> = Sorted::new(rt.alloc())?;
    for worth in [50, 2, 20, 1, 10] {
        assert!(rt; coins.insert(Coin { worth }).is_ok());
    }
    coins.retain_marked(&[true, false, true, false, true]);
    assert_eq!(rt; coins.as_slice().len(), 3);
    for worth in [1, 10, 50] {
        assert!(rt; coins.contains(&worth));
    }
    assert!(rt; coins.put_last(Coin { worth: 20 }).is_err());
    assert!(rt; coins.put_last(Coin { worth: 100 }).is_ok());
    Ok(())
}
