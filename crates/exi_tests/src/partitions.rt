use exi_strings::{Partitions, TableFull};
use std::alloc::Global;

/// A third item finds a table of two full.
fn two_are_entered(table: &mut Partitions<char>) -> bool {
    table.enter(7, 'a') == Ok(())
        && table.enter(9, 'b') == Ok(())
        && table.enter(7, 'c') == Err(TableFull)
        && table.globals() == 2
        && table.locals(9) == 1
}

/// The second is found by its name and among all.
fn the_second_is_found(table: &Partitions<char>) -> bool {
    let (Some(local), Some(global)) = (table.local(9, 0), table.global(1)) else {
        return false;
    };
    let [_, entry] = table.entries() else {
        return false;
    };
    let (name, letter) = *entry;
    let (local, global) = (*local, *global);
    local == 'b'
        && table.local(9, 1).is_none()
        && global == 'b'
        && table.global(2).is_none()
        && name == 9
        && letter == 'b'
}

fn a_table_of_two(alloc: Global) -> bool {
    let Ok(mut table) = Partitions::make(alloc, 2) else {
        return false;
    };
    if !two_are_entered(&mut table) || !the_second_is_found(&table) {
        return false;
    }
    table.clear();
    table.globals() == 0 && table.enter(7, 'c') == Ok(())
}

#[test]
fn a_third_item_finds_a_table_of_two_full(rt: HostRuntime) {
    assert!(rt; a_table_of_two(rt.alloc()));
}
