// Texts of tables, and their order.
use std::cmp::Ordering;
use std::test::Fail;
use table_texts::{TableFault, read_table};

#[test]
fn refuses_texts_at_the_least_place(rt: HostRuntime) {
    for (text, place) in [
        ("0,1/1", 3),
        ("0,2/0,0", 1),
        ("00,0", 0),
        ("", 0),
        ("0,0,0", 2),
    ] {
        let fault = read_table(rt.alloc(), 2, text.as_bytes()).err();
        assert_eq!(rt; fault, Some(TableFault::BadTable(place)), "{text}");
    }
}

// Node 1 never appears.
#[test]
fn a_table_need_not_be_standard(rt: HostRuntime) -> Result<(), Fail> {
    let table = read_table(rt.alloc(), 1, b"0/0")?;
    assert!(rt; table.is_complete() && !table.is_standard());
    assert_eq!(rt; table.nodes(), 2);
    Ok(())
}

#[test]
fn compares_tables(rt: HostRuntime) -> Result<(), Fail> {
    let alloc = rt.alloc();
    let less = read_table(alloc, 1, b"1/0")?;
    let more = read_table(alloc, 1, b"1/1")?;
    assert_eq!(rt; less.compare(&more), Ordering::Less);
    assert_eq!(rt; more.compare(&less), Ordering::Greater);
    assert_eq!(rt; more.compare(&more), Ordering::Equal);
    Ok(())
}
