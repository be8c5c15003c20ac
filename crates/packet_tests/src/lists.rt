use shortlist::{ListFull, ShortList};
use std::test::Fail;

// Three elements, put in here and there, and no place for a fourth.
#[test]
fn short_lists(rt: HostRuntime) -> Result<(), Fail> {
    let mut list: ShortList<u8, 3> = ShortList::new(0);
    assert_eq!(rt; list.len(), 0);
    assert_eq!(rt; list.push(9), Ok(()));
    assert_eq!(rt; list.insert(0, 4), Ok(()));
    assert_eq!(rt; list.insert(200, 7), Ok(()));
    list.set(2, 2);
    list.set(3, 5);
    assert!(rt; list.as_slice() == [4, 9, 2].as_slice());
    assert_eq!(rt; list.push(1), Err(ListFull));
    assert_eq!(rt; list.insert(1, 1), Err(ListFull));
    let copy = list.clone()?;
    assert!(rt; copy.as_slice() == [4, 9, 2].as_slice());
    let few = ShortList::<u8, 3>::from_slice(&[1, 2], 0).ok_or("no room")?;
    assert!(rt; few.as_slice() == [1, 2].as_slice());
    assert!(rt; ShortList::<u8, 3>::from_slice(&[1, 2, 3, 4], 0).is_none());
    Ok(())
}
