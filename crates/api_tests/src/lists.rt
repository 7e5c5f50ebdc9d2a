// Lists in lent storage.
use slice_vec::vec::{Full, SliceVec};

#[test]
fn without_room(rt: HostRuntime) {
    let mut list = SliceVec::new(&mut []);
    assert!(rt; (list.len(), list.capacity(), list.is_full()) == (0, 0, true));
    assert!(rt; list.push(5u8) == Err(Full));
    assert!(rt; list.len() == 0);
    assert!(rt; list.into_inner().len() == 0);
}

// Nothing behind the items is touched.
#[test]
fn cleared_and_filled_again(rt: HostRuntime) {
    let mut storage = [7u8, 8, 9];
    let mut list = SliceVec::new(&mut storage);
    assert!(rt; list.push(1) == Ok(()));
    assert!(rt; list.push(2) == Ok(()));
    list.clear();
    assert!(rt; (list.len(), list.capacity(), list.is_full()) == (0, 3, false));
    assert!(rt; list.push(3) == Ok(()));
    assert!(rt; list.as_slice() == [3u8].as_slice());
    assert!(rt; &*list.into_inner() == [3u8, 2, 9].as_slice());
    assert!(rt; storage == [3, 2, 9]);
}
