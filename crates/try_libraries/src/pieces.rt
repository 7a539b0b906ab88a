//! What no clause says: how entries are cut.
use sk_pieces::Pieces;
use std::alloc::{AllocError, Global};
use std::test::Fail;

/// How many pieces there are of 300 odd ids, with one more between two of them, and without those; and how many entries then.
fn pieces(alloc: Global) -> Result<(usize, usize, usize, u32), AllocError> {
    let mut list = Pieces::new(alloc);
    for i in 0..300u32 {
        list.put(2 * i + 1, i)?;
    }
    let odd = list.pieces().len();
    list.put(100, 7)?;
    let more = list.pieces().len();
    for i in 0..300u32 {
        list.take(2 * i + 1);
    }
    Ok((odd, more, list.pieces().len(), list.length()))
}

#[test]
fn a_list_of_many_pieces(rt: HostRuntime) -> Result<(), Fail> {
    assert_eq!(rt; pieces(rt.alloc())?, (3, 4, 1, 1));
    Ok(())
}
