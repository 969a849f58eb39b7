use crate::{filled, law_all_within, law_clean_wishes_fill, law_same_numbers};
use std::test::Fail;

/// Wishes, and the positions by hand: wishes are met, and the least free positions come first.
const FILLINGS: [(&[Option<u32>], &[u32]); 6] = [
    (&[], &[]),
    (&[None, None, None], &[1, 2, 3]),
    (&[Some(1), None, None, None], &[1, 2, 3, 4]),
    (&[Some(1), None, Some(2), None], &[1, 3, 2, 4]),
    (&[None, Some(4), None, Some(1)], &[2, 4, 3, 1]),
    (&[Some(3), Some(1), Some(2)], &[3, 1, 2]),
];

#[test]
fn wishes_are_filled(rt: HostRuntime) -> Result<(), Fail> {
    for (wishes, want) in FILLINGS {
        let positions = filled(rt.alloc(), wishes)?;
        assert_eq!(rt; positions.as_slice(), want, "{wishes:?}");
    }
    Ok(())
}

#[test]
fn laws_are_calls(_rt: HostRuntime) {
    law_same_numbers();
    law_all_within();
    law_clean_wishes_fill();
}
